//! What a session leaves when it ends.
use ot_model::Doc;
use plain_list::List;

/// What a site of a session has integrated, and the document that it holds.
#[derive(Drop)]
pub struct SiteEnd {
    /// The numbers of the operations, in the order in which they were integrated.
    pub seen: List<u32>,

    /// The document.
    pub doc: Doc,
}
