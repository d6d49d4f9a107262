//! How an integration ends.
use ot_model::Doc;

/// How integrating in an order ends.
#[derive(Drop)]
pub enum End {
    /// All operations were executed; this is the document behind them.
    Doc(Doc),

    /// The operation at this place of the order, counted from 0, has no form, or its form isn't enabled
    /// on the document as it then stands.
    Stuck(u32),
}
