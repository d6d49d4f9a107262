//! A site of a session.
ghost use Rattle.std.specs.Prelude.{◌≡◌, ◌<◌, ◌↔◌, length, replicate, false, IfOk, OnOk, OnErr, Err};
ghost use Rattle.ot_model.specs.Effect.{IsEnabled};
ghost use Rattle.ot_session.specs.Sites.{IsFresh, Executes, IsSameSite, site_end_of, view_site};

use crate::ending::SiteEnd;
use crate::limits::MAX_MADE;
use crate::table::Table;
use ot_model::{Apply, Doc, Mode, Op, apply};
use plain_list::List;
use std::alloc::{AllocError, Global};

/// Marks for all numbers that there can be, none of which is marked.
fn no_marks(alloc: Global) -> Result<List<bool>, AllocError>
    ensures { IfOk result (λ marks. marks ≡ replicate MAX_MADE false) }
{
    Ok(List::from_vec(Vec::from_elem(alloc, false, MAX_MADE)?))
}

/// A site: its document, and which operations are integrated or held there.
#[derive(Drop)]
pub(crate) struct Site {
    pub doc: Doc,

    /// The numbers of what is integrated, in order.
    pub seen: Vec<u32>,

    /// For each number, whether the operation is integrated.
    pub integrated: List<bool>,

    /// For each number, whether the operation is held.
    pub held: List<bool>,

    /// The forms that were made at the site.
    pub table: Table,
}

impl Site {
    /// A site that holds the document, where nothing is integrated.
    pub fn new(alloc: Global, doc: &Doc) -> Result<Site, AllocError>
        ensures { IfOk result (λ site. IsFresh doc.now site) }
    {
        let integrated = no_marks(alloc)?;
        let held = no_marks(alloc)?;
        let doc = doc.try_clone()?;
        Ok(Site {
            doc,
            seen: Vec::new(alloc),
            integrated,
            held,
            table: Table::new(alloc),
        })
    }

    /// Executes an operation, which is integrated then. A site that was refused is as it was.
    pub fn execute(&mut self, mode: Mode, number: u32, form: &Op) -> Result<(), Apply>
        requires { number < length self.old.integrated }
        ensures ok { OnOk result (Executes mode number form.now self.old self.new) }
        ensures err { OnErr result (IsSameSite self.old self.new) }
        ensures not_enabled { result ≡ Err Apply.NotEnabled → ¬ (IsEnabled form.now (length self.old.doc)) }
    {
        self.seen.reserve(1)?;
        apply(mode, form, &mut self.doc)?;
        self.seen.push_reserved(number);
        self.integrated.set(number as usize, true);
        Ok(())
    }

    /// What the site leaves.
    pub fn into_end(self) -> SiteEnd
        ensures { result ≡ site_end_of (view_site self) }
    {
        SiteEnd {
            seen: List::from_vec(self.seen),
            doc: self.doc,
        }
    }
}
