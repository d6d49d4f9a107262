//! Documents: what operations made of the document that both ways come from.
ghost use Rattle.std.specs.Prelude.{◌≡◌, IfOk};
ghost use Rattle.ot_terms.specs.Documents as trees;
ghost use Rattle.ot_terms.specs.Documents.{doc_tree};

use crate::arena::placed;
use ask_core::NoMemory;
use bumpalo::Bump;
use ot_questions::Place;

/// A document, by the changes that made it, the last one first.
#[derive(Clone, Copy)]
pub enum DocT<'a> {
    /// The document that both ways come from.
    Base,

    /// The character named `ch` was put in at the place.
    Put {
        doc: &'a DocT<'a>,
        at: Place,
        ch: u8,
    },

    /// The cell at the place was taken out.
    Cut {
        doc: &'a DocT<'a>,
        at: Place,
    },

    /// The cell at the place was made dead.
    Mark {
        doc: &'a DocT<'a>,
        at: Place,
    },

    /// The cell at the place got the character named `ch`.
    Over {
        doc: &'a DocT<'a>,
        at: Place,
        ch: u8,
    },
}

impl<'a> DocT<'a> {
    pub fn base(bump: &'a Bump) -> Result<&'a DocT<'a>, NoMemory>
        ensures { IfOk result (λ r. doc_tree r.now ≡ trees.Base) }
    {
        placed(bump, DocT::Base)
    }

    pub fn put(
        bump: &'a Bump,
        doc: &'a DocT<'a>,
        at: Place,
        ch: u8,
    ) -> Result<&'a DocT<'a>, NoMemory>
        ensures { IfOk result (λ r. doc_tree r.now ≡ trees.Put (doc_tree doc.now) at ch) }
    {
        placed(bump, DocT::Put { doc, at, ch })
    }

    pub fn cut(bump: &'a Bump, doc: &'a DocT<'a>, at: Place) -> Result<&'a DocT<'a>, NoMemory>
        ensures { IfOk result (λ r. doc_tree r.now ≡ trees.Cut (doc_tree doc.now) at) }
    {
        placed(bump, DocT::Cut { doc, at })
    }

    pub fn mark(bump: &'a Bump, doc: &'a DocT<'a>, at: Place) -> Result<&'a DocT<'a>, NoMemory>
        ensures { IfOk result (λ r. doc_tree r.now ≡ trees.Mark (doc_tree doc.now) at) }
    {
        placed(bump, DocT::Mark { doc, at })
    }

    pub fn over(
        bump: &'a Bump,
        doc: &'a DocT<'a>,
        at: Place,
        ch: u8,
    ) -> Result<&'a DocT<'a>, NoMemory>
        ensures { IfOk result (λ r. doc_tree r.now ≡ trees.Over (doc_tree doc.now) at ch) }
    {
        placed(bump, DocT::Over { doc, at, ch })
    }
}
