//! Cells of documents, read or still to be read.
ghost use Rattle.std.specs.Prelude.{◌≡◌, IfOk};
ghost use Rattle.ot_terms.specs.Cells as trees;
ghost use Rattle.ot_terms.specs.Cells.{cell_tree};
ghost use Rattle.ot_terms.specs.Documents.{doc_tree};
ghost use Rattle.ot_terms.specs.Forms.{form_tree};

use crate::arena::placed;
use crate::document::DocT;
use crate::form::Form;
use ask_core::NoMemory;
use bumpalo::Bump;
use ot_questions::Place;

/// A cell of a document.
#[derive(Clone, Copy)]
pub enum CellT<'a> {
    /// The cell of the document at the place.
    At {
        doc: &'a DocT<'a>,
        at: Place,
    },

    /// A live cell with the character of this name.
    Char(u8),

    /// The cell, made dead.
    Dead(&'a CellT<'a>),

    /// The cell, with the character named `ch` in place of its own.
    Over {
        ch: u8,
        cell: &'a CellT<'a>,
    },

    /// One of two cells, by a form.
    If {
        form: &'a Form<'a>,
        yes: &'a CellT<'a>,
        no: &'a CellT<'a>,
    },
}

impl<'a> CellT<'a> {
    pub fn at(bump: &'a Bump, doc: &'a DocT<'a>, at: Place) -> Result<&'a CellT<'a>, NoMemory>
        ensures { IfOk result (λ r. cell_tree r.now ≡ trees.At (doc_tree doc.now) at) }
    {
        placed(bump, CellT::At { doc, at })
    }

    pub fn dead(bump: &'a Bump, cell: &'a CellT<'a>) -> Result<&'a CellT<'a>, NoMemory>
        ensures { IfOk result (λ r. cell_tree r.now ≡ trees.Dead (cell_tree cell.now)) }
    {
        placed(bump, CellT::Dead(cell))
    }

    pub fn over(bump: &'a Bump, ch: u8, cell: &'a CellT<'a>) -> Result<&'a CellT<'a>, NoMemory>
        ensures { IfOk result (λ r. cell_tree r.now ≡ trees.Over ch (cell_tree cell.now)) }
    {
        placed(bump, CellT::Over { ch, cell })
    }

    pub fn either(
        bump: &'a Bump,
        form: &'a Form<'a>,
        yes: &'a CellT<'a>,
        no: &'a CellT<'a>,
    ) -> Result<&'a CellT<'a>, NoMemory>
        ensures { IfOk result (λ r. cell_tree r.now ≡ trees.If (form_tree form.now) (cell_tree yes.now)
            (cell_tree no.now)) }
    {
        placed(bump, CellT::If { form, yes, no })
    }
}
