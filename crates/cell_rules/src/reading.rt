//! One step in reading a cell.
ghost use Rattle.std.specs.Prelude.{◌≡◌, Some, IfOk, option_map};
ghost use Rattle.ot_questions.specs.Nears.{IsNear};
ghost use Rattle.ot_terms.specs.Cells as trees;
ghost use Rattle.ot_terms.specs.Cells.{cell_tree};
ghost use Rattle.ot_terms.specs.Forms as forms;
ghost use Rattle.ot_terms.specs.Forms.{form_tree};
ghost use Rattle.ot_terms.specs.Documents as documents;
ghost use Rattle.ot_terms.specs.Documents.{doc_tree};
ghost use Rattle.cell_rules.specs.Cells as cells;
ghost use Rattle.cell_rules.specs.Cells.{IsReadable};

use ask_core::NoMemory;
use bumpalo::Bump;
use ot_questions::Finished;
use ot_terms::{CellT, DocT, Form, Place, placed};

// One of two cells, by a form.
fn either<'a>(
    bump: &'a Bump,
    form: &'a Form<'a>,
    yes: CellT<'a>,
    no: CellT<'a>,
) -> Result<Option<CellT<'a>>, NoMemory>
    ensures { IfOk result (λ r. option_map cell_tree r
        ≡ Some (trees.If (form_tree form.now) (cell_tree yes.entry) (cell_tree no.entry))) }
{
    Ok(Some(CellT::If {
        form,
        yes: placed(bump, yes)?,
        no: placed(bump, no)?,
    }))
}

// Before the change, at it, and behind it.
fn by_place<'a>(
    bump: &'a Bump,
    j: Place,
    at: Place,
    before: &'a CellT<'a>,
    there: CellT<'a>,
    behind: &'a CellT<'a>,
) -> Result<Option<CellT<'a>>, NoMemory>
    ensures { IfOk result (λ r. option_map cell_tree r ≡ Some (trees.If (forms.Lt j at) (cell_tree before.now)
        (trees.If (forms.Le j at) (cell_tree there.entry) (cell_tree behind.now)))) }
{
    let there = placed(bump, there)?;
    let here = Form::le(bump, j, at)?;
    Ok(Some(CellT::If {
        form: Form::lt(bump, j, at)?,
        yes: before,
        no: CellT::either(bump, here, there, behind)?,
    }))
}

// The cell behind an insertion.
fn read_put<'a>(
    bump: &'a Bump,
    doc: &'a DocT<'a>,
    at: Place,
    ch: u8,
    j: Place,
) -> Result<Option<CellT<'a>>, NoMemory>
    requires { IsNear 999 j.off }
    ensures { IfOk result (λ r. option_map cell_tree r ≡ cells.read_change (documents.Put (doc_tree doc.now) at ch) j) }
{
    let before = CellT::at(bump, doc, j)?;
    let behind = CellT::at(bump, doc, j.plus(-1))?;
    by_place(bump, j, at, before, CellT::Char(ch), behind)
}

// The cell of a document at a place, by its last change; the base document has no change.
fn read_change<'a>(
    bump: &'a Bump,
    doc: &'a DocT<'a>,
    j: Place,
) -> Result<Option<CellT<'a>>, NoMemory>
    requires { IsNear 999 j.off }
    ensures { IfOk result (λ r. option_map cell_tree r ≡ cells.read_change (doc_tree doc.now) j) }
{
    match *doc {
        DocT::Base => Ok(None),
        DocT::Put { doc, at, ch } => read_put(bump, doc, at, ch, j),
        DocT::Cut { doc, at } => {
            let behind = j.plus(1);
            let form = Form::lt(bump, j, at)?;
            either(
                bump,
                form,
                CellT::At { doc, at: j },
                CellT::At { doc, at: behind },
            )
        }
        DocT::Mark { doc, at } => {
            let cell = CellT::at(bump, doc, j)?;
            by_place(bump, j, at, cell, CellT::Dead(cell), cell)
        }
        DocT::Over { doc, at, ch } => {
            let cell = CellT::at(bump, doc, j)?;
            by_place(bump, j, at, cell, CellT::Over { ch, cell }, cell)
        }
    }
}

// The cell, dead.
#[inline]
fn dead<'a>(bump: &'a Bump, cell: CellT<'a>) -> Result<Option<CellT<'a>>, NoMemory>
    ensures { IfOk result (λ r. option_map cell_tree r ≡ Some (trees.Dead (cell_tree cell.entry))) }
{
    Ok(Some(CellT::Dead(placed(bump, cell)?)))
}

// The cell, with another character.
#[inline]
fn over<'a>(bump: &'a Bump, ch: u8, cell: CellT<'a>) -> Result<Option<CellT<'a>>, NoMemory>
    ensures { IfOk result (λ r. option_map cell_tree r ≡ Some (trees.Over ch (cell_tree cell.entry))) }
{
    let cell = placed(bump, cell)?;
    Ok(Some(CellT::Over { ch, cell }))
}

// A dead cell, by the cell that it was.
fn bury<'a>(bump: &'a Bump, cell: CellT<'a>) -> Result<Option<CellT<'a>>, NoMemory>
    ensures { IfOk result (λ r. option_map cell_tree r ≡ cells.bury (cell_tree cell.entry)) }
{
    match cell {
        CellT::At { .. } => Ok(None),
        CellT::Char(_) => Ok(None),
        CellT::Dead(cell) => Ok(Some(CellT::Dead(cell))),
        CellT::Over { ch, .. } => dead(bump, CellT::Char(ch)),
        CellT::If { form, yes, no } => either(bump, form, CellT::Dead(yes), CellT::Dead(no)),
    }
}

// A cell with another character, by the cell that it was.
fn replace<'a>(bump: &'a Bump, ch: u8, cell: CellT<'a>) -> Result<Option<CellT<'a>>, NoMemory>
    ensures { IfOk result (λ r. option_map cell_tree r ≡ cells.replace ch (cell_tree cell.entry)) }
{
    match cell {
        CellT::At { .. } => Ok(None),
        CellT::Char(_) => Ok(Some(CellT::Char(ch))),
        CellT::Dead(_) => dead(bump, CellT::Char(ch)),
        CellT::Over { cell, .. } => Ok(Some(CellT::Over { ch, cell })),
        CellT::If { form, yes, no } => {
            either(
                bump,
                form,
                CellT::Over { ch, cell: yes },
                CellT::Over { ch, cell: no },
            )
        }
    }
}

/// One step in reading a cell, from the inside; none where it is finished or a question comes first.
#[tactic(auto, unfolding(crate::specs::Cells::read_step))]
pub fn read_step<'a>(bump: &'a Bump, cell: CellT<'a>) -> Result<Option<CellT<'a>>, NoMemory>
    requires { IsReadable (cell_tree cell) }
    ensures { IfOk result (λ r. option_map cell_tree r ≡ cells.read_step (cell_tree cell.entry)) }
{
    match cell {
        CellT::At { doc, at } => read_change(bump, doc, at),
        CellT::Char(_) => Ok(None),
        CellT::Dead(inner) => match read_step(bump, *inner)? {
            Some(read) => dead(bump, read),
            None => bury(bump, *inner),
        },
        CellT::Over { ch, cell: inner } => match read_step(bump, *inner)? {
            Some(read) => over(bump, ch, read),
            None => replace(bump, ch, *inner),
        },
        CellT::If { .. } => Ok(None),
    }
}

/// What a cell is made of where no step is left.
pub fn finished(cell: CellT<'_>) -> Option<Finished>
    ensures { result ≡ cells.finished_cell (cell_tree cell.entry) }
{
    match cell {
        CellT::At { doc, at } => match doc {
            DocT::Base => Some(Finished::base(at.off)),
            DocT::Put { .. } => None,
            DocT::Cut { .. } => None,
            DocT::Mark { .. } => None,
            DocT::Over { .. } => None,
        },
        CellT::Char(ch) => Some(Finished::put(ch)),
        CellT::Dead(inner) => match finished(*inner) {
            Some(inner) => Some(inner.buried()),
            None => None,
        },
        CellT::Over { ch, cell: inner } => match finished(*inner) {
            Some(inner) => Some(inner.replaced(ch)),
            None => None,
        },
        CellT::If { .. } => None,
    }
}
