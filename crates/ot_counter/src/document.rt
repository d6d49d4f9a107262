//! The document that is read off values.
ghost use Rattle.std.specs.Prelude.{◌≡◌, ◌<◌, pos, ◌≤ℤ◌, length, IfOk};
ghost use Rattle.diff_tables.specs.Solutions.{valuation_of};
ghost use Rattle.ot_counter.specs.Documents as documents;

use crate::NoMemory;
use ot_model::{Cell, Doc};
use ot_questions::{INDEX, LENGTH, Why};
use std::alloc::Global;

// Whether the place is at the offset from the index.
fn is_at(index: i32, off: Option<i32>, place: u32) -> bool
    ensures { result ≡ documents.is_at index off place }
{
    match off {
        None => false,
        Some(off) => i64::from(place) == i64::from(index) + i64::from(off),
    }
}

// The cell at a place of the document.
fn shown_cell(index: i32, why: Why, place: u32) -> Cell
    ensures { result ≡ documents.shown_cell index why place }
{
    match why {
        Why::Cells { left, dead } => Cell {
            ch: if is_at(index, left, place) { 'x' } else { 'y' },
            live: !is_at(index, dead, place),
        },
        Why::Undefined | Why::OutOfRange | Why::Lengths | Why::Operations => Cell {
            ch: 'y',
            live: true,
        },
    }
}

/// The document on which the operations show the cause.
pub(crate) fn document_at(alloc: Global, values: &[i32], why: Why) -> Result<Doc, NoMemory>
    requires within { 2 < length values.now }
    requires cells { pos 0 ≤ℤ valuation_of values.now 1 }
    ensures { IfOk result (λ doc. doc ≡ documents.document_at (valuation_of values.now) why) }
{
    let index = values[INDEX as usize];
    let mut doc = Doc::new(alloc);
    for place in 0..values[LENGTH as usize] as u32 {
        doc.push(shown_cell(index, why, place))?;
    }
    Ok(doc)
}
