//! The first place at which two documents differ.
ghost use Rattle.std.specs.Prelude.{◌≡◌};
ghost use Rattle.ot_ways.specs.Differences.{difference_of, is_same_cell, one_document};

use ot_model::{Cell, Doc};

/// Whether the cells have the same character and are both live or both dead.
pub fn is_same_cell(one: Cell, other: Cell) -> bool
    ensures { result ≡ is_same_cell one other }
{
    one.ch == other.ch && (if one.live { other.live } else { !other.live })
}

fn difference_of(left: &[Cell], right: &[Cell]) -> Option<usize>
    ensures { result ≡ difference_of left.now right.now }
{
    for (place, cell) in left.iter().enumerate() {
        match right.get(place) {
            Some(other) => {
                if !is_same_cell(*cell, *other) {
                    return Some(place);
                }
            }
            None => return Some(place),
        }
    }
    if left.len() < right.len() {
        Some(left.len())
    } else {
        None
    }
}

/// The first place, counted from 0, at which the documents differ: also that at which one has ended.
pub fn difference(left: &Doc, right: &Doc) -> Option<usize>
    ensures { result ≡ difference_of left.now right.now }
{
    difference_of(left.cells(), right.cells())
}

/// The document, where the other one is equal to it.
pub(crate) fn one_document(doc: Doc, other: &Doc) -> Option<Doc>
    ensures { result ≡ one_document doc other.now }
{
    match difference(&doc, other) {
        Some(_) => None,
        None => Some(doc),
    }
}
