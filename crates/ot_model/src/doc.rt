//! Documents.
ghost use Rattle.std.specs.Prelude.{◌≡◌, ◌≤◌, ◌<◌, ◌^◌, ◌↔◌, [], ◌∷◌, ◌++◌, length};
ghost use Rattle.std.specs.Prelude.{map, take, drop, slice_get, IsTrue, OnOk, OnErr, IfOk};
ghost use Rattle.ot_model.specs.Cells.{dead_cell, cell_with, with_cells};

use crate::cell::Cell;
use plain_list::List;
use std::alloc::{AllocError, Global};
use std::marker::Model;

/// A list of cells, which contracts see as that list.
#[derive(Drop)]
pub struct Doc {
    cells: List<Cell>,
}

impl Model for Doc {
    ghost use Rattle.std.specs.Prelude.{List};
    ghost use Rattle.ot_model.specs.declared.cell.Cell.{Cell};

    ghost Value = { List Cell };

    ghost view = { λ d. d.cells };
}

impl Doc {
    /// The empty document, whose cells will come from this allocator.
    pub fn new(alloc: Global) -> Doc
        ensures { result ≡ [] }
    {
        Doc {
            cells: List::new(alloc),
        }
    }

    /// Puts a cell at the end. A document that was refused memory is as it was.
    pub fn push(&mut self, cell: Cell) -> Result<(), AllocError>
        ensures ok { OnOk result (self.new ≡ self.old ++ cell ∷ []) }
        ensures err { OnErr result (self.new ≡ self.old) }
    {
        self.cells.push(cell)
    }

    /// How many cells there are, dead ones too.
    pub fn len(&self) -> usize
        ensures { result ≡ length self.now }
    {
        self.cells.len()
    }

    /// Whether there is no cell, not even a dead one.
    pub fn is_empty(&self) -> bool
        ensures { IsTrue result ↔ (self.now ≡ []) }
    {
        self.cells.is_empty()
    }

    /// The cell at place `i`, from 0.
    pub fn cell(&self, i: usize) -> Cell
        requires { i < length self.now }
        ensures { slice_get self.now i ≡ Some result }
    {
        self.cells[i]
    }

    /// All cells in their order.
    pub fn cells(&self) -> &[Cell]
        ensures { result.now ≡ self.now }
    {
        self.cells.as_slice()
    }

    /// An equal document of its own memory.
    pub fn try_clone(&self) -> Result<Doc, AllocError>
        ensures { IfOk result (λ copy. copy ≡ self.now) }
    {
        Ok(Doc {
            cells: self.cells.try_clone()?,
        })
    }

    /// Whether the documents have the same cells, dead ones and their flags too.
    pub fn same(&self, other: &Doc) -> bool
        ensures { IsTrue result ↔ (self.now ≡ other.now) }
    {
        same_cells(self.cells(), other.cells())
    }

    /// Puts a cell at place `at`; the cells from there on move up by one.
    pub(crate) fn insert(&mut self, at: usize, cell: Cell) -> Result<(), AllocError>
        requires { at ≤ length self.old }
        ensures ok { OnOk result (self.new ≡ with_cells at 0 (cell ∷ []) self.old) }
        ensures err { OnErr result (self.new ≡ self.old) }
    {
        self.cells.insert(at, cell)
    }

    /// Takes out the cell at place `at`; the cells behind it move down by one.
    pub(crate) fn remove(&mut self, at: usize)
        requires { at < length self.old }
        ensures { self.new ≡ with_cells at 1 [] self.old }
    {
        self.cells.remove(at);
    }

    // Puts a cell in place of the one at `at`.
    fn replace(&mut self, at: usize, cell: Cell)
        requires { at < length self.old }
        ensures { self.new ≡ with_cells at 1 (cell ∷ []) self.old }
    {
        self.cells.set(at, cell);
    }

    /// Puts another character into the cell at place `at`, which stays live or dead, as it is.
    pub(crate) fn rewrite(&mut self, at: usize, ch: char)
        requires { at < length self.old }
        ensures { self.new ≡ with_cells at 1 (map (cell_with ch) (take 1 (drop at self.old))) self.old }
    {
        let live = self.cell(at).live;
        self.replace(at, Cell { ch, live });
    }

    /// Makes the cell at place `at` a tombstone, if it isn't one yet.
    pub(crate) fn bury(&mut self, at: usize)
        requires { at < length self.old }
        ensures { self.new ≡ with_cells at 1 (map dead_cell (take 1 (drop at self.old))) self.old }
    {
        let ch = self.cell(at).ch;
        self.replace(at, Cell { ch, live: false });
    }
}

/// Whether two lists of cells are equal.
fn same_cells(left: &[Cell], right: &[Cell]) -> bool
    ensures { IsTrue result ↔ (left.now ≡ right.now) }
{
    left == right
}
