//! Runs of equal cells.
ghost use Rattle.std.specs.Prelude.{◌≡◌, ◌≤◌, ◌++◌, length, IfOk, OnOk};
ghost use Rattle.ot_steps.specs.ShortDocuments as documents;
ghost use Rattle.ot_steps.specs.ShortDocuments.{runs_from};

use crate::NoMemory;
use ot_model::Cell;
use ot_ways::is_same_cell;
use std::alloc::Global;

/// The least number of equal cells in a row that are written as one and their count.
pub const LONG: usize = 5;

/// How many runs are shown on each side of the one that matters.
pub const AROUND: usize = 12;

/// Equal cells in a row.
#[derive(Clone, Copy)]
pub(crate) struct Run {
    /// One of them.
    pub cell: Cell,

    /// How many there are.
    pub count: usize,
}

impl Run {
    /// Whether it is written by its count.
    pub(crate) fn is_long(&self) -> bool
        ensures { result ≡ documents.is_long self.now }
    {
        LONG <= self.count
    }
}

// Appends the runs of cells that begin with this one.
fn append_runs(first: Cell, rest: &[Cell], runs: &mut Vec<Run>) -> Result<(), NoMemory>
    ensures { OnOk result (runs.new.items ≡ runs.old.items ++ runs_from first 1 rest.now) }
{
    let mut run = Run {
        cell: first,
        count: 1,
    };
    for cell in rest {
        if is_same_cell(run.cell, *cell) {
            run.count += 1;
        } else {
            runs.push(run)?;
            run = Run {
                cell: *cell,
                count: 1,
            };
        }
    }
    runs.push(run)?;
    Ok(())
}

/// The runs of equal cells.
pub(crate) fn runs_of(alloc: Global, cells: &[Cell]) -> Result<Vec<Run>, NoMemory>
    ensures { IfOk result (λ runs. runs.items ≡ documents.runs_of cells.now) }
{
    let mut runs = Vec::new(alloc);
    match cells {
        [first, rest @ ..] => {
            append_runs(*first, rest, &mut runs)?;
            Ok(runs)
        }
        [] => Ok(runs),
    }
}

/// The number of the run that has the cell at a place, or of none.
pub(crate) fn run_at(place: usize, runs: &[Run]) -> usize
    ensures number { result ≡ documents.run_at place runs.now }
    ensures within { result ≤ length runs.now }
{
    let mut left = place;
    for (number, run) in runs.iter().enumerate() {
        if left < run.count {
            return number;
        }
        left -= run.count;
    }
    runs.len()
}
