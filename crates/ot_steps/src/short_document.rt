//! A document in brackets, shortened around a place.
ghost use Rattle.std.specs.Prelude.{◌≡◌, ◌≤◌, ◌++◌, length, OnOk};
ghost use Rattle.ot_steps.specs.ShortDocuments.{cells_text, further_runs_text, gap_text, left_out_text, one_cell_text};
ghost use Rattle.ot_steps.specs.ShortDocuments.{run_text, runs_around, runs_text, short_document};

use crate::NoMemory;
use crate::columns::{append_bytes, append_text};
use crate::runs::{AROUND, Run, run_at, runs_of};
use case_json::char_write;
use ot_model::{Cell, Doc};
use std::alloc::Global;

/// Writes a cell as the text of a document has it.
pub(crate) fn write_cell(cell: Cell, out: &mut Vec<u8>) -> Result<(), NoMemory>
    ensures { OnOk result (out.new.items ≡ out.old.items ++ one_cell_text cell) }
{
    if cell.live {
        return char_write(cell.ch, out);
    }
    out.push(b'~')?;
    char_write(cell.ch, out)
}

// Writes so many equal cells.
fn write_cells(count: usize, cell: Cell, out: &mut Vec<u8>) -> Result<(), NoMemory>
    ensures { OnOk result (out.new.items ≡ out.old.items ++ cells_text count cell) }
{
    for done in 0..count {
        write_cell(cell, out)?;
    }
    Ok(())
}

fn write_run(alloc: Global, run: Run, out: &mut Vec<u8>) -> Result<(), NoMemory>
    ensures { OnOk result (out.new.items ≡ out.old.items ++ run_text run) }
{
    if !run.is_long() {
        return write_cells(run.count, run.cell, out);
    }
    let count = run.count;
    write_cell(run.cell, out)?;
    append_text(format!(in alloc; "*{count}")?, out)
}

// Writes a space, where one of two neighbours is a count.
fn write_gap(before: bool, here: bool, out: &mut Vec<u8>) -> Result<(), NoMemory>
    ensures { OnOk result (out.new.items ≡ out.old.items ++ gap_text before here) }
{
    if before || here {
        append_bytes(b" ", out)
    } else {
        Ok(())
    }
}

// Writes runs after another one, which was written by its count or not.
fn write_further_runs(
    alloc: Global,
    before: bool,
    runs: &[Run],
    out: &mut Vec<u8>,
) -> Result<(), NoMemory>
    ensures { OnOk result (out.new.items ≡ out.old.items ++ further_runs_text before runs.now) }
{
    let mut last = before;
    for run in runs {
        write_gap(last, run.is_long(), out)?;
        write_run(alloc, *run, out)?;
        last = run.is_long();
    }
    Ok(())
}

fn write_runs(alloc: Global, runs: &[Run], out: &mut Vec<u8>) -> Result<(), NoMemory>
    ensures { OnOk result (out.new.items ≡ out.old.items ++ runs_text runs.now) }
{
    match runs {
        [first, rest @ ..] => {
            write_run(alloc, *first, out)?;
            write_further_runs(alloc, first.is_long(), rest, out)
        }
        [] => Ok(()),
    }
}

// Writes what stands for runs that are left out.
fn write_left_out(any: bool, out: &mut Vec<u8>) -> Result<(), NoMemory>
    ensures { OnOk result (out.new.items ≡ out.old.items ++ left_out_text any) }
{
    if any {
        append_bytes(b"...", out)
    } else {
        Ok(())
    }
}

// Writes the runs around one of them.
fn write_around(
    alloc: Global,
    number: usize,
    runs: &[Run],
    out: &mut Vec<u8>,
) -> Result<(), NoMemory>
    requires { number ≤ length runs.now }
    ensures { OnOk result (out.new.items ≡ out.old.items ++ runs_around number runs.now) }
{
    let first = number.saturating_sub(AROUND);
    let end = number.saturating_add(AROUND + 1).min(runs.len());
    append_bytes(b"[", out)?;
    write_left_out(first > 0, out)?;
    write_runs(alloc, &runs[first..end], out)?;
    write_left_out(end < runs.len(), out)?;
    append_bytes(b"]", out)
}

/// Writes a document in brackets: many equal cells in a row as one and their count, and of a long document what is
/// around a place. This text is never read.
pub fn write_short_document(
    alloc: Global,
    place: usize,
    doc: &Doc,
    out: &mut Vec<u8>,
) -> Result<(), NoMemory>
    ensures { OnOk result (out.new.items ≡ out.old.items ++ short_document place doc.now) }
{
    let runs = runs_of(alloc, doc.cells())?;
    write_around(alloc, run_at(place, &runs), &runs, out)
}
