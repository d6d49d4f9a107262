//! The lines of a workload.
ghost use Rattle.std.specs.Prelude.{◌≡◌, [], OnOk};
ghost use Rattle.ot_replies.specs.DrillTexts.{drill_text};

use super::lines::write_number_line;
use super::sessions::write_last;
use super::write_accepted;
use crate::reply::Drilled;
use ot_model::NoMemory;
use std::alloc::Global;

/// Writes what came of a workload.
pub(crate) fn write_drilled(
    alloc: Global,
    drilled: &Drilled,
    out: &mut Vec<u8>,
) -> Result<(), NoMemory>
    requires { out.old.items ≡ [] }
    ensures { OnOk result (out.new.items ≡ drill_text drilled.now) }
{
    write_number_line(alloc, "drill", drilled.number as u64, out)?;
    write_number_line(alloc, "cases", drilled.cases as u64, out)?;
    write_accepted(alloc, drilled.level, out)?;
    write_number_line(alloc, "operations", drilled.tally.made as u64, out)?;
    write_number_line(alloc, "held", drilled.tally.held as u64, out)?;
    write_number_line(alloc, "repeated", drilled.tally.repeated as u64, out)?;
    write_number_line(alloc, "cells", drilled.cells as u64, out)?;
    write_last(alloc, drilled.differ, out)
}
