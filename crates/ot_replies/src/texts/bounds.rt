//! The lines of the shortest documents that break a function, and of a certificate that none is shorter.
ghost use Rattle.std.specs.Prelude.{◌≡◌, [], OnOk};
ghost use Rattle.ot_replies.specs.BoundTexts.{at_least_text, shortest_text};

use super::counters::write_counter;
use super::level_word;
use super::lines::{write_cause_line, write_number_line};
use fn_rules::Level;
use ot_counter::Counter;
use ot_model::NoMemory;
use std::alloc::Global;

/// Writes the lines of a counterexample, and how many cells its document has.
pub(crate) fn write_shortest(
    alloc: Global,
    counter: &Counter,
    cells: u32,
    out: &mut Vec<u8>,
) -> Result<(), NoMemory>
    requires { out.old.items ≡ [] }
    ensures { OnOk result (out.new.items ≡ shortest_text counter.now cells) }
{
    write_counter(alloc, counter, out)?;
    write_number_line(alloc, "least", cells as u64, out)
}

/// Writes that no document of fewer cells breaks a property.
pub(crate) fn write_at_least(
    alloc: Global,
    level: Level,
    cells: u32,
    out: &mut Vec<u8>,
) -> Result<(), NoMemory>
    requires { out.old.items ≡ [] }
    ensures { OnOk result (out.new.items ≡ at_least_text level cells) }
{
    write_cause_line(alloc, "at least", cells as u64, level_word(level), out)
}
