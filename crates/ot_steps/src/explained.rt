//! The lines behind those of a counterexample.
ghost use Rattle.std.specs.Prelude.{◌≡◌, ◌++◌, OnOk};
ghost use Rattle.fn_rules.specs.Rules.{function_of};
ghost use Rattle.ot_counter.specs.Counters.{Breaks};
ghost use Rattle.ot_steps.specs.ExplainedTexts.{explained_text, shown_text};

use crate::NoMemory;
use crate::case_line::write_case_line;
use crate::lines::write_ways;
use fn_rules::{Rules, functions_keep_forms};
use ot_counter::Counter;
use ot_ways::{BothWays, both_ways};
use std::alloc::Global;

// Writes both ways, if they are shown.
fn write_shown(
    alloc: Global,
    rules: &Rules,
    ways: &Option<BothWays>,
    out: &mut Vec<u8>,
) -> Result<(), NoMemory>
    ensures { OnOk result (out.new.items ≡ out.old.items ++ shown_text (function_of rules.now) ways.now) }
{
    match ways {
        Some(ways) => write_ways(alloc, rules, ways, out),
        None => Ok(()),
    }
}

/// Writes both ways of a counterexample step by step, the place at which they differ, and the same as a case.
pub fn write_explained(
    alloc: Global,
    rules: &Rules,
    counter: &Counter,
    out: &mut Vec<u8>,
) -> Result<(), NoMemory>
    requires { Breaks (function_of rules.now) counter.now.level counter.now.doc counter.now.ops }
    ensures { OnOk result (out.new.items ≡ out.old.items
        ++ explained_text (function_of rules.now) counter.now.level counter.now.doc counter.now.ops) }
{
    functions_keep_forms();
    let ops = counter.ops.as_slice();
    let ways = both_ways(alloc, rules, counter.level, &counter.doc, ops)?;
    write_shown(alloc, rules, &ways, out)?;
    write_case_line(alloc, counter.level, &counter.doc, ops, out)
}
