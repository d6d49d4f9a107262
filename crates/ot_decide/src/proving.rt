//! The search of all obligations of a function.
ghost use Rattle.std.specs.Prelude.{◌≤◌, IfOk};
ghost use Rattle.fn_rules.specs.Rules.{function_of};
ghost use Rattle.ot_decide.specs.Verdicts.{IsDecidedAs, IsVerdictWithin};

use crate::searching::search_all;
use crate::verdict::{SearchVerdict, Verdict};
use ask_core::NoMemory;
use cert_text::{write_end, write_header};
use fn_rules::{Level, Rules, obligations, obligations_are_those_of_the_kinds};
use std::alloc::Global;

/// How many bytes a certificate has room for from the first on. Pages of it that nobody writes to take no memory, and a
/// certificate that fits is not moved while it grows.
const ROOM: usize = 2_097_152;

/// Decides whether a function has the properties of a level, by at most `budget` questions of all its obligations
/// together: the obligations in order, up to the first one that fails somewhere.
///
/// `Spent` comes exactly where there are more questions, `No` exactly where there are not and one of the obligations
/// fails, and else `Yes`, with a certificate that has exactly these questions, and their number. The error is want of
/// memory.
pub fn prove_all(
    alloc: Global,
    rules: &Rules,
    level: Level,
    budget: u64,
) -> Result<Verdict, NoMemory>
    ensures decides { IfOk result (IsDecidedAs (function_of rules.now) level budget) }

    // A certificate keeps the limit of a file.
    ensures within { budget ≤ 1000000 → IfOk result (IsVerdictWithin 83886080) }
{
    obligations_are_those_of_the_kinds();
    let head = rules.head();
    let names = obligations(alloc, &head, level)?;
    let mut bytes = Vec::with_capacity(alloc, ROOM)?;
    write_header(&names, level, &mut bytes)?;
    match search_all(alloc, rules, None, &names, budget, &mut bytes)? {
        SearchVerdict::AllHold { left } => {
            write_end(&mut bytes)?;
            let asked = budget - left;
            Ok(Verdict::Yes { bytes, asked })
        }
        SearchVerdict::Fails { ob, answers, why } => Ok(Verdict::No { ob, answers, why }),
        SearchVerdict::Spent => Ok(Verdict::Spent),
    }
}
