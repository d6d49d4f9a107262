//! Whether two functions are the same.
ghost use Rattle.std.specs.Prelude.{◌≡◌, ◌↔◌, true, IfOk, IsTrue};
ghost use Rattle.std.specs.List.{AllByRecursion};
ghost use Rattle.fn_rules.specs.Functions.{is_declared_of};
ghost use Rattle.fn_rules.specs.Rules.{function_of};
ghost use Rattle.ot_audit.specs.Audits.{AreCompared, IsComparedAs};

use crate::Same;
use crate::agreeing::agree;
use crate::found::Agree;
use ask_core::NoMemory;
use fn_rules::{Rules, blocks};
use ot_model::Kind;
use std::alloc::Global;

// Whether two functions of one head agree on each of the blocks.
fn same_blocks(
    alloc: Global,
    rules: &Rules,
    others: &Rules,
    names: &[(Kind, Kind)],
    budget: u64,
) -> Result<Same, NoMemory>
    requires declared { AllByRecursion (λ name. is_declared_of (function_of rules.now).head name ≡ true) names.now }
    requires heads { (function_of others.now).head ≡ (function_of rules.now).head }
    ensures { IfOk result (AreCompared (function_of rules.now) (function_of others.now) budget names.now) }
{
    match names {
        [] => Ok(Same::Everywhere),
        [(first, second), behind @ ..] => {
            match agree(alloc, rules, others, *first, *second, budget)? {
                Agree::Same => same_blocks(alloc, rules, others, behind, budget),
                Agree::Pair { a, b, left, right } => Ok(Same::Differ {
                    first: *first,
                    second: *second,
                    a,
                    b,
                    left,
                    right,
                }),
                Agree::Spent => Ok(Same::Spent),
            }
        }
    }
}

// Whether two functions have one head.
fn have_one_head(rules: &Rules, others: &Rules) -> bool
    ensures { IsTrue result ↔ ((function_of rules.now).head ≡ (function_of others.now).head) }
{
    rules.head() == others.head()
}

// Whether two functions of one head agree on every block.
fn same_headed(alloc: Global, rules: &Rules, others: &Rules, budget: u64) -> Result<Same, NoMemory>
    requires { (function_of rules.now).head ≡ (function_of others.now).head }
    ensures { IfOk result (IsComparedAs (function_of rules.now) (function_of others.now) budget) }
{
    let names = blocks(alloc, &rules.head())?;
    same_blocks(alloc, rules, others, &names, budget)
}

/// Whether two functions are the same: of one head, and on each block of the same results at all operations that are
/// meant.
///
/// Where the heads differ nothing is asked. The blocks are gone over in canonical order, each by at most `budget`
/// questions, up to the first on which the functions do not agree, or which has more. The error is want of memory.
pub fn same_all(alloc: Global, rules: &Rules, others: &Rules, budget: u64) -> Result<Same, NoMemory>
    ensures { IfOk result (IsComparedAs (function_of rules.now) (function_of others.now) budget) }
{
    if have_one_head(rules, others) {
        return same_headed(alloc, rules, others, budget);
    }
    Ok(Same::Heads)
}
