//! What the guards of a function reach.
ghost use Rattle.std.specs.Prelude.{◌≡◌, ◌++◌, List, true, length, IfOk, OnOk, IsErrOf, IsTrue};
ghost use Rattle.std.specs.List.{AllByRecursion};
ghost use Rattle.fn_rules.specs.Functions.{cases_of, is_declared_of, is_declared_pair};
ghost use Rattle.fn_rules.specs.Rules.{function_of};
ghost use Rattle.ot_audit.specs.declared.audits.BlockAudit.{BlockAudit as AuditedBlock};
ghost use Rattle.ot_audit.specs.declared.auditing.AuditStop.TheVariants as stops;
ghost use Rattle.ot_audit.specs.Answers.{IsReachedAs};
ghost use Rattle.ot_audit.specs.Audits.{AreAudits, AreCases, found_of, HasLong, IsAuditedAs, IsBlockAudit, IsLong};
ghost use Rattle.ot_audit.specs.Goals.{IsTargetOf};

use crate::found::Found;
use crate::reaching::reach;
use crate::target::Target;
use crate::{Audit, BlockAudit};
use ask_core::NoMemory;
use fn_rules::{Rules, blocks, cases_are_valid};
use ot_model::{Kind, Op};
use plain_list::List;
use std::alloc::Global;

// Why an audit stops.
#[derive(Clone, Copy)]
enum AuditStop {
    /// A target has more questions than the budget allows.
    Spent,

    /// The allocator refused memory.
    NoMemory,
}

impl From<NoMemory> for AuditStop {
    ghost use Rattle.ot_audit.specs.declared.auditing.AuditStop.TheVariants as stops;

    ghost from_gives = { λ _ e. e ≡ stops.NoMemory };

    fn from(_: NoMemory) -> AuditStop {
        AuditStop::NoMemory
    }
}

// How many cases the block of two kinds has.
fn count_cases(rules: &Rules, first: Kind, second: Kind) -> u32
    requires { IsTrue (is_declared_pair (function_of rules.now).head first second) }
    ensures { result ≡ length (cases_of (function_of rules.now) first second) }
{
    cases_are_valid();
    let cases = rules.cases(first, second);
    cases.len() as u32
}

// Two operations at which the target is reached, if there are some.
fn audit_target(
    alloc: Global,
    rules: &Rules,
    first: Kind,
    second: Kind,
    target: Target,
    budget: u64,
) -> Result<Option<(Op, Op)>, AuditStop>
    requires declared { IsTrue (is_declared_pair (function_of rules.now).head first second) }
    requires target { IsTargetOf (length (cases_of (function_of rules.now) first second)) target }
    ensures ok { IfOk result (λ x. IsReachedAs (function_of rules.now) first second target budget (found_of x)) }
    ensures spent { IsErrOf result stops.Spent → IsLong (function_of rules.now) budget (first, second) }
{
    match reach(alloc, rules, first, second, target, budget)? {
        Found::Never => Ok(None),
        Found::Pair(a, b) => Ok(Some((a, b))),
        Found::Spent => Err(AuditStop::Spent),
    }
}

// What the cases of a block reach.
fn audit_cases(
    alloc: Global,
    rules: &Rules,
    first: Kind,
    second: Kind,
    budget: u64,
) -> Result<List<Option<(Op, Op)>>, AuditStop>
    requires declared { IsTrue (is_declared_pair (function_of rules.now).head first second) }
    ensures count { IfOk result (λ xs. length xs ≡ length (cases_of (function_of rules.now) first second)) }
    ensures cases { IfOk result (λ xs. AreCases (function_of rules.now) first second budget 0 xs) }
    ensures spent { IsErrOf result stops.Spent → IsLong (function_of rules.now) budget (first, second) }
{
    let count = count_cases(rules, first, second);
    let mut cases = List::new(alloc);
    for number in 0..count {
        let found = audit_target(alloc, rules, first, second, Target::Case(number), budget)?;
        cases.push(found)?;
    }
    Ok(cases)
}

// What the guards of a block reach.
fn audit_block(
    alloc: Global,
    rules: &Rules,
    first: Kind,
    second: Kind,
    budget: u64,
) -> Result<BlockAudit, AuditStop>
    requires declared { IsTrue (is_declared_pair (function_of rules.now).head first second) }
    ensures ok { IfOk result (λ x. IsBlockAudit (function_of rules.now) budget (first, second) x) }
    ensures spent { IsErrOf result stops.Spent → IsLong (function_of rules.now) budget (first, second) }
{
    let cases = audit_cases(alloc, rules, first, second, budget)?;
    let gap = audit_target(alloc, rules, first, second, Target::Open, budget)?;
    Ok(BlockAudit {
        first,
        second,
        cases,
        gap,
    })
}

// Puts what the guards of each of the blocks reach at the end.
fn audit_blocks(
    alloc: Global,
    rules: &Rules,
    names: &[(Kind, Kind)],
    budget: u64,
    audits: &mut List<BlockAudit>,
) -> Result<(), AuditStop>
    requires declared { AllByRecursion (λ name. is_declared_of (function_of rules.now).head name ≡ true) names.now }
    ensures ok { OnOk result ((xs : List AuditedBlock) × (audits.new ≡ audits.old ++ xs)
        × AreAudits (function_of rules.now) budget names.now xs) }
    ensures spent { IsErrOf result stops.Spent → HasLong (function_of rules.now) budget names.now }
{
    match names {
        [] => Ok(()),
        [(first, second), behind @ ..] => {
            let audit = audit_block(alloc, rules, *first, *second, budget)?;
            audits.push(audit)?;
            audit_blocks(alloc, rules, behind, budget, audits)
        }
    }
}

/// What all guards of a function reach: of each block in canonical order each of its cases, and its open end.
///
/// `Spent` comes exactly where one of them has more than `budget` questions. The error is want of memory.
pub fn audit_all(alloc: Global, rules: &Rules, budget: u64) -> Result<Audit, NoMemory>
    ensures { IfOk result (IsAuditedAs (function_of rules.now) budget) }
{
    let names = blocks(alloc, &rules.head())?;
    let mut audits = List::new(alloc);
    match audit_blocks(alloc, rules, &names, budget, &mut audits) {
        Ok(()) => Ok(Audit::Blocks(audits)),
        Err(AuditStop::Spent) => Ok(Audit::Spent),
        Err(AuditStop::NoMemory) => Err(NoMemory),
    }
}
