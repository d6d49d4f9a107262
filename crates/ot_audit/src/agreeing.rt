//! Whether two functions agree on a block.
ghost use Rattle.std.specs.Prelude.{◌≡◌, IfOk, IsTrue};
ghost use Rattle.ot_model.specs.Operations.{kind_of};
ghost use Rattle.fn_rules.specs.Conditions.{IsInRange};
ghost use Rattle.fn_rules.specs.Functions.{IsForKind, is_declared_pair};
ghost use Rattle.fn_rules.specs.Rules.{function_of};
ghost use Rattle.fn_rules.specs.Transformation.{transform_of};
ghost use Rattle.ot_audit.specs.declared.found.Agree.TheVariants as agrees;
ghost use Rattle.ot_audit.specs.Answers.{IsAgreedAs};
ghost use Rattle.ot_audit.specs.Findings.{IsFoundIn, IsNearFound};
ghost use Rattle.ot_audit.specs.Goals as goals;

use crate::finding::find;
use crate::found::{Agree, Found};
use crate::goals::difference_goal;
use crate::laws::{findings_tell_of_all_operations, goals_are_searchable};
use ask_core::NoMemory;
use bumpalo::Bump;
use fn_rules::{Rules, rules_are_valid, transform};
use ot_model::{Kind, Op};
use std::alloc::Global;

// Where the functions do not agree, sought with goals in the arena.
fn differ_in<'a>(
    alloc: Global,
    bump: &'a Bump,
    rules: &'a Rules,
    others: &'a Rules,
    first: Kind,
    second: Kind,
    budget: u64,
) -> Result<Found, NoMemory>
    requires declared { IsTrue (is_declared_pair (function_of rules.now).head first second) }
    requires heads { (function_of others.now).head ≡ (function_of rules.now).head }
    ensures found { IfOk result (IsFoundIn (function_of rules.now) first second
        (goals.difference_goal (function_of rules.now) (function_of others.now) first second) budget) }
    ensures near { IfOk result IsNearFound }
{
    rules_are_valid(rules);
    rules_are_valid(others);
    goals_are_searchable();
    let goal = difference_goal(bump, rules, others, first, second)?;
    find(alloc, bump, rules, first, second, goal, budget)
}

// The same with an arena of its own.
fn differ(
    alloc: Global,
    rules: &Rules,
    others: &Rules,
    first: Kind,
    second: Kind,
    budget: u64,
) -> Result<Found, NoMemory>
    requires declared { IsTrue (is_declared_pair (function_of rules.now).head first second) }
    requires heads { (function_of others.now).head ≡ (function_of rules.now).head }
    ensures found { IfOk result (IsFoundIn (function_of rules.now) first second
        (goals.difference_goal (function_of rules.now) (function_of others.now) first second) budget) }
    ensures near { IfOk result IsNearFound }
{
    let bump = Bump::new(alloc);
    differ_in(alloc, &bump, rules, others, first, second, budget)
}

// What two functions make of operations at which they do not agree.
fn pair_at(rules: &Rules, others: &Rules, a: Op, b: Op) -> Agree
    requires a_declared { IsForKind (function_of rules.now).head (kind_of a) }
    requires b_declared { IsForKind (function_of rules.now).head (kind_of b) }
    requires heads { (function_of others.now).head ≡ (function_of rules.now).head }
    requires a_in_range { IsInRange a }
    requires b_in_range { IsInRange b }
    ensures { result ≡ agrees.Pair a b (transform_of (function_of rules.now) a b)
        (transform_of (function_of others.now) a b) }
{
    Agree::Pair {
        a,
        b,
        left: transform(rules, &a, &b),
        right: transform(others, &a, &b),
    }
}

/// Whether two functions of one head agree on the block of two kinds, decided by at most `budget` questions.
///
/// `Same` comes exactly where they agree at all operations that are meant, `Pair` exactly where they do not, and then
/// with two at which they do not, both where there are no more questions; and `Spent` exactly where there are more. The
/// two operations are the least ones of the first failing end. The error is want of memory.
pub fn agree(
    alloc: Global,
    rules: &Rules,
    others: &Rules,
    first: Kind,
    second: Kind,
    budget: u64,
) -> Result<Agree, NoMemory>
    requires declared { IsTrue (is_declared_pair (function_of rules.now).head first second) }
    requires heads { (function_of others.now).head ≡ (function_of rules.now).head }
    ensures { IfOk result (IsAgreedAs (function_of rules.now) (function_of others.now) first second budget) }
{
    let found = differ(alloc, rules, others, first, second, budget)?;
    findings_tell_of_all_operations();
    match found {
        Found::Never => Ok(Agree::Same),
        Found::Pair(a, b) => Ok(pair_at(rules, others, a, b)),
        Found::Spent => Ok(Agree::Spent),
    }
}
