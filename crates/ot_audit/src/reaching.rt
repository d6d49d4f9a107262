//! What the guards of a block reach.
ghost use Rattle.std.specs.Prelude.{length, IfOk, IsTrue};
ghost use Rattle.fn_rules.specs.Functions.{cases_of, is_declared_pair};
ghost use Rattle.fn_rules.specs.Rules.{function_of};
ghost use Rattle.ot_audit.specs.Answers.{IsReachedAs};
ghost use Rattle.ot_audit.specs.Findings.{IsFoundIn};
ghost use Rattle.ot_audit.specs.Goals as goals;
ghost use Rattle.ot_audit.specs.Goals.{IsTargetOf};

use crate::finding::find;
use crate::found::Found;
use crate::goals::target_goal;
use crate::laws::{findings_tell_of_all_operations, goals_are_searchable};
use crate::target::Target;
use ask_core::NoMemory;
use bumpalo::Bump;
use fn_rules::{Rules, rules_are_valid};
use ot_model::Kind;
use std::alloc::Global;

// Where the target is reached, sought with goals in the arena.
fn reach_in<'a>(
    alloc: Global,
    bump: &'a Bump,
    rules: &'a Rules,
    first: Kind,
    second: Kind,
    target: Target,
    budget: u64,
) -> Result<Found, NoMemory>
    requires declared { IsTrue (is_declared_pair (function_of rules.now).head first second) }
    requires target { IsTargetOf (length (cases_of (function_of rules.now) first second)) target }
    ensures { IfOk result (IsFoundIn (function_of rules.now) first second
        (goals.target_goal (function_of rules.now) first second target) budget) }
{
    rules_are_valid(rules);
    goals_are_searchable();
    let goal = target_goal(bump, rules, first, second, target)?;
    find(alloc, bump, rules, first, second, goal, budget)
}

/// Whether the target of the block of two kinds is ever reached, decided by at most `budget` questions.
///
/// `Never` comes exactly where it is reached at no operations that are meant, `Pair` exactly where it is reached at
/// some, and then with two at which it is, both where there are no more questions; and `Spent` exactly where there are
/// more. The two operations are the least ones of the first failing end. The error is want of memory.
pub fn reach(
    alloc: Global,
    rules: &Rules,
    first: Kind,
    second: Kind,
    target: Target,
    budget: u64,
) -> Result<Found, NoMemory>
    requires declared { IsTrue (is_declared_pair (function_of rules.now).head first second) }
    requires target { IsTargetOf (length (cases_of (function_of rules.now) first second)) target }
    ensures { IfOk result (IsReachedAs (function_of rules.now) first second target budget) }
{
    findings_tell_of_all_operations();
    let bump = Bump::new(alloc);
    reach_in(alloc, &bump, rules, first, second, target, budget)
}
