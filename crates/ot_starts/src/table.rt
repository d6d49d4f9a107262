//! Goals laid out where transformations begin, each of these places once.
ghost use Rattle.std.specs.Prelude.{IfOk};
ghost use Rattle.std.specs.List.{All};
ghost use Rattle.fn_rules.specs.declared.function.ObName.{ObName};
ghost use Rattle.fn_rules.specs.Rules.{function_of};
ghost use Rattle.ot_terms.specs.Belonging.{IsGoalOf};
ghost use Rattle.ot_terms.specs.Goals.{goal_tree};
ghost use Rattle.start_laws.specs.Settled.{OpensStart};
ghost use Rattle.ot_starts.specs.Kept.{IsKeptStart, IsKeptEnd};

use crate::fronts::is_begun;
use crate::kept::{Ends, Table, found, learnt};
use crate::laying::laid;
use ask_core::NoMemory;
use fn_rules::{Rules, rules_are_valid};
use ot_rewrite::{rules_keep_what_is_asked, step};
use ot_terms::Goal;
use start_laws::rules_keep_starts;

/// How many bytes an arena may have where more is laid out.
const ROOM: usize = 134_217_728;

// The goal after one rule, laid out.
fn laid_behind<'a>(
    rules: &Rules,
    ends: &mut Ends<'a>,
    goal: &'a Goal<'a>,
) -> Result<&'a Goal<'a>, NoMemory>
    requires goal { (ob : ObName) × IsGoalOf (function_of rules.now) ob (goal_tree goal.now) }
    requires ends { All (IsKeptEnd (function_of rules.now)) ends.old.kept.goals.items }
    ensures opens { IfOk result (λ r. OpensStart (function_of rules.now) (goal_tree goal.now) (goal_tree r.now)) }
    ensures ends { All (IsKeptEnd (function_of rules.now)) ends.new.kept.goals.items }
{
    rules_keep_starts();
    rules_are_valid(rules);
    match step(ends.bump, rules, goal)? {
        Some(next) => laid(rules, ends, next),
        None => Ok(goal),
    }
}

// What is laid out where a transformation begins, which is kept then. A goal for which the arena has no room is the
// answer itself.
fn laid_at<'a>(
    rules: &Rules,
    starts: &mut Table<'a>,
    ends: &mut Ends<'a>,
    goal: &'a Goal<'a>,
) -> Result<&'a Goal<'a>, NoMemory>
    requires goal { (ob : ObName) × IsGoalOf (function_of rules.now) ob (goal_tree goal.now) }
    requires starts { All (IsKeptStart (function_of rules.now)) starts.old.goals.items }
    requires ends { All (IsKeptEnd (function_of rules.now)) ends.old.kept.goals.items }
    ensures opens { IfOk result (λ r. OpensStart (function_of rules.now) (goal_tree goal.now) (goal_tree r.now)) }
    ensures starts { All (IsKeptStart (function_of rules.now)) starts.new.goals.items }
    ensures ends { All (IsKeptEnd (function_of rules.now)) ends.new.kept.goals.items }
{
    if let Some(known) = found(starts, goal) {
        return Ok(known);
    }
    if ends.bump.allocated_bytes() > ROOM {
        return Ok(goal);
    }
    let built = laid_behind(rules, ends, goal)?;
    learnt(starts, goal, built)
}

/// The goal after what is laid out where transformations begin, as long as another one begins there and at most so
/// often.
pub(crate) fn laid_on<'a>(
    rules: &Rules,
    starts: &mut Table<'a>,
    ends: &mut Ends<'a>,
    goal: &'a Goal<'a>,
    most: u32,
) -> Result<&'a Goal<'a>, NoMemory>
    requires goal { (ob : ObName) × IsGoalOf (function_of rules.now) ob (goal_tree goal.now) }
    requires starts { All (IsKeptStart (function_of rules.now)) starts.old.goals.items }
    requires ends { All (IsKeptEnd (function_of rules.now)) ends.old.kept.goals.items }
    ensures opens { IfOk result (λ r. OpensStart (function_of rules.now) (goal_tree goal.now) (goal_tree r.now)) }
    ensures starts { All (IsKeptStart (function_of rules.now)) starts.new.goals.items }
    ensures ends { All (IsKeptEnd (function_of rules.now)) ends.new.kept.goals.items }
{
    if most == 0 || !is_begun(goal) {
        return Ok(goal);
    }
    let next = laid_at(rules, starts, ends, goal)?;
    laid_on(rules, starts, ends, next, most - 1)
}
