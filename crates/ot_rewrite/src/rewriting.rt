//! A goal after one rule.
ghost use Rattle.std.specs.Prelude.{◌≡◌, IfOk, option_map};
ghost use Rattle.fn_rules.specs.Rules.{function_of};
ghost use Rattle.ot_rewrite.specs.Steps.{front_tree, IsReadyGoal};
ghost use Rattle.ot_rewrite.specs.Table.{rewritten};

use crate::choosing::choose;
use crate::comparing::compare;
use crate::delivering::deliver;
use crate::forms::by_form;
use crate::front::{Front, fitting};
use ask_core::NoMemory;
use bumpalo::Bump;
use fn_rules::Rules;

/// The goal after one rule, which is its row of the table; none where it holds or fails or asks a question.
///
/// # Errors
///
/// Want of memory.
#[tactic(auto, unfolding(crate::specs::Table::rewritten))]
#[inline]
pub fn rewrite<'a>(
    bump: &'a Bump,
    rules: &Rules,
    front: Front<'a>,
) -> Result<Option<Front<'a>>, NoMemory>
    requires { IsReadyGoal (function_of rules.now) (front_tree front) }
    ensures { IfOk result (λ r. option_map front_tree r ≡ rewritten (function_of rules.now) (front_tree front.entry)) }
{
    match front {
        Front::Holds => Ok(None),
        Front::Fails(_) => Ok(None),
        Front::If { form, yes, no } => by_form(bump, form, yes, no),
        Front::Choose {
            case,
            ops,
            progress,
        } => fitting(choose(bump, rules, case, ops, progress)),
        Front::Deliver { op, progress } => fitting(deliver(bump, rules, op, progress)),
        Front::Same { left, right } => compare(bump, left, right),
    }
}
