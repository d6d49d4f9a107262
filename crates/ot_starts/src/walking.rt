//! How the plan of a goal begins, with the goals after its first question.
ghost use Rattle.std.specs.Prelude.{◌≡◌, IsTrue, IfOk};
ghost use Rattle.std.specs.List.{All};
ghost use Rattle.fn_rules.specs.declared.function.ObName.{ObName};
ghost use Rattle.fn_rules.specs.Rules.{function_of};
ghost use Rattle.ot_questions.specs.Nears.{IsNear};
ghost use Rattle.ot_terms.specs.Belonging.{IsGoalOf};
ghost use Rattle.ot_terms.specs.Forms.{form_tree};
ghost use Rattle.ot_terms.specs.Goals.{goal_tree, If};
ghost use Rattle.ot_rewrite.specs.Fronts as fronts;
ghost use Rattle.ot_rewrite.specs.Steps.{front_tree};
ghost use Rattle.ot_paths.specs.Nodes as nodes;
ghost use Rattle.ot_starts.specs.Kept.{IsKeptStart, IsKeptEnd};
ghost use Rattle.ot_starts.specs.Turns.{TurnsAs};

use crate::fronts::question;
use crate::kept::{Ends, Table};
use crate::settling::settled;
use crate::table::laid_on;
use ask_core::{NoMemory, Turn};
use bumpalo::Bump;
use diff_graph::Lit;
use fn_rules::{Rules, rules_are_valid};
use ot_rewrite::{Front, front_of, rules_keep_what_is_asked};
use ot_terms::{Form, Goal, Place, Why};
use start_laws::rules_keep_starts;

/// How many transformations may follow one another with nothing asked between them, and one more.
const MOST_TRANSFORMS: u32 = 7;

// The literal of the question whether the first place is at most the second.
#[inline]
fn literal(x: Place, y: Place) -> Lit
    requires x_near { IsNear 1000 x.off }
    requires y_near { IsNear 1000 y.off }
    ensures { result ≡ nodes.literal x y }
{
    Lit {
        x: x.var,
        y: y.var,
        k: y.off - x.off,
    }
}

// How the plan of a question begins, with a goal for each answer.
#[inline(always)]
fn asked<'a>(
    bump: &'a Bump,
    rules: &Rules,
    form: Form<'a>,
    yes: &'a Goal<'a>,
    no: &'a Goal<'a>,
) -> Result<Turn<&'a Goal<'a>, Why>, NoMemory>
    requires goal { (ob : ObName) × IsGoalOf (function_of rules.now) ob
        (If (form_tree form) (goal_tree yes.now) (goal_tree no.now)) }
    requires question { IsTrue (fronts.is_question (form_tree form)) }
    ensures { IfOk result (λ t. TurnsAs (function_of rules.now)
        (If (form_tree form.entry) (goal_tree yes.now) (goal_tree no.now)) t) }
{
    let Some((x, y)) = question(form) else {
        return Ok(Turn::Holds);
    };
    let on_yes = settled(bump, rules, yes)?;
    let on_no = settled(bump, rules, no)?;
    Ok(Turn::Ask {
        lit: literal(x, y),
        yes: on_yes,
        no: on_no,
    })
}

/// How the plan of a goal begins at whose front nothing is left to be rewritten.
pub(crate) fn turn_at<'a>(
    bump: &'a Bump,
    rules: &Rules,
    front: Front<'a>,
) -> Result<Turn<&'a Goal<'a>, Why>, NoMemory>
    requires goal { (ob : ObName) × IsGoalOf (function_of rules.now) ob (front_tree front) }
    requires at_front { IsTrue (fronts.is_at_front (front_tree front)) }
    ensures { IfOk result (λ t. TurnsAs (function_of rules.now) (front_tree front.entry) t) }
{
    match front {
        Front::Holds => Ok(Turn::Holds),
        Front::Fails(why) => Ok(Turn::Fails(why)),
        Front::If { form, yes, no } => asked(bump, rules, form, yes, no),
        Front::Choose { .. } => Ok(Turn::Holds),
        Front::Deliver { .. } => Ok(Turn::Holds),
        Front::Same { .. } => Ok(Turn::Holds),
    }
}

// How the plan of a goal begins, found by rules until a question or an end stands at its front.
fn turn_behind<'a>(
    bump: &'a Bump,
    rules: &Rules,
    goal: &'a Goal<'a>,
) -> Result<Turn<&'a Goal<'a>, Why>, NoMemory>
    requires { (ob : ObName) × IsGoalOf (function_of rules.now) ob (goal_tree goal.now) }
    ensures { IfOk result (λ t. TurnsAs (function_of rules.now) (goal_tree goal.now) t) }
{
    let front = front_of(bump, rules, goal)?;
    rules_keep_what_is_asked();
    rules_keep_starts();
    rules_are_valid(rules);
    turn_at(bump, rules, front)
}

// How the plan of any goal begins.
fn turn_on<'a>(
    rules: &Rules,
    starts: &mut Table<'a>,
    ends: &mut Ends<'a>,
    goal: &'a Goal<'a>,
) -> Result<Turn<&'a Goal<'a>, Why>, NoMemory>
    requires goal { (ob : ObName) × IsGoalOf (function_of rules.now) ob (goal_tree goal.now) }
    requires starts { All (IsKeptStart (function_of rules.now)) starts.old.goals.items }
    requires ends { All (IsKeptEnd (function_of rules.now)) ends.old.kept.goals.items }
    ensures turns { IfOk result (λ t. TurnsAs (function_of rules.now) (goal_tree goal.now) t) }
    ensures starts { All (IsKeptStart (function_of rules.now)) starts.new.goals.items }
    ensures ends { All (IsKeptEnd (function_of rules.now)) ends.new.kept.goals.items }
{
    let near = laid_on(rules, starts, ends, goal, MOST_TRANSFORMS)?;
    turn_behind(ends.bump, rules, near)
}

/// How the plan of a goal begins. Most goals have a question at their front already.
#[inline(always)]
pub(crate) fn turn_of<'a>(
    rules: &Rules,
    starts: &mut Table<'a>,
    ends: &mut Ends<'a>,
    goal: &'a Goal<'a>,
) -> Result<Turn<&'a Goal<'a>, Why>, NoMemory>
    requires goal { (ob : ObName) × IsGoalOf (function_of rules.now) ob (goal_tree goal.now) }
    requires starts { All (IsKeptStart (function_of rules.now)) starts.old.goals.items }
    requires ends { All (IsKeptEnd (function_of rules.now)) ends.old.kept.goals.items }
    ensures turns { IfOk result (λ t. TurnsAs (function_of rules.now) (goal_tree goal.now) t) }
    ensures starts { All (IsKeptStart (function_of rules.now)) starts.new.goals.items }
    ensures ends { All (IsKeptEnd (function_of rules.now)) ends.new.kept.goals.items }
{
    if let Goal::Ask { order, yes, no } = *goal {
        if question(order.form()).is_some() {
            return asked(ends.bump, rules, order.form(), yes, no);
        }
    }
    turn_on(rules, starts, ends, goal)
}
