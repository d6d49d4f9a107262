//! The asker of one obligation, or of one goal.
ghost use Rattle.std.specs.Prelude.{◌≡◌, IsTrue, IfOk};
ghost use Rattle.fn_rules.specs.Obligations.{is_obligation};
ghost use Rattle.fn_rules.specs.Rules.{function_of};
ghost use Rattle.ask_core.specs.Askers.{Begins};
ghost use Rattle.ot_terms.specs.Forms.{form_tree};
ghost use Rattle.ot_terms.specs.Goals.{goal_tree, If};
ghost use Rattle.ot_terms.specs.Standing.{ask_goal};
ghost use Rattle.ot_rewrite.specs.Fronts.{is_at_front, is_question};
ghost use Rattle.ot_rewrite.specs.Steps.{front_tree};
ghost use Rattle.ot_questions.specs.Nears.{IsNear};
ghost use Rattle.ot_questions.specs.Obligation.{plan_of};
ghost use Rattle.ot_paths.specs.Nodes as nodes;
ghost use Rattle.ot_paths.specs.Nodes.{IsNode};
ghost use Rattle.ot_paths.specs.Given.{IsGiven, IsGiven-prop, own_plan};

use crate::laid_out;
use ask_core::{Asker, NoMemory, Turn};
use bumpalo::Bump;
use diff_graph::Lit;
use first_goals::start_goal;
use fn_rules::{ObName, Rules, rules_are_valid};
use ot_questions::plans_keep_limits;
use ot_rewrite::{Front, front_of};
use ot_terms::{Form, Goal, Place, Why, first_goals_stand_for_obligations};

// Whether nothing is left to be rewritten at the goal's front, as where its questions are laid out.
#[inline(always)]
fn is_settled(goal: &Goal<'_>) -> bool
    ensures { IsTrue result → IsTrue (is_at_front (goal_tree goal.now)) }
{
    match *goal {
        Goal::Holds => true,
        Goal::Fails(_) => true,
        Goal::Ask { order, .. } => is_asked(order.form()),
        _ => false,
    }
}

// Whether the form is a question: whether a place of one name is at most one of another name.
#[inline(always)]
fn is_asked(form: Form<'_>) -> bool
    ensures { result ≡ is_question (form_tree form.entry) }
{
    match form {
        Form::Le(x, y) => x.var != y.var,
        _ => false,
    }
}

// The literal of the question whether the first place is at most the second.
#[inline(always)]
fn literal(x: Place, y: Place) -> Lit
    requires x_near { IsNear 1000 x.off }
    requires y_near { IsNear 1000 y.off }
    ensures { result ≡ nodes.literal x y }
{
    Lit {
        x: x.var,
        y: y.var,
        k: y.off - x.off,
    }
}

// What an obligation begins with, its questions laid out in the arena.
fn laid_obligation<'a>(bump: &'a Bump, rules: &Rules, ob: ObName) -> Result<&'a Goal<'a>, NoMemory>
    requires { IsTrue (is_obligation (function_of rules.now).head ob) }
    ensures node { IfOk result (λ g. IsNode (function_of rules.now) ob (goal_tree g.now)) }
    ensures plan { IfOk result (λ g. ask_goal (function_of rules.now) (goal_tree g.now)
        ≡ plan_of (function_of rules.now) ob) }
{
    plans_keep_limits();
    first_goals_stand_for_obligations();
    rules_are_valid(rules);
    let start = start_goal(bump, rules, ob)?;
    let mut known = Vec::new(bump);
    laid_out(bump, rules, &mut known, *start)
}

/// What an obligation of a function asks, or a goal that is given. Its nodes are goals in an arena that stands outside.
/// `start` lays the questions of the obligation out there, and what is asked after equal results is there once: a turn
/// looks at its goal. What there was no room for is rewritten when its turn is asked for, and so is a goal that is
/// given.
#[derive(Drop)]
pub struct PathAsker<'a> {
    bump: &'a Bump,
    rules: &'a Rules,
    ob: ObName,
    goal: Option<&'a Goal<'a>>,
    ghost listed: { IsTrue (is_obligation (function_of rules.now).head ob) },
    ghost given: { IsGiven (function_of rules.now) ob goal } by { IsGiven-prop (function_of rules.now) ob goal },
}

impl<'a> PathAsker<'a> {
    /// The asker of an obligation that is one of the function's.
    pub fn new(bump: &'a Bump, rules: &'a Rules, ob: ObName) -> PathAsker<'a>
        requires { IsTrue (is_obligation (function_of rules.now).head ob) }
        ensures rules { result.rules.now ≡ rules.now }
        ensures obligation { result.ob ≡ ob }
        ensures root { own_plan (function_of result.rules.now) result.ob result.goal
            ≡ plan_of (function_of rules.now) ob }
    {
        PathAsker {
            bump,
            rules,
            ob,
            goal: None,
        }
    }

    /// The asker of a goal that is a node: of the function and the obligation, within the limits of plans. The goal is
    /// not laid out: of a large condition few parts are asked.
    pub fn over(bump: &'a Bump, rules: &'a Rules, ob: ObName, goal: &'a Goal<'a>) -> PathAsker<'a>
        requires { IsNode (function_of rules.now) ob (goal_tree goal.now) }
        ensures rules { result.rules.now ≡ rules.now }
        ensures obligation { result.ob ≡ ob }
        ensures root { own_plan (function_of result.rules.now) result.ob result.goal
            ≡ ask_goal (function_of rules.now) (goal_tree goal.now) }
    {
        PathAsker {
            bump,
            rules,
            ob,
            goal: Some(goal),
        }
    }

    // How the plan of a question begins, with a goal for each answer.
    #[inline(always)]
    fn asked(&self, form: Form<'a>, yes: &'a Goal<'a>, no: &'a Goal<'a>) -> Turn<&'a Goal<'a>, Why>
        requires node { IsNode (function_of self.now.rules.now) self.now.ob
            (If (form_tree form) (goal_tree yes.now) (goal_tree no.now)) }
        requires question { IsTrue (is_question (form_tree form)) }
        ensures { Begins (λ n. IsNode (function_of self.now.rules.now) self.now.ob (goal_tree n.now))
            (λ n. ask_goal (function_of self.now.rules.now) (goal_tree n.now)) result
            (ask_goal (function_of self.now.rules.now)
            (If (form_tree form.entry) (goal_tree yes.now) (goal_tree no.now))) }
    {
        match form {
            Form::Le(x, y) => Turn::Ask {
                lit: literal(x, y),
                yes,
                no,
            },
            Form::True => Turn::Holds,
            Form::Lt(_, _) => Turn::Holds,
            Form::Eq(_, _) => Turn::Holds,
            Form::And(_, _) => Turn::Holds,
            Form::Or(_, _) => Turn::Holds,
            Form::Not(_) => Turn::Holds,
        }
    }

    // How the plan of a goal begins at whose front nothing is left to be rewritten.
    #[tactic(auto, using(crate::proofs::Questions::ask_goal_holds, crate::proofs::Questions::ask_goal_fails))]
    #[inline(always)]
    fn turn_at(&self, front: Front<'a>) -> Turn<&'a Goal<'a>, Why>
        requires node { IsNode (function_of self.now.rules.now) self.now.ob (front_tree front) }
        requires at_front { IsTrue (is_at_front (front_tree front)) }
        ensures { Begins (λ n. IsNode (function_of self.now.rules.now) self.now.ob (goal_tree n.now))
            (λ n. ask_goal (function_of self.now.rules.now) (goal_tree n.now)) result
            (ask_goal (function_of self.now.rules.now) (front_tree front.entry)) }
    {
        match front {
            Front::Holds => Turn::Holds,
            Front::Fails(why) => Turn::Fails(why),
            Front::If { form, yes, no } => self.asked(form, yes, no),
            Front::Choose { .. } => Turn::Holds,
            Front::Deliver { .. } => Turn::Holds,
            Front::Same { .. } => Turn::Holds,
        }
    }

    // How the plan of any goal begins. Out of line: nine of ten turns are at a question that is laid out.
    #[inline(never)]
    fn turn_of(&self, node: &'a Goal<'a>) -> Result<Turn<&'a Goal<'a>, Why>, NoMemory>
        requires { IsNode (function_of self.now.rules.now) self.now.ob (goal_tree node.now) }
        ensures { IfOk result (λ t. Begins (λ n. IsNode (function_of self.now.rules.now) self.now.ob (goal_tree n.now))
            (λ n. ask_goal (function_of self.now.rules.now) (goal_tree n.now)) t
            (ask_goal (function_of self.now.rules.now) (goal_tree node.now))) }
    {
        if is_settled(node) {
            return Ok(self.turn_at(Front::of(node)));
        }
        let front = front_of(self.bump, self.rules, node)?;
        Ok(self.turn_at(front))
    }
}

impl<'a> Asker for PathAsker<'a> {
    ghost use Rattle.fn_rules.specs.Rules.{function_of};
    ghost use Rattle.ot_questions.specs.Names as names;
    ghost use Rattle.ot_terms.specs.Goals.{goal_tree};
    ghost use Rattle.ot_terms.specs.Standing.{ask_goal};
    ghost use Rattle.ot_paths.specs.Given.{own_plan};
    ghost use Rattle.ot_paths.specs.Nodes.{IsNode};

    type Node = &'a Goal<'a>;

    type Why = Why;

    ghost is_own = { λ a n. IsNode (function_of a.rules.now) a.ob (goal_tree n.now) };

    ghost plan = { λ a n. ask_goal (function_of a.rules.now) (goal_tree n.now) };

    ghost root = { λ a. own_plan (function_of a.rules.now) a.ob a.goal };

    ghost name_count = { λ a. names.name_count a.ob };

    fn names(&self) -> u8 {
        match self.ob {
            ObName::Pair(..) => 9,
            ObName::Triple(..) => 12,
        }
    }

    fn start(&mut self) -> Result<&'a Goal<'a>, NoMemory> {
        match self.goal {
            Some(goal) => Ok(goal),
            None => laid_obligation(self.bump, self.rules, self.ob),
        }
    }

    #[inline(always)]
    fn turn(&mut self, node: &'a Goal<'a>) -> Result<Turn<&'a Goal<'a>, Why>, NoMemory> {
        if let Goal::Ask { order, yes, no } = *node {
            if is_asked(order.form()) {
                return Ok(self.asked(order.form(), yes, no));
            }
        }
        self.turn_of(node)
    }

    #[inline(always)]
    fn look(&self, node: &'a Goal<'a>) -> Option<(Lit, &'a Goal<'a>)> {
        if let Goal::Ask { order, yes, no } = *node {
            if is_asked(order.form()) {
                if let Turn::Ask { lit, no, .. } = self.asked(order.form(), yes, no) {
                    return Some((lit, no));
                }
            }
        }
        None
    }

    ghost fine = { λ a n own. own.fine };
}
