//! The questions of a guard alone, asked and laid out. Those of obligations are rows of `questions`.
ghost use Rattle.std.specs.Prelude.{IsTrue};
ghost use Rattle.fn_rules.specs.Obligations.{is_obligation};
ghost use Rattle.fn_rules.specs.Rules.{function_of};

use crate::functions::{BEFORE, MARKS, staying};
use ask_core::{Asker, NoMemory, Turn};
use bumpalo::Bump;
use diff_graph::Lit;
use fn_rules::{Guard, ObName, Rules};
use ot_model::Kind;
use ot_paths::{PathAsker, by_guard, conditions_are_nodes};
use ot_questions::Who;
use ot_terms::{Goal, Place, SymOp, Why, place_form, places_of};
use std::alloc::Global;
use std::process::Abort;

// Over a goal that holds where the first deletion is before the second, and fails where it is not.
fn asker_of_guard<'a>(bump: &'a Bump, rules: &'a Rules) -> Result<PathAsker<'a>, NoMemory>
    requires { IsTrue (is_obligation (function_of rules.now).head (ObName.Pair Kind.Del Kind.Del)) }
{
    conditions_are_nodes();
    let before = Guard::Atom(BEFORE);
    let a = SymOp::named(Kind::Del, Who::A);
    let b = SymOp::named(Kind::Del, Who::B);
    let form = place_form(bump, &before, a, b)?;
    let on_yes = Goal::holds(bump)?;
    let on_no = Goal::fails(bump, Why::Undefined)?;
    let goal = Goal::either(bump, *form, on_yes, on_no)?;
    Ok(PathAsker::over(bump, rules, ObName::Pair(Kind::Del, Kind::Del), goal))
}

// What stands behind one of the answers to a question, if the plan begins with one.
fn behind_first<A: Asker>(
    asker: &mut A,
    answer: bool,
) -> Result<Option<Turn<A::Node, A::Why>>, NoMemory> {
    let start = asker.start()?;
    match asker.turn(start)? {
        Turn::Ask { yes, no, .. } => Ok(Some(asker.turn(if answer { yes } else { no })?)),
        _ => Ok(None),
    }
}

// The question that the plan begins with, where it is at hand.
fn first_at_hand<A: Asker>(asker: &mut A) -> Result<Option<Lit>, NoMemory> {
    let start = asker.start()?;
    match asker.look(start) {
        Some((lit, _)) => Ok(Some(lit)),
        None => Ok(None),
    }
}

// The question that the plan begins with.
fn first_asked<A: Asker>(asker: &mut A) -> Result<Option<Lit>, NoMemory> {
    let start = asker.start()?;
    match asker.turn(start)? {
        Turn::Ask { lit, .. } => Ok(Some(lit)),
        _ => Ok(None),
    }
}

// Whether the guard is asked, and nothing behind its answers: yes holds, and no fails.
fn is_guard_asked<A: Asker>(asker: &mut A) -> Result<bool, NoMemory> {
    let is_first = first_asked(asker)? == Some(Lit { x: 3, y: 6, k: -1 });
    let holds = matches!(behind_first(asker, true)?, Some(Turn::Holds));
    let fails = matches!(behind_first(asker, false)?, Some(Turn::Fails(_)));
    Ok(is_first && holds && fails && asker.names() == 9)
}

fn asks_a_guard(alloc: Global, rules: &Rules) -> Result<bool, NoMemory>
    requires { IsTrue (is_obligation (function_of rules.now).head (ObName.Pair Kind.Del Kind.Del)) }
{
    let bump = Bump::new(alloc);
    let mut asker = asker_of_guard(&bump, rules)?;
    is_guard_asked(&mut asker)
}

fn is_first_at_hand<A: Asker>(asker: &mut A) -> Result<bool, NoMemory> {
    let at_hand = first_at_hand(asker)?;
    Ok(at_hand.is_some() && at_hand == first_asked(asker)?)
}

fn looks_at_a_pair(alloc: Global, rules: &Rules) -> Result<bool, NoMemory>
    requires { IsTrue (is_obligation (function_of rules.now).head (ObName.Pair Kind.Del Kind.Del)) }
{
    let bump = Bump::new(alloc);
    let mut asker = PathAsker::new(&bump, rules, ObName::Pair(Kind::Del, Kind::Del));
    is_first_at_hand(&mut asker)
}

fn are_asked(rt: &impl Abort, alloc: Global) -> Result<bool, NoMemory> {
    let rules = staying(rt, alloc, MARKS, Kind::Del)?;
    assert!(rt; rules.head().declares_pair(Kind::Del, Kind::Del));
    Ok(asks_a_guard(alloc, &rules)? && looks_at_a_pair(alloc, &rules)?)
}

#[test]
fn a_guard_and_a_pair_ask_their_first_questions(rt: HostRuntime) {
    assert!(rt; are_asked(&rt, rt.alloc()) == Ok(true));
}

// Whether a comparison of the guard is of these places and laid out. That it is one question is a row of
// `proofs/LaidRows.antt`.
fn is_laid_out(bump: &Bump) -> Result<bool, NoMemory> {
    let a = SymOp::named(Kind::Del, Who::A);
    let b = SymOp::named(Kind::Del, Who::B);
    let (first, second) = places_of(&BEFORE, &a, &b);
    let on_yes = Goal::holds(bump)?;
    let on_no = Goal::fails(bump, Why::Undefined)?;
    let goal = by_guard(bump, &Guard::Atom(BEFORE), &a, &b, on_yes, on_no)?;
    let is_question = matches!(goal, Goal::Ask { .. });
    Ok(is_question && first == Place { var: 3, off: 0 } && second == Place { var: 6, off: 0 })
}

#[test]
fn a_comparison_is_laid_out_as_a_question(rt: HostRuntime) {
    assert!(rt; is_laid_out(&Bump::new(rt.alloc())) == Ok(true));
}
