//! Counterexamples of TP1 that were found, and whether other functions lack it there too.
ghost use Rattle.std.specs.Prelude.{◌≡◌, ◌∷◌, [], true, false, IfOk};
ghost use Rattle.fn_rules.specs.Properties.{AreConcurrent, ConvergesAt};
ghost use Rattle.fn_rules.specs.Rules.{function_of};
ghost use Rattle.ot_integrate.specs.Ends.{outcome_of};
ghost use Rattle.ot_commands.specs.Found.{IsOneEnd, LacksTp1};

use fn_rules::{Rules, allowed, is_integrable, tests_decide_their_facts};
use ot_counter::Counter;
use ot_integrate::{End, integrate};
use ot_model::{Doc, MAX_CELLS, NoMemory, Op};
use std::alloc::Global;

/// How many counterexamples are kept.
const MAX_FOUND: usize = 64;

/// Counterexamples, the one that served last in front.
#[derive(Drop)]
pub(crate) struct Found {
    counters: Vec<Counter>,
}

// Whether two operations, of which none is nop, can be made at once on a document.
fn are_concurrent(rules: &Rules, doc: &Doc, a: &Op, b: &Op) -> bool
    ensures { result ≡ true → AreConcurrent (function_of rules.now) doc.now (a.now ∷ b.now ∷ []) }
{
    a.kind().is_some()
        && b.kind().is_some()
        && is_integrable(rules, doc.len(), a)
        && is_integrable(rules, doc.len(), b)
        && allowed(rules, a, b)
}

// Whether both orders end with one document.
fn is_one_end(left: &End, right: &End) -> bool
    ensures { result ≡ false → ¬ IsOneEnd (outcome_of left.now) (outcome_of right.now) }
{
    match (left, right) {
        (End::Doc(left), End::Doc(right)) => left.same(right),
        _ => false,
    }
}

// Whether two operations that can be made at once on a document do not converge there.
fn is_broken_by(alloc: Global, rules: &Rules, doc: &Doc, a: Op, b: Op) -> Result<bool, NoMemory>
    ensures { IfOk result (λ broken. broken ≡ true → LacksTp1 (function_of rules.now)) }
{
    tests_decide_their_facts();
    if doc.len() > MAX_CELLS || !are_concurrent(rules, doc, &a, &b) {
        return Ok(false);
    }
    let ops = [a, b];
    let left = integrate(alloc, rules, doc, &ops, &[0, 1])?;
    let right = integrate(alloc, rules, doc, &ops, &[1, 0])?;
    Ok(!is_one_end(&left, &right))
}

// Whether a function lacks TP1 at a counterexample of it.
fn is_broken_at(alloc: Global, rules: &Rules, counter: &Counter) -> Result<bool, NoMemory>
    ensures { IfOk result (λ broken. broken ≡ true → LacksTp1 (function_of rules.now)) }
{
    match counter.ops.as_slice() {
        [a, b] => is_broken_by(alloc, rules, &counter.doc, *a, *b),
        _ => Ok(false),
    }
}

impl Found {
    /// None.
    pub(crate) fn new(alloc: Global) -> Found {
        Found {
            counters: Vec::new(alloc),
        }
    }

    /// Whether a function lacks TP1 at one of them.
    pub(crate) fn is_broken(&mut self, alloc: Global, rules: &Rules) -> Result<bool, NoMemory>
        ensures { IfOk result (λ broken. broken ≡ true → LacksTp1 (function_of rules.now)) }
    {
        for place in 0..self.counters.len() {
            if is_broken_at(alloc, rules, &self.counters[place])? {
                self.counters.swap(0, place);
                return Ok(true);
            }
        }
        Ok(false)
    }

    /// Keeps one more, if it is of TP1 and there is room.
    pub(crate) fn keep(&mut self, counter: Counter) -> Result<(), NoMemory> {
        if counter.ops.len() == 2 && self.counters.len() < MAX_FOUND {
            self.counters.push(counter)?;
        }
        Ok(())
    }
}
