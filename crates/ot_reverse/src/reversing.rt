//! Whether a function is reversed by another one.
ghost use Rattle.std.specs.Prelude.{◌≡◌, ◌↔◌, true, [], ◌∷◌, IfOk, IsTrue};
ghost use Rattle.std.specs.List.{AllByRecursion};
ghost use Rattle.ot_model.specs.Operations.{kind_of};
ghost use Rattle.fn_rules.specs.Conditions.{IsWithin};
ghost use Rattle.fn_rules.specs.Functions.{IsForKind, is_declared_of, is_declared_pair};
ghost use Rattle.fn_rules.specs.Rules.{function_of};
ghost use Rattle.fn_rules.specs.Transformation.{transform_of};
ghost use Rattle.ot_audit.specs.Findings.{IsNearSought, IsSoughtIn};
ghost use Rattle.ot_values.specs.Values.{farthest, live_cells};
ghost use Rattle.ot_audit.specs.declared.back.Back.TheVariants.{No};
ghost use Rattle.ot_reverse.specs.Answers.{AreSearched, IsReversedAs};
ghost use Rattle.ot_reverse.specs.Goals as goals;
ghost use Rattle.ot_reverse.specs.Reversal.{AreAlike, back_of};

use crate::goals::reversal_goal;
use crate::laws::{answers_tell_of_all_documents, goals_are_searchable};
use ask_core::NoMemory;
use bumpalo::Bump;
use fn_rules::{
    Head, Rules, blocks, rules_are_valid, transform, transform_keeps_all_but_the_position,
    transform_stays_near,
};
use ot_audit::{Back, Sought, seek};
use ot_model::{Kind, Op};
use ot_values::live_document;
use std::alloc::Global;

// Whether two heads are of one mode and for the same kinds.
fn heads_are_alike(head: &Head, other: &Head) -> bool
    ensures { IsTrue result ↔ AreAlike head.now other.now }
{
    *head
        == Head {
            sites_differ: head.sites_differ,
            chars_differ: head.chars_differ,
            ..*other
        }
}

/// Whether two functions are of one mode and for the same kinds. What they assume to differ may be another.
pub fn are_alike(rules: &Rules, others: &Rules) -> bool
    ensures { IsTrue result ↔ AreAlike (function_of rules.now).head (function_of others.now).head }
{
    heads_are_alike(&rules.head(), &others.head())
}

// Where the first operation is not taken back, sought with goals in the arena.
fn seek_in<'a>(
    alloc: Global,
    bump: &'a Bump,
    rules: &'a Rules,
    others: &'a Rules,
    first: Kind,
    second: Kind,
    budget: u64,
) -> Result<Sought, NoMemory>
    requires declared { IsTrue (is_declared_pair (function_of rules.now).head first second) }
    requires alike { AreAlike (function_of rules.now).head (function_of others.now).head }
    ensures sought { IfOk result (IsSoughtIn (function_of rules.now) first second
        (goals.reversal_goal (function_of rules.now) (function_of others.now) first second) budget) }
    ensures near { IfOk result IsNearSought }
{
    rules_are_valid(rules);
    rules_are_valid(others);
    goals_are_searchable();
    let goal = reversal_goal(bump, rules, others, first, second)?;
    seek(alloc, bump, rules, first, second, goal, budget)
}

// The same with an arena of its own.
fn seek_pair(
    alloc: Global,
    rules: &Rules,
    others: &Rules,
    first: Kind,
    second: Kind,
    budget: u64,
) -> Result<Sought, NoMemory>
    requires declared { IsTrue (is_declared_pair (function_of rules.now).head first second) }
    requires alike { AreAlike (function_of rules.now).head (function_of others.now).head }
    ensures sought { IfOk result (IsSoughtIn (function_of rules.now) first second
        (goals.reversal_goal (function_of rules.now) (function_of others.now) first second) budget) }
    ensures near { IfOk result IsNearSought }
{
    let bump = Bump::new(alloc);
    seek_in(alloc, &bump, rules, others, first, second, budget)
}

// What the second function makes of a form of `a` against `b`, if there is one.
fn back_from(rules: &Rules, others: &Rules, a: &Op, b: &Op, there: Option<Op>) -> Option<Op>
    requires form { there ≡ transform_of (function_of rules.now) a.now b.now }
    requires a_declared { IsForKind (function_of rules.now).head (kind_of a.now) }
    requires b_declared { IsForKind (function_of rules.now).head (kind_of b.now) }
    requires alike { AreAlike (function_of rules.now).head (function_of others.now).head }
    requires a_near { IsWithin farthest a.now }
    requires b_near { IsWithin farthest b.now }
    ensures { result ≡ back_of (function_of others.now) b.now there }
{
    rules_are_valid(rules);
    transform_stays_near();
    transform_keeps_all_but_the_position();
    match there {
        None => None,
        Some(there) => transform(others, &there, b),
    }
}

// What is answered where the two operations are not taken back on the document of so many live cells.
fn broken_at(
    alloc: Global,
    rules: &Rules,
    others: &Rules,
    cells: u32,
    a: Op,
    b: Op,
) -> Result<Back, NoMemory>
    requires declared { IsForKind (function_of rules.now).head (kind_of a)
        × IsForKind (function_of rules.now).head (kind_of b) }
    requires alike { AreAlike (function_of rules.now).head (function_of others.now).head }
    requires near { IsWithin farthest a × IsWithin farthest b }
    ensures { IfOk result (λ back. back ≡ No (live_cells cells) a b (transform_of (function_of rules.now) a b)
        (back_of (function_of others.now) b (transform_of (function_of rules.now) a b))) }
{
    let there = transform(rules, &a, &b);
    let back = back_from(rules, others, &a, &b, there);
    let doc = live_document(alloc, cells)?;
    Ok(Back::No {
        doc,
        a,
        b,
        there,
        back,
    })
}

// Whether what the first function makes of operations of the two kinds is taken back.
fn reverses_pair(
    alloc: Global,
    rules: &Rules,
    others: &Rules,
    first: Kind,
    second: Kind,
    budget: u64,
) -> Result<Back, NoMemory>
    requires declared { IsTrue (is_declared_pair (function_of rules.now).head first second) }
    requires alike { AreAlike (function_of rules.now).head (function_of others.now).head }
    ensures { IfOk result (AreSearched (function_of rules.now) (function_of others.now) budget ((first, second) ∷ [])) }
{
    match seek_pair(alloc, rules, others, first, second, budget)? {
        Sought::Nowhere => Ok(Back::Yes),
        Sought::At { cells, a, b } => {
            answers_tell_of_all_documents();
            broken_at(alloc, rules, others, cells, a, b)
        }
        Sought::Spent => Ok(Back::Spent),
    }
}

// The same of each of the pairs of kinds, up to the first at which it is not so.
fn reverses_pairs(
    alloc: Global,
    rules: &Rules,
    others: &Rules,
    pairs: &[(Kind, Kind)],
    budget: u64,
) -> Result<Back, NoMemory>
    requires declared { AllByRecursion (λ pair. is_declared_of (function_of rules.now).head pair ≡ true) pairs.now }
    requires alike { AreAlike (function_of rules.now).head (function_of others.now).head }
    ensures { IfOk result (AreSearched (function_of rules.now) (function_of others.now) budget pairs.now) }
{
    match pairs {
        [] => Ok(Back::Yes),
        [(first, second), behind @ ..] => {
            match reverses_pair(alloc, rules, others, *first, *second, budget)? {
                Back::Yes => reverses_pairs(alloc, rules, others, behind, budget),
                back => Ok(back),
            }
        }
    }
}

/// Whether the second function reverses the first: whether on every document, for all operations of the kinds that are
/// enabled on it and that the first function allows with each other, the first one has a form behind the second, and
/// what the second function makes of that form is the first operation again, but where the form is nop. Both are of one
/// mode and for the same kinds.
///
/// The ordered pairs of kinds are gone through in canonical order, each with at most `budget` questions. `Yes` comes
/// exactly where it reverses it and no pair has more questions, `No` exactly where a pair has a failing end and neither
/// it nor one before it has more, and `Spent` exactly where a pair has more and none before it has a failing end. The
/// document and the operations are of the least values of the first failing end. The error is want of memory.
pub fn reverses(alloc: Global, rules: &Rules, others: &Rules, budget: u64) -> Result<Back, NoMemory>
    requires { AreAlike (function_of rules.now).head (function_of others.now).head }
    ensures { IfOk result (IsReversedAs (function_of rules.now) (function_of others.now) budget) }
{
    let pairs = blocks(alloc, &rules.head())?;
    answers_tell_of_all_documents();
    reverses_pairs(alloc, rules, others, &pairs, budget)
}
