//! Laws of question lists. A law is a clause and no code: a caller whose proof needs it calls it.
ghost use Rattle.std.specs.Prelude.{◌≡◌, ℕ, ◌≤◌, List, [], length, Ok, MatchOption};
ghost use Rattle.diff_graph.specs.declared.lit.Lit.{Lit};
ghost use Rattle.diff_graph.specs.Literals.{IsPossible};
ghost use Rattle.diff_graph.specs.Cycles.{pick_verdict};
ghost use Rattle.diff_graph.specs.Limits.{AreNamed};
ghost use Rattle.ask_core.specs.Plans.{Plan};
ghost use Rattle.ask_core.specs.Askers.{IsFine};
ghost use Rattle.ask_core.specs.Questions.{Questions, QuestionList};
ghost use Rattle.ot_prove.specs.Outcomes.{AreAllPossible, FailsAt, HoldsEverywhere};

use ask_core::valuations_answer_questions;
use diff_tables::{
    new_rows_stand_for_nothing, tables_stand_for_what_is_added, tables_tell_what_is_possible,
};

/// A plan that keeps the limits has exactly one question list. So each outcome of `prove` comes exactly
/// where its condition holds, since the conditions exclude one another.
pub fn plans_have_one_question_list<W: Copy>()
    ensures some { (count : ℕ) (p : Plan W) → IsFine count p → (q : Questions W) × QuestionList p [] q }
    ensures one { (p : Plan W) (w : List Lit) (q r : Questions W) → QuestionList p w q → QuestionList p w r → q ≡ r }
{
    new_rows_stand_for_nothing();
    tables_stand_for_what_is_added();
    tables_tell_what_is_possible();
}

/// Some integers meet each list of answers in a question list, and those of its failing end. So no
/// question stands in a tree of `prove` where none do, and a failing end is one of some integers.
pub fn question_lists_are_possible<W: Copy>()
    ensures { (p : Plan W) (w : List Lit) (q : Questions W) → QuestionList p w q → AreAllPossible q }
{}

/// A question list tells of its plan: without a failing end the plan holds at every valuation, and with
/// one it fails at the valuations that meet the answers there, of which there are some.
pub fn question_lists_tell_where_plans_fail<W: Copy>()
    ensures { (p : Plan W) (q : Questions W) → QuestionList p [] q
        → MatchOption q.failing (HoldsEverywhere p) (λ e. FailsAt p e) }
{
    valuations_answer_questions();
}

/// Answers that no integers meet have a negative cycle of at most as many picks as there are names. So
/// a plan without a possible failing end always has a fitting tree.
pub fn impossible_places_have_short_cycles()
    ensures { (names : ℕ) (w : List Lit) → AreNamed names w → ¬ IsPossible w
        → (picks : List ℕ) × (pick_verdict w picks ≡ Ok tt) × (length picks ≤ names) }
{
    new_rows_stand_for_nothing();
    tables_stand_for_what_is_added();
    tables_tell_what_is_possible();
}
