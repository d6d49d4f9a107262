//! What the length of a failing end is, and that the search has one answer. These functions work nothing out: their
//! contracts are the laws.
ghost use Rattle.std.specs.Prelude.{◌≡◌, ◌≢◌, ◌≤ℤ◌, ◌-ℤ◌, ◌∷◌, ℕ, ℤ, pos, IsTrue, List, Some};
ghost use Rattle.diff_graph.specs.declared.lit.Lit.{Lit};
ghost use Rattle.diff_graph.specs.Literals.{AreMet, IsPossible};
ghost use Rattle.diff_tables.specs.Solutions.{AreLeast, valuation_of};
ghost use Rattle.fn_rules.specs.declared.function.ObName.{ObName};
ghost use Rattle.fn_rules.specs.Functions.{Function};
ghost use Rattle.fn_rules.specs.Obligations.{level_of, is_obligation};
ghost use Rattle.fn_rules.specs.Validity.{is_valid};
ghost use Rattle.ask_core.specs.Leading.{LeadTo};
ghost use Rattle.ot_questions.specs.declared.why.Why.{Why};
ghost use Rattle.ot_questions.specs.Names.{length_name, zero_name};
ghost use Rattle.ot_questions.specs.Obligation.{plan_below, plan_of};
ghost use Rattle.ot_values.specs.Values.{floors_of};
ghost use Rattle.ot_bound.specs.Lows.{HasAt};
ghost use Rattle.ot_least.specs.declared.short.Short.{Short};
ghost use Rattle.ot_least.specs.declared.short.Short.TheVariants.{TooLong};
ghost use Rattle.ot_least.specs.Shortest.{AreAlikeAnswers, HasCells, IsBrokenAt, IsShort};

use ask_core::answers_lead_to_ends;
use ot_counter::failing_ends_have_counterexamples;
use ot_decide::obligations_have_one_question_list;
use ot_questions::{Why, pair_plans_mean_tp1, plans_compare_like_with_like, triple_plans_mean_tp2};
use ot_values::{answers_have_least_values, first_documents_have_at_most_1000_cells};

/// Where answers lead to an end of an obligation that fails, the property does not hold on the documents of as many
/// cells as any integers that meet the answers give to the length. The least such values name a document of so many
/// cells, and operations on it at which the interpreter breaks the property.
pub fn failing_ends_break_at_their_length()
    ensures fails { (f : Function) (ob : ObName) (why : Why) (w : List Lit) (v : ℕ → ℤ) (n : ℕ) → IsTrue (is_valid f)
        → IsTrue (is_obligation f.head ob) → LeadTo why (plan_of f ob) w → v zero_name ≡ pos 0 → v length_name ≡ pos n
        → AreMet v w → ¬ HasAt f (level_of ob) n }
    ensures instance { (f : Function) (ob : ObName) (why : Why) (w : List Lit) (cells : ℕ) → IsTrue (is_valid f)
        → IsTrue (is_obligation f.head ob) → LeadTo why (plan_of f ob) w → HasCells ob w cells
        → IsBrokenAt f (level_of ob) cells }
{
    failing_ends_have_counterexamples();
    answers_lead_to_ends::<Why>();
    pair_plans_mean_tp1();
    triple_plans_mean_tp2();
}

/// A failing end on the documents of fewer cells than a bound is one of the obligation, behind the first question. And
/// the least values that meet the answers there give fewer cells than the bound: the first question is met without its
/// answer.
pub fn failing_ends_below_a_bound_are_shorter()
    ensures leads { (f : Function) (ob : ObName) (why : Why) (w : List Lit) (bound : ℕ)
        → LeadTo why (plan_below f (Some bound) ob) w
        → (l : Lit) × (rest : List Lit) × (w ≡ l ∷ rest) × LeadTo why (plan_of f ob) rest }
    ensures shorter { (f : Function) (ob : ObName) (why : Why) (l : Lit) (rest : List Lit) (bound : ℕ) (values : List ℤ)
        → IsTrue (is_valid f) → LeadTo why (plan_below f (Some bound) ob) (l ∷ rest) → IsPossible (l ∷ rest)
        → AreLeast rest (floors_of ob) values → valuation_of values length_name ≤ℤ (pos bound -ℤ pos 1) }
{
    plans_compare_like_with_like();
    answers_have_least_values();
}

/// Any two answers of the search for the shortest document, of one function and one budget, are one but for their
/// certificates.
pub fn functions_have_one_shortest_document()
    ensures { (f : Function) (budget : ℕ) (one other : Short) → IsShort f budget one → IsShort f budget other
        → AreAlikeAnswers one other }
{
    obligations_have_one_question_list();
}

/// The search for the shortest document of a valid function never ends for the length of the first failing end's
/// document: no such document has more than 1,000 cells.
pub fn first_documents_are_never_too_long()
    ensures { (f : Function) (budget : ℕ) (short : Short) → IsTrue (is_valid f) → IsShort f budget short
        → short ≢ TooLong }
{
    first_documents_have_at_most_1000_cells();
}
