//! Why answers that lead to an end that fails have a counterexample. These functions do nothing: their
//! contracts are the laws.
ghost use Rattle.std.specs.Prelude.{◌<◌, ℤ, IsTrue, List, length};
ghost use Rattle.diff_graph.specs.declared.lit.Lit.{Lit};
ghost use Rattle.diff_graph.specs.Literals.{IsPossible};
ghost use Rattle.diff_tables.specs.Solutions.{AreLeast, IsPossibleAbove, valuation_of};
ghost use Rattle.fn_rules.specs.declared.function.ObName.{ObName};
ghost use Rattle.fn_rules.specs.Functions.{Function};
ghost use Rattle.fn_rules.specs.Obligations.{level_of, is_obligation};
ghost use Rattle.fn_rules.specs.Validity.{is_valid};
ghost use Rattle.ot_questions.specs.declared.name.Who.{Who};
ghost use Rattle.ot_questions.specs.declared.why.Why.{Why};
ghost use Rattle.ot_questions.specs.Names.{char_name};
ghost use Rattle.ot_questions.specs.Obligation.{plan_of};
ghost use Rattle.ask_core.specs.Leading.{LeadTo};
ghost use Rattle.ot_values.specs.Values.{floors_of, ops_at, IsSmallAt};
ghost use Rattle.ot_counter.specs.Documents.{document_at};
ghost use Rattle.ot_counter.specs.Counters.{Breaks, BreaksBy};

use ask_core::answers_lead_to_ends;
use ot_questions::{
    Why, names_stand_for_operations, pair_ends_at_valuations, plans_compare_like_with_like,
    triple_ends_at_valuations,
};
use ot_values::answers_have_least_values;

/// Answers that lead to an end that fails, and that some integers meet, are met by integers above the
/// floors. The least of these are small, and name an instance that breaks the property by the cause on the
/// document that shows it.
pub fn failing_ends_have_counterexamples()
    ensures above { (f : Function) (ob : ObName) (w : List Lit) (why : Why) → IsTrue (is_valid f)
        → IsTrue (is_obligation f.head ob) → LeadTo why (plan_of f ob) w → IsPossible w
        → IsPossibleAbove (floors_of ob) w }
    ensures parts { (f : Function) (ob : ObName) (w : List Lit) (why : Why) (values : List ℤ) (who : Who)
        → IsTrue (is_valid f)
        → LeadTo why (plan_of f ob) w → AreLeast w (floors_of ob) values → char_name who < length (floors_of ob)
        → IsSmallAt values who }
    ensures broken { (f : Function) (ob : ObName) (w : List Lit) (why : Why) (values : List ℤ) → IsTrue (is_valid f)
        → IsTrue (is_obligation f.head ob) → LeadTo why (plan_of f ob) w → AreLeast w (floors_of ob) values
        → Breaks f (level_of ob) (document_at (valuation_of values) why) (ops_at (valuation_of values) ob) }
    ensures by_the_cause { (f : Function) (ob : ObName) (w : List Lit) (why : Why) (values : List ℤ)
        → IsTrue (is_valid f)
        → IsTrue (is_obligation f.head ob) → LeadTo why (plan_of f ob) w → AreLeast w (floors_of ob) values
        → BreaksBy f (level_of ob) (document_at (valuation_of values) why) (ops_at (valuation_of values) ob) why }
{
    answers_lead_to_ends::<Why>();
    plans_compare_like_with_like();
    answers_have_least_values();
    names_stand_for_operations();
    pair_ends_at_valuations();
    triple_ends_at_valuations();
}
