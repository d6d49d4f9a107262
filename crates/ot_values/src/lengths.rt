//! How long the documents of failing ends are. This function does nothing: its contract is the law.
ghost use Rattle.std.specs.Prelude.{◌≡◌, ◌≤ℤ◌, pos, IsTrue, List, [], Some, ℤ};
ghost use Rattle.diff_graph.specs.declared.lit.Lit.{Lit};
ghost use Rattle.diff_tables.specs.Solutions.{AreLeast, valuation_of};
ghost use Rattle.fn_rules.specs.declared.function.ObName.{ObName};
ghost use Rattle.fn_rules.specs.Functions.{Function};
ghost use Rattle.fn_rules.specs.Validity.{is_valid};
ghost use Rattle.ask_core.specs.Leading.{LeadTo};
ghost use Rattle.ask_core.specs.Questions.{FailingEnd, QuestionList, Questions};
ghost use Rattle.ot_questions.specs.declared.why.Why.{Why};
ghost use Rattle.ot_questions.specs.Names.{length_name};
ghost use Rattle.ot_questions.specs.Obligation.{plan_of};
ghost use Rattle.ot_values.specs.Values.{floors_of};

use ot_questions::plans_compare_like_with_like;

/// The least values that meet the answers on the way to any failing end of a valid function's obligation give the
/// document at most 1,000 cells.
pub fn first_documents_have_at_most_1000_cells()
    ensures ends { (f : Function) (ob : ObName) (why : Why) (w : List Lit) (values : List ℤ) → IsTrue (is_valid f)
        → LeadTo why (plan_of f ob) w → AreLeast w (floors_of ob) values → valuation_of values length_name ≤ℤ pos 1000 }

    // The failing end of a question list is one of them.
    ensures lists { (f : Function) (ob : ObName) (q : Questions Why) (end : FailingEnd Why) (values : List ℤ)
        → IsTrue (is_valid f)
        → QuestionList (plan_of f ob) [] q → q.failing ≡ Some end → AreLeast end.answers (floors_of ob) values
        → valuation_of values length_name ≤ℤ pos 1000 }
{
    plans_compare_like_with_like();
}
