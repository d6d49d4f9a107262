//! What a proof tree shows. A law is a clause and no code: a caller whose proof needs it calls it.
ghost use Rattle.std.specs.Prelude.{◌≡◌, List, []};
ghost use Rattle.diff_graph.specs.declared.lit.Lit.{Lit};
ghost use Rattle.ask_core.specs.Plans.{Plan};
ghost use Rattle.proof_trees.specs.Starts.{MarkedPlan, unmarked, Comparison, IsMarkedBy, IsLawful};
ghost use Rattle.proof_trees.specs.Proofs.{ProofTree, Learned, learned, Shows};
ghost use Rattle.proof_trees.specs.Truth.{HoldsUnder, AreTrue};

use ask_core::valuations_answer_questions;
use diff_graph::negative_cycles_are_never_met;

/// A law and no code, of any lawful comparison: where a proof tree shows a plan after literals, and the
/// lemmas that were known are true, each valuation that meets the literals leads through the plan to
/// `Holds`, and all lemmas that are known afterwards are true. Nothing is asked of the literals of a lemma.
pub fn shown_plans_hold<S, W: Copy>()
    ensures whole { (compare : Comparison S) (meaning : S → Plan W) (t : ProofTree) (p : MarkedPlan S W)
        → IsLawful compare meaning → IsMarkedBy meaning p → Shows compare t p [] [] → HoldsUnder [] (unmarked p) }

    // The same at any place of a plan, whatever is known there.
    ensures from_a_place { (compare : Comparison S) (meaning : S → Plan W) (t : ProofTree) (p : MarkedPlan S W)
        (w : List Lit) (known : List (Learned S W))
        → IsLawful compare meaning → IsMarkedBy meaning p → AreTrue meaning known → Shows compare t p w known
        → HoldsUnder w (unmarked p) }
    ensures lemmas { (compare : Comparison S) (meaning : S → Plan W) (t : ProofTree) (p : MarkedPlan S W)
        (w : List Lit) (known : List (Learned S W))
        → IsLawful compare meaning → IsMarkedBy meaning p → AreTrue meaning known → Shows compare t p w known
        → AreTrue meaning (learned t p known) }
{
    negative_cycles_are_never_met();
    valuations_answer_questions();
}
