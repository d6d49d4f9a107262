//! Trees of certificates as proof trees.
ghost use Rattle.std.specs.Prelude.{◌≡◌, ◌↔◌, List};
ghost use Rattle.diff_graph.specs.declared.lit.Lit.{Lit};
ghost use Rattle.ask_core.specs.Trees.{AnswerTree, Fits};
ghost use Rattle.proof_trees.specs.Starts.{MarkedPlan, unmarked, Comparison};
ghost use Rattle.proof_trees.specs.Proofs.{ProofTree, Learned, proof_of, HasNoLemmas, learned, Shows};

/// A law and no code: the proof trees without lemmas and citations are the trees of certificates. Such a
/// tree shows a plan exactly where it fits the plan without its starts, whatever the comparison and the
/// lemmas that are known, and teaches none.
pub fn certificates_are_proofs<S: Copy, W: Copy>()
    ensures shows { (compare : Comparison S) (t : AnswerTree) (p : MarkedPlan S W) (w : List Lit)
        (known : List (Learned S W))
        → (Shows compare (proof_of t) p w known ↔ Fits t (unmarked p) w) }
    ensures teaches { (t : AnswerTree) (p : MarkedPlan S W) (known : List (Learned S W))
        → learned (proof_of t) p known ≡ known }
    ensures all { (t : ProofTree) → HasNoLemmas t → (u : AnswerTree) × (t ≡ proof_of u) }
    ensures none { (t : AnswerTree) → HasNoLemmas (proof_of t) }
{}
