//! What the changes of open places stand for. A law is a clause and no code: a caller whose proof needs it calls it.
ghost use Rattle.std.specs.Prelude.{◌≡◌, ℕ, ◌<◌, List, ◌++◌, length, drop, Option, Some, None, Ok, slice_get};
ghost use Rattle.diff_graph.specs.declared.lit.Lit.{Lit};
ghost use Rattle.diff_graph.specs.Cycles.{pick_verdict};
ghost use Rattle.proof_trees.specs.declared.limits.TheConstants.{MAX_LEMMAS};
ghost use Rattle.proof_trees.specs.declared.token.ProofTok.{ProofTok};
ghost use Rattle.proof_trees.specs.declared.token.ProofTok.TheVariants as token;
ghost use Rattle.proof_trees.specs.Starts.{MarkedPlan, Ask, Holds, start_of, Comparison, conditions_between};
ghost use Rattle.open_places.specs.declared.places.Known.{Known};
ghost use Rattle.open_places.specs.Places.{OpenProof, AreSettledPlaces, first_node, first_list, asked, closed, begun};
ghost use Rattle.open_places.specs.Places.{cited};
ghost use Rattle.proof_check.specs.Standings.{standing_of};
ghost use Rattle.proof_check.specs.Steps.{IsTaken, after_proof_token, after_at_cycle, after_at_tree};

/// A law and no code, for any nodes with their plans: what the changes of open places do is what the tokens do. A
/// question is asked where the plan asks; an end closes a place where the plan holds; a lemma is begun and a known
/// one cited where a start is, and where the starts compare.
pub fn places_change_as_tokens_say<N: Copy, S, W: Copy>()
    ensures question { (compare : Comparison S) (marked : N → MarkedPlan S W) (p : OpenProof N) (n on_yes on_no : N)
        (l : Lit) (start : Option S)
        → first_node p.wanted ≡ Some n → marked n ≡ Ask start l (marked on_yes) (marked on_no)
        → IsTaken compare token.Ask (standing_of marked p) (standing_of marked (asked l on_yes on_no p)) }
    ensures end { (compare : Comparison S) (marked : N → MarkedPlan S W) (p : OpenProof N) (n : N) (start : Option S)
        → first_node p.wanted ≡ Some n → marked n ≡ Holds start
        → IsTaken compare token.Holds (standing_of marked p) (standing_of marked (closed p)) }
    ensures cycle { (compare : Comparison S) (marked : N → MarkedPlan S W) (p : OpenProof N) (picks : List ℕ)
        → AreSettledPlaces p.wanted → 0 < length p.wanted → pick_verdict (first_list p.wanted) picks ≡ Ok tt
        → IsTaken compare (token.Cycle picks) (standing_of marked p) (standing_of marked (closed p)) }
    ensures lemma { (compare : Comparison S) (marked : N → MarkedPlan S W) (p : OpenProof N) (n : N) (s : S)
        (ls : List Lit)
        → first_node p.wanted ≡ Some n → start_of (marked n) ≡ Some s → length p.known < MAX_LEMMAS
        → IsTaken compare (token.Lemma ls) (standing_of marked p) (standing_of marked (begun n ls p)) }
    ensures citation { (compare : Comparison S) (marked : N → MarkedPlan S W) (p : OpenProof N) (n : N) (s : S)
        (number : ℕ)
        (k : Known N) (es : List Lit)
        → first_node p.wanted ≡ Some n → start_of (marked n) ≡ Some s → slice_get p.known number ≡ Some k
        → conditions_between compare (start_of (marked k.node)) (start_of (marked n)) ≡ Some es
        → IsTaken compare (token.Cite number) (standing_of marked p) (standing_of marked (cited (k.literals ++ es) p)) }
{}

/// A law and no code: what a token makes of open places, or why it is refused there, is told by the first place alone.
/// Where a tree is wanted it is told by the plan of the node, and else by the list of which a cycle is wanted.
pub fn first_places_take_tokens<N: Copy, S, W: Copy>()
    ensures tree { (compare : Comparison S) (marked : N → MarkedPlan S W) (p : OpenProof N) (tok : ProofTok) (n : N)
        → first_node p.wanted ≡ Some n
        → after_proof_token compare tok (standing_of marked p).known (standing_of marked p).wanted
        ≡ after_at_tree compare tok (standing_of marked p).known (marked n) (first_list p.wanted)
        (drop 1 (standing_of marked p).wanted) }
    ensures cycle { (compare : Comparison S) (marked : N → MarkedPlan S W) (p : OpenProof N) (tok : ProofTok)
        → AreSettledPlaces p.wanted → 0 < length p.wanted → first_node p.wanted ≡ None
        → after_proof_token compare tok (standing_of marked p).known (standing_of marked p).wanted
        ≡ after_at_cycle tok (standing_of marked p).known (first_list p.wanted) (drop 1 (standing_of marked p).wanted) }
{}
