//! One token of a proof at the first open place.
ghost use Rattle.std.specs.Prelude.{◌≡◌, ◌⊎◌, ◌<◌, ◌≤◌, length, Ok, Err, OnOk, OnErr, IfErr};
ghost use Rattle.std.specs.Prelude.{IfSome};
ghost use Rattle.diff_graph.specs.declared.lit.PickError.{PickError};
ghost use Rattle.diff_graph.specs.Cycles.{pick_verdict};
ghost use Rattle.ask_core.specs.declared.picks.TheConstants.{MAX_PICKS};
ghost use Rattle.cert_check.specs.Steps.{end_of_cycle};
ghost use Rattle.proof_trees.specs.declared.token.ProofTok.TheVariants as token;
ghost use Rattle.proof_trees.specs.Starters.{KeepsStarts};
ghost use Rattle.proof_trees.specs.Tokens.{HasFew};
ghost use Rattle.proof_check.specs.declared.verdict.ProofError.TheVariants as error;
ghost use Rattle.open_places.specs.Places.{AreOwnPlaces, AreSettledPlaces, closed, first_list};
ghost use Rattle.proof_check.specs.Steps.{IsTaken};
ghost use Rattle.proof_check.specs.Questions.{IsAskedHere};
ghost use Rattle.proof_check.specs.Judging.{IsProofCauseOf, IsWantOfMemory, standing_over};

use crate::verdict::ProofError;
use ask_core::{Picks, Turn};
use cert_check::{CheckError, Question};
use diff_graph::is_negative_cycle;
use open_places::Places;
use proof_trees::{Literals, MAX_LEMMAS, ProofTok, Starter};
use std::alloc::Global;

// Takes a cycle: it closes the first place where it is a negative cycle of the list there.
fn take_cycle<N: Copy>(places: &mut Places<N>, picks: &Picks) -> Result<(), ProofError>
    requires { 0 < length places.old.wanted }
    ensures few { length picks.now ≤ MAX_PICKS }
    ensures settled { AreSettledPlaces places.old.wanted }
    ensures closed { OnOk result (places.new ≡ closed places.old) }
    ensures ok { OnOk result (pick_verdict (first_list places.old.wanted) picks.now ≡ Ok tt) }
    ensures kept { OnErr result (places.new ≡ places.old) }
    ensures why { IfErr result (λ e. IsWantOfMemory e
        ⊎ ((p : PickError) × (pick_verdict (first_list places.old.wanted) picks.now ≡ Err p)
        × (e ≡ error.Tree (end_of_cycle p)))) }
{
    is_negative_cycle(places.list(), picks.as_slice())?;
    places.close()?;
    Ok(())
}

// Takes `.`: it closes the first place where the plan holds there.
fn take_end<A: Starter>(asker: &mut A, places: &mut Places<A::Node>) -> Result<(), ProofError>
    requires open { 0 < length places.old.wanted }
    requires own { AreOwnPlaces (A.is_own asker.old) places.old }
    ensures ok { OnOk result (IsTaken (A.starts asker.old).compare token.Holds
        (standing_over (A.starts asker.old) places.old) (standing_over (A.starts asker.new) places.new)) }
    ensures own { OnOk result (AreOwnPlaces (A.is_own asker.new) places.new) }
    ensures why { IfErr result (λ e. IsProofCauseOf (A.starts asker.old).compare e token.Holds
        (standing_over (A.starts asker.old) places.old)) }
    ensures kept { OnErr result (places.new ≡ places.old) }
    ensures same { KeepsStarts (A.is_own asker.old) (A.is_own asker.new) (A.starts asker.old) (A.starts asker.new) }
{
    let Some(node) = places.node() else {
        return Err(ProofError::Tree(CheckError::GoalFails));
    };
    match asker.follow(node)? {
        Turn::Ask { .. } => Err(ProofError::Tree(CheckError::NotDone)),
        Turn::Holds => {
            places.close()?;
            Ok(())
        }
        Turn::Fails(_) => Err(ProofError::Tree(CheckError::GoalFails)),
    }
}

// Takes `?`: the first place becomes its part for yes, and then comes its part for no.
fn take_question<A: Starter>(asker: &mut A, places: &mut Places<A::Node>) -> Result<(), ProofError>
    requires open { 0 < length places.old.wanted }
    requires own { AreOwnPlaces (A.is_own asker.old) places.old }
    ensures ok { OnOk result (IsTaken (A.starts asker.old).compare token.Ask
        (standing_over (A.starts asker.old) places.old) (standing_over (A.starts asker.new) places.new)) }
    ensures own { OnOk result (AreOwnPlaces (A.is_own asker.new) places.new) }
    ensures why { IfErr result (λ e. IsProofCauseOf (A.starts asker.old).compare e token.Ask
        (standing_over (A.starts asker.old) places.old)) }
    ensures kept { OnErr result (places.new ≡ places.old) }
    ensures same { KeepsStarts (A.is_own asker.old) (A.is_own asker.new) (A.starts asker.old) (A.starts asker.new) }
{
    let Some(node) = places.node() else {
        return Err(ProofError::Tree(CheckError::NotAQuestion));
    };
    match asker.follow(node)? {
        Turn::Ask { lit, yes, no } => {
            places.ask(lit, yes, no)?;
            Ok(())
        }
        Turn::Holds => Err(ProofError::Tree(CheckError::NotAQuestion)),
        Turn::Fails(_) => Err(ProofError::Tree(CheckError::NotAQuestion)),
    }
}

/// The question at the first place, where a tree is wanted there whose plan begins with one, and there is memory.
#[inline(always)]
pub(crate) fn question_at<A: Starter>(
    asker: &mut A,
    places: &Places<A::Node>,
) -> Option<Question<A::Node>>
    requires { AreOwnPlaces (A.is_own asker.old) places.now }
    ensures asked { IfSome result (λ q. IsAskedHere (A.is_own asker.new) (A.starts asker.new).marked q places.now) }
    ensures same { KeepsStarts (A.is_own asker.old) (A.is_own asker.new) (A.starts asker.old) (A.starts asker.new) }
{
    let node = places.node()?;
    match asker.follow(node) {
        Ok(Turn::Ask { lit, yes, no }) => Some(Question { lit, yes, no }),
        _ => None,
    }
}

// Takes `l`: at a start the lemma's own tree is wanted, and then the place goes on.
fn take_lemma<A: Starter>(
    asker: &A,
    places: &mut Places<A::Node>,
    literals: &Literals,
) -> Result<(), ProofError>
    requires open { 0 < length places.old.wanted }
    requires own { AreOwnPlaces (A.is_own asker.now) places.old }
    ensures few { OnOk result (HasFew (token.Lemma literals.now)) }
    ensures ok { OnOk result (IsTaken (A.starts asker.now).compare (token.Lemma literals.now)
        (standing_over (A.starts asker.now) places.old) (standing_over (A.starts asker.now) places.new)) }
    ensures own { OnOk result (AreOwnPlaces (A.is_own asker.now) places.new) }
    ensures why { IfErr result (λ e. IsProofCauseOf (A.starts asker.now).compare e (token.Lemma literals.now)
        (standing_over (A.starts asker.now) places.old)) }
    ensures kept { OnErr result (places.new ≡ places.old) }
{
    let Some(node) = places.node() else {
        return Err(ProofError::NoStart);
    };
    if !asker.begins(node) {
        return Err(ProofError::NoStart);
    }
    if places.known() >= MAX_LEMMAS {
        return Err(ProofError::TooManyLemmas);
    }
    places.begin(node, literals)?;
    Ok(())
}

// Takes `c`: at a start that compares with that of the lemma, a cycle is wanted for each literal and condition.
fn take_citation<A: Starter>(
    alloc: Global,
    asker: &mut A,
    places: &mut Places<A::Node>,
    number: u32,
) -> Result<(), ProofError>
    requires open { 0 < length places.old.wanted }
    requires own { AreOwnPlaces (A.is_own asker.old) places.old }
    ensures ok { OnOk result (IsTaken (A.starts asker.old).compare (token.Cite number)
        (standing_over (A.starts asker.old) places.old) (standing_over (A.starts asker.new) places.new)) }
    ensures own { OnOk result (AreOwnPlaces (A.is_own asker.new) places.new) }
    ensures why { IfErr result (λ e. IsProofCauseOf (A.starts asker.old).compare e (token.Cite number)
        (standing_over (A.starts asker.old) places.old)) }
    ensures kept { OnErr result (places.new ≡ places.old) }
    ensures same { KeepsStarts (A.is_own asker.old) (A.is_own asker.new) (A.starts asker.old) (A.starts asker.new) }
{
    let Some(here) = places.node() else {
        return Err(ProofError::NoStart);
    };
    if !asker.begins(here) {
        return Err(ProofError::NoStart);
    }
    let Some(lemma) = places.lemma(number) else {
        return Err(ProofError::UnknownLemma);
    };
    let Some(conditions) = asker.compare(alloc, lemma, here)? else {
        return Err(ProofError::OtherStart);
    };
    places.cite(number, &conditions)?;
    Ok(())
}

/// Takes any token at the first place, or says why it is refused there. A refusal leaves the places as they were.
pub(crate) fn take_token<A: Starter>(
    alloc: Global,
    asker: &mut A,
    places: &mut Places<A::Node>,
    tok: &ProofTok,
) -> Result<(), ProofError>
    requires open { 0 < length places.old.wanted }
    requires own { AreOwnPlaces (A.is_own asker.old) places.old }
    ensures ok { OnOk result (IsTaken (A.starts asker.old).compare tok.now
        (standing_over (A.starts asker.old) places.old) (standing_over (A.starts asker.new) places.new)) }
    ensures few { OnOk result (HasFew tok.now) }
    ensures own { OnOk result (AreOwnPlaces (A.is_own asker.new) places.new) }
    ensures why { IfErr result (λ e. IsProofCauseOf (A.starts asker.old).compare e tok.now
        (standing_over (A.starts asker.old) places.old)) }
    ensures kept { OnErr result (places.new ≡ places.old) }
    ensures same { KeepsStarts (A.is_own asker.old) (A.is_own asker.new) (A.starts asker.old) (A.starts asker.new) }
    ensures standing { standing_over (A.starts asker.new) places.old ≡ standing_over (A.starts asker.old) places.old }
    ensures root { A.root asker.new ≡ A.root asker.old }
{
    match tok {
        ProofTok::Ask => take_question(asker, places),
        ProofTok::Holds => take_end(asker, places),
        ProofTok::Cycle(picks) => take_cycle(places, picks),
        ProofTok::Lemma(literals) => take_lemma(asker, places, literals),
        ProofTok::Cite(number) => take_citation(alloc, asker, places, *number),
    }
}
