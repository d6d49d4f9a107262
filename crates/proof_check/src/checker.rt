//! The judge of proofs over any asker with starts.
ghost use Rattle.std.specs.Prelude.{◌≡◌, ℕ, ℤ, ◌<◌, ◌≤◌, true, false, List, [], ◌∷◌, ◌++◌, length, Some, None, Ok};
ghost use Rattle.std.specs.Prelude.{IfOk, IfErr, IfSome, OnErr, IsTrue};
ghost use Rattle.diff_graph.specs.Cycles.{pick_verdict};
ghost use Rattle.ask_core.specs.declared.picks.TheConstants.{MAX_PICKS};
ghost use Rattle.ask_core.specs.Plans.{value};
ghost use Rattle.cert_check.specs.declared.verdict.Progress.{Progress};
ghost use Rattle.cert_check.specs.declared.verdict.Progress.TheVariants as progress;
ghost use Rattle.proof_trees.specs.declared.token.ProofTok.TheVariants as token;
ghost use Rattle.proof_trees.specs.Tokens.{Tree};
ghost use Rattle.proof_check.specs.declared.verdict.ProofError.{ProofError};
ghost use Rattle.open_places.specs.Places.{AreSettledPlaces, first_list};
ghost use Rattle.proof_check.specs.Questions.{IsAskedHere, SkipsTo};
ghost use Rattle.proof_check.specs.Steps.{IsTaken};
ghost use Rattle.proof_check.specs.Judging.{IsProofStep, BeginsNothingWanted, IsProofCauseOf, IsWantOfMemory};
ghost use Rattle.proof_check.specs.Judging.{standing_at};

use crate::token::{question_at, take_token};
use crate::verdict::ProofError;
use ask_core::NoMemory;
use cert_check::{Progress, Question};
use diff_graph::Lit;
use open_places::Places;
use proof_trees::{ProofTok, Starter, shown_plans_hold};
use std::alloc::Global;
use std::marker::Model;

/// A judge of the tokens of one proof tree. It keeps the open places and the lemmas that are known, and gives up what
/// it has closed. It is seen as its asker, the open places and its refusal, if any.
#[derive(Drop)]
pub struct ProofChecker<A: Starter> {
    alloc: Global,
    asker: A,
    places: Places<A::Node>,
    refusal: Option<ProofError>,
}

impl<A: Starter> Model for ProofChecker<A> {
    ghost use Rattle.proof_check.specs.Judging.{ProofJudging, IsUnderWayUnless};

    ghost Value = { ProofJudging A A.Node };

    ghost view = { λ c. record { asker = c.asker; places = c.places; refusal = c.refusal } };

    ghost invariant = { λ c. IsUnderWayUnless c.refusal (A.is_own c.asker) (A.starts c.asker) c.places };
}

impl<A: Starter> ProofChecker<A> {
    /// A judge of a tree of the asker's plan, under no literals and with no lemmas.
    pub fn new(alloc: Global, asker: A) -> Result<ProofChecker<A>, NoMemory>
        ensures standing { IfOk result (λ c. standing_at A.starts c
            ≡ record { known = []; wanted = Tree (A.starts asker).root [] ∷ [] }) }
        ensures open { IfOk result (λ c. 0 < length c.places.wanted) }
        ensures root { IfOk result (λ c. A.root c.asker ≡ A.root asker) }
        ensures compare { IfOk result (λ c. (A.starts c.asker).compare ≡ (A.starts asker).compare) }
        ensures marked { IfOk result (λ c. (A.starts c.asker).root ≡ (A.starts asker).root) }
        ensures refusal { IfOk result (λ c. c.refusal ≡ None) }
    {
        shown_plans_hold::<A::Start, A::Why>();
        let mut asker = asker;
        let first = asker.first()?;
        Ok(ProofChecker {
            alloc,
            asker,
            places: Places::new(alloc, first),
            refusal: None,
        })
    }

    /// Takes the next token of the tree, at the first open place. A refused token leaves the places as they were,
    /// also where memory was wanting, and every later one is answered by the same refusal.
    pub fn judge(&mut self, tok: &ProofTok) -> Result<Progress, ProofError>
        requires { 0 < length self.old.places.wanted }

        // What a token that is taken leaves, and that the last one shows what the tree is for.
        ensures step { IfOk result (λ p. IsTaken (A.starts self.old.asker).compare tok.now
            (standing_at A.starts self.old) (standing_at A.starts self.new)) }
        ensures completes { IfOk result (λ p. IsProofStep (A.starts self.old.asker).compare p tok.now
            (standing_at A.starts self.old) (standing_at A.starts self.new)) }
        ensures done { result ≡ Ok progress.Done → (v : ℕ → ℤ) → value (A.root self.old.asker) v ≡ true }
        ensures open { result ≡ Ok progress.More → 0 < length self.new.places.wanted }
        ensures closed { result ≡ Ok progress.Done → self.new.places.wanted ≡ [] }
        ensures none_before { IfOk result (λ p. (self.old.refusal ≡ None) × (self.new.refusal ≡ None)) }

        // When each refusal comes, and that it stays.
        ensures why { self.old.refusal ≡ None
            → IfErr result (λ e. IsProofCauseOf (A.starts self.old.asker).compare e tok.now
            (standing_at A.starts self.old)) }
        ensures refused { self.old.refusal ≡ None → IfErr result (λ e. ¬ IsWantOfMemory e
            → BeginsNothingWanted (A.starts self.old.asker).compare tok.now (standing_at A.starts self.old)) }
        ensures stays { IfErr result (λ e. self.new.refusal ≡ Some e) }
        ensures again { (e : ProofError) → self.old.refusal ≡ Some e → result ≡ Err e }
        ensures err { OnErr result (self.new.places ≡ self.old.places) }
        ensures err_open { OnErr result (standing_at A.starts self.new ≡ standing_at A.starts self.old) }

        // What the tree is for, and how starts compare, is never changed.
        ensures root { A.root self.new.asker ≡ A.root self.old.asker }
        ensures compare { (A.starts self.new.asker).compare ≡ (A.starts self.old.asker).compare }
        ensures marked { (A.starts self.new.asker).root ≡ (A.starts self.old.asker).root }
    {
        if let Some(refusal) = self.refusal {
            return Err(refusal);
        }
        match take_token(self.alloc, &mut self.asker, &mut self.places, tok) {
            Ok(()) if self.places.is_open() => Ok(Progress::More),
            Ok(()) => Ok(Progress::Done),
            Err(refusal) => {
                self.refusal = Some(refusal);
                Err(refusal)
            }
        }
    }
    /// The literals of the first open place.
    #[inline(always)]
    pub fn literals(&self) -> &[Lit]
        requires { 0 < length self.now.places.wanted }
        ensures value { result.now ≡ first_list self.now.places.wanted }
        ensures settled { AreSettledPlaces self.now.places.wanted }
    {
        self.places.list()
    }

    /// The question at the first open place, where a tree is wanted there whose plan begins with one, and there is
    /// memory.
    #[inline(always)]
    pub fn question(&mut self) -> Option<Question<A::Node>>
        requires { self.old.refusal ≡ None }
        ensures asked { IfSome result (λ q. IsAskedHere (A.is_own self.new.asker) (A.starts self.new.asker).marked q
            self.new.places) }
        ensures places { self.new.places ≡ self.old.places }
        ensures same { standing_at A.starts self.new ≡ standing_at A.starts self.old }
        ensures fresh { self.new.refusal ≡ None }
        ensures compare { (A.starts self.new.asker).compare ≡ (A.starts self.old.asker).compare }
    {
        question_at(&mut self.asker, &self.places)
    }

    /// Takes `?` at the question where there is memory: whether it did. Otherwise all is as it was.
    #[inline(always)]
    pub fn ask(&mut self, question: Question<A::Node>) -> bool
        requires fresh { self.old.refusal ≡ None }
        requires asked { IsAskedHere (A.is_own self.old.asker) (A.starts self.old.asker).marked question
            self.old.places }
        ensures taken { IsTrue result → IsTaken (A.starts self.old.asker).compare token.Ask
            (standing_at A.starts self.old) (standing_at A.starts self.new) }
        ensures open { 0 < length self.new.places.wanted }
        ensures not_taken { result ≡ false → self.new.places ≡ self.old.places }
        ensures asker { self.new.asker ≡ self.old.asker }
        ensures fresh { self.new.refusal ≡ None }
    {
        match self.places.ask(question.lit, question.yes, question.no) {
            Ok(()) => true,
            Err(_) => false,
        }
    }

    /// Takes `?` at the question, and then a cycle that some picks are known to name among the literals of the place
    /// and the one that is asked, where there is memory: whether it did. Otherwise all is as it was.
    #[inline(always)]
    pub fn skip(&mut self, question: Question<A::Node>) -> bool
        requires fresh { self.old.refusal ≡ None }
        requires asked { IsAskedHere (A.is_own self.old.asker) (A.starts self.old.asker).marked question
            self.old.places }
        requires cycle { (picks : List ℕ) × (length picks ≤ MAX_PICKS)
            × (pick_verdict (first_list self.old.places.wanted ++ question.lit ∷ []) picks ≡ Ok tt) }
        ensures taken { IsTrue result → (picks : List ℕ)
            → pick_verdict (first_list self.old.places.wanted ++ question.lit ∷ []) picks ≡ Ok tt
            → SkipsTo (A.starts self.old.asker).compare picks (standing_at A.starts self.old)
            (standing_at A.starts self.new) }
        ensures open { 0 < length self.new.places.wanted }
        ensures not_taken { result ≡ false → self.new.places ≡ self.old.places }
        ensures asker { self.new.asker ≡ self.old.asker }
        ensures fresh { self.new.refusal ≡ None }
    {
        match self.places.ask_no(question.lit, question.no) {
            Ok(()) => true,
            Err(_) => false,
        }
    }

    /// Takes a cycle that some picks are known to name among the literals of the first open place, where there is
    /// memory. Otherwise all is as it was.
    #[inline(always)]
    pub fn close(&mut self) -> Option<Progress>
        requires fresh { self.old.refusal ≡ None }
        requires open { 0 < length self.old.places.wanted }
        requires settled { AreSettledPlaces self.old.places.wanted }
        requires cycle { (picks : List ℕ) × (length picks ≤ MAX_PICKS)
            × (pick_verdict (first_list self.old.places.wanted) picks ≡ Ok tt) }
        ensures taken { (p : Progress) (picks : List ℕ) → result ≡ Some p
            → pick_verdict (first_list self.old.places.wanted) picks ≡ Ok tt
            → IsTaken (A.starts self.old.asker).compare (token.Cycle picks) (standing_at A.starts self.old)
            (standing_at A.starts self.new) }
        ensures open { result ≡ Some progress.More → 0 < length self.new.places.wanted }
        ensures closed { result ≡ Some progress.Done → self.new.places.wanted ≡ [] }
        ensures not_taken { result ≡ None → self.new.places ≡ self.old.places }
        ensures asker { self.new.asker ≡ self.old.asker }
        ensures fresh { self.new.refusal ≡ None }
    {
        match self.places.close() {
            Ok(()) if self.places.is_open() => Some(Progress::More),
            Ok(()) => Some(Progress::Done),
            Err(_) => None,
        }
    }
}
