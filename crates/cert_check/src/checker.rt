//! The checker of trees over any asker.
ghost use Rattle.std.specs.Prelude.{◌≡◌, ◌≢◌, ◌↔◌, ℕ, ℤ, ◌<◌, ◌≤◌, true, false, List, [], ◌∷◌, ◌++◌, length, Some};
ghost use Rattle.std.specs.Prelude.{None, Ok, Err, OnErr, IfOk, IfErr, IfSome, IsTrue};
ghost use Rattle.diff_graph.specs.Cycles.{pick_verdict};
ghost use Rattle.ask_core.specs.declared.asker.TheConstants.{MAX_NAMES};
ghost use Rattle.ask_core.specs.declared.picks.TheConstants.{MAX_PICKS};
ghost use Rattle.ask_core.specs.declared.tree.Tok.TheVariants as token;
ghost use Rattle.ask_core.specs.Paths.{first_answers};
ghost use Rattle.ask_core.specs.Plans.{value};
ghost use Rattle.cert_check.specs.declared.verdict.CheckError.TheVariants as end;
ghost use Rattle.cert_check.specs.declared.verdict.Progress.TheVariants as progress;
ghost use Rattle.cert_check.specs.Steps.{after};
ghost use Rattle.cert_check.specs.Judging.{open_branches, IsCheckStep, BeginsNothing, IsCauseOf};
ghost use Rattle.cert_check.specs.Questions.{IsAskedFirst, SkipsTo};

use crate::question::Question;
use crate::token::take_token;
use crate::verdict::{CheckError, Progress};
use ask_core::{
    Asker, NoMemory, Path, Tok, Turn, fitting_trees_hold, trees_are_judged_token_by_token, turn_at,
};
use diff_graph::Lit;
use std::alloc::Global;
use std::marker::Model;

/// A judge of the tokens of one tree. It keeps the answers of the open path and the open places, and
/// gives up what it has closed. It is seen as its asker, the open places and its refusal, if any.
#[derive(Drop)]
pub struct Checker<A: Asker> {
    asker: A,
    path: Path<A::Node>,
    refusal: Option<CheckError>,
}

impl<A: Asker> Model for Checker<A> {
    ghost use Rattle.cert_check.specs.Judging.{Judging, IsUnderWay};

    ghost Value = { Judging A A.Node };

    ghost view = { λ c. record { asker = c.asker; places = c.path; refusal = c.refusal } };

    ghost invariant = { λ c. IsUnderWay (A.is_own c.asker) (A.plan c.asker) (A.root c.asker) c.path };
}

impl<A: Asker> Checker<A> {
    /// A checker with one open branch: the asker's plan after no answers.
    pub fn new(alloc: Global, asker: A) -> Result<Checker<A>, NoMemory>
        requires { A.name_count asker ≤ MAX_NAMES }
        ensures branches { IfOk result (λ c. open_branches A.plan c ≡ record { plan = A.root asker; answers = [] }
            ∷ []) }
        ensures root { IfOk result (λ c. A.root c.asker ≡ A.root asker) }
        ensures refusal { IfOk result (λ c. c.refusal ≡ None) }
    {
        fitting_trees_hold::<A::Why>();
        let mut asker = asker;
        let first = asker.start()?;
        Ok(Checker {
            asker,
            path: Path::new(alloc, first),
            refusal: None,
        })
    }

    /// Takes the next token of the tree, at the first open place. A refused token leaves the places as
    /// they were, and every later one is answered by the same refusal.
    pub fn feed(&mut self, tok: Tok) -> Result<Progress, CheckError>
        requires { 0 < length self.old.places }

        // What a token that is taken leaves, and that the last one shows what the tree is for.
        ensures step { IfOk result (λ p. after tok (open_branches A.plan self.old)
            ≡ Ok (open_branches A.plan self.new)) }
        ensures completes { IfOk result (λ p. IsCheckStep p tok (open_branches A.plan self.old)
            (open_branches A.plan self.new)) }
        ensures done { result ≡ Ok progress.Done → (v : ℕ → ℤ) → value (A.root self.old.asker) v ≡ true }
        ensures open { result ≡ Ok progress.More → 0 < length self.new.places }
        ensures closed { result ≡ Ok progress.Done → self.new.places ≡ [] }
        ensures none_before { IfOk result (λ p. (self.old.refusal ≡ None) × (self.new.refusal ≡ None)) }

        // When each refusal comes, and that it stays.
        ensures why { self.old.refusal ≡ None → IfErr result (λ e. IsCauseOf e tok (open_branches A.plan self.old)) }
        ensures refused { self.old.refusal ≡ None
            → IfErr result (λ e. e ≢ end.NoMemory → BeginsNothing tok (open_branches A.plan self.old)) }
        ensures stays { IfErr result (λ e. self.new.refusal ≡ Some e) }
        ensures again { (e : CheckError) → self.old.refusal ≡ Some e → result ≡ Err e }
        ensures err { OnErr result (self.new.places ≡ self.old.places) }
        ensures err_open { OnErr result (open_branches A.plan self.new ≡ open_branches A.plan self.old) }
        ensures root { A.root self.new.asker ≡ A.root self.old.asker }
    {
        self.judge(&tok)
    }

    /// The same of a token that the caller keeps.
    #[inline(always)]
    pub fn judge(&mut self, tok: &Tok) -> Result<Progress, CheckError>
        requires { 0 < length self.old.places }

        // What a token that is taken leaves, and that the last one shows what the tree is for.
        ensures step { IfOk result (λ p. after tok.now (open_branches A.plan self.old)
            ≡ Ok (open_branches A.plan self.new)) }
        ensures completes { IfOk result (λ p. IsCheckStep p tok.now (open_branches A.plan self.old)
            (open_branches A.plan self.new)) }
        ensures done { result ≡ Ok progress.Done → (v : ℕ → ℤ) → value (A.root self.old.asker) v ≡ true }
        ensures open { result ≡ Ok progress.More → 0 < length self.new.places }
        ensures closed { result ≡ Ok progress.Done → self.new.places ≡ [] }
        ensures none_before { IfOk result (λ p. (self.old.refusal ≡ None) × (self.new.refusal ≡ None)) }

        // When each refusal comes, and that it stays.
        ensures why { self.old.refusal ≡ None → IfErr result
            (λ e. IsCauseOf e tok.now (open_branches A.plan self.old)) }
        ensures refused { self.old.refusal ≡ None
            → IfErr result (λ e. e ≢ end.NoMemory → BeginsNothing tok.now (open_branches A.plan self.old)) }
        ensures stays { IfErr result (λ e. self.new.refusal ≡ Some e) }
        ensures again { (e : CheckError) → self.old.refusal ≡ Some e → result ≡ Err e }
        ensures err { OnErr result (self.new.places ≡ self.old.places) }
        ensures err_open { OnErr result (open_branches A.plan self.new ≡ open_branches A.plan self.old) }
        ensures root { A.root self.new.asker ≡ A.root self.old.asker }
    {
        if let Some(end) = self.refusal {
            return Err(end);
        }
        trees_are_judged_token_by_token::<A::Why>();
        match take_token(&mut self.asker, &mut self.path, tok) {
            Ok(()) if self.path.is_open() => Ok(Progress::More),
            Ok(()) => Ok(Progress::Done),
            Err(end) => {
                self.refusal = Some(end);
                Err(end)
            }
        }
    }

    /// Whether a place is open.
    #[inline(always)]
    pub fn is_open(&self) -> bool
        ensures { IsTrue result ↔ (0 < length self.now.places) }
    {
        self.path.is_open()
    }

    /// The answers that lead to the first open place.
    #[inline(always)]
    pub fn answers(&self) -> &[Lit]
        requires { 0 < length self.now.places }
        ensures { result.now ≡ first_answers self.now.places }
    {
        self.path.answers()
    }

    /// Takes the next token where it may stand at the first open place and there is memory: whether it did. Otherwise
    /// all is as it was, and `judge` says why. It is for a checker that has not refused.
    #[inline(always)]
    pub fn takes(&mut self, tok: &Tok) -> bool
        requires { 0 < length self.old.places }
        ensures taken { IsTrue result → after tok.now (open_branches A.plan self.old)
            ≡ Ok (open_branches A.plan self.new) }
        ensures not_taken { result ≡ false → self.new.places ≡ self.old.places }
        ensures same { result ≡ false → open_branches A.plan self.new ≡ open_branches A.plan self.old }
        ensures refusal { self.new.refusal ≡ self.old.refusal }
        ensures root { A.root self.new.asker ≡ A.root self.old.asker }
    {
        trees_are_judged_token_by_token::<A::Why>();
        match take_token(&mut self.asker, &mut self.path, tok) {
            Ok(()) => true,
            Err(_) => false,
        }
    }

    /// The question at the first open place, where one stands there and there is memory. It is for a checker that has
    /// not refused.
    #[inline(always)]
    pub fn question(&mut self) -> Option<Question<A::Node>>
        requires { 0 < length self.old.places }
        ensures asked { IfSome result (λ q. IsAskedFirst (A.is_own self.new.asker) (A.plan self.new.asker) q
            self.new.places) }
        ensures places { self.new.places ≡ self.old.places }
        ensures same { open_branches A.plan self.new ≡ open_branches A.plan self.old }
        ensures refusal { self.new.refusal ≡ self.old.refusal }
        ensures root { A.root self.new.asker ≡ A.root self.old.asker }
    {
        match turn_at(&mut self.asker, &self.path) {
            Ok(Turn::Ask { lit, yes, no }) => Some(Question { lit, yes, no }),
            _ => None,
        }
    }

    /// Takes `?` at the question where there is memory: whether it did. Otherwise all is as it was.
    #[inline(always)]
    pub fn ask(&mut self, question: Question<A::Node>) -> bool
        requires { IsAskedFirst (A.is_own self.old.asker) (A.plan self.old.asker) question self.old.places }
        ensures taken { IsTrue result → after token.Ask (open_branches A.plan self.old)
            ≡ Ok (open_branches A.plan self.new) }
        ensures same { result ≡ false → open_branches A.plan self.new ≡ open_branches A.plan self.old }
        ensures refusal { self.new.refusal ≡ self.old.refusal }
        ensures root { A.root self.new.asker ≡ A.root self.old.asker }
    {
        trees_are_judged_token_by_token::<A::Why>();
        match self.path.ask(question.lit, question.yes, question.no) {
            Ok(()) => true,
            Err(_) => false,
        }
    }

    /// Takes `?` at the question, and then a cycle that some picks are known to name among the answers and the literal
    /// that is asked, where there is memory: whether it did. Otherwise all is as it was.
    #[inline(always)]
    pub fn skip(&mut self, question: Question<A::Node>) -> bool
        requires asked { IsAskedFirst (A.is_own self.old.asker) (A.plan self.old.asker) question self.old.places }
        requires cycle { (picks : List ℕ) × (length picks ≤ MAX_PICKS)
            × (pick_verdict (first_answers self.old.places ++ question.lit ∷ []) picks ≡ Ok tt) }
        ensures taken { IsTrue result → (picks : List ℕ)
            → pick_verdict (first_answers self.old.places ++ question.lit ∷ []) picks ≡ Ok tt
            → SkipsTo picks (open_branches A.plan self.old) (open_branches A.plan self.new) }
        ensures same { result ≡ false → open_branches A.plan self.new ≡ open_branches A.plan self.old }
        ensures refusal { self.new.refusal ≡ self.old.refusal }
        ensures root { A.root self.new.asker ≡ A.root self.old.asker }
    {
        trees_are_judged_token_by_token::<A::Why>();
        match self.path.ask_no(question.lit, question.no) {
            Ok(()) => true,
            Err(_) => false,
        }
    }

    /// Takes a cycle that some picks are known to name among the answers of the first open place.
    #[inline(always)]
    pub fn close(&mut self)
        requires open { 0 < length self.old.places }
        requires cycle { (picks : List ℕ) × (length picks ≤ MAX_PICKS)
            × (pick_verdict (first_answers self.old.places) picks ≡ Ok tt) }
        ensures taken { (picks : List ℕ) → pick_verdict (first_answers self.old.places) picks ≡ Ok tt
            → after (token.Cycle picks) (open_branches A.plan self.old) ≡ Ok (open_branches A.plan self.new) }
        ensures refusal { self.new.refusal ≡ self.old.refusal }
        ensures root { A.root self.new.asker ≡ A.root self.old.asker }
    {
        trees_are_judged_token_by_token::<A::Why>();
        self.path.close();
    }
}
