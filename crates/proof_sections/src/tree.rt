//! The tree of an obligation, judged token by token.
ghost use Rattle.std.specs.Prelude.{◌≡◌, ◌<◌, ◌≤◌, ◌∷◌, length, drop, None, IfOk, IfErr, IfSome, IfNone};
ghost use Rattle.cert_check.specs.declared.verdict.Progress.TheVariants as progress;
ghost use Rattle.proof_check.specs.Judging.{standing_at};
ghost use Rattle.proof_sections.specs.declared.refusal.ConfirmError.TheVariants as confirm;
ghost use Rattle.proof_sections.specs.Judgement.{FrontLeadsTo, Judges, TokenLeadsTo, opened_tree, refused_at};
ghost use Rattle.proof_sections.specs.Judgement.{tree_judged, unread_at};

use crate::refusal::{ConfirmError, ProofRefusal};
use ot_sections::cycle_front;
use proof_check::{CheckError, Progress, ProofChecker, ProofError};
use proof_text::{
    Unread, certificate_tokens_are_spelled_alike, read_token, tokens_are_found_exactly,
};
use proof_trees::{ProofTok, Starter};
use std::alloc::Global;

// The refusal of a token at an offset.
fn refusal_at(offset: usize, refusal: ProofError) -> ConfirmError
    ensures { result ≡ refused_at offset refusal }
{
    let why = match refusal {
        ProofError::Tree(CheckError::NotAQuestion) => ProofRefusal::NotAQuestion,
        ProofError::Tree(CheckError::NotDone) => ProofRefusal::NotDone,
        ProofError::Tree(CheckError::GoalFails) => ProofRefusal::GoalFails,
        ProofError::Tree(CheckError::BadPick) => ProofRefusal::BadPick,
        ProofError::Tree(CheckError::NotACycle) => ProofRefusal::NotACycle,
        ProofError::Tree(CheckError::NotNegative) => ProofRefusal::NotNegative,
        ProofError::Tree(CheckError::NoMemory) => return ConfirmError::NoMemory,
        ProofError::NoStart => ProofRefusal::NoStart,
        ProofError::TooManyLemmas => ProofRefusal::TooManyLemmas,
        ProofError::UnknownLemma => ProofRefusal::UnknownLemma,
        ProofError::OtherStart => ProofRefusal::OtherStart,
    };
    ConfirmError::Refused {
        offset: offset as u64,
        why,
    }
}

/// What ends a judgement where no part is read at an offset of so many bytes.
pub fn unread_part(total: usize, offset: usize, unread: Unread) -> ConfirmError
    ensures { result ≡ unread_at total offset unread }
{
    match unread {
        Unread::Misspelt => ConfirmError::Refused {
            offset: offset as u64,
            why: ProofRefusal::Token,
        },
        Unread::Cut => ConfirmError::Refused {
            offset: total as u64,
            why: ProofRefusal::Truncated,
        },
    }
}

// Judges the token at a place: how many bytes stand before what comes after it, and whether the tree goes on.
fn judge_token<A: Starter>(
    alloc: Global,
    checker: &mut ProofChecker<A>,
    bytes: &[u8],
    at: usize,
    tok: &mut ProofTok,
) -> Result<(Progress, usize), ConfirmError>
    requires place { at ≤ length bytes.now }
    requires open { 0 < length checker.old.places.wanted }
    requires fresh { checker.old.refusal ≡ None }
    ensures place { IfOk result (λ r. (at < r.1) × (r.1 ≤ length bytes.now)) }
    ensures leads { IfOk result (λ r. TokenLeadsTo (A.starts checker.old.asker).compare bytes.now r.0
        (standing_at A.starts checker.old) at (standing_at A.starts checker.new) r.1) }
    ensures open { IfOk result (λ r. r.0 ≡ Progress.More → 0 < length checker.new.places.wanted) }
    ensures fresh { IfOk result (λ r. checker.new.refusal ≡ None) }
    ensures compare { (A.starts checker.new.asker).compare ≡ (A.starts checker.old.asker).compare }
    ensures refused { IfErr result (λ e. Judges bytes.now
        (tree_judged (A.starts checker.old.asker).compare (length bytes.now) (standing_at A.starts checker.old)
        (drop at bytes.now)) (Err e)) }
{
    tokens_are_found_exactly();
    match read_token(alloc, bytes, at, tok) {
        Ok(next) => match checker.judge(tok) {
            Ok(progress) => Ok((progress, next)),
            Err(refusal) => Err(refusal_at(at, refusal)),
        },
        Err(unread) => Err(unread_part(bytes.len(), at, unread)),
    }
}

// Takes the `?` before some bytes, and with it a cycle behind it that closes the part for yes at once: how many bytes
// these have.
#[inline(always)]
fn take_question<A: Starter>(checker: &mut ProofChecker<A>, rest: &[u8]) -> Option<usize>
    requires open { 0 < length checker.old.places.wanted }
    requires fresh { checker.old.refusal ≡ None }
    ensures leads { IfSome result (λ len. FrontLeadsTo (A.starts checker.old.asker).compare (63 ∷ rest.now)
        progress.More (standing_at A.starts checker.old) (standing_at A.starts checker.new) len) }
    ensures none { IfNone result (standing_at A.starts checker.new ≡ standing_at A.starts checker.old) }
    ensures open { 0 < length checker.new.places.wanted }
    ensures fresh { checker.new.refusal ≡ None }
    ensures compare { (A.starts checker.new.asker).compare ≡ (A.starts checker.old.asker).compare }
{
    tokens_are_found_exactly();
    certificate_tokens_are_spelled_alike();
    let question = checker.question()?;
    if let Some((b'x', behind)) = rest.split_first() {
        if let Some(len) = cycle_front(checker.literals(), question.lit, behind) {
            return match checker.skip(question) {
                true => Some(len + 2),
                false => None,
            };
        }
    }
    match checker.ask(question) {
        true => Some(1),
        false => None,
    }
}

// Takes the `x` before some bytes and its cycle: whether the tree goes on, and how many bytes that is.
#[inline(always)]
fn take_cycle<A: Starter>(checker: &mut ProofChecker<A>, rest: &[u8]) -> Option<(Progress, usize)>
    requires open { 0 < length checker.old.places.wanted }
    requires fresh { checker.old.refusal ≡ None }
    ensures leads { IfSome result (λ r. FrontLeadsTo (A.starts checker.old.asker).compare (120 ∷ rest.now) r.0
        (standing_at A.starts checker.old) (standing_at A.starts checker.new) r.1) }
    ensures none { IfNone result (standing_at A.starts checker.new ≡ standing_at A.starts checker.old) }
    ensures open { IfSome result (λ r. r.0 ≡ progress.More → 0 < length checker.new.places.wanted) }
    ensures still { IfNone result (0 < length checker.new.places.wanted) }
    ensures fresh { checker.new.refusal ≡ None }
    ensures compare { (A.starts checker.new.asker).compare ≡ (A.starts checker.old.asker).compare }
{
    tokens_are_found_exactly();
    certificate_tokens_are_spelled_alike();
    let (last, literals) = checker.literals().split_last()?;
    let len = cycle_front(literals, *last, rest)?;
    Some((checker.close()?, len + 1))
}

// Takes the token at the front of some bytes where it stands there whole and may be taken, and may be a second one with
// it: whether the tree goes on, and how many bytes they have.
#[inline(always)]
fn take_front<A: Starter>(checker: &mut ProofChecker<A>, bytes: &[u8]) -> Option<(Progress, usize)>
    requires open { 0 < length checker.old.places.wanted }
    requires fresh { checker.old.refusal ≡ None }
    ensures leads { IfSome result (λ r. FrontLeadsTo (A.starts checker.old.asker).compare bytes.now r.0
        (standing_at A.starts checker.old) (standing_at A.starts checker.new) r.1) }
    ensures none { IfNone result (standing_at A.starts checker.new ≡ standing_at A.starts checker.old) }
    ensures open { IfSome result (λ r. r.0 ≡ progress.More → 0 < length checker.new.places.wanted) }
    ensures still { IfNone result (0 < length checker.new.places.wanted) }
    ensures fresh { checker.new.refusal ≡ None }
    ensures compare { (A.starts checker.new.asker).compare ≡ (A.starts checker.old.asker).compare }
{
    let (first, rest) = bytes.split_first()?;
    match *first {
        b'?' => Some((Progress::More, take_question(checker, rest)?)),
        b'x' => take_cycle(checker, rest),
        _ => None,
    }
}

/// Judges a tree of the asker's plan, from a place of the bytes on: how many bytes stand before what comes after it.
pub fn judge_tree<A: Starter>(
    alloc: Global,
    asker: A,
    bytes: &[u8],
    start: usize,
) -> Result<usize, ConfirmError>
    requires { start ≤ length bytes.now }
    ensures { Judges bytes.now
        (tree_judged (A.starts asker).compare (length bytes.now) (opened_tree (A.starts asker).root)
        (drop start bytes.now)) result }
{
    let mut checker = ProofChecker::new(alloc, asker)?;
    let mut tok = ProofTok::Holds;
    let mut at = start;
    loop {
        match take_front(&mut checker, &bytes[at..]) {
            Some((Progress::More, len)) => at += len,
            Some((Progress::Done, len)) => return Ok(at + len),
            None => match judge_token(alloc, &mut checker, bytes, at, &mut tok) {
                Ok((Progress::More, next)) => at = next,
                Ok((Progress::Done, next)) => return Ok(next),
                Err(end) => return Err(end),
            },
        }
    }
}
