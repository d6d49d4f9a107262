//! The tree of an obligation, judged token by token.
ghost use Rattle.std.specs.Prelude.{◌≡◌, ℕ, ◌+◌, ◌^◌, ◌<◌, ◌≤◌, [], ◌∷◌, None, Ok, length, take, IfErr, IfNone};
ghost use Rattle.std.specs.Prelude.{IfOk, IfSome, OnOk, IsTrue};
ghost use Rattle.ask_core.specs.Askers.{has_fine_literals, is_fine_literal, longest_path};
ghost use Rattle.cert_check.specs.Judging.{open_branches};
ghost use Rattle.cert_text.specs.Reading.{fed_to};
ghost use Rattle.ot_sections.specs.Parts.{end_of_token};
ghost use Rattle.ot_sections.specs.Feeding.{Leaves, fed};
ghost use Rattle.ot_sections.specs.Stands.{Came, IsBetween, IsMisspeltBehind, IsRefusedAnyway, IsTreeOf, LeadsAnyway};
ghost use Rattle.ot_sections.specs.Stands.{opened, plan_behind, reader_place_of, stand, tree_with};
ghost use Rattle.ot_sections.specs.Taking.{AreTaken, AreTakenFront};

use crate::part::expect_part;
use crate::{JudgeError, Refusal, cycle_front};
use ask_core::{Asker, MAX_QUESTIONS, Premised, Tok};
use cert_check::{CheckError, Checker, MAX_NAMES};
use cert_reader::Reader;
use cert_text::{Item, Part};
use diff_graph::Lit;
use ot_outside::Feed;
use std::alloc::Global;

// The end of a judgement at a token that is not taken.
fn end_at(offset: u64, end: CheckError) -> JudgeError
    ensures { result ≡ end_of_token offset end }
{
    let why = match end {
        CheckError::NotAQuestion => Refusal::NotAQuestion,
        CheckError::NotDone => Refusal::NotDone,
        CheckError::GoalFails => Refusal::GoalFails,
        CheckError::BadPick => Refusal::BadPick,
        CheckError::NotACycle => Refusal::NotACycle,
        CheckError::NotNegative => Refusal::NotNegative,
        CheckError::NoMemory => return JudgeError::NoMemory,
    };
    JudgeError::Refused { offset, why }
}

// The same as `next_token`, of a token that may stand in several pieces.
#[inline(never)]
fn split_token<F: Feed>(reader: &mut Reader, feed: &mut F) -> Result<(u64, Tok), JudgeError>
    requires between { IsBetween reader.old }
    requires still_open { (n : ℕ) × (0 < n) × IsTreeOf n (reader_place_of reader.old) }
    requires room { fed_to reader.old + F.bound feed.old < 2 ^ 63 }
    ensures token { IfOk result (λ t. Came F.Feed (fed reader.old feed.old) (fed reader.new feed.new)
        (record { offset = t.0; part = Part.Tok t.1 })) }
    ensures fewer { IfOk result (λ _. F.bound feed.new < F.bound feed.old) }
    ensures misspelt { IfErr result (IsMisspeltBehind F.Feed (fed reader.old feed.old) feed.new) }
    ensures leaves { Leaves F.Feed (fed reader.old feed.old) (fed reader.new feed.new) result }
{
    let Item { offset, part } = expect_part(reader, feed)?;
    match part {
        Part::Tok(tok) => Ok((offset, tok)),
        _ => unreachable!(),
    }
}

// The next token of a tree that has an open branch is put into `tok`: its offset.
#[inline(always)]
fn next_token<F: Feed>(reader: &mut Reader, feed: &mut F, tok: &mut Tok) -> Result<u64, JudgeError>
    requires between { IsBetween reader.old }
    requires still_open { (n : ℕ) × (0 < n) × IsTreeOf n (reader_place_of reader.old) }
    requires room { fed_to reader.old + F.bound feed.old < 2 ^ 63 }
    ensures token { IfOk result (λ offset. Came F.Feed (fed reader.old feed.old) (fed reader.new feed.new)
        (record { offset = offset; part = Part.Tok tok.new })) }
    ensures fewer { IfOk result (λ _. F.bound feed.new < F.bound feed.old) }
    ensures misspelt { IfErr result (IsMisspeltBehind F.Feed (fed reader.old feed.old) feed.new) }
    ensures leaves { Leaves F.Feed (fed reader.old feed.old) (fed reader.new feed.new) result }
{
    if feed.more()? {
        if let Some((offset, taken)) = reader.feed_token(feed.at_hand(), tok) {
            feed.consume(taken);
            return Ok(offset);
        }
    }
    let (offset, whole) = split_token(reader, feed)?;
    *tok = whole;
    Ok(offset)
}

// Takes the `?` before some bytes, and with it a cycle behind it that closes the part for yes at once: how many bytes
// these have, and how many branches are open behind them.
#[inline(always)]
fn take_question<A: Asker>(
    checker: &mut Checker<A>,
    branches: u64,
    rest: &[u8],
) -> Option<(usize, u64)>
    requires some { 0 < length checker.old.places }
    requires count { branches ≡ length (open_branches A.plan checker.old) }
    requires few { branches < 2 ^ 63 }
    ensures taken { IfSome result (λ x. AreTakenFront (open_branches A.plan checker.old)
        (open_branches A.plan checker.new) (63 ∷ rest.now) x.0) }
    ensures more { IfSome result (λ x. 0 < x.0) }
    ensures count { IfSome result (λ x. x.1 ≡ length (open_branches A.plan checker.new)) }
    ensures few { IfSome result (λ x. x.1 ≤ branches + x.0) }
    ensures none { IfNone result (open_branches A.plan checker.new ≡ open_branches A.plan checker.old) }
    ensures refusal { checker.new.refusal ≡ checker.old.refusal }
{
    let question = checker.question()?;
    if let Some((b'x', behind)) = rest.split_first() {
        if let Some(len) = cycle_front(checker.answers(), question.lit, behind) {
            return match checker.skip(question) {
                true => Some((len + 2, branches)),
                false => None,
            };
        }
    }
    match checker.ask(question) {
        true => Some((1, branches + 1)),
        false => None,
    }
}

// Takes the `x` before some bytes and its cycle: how many bytes that is, and how many branches are open behind it.
#[inline(always)]
fn take_cycle<A: Asker>(
    checker: &mut Checker<A>,
    branches: u64,
    rest: &[u8],
) -> Option<(usize, u64)>
    requires some { 0 < length checker.old.places }
    requires count { branches ≡ length (open_branches A.plan checker.old) }
    ensures taken { IfSome result (λ x. AreTakenFront (open_branches A.plan checker.old)
        (open_branches A.plan checker.new) (120 ∷ rest.now) x.0) }
    ensures more { IfSome result (λ x. 0 < x.0) }
    ensures count { IfSome result (λ x. x.1 ≡ length (open_branches A.plan checker.new)) }
    ensures few { IfSome result (λ x. x.1 ≤ branches + x.0) }
    ensures none { IfNone result (open_branches A.plan checker.new ≡ open_branches A.plan checker.old) }
    ensures refusal { checker.new.refusal ≡ checker.old.refusal }
{
    let (last, lits) = checker.answers().split_last()?;
    let len = cycle_front(lits, *last, rest)?;
    checker.close();
    Some((len + 1, branches - 1))
}

// Takes the token at the front of some bytes where it stands there whole and may be taken, and may be a second one with
// it: how many bytes they have, and how many branches are open behind them.
#[inline(always)]
fn take_front<A: Asker>(
    checker: &mut Checker<A>,
    branches: u64,
    bytes: &[u8],
) -> Option<(usize, u64)>
    requires some { 0 < length checker.old.places }
    requires count { branches ≡ length (open_branches A.plan checker.old) }
    requires few { branches < 2 ^ 63 }
    ensures taken { IfSome result (λ x. AreTakenFront (open_branches A.plan checker.old)
        (open_branches A.plan checker.new) bytes.now x.0) }
    ensures more { IfSome result (λ x. 0 < x.0) }
    ensures count { IfSome result (λ x. x.1 ≡ length (open_branches A.plan checker.new)) }
    ensures few { IfSome result (λ x. x.1 ≤ branches + x.0) }
    ensures none { IfNone result (open_branches A.plan checker.new ≡ open_branches A.plan checker.old) }
    ensures refusal { checker.new.refusal ≡ checker.old.refusal }
{
    let (first, rest) = bytes.split_first()?;
    match *first {
        b'?' => take_question(checker, branches, rest),
        b'x' => take_cycle(checker, branches, rest),
        b'.' if checker.takes(&Tok::Holds) => Some((1, branches - 1)),
        _ => None,
    }
}

// Takes the tokens at the front of some bytes, up to the last one of the tree or the first that does not stand there
// whole or may not be taken: how many bytes they have, and how many branches are open behind them.
fn take_tokens<A: Asker>(checker: &mut Checker<A>, branches: u64, bytes: &[u8]) -> (usize, u64)
    requires count { branches ≡ length (open_branches A.plan checker.old) }
    requires few { branches + length bytes.now < 2 ^ 63 }
    ensures within { result.0 ≤ length bytes.now }
    ensures taken { AreTaken (take result.0 bytes.now) (open_branches A.plan checker.old)
        (open_branches A.plan checker.new) }
    ensures count { result.1 ≡ length (open_branches A.plan checker.new) }
    ensures few { result.1 ≤ branches + result.0 }
    ensures refusal { checker.new.refusal ≡ checker.old.refusal }
{
    let mut at = 0;
    let mut left = branches;
    'tokens: while left > 0 {
        match take_front(checker, left, &bytes[at..]) {
            Some((len, behind)) => {
                at += len;
                left = behind;
            }
            None => break,
        }
    }
    (at, left)
}

// Takes the tokens at hand of the feed.
fn take_at_hand<A: Asker, F: Feed>(checker: &mut Checker<A>, reader: &mut Reader, feed: &mut F)
    requires between { IsBetween reader.old }
    requires tree { IsTreeOf (length (open_branches A.plan checker.old)) (reader_place_of reader.old) }
    requires room { fed_to reader.old + F.bound feed.old < 2 ^ 63 }
    ensures between { IsBetween reader.new }
    ensures tree { IsTreeOf (length (open_branches A.plan checker.new)) (reader_place_of reader.new) }
    ensures same_tree { tree_with 0 (reader_place_of reader.new) ≡ tree_with 0 (reader_place_of reader.old) }
    ensures leads { LeadsAnyway F.Feed (stand (fed reader.old feed.old) (open_branches A.plan checker.old))
        (stand (fed reader.new feed.new) (open_branches A.plan checker.new)) }
    ensures leaves { Leaves {T = Unit {0}} F.Feed (fed reader.old feed.old) (fed reader.new feed.new) (Ok tt) }
    ensures refusal { checker.new.refusal ≡ checker.old.refusal }
{
    let bytes = feed.at_hand();
    let (taken, behind) = take_tokens(checker, reader.open_branches(), bytes);
    reader.pass(&bytes[..taken], behind);
    feed.consume(taken);
}

// Judges a tree at the open places of a checker: it takes the tokens up to the last one.
fn judge_places<A: Asker, F: Feed>(
    checker: &mut Checker<A>,
    reader: &mut Reader,
    feed: &mut F,
) -> Result<(), JudgeError>
    requires unrefused { checker.old.refusal ≡ None }
    requires between { IsBetween reader.old }
    requires tree { IsTreeOf (length (open_branches A.plan checker.old)) (reader_place_of reader.old) }
    requires room { fed_to reader.old + F.bound feed.old < 2 ^ 63 }
    ensures closed { OnOk result (IsBetween reader.new
        × (reader_place_of reader.new ≡ tree_with 0 (reader_place_of reader.old))) }
    ensures leads { OnOk result (LeadsAnyway F.Feed
        (stand (fed reader.old feed.old) (open_branches A.plan checker.old)) (stand (fed reader.new feed.new) [])) }
    ensures refused { IfErr result (IsRefusedAnyway F.Feed
        (stand (fed reader.old feed.old) (open_branches A.plan checker.old)) feed.new) }
    ensures leaves { Leaves F.Feed (fed reader.old feed.old) (fed reader.new feed.new) result }
{
    let mut tok = Tok::Ask;
    'tokens: while checker.is_open() {
        let offset = next_token(reader, feed, &mut tok)?;
        match checker.judge(&tok) {
            Ok(_) => {}
            Err(end) => return Err(end_at(offset, end)),
        }
        take_at_hand(checker, reader, feed);
    }
    Ok(())
}

// Judges the tree of an obligation, which answers what the asker asks: it takes its tokens up to the last one.
fn judge_tree<A: Asker, F: Feed>(
    alloc: Global,
    asker: A,
    reader: &mut Reader,
    feed: &mut F,
) -> Result<(), JudgeError>
    requires names { A.name_count asker ≤ MAX_NAMES }
    requires between { IsBetween reader.old }
    requires tree { IsTreeOf 1 (reader_place_of reader.old) }
    requires room { fed_to reader.old + F.bound feed.old < 2 ^ 63 }

    // What is judged behind the tree is judged of it and what is behind it.
    ensures closed { OnOk result (IsBetween reader.new
        × (reader_place_of reader.new ≡ tree_with 0 (reader_place_of reader.old))) }
    ensures leads { OnOk result (LeadsAnyway F.Feed (stand (fed reader.old feed.old) (opened (A.root asker)))
        (stand (fed reader.new feed.new) [])) }
    ensures refused { IfErr result (IsRefusedAnyway F.Feed (stand (fed reader.old feed.old) (opened (A.root asker)))
        feed.new) }

    ensures leaves { Leaves F.Feed (fed reader.old feed.old) (fed reader.new feed.new) result }
{
    let mut checker = Checker::new(alloc, asker)?;
    judge_places(&mut checker, reader, feed)
}

/// Judges a tree that answers first whether the premise is met, if there is one, and where it is, what the asker asks.
pub(crate) fn judge_tree_behind<A: Asker, F: Feed>(
    alloc: Global,
    premise: Option<Lit>,
    asker: A,
    reader: &mut Reader,
    feed: &mut F,
) -> Result<(), JudgeError>
    requires premise { IfSome premise (λ lit. IsTrue (is_fine_literal (A.name_count asker) lit)) }
    requires literals { IsTrue (has_fine_literals (A.name_count asker) (A.root asker)) }
    requires paths { longest_path (A.root asker) < MAX_QUESTIONS }
    requires names { A.name_count asker ≤ MAX_NAMES }
    requires between { IsBetween reader.old }
    requires tree { IsTreeOf 1 (reader_place_of reader.old) }
    requires room { fed_to reader.old + F.bound feed.old < 2 ^ 63 }
    ensures closed { OnOk result (IsBetween reader.new
        × (reader_place_of reader.new ≡ tree_with 0 (reader_place_of reader.old))) }
    ensures leads { OnOk result (LeadsAnyway F.Feed (stand (fed reader.old feed.old)
        (opened (plan_behind premise (A.root asker))))
        (stand (fed reader.new feed.new) [])) }
    ensures refused { IfErr result (IsRefusedAnyway F.Feed
        (stand (fed reader.old feed.old) (opened (plan_behind premise (A.root asker)))) feed.new) }
    ensures leaves { Leaves F.Feed (fed reader.old feed.old) (fed reader.new feed.new) result }
{
    match premise {
        None => judge_tree(alloc, asker, reader, feed),
        Some(lit) => judge_tree(alloc, Premised::new(lit, asker), reader, feed),
    }
}
