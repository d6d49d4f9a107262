//! Certificates, byte by byte.
ghost use Rattle.std.specs.Prelude.{◌≡◌, ◌↔◌, ℕ, ◌+◌, ◌^◌, ◌<◌, ◌≤◌, List, [], ◌∷◌, ◌++◌, Option, Some, None, Result};
ghost use Rattle.std.specs.Prelude.{Ok, length, take, IfSome, IfNone};
ghost use Rattle.cert_text.specs.declared.item.Item.{Item};
ghost use Rattle.cert_text.specs.declared.item.CertError.{CertError};
ghost use Rattle.cert_text.specs.Places.{Line, Start};
ghost use Rattle.cert_text.specs.Stages.{refusal_of};
ghost use Rattle.cert_text.specs.Reading.{Gives, Reading, ReadsParts, ReadsOn, fed_to};
ghost use Rattle.cert_text.specs.Pieces.{GivesOf, IsReaderUnderWay};
ghost use Rattle.cert_text.specs.Passing.{IsPassed, open_in, passed};

use cert_text::{
    CertError, Item, LineBytes, Part, PartFront, PartStep, Stage, Tok, branches_behind, part_step,
    whole_token,
};
use fn_rules::{Level, ObName};
use std::alloc::Global;
use std::marker::Model;
use std::mem;

/// Reads a certificate byte by byte, and keeps no byte of a part that it gave.
///
/// Contracts see it as the place where it stands in the certificate, how many bytes stand before the part
/// that it reads, and which bytes of that part came; or as its refusal.
#[derive(Drop)]
pub struct Reader {
    alloc: Global,
    tp1: Vec<ObName>,
    tp2: Vec<ObName>,
    stage: Stage,
    offset: u64,
    begun: PartFront,
    refused: Option<CertError>,
}

impl Model for Reader {
    ghost use Rattle.cert_text.specs.Reading.{ReaderState};

    ghost Value = { ReaderState };

    ghost use Rattle.cert_reader.specs.Readers.{HeldIn, reader_state_of};

    ghost view = { reader_state_of };

    ghost invariant = { HeldIn };
}

impl Reader {
    /// A reader of certificates of a function with these obligations at the two levels. Of the
    /// allocator it keeps what the numbers of a cycle ask for, and no call takes memory.
    pub fn new(alloc: Global, tp1: Vec<ObName>, tp2: Vec<ObName>) -> Reader
        requires few_tp1 { length tp1.items < 2 ^ 32 }
        requires few_tp2 { length tp2.items < 2 ^ 32 }
        ensures { result ≡ Reading (Start tp1.items tp2.items) 0 [] }
    {
        Reader {
            alloc,
            tp1,
            tp2,
            stage: Stage::Header,
            offset: 0,
            begun: PartFront::Line(LineBytes::new(alloc)),
            refused: None,
        }
    }

    /// A reader that begins behind a first line that another one read: before the lines of these obligations, where so
    /// many bytes of the file came. Offsets count from the file's beginning.
    pub fn behind_header(alloc: Global, names: Vec<ObName>, before: u64) -> Reader
        requires few { length names.items < 2 ^ 32 }
        requires before { before ≤ 2 ^ 63 }
        ensures { result ≡ Reading (Line 0 names.items) before [] }
    {
        Reader {
            alloc,
            tp1: names,
            tp2: Vec::new(alloc),
            stage: Stage::Line(Level::Tp1, 0),
            offset: before,
            begun: PartFront::Line(LineBytes::new(alloc)),
            refused: None,
        }
    }

    /// The part that the byte ends, if it ends one. At the first byte with which no part that may stand
    /// there goes on it refuses, and every later call answers that refusal.
    pub fn feed(&mut self, byte: u8) -> Result<Option<Item>, CertError>
        requires { fed_to self.old < 2 ^ 63 }
        ensures gives { Gives self.old byte result self.new }
        ensures fed { fed_to self.new ≤ fed_to self.old + 1 }
        ensures under_way { result ≡ Ok None → IsReaderUnderWay self.new }

        // The byte and those behind it give what it gave and what they then give.
        ensures reads { (rest : List ℕ) (items : List Item) (end : Result (Unit {0}) CertError) →
            ReadsParts self.old (byte ∷ rest) items end ↔ ReadsOn result self.new rest items end }
    {
        if let Some(refusal) = self.refused {
            return Err(refusal);
        }
        let len = self.begun.len();
        let begun = mem::replace(&mut self.begun, PartFront::Line(LineBytes::new(self.alloc)));
        match part_step(self.alloc, &self.tp1, &self.tp2, self.stage, begun, byte) {
            PartStep::More(begun) => {
                self.begun = begun;
                Ok(None)
            }
            PartStep::Whole(part, next) => {
                let offset = self.offset;
                self.offset = offset + len + 1;
                self.stage = next;
                Ok(Some(Item { offset, part }))
            }
            PartStep::Wrong => {
                let refusal = refusal_at(self.stage, self.offset);
                self.refused = Some(refusal);
                Err(refusal)
            }
        }
    }

    /// Feeds bytes of a piece one after another up to the end of the next part: how many of them it takes,
    /// and what the last of these gives. Where no part ends within the piece it takes the whole piece and
    /// gives nothing; a byte that is refused is taken.
    pub fn feed_piece(&mut self, piece: &[u8]) -> (usize, Result<Option<Item>, CertError>)
        requires { fed_to self.old + length piece.now ≤ 2 ^ 63 }
        ensures gives { GivesOf self.old piece.now result.0 result.1 self.new }
        ensures within { result.0 ≤ length piece.now }
        ensures some { 0 < length piece.now → 0 < result.0 }
        ensures fed { fed_to self.new ≤ fed_to self.old + result.0 }

        // The bytes that it takes and those behind them give what it gave and what they then give.
        ensures reads { (rest : List ℕ) (items : List Item) (end : Result (Unit {0}) CertError) →
            ReadsParts self.old (take result.0 piece.now ++ rest) items end ↔ ReadsOn result.1 self.new rest items end }
    {
        let mut tok = Tok::Ask;
        match self.feed_token(piece, &mut tok) {
            Some((offset, taken)) => {
                let part = Part::Tok(tok);
                (taken, Ok(Some(Item { offset, part })))
            }
            None => self.feed_each(piece),
        }
    }

    /// Takes the whole token of a tree at the front of a piece, where nothing of it came before, and puts it into
    /// `tok`: how many bytes of the file stand before it, and how many it has. This is what `feed_piece` gives of the
    /// piece. Where there is none it takes nothing, and it is not said what `tok` is.
    #[inline(always)]
    pub fn feed_token(&mut self, piece: &[u8], tok: &mut Tok) -> Option<(u64, usize)>
        requires { fed_to self.old + length piece.now ≤ 2 ^ 63 }
        ensures gives { IfSome result (λ x. GivesOf self.old piece.now x.1
            (Ok (Some (record { offset = x.0; part = Part.Tok tok.new }))) self.new) }
        ensures within { IfSome result (λ x. x.1 ≤ length piece.now) }
        ensures some { IfSome result (λ x. 0 < x.1) }
        ensures fed { IfSome result (λ x. fed_to self.new ≤ fed_to self.old + x.1) }
        ensures none { IfNone result (self.new ≡ self.old) }
    {
        match (self.refused, self.stage, &self.begun) {
            (None, Stage::Tree(level, came, branches), PartFront::Line(_)) if branches > 0 => {
                let taken = whole_token(self.alloc, piece, tok)?;
                let offset = self.offset;
                self.offset = offset + taken as u64;
                self.stage = Stage::Tree(level, came, branches_behind(branches, tok));
                Some((offset, taken))
            }
            _ => None,
        }
    }

    /// How many branches are open in the tree where the reader stands; in none there is no open one.
    #[inline(always)]
    pub fn open_branches(&self) -> u64
        ensures value { result ≡ open_in self.now }
        ensures few { result ≤ fed_to self.now }
    {
        match (self.refused, self.stage) {
            (None, Stage::Tree(_, _, branches)) => branches,
            _ => 0,
        }
    }

    /// Passes whole tokens of a tree that the caller took itself, behind which so many branches are open, where nothing
    /// of the first one came before. What is behind them is read as if they had been fed.
    #[inline(always)]
    pub fn pass(&mut self, bytes: &[u8], branches: u64)
        requires room { fed_to self.old + length bytes.now ≤ 2 ^ 63 }
        requires few { branches ≤ fed_to self.old + length bytes.now }
        requires tokens { IsPassed self.old bytes.now branches }
        ensures { self.new ≡ passed self.old (length bytes.now) branches }
    {
        if let Stage::Tree(level, came, _) = self.stage {
            self.stage = Stage::Tree(level, came, branches);
            self.offset += bytes.len() as u64;
        }
    }

    // The same as `feed_piece`, byte by byte.
    fn feed_each(&mut self, piece: &[u8]) -> (usize, Result<Option<Item>, CertError>)
        requires { fed_to self.old + length piece.now ≤ 2 ^ 63 }
        ensures gives { GivesOf self.old piece.now result.0 result.1 self.new }
        ensures fed { fed_to self.new ≤ fed_to self.old + result.0 }
    {
        for (i, byte) in piece.iter().enumerate() {
            match self.feed(*byte) {
                Ok(None) => {}
                Ok(Some(item)) => return (i + 1, Ok(Some(item))),
                Err(refusal) => return (i + 1, Err(refusal)),
            }
        }
        (piece.len(), Ok(None))
    }

    /// Whether the file may end here: Ok behind the last line, and otherwise `Truncated`, or the refusal
    /// of a byte.
    pub fn finish(&self) -> Result<(), CertError>
        ensures reads { (items : List Item) (end : Result (Unit {0}) CertError) →
            ReadsParts self.now [] items end ↔ ((items ≡ []) × (end ≡ result)) }
    {
        if let Some(refusal) = self.refused {
            return Err(refusal);
        }
        match self.stage {
            Stage::Over => Ok(()),
            _ => Err(CertError::Truncated(self.offset + self.begun.len())),
        }
    }
}

// The refusal of a byte with which no part goes on.
fn refusal_at(stage: Stage, offset: u64) -> CertError
    ensures { result ≡ refusal_of stage offset }
{
    match stage {
        Stage::Over => CertError::Trailing(offset),
        _ => CertError::BadToken(offset),
    }
}
