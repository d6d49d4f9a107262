//! Which tokens can go on, and what each of them does: one function for each thing that may be wanted.

ghost use Rattle.std.specs.Prelude.{◌≡◌, ◌<◌, ◌+◌, ◌-◌, ◌^◌, min};
ghost use Rattle.fn_tokens.specs.Kinds.{declares_some, comes_next};
ghost use Rattle.fn_tokens.specs.Meaning.{is_offset_number, may_compare};
ghost use Rattle.fn_tokens.specs.Controls.{has_chars, lacks, lacks_with, lacks_block, depth_of, allowed};
ghost use Rattle.fn_tokens.specs.Meaning.{is_same_sort, is_same_side};
ghost use Rattle.fn_tokens.specs.FixedMoves.{want_next, at_fixed};
ghost use Rattle.fn_tokens.specs.LineMoves.{at_next_kind, at_line, at_assumed, at_block_first, at_block_second};
ghost use Rattle.fn_tokens.specs.GuardMoves.{at_operand, at_operator, at_offset, at_result};
ghost use Rattle.fn_tokens.specs.Moves.{move_for};

use crate::control::{AfterLine, Control, TokenMove, Want, Written};
use crate::language::Language;
use crate::{Placed, Token, Word};
use fn_rules::{Cmp, Head, MAX_ATOMS, MAX_CASES, MAX_NESTING, MAX_OFFSET, Side, Sort};
use ot_model::{KINDS, Kind};

/// The move, where the test is true.
fn allow(test: bool, move_: TokenMove) -> Option<TokenMove>
    ensures { result ≡ allowed test move_ }
{
    if test { Some(move_) } else { None }
}

fn next_want(next: AfterLine) -> Want
    ensures { result ≡ want_next next }
{
    match next {
        AfterLine::Text => Want::Text,
        AfterLine::Kinds => Want::Kinds,
        AfterLine::Line => Want::Line,
        AfterLine::File => Want::FileEnd,
    }
}

/// Whether the kind comes behind each kind that is declared.
fn is_next(head: Head, kind: Kind) -> bool
    ensures { result ≡ comes_next head kind }
{
    KINDS.iter().all(|other| !head.declares(*other) || other.rank() < kind.rank())
}

fn is_for_some(head: Head) -> bool
    ensures { result ≡ declares_some head }
{
    KINDS.iter().any(|kind| head.declares(*kind))
}

fn same_sort(sort: Sort, other: Sort) -> bool
    ensures { result ≡ is_same_sort sort other }
{
    match (sort, other) {
        (Sort::Pos, Sort::Pos) | (Sort::Site, Sort::Site) | (Sort::Char, Sort::Char) => true,
        _ => false,
    }
}

fn same_side(side: Side, other: Side) -> bool
    ensures { result ≡ is_same_side side other }
{
    match (side, other) {
        (Side::First, Side::First) | (Side::Second, Side::Second) => true,
        _ => false,
    }
}

/// Whether the number may stand behind `+` or `-`.
fn is_offset(number: u8) -> bool
    ensures { result ≡ is_offset_number number }
{
    i32::from(number) <= MAX_OFFSET
}

/// What a token does where nothing but what is wanted matters.
fn fixed(want: Want, token: Token) -> Option<TokenMove>
    ensures { result ≡ at_fixed want token }
{
    match (want, token) {
        (Want::Otfn, Token::Known(Word::Otfn)) => Some(TokenMove::Skip(Want::Version)),
        (Want::Version, Token::Number(n)) => match Language::numbered(n) {
            Some(language) => Some(TokenMove::SetLanguage(language)),
            None => None,
        },
        (Want::Text, Token::Known(Word::Text)) => Some(TokenMove::Skip(Want::Mode)),
        (Want::Mode, Token::Known(Word::Mode(mode))) => Some(TokenMove::SetMode(mode)),
        (Want::Kinds, Token::Known(Word::Kinds)) => Some(TokenMove::Skip(Want::NextKind)),
        (Want::Differ, Token::Known(Word::Differ)) => {
            Some(TokenMove::Skip(Want::LineEnd(AfterLine::Line)))
        }
        (Want::LineEnd(next), Token::LineEnd) => Some(TokenMove::Skip(next_want(next))),
        (Want::BlockEnd, Token::LineEnd) => Some(TokenMove::Skip(Want::Line)),
        (Want::Comparison(sort, left), Token::Comparison(cmp)) => {
            Some(TokenMove::Skip(Want::Right(sort, left, cmp)))
        }
        (Want::Right(sort, left, cmp), Token::Known(Word::Thing(other, right))) => allow(
            same_sort(sort, other) && !same_side(left, right),
            TokenMove::Compare(sort, left, cmp),
        ),
        (Want::Number(left, cmp, sign), Token::Number(n)) => {
            allow(is_offset(n), TokenMove::Shift(left, cmp, sign, n))
        }
        (Want::ResultPosition, Token::Known(Word::Thing(Sort::Pos, side))) => {
            Some(TokenMove::Skip(Want::ResultOffset(side)))
        }
        (Want::ResultOffset(side), Token::Sign(sign)) => {
            Some(TokenMove::Skip(Want::ResultNumber(side, sign)))
        }
        (Want::ResultOffset(side), Token::LineEnd) => Some(TokenMove::EndCase(Written::At(side))),
        (Want::ResultNumber(side, sign), Token::Number(n)) => allow(
            is_offset(n),
            TokenMove::Skip(Want::ResultEnd(Written::Moved(side, sign, n))),
        ),
        (Want::ResultEnd(written), Token::LineEnd) => Some(TokenMove::EndCase(written)),
        (Want::FileEnd, Token::FileEnd) => Some(TokenMove::Skip(Want::Nothing)),
        _ => None,
    }
}

impl Control {
    /// Whether the block may compare characters.
    fn compares_chars(&self) -> bool
        ensures { result ≡ has_chars self.now }
    {
        self.first.has_char() && self.second.has_char()
    }

    /// Whether things of the sort may be compared in the block.
    pub fn may_compare(&self, sort: Sort) -> bool
        ensures { result ≡ may_compare (has_chars self.now) sort }
    {
        match sort {
            Sort::Pos | Sort::Site => true,
            Sort::Char => self.compares_chars(),
        }
    }

    /// Whether the pair of kinds is declared and has no block.
    fn lacks(&self, first: Kind, second: Kind) -> bool
        ensures { result ≡ lacks self.now first second }
    {
        self.head.declares_pair(first, second) && !self.seen.has(first, second)
    }

    /// Whether some block with this first kind is missing.
    fn lacks_with(&self, first: Kind) -> bool
        ensures { result ≡ lacks_with self.now first }
    {
        KINDS.iter().any(|second| self.lacks(first, *second))
    }

    /// Whether some block is missing.
    fn lacks_block(&self) -> bool
        ensures { result ≡ lacks_block self.now }
    {
        KINDS.iter().any(|first| self.lacks_with(*first))
    }

    fn next_kind(&self, token: Token) -> Option<TokenMove>
        ensures { result ≡ at_next_kind self.now token }
    {
        match token {
            Token::Known(Word::Kind(kind)) => allow(
                self.language.has_word(kind) && is_next(self.head, kind),
                TokenMove::Declare(kind),
            ),
            Token::LineEnd => allow(is_for_some(self.head), TokenMove::Skip(Want::Line)),
            _ => None,
        }
    }

    fn line(&self, at: &Placed) -> Option<TokenMove>
        ensures { result ≡ at_line self.now at.now at.now.token }
    {
        match at.token {
            Token::Known(Word::Assume) => allow(
                !self.begun && !self.head.chars_differ,
                TokenMove::Skip(Want::Assumed),
            ),
            Token::Known(Word::Block) => Some(TokenMove::BlockWord(at.line, at.column)),
            Token::Known(Word::Case) => {
                allow(self.begun && self.cases < MAX_CASES, TokenMove::BeginCase)
            }
            Token::Known(Word::End) => allow(!self.lacks_block(), TokenMove::End),
            _ => None,
        }
    }

    fn assumed(&self, token: Token) -> Option<TokenMove>
        ensures { result ≡ at_assumed self.now token }
    {
        match token {
            Token::Known(Word::Sites) => allow(!self.head.sites_differ, TokenMove::AssumeSites),
            Token::Known(Word::Chars) => Some(TokenMove::AssumeChars),
            _ => None,
        }
    }

    fn block_first(&self, token: Token) -> Option<TokenMove>
        ensures { result ≡ at_block_first self.now token }
    {
        match token {
            Token::Known(Word::Kind(kind)) => allow(
                self.head.declares(kind),
                TokenMove::Skip(Want::BlockSecond(kind)),
            ),
            _ => None,
        }
    }

    fn block_second(&self, first: Kind, token: Token) -> Option<TokenMove>
        ensures { result ≡ at_block_second self.now first token }
    {
        match token {
            Token::Known(Word::Kind(kind)) => allow(
                self.head.declares(kind) && !self.seen.has(first, kind),
                TokenMove::BeginBlock(first, kind),
            ),
            _ => None,
        }
    }

    /// The `(` and `not` around the next operand, as far as they can be counted.
    pub fn depth(&self) -> u64
        ensures { result ≡ min (depth_of self.now) (2 ^ 64 - 1) }
    {
        self.outside.saturating_add(self.nots)
    }

    fn operand(&self, token: Token) -> Option<TokenMove>
        ensures { result ≡ at_operand self.now token }
    {
        match token {
            Token::Open => allow(self.depth() < MAX_NESTING, TokenMove::Open),
            Token::Known(Word::Not) => allow(self.depth() < MAX_NESTING, TokenMove::Negate),
            Token::Known(Word::True) => allow(self.atoms < MAX_ATOMS, TokenMove::Always),
            Token::Known(Word::Thing(sort, side)) => allow(
                self.atoms < MAX_ATOMS && self.may_compare(sort),
                TokenMove::BeginAtom(sort, side),
            ),
            _ => None,
        }
    }

    fn operator(&self, token: Token) -> Option<TokenMove>
        ensures { result ≡ at_operator self.now token }
    {
        match token {
            Token::Known(Word::And) => Some(TokenMove::And),
            Token::Known(Word::Or) => Some(TokenMove::Or),
            Token::Close => allow(0 < self.outside, TokenMove::Close),
            Token::Colon => allow(self.outside == 0, TokenMove::Colon),
            _ => None,
        }
    }

    fn offset(&self, left: Side, cmp: Cmp, token: Token) -> Option<TokenMove>
        ensures { result ≡ at_offset self.now left cmp token }
    {
        match token {
            Token::Sign(sign) => Some(TokenMove::Skip(Want::Number(left, cmp, sign))),
            _ => self.operator(token),
        }
    }

    fn outcome(&self, token: Token) -> Option<TokenMove>
        ensures { result ≡ at_result self.now token }
    {
        match token {
            Token::Known(Word::Nop) => Some(TokenMove::Skip(Want::ResultEnd(Written::Nop))),
            Token::Known(Word::Kind(kind)) => {
                allow(self.first.same(kind), TokenMove::Skip(Want::ResultPosition))
            }
            _ => None,
        }
    }

    /// What a token does, None where it cannot go on.
    pub fn move_for(&self, at: &Placed) -> Option<TokenMove>
        ensures { result ≡ move_for self.now at.now self.now.want at.now.token }
    {
        let token = at.token;
        match self.want {
            Want::NextKind => self.next_kind(token),
            Want::Line => self.line(at),
            Want::Assumed => self.assumed(token),
            Want::BlockFirst => self.block_first(token),
            Want::BlockSecond(first) => self.block_second(first, token),
            Want::Operand => self.operand(token),
            Want::Offset(left, cmp) => self.offset(left, cmp, token),
            Want::Operator => self.operator(token),
            Want::Result => self.outcome(token),
            want => fixed(want, token),
        }
    }
}
