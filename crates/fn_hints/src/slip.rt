//! What was probably meant by a wrong token.

ghost use Rattle.std.specs.Prelude.{◌≡◌, find, slice_index};
ghost use Rattle.ot_model.specs.declared.op.TheConstants.{KINDS};
ghost use Rattle.fn_tokens.specs.Controls.{lacks, lacks_with};
ghost use Rattle.fn_hints.specs.Slips.{greater_slip, pair_slip, byte_slip, missing_with, missing_block};
ghost use Rattle.fn_hints.specs.Slips.{token_slip, slip_by, slip_in};

use fn_rules::{Cmp, Sort};
use fn_text::{Token, Word, WrongToken};
use fn_tokens::{Control, Want};
use ot_model::{KINDS, Kind};

/// A usual slip.
#[derive(Clone, Copy, PartialEq, Eq)]
pub enum Slip {
    /// `>`.
    Greater,

    /// `>=`.
    GreaterEqual,

    /// `==`.
    DoubledEquals,

    /// `!=`.
    NotEqual,

    /// `&&`.
    Ampersands,

    /// `||`.
    Bars,

    /// A sum on the left of a comparison.
    SumOnTheLeft,

    /// A number in place of a position.
    LoneNumber,

    /// `end` before the block of these kinds.
    MissingBlock(Kind, Kind),
}

fn greater(second: u8) -> Slip
    ensures { result ≡ greater_slip second }
{
    if second == b'=' {
        Slip::GreaterEqual
    } else {
        Slip::Greater
    }
}

/// A sign of two bytes that the language has not.
fn pair(first: u8, second: u8) -> Option<Slip>
    ensures { result ≡ pair_slip first second }
{
    match (first, second) {
        (b'!', b'=') => Some(Slip::NotEqual),
        (b'&', b'&') => Some(Slip::Ampersands),
        (b'|', b'|') => Some(Slip::Bars),
        _ => None,
    }
}

/// A sign that the language has not.
fn sign(first: u8, second: u8) -> Option<Slip>
    ensures { result ≡ byte_slip first second }
{
    if first == b'>' {
        Some(greater(second))
    } else {
        pair(first, second)
    }
}

/// Whether the pair of kinds is declared and has no block.
fn lacks(control: Control, first: Kind, second: Kind) -> bool
    ensures { result ≡ lacks control first second }
{
    control.head.declares_pair(first, second) && !control.seen.has(first, second)
}

fn lacks_with(control: Control, first: Kind) -> bool
    ensures { result ≡ lacks_with control first }
{
    KINDS.iter().any(|second| lacks(control, first, *second))
}

fn second_missing(control: Control, first: Kind) -> Option<Kind>
    ensures { result ≡ find (lacks control first) KINDS }
{
    KINDS
        .iter()
        .copied()
        .find(|second| lacks(control, first, *second))
}

fn first_missing(control: Control) -> Option<Kind>
    ensures { result ≡ find (lacks_with control) KINDS }
{
    KINDS
        .iter()
        .copied()
        .find(|first| lacks_with(control, *first))
}

/// The first block with this first kind that is missing.
fn missing_with(control: Control, first: Kind) -> Option<Slip>
    ensures { result ≡ missing_with control first }
{
    match second_missing(control, first) {
        None => None,
        Some(second) => Some(Slip::MissingBlock(first, second)),
    }
}

/// The first block that is missing.
fn missing(control: Control) -> Option<Slip>
    ensures { result ≡ missing_block control }
{
    match first_missing(control) {
        None => None,
        Some(first) => missing_with(control, first),
    }
}

fn of_token(control: Control, token: Token) -> Option<Slip>
    ensures { result ≡ token_slip control control.want token }
{
    match (control.want, token) {
        (Want::Right(_, _, Cmp::Eq), Token::Comparison(Cmp::Eq)) => Some(Slip::DoubledEquals),
        (Want::Comparison(Sort::Pos, _), Token::Sign(_)) => Some(Slip::SumOnTheLeft),
        (Want::Operand, Token::Number(_)) => Some(Slip::LoneNumber),
        (Want::Right(..), Token::Number(_)) => Some(Slip::LoneNumber),
        (Want::ResultPosition, Token::Number(_)) => Some(Slip::LoneNumber),
        (Want::Line, Token::Known(Word::End)) => missing(control),
        _ => None,
    }
}

/// The byte at a place, 0 where there is none.
fn byte_at(line: &[u8], at: usize) -> u8
    ensures { result ≡ slice_index line.now at }
{
    if at < line.len() { line[at] } else { 0 }
}

fn at_bytes(wrong: WrongToken, first: u8, second: u8) -> Option<Slip>
    ensures { result ≡ slip_by wrong wrong.at.token first second }
{
    match wrong.at.token {
        Token::Byte => sign(first, second),
        token => of_token(wrong.control, token),
    }
}

/// The slip of a wrong token in its line, where there is one.
pub(crate) fn slip_in(wrong: WrongToken, line: &[u8]) -> Option<Slip>
    ensures { result ≡ slip_in wrong line.now }
{
    let column = wrong.at.column as usize;
    at_bytes(
        wrong,
        byte_at(line, column.saturating_sub(1)),
        byte_at(line, column),
    )
}
