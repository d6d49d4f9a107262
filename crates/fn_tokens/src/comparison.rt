//! Comparisons and offsets that are told by their bytes at once.

ghost use Rattle.std.specs.Prelude.{◌≡◌, ℕ, ◌+◌, ◌≤◌, Bool, true, false, ◌||◌, drop, length, IfSome, IsTrue, MatchOption};
ghost use Rattle.fn_rules.specs.Formulas.{other_side};
ghost use Rattle.fn_tokens.specs.Comparisons.{BeginsWith, BeginsWithOffset, IsByteOf, IsOfEach, byte_of};
ghost use Rattle.fn_tokens.specs.Comparisons.{digit_of, letter_of, place_in};
ghost use Rattle.fn_tokens.specs.Tokens.{is_digit, is_letter, tokens_from};

use crate::token::Sign;
use fn_rules::{Cmp, Side, Sort};

/// A comparison of two positions or of two sites, the left one of the operation on that side and the right one of the
/// other.
#[derive(Clone, Copy)]
pub struct FrontComparison {
    pub sort: Sort,
    pub left: Side,
    pub cmp: Cmp,
}

/// An offset behind a comparison of positions: a number that is added or taken away.
#[derive(Clone, Copy)]
pub struct FrontOffset {
    pub sign: Sign,
    pub number: u8,
}

// Whether a word ends before the byte.
#[inline(always)]
fn ends_word(byte: u8) -> bool
    ensures { IsTrue result → (is_letter byte || is_digit byte) ≡ false }
{
    (byte < b'a' || b'z' < byte) && (byte < b'0' || b'9' < byte)
}

#[inline(always)]
fn sort_of(byte: u8) -> Option<Sort>
    ensures letter { IfSome result (λ sort. byte ≡ letter_of sort) }
    ensures each { IfSome result IsOfEach }
{
    match byte {
        b'p' => Some(Sort::Pos),
        b's' => Some(Sort::Site),
        _ => None,
    }
}

// The side that a digit tells, and the digit of the other one.
#[inline(always)]
fn side_of(byte: u8) -> Option<(Side, u8)>
    ensures digit { IfSome result (λ r. byte ≡ digit_of r.0) }
    ensures other { IfSome result (λ r. r.1 ≡ digit_of (other_side r.0)) }
{
    match byte {
        b'1' => Some((Side::First, b'2')),
        b'2' => Some((Side::Second, b'1')),
        _ => None,
    }
}

#[inline(always)]
fn cmp_of(byte: u8) -> Option<Cmp>
    ensures { IfSome result (λ cmp. IsByteOf cmp byte) }
{
    match byte {
        b'<' => Some(Cmp::Lt),
        b'=' => Some(Cmp::Eq),
        _ => None,
    }
}

// The comparison that the first seven bytes spell, if they do and its last word ends with them.
#[inline(always)]
fn spelled(bytes: &[u8]) -> Option<FrontComparison>
    ensures ahead { IfSome result (λ c. (line column : ℕ) (after : Bool)
        → BeginsWith c (tokens_from (place_in line column after) bytes.now)
        (tokens_from (place_in line (column + 7) true) (drop 7 bytes.now))) }
    ensures within { IfSome result (λ _. 7 ≤ length bytes.now) }
{
    if bytes.len() < 8 {
        return None;
    }
    let sort = sort_of(bytes[0])?;
    let (left, right) = side_of(bytes[1])?;
    let cmp = cmp_of(bytes[3])?;
    if bytes[2] != b' ' || bytes[4] != b' ' {
        return None;
    }
    if bytes[5] != bytes[0] || bytes[6] != right || !ends_word(bytes[7]) {
        return None;
    }
    Some(FrontComparison { sort, left, cmp })
}

/// The comparison of two positions or of two sites at the front of the bytes, or behind one space there, and how many
/// bytes it has with that; none where it is spelled otherwise.
#[inline(always)]
pub(crate) fn comparison_front(bytes: &[u8]) -> Option<(FrontComparison, usize)>
    ensures ahead { IfSome result (λ r. (line column : ℕ) (after : Bool)
        → BeginsWith r.0 (tokens_from (place_in line column after) bytes.now)
        (tokens_from (place_in line (column + r.1) true) (drop r.1 bytes.now))) }
    ensures within { IfSome result (λ r. r.1 ≤ length bytes.now) }
{
    match bytes {
        [b' ', behind @ ..] => Some((spelled(behind)?, 8)),
        _ => Some((spelled(bytes)?, 7)),
    }
}

#[inline(always)]
fn sign_of(byte: u8) -> Option<Sign>
    ensures { IfSome result (λ sign. byte ≡ byte_of sign) }
{
    match byte {
        b'+' => Some(Sign::Plus),
        b'-' => Some(Sign::Minus),
        _ => None,
    }
}

// The number of the digit, if it is one.
#[inline(always)]
fn value_of(byte: u8) -> Option<u8>
    ensures { MatchOption result (is_digit byte ≡ false) (λ value. (byte ≡ 48 + value) × (value ≤ 9)) }
{
    if byte < b'0' || b'9' < byte {
        return None;
    }
    Some(byte - b'0')
}

/// The offset of at most two digits that the bytes begin with, spelled with a space before its sign and one behind it,
/// and how many bytes it has; none where it is spelled otherwise.
#[inline(always)]
pub(crate) fn offset_front(bytes: &[u8]) -> Option<(FrontOffset, usize)>
    ensures ahead { IfSome result (λ r. (line column : ℕ)
        → BeginsWithOffset r.0 (tokens_from (place_in line column true) bytes.now)
        (tokens_from (place_in line (column + r.1) true) (drop r.1 bytes.now))) }
    ensures within { IfSome result (λ r. r.1 ≤ length bytes.now) }
{
    if bytes.len() < 6 || bytes[0] != b' ' || bytes[2] != b' ' {
        return None;
    }
    let sign = sign_of(bytes[1])?;
    let first = value_of(bytes[3])?;
    let Some(second) = value_of(bytes[4]) else {
        let offset = FrontOffset {
            sign,
            number: first,
        };
        return Some((offset, 4));
    };
    match value_of(bytes[5]) {
        None => {
            let number = 10 * first + second;
            Some((FrontOffset { sign, number }, 5))
        }
        Some(_) => None,
    }
}
