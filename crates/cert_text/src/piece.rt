//! Whole tokens at the front of a piece of bytes, with the number and its digits at hand.
ghost use Rattle.std.specs.Prelude.{◌≡◌, ◌≤◌, ◌<◌, ◌^◌, [], ◌∷◌, length, take, IfSome};
ghost use Rattle.std.specs.Fmt.{decimal};
ghost use Rattle.ask_core.specs.declared.tree.Tok.TheVariants as token;
ghost use Rattle.cert_text.specs.Numbers.{IsSpellableCycle, PICK_LIMIT};
ghost use Rattle.cert_text.specs.Places.{open_after};
ghost use Rattle.cert_text.specs.Spelling.{IsSpellable, token_text};

use crate::cycle::number_with_digit;
use ask_core::{MAX_PICKS, Picks, Tok};
use std::alloc::Global;

// Puts the numbers of a cycle at the front of the bytes behind none: how many bytes that is with the `;` behind them.
#[inline(always)]
fn whole_numbers(bytes: &[u8], picks: &mut Picks) -> Option<usize>
    requires { picks.old ≡ [] }
    ensures { IfSome result (λ len. IsSpellableCycle picks.new × (len ≤ length bytes.now)
        × (token_text (token.Cycle picks.new) ≡ 120 ∷ take len bytes.now)) }
{
    let mut number = None;
    for (i, byte) in bytes.iter().enumerate() {
        let byte = *byte;
        if b'0' <= byte && byte <= b'9' {
            number = Some(number_with_digit(number, byte)?);
        } else if byte == b',' {
            if picks.as_slice().len() + 1 == MAX_PICKS {
                return None;
            }
            picks.push(number?);
            number = None;
        } else if byte == b';' {
            picks.push(number?);
            return Some(i + 1);
        } else {
            return None;
        }
    }
    // The cycle does not end within the bytes.
    None
}

/// Puts the token at the front of the bytes into `tok`, where they begin with a whole one: how many bytes it has.
/// Otherwise it is not said what `tok` is.
#[inline(always)]
pub fn whole_token(alloc: Global, bytes: &[u8], tok: &mut Tok) -> Option<usize>
    ensures { IfSome result (λ len. IsSpellable tok.new × (len ≤ length bytes.now)
        × (token_text tok.new ≡ take len bytes.now)) }
{
    let (first, rest) = bytes.split_first()?;
    match *first {
        b'?' => {
            *tok = Tok::Ask;
            Some(1)
        }
        b'.' => {
            *tok = Tok::Holds;
            Some(1)
        }
        b'x' => {
            *tok = Tok::Cycle(Picks::new(alloc));
            match tok {
                Tok::Cycle(picks) => Some(whole_numbers(rest, picks)? + 1),
                _ => None,
            }
        }
        _ => None,
    }
}

/// How many branches are open behind a token.
#[inline(always)]
pub fn branches_behind(branches: u64, tok: &Tok) -> u64
    requires some { 0 < branches }
    requires few { branches < 2 ^ 63 }
    ensures { result ≡ open_after branches tok.now }
{
    match tok {
        Tok::Ask => branches + 1,
        Tok::Holds => branches - 1,
        Tok::Cycle(_) => branches - 1,
    }
}

/// The same as `number_front`, where the number has at most three digits and four bytes or more stand there: most are
/// so, and are told at once.
#[inline(always)]
pub fn short_number_front(bytes: &[u8]) -> Option<(u32, usize)>
    ensures { IfSome result (λ x. (x.0 < PICK_LIMIT) × (x.1 < length bytes.now) × (decimal x.0 ≡ take x.1 bytes.now)) }
{
    if bytes.len() < 4 {
        return None;
    }
    let (first, second, third, fourth) = (bytes[0], bytes[1], bytes[2], bytes[3]);
    if first < b'0' || b'9' < first {
        return None;
    }
    let number = number_with_digit(None, first)?;
    if second < b'0' || b'9' < second {
        return Some((number, 1));
    }
    let number = number_with_digit(Some(number), second)?;
    if third < b'0' || b'9' < third {
        return Some((number, 2));
    }
    if b'0' <= fourth && fourth <= b'9' {
        return None;
    }
    let number = number_with_digit(Some(number), third)?;
    Some((number, 3))
}

/// The number of a cycle at the front of the bytes, and how many digits it has. Where the digits of no such number
/// stand there, or the bytes end with them, there is none.
#[inline(never)]
pub fn number_front(bytes: &[u8]) -> Option<(u32, usize)>
    ensures { IfSome result (λ x. (x.0 < PICK_LIMIT) × (x.1 < length bytes.now) × (decimal x.0 ≡ take x.1 bytes.now)) }
{
    if bytes.is_empty() {
        return None;
    }
    let first = bytes[0];
    if first < b'0' || b'9' < first {
        return None;
    }
    let mut number = number_with_digit(None, first)?;
    for i in 1..bytes.len() {
        let byte = bytes[i];
        if byte < b'0' || b'9' < byte {
            return Some((number, i));
        }
        number = number_with_digit(Some(number), byte)?;
    }
    None
}
