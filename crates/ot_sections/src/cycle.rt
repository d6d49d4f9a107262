//! Cycles that are judged where they are read.
ghost use Rattle.std.specs.Prelude.{◌≡◌, ◌<◌, [], ◌∷◌, ◌++◌, length, slice_get, take, Some, IfSome};
ghost use Rattle.std.specs.Fmt.{decimal};
ghost use Rattle.cert_text.specs.Numbers.{PICK_LIMIT};
ghost use Rattle.ot_sections.specs.Cycles.{IsCycleFront};

use ask_core::MAX_PICKS;
use cert_check::Walk;
use cert_text::{number_front, short_number_front};
use diff_graph::Lit;

// The literal that a number names among some and a last one.
#[inline(always)]
fn literal_at(lits: &[Lit], last: Lit, pick: u32) -> Option<Lit>
    ensures { IfSome result (λ l. slice_get (lits.now ++ last ∷ []) pick ≡ Some l) }
{
    let place = pick as usize;
    if place < lits.len() {
        return Some(lits[place]);
    }
    if place > lits.len() {
        return None;
    }
    Some(last)
}

// The number at the front of some bytes, and how many digits it has: a short one alone, or any.
#[inline(always)]
fn number_at(bytes: &[u8], short: bool) -> Option<(u32, usize)>
    ensures { IfSome result (λ x. (x.0 < PICK_LIMIT) × (x.1 < length bytes.now) × (decimal x.0 ≡ take x.1 bytes.now)) }
{
    match short {
        true => short_number_front(bytes),
        false => number_front(bytes),
    }
}

// The same as `cycle_front`, of short numbers alone or of any.
#[inline(always)]
fn cycle_of(lits: &[Lit], last: Lit, bytes: &[u8], short: bool) -> Option<usize>
    ensures { IfSome result (IsCycleFront (lits.now ++ last ∷ []) bytes.now) }
{
    let (pick, len) = number_at(bytes, short)?;
    let lit = literal_at(lits, last, pick)?;
    let mut walk = Walk::along(lit);
    let mut at = len;
    for count in 1..MAX_PICKS + 1 {
        match bytes[at] {
            b',' => {
                at += 1;
                let (pick, len) = number_at(&bytes[at..], short)?;
                let lit = literal_at(lits, last, pick)?;
                walk = walk.further(lit)?;
                at += len;
            }
            b';' if walk.is_negative_cycle() => return Some(at + 1),
            _ => return None,
        }
    }
    None
}

// The same as `cycle_front`, of numbers of which some is long.
#[inline(never)]
fn long_cycle(lits: &[Lit], last: Lit, bytes: &[u8]) -> Option<usize>
    ensures { IfSome result (IsCycleFront (lits.now ++ last ∷ []) bytes.now) }
{
    cycle_of(lits, last, bytes, false)
}

/// How many of the bytes behind an `x` are its cycle, where that is a negative one of the literals, of which the last
/// one is given by itself. No list of its numbers is made. Where there is none, a reader and a checker say why.
// Most numbers are short: those of others are read once more, out of the loop of whoever reads.
#[inline(always)]
pub fn cycle_front(lits: &[Lit], last: Lit, bytes: &[u8]) -> Option<usize>
    ensures { IfSome result (IsCycleFront (lits.now ++ last ∷ []) bytes.now) }
{
    match cycle_of(lits, last, bytes, true) {
        Some(len) => Some(len),
        None => long_cycle(lits, last, bytes),
    }
}
