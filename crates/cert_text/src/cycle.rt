//! Cycles, byte by byte.
ghost use Rattle.std.specs.Prelude.{◌≡◌, ℕ, ◌<◌, ◌≤◌, ◌+◌, ◌^◌, List, ◌∷◌, [], ◌++◌, Some, IfSome, IfNone};
ghost use Rattle.cert_text.specs.Numbers.{AreShort, PICK_LIMIT};
ghost use Rattle.cert_text.specs.Cycles.{CycleStepsTo, IsBegunCycle, IsNoFront, IsShortNumber, cycle_text};

use ask_core::{MAX_PICKS, Picks};
use pick_digits::takes_digit;
use std::alloc::Global;

/// A cycle of which a front was read: `x`, whole numbers with a comma behind each, and digits of a
/// further one.
#[derive(Drop)]
pub struct Cycle {
    pub(crate) picks: Picks,
    pub(crate) number: Option<u32>,

    // How many bytes that is.
    pub(crate) len: u64,
}

/// What a byte makes of a cycle.
#[derive(Drop)]
pub(crate) enum CycleStep {
    /// More of it.
    More(Cycle),

    /// A whole cycle, of these numbers.
    Whole(Picks),

    /// The front of no cycle.
    Wrong,
}

impl Cycle {
    /// The front `x`.
    pub(crate) fn new(alloc: Global) -> Cycle
        ensures begun { IsBegunCycle result }
        ensures text { cycle_text result.picks result.number ≡ 120 ∷ [] }
    {
        Cycle {
            picks: Picks::new(alloc),
            number: None,
            len: 1,
        }
    }

    /// The byte behind what came.
    pub(crate) fn step(self, byte: u8) -> CycleStep
        requires begun { IsBegunCycle self }
        requires len { self.len < 2 ^ 63 }
        ensures { CycleStepsTo self byte result }
    {
        if b'0' <= byte && byte <= b'9' {
            return self.with_digit(byte);
        }
        if byte == b',' {
            return self.with_comma();
        }
        if byte == b';' {
            return self.with_end();
        }
        CycleStep::Wrong
    }

    fn with_digit(self, digit: u8) -> CycleStep
        requires begun { IsBegunCycle self }
        requires len { self.len < 2 ^ 63 }
        requires low { 48 ≤ digit }
        requires high { digit ≤ 57 }
        ensures { CycleStepsTo self digit result }
    {
        let Cycle { picks, number, len } = self;
        match number_with_digit(number, digit) {
            Some(number) => CycleStep::More(Cycle {
                picks,
                number: Some(number),
                len: len + 1,
            }),
            None => CycleStep::Wrong,
        }
    }

    fn with_comma(self) -> CycleStep
        requires begun { IsBegunCycle self }
        requires len { self.len < 2 ^ 63 }
        ensures { CycleStepsTo self 44 result }
    {
        let Cycle {
            mut picks,
            number,
            len,
        } = self;
        let Some(number) = number else {
            return CycleStep::Wrong;
        };
        if picks.as_slice().len() + 1 == MAX_PICKS {
            return CycleStep::Wrong;
        }
        picks.push(number);
        CycleStep::More(Cycle {
            picks,
            number: None,
            len: len + 1,
        })
    }

    fn with_end(self) -> CycleStep
        requires begun { IsBegunCycle self }
        ensures { CycleStepsTo self 59 result }
    {
        let Cycle {
            mut picks,
            number,
            len: _,
        } = self;
        let Some(number) = number else {
            return CycleStep::Wrong;
        };
        picks.push(number);
        CycleStep::Whole(picks)
    }
}

/// The number with a further digit, if it may have one: a leading zero has none, and a number has at most
/// five.
#[inline(always)]
pub(crate) fn number_with_digit(number: Option<u32>, digit: u8) -> Option<u32>
    requires short { IsShortNumber number }
    requires low { 48 ≤ digit }
    requires high { digit ≤ 57 }
    ensures grown { IfSome result (λ n. (n < PICK_LIMIT) × ((picks : List ℕ) →
        cycle_text picks (Some n) ≡ cycle_text picks number ++ digit ∷ [])) }
    ensures wrong { IfNone result ((picks : List ℕ) → AreShort picks → IsNoFront picks number digit) }
{
    let value = u32::from(digit - b'0');
    match number {
        None => Some(value),
        Some(number) if takes_digit(number) => Some(number * 10 + value),
        Some(_) => None,
    }
}
