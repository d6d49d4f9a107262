//! Further digits of a number.
ghost use Rattle.std.specs.Prelude.{◌↔◌, ◌<◌, IsTrue};

/// Whether a further digit may stand behind those of a number: a leading zero has none, and a number has at most five.
#[inline(always)]
pub fn takes_digit(number: u32) -> bool
    ensures { IsTrue result ↔ ((0 < number) × (number < 10000)) }
{
    0 < number && number < 10_000
}
