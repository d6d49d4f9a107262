//! The decimal digits of the numbers in a certificate, which have at most five and no leading zero.
#![tactic(auto)]

mod digit;
mod tens;

pub use digit::takes_digit;
pub use tens::{tens_of, units_of};
