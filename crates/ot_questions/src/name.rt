//! The names of the integers that an obligation asks about.
ghost use Rattle.std.specs.Prelude.{◌≡◌};
ghost use Rattle.ot_questions.specs.Names as names;

/// The name that stands for zero.
pub const ZERO: u8 = 0;

/// The length of the document.
pub const LENGTH: u8 = 1;

/// The index, counted from 0, at which the two final documents are compared.
pub const INDEX: u8 = 2;

/// One of the operations of an obligation. A pair has the first two.
#[derive(Clone, Copy, PartialEq, Eq)]
pub enum Who {
    A,
    B,
    C,
}

/// The name of an operation's position.
pub fn position_name(who: Who) -> u8
    ensures { result ≡ names.position_name who }
{
    match who {
        Who::A => 3,
        Who::B => 6,
        Who::C => 9,
    }
}

/// The name of the site that made an operation.
pub fn site_name(who: Who) -> u8
    ensures { result ≡ names.site_name who }
{
    match who {
        Who::A => 4,
        Who::B => 7,
        Who::C => 10,
    }
}

/// The name of the character that an insertion or an update puts.
pub fn char_name(who: Who) -> u8
    ensures { result ≡ names.char_name who }
{
    match who {
        Who::A => 5,
        Who::B => 8,
        Who::C => 11,
    }
}
