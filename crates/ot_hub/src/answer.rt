//! What is answered where a client makes an operation, sends one or receives one.
ghost use Rattle.std.specs.Prelude.{◌≡◌};
ghost use Rattle.ot_hub.specs.declared.answer.Edit.TheVariants as edits;
ghost use Rattle.ot_hub.specs.declared.answer.Move.TheVariants as moves;

use std::alloc::AllocError;

/// Why no operation was made, in the order of the tests. The hub is unchanged, but for `NoMemory`.
#[derive(Clone, Copy, PartialEq, Eq)]
pub enum Edit {
    /// There is no such client.
    NoSite,

    /// The operation is another client's, or nop.
    WrongSite,

    /// The function is not for operations of this kind.
    WrongKind,

    /// The operation is not enabled on the client's document.
    NotEnabled,

    /// As many operations were made as are allowed.
    Full,

    /// There was no memory. The hub is closed, and otherwise unchanged.
    NoMemory,
}

impl From<AllocError> for Edit {
    ghost from_gives = { λ _ e. e ≡ edits.NoMemory };

    fn from(_: AllocError) -> Edit {
        Edit::NoMemory
    }
}

/// Whether an operation was moved, from a client to the server or from the log to a client.
#[derive(Clone, Copy, PartialEq, Eq)]
pub enum Moved {
    /// It was moved.
    Done,

    /// There was none to move. The hub is unchanged.
    Nothing,
}

/// Why no operation was moved, in the order of the tests.
#[derive(Clone, Copy, PartialEq, Eq)]
pub enum Move {
    /// There is no such client. The hub is unchanged.
    NoSite,

    /// The operation can't be carried over what it crossed, or what it becomes isn't enabled. The hub is
    /// closed, and otherwise unchanged.
    Stuck,

    /// There was no memory. The hub is closed, and otherwise unchanged.
    NoMemory,
}

impl From<AllocError> for Move {
    ghost from_gives = { λ _ e. e ≡ moves.NoMemory };

    fn from(_: AllocError) -> Move {
        Move::NoMemory
    }
}
