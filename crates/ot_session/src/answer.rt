//! What is answered where an operation is made or taken.
ghost use Rattle.std.specs.Prelude.{◌≡◌};
ghost use Rattle.ot_session.specs.declared.answer.Make.TheVariants as makes;
ghost use Rattle.ot_session.specs.declared.answer.Take.TheVariants as takes;

use plain_list::List;
use std::alloc::AllocError;

/// Why no operation was made, in the order of the tests. The session is unchanged, but for `NoMemory`.
#[derive(Clone, Copy, PartialEq, Eq)]
pub enum Make {
    /// There is no such site.
    NoSite,

    /// The operation is another site's, or nop.
    WrongSite,

    /// The function is not for operations of this kind.
    WrongKind,

    /// The operation is not enabled on the site's document.
    NotEnabled,

    /// As many operations were made as are allowed.
    Full,

    /// There was no memory. The session is closed, and otherwise unchanged.
    NoMemory,
}

impl From<AllocError> for Make {
    ghost from_gives = { λ _ e. e ≡ makes.NoMemory };

    fn from(_: AllocError) -> Make {
        Make::NoMemory
    }
}

/// What was done with an operation that was taken.
#[derive(Drop)]
pub enum Took {
    /// The operation was integrated, and then held ones; these are their numbers, in order.
    Done(List<u32>),

    /// An operation before it isn't integrated at the site yet. It is held there.
    Held,

    /// It is integrated or held at the site already.
    Repeat,
}

/// Why nothing more was taken. The first two are tested first, in this order, and leave the session unchanged; the
/// others close it, and what was integrated before stays integrated.
#[derive(Clone, Copy, PartialEq, Eq)]
pub enum Take {
    /// There is no such site.
    NoSite,

    /// No operation with this number was made.
    NoOp,

    /// This operation's form does not exist, or is not enabled on the site's document.
    Stuck(u32),

    /// As many forms were counted as are allowed, and a further one is wanted.
    Spent,

    /// There was no memory.
    NoMemory,
}

impl From<AllocError> for Take {
    ghost from_gives = { λ _ e. e ≡ takes.NoMemory };

    fn from(_: AllocError) -> Take {
        Take::NoMemory
    }
}
