//! Why reading stops.

ghost use Rattle.std.specs.Prelude.{◌≡◌};
ghost use Rattle.fn_text.specs.declared.stop.TextError.TheVariants.{NoMemory};

use fn_tokens::TextFault;
use std::alloc::{AllocError, AllocFailed};

/// Why reading stopped.
#[derive(Clone, Copy)]
pub enum TextError {
    /// A token cannot go on.
    Fault(TextFault),

    /// Memory ran out, which says nothing of the text.
    NoMemory,
}

impl From<AllocError> for TextError {
    ghost from_gives = { λ _ e. e ≡ NoMemory };

    fn from(_error: AllocError) -> TextError {
        TextError::NoMemory
    }
}

impl<T: Drop> From<AllocFailed<T>> for TextError {
    ghost from_gives = { λ _ e. e ≡ NoMemory };

    fn from(_failed: AllocFailed<T>) -> TextError {
        TextError::NoMemory
    }
}
