//! Why reading stops.
ghost use Rattle.std.specs.Prelude.{◌≡◌};
ghost use Rattle.case_json.specs.declared.fault.CaseFault.TheVariants.{Json};
ghost use Rattle.case_json.specs.declared.stop.CaseError.TheVariants.{Fault, NoMemory};

use crate::fault::CaseFault;
use std::alloc::{AllocError, AllocFailed};
use thiserror::Error;

/// Why reading stopped.
#[derive(Debug, Drop, PartialEq, Eq, Error)]
pub enum CaseError {
    /// What is read has a fault.
    #[error("{0}")]
    Fault(CaseFault),

    /// Memory ran out, which says nothing of what is read.
    #[error("out of memory")]
    NoMemory,
}

impl From<CaseFault> for CaseError {
    ghost from_gives = { λ fault e. e ≡ Fault fault };

    fn from(fault: CaseFault) -> CaseError {
        CaseError::Fault(fault)
    }
}

impl From<AllocError> for CaseError {
    ghost from_gives = { λ _ e. e ≡ NoMemory };

    fn from(_: AllocError) -> CaseError {
        CaseError::NoMemory
    }
}

impl<T: Drop> From<AllocFailed<T>> for CaseError {
    ghost from_gives = { λ _ e. e ≡ NoMemory };

    fn from(_: AllocFailed<T>) -> CaseError {
        CaseError::NoMemory
    }
}

impl From<serde_json::Error> for CaseError {
    ghost use Rattle.serde_json.specs.Errors.{IsMemory};
    ghost use Rattle.serde_json.specs.declared.error.Error as json;

    ghost from_gives = { λ error e. (IsMemory error → e ≡ NoMemory) × (¬ (IsMemory error) → e ≡ Fault Json) };

    fn from(error: serde_json::Error) -> CaseError {
        if error.is_memory() {
            CaseError::NoMemory
        } else {
            CaseError::Fault(CaseFault::Json)
        }
    }
}
