//! Why bytes are no certificate, and what else ends a judgement.
ghost use Rattle.std.specs.Prelude.{◌≡◌};
ghost use Rattle.refusals.specs.declared.refusal.JudgeError.TheVariants as judge;

use ask_core::NoMemory;
use cert_text::CertError;
use ot_outside::Failed;

/// Why bytes are no certificate of a function.
#[derive(Clone, Copy, PartialEq, Eq)]
pub enum Refusal {
    /// The bytes are no part that may stand here by its spelling.
    Token,

    /// The bytes end too early.
    Truncated,

    /// Bytes follow the last line.
    Trailing,

    /// A question where nothing is asked.
    NotAQuestion,

    /// An end where something is asked.
    NotDone,

    /// An end where the obligation fails.
    GoalFails,

    /// A number that names no answer on the way there.
    BadPick,

    /// Answers that don't chain.
    NotACycle,

    /// A sum of 0 or more.
    NotNegative,
}

/// What ends a judgement of bytes that are not accepted.
#[derive(Clone, Copy, PartialEq, Eq)]
pub enum JudgeError {
    /// The bytes are no certificate.
    Refused {
        /// How many bytes stand before what is refused, or all of them where they end too early.
        offset: u64,

        /// The cause.
        why: Refusal,
    },

    /// The feed failed.
    Failed,

    /// There was no memory.
    NoMemory,
}

impl From<NoMemory> for JudgeError {
    ghost from_gives = { λ _ e. e ≡ judge.NoMemory };

    fn from(_: NoMemory) -> JudgeError {
        JudgeError::NoMemory
    }
}

impl From<Failed> for JudgeError {
    ghost from_gives = { λ _ e. e ≡ judge.Failed };

    fn from(_: Failed) -> JudgeError {
        JudgeError::Failed
    }
}

impl From<CertError> for JudgeError {
    ghost use Rattle.refusals.specs.Spelling.{end_of_spelling};

    ghost from_gives = { λ c e. e ≡ end_of_spelling c };

    fn from(end: CertError) -> JudgeError {
        let (offset, why) = match end {
            CertError::BadToken(offset) => (offset, Refusal::Token),
            CertError::Truncated(offset) => (offset, Refusal::Truncated),
            CertError::Trailing(offset) => (offset, Refusal::Trailing),
        };
        JudgeError::Refused { offset, why }
    }
}
