//! Why bytes are no proof, and what else ends a judgement.
ghost use Rattle.std.specs.Prelude.{◌≡◌};
ghost use Rattle.proof_sections.specs.declared.refusal.ConfirmError.TheVariants as confirm;

use ask_core::NoMemory;

/// Why bytes are no proof of a function.
#[derive(Clone, Copy, PartialEq, Eq)]
pub enum ProofRefusal {
    /// The bytes are no part that may stand here by its spelling.
    Token,

    /// The bytes end too early.
    Truncated,

    /// Bytes follow the last line.
    Trailing,

    /// A question where nothing is asked, or where a cycle is wanted.
    NotAQuestion,

    /// An end where something is asked.
    NotDone,

    /// An end where the obligation fails, or where a cycle is wanted.
    GoalFails,

    /// A number that names no literal of the list.
    BadPick,

    /// Literals that don't chain.
    NotACycle,

    /// A sum of 0 or more.
    NotNegative,

    /// A lemma or a citation where no transformation begins.
    NoStart,

    /// A lemma where as many are known as a proof may have.
    TooManyLemmas,

    /// A citation of no lemma whose tree has ended.
    UnknownLemma,

    /// A citation at a start that does not compare with that of the lemma.
    OtherStart,
}

/// What ends a judgement of bytes that are not accepted.
#[derive(Clone, Copy, PartialEq, Eq)]
pub enum ConfirmError {
    /// The bytes are no proof.
    Refused {
        /// How many bytes stand before the part that is refused, or all of them where they end too early.
        offset: u64,

        /// The cause.
        why: ProofRefusal,
    },

    /// There was no memory.
    NoMemory,
}

impl From<NoMemory> for ConfirmError {
    ghost from_gives = { λ _ e. e ≡ confirm.NoMemory };

    fn from(_: NoMemory) -> ConfirmError {
        ConfirmError::NoMemory
    }
}
