//! What a checker answers.
ghost use Rattle.std.specs.Prelude.{◌≡◌};
ghost use Rattle.cert_check.specs.declared.verdict.CheckError.TheVariants as end;

use ask_core::NoMemory;
use diff_graph::PickError;

/// What an accepted token leaves.
#[derive(Clone, Copy, PartialEq, Eq)]
pub enum Progress {
    /// Places are still open.
    More,

    /// The token was the last one of a fitting tree.
    Done,
}

/// Why a token is refused.
#[derive(Clone, Copy, PartialEq, Eq)]
pub enum CheckError {
    /// `?` where nothing is asked.
    NotAQuestion,

    /// `.` where something is asked.
    NotDone,

    /// `.` where the plan fails.
    GoalFails,

    /// A cycle with a number that names no answer of the open path.
    BadPick,

    /// A cycle whose literals do not chain into a closed walk.
    NotACycle,

    /// A cycle whose offsets sum to 0 or more.
    NotNegative,

    /// The allocator had no memory.
    NoMemory,
}

impl From<NoMemory> for CheckError {
    ghost from_gives = { λ _ e. e ≡ end.NoMemory };

    fn from(_e: NoMemory) -> CheckError {
        CheckError::NoMemory
    }
}

impl From<PickError> for CheckError {
    ghost use Rattle.std.specs.Prelude.{◌≡◌};
    ghost use Rattle.cert_check.specs.Steps.{end_of_cycle};

    ghost from_gives = { λ p e. e ≡ end_of_cycle p };

    fn from(e: PickError) -> CheckError {
        match e {
            PickError::BadPick => CheckError::BadPick,
            PickError::NotACycle => CheckError::NotACycle,
            PickError::NotNegative => CheckError::NotNegative,
        }
    }
}
