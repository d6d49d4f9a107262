//! What a judge of proofs answers.
ghost use Rattle.std.specs.Prelude.{◌≡◌};
ghost use Rattle.cert_check.specs.declared.verdict.CheckError.TheVariants as check;
ghost use Rattle.proof_check.specs.declared.verdict.ProofError.TheVariants as error;

use ask_core::NoMemory;
use cert_check::CheckError;
use diff_graph::PickError;

/// Why a token of a proof is refused, in the order in which the causes of a token are tested.
#[derive(Clone, Copy, PartialEq, Eq)]
pub enum ProofError {
    /// A token of certificates, refused as it is in one; or want of memory. Where a cycle is wanted, `?` is
    /// refused as where nothing is asked, and `.` as where the plan fails.
    Tree(CheckError),

    /// `l` or `c` where no start is.
    NoStart,

    /// `l` where as many lemmas are known as a proof may have.
    TooManyLemmas,

    /// `c` with the number of no lemma whose tree has ended.
    UnknownLemma,

    /// `c` at a start that does not compare with that of the lemma.
    OtherStart,
}

impl From<NoMemory> for ProofError {
    ghost from_gives = { λ _ e. e ≡ error.Tree check.NoMemory };

    fn from(_e: NoMemory) -> ProofError {
        ProofError::Tree(CheckError::NoMemory)
    }
}

impl From<PickError> for ProofError {
    ghost use Rattle.cert_check.specs.Steps.{end_of_cycle};

    ghost from_gives = { λ p e. e ≡ error.Tree (end_of_cycle p) };

    fn from(e: PickError) -> ProofError {
        ProofError::Tree(CheckError::from(e))
    }
}
