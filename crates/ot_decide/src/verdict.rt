//! What searches of obligations come to.
use fn_rules::ObName;
use ot_prove::Answer;
use ot_questions::Why;

/// What the search of a list of obligations comes to.
#[derive(Drop)]
pub enum SearchVerdict {
    /// All hold.
    AllHold {
        /// How many questions the budget still allows.
        left: u64,
    },

    /// One of them fails, after answers that some integers meet.
    Fails {
        /// The first obligation that fails.
        ob: ObName,

        /// The answers that lead to its first failing end.
        answers: Vec<Answer>,

        /// How it fails there.
        why: Why,
    },

    /// There are more questions than the budget allows.
    Spent,
}

/// What the obligations of a function at a level come to.
#[derive(Drop)]
pub enum Verdict {
    /// All hold.
    Yes {
        /// The bytes of a certificate.
        bytes: Vec<u8>,

        /// How many questions were asked of all of them together.
        asked: u64,
    },

    /// One of them fails, after answers that some integers meet.
    No {
        /// The first obligation that fails.
        ob: ObName,

        /// The answers that lead to its first failing end.
        answers: Vec<Answer>,

        /// How it fails there.
        why: Why,
    },

    /// There are more questions than the budget allows.
    Spent,
}
