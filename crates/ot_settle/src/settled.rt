//! What a search for a proof with lemmas comes to.
use fn_rules::ObName;
use ot_prove::Answer;
use ot_questions::Why;
use plan_proofs::{Questions, SpentCause};

/// What the obligations of a function at a level come to.
#[derive(Drop)]
pub enum Settled {
    /// All hold: the bytes of a proof, which was judged.
    Yes(Vec<u8>),

    /// One of them fails, after answers that some integers meet. Where it is a triple, the pairs hold.
    No {
        /// The obligation that fails.
        ob: ObName,

        /// The answers that lead to a failing end of it.
        answers: Vec<Answer>,

        /// How it fails there.
        why: Why,
    },

    /// Nothing is said of the function, for this cause.
    Spent(SpentCause),
}

/// What the obligations came to, how many questions were asked of all of them together, whether one was met that is
/// more than may be asked, and how many bytes of a proof were written.
#[derive(Drop)]
pub struct Settlement {
    pub settled: Settled,
    pub asked: Questions,
    pub over: bool,
    pub written: usize,
}
