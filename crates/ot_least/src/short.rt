//! What the search of the shortest document comes to.
use fn_rules::ObName;
use ot_prove::Answer;
use ot_questions::Why;

/// What a function comes to whose shortest document is sought on which it breaks a property.
#[derive(Drop)]
pub enum Short {
    /// It has both properties.
    Fine,

    /// It breaks one: the first, or else the second.
    Least {
        /// The obligation that fails on the shortest documents, which is one of the broken property.
        ob: ObName,

        /// The answers that lead to a failing end of it.
        answers: Vec<Answer>,

        /// How it fails there.
        why: Why,

        /// How many cells the shortest documents have.
        cells: u32,

        /// The bytes of a low certificate: none with fewer cells breaks the property.
        cert: Vec<u8>,
    },

    /// The document of the first failing end has more cells than a low certificate can speak of.
    TooLong,

    /// One of the searches asks more than its budget allows.
    Spent,
}
