//! What is wrong with a case or a session.

use thiserror::Error;

/// A part of a case or a session.
#[derive(Clone, Copy, Debug, PartialEq, Eq)]
pub enum Name {
    /// The document text under the key `doc`.
    Doc,

    /// The operations under the key `ops`.
    Ops,

    /// The orders under the key `orders`.
    Orders,

    /// The number of sites under the key `sites`.
    Sites,

    /// The events under the key `events`.
    Events,

    /// The cells of the document.
    Cells,
}

/// The first fault of a case or a session. Numbers count from 0.
#[derive(Debug, Drop, PartialEq, Eq, Error)]
pub enum CaseFault {
    /// The bytes aren't UTF-8, or no JSON.
    #[error("not JSON")]
    Json,

    /// The part is missing, or isn't what it should be.
    #[error("a part is missing or malformed")]
    Field(Name),

    /// The operation is of a kind that the function is not for.
    #[error("operation {0} is of another kind")]
    Kind(u32),

    /// The operation isn't enabled on the document.
    #[error("operation {0} is not enabled")]
    Enabled(u32),

    /// The two operations aren't allowed together.
    #[error("operations {0} and {1} are not allowed together")]
    Pair(u32, u32),

    /// The order doesn't name each operation exactly once.
    #[error("order {0} does not name each operation once")]
    Order(u32),

    /// There is more of the part than is allowed.
    #[error("too many")]
    Limit(Name),
}
