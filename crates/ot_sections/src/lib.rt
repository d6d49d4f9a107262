//! Sections of certificates: whether what a feed gives is an obligation's line and a tree that fits its plan, one after
//! another, and where and why not. Nothing here searches or builds a table of constraints. To read in this order:
//!
//! 1. `specs/Certificates`: a tree for each obligation, over any family of plans, and a certificate of either level. A
//!    family is a function's plans on all documents, or on those of fewer cells than a bound, which trees then ask
//!    first.
//! 2. `specs/Parts`: which parts fit one after another, and how the bytes after them stop.
//! 3. `specs/Feeding`: what a feed may give, and `Leaves`, how a call leaves reader and feed whatever it judges.
//! 4. `specs/Sections`: the places between sections. `Stands`: what a judge knows where it stands.
//!
//! `ot_judge/specs/Refusals` says what the judgement of a certificate is, `ot_bound/specs/Lows` what a low certificate
//! is.
#![tactic(auto)]

mod cycle;
mod laws;
mod obligation;
mod part;
mod premise;
mod tree;

pub use cycle::cycle_front;
pub use laws::{
    all_bytes_are_judged, bytes_are_judged_once, feeds_have_bytes, sections_are_parts_that_fit,
};
pub use obligation::judge_in;
pub use part::{expect_part, next_part};
pub use premise::{MAX_BOUND, premise_below};
pub use refusals::{JudgeError, Refusal};
