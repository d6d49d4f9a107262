//! How the bytes of a proof are judged, part by part from the front: whether they are a tree that shows its plan, and
//! where and why not. The plans with their starts, and how starts compare, are given.
//!
//! The layers above rely on `proof_judged`, which computes the judgement of any bytes: the level of a proof, or the
//! offset and the cause of what is refused first; and on `judge_tree`, which answers so of a tree.
#![tactic(auto)]

mod laws;
mod line;
mod refusal;
mod spelled;
mod tree;

pub use laws::{accepted_proofs_hold, refusals_stand};
pub use line::{judge_end, judge_header, judge_line_end, judge_ob};
pub use refusal::{ConfirmError, ProofRefusal};
pub use spelled::proofs_are_accepted_exactly;
pub use tree::{judge_tree, unread_part};
