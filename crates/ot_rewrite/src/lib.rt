//! The rules that rewrite a goal until a question or an end stands at its front.
#![tactic(auto)]

mod choosing;
mod comparing;
mod delivering;
mod ends;
mod forms;
mod front;
mod known;
mod laws;
mod question;
mod rewriting;
mod simplifying;
mod splitting;
mod stepping;

pub use choosing::{Trial, next_case};
pub use comparing::same_finished;
pub use front::Front;
pub use laws::{rules_keep_what_is_asked, rules_leave_what_forms_leave};
pub use question::Split;
pub use rewriting::rewrite;
pub use simplifying::{front_of, simplify};
pub use splitting::split;
pub use stepping::{step, step_front};
