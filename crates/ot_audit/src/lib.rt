//! What the guards of a function reach: whether a case is ever taken, whether a block is ever open, and whether two
//! functions agree on a block, each said of all operations.
//!
//! Each is asked as a goal, of the positions of two operations, of what is assumed to differ, and of the guards in
//! their order. An end of its plan that fails is what is sought. The goal is searched as an obligation is, and the
//! least values of its first failing end name two operations.
//!
//! The layers above rely on `audit_all` and `same_all`, whose answers say of all operations what is so, and on the law
//! that a function and a budget have one answer.
#![tactic(auto)]

mod agreeing;
mod auditing;
mod audits;
mod back;
mod comparing;
mod finding;
mod found;
mod goals;
mod laws;
mod reaching;
mod target;

pub use agreeing::agree;
pub use ask_core::NoMemory;
pub use auditing::audit_all;
pub use audits::{Audit, BlockAudit, Same};
pub use back::Back;
pub use comparing::same_all;
pub use finding::seek;
pub use found::{Agree, Found, Sought};
pub use goals::{by_case, difference_goal, if_allowed, target_goal, unless_one_place};
pub use laws::{
    findings_are_one, findings_tell_of_all_operations, functions_that_are_same_agree_everywhere,
    goals_are_searchable, goals_fail_where_it_is_sought, meant_operations_are_not_negative,
};
pub use reaching::reach;
pub use target::Target;
