//! When two starts of an obligation have one value.
//!
//! A start is a place where a transformation begins. What is asked from there on depends on the earlier results that
//! are still read: on the kind, site and character of each, and on the integer at which it stands.
//!
//! The layers above rely on two promises: `compare` gives the conditions between two starts, or none where they do not
//! compare, exactly as `compare_starts` says; and by `starts_have_one_value` integers that meet them give both starts
//! one value, of any function.
#![tactic(auto)]

mod comparing;
mod laws;
mod marks;
mod start;

pub use comparing::{compare, still_read};
pub use laws::{results_stay_near, starts_have_one_value};
pub use marks::{marked_plans_are_plans, rules_keep_starts};
pub use start::{Results, StartAt};
