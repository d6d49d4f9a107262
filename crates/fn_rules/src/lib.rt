//! Transformation functions as guarded cases, what one transformation gives, and the two properties.
//!
//! A function has a head (its mode, its kinds and what it assumes) and, for each ordered pair of its
//! kinds, a list of cases. A case is a guard and a result. The first case whose guard is true at two
//! operations says what the first of them becomes when the second was executed before it.
//!
//! The layers above rely on the definitions `transform_of`, `IsAllowed`, `HasTp1` and `HasTp2`.
#![tactic(auto)]

mod form_laws;
mod function;
mod guard;
mod laws;
mod limits;
mod obligation;
mod rules;
mod transformation;
mod truth;

pub use form_laws::{
    both_properties_hold_of_forms, enabled_operations_are_near, functions_keep_forms,
    properties_hold_at_each_length, tp1_holds_of_forms,
};
pub use function::{Block, Case, Head, Level, ObName, Res};
pub use guard::{Atom, Cmp, Guard, Side, Sort, Tightness};
pub use laws::{
    allowed_is_symmetric, cases_are_valid, characters_are_compared_where_they_are,
    functions_are_equal_by_their_cases, levels_have_few_obligations, nop_changes_nothing,
    nop_stays_nop, obligations_are_those_of_the_kinds, properties_are_symmetric, rules_are_valid,
    tests_decide_their_facts, transform_keeps_all_but_the_position, transform_keeps_allowed,
    transform_stays_near, undeclared_pairs_have_no_cases,
};
pub use limits::{MAX_ATOMS, MAX_CASES, MAX_NESTING, MAX_OFFSET, MOST_ROUNDS};
pub use obligation::{blocks, obligations, pairs, triples};
pub use rules::{Rules, is_within_limits};
pub use std::alloc::AllocError as NoMemory;
pub use transformation::{allowed, is_integrable, transform};
pub use truth::holds;
