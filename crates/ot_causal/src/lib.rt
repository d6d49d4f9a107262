//! Causal sessions: what was made where, in which orders sites may integrate it, and why sites that have
//! integrated the same hold the same document.
//!
//! Operations are numbered as they are made. One is before another where its site had integrated it when
//! the other was made there. A list of numbers has the newest member first; it is closed where each member
//! was integrated behind all that are before it. `form` is what an operation becomes behind a list, `state`
//! the document that a list leads to.
//!
//! The layers above rely on two promises. A session stays sound by its two steps, making and integrating.
//! Where the function has both properties, no site of a sound session is ever stuck, and two sites that
//! have integrated the same set hold one document.
#![tactic(auto)]

mod count_laws;
mod form_laws;
mod list_laws;
mod session_laws;

pub use count_laws::{
    counted_forms_need_not_be_sought, forms_are_sought_before_they_are_made,
    sites_count_no_more_than_the_bound, steps_count_what_they_seek,
};
pub use form_laws::{
    forms_are_made_from_shorter_ones, forms_keep_all_but_the_position, lists_lead_member_by_member,
    making_more_changes_nothing,
};
pub use list_laws::{
    closed_lists_are_told_by_their_counts, members_were_made, newest_open_members_are_found,
    open_members_may_be_taken_out, sublists_are_told_by_their_sets,
};
pub use session_laws::{
    both_properties_give_one_course, both_properties_give_one_document, steps_keep_sessions_sound,
};
