//! Causal sessions: sites that make operations, each on what it has integrated, and take those of other sites.
//!
//! An operation is *before* another one if the site of the other had integrated it when the other was made.
//! What a site executes of an operation is its *form* behind the list of what the site has integrated:
//! transformed against those that are not before it, as they were executed. A site holds an operation as long as
//! something before it is missing there.
//!
//! The layers above rely on these clauses: `make` answers exactly as its tests say, in their order; `take` does what
//! `HasTaken` says of its answer; what each site has integrated is a closed list that leads from the first document to
//! the site's own; where the function has both properties no operation is stuck; where the most forms that the
//! sites can count are no more than are allowed, the count is never spent; and `form_pairs` tells the transformations
//! that led to what a site executed of an operation.
#![tactic(auto)]

mod answer;
mod ending;
mod form;
mod laws;
mod limits;
mod made;
mod pairs;
mod session;
mod site;
mod steps;
mod table;
mod taking;

pub use answer::{Make, Take, Took};
pub use ending::SiteEnd;
pub use laws::{makes_have_one_outcome, sessions_begin_as_one, takes_have_one_answer};
pub use limits::{MAX_FORMS, MAX_MADE, MAX_SITES};
pub use pairs::FormPair;
pub use session::Session;
