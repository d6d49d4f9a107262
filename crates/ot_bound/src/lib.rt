//! Low certificates: whether bytes show that no document of fewer cells than a bound breaks a function, and where and
//! why not (docs/LEAST.md). Nothing here searches; what writes them stands above, on the same definitions.
//!
//! A low certificate has, after its first line with a level and a bound, a tree for each obligation of the level's
//! property on the documents of fewer cells: it shows that the property holds on all of them.
#![tactic(auto)]

mod bound;
mod header;
mod laws;
mod leading;
mod property;

pub use ask_core::NoMemory;
pub use bound::check_bound;
pub use header::write_low_header;
pub use laws::{
    bytes_have_one_low_judgement, low_certificates_are_sections,
    low_certificates_show_shorter_documents,
};
pub use ot_sections::{JudgeError, Refusal};
pub use property::{parts, parts_are_obligations};
