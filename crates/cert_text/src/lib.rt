//! The text of certificates: the parts of a certificate, and their one spelling.
//!
//! A certificate is a header, a line and a tree for each obligation, and a last line. A tree is written in
//! preorder without separators: `?` is a question, `.` an end at which the plan holds, and `x` with numbers
//! between commas and a `;` a negative cycle. A number is decimal, without leading zeros and with at most
//! five digits.
//!
//! The reader above (`cert_reader`) relies on `part_step`, what a byte makes of the front of a part, and on `whole_token`;
//! the layers above on the definitions of what is read, and on the writers, which append the one spelling.
#![tactic(auto)]

mod cycle;
mod item;
mod laws;
mod line;
mod piece;
mod stage;
mod step;
mod tree;
mod writer;

pub use ask_core::{MAX_PICKS, NoMemory, Picks, Tok};
pub use cycle::Cycle;
pub use item::{CertError, Item, Part};
pub use laws::{
    all_bytes_are_read, parts_are_told_apart, read_certificates_are_written,
    written_certificates_are_read,
};
pub use line::{LineBytes, ob_line};
pub use piece::{branches_behind, number_front, short_number_front, whole_token};
pub use stage::Stage;
pub use step::{PartFront, PartStep, part_step};
pub use tree::{CycleNumbers, Tree};
pub use writer::{begin_ob, end_ob, write_end, write_header};
