//! The text of proofs with lemmas: the tokens of their trees and their lines, each with one spelling.
//!
//! A proof is a header, a line and a tree for each obligation, and a last line. A tree is written in preorder without
//! separators: `?`, `.`, and cycles as in a certificate; `l` with up to 24 literals and a `;` begins a lemma; `c` with
//! a number and a `;` cites one.
//!
//! The layers above rely on one definition, what is *found at the front* of some bytes: a token or a line and the bytes
//! after it, or nothing, because no spelling begins so or because the bytes end within one. The calls answer it at a
//! place of a slice, and the laws join it with the spelling.
#![tactic(auto)]

mod laws;
mod line;
mod number;
mod token;
mod unread;
mod writer;

pub use ask_core::{NoMemory, Picks};
pub use cert_text::write_end;
pub use laws::{
    certificate_tokens_are_spelled_alike, lines_are_found_exactly, tokens_are_found_exactly,
};
pub use line::{read_end, read_header, read_line_end, read_ob};
pub use token::read_token;
pub use unread::Unread;
pub use writer::{write_header, write_line_end, write_ob_line, write_token};
