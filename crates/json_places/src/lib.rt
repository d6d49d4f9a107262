//! Where a value stands in the bytes of a JSON text: at which byte it begins, and the line and the column of a byte.
//!
//! Of any bytes `value_offset` gives exactly what `value_at` of `specs/Values.antt` says. It looks at brackets, strings,
//! commas and blanks alone: whether the bytes are JSON is for their reader to say. To read in this order:
//! `specs/Spots.antt`, `specs/Values.antt`, `specs/Lines.antt`; `proofs/Examples.antt` computes small texts.
#![tactic(auto)]

mod line;
mod places;
mod spot;
mod walk;

pub use line::{LineColumn, line_column};
pub use places::Places;
pub use walk::value_offset;
