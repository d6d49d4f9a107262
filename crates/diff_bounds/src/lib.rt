//! A closed table of distances in arrays, which is copied by value.
//!
//! A table keeps, for each ordered pair of names `x`, `y`, the least `k` for which `x <= y + k`
//! follows from the literals added so far, or that none follows. Beside each offset it keeps where a
//! chain of these literals begins that shows it.
//!
//! The layers above rely on these clauses, each of which holds for every list that the table stands
//! for: `allows` is true exactly where some integers meet the list and the literal; after `add` the
//! table stands for the list with the literal at its end; `why_not` gives a negative cycle.
#![tactic(auto)]

mod bounds;
mod rows;

pub use bounds::Bounds;
pub use diff_graph::NoMemory;
