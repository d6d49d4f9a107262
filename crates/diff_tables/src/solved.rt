//! The answer of the solver.
use plain_list::List;

/// Values that meet all literals, or a negative cycle of them.
#[derive(Drop)]
pub enum Solved {
    /// A value for each name. The value of name 0 is 0.
    Values(List<i32>),

    /// The places of the literals of a negative cycle, in its order.
    Cycle(List<u32>),
}
