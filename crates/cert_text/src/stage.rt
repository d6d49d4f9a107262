//! Where a reader stands.
use fn_rules::Level;

/// Where a reader stands. The first number is how many obligations came, the one of an open tree with
/// them, and the second one how many branches of the tree are open.
#[derive(Clone, Copy)]
pub enum Stage {
    Header,
    Line(Level, u32),
    Tree(Level, u32, u64),
    Over,
}
