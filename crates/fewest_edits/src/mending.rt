//! What mending a function comes to.
use fn_rules::Rules;
use ot_mend::Edit;

/// What mending a function by so many edits at the most comes to.
#[derive(Drop)]
pub enum Mending {
    /// The function has the level, and comes first of those that do.
    Found {
        /// The function; the one that was mended where there are no edits.
        rules: Rules,

        /// The edits that lead to it, one after another.
        edits: Vec<Edit>,
    },

    /// None of these functions has the level.
    None,

    /// There are more functions than the budget allows, or more questions of one of them.
    Spent,
}
