//! Questions at open places.

use diff_graph::Lit;

/// A question of an asker: the literal that is asked, and the nodes for its two answers.
#[derive(Clone, Copy)]
pub struct Question<N> {
    pub lit: Lit,
    pub yes: N,
    pub no: N,
}
