//! A tree that is written by what a search showed, of a plan without starts. Trees of obligations, and how many questions
//! a search asks, are rows of `checks/tables/settle.rows`.
use crate::two_names::TwoNames;
use ask_core::NoMemory;
use proof_search::search;
use proof_trees::Startless;
use proof_writer::{TreeEnd, write_tree};
use std::alloc::Global;

// The tree of the plan, whose second question is refuted by the answers to both.
const TREE: &str = "??x0,1;..";

/// Whether the plan is searched with two questions, and its tree written in so many bytes.
fn is_written(alloc: Global, most: usize) -> Result<bool, NoMemory> {
    let mut asker = Startless::new(TwoNames { strict: true });
    let sought = search(alloc, &mut asker, 2)?;
    let mut bytes = Vec::new(alloc);
    let tree = write_tree(alloc, &mut asker, &sought.lemmas, 2, most, &mut bytes)?;
    let is_whole = tree.ending == TreeEnd::Whole && sought.asked == 2;
    Ok(is_whole && bytes.as_slice() == TREE.as_bytes())
}

#[test]
fn a_tree_is_written_within_its_bytes(rt: HostRuntime) {
    assert!(rt; is_written(rt.alloc(), 9) == Ok(true));
    assert!(rt; is_written(rt.alloc(), 8) == Ok(false));
}
