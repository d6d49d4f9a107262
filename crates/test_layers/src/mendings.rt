//! The text of a function after an edit, and the fewest edits that make a function right.
use crate::functions::{MARKS, staying};
use fewest_edits::{Decider, Decision, Mending, mend_by};
use fn_rules::{Level, NoMemory, Rules};
use mend_texts::mended_text;
use ot_mend::{Edit, edited};
use ot_model::Kind;
use std::alloc::{AllocError, Global};
use std::test::Fail;

// The text of a function after an assumption is put in.
fn assuming(alloc: Global, rules: &Rules) -> Result<Vec<u8>, AllocError> {
    match edited(alloc, rules, &Edit::AssumeSites)? {
        Some(_) => mended_text(alloc, rules, &[Edit::AssumeSites]),
        None => Ok(Vec::new(alloc)),
    }
}

const AS_IT_WAS: &[u8] =
    b"# as it was\notfn 1\ntext tomb\nkinds del\nblock del del\ncase true : del p1\nend\n";

const ASSUMING: &[u8] =
    b"# assumes more: sites differ\notfn 1\ntext tomb\nkinds del\nassume sites differ\nblock del del\ncase true : del p1\nend\n";

#[test]
fn no_edits_leave_it_as_it_was(rt: HostRuntime) -> Result<(), Fail> {
    let alloc = rt.alloc();
    let rules = staying(&rt, alloc, MARKS, Kind::Del)?;
    let text = mended_text(alloc, &rules, &[])?;
    assert!(rt; text.as_slice() == AS_IT_WAS);
    Ok(())
}

#[test]
fn what_is_assumed_more_is_told(rt: HostRuntime) -> Result<(), Fail> {
    let alloc = rt.alloc();
    let rules = staying(&rt, alloc, MARKS, Kind::Del)?;
    let text = assuming(alloc, &rules)?;
    assert!(rt; text.as_slice() == ASSUMING);
    Ok(())
}

// Right is here what assumes that sites differ.
#[derive(Drop)]
struct BySites;

impl Decider for BySites {
    ghost decides = { λ level f d. Unit {0} };

    fn decide(&mut self, _: Global, rules: &Rules, _: Level) -> Result<Decision, NoMemory> {
        if rules.head().sites_differ {
            Ok(Decision::Yes)
        } else {
            Ok(Decision::No)
        }
    }
}

// How many edits make the function right, where it is found; none where it is not, or nothing is known.
fn fewest(alloc: Global, rules: &Rules, most: u32, budget: u64) -> Result<Option<usize>, NoMemory> {
    match mend_by(alloc, &mut BySites, rules, Level::Tp1, most, budget)? {
        Mending::Found { edits, .. } => Ok(Some(edits.len())),
        Mending::None | Mending::Spent => Ok(None),
    }
}

#[test]
fn the_fewest_edits_are_found(rt: HostRuntime) -> Result<(), Fail> {
    let alloc = rt.alloc();
    let rules = staying(&rt, alloc, MARKS, Kind::Del)?;
    assert!(rt; fewest(alloc, &rules, 2, 1_000)? == Some(1));
    assert!(rt; fewest(alloc, &rules, 0, 1_000)?.is_none());
    assert!(rt; fewest(alloc, &rules, 2, 1)?.is_none());
    Ok(())
}
