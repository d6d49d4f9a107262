//! What guards reach, of deletions that leave tombstones, with a budget that is just enough and one that is not. The
//! operations at which a case is taken, and those at which two functions differ, are rows of `checks/tables/audit.rows`
//! and `checks/tables/same.rows`.
use crate::functions::{MARKS, staying};
use fn_rules::NoMemory;
use ot_audit::{Agree, Audit, Found, Same, Target, agree, audit_all, reach, same_all};
use ot_model::Kind;
use std::alloc::Global;
use std::process::Abort;

fn is_audited(rt: &impl Abort, alloc: Global) -> Result<bool, NoMemory> {
    let rules = staying(rt, alloc, MARKS, Kind::Del)?;
    let audit = audit_all(alloc, &rules, 2)?;
    let early = audit_all(alloc, &rules, 1)?;
    Ok(matches!(audit, Audit::Blocks(_)) && matches!(early, Audit::Spent))
}

#[test]
fn two_questions_are_enough_for_a_case(rt: HostRuntime) {
    assert!(rt; is_audited(&rt, rt.alloc()) == Ok(true));
}

fn is_compared(rt: &impl Abort, alloc: Global) -> Result<bool, NoMemory> {
    let rules = staying(rt, alloc, MARKS, Kind::Del)?;
    let same = same_all(alloc, &rules, &rules, 2)?;
    let early = same_all(alloc, &rules, &rules, 1)?;
    Ok(same == Same::Everywhere && early == Same::Spent)
}

#[test]
fn two_questions_are_enough_for_a_comparison(rt: HostRuntime) {
    assert!(rt; is_compared(&rt, rt.alloc()) == Ok(true));
}

fn is_total(rt: &impl Abort, alloc: Global) -> Result<bool, NoMemory> {
    let rules = staying(rt, alloc, MARKS, Kind::Del)?;
    assert!(rt; rules.head().declares_pair(Kind::Del, Kind::Del));
    let gap = reach(alloc, &rules, Kind::Del, Kind::Del, Target::Open, 2)?;
    let early = reach(alloc, &rules, Kind::Del, Kind::Del, Target::Open, 1)?;
    let agreed = agree(alloc, &rules, &rules, Kind::Del, Kind::Del, 2)?;
    Ok(gap == Found::Never && early == Found::Spent && agreed == Agree::Same)
}

#[test]
fn a_block_whose_last_guard_is_true_is_nowhere_open(rt: HostRuntime) {
    assert!(rt; is_total(&rt, rt.alloc()) == Ok(true));
}
