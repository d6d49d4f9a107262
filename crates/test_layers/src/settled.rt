//! A proof with lemmas that is found and judged.
use crate::whole_functions::sites;
use fn_rules::{Level, Rules};
use ot_confirm::judge_proof;
use ot_settle::{Settled, settle_all};
use std::alloc::{AllocError, Global};

fn is_proved(alloc: Global, rules: &Rules) -> Result<bool, AllocError> {
    let settlement = settle_all(alloc, rules, Level::Tp1, 1_000_000)?;
    match settlement.settled {
        Settled::Yes(bytes) => Ok(matches!(judge_proof(alloc, rules, &bytes), Ok(Level::Tp1))),
        _ => Ok(false),
    }
}

fn is_settled(alloc: Global) -> Result<bool, AllocError> {
    match sites(alloc) {
        Some(rules) => is_proved(alloc, &rules),
        None => Ok(false),
    }
}

#[test]
fn a_proof_that_is_found_is_one(rt: HostRuntime) {
    assert!(rt; is_settled(rt.alloc()) == Ok(true));
}
