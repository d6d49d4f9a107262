//! The shortest document that breaks a function, with the certificate that none is shorter.
use crate::whole_functions::sites;
use fn_rules::{Level, ObName, Rules};
use ot_bound::check_bound;
use ot_least::{Short, shortest};
use ot_model::Kind;
use ot_outside::SliceFeed;
use std::alloc::{AllocError, Global};

// Whether the bytes show that no document without cells breaks TP2.
fn is_bound(alloc: Global, rules: &Rules, bytes: &[u8]) -> bool {
    if bytes.len() >= 1_048_576 {
        return false;
    }
    let mut feed = SliceFeed::new(bytes);
    matches!(check_bound(alloc, rules, &mut feed), Ok((Level::Tp2, 1)))
}

// An insertion, a deletion and an insertion break TP2 on one cell.
fn is_least(alloc: Global, rules: &Rules) -> Result<bool, AllocError> {
    match shortest(alloc, rules, 1_000_000)? {
        Short::Least {
            ob,
            cells,
            cert,
            ..
        } => Ok(
            ob == ObName::Triple(Kind::Ins, Kind::Del, Kind::Ins)
                && cells == 1
                && is_bound(alloc, rules, &cert),
        ),
        _ => Ok(false),
    }
}

fn is_shortest(alloc: Global) -> Result<bool, AllocError> {
    match sites(alloc) {
        Some(rules) => is_least(alloc, &rules),
        None => Ok(false),
    }
}

#[test]
fn a_shortest_document_has_a_certificate(rt: HostRuntime) {
    assert!(rt; is_shortest(rt.alloc()) == Ok(true));
}
