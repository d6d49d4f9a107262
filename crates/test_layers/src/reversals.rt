//! A function that does not take back what it makes itself.
use crate::whole_functions::sites;
use fn_rules::Rules;
use ot_audit::Back;
use ot_model::Op;
use ot_reverse::{are_alike, reverses};
use std::alloc::{AllocError, Global};

fn is_ins(op: Op, position: i64, char: char, of: u32) -> bool {
    op == Op::Ins {
        at: position,
        ch: char,
        site: of,
    }
}

// Whether it is an insertion of `a` by site 1 at the position.
fn is_there(op: Option<Op>, position: i64) -> bool {
    match op {
        Some(op) => is_ins(op, position, 'a', 1),
        None => false,
    }
}

// An insertion behind another one moves on by one, and comes back one further.
fn moves_on_twice(answer: &Back) -> bool {
    match answer {
        Back::No {
            doc,
            a,
            b,
            there,
            back,
        } => {
            doc.len() == 1
                && is_ins(*a, 1, 'a', 1)
                && is_ins(*b, 0, 'b', 2)
                && is_there(*there, 2)
                && is_there(*back, 3)
        }
        _ => false,
    }
}

fn is_reversed_as_told(alloc: Global, rules: &Rules) -> Result<bool, AllocError> {
    if !are_alike(rules, rules) {
        return Ok(false);
    }
    Ok(moves_on_twice(&reverses(alloc, rules, rules, 1_000_000)?))
}

fn is_reversed(alloc: Global) -> Result<bool, AllocError> {
    match sites(alloc) {
        Some(rules) => is_reversed_as_told(alloc, &rules),
        None => Ok(false),
    }
}

#[test]
fn a_function_need_not_reverse_itself(rt: HostRuntime) {
    assert!(rt; is_reversed(rt.alloc()) == Ok(true));
}
