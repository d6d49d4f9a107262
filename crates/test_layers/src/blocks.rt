//! The ordered pairs of kinds for which a function has blocks.
use crate::functions::MARKS;
use fn_rules::{Head, NoMemory, blocks};
use ot_model::Kind;
use std::alloc::Global;

fn are_those_of_two_kinds(alloc: Global) -> Result<bool, NoMemory> {
    use Kind::{Del, Ins};
    let pairs = blocks(alloc, &Head { ins: true, ..MARKS })?;
    Ok(pairs.as_slice() == [(Ins, Ins), (Ins, Del), (Del, Ins), (Del, Del)].as_slice())
}

#[test]
fn a_function_has_a_block_for_each_ordered_pair_of_its_kinds(rt: HostRuntime) {
    assert!(rt; are_those_of_two_kinds(rt.alloc()) == Ok(true));
}
