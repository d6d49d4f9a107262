//! The obligations of a function. Rows of both levels are `proofs/FunctionRows.antt`.
use fn_rules::{Head, Level, ObName, obligations};
use ot_model::{Kind, Mode};
use std::alloc::AllocError;

const BOTH: Head = Head {
    mode: Mode::Plain,
    ins: true,
    del: true,
    upd: false,
    sites_differ: true,
    chars_differ: false,
};

fn are_pairs(names: &[ObName]) -> bool {
    use Kind::{Del, Ins};
    names
        == [
            ObName::Pair(Ins, Ins),
            ObName::Pair(Ins, Del),
            ObName::Pair(Del, Del),
        ]
        .as_slice()
}

#[test]
fn obligations_are_those_of_the_kinds(rt: HostRuntime) -> Result<(), AllocError> {
    let names = obligations(rt.alloc(), &BOTH, Level::Tp1)?;
    assert!(rt; are_pairs(names.as_slice()));
    Ok(())
}
