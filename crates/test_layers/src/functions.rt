//! Functions on one kind that several rows speak of: their operations stay as and where they are, behind all others.
use fn_rules::{
    Atom, Block, Case, Cmp, Guard, Head, NoMemory, Res, Rules, Side, Sort, is_within_limits,
};
use ot_model::{Kind, Mode};
use std::alloc::Global;
use std::process::Abort;

/// Deletions that leave tombstones.
pub(crate) const MARKS: Head = Head {
    mode: Mode::Tomb,
    ins: false,
    del: true,
    upd: false,
    sites_differ: false,
    chars_differ: false,
};

/// The position of the first operation is less than that of the second one.
pub(crate) const BEFORE: Atom = Atom {
    sort: Sort::Pos,
    left: Side::First,
    cmp: Cmp::Lt,
    k: 0,
};

fn stays(guard: Guard) -> Case {
    Case {
        guard,
        res: Res::Keep {
            base: Side::First,
            k: 0,
        },
    }
}

// The function whose one block has these cases.
fn of_kind(
    rt: &impl Abort,
    alloc: Global,
    head: Head,
    kind: Kind,
    cases: Vec<Case>,
) -> Result<Rules, NoMemory> {
    let mut blocks = Vec::new(alloc);
    blocks.push(Block {
        first: kind,
        second: kind,
        cases,
    })?;
    assert!(rt; is_within_limits(&head, &blocks));
    Ok(Rules::build(head, blocks))
}

/// The function of one case on operations of a kind.
pub(crate) fn staying(
    rt: &impl Abort,
    alloc: Global,
    head: Head,
    kind: Kind,
) -> Result<Rules, NoMemory> {
    let mut cases = Vec::new(alloc);
    cases.push(stays(Guard::True))?;
    Ok(of_kind(rt, alloc, head, kind, cases)?)
}

/// A function on deletions whose cases ask which one is first.
pub(crate) fn asking(rt: &impl Abort, alloc: Global) -> Result<Rules, NoMemory> {
    let mut cases = Vec::new(alloc);
    cases.push(stays(Guard::Atom(BEFORE)))?;
    cases.push(stays(Guard::True))?;
    Ok(of_kind(rt, alloc, MARKS, Kind::Del, cases)?)
}
