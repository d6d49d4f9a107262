//! What an operation leaves of a document, once done and once refused. Rows of their effect and of where they are
//! enabled are `proofs/OperationRows.antt`.
use ot_model::{Apply, Cell, Doc, Mode, Op, apply};
use std::alloc::AllocError;

const LIVE: Cell = Cell {
    ch: 'a',
    live: true,
};

const DEAD: Cell = Cell {
    ch: 'a',
    live: false,
};

fn is_refused(doc: &mut Doc) -> bool {
    let answer = apply(Mode::Tomb, &Op::Del { at: 1, site: 7 }, doc);
    matches!(answer, Err(Apply::NotEnabled)) && doc.cells() == [LIVE].as_slice()
}

fn leaves_a_tombstone(doc: &mut Doc) -> bool {
    let answer = apply(Mode::Tomb, &Op::Del { at: 0, site: 7 }, doc);
    answer.is_ok() && doc.cells() == [DEAD].as_slice()
}

#[test]
fn a_deletion_leaves_a_tombstone_or_is_refused(rt: HostRuntime) -> Result<(), AllocError> {
    let mut doc = Doc::new(rt.alloc());
    doc.push(LIVE)?;
    assert!(rt; is_refused(&mut doc));
    assert!(rt; leaves_a_tombstone(&mut doc));
    Ok(())
}
