//! Documents.
use ot_model::{Cell, Doc};
use std::alloc::{AllocError, Global};

const LIVE: Cell = Cell {
    ch: 'a',
    live: true,
};

const DEAD: Cell = Cell {
    ch: 'b',
    live: false,
};

fn doc_of(alloc: Global, cells: &[Cell]) -> Result<Doc, AllocError> {
    let mut doc = Doc::new(alloc);
    for cell in cells {
        doc.push(*cell)?;
    }
    Ok(doc)
}

fn is_live_and_dead(doc: &Doc) -> bool {
    !doc.is_empty()
        && doc.len() == 2
        && doc.cell(1) == DEAD
        && doc.cells() == [LIVE, DEAD].as_slice()
}

#[test]
fn a_document_is_its_cells_in_order(rt: HostRuntime) -> Result<(), AllocError> {
    let doc = doc_of(rt.alloc(), &[LIVE, DEAD])?;
    assert!(rt; is_live_and_dead(&doc));
    assert!(rt; doc.try_clone()?.same(&doc));
    assert!(rt; !doc.same(&Doc::new(rt.alloc())));
    Ok(())
}
