//! A path of nodes that are numbers. More of it are rows of `proofs/JudgingRows.antt`.
use ask_core::Path;
use diff_graph::Lit;
use std::test::Fail;

const ASKED: Lit = Lit { x: 0, y: 1, k: 0 };

const DENIED: Lit = Lit { x: 1, y: 0, k: -1 };

fn is_at(path: &Path<u8>, node: u8, answers: &[Lit]) -> bool {
    path.is_open() && path.node() == node && path.answers() == answers
}

#[test]
fn a_close_leads_to_the_part_for_no(rt: HostRuntime) -> Result<(), Fail> {
    let mut path = Path::new(rt.alloc(), 0u8);
    path.ask(ASKED, 1, 2)?;
    assert!(rt; is_at(&path, 1, &[ASKED]));
    path.close();
    assert!(rt; is_at(&path, 2, &[DENIED]));
    path.close();
    assert!(rt; !path.is_open());
    Ok(())
}

#[test]
fn a_part_for_no_is_put_where_there_is_room(rt: HostRuntime) -> Result<(), Fail> {
    let mut path = Path::new(rt.alloc(), 0u8);
    let put = path.put_no(ASKED, 1);
    assert!(rt; !put);
    path.ask_no(ASKED, 1)?;
    let put = path.is_open() && path.put_no(ASKED, 2);
    assert!(rt; put && is_at(&path, 2, &[DENIED, DENIED]));
    Ok(())
}
