//! Words that only a call can be given: a name that no file of the machine has.
use crate::samples::{MARKS_CERT, MARKS_OT};
use crate::setting::{Files, answers, shelf_of};
use ot_outside::MemSink;
use std::test::Fail;

const FILES: Files<'static> = &[("", MARKS_OT), ("-", MARKS_CERT)];

#[test]
fn the_empty_word_is_a_name(rt: HostRuntime) -> Result<(), Fail> {
    let alloc = rt.alloc();
    let shelf = shelf_of(alloc, FILES, 0)?;
    let sink = MemSink::new(alloc, 256, 64, Vec::new(alloc))?;
    assert!(rt; answers(alloc, "check  -", shelf, sink, 0, b"accepted tp1\n")?);
    Ok(())
}
