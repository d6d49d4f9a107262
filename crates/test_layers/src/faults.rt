//! Faults of the outside.
use crate::samples::{MARKS_CERT, MARKS_OT, SITES_OT, TTF_OT};
use crate::setting::{Files, answers, shelf_of, status_of, tells_faults};
use ot_outside::MemSink;
use std::test::Fail;

const FILES: Files<'static> = &[
    ("marks.ot", MARKS_OT),
    ("marks.cert", MARKS_CERT),
    ("sites.ot", SITES_OT),
    ("ttf.ot", TTF_OT),
    (
        "three.json",
        r#"{"doc":"y","ops":[["ins",1,"a",1],["del",0,2],["ins",0,"c",3]],"orders":[[0,1,2],[1,0,2]]}"#,
    ),
    (
        "held.json",
        r#"{"doc":"","sites":3,"events":[["make",1,["ins",0,"a",1]],["make",2,["ins",0,"b",2]],["take",2,0],
            ["make",2,["del",1,2]],["take",3,2],["take",3,1],["take",3,0],["take",1,1],["take",1,1],["take",1,2]]}"#,
    ),
];

const CHECK: &str = "check marks.ot marks.cert";

// Commands, how many calls of the shelf they make, their statuses and their texts. The calls for a file are open, read,
// and read at the end.
const COMMANDS: &[(&str, u32, u8, &str)] = &[
    (CHECK, 6, 0, "accepted tp1\n"),
    (
        "prove sites.ot",
        3,
        1,
        "no tp2 operations\ndoc [y]\nop 1 ins 1 a 1\nop 2 del 0 2\nop 3 ins 0 c 3\nleft ins 0 c 3\nright ins 1 c 3\n",
    ),
    ("explain --tp1 marks.ot", 3, 0, "yes tp1\nquestions 49\n"),
    (
        "integrate sites.ot three.json",
        6,
        1,
        "order 0 [ca]\norder 1 [ac]\ndiffer\n",
    ),
    (
        "replay ttf.ot held.json",
        6,
        0,
        "site 1 3 [a~b]\nsite 2 3 [a~b]\nsite 3 3 [a~b]\nsame\n",
    ),
    (
        "drill 2",
        0,
        0,
        "drill 2\ncases 9\naccepted tp2\noperations 6\nheld 2\nrepeated 4\ncells 6\nsame\n",
    ),
];

#[test]
fn faults_of_the_outside_are_told(rt: HostRuntime) -> Result<(), Fail> {
    for (line, calls, status, text) in COMMANDS {
        assert!(rt;
            tells_faults(rt.alloc(), FILES, line, *calls, *status, text.as_bytes())?,
            "{line}"
        );
    }
    Ok(())
}

// The room of a sink, how many bytes it takes at a call, the status of `CHECK` and what it writes.
const SINKS: &[(usize, usize, u8, &str)] = &[
    (13, 1, 0, "accepted tp1\n"),
    (13, 5, 0, "accepted tp1\n"),
    (4, 3, 7, "acce"),
    (0, 1, 7, ""),
];

#[test]
fn a_reply_is_written_in_any_pieces(rt: HostRuntime) -> Result<(), Fail> {
    let alloc = rt.alloc();
    for (room, per_call, status, text) in SINKS {
        let sink = MemSink::new(alloc, *room, *per_call, Vec::new(alloc))?;
        let shelf = shelf_of(alloc, FILES, 0)?;
        assert!(rt;
            answers(alloc, CHECK, shelf, sink, *status, text.as_bytes())?,
            "{room} bytes"
        );
    }
    Ok(())
}

#[test]
fn a_fault_leaves_nothing_or_a_front_of_a_certificate(rt: HostRuntime) -> Result<(), Fail> {
    let alloc = rt.alloc();
    let mut sink = MemSink::new(alloc, 65_536, 65_536, Vec::new(alloc))?;
    let line = "prove --tp1 marks.ot";
    assert!(rt; status_of(alloc, line, shelf_of(alloc, FILES, 0)?, &mut sink)? == 0);
    // The calls of the shelf: open, read, read at the end.
    assert!(rt; tells_faults(alloc, FILES, line, 3, 0, sink.written())?);
    Ok(())
}
