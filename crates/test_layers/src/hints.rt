//! The lines of a function file that is refused. Those of each cause and slip are rows of `checks/tables`, and what may
//! stand at many places is tried by `checks/rows places`.
use fn_hints::{TOKENS, find_hint, write_hint};
use fn_text::first_wrong;
use std::alloc::{AllocError, Global};

const FILE: &str = "otfn 1\ntext plain\nkinds ins\nblock ins ins\ncase p1 == p2 : nop\n";

const LINES: &str = "  case p1 == p2 : nop\n           ^\nSomething else must stand here.\n\
    Write one =, as in p1 = p2.\nmay stand: p2\n";

fn lines_of(alloc: Global, file: &[u8]) -> Result<Vec<u8>, AllocError> {
    let mut out = Vec::new(alloc);
    if file.len() < 0x7fff_ffff {
        if let Some(hint) = find_hint(alloc, file)? {
            write_hint(alloc, &hint, &mut out)?;
        }
    }
    Ok(out)
}

// Whether the first wrong token begins in this column of the fifth line.
fn is_wrong_at(alloc: Global, file: &[u8], column: u32) -> Result<bool, AllocError> {
    if file.len() >= 0x7fff_ffff {
        return Ok(false);
    }
    match first_wrong(alloc, file)? {
        Some(wrong) => Ok(wrong.at.line == 5 && wrong.at.column == column),
        None => Ok(false),
    }
}

#[test]
fn a_slip_has_its_lines(rt: HostRuntime) -> Result<(), AllocError> {
    assert!(rt; lines_of(rt.alloc(), FILE.as_bytes())?.as_slice() == LINES.as_bytes());
    assert!(rt; is_wrong_at(rt.alloc(), FILE.as_bytes(), 10)?);
    assert!(rt; !TOKENS.is_empty());
    Ok(())
}
