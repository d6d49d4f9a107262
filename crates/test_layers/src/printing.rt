//! Functions that are printed.
use fn_text::{print, read, read_back};
use std::alloc::{AllocError, Global};
use std::test::Fail;

/// Whether a function that is written so is printed so.
fn is_printed(alloc: Global, written: &str, printed: &str) -> Result<bool, AllocError> {
    if written.len() >= 0x7fff_ffff {
        return Ok(false);
    }
    match read(alloc, written.as_bytes()) {
        Ok(rules) => Ok(print(alloc, &rules)?.as_slice() == printed.as_bytes()),
        Err(_) => Ok(false),
    }
}

/// The lines up to the guard of a function's one case, and those behind it.
const FRONT: &str = "otfn 1\ntext plain\nkinds ins\nblock ins ins\ncase ";

const REST: &str = " : nop\nend\n";

fn with_guard(alloc: Global, guard: &str) -> Result<String, AllocError> {
    let mut text = String::from_str(alloc, FRONT)?;
    text.push_str(guard)?;
    text.push_str(REST)?;
    Ok(text)
}

/// Whether a guard that is written so is printed so: a row has both.
fn guard_is_printed(alloc: Global, row: &str) -> Result<bool, AllocError> {
    let Some((written, printed)) = row.split_once('|') else {
        return Ok(false);
    };
    let written = with_guard(alloc, written)?;
    let printed = with_guard(alloc, printed)?;
    Ok(is_printed(alloc, &written, &printed)?)
}

/// Guards as they are written and as they are printed, one pair a line.
const GUARDS: &str = "\
    true|true\n\
    (p1 < p2)|p1 < p2\n\
    ((s2 = s1))|s2 = s1\n\
    p1 <= p2 + 007|p1 <= p2 + 7\n\
    p2 = p1 - 99|p2 = p1 - 99\n\
    p1 < p2 - 0|p1 < p2\n\
    not (c1 = c2)|not c1 = c2\n\
    not (not true)|not not true\n\
    (not true) and true|not true and true\n\
    true and (not true)|true and not true\n\
    not (true and true)|not ( true and true )\n\
    not (true or true)|not ( true or true )\n\
    (not true) or true|not true or true\n\
    (true and true) and true|true and true and true\n\
    true and (true and true)|true and ( true and true )\n\
    (true or true) or true|true or true or true\n\
    true or (true or true)|true or ( true or true )\n\
    (true and true) or true|true and true or true\n\
    true or (true and true)|true or true and true\n\
    (true or true) and true|( true or true ) and true\n\
    true and (true or true)|true and ( true or true )\n\
    ((p1 < p2 or (s1 < s2)))|p1 < p2 or s1 < s2\n\
    not ((true or true) and true)|not ( ( true or true ) and true )\
";

#[test]
fn guards_are_printed_with_the_fewest_parentheses(rt: HostRuntime) -> Result<(), Fail> {
    for row in GUARDS.split('\n') {
        assert!(rt; guard_is_printed(rt.alloc(), row)?, "{row}");
    }
    Ok(())
}

/// A function for all kinds, as it is printed.
const ALL: &str = "\
    otfn 2\ntext tomb\nkinds ins del upd\nassume sites differ\n\
    block ins ins\ncase p1 < p2 : ins p1\ncase p1 = p2 and s1 < s2 : ins p1\ncase true : ins p1 + 1\n\
    block ins del\ncase true : ins p1\n\
    block ins upd\ncase true : ins p1\n\
    block del ins\ncase p1 < p2 : del p1\ncase true : del p1 + 1\n\
    block del del\ncase true : del p1\n\
    block del upd\ncase true : del p1\n\
    block upd ins\ncase p1 < p2 : upd p1\ncase true : upd p1 + 1\n\
    block upd del\ncase true : upd p1\n\
    block upd upd\ncase p1 < p2 or p2 < p1 or s1 < s2 : upd p1\ncase true : nop\n\
    end\n\
";

/// The same one with its blocks as they were added to a function without updates.
const ADDED: &str = "\
    otfn 2\ntext tomb\nkinds ins del upd\nassume sites differ\n\
    block ins ins\ncase p1 < p2 : ins p1\ncase p1 = p2 and s1 < s2 : ins p1\ncase true : ins p1 + 1\n\
    block ins del\ncase true : ins p1\n\
    block del ins\ncase p1 < p2 : del p1\ncase true : del p1 + 1\n\
    block del del\ncase true : del p1\n\
    block ins upd\ncase true : ins p1\n\
    block del upd\ncase true : del p1\n\
    block upd ins\ncase p1 < p2 : upd p1\ncase true : upd p1 + 1\n\
    block upd del\ncase true : upd p1\n\
    block upd upd\ncase p1 < p2 or p2 < p1 or s1 < s2 : upd p1\ncase true : nop\n\
    end\n\
";

/// Deletions that leave tombstones.
const DELETIONS: &str = "\
    otfn 1\ntext tomb\nkinds del\nassume sites differ\n\
    block del del\ncase p2 <= p1 - 10 : del p1 - 1\ncase true : nop\n\
    end\n\
";

/// Functions as they are written and as they are printed.
const FUNCTIONS: &[(&str, &str)] = &[
    (ADDED, ALL),
    (ALL, ALL),
    (DELETIONS, DELETIONS),
    (
        "otfn 2\ntext plain\nkinds del\nblock del del\nend\n",
        "otfn 1\ntext plain\nkinds del\nblock del del\nend\n",
    ),
    (
        "otfn 02\ntext plain\nkinds upd\nassume chars differ\nblock upd upd\ncase (c1 < c2) : upd p1 + 0\nend",
        "otfn 2\ntext plain\nkinds upd\nassume chars differ\nblock upd upd\ncase c1 < c2 : upd p1\nend\n",
    ),
];

#[test]
fn the_language_is_the_first_that_has_the_words(rt: HostRuntime) -> Result<(), Fail> {
    for (written, printed) in FUNCTIONS {
        assert!(rt; is_printed(rt.alloc(), written, printed)?, "{written}");
    }
    Ok(())
}

#[test]
fn a_function_is_read_back(rt: HostRuntime) -> Result<(), Fail> {
    let alloc = rt.alloc();
    let rules = read(alloc, DELETIONS.as_bytes()).ok().ok_or("a function")?;
    let again = read_back(alloc, &rules)?;
    assert!(rt; print(alloc, &again)?.as_slice() == DELETIONS.as_bytes());
    Ok(())
}
