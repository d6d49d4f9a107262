//! Numbers and cycles that are told at the front of some bytes.
use cert_text::{number_front, short_number_front};
use diff_graph::Lit;
use ot_sections::cycle_front;
use std::test::Fail;

// Bytes, and the number at their front with how many digits it has.
const NUMBERS: &[(&str, Option<(u32, usize)>)] = &[
    ("12,3;", Some((12, 2))),
    ("0;", Some((0, 1))),
    ("54321;", Some((54321, 5))),
    ("654321;", None),
    ("07;", None),
    ("12", None),
    (";", None),
];

// The same of numbers that are to be short.
const SHORT_NUMBERS: &[(&str, Option<(u32, usize)>)] = &[
    ("12,3;", Some((12, 2))),
    ("321;", Some((321, 3))),
    ("4321;", None),
    ("7;x", None),
];

#[test]
fn numbers_have_at_most_five_digits_and_a_byte_behind_them(rt: HostRuntime) {
    for (text, want) in NUMBERS {
        assert!(rt; number_front(text.as_bytes()) == *want, "{text}");
    }
    for (text, want) in SHORT_NUMBERS {
        assert!(rt; short_number_front(text.as_bytes()) == *want, "{text}");
    }
}

const BELOW: Lit = Lit { x: 1, y: 2, k: -1 };

// The offset of the literal behind a thousand of `BELOW`, bytes, and how many of them are a negative cycle.
const CYCLES: &[(i32, &str, Option<usize>)] = &[
    (0, "1000,7;", Some(7)),
    (0, "7,8;", None),
    (0, "1000;?", None),
    (0, "1001,7;", None),
    (1, "7,1000;", None),
];

#[test]
fn cycles_close_below_zero(rt: HostRuntime) -> Result<(), Fail> {
    let back = Lit { x: 2, y: 1, k: 0 };
    assert!(rt; cycle_front(&[BELOW], back, b"0,1;x") == Some(4));
    let lits = vec![in rt.alloc(); BELOW; 1_000]?;
    for (k, text, want) in CYCLES {
        let last = Lit { k: *k, ..back };
        assert!(rt;
            cycle_front(&lits, last, text.as_bytes()) == *want,
            "{text}"
        );
    }
    Ok(())
}
