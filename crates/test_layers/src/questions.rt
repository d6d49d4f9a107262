//! What is asked next: a function, an obligation and the answers so far.
ghost use Rattle.std.specs.Prelude.{◌≡◌, IsTrue};
ghost use Rattle.fn_rules.specs.Obligations.{is_obligation};
ghost use Rattle.fn_rules.specs.Rules.{function_of};
ghost use Rattle.ot_terms.specs.Goals.{goal_tree};
ghost use Rattle.ot_paths.specs.Nodes.{IsNode};

use crate::samples::{FAR_OT, INS_OT, LAST_OT, MARKS_OT};
use ask_core::{Asker, Turn};
use bumpalo::Bump;
use diff_graph::Lit;
use fn_rules::{Head, ObName, Rules};
use fn_text::read;
use ot_model::Kind;
use ot_paths::PathAsker;
use ot_questions::{Next, Why};
use ot_terms::Goal;
use std::alloc::{AllocError, Global};

const INSERTIONS: ObName = ObName::Pair(Kind::Ins, Kind::Ins);

const DELETIONS: ObName = ObName::Pair(Kind::Del, Kind::Del);

const UPDATES: ObName = ObName::Pair(Kind::Upd, Kind::Upd);

const DELETION_AND_UPDATE: ObName = ObName::Pair(Kind::Del, Kind::Upd);

const THREE_DELETIONS: ObName = ObName::Triple(Kind::Del, Kind::Del, Kind::Del);

// Whether the function has the obligation.
fn is_meant(head: &Head, ob: ObName) -> bool
    ensures { result ≡ is_obligation head.now ob }
{
    match ob {
        ObName::Pair(k, l) => head.declares(k) && head.declares(l),
        ObName::Triple(k, l, m) => head.declares(k) && head.declares(l) && head.declares(m),
    }
}

// What comes behind a node and answers, a `y` for each yes.
fn next_at<'a>(
    asker: &mut PathAsker<'a>,
    node: &'a Goal<'a>,
    answers: &[u8],
) -> Result<Next, AllocError>
    requires { IsNode (function_of asker.old.rules.now) asker.old.ob (goal_tree node.now) }
{
    match asker.turn(node)? {
        Turn::Holds => Ok(Next::Holds),
        Turn::Fails(why) => Ok(Next::Fails(why)),
        Turn::Ask { lit, yes, no } => match answers {
            [] => Ok(Next::Asked(lit)),
            [answer, others @ ..] => {
                if *answer == b'y' {
                    return Ok(next_at(asker, yes, others)?);
                }
                Ok(next_at(asker, no, others)?)
            }
        },
    }
}

// What comes behind answers.
fn next_question(
    alloc: Global,
    rules: &Rules,
    ob: ObName,
    answers: &[u8],
) -> Result<Next, AllocError>
    requires { IsTrue (is_obligation (function_of rules.now).head ob) }
{
    let bump = Bump::new(alloc);
    let mut asker = PathAsker::new(&bump, rules, ob);
    let start = asker.start()?;
    Ok(next_at(&mut asker, start, answers)?)
}

// Whether the answers to what is asked of a function's obligation lead there.
fn lead_to(
    alloc: Global,
    text: &str,
    ob: ObName,
    answers: &str,
    want: Next,
) -> Result<bool, AllocError> {
    if text.len() >= 1_048_576 {
        return Ok(false);
    }
    let Ok(rules) = read(alloc, text.as_bytes()) else {
        return Ok(false);
    };
    let head = rules.head();
    if !is_meant(&head, ob) {
        return Ok(false);
    }
    Ok(next_question(alloc, &rules, ob, answers.as_bytes())? == want)
}

// Rows: answers, yes or no, and what comes behind them: `x <= y + k` is asked, or the plan ends.
type Rows = &'static [(&'static str, Option<(u8, u8, i32)>)];

const OF_INS: Rows = &[
    // The length, and whether the first and the second operation are enabled.
    ("", Some((0, 1, 0))),
    ("y", Some((0, 3, 0))),
    ("yy", Some((3, 1, 0))),
    ("yyy", Some((0, 6, 0))),
    ("yyyy", Some((6, 1, 0))),
    ("yyyyn", None),
    // The two sites, which are assumed to differ.
    ("yyyyy", Some((4, 7, 0))),
    ("yyyyyy", Some((7, 4, 0))),
    ("yyyyyyy", None),
    // The guards for the second operation behind the first.
    ("yyyyyn", Some((6, 3, -1))),
    ("yyyyynn", Some((6, 3, 0))),
];

const OF_FAR: Rows = &[
    ("yyyyy", Some((6, 3, 99))),
    ("yyyyyy", Some((3, 6, 99))),
    ("yyyyyyyy", Some((6, 1, 1))),
];

// Deletions that leave tombstones stay where they are.
const OF_THREE_MARKS: Rows = &[("yyyyyy", Some((9, 1, -1))), ("yyyyyyy", None)];

// Two updates of one cell: each final document has the other's character over the flag of the cell.
const OF_LAST: Rows = &[
    ("yyyyyyyyyyynynynyny", Some((8, 5, 0))),
    ("yyyyyyyyyyynynynynyy", Some((5, 8, 0))),
    ("yyyyyyyyyyynynynynyyy", None),
];

// Deletions whose guard is a negation, which asks one question.
const NOT_OT: &str =
    "otfn 1\ntext tomb\nkinds del\nblock del del\ncase not p1 <= p2 + 2 : del p1\ncase true : del p1\nend\n";

const OF_NOT: Rows = &[
    ("yyyyy", Some((6, 3, 2))),
    ("yyyyyn", Some((3, 6, 2))),
    ("yyyyynn", Some((0, 6, 0))),
];

// All that `MARKS_OT` asks where each answer is yes, and where the length or the first deletion is none.
const OF_MARKS: Rows = &[
    ("", Some((0, 1, 0))),
    ("n", None),
    ("y", Some((0, 3, 0))),
    ("yy", Some((3, 1, -1))),
    ("yyn", None),
    ("yyy", Some((0, 6, 0))),
    ("yyyy", Some((6, 1, -1))),
    ("yyyyy", Some((0, 6, 0))),
    ("yyyyyy", Some((6, 1, -1))),
    ("yyyyyyy", Some((0, 3, 0))),
    ("yyyyyyyy", Some((3, 1, -1))),
    ("yyyyyyyyy", Some((0, 2, 0))),
    ("yyyyyyyyyy", Some((2, 1, -1))),
    ("yyyyyyyyyyy", Some((2, 6, -1))),
    ("yyyyyyyyyyyy", Some((2, 3, -1))),
    ("yyyyyyyyyyyyy", Some((2, 3, -1))),
    ("yyyyyyyyyyyyyy", Some((2, 6, -1))),
    ("yyyyyyyyyyyyyyy", None),
];

/// Deletions that leave tombstones and updates, which stay as and where they are.
const STAYING_OT: &str = "otfn 2\n\
     text tomb\n\
     kinds del upd\n\
     block del del\n\
     case true : del p1\n\
     block del upd\n\
     case true : del p1\n\
     block upd del\n\
     case true : upd p1\n\
     block upd upd\n\
     case true : upd p1\n\
     end\n";

// A deletion and an update of one cell: both final documents have the update's character in a tombstone.
const OF_STAYING: Rows = &[
    ("yyyyyyyyyyy", Some((2, 6, -1))),
    ("yyyyyyyyyyynynynyny", None),
];

// The character of the cell that is read differs.
const CELLS: Why = Why::Cells {
    left: Some(0),
    dead: None,
};

// Answers that lead to a failing end, and its cause.
const FAILING: &[(&str, ObName, &str, Why)] = &[
    (FAR_OT, INSERTIONS, "yyyyyn", Why::Undefined),
    (MARKS_OT, DELETIONS, "yyyyyyyyyyyyynyy", CELLS),
    (LAST_OT, UPDATES, "yyyyyyyyyyynynynynyn", CELLS),
];

fn want_of(asked: Option<(u8, u8, i32)>) -> Next {
    match asked {
        Some((x, y, k)) => Next::Asked(Lit { x, y, k }),
        None => Next::Holds,
    }
}

// Functions, obligations, and their rows.
const TABLES: &[(&str, ObName, Rows)] = &[
    (INS_OT, INSERTIONS, OF_INS),
    (FAR_OT, INSERTIONS, OF_FAR),
    (MARKS_OT, DELETIONS, OF_MARKS),
    (NOT_OT, DELETIONS, OF_NOT),
    (MARKS_OT, THREE_DELETIONS, OF_THREE_MARKS),
    (LAST_OT, UPDATES, OF_LAST),
    (STAYING_OT, DELETION_AND_UPDATE, OF_STAYING),
];

// The first of the rows that is not so, by its answers.
fn first_wrong(
    alloc: Global,
    text: &str,
    ob: ObName,
    rows: Rows,
) -> Result<Option<&'static str>, AllocError> {
    for (answers, asked) in rows {
        if !lead_to(alloc, text, ob, answers, want_of(*asked))? {
            return Ok(Some(answers));
        }
    }
    Ok(None)
}

#[test]
fn answers_lead_to_the_next_question(rt: HostRuntime) {
    for (text, ob, rows) in TABLES {
        assert!(rt;
            first_wrong(rt.alloc(), text, *ob, rows) == Ok(None),
            "{text}"
        );
    }
}

#[test]
fn answers_lead_to_a_failing_end(rt: HostRuntime) {
    for (text, ob, answers, why) in FAILING {
        let led = lead_to(rt.alloc(), text, *ob, answers, Next::Fails(*why));
        assert!(rt; led == Ok(true), "{text}");
    }
}
