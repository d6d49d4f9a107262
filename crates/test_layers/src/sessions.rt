//! A session of two sites: how many forms it counts, and what it knows of its operations. What sites hold behind
//! sessions, and each refusal, are rows of `checks/tables/replay.rows`.
use crate::functions::{MARKS, staying};
use fn_rules::{Head, NoMemory};
use ot_model::{Doc, Kind, Op};
use ot_session::{Make, Session, SiteEnd, Took};
use std::alloc::Global;
use std::process::Abort;

const INSERTIONS: Head = Head {
    ins: true,
    del: false,
    ..MARKS
};

// A session of two sites on an empty document.
fn begun(rt: &impl Abort, alloc: Global) -> Result<Session, NoMemory> {
    let rules = staying(rt, alloc, INSERTIONS, Kind::Ins)?;
    Ok(Session::new(alloc, &rules, &Doc::new(alloc), 2)?)
}

fn is_made(session: &mut Session, site: u32, op: Op, want: Result<u32, Make>) -> bool {
    session.is_open() && session.make(site, op) == want
}

// Each site makes four operations.
fn are_made(session: &mut Session) -> bool {
    for number in 0..8 {
        let site = number / 4 + 1;
        let op = Op::Ins {
            at: 0,
            ch: 'a',
            site,
        };
        if !is_made(session, site, op, Ok(number)) {
            return false;
        }
    }
    true
}

// The first site takes the operation, and so many forms are counted then.
fn is_taken(session: &mut Session, number: u32, forms: u64) -> bool {
    session.is_open()
        && matches!(session.take(1, number), Ok(Took::Done(_)))
        && session.forms() == forms
}

// Of each operation that is taken as many forms as the site made, and from the second on of those as many again.
fn are_taken(session: &mut Session) -> bool {
    is_taken(session, 4, 4) && is_taken(session, 5, 12) && is_taken(session, 6, 20)
}

// What the first site has, which took three operations behind its four.
fn is_first_site(session: &Session) -> bool {
    session.before(0, 3)
        && !session.before(3, 4)
        && session.has_site(1)
        && session.seen(1) == [0, 1, 2, 3, 4, 5, 6].as_slice()
        && session.doc(1).len() == 7
}

// The second site has taken nothing.
fn are_ends(ends: &[SiteEnd]) -> bool {
    match ends {
        [first, second] => {
            first.doc.len() == 7
                && second.doc.len() == 4
                && second.seen.as_slice() == [4, 5, 6, 7].as_slice()
        }
        _ => false,
    }
}

fn is_played(rt: &impl Abort, alloc: Global) -> Result<bool, NoMemory> {
    let mut session = begun(rt, alloc)?;
    let played = is_made(&mut session, 1, Op::Nop, Err(Make::WrongSite))
        && are_made(&mut session)
        && are_taken(&mut session)
        && is_first_site(&session);
    Ok(played && are_ends(session.into_ends()?.as_slice()))
}

#[test]
fn each_form_is_counted_once(rt: HostRuntime) {
    assert!(rt; is_played(&rt, rt.alloc()) == Ok(true));
}
