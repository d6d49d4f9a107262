//! What happens in a case, a hub and a session under one function, step by step; and where the fault of a case is.
use crate::whole_functions::sites;
use case_json::{
    CaseError, EventCause, Layout, event_path, fault_path, hub_read, line_column_of, script_read,
    trial_read, write_cause, write_fault,
};
use fn_rules::Rules;
use ot_trace::{NoMemory, trace_case, trace_hub, trace_session};
use std::alloc::Global;

const CASE: &str =
    r#"{"doc":"y","ops":[["ins",1,"a",1],["del",0,2],["ins",0,"c",3]],"orders":[[0,1,2]]}"#;

const CASE_LINES: &str = "order 0\n\
    op 0                  ins 1 a\n\
    \x20 done                ins 1 a       [ya]\n\
    op 1                  del 0\n\
    \x20 over ins 1 a        del 0         del ins 0: p1 < p2 : del p1\n\
    \x20 done                del 0         [a]\n\
    op 2                  ins 0 c\n\
    \x20 over ins 1 a        ins 0 c       ins ins 0: p1 < p2 : ins p1\n\
    \x20 over del 0          ins 0 c       ins del 0: p1 <= p2 : ins p1\n\
    \x20 done                ins 0 c       [ca]\n";

const HUB: &str = r#"{"doc":"y","sites":2,"events":[
    ["edit",1,["ins",1,"a",1]],["edit",2,["del",0,2]],["up",1],["up",2],["down",1],["down",1]]}"#;

const HUB_LINES: &str = "event 0 client 1      ins 1 a\n\
    \x20 done                ins 1 a       [ya]\n\
    event 1 client 2      del 0\n\
    \x20 done                del 0         []\n\
    event 2 server        ins 1 a       from client 1\n\
    \x20 done                ins 1 a       [ya]\n\
    event 3 server        del 0         from client 2\n\
    \x20 over ins 1 a        del 0         del ins 0: p1 < p2 : del p1\n\
    \x20   which becomes     ins 0 a       ins del 1: true : ins p1 - 1\n\
    \x20 done                del 0         [a]\n\
    event 4 client 1      ins 1 a       own\n\
    event 5 client 1      del 0         from client 2\n\
    \x20 done                del 0         [a]\n";

const SESSION: &str =
    r#"{"doc":"y","sites":2,"events":[["make",1,["ins",1,"a",1]],["take",2,0],["take",2,0]]}"#;

const SESSION_LINES: &str = "event 0 site 1        ins 1 a       op 0\n\
    \x20 done                ins 1 a       [ya]\n\
    event 1 site 2        op 0\n\
    \x20 integrated 0 [ya]\n\
    event 2 site 2        op 0\n\
    \x20 repeated\n";

const FAULTY: &str =
    "{\"doc\":\"y\",\n \"ops\":[[\"ins\",1,\"a\",1],[\"del\",-1,2]],\"orders\":[]}";

const FAULT_LINES: &str = "at ops[1][1], line 2, column 32\n\
    `ops` is an array of operations: [\"ins\", AT, CH, SITE], [\"del\", AT, SITE] or [\"upd\", AT, CH, SITE].\n";

const CAUSE_LINES: &str = "at events[3][1]\nThere is no site, or no client, with this number.\n";

fn case_lines(alloc: Global, rules: &Rules, out: &mut Vec<u8>) -> Result<(), NoMemory> {
    match trial_read(alloc, rules, CASE.as_bytes()) {
        Ok(trial) => trace_case(alloc, rules, &trial, out),
        Err(_) => Ok(()),
    }
}

fn hub_lines(alloc: Global, rules: &Rules, out: &mut Vec<u8>) -> Result<(), NoMemory> {
    match hub_read(alloc, HUB.as_bytes()) {
        Ok(script) => trace_hub(alloc, rules, &script, out),
        Err(_) => Ok(()),
    }
}

fn session_lines(alloc: Global, rules: &Rules, out: &mut Vec<u8>) -> Result<(), NoMemory> {
    match script_read(alloc, SESSION.as_bytes()) {
        Ok(script) => trace_session(alloc, rules, &script, out),
        Err(_) => Ok(()),
    }
}

fn fault_lines(alloc: Global, rules: &Rules, out: &mut Vec<u8>) -> Result<(), NoMemory> {
    let bytes = FAULTY.as_bytes();
    let Err(CaseError::Fault(fault)) = trial_read(alloc, rules, bytes) else {
        return Ok(());
    };
    let path = fault_path(alloc, Layout::Case, bytes, &fault)?;
    let at = match &path {
        Some(path) => line_column_of(bytes, path),
        None => None,
    };
    write_fault(alloc, path, at, &fault, out)
}

fn push_lines(alloc: Global, rules: &Rules, out: &mut Vec<u8>) -> Result<(), NoMemory> {
    case_lines(alloc, rules, out)?;
    hub_lines(alloc, rules, out)?;
    session_lines(alloc, rules, out)?;
    fault_lines(alloc, rules, out)
}

// Whether each call writes its lines.
fn are_told(alloc: Global, rules: &Rules) -> Result<bool, NoMemory> {
    let mut out = Vec::new(alloc);
    push_lines(alloc, rules, &mut out)?;
    let mut at = out.as_slice();
    for lines in [CASE_LINES, HUB_LINES, SESSION_LINES, FAULT_LINES] {
        match at.strip_prefix(lines.as_bytes()) {
            Some(rest) => at = rest,
            None => return Ok(false),
        }
    }
    Ok(at.is_empty())
}

// An event that names a site that is not there.
fn is_cause_told(alloc: Global) -> Result<bool, NoMemory> {
    let mut out = Vec::new(alloc);
    write_cause(
        alloc,
        event_path(3, EventCause::Site),
        None,
        EventCause::Site,
        &mut out,
    )?;
    Ok(out.as_slice() == CAUSE_LINES.as_bytes())
}

fn is_all_told(alloc: Global) -> Result<bool, NoMemory> {
    match sites(alloc) {
        Some(rules) => Ok(are_told(alloc, &rules)? && is_cause_told(alloc)?),
        None => Ok(false),
    }
}

#[test]
fn what_happens_is_told_step_by_step(rt: HostRuntime) {
    assert!(rt; is_all_told(rt.alloc()) == Ok(true));
}
