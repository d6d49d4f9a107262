//! Why a function breaks TP2, step by step, and counterexamples as cases that are read back.
use crate::whole_functions::sites;
use case_json::{Trial, trial_read};
use fn_rules::{Level, Rules};
use ot_integrate::are_integrable;
use ot_model::{Cell, Doc, Op};
use ot_steps::{write_case_line, write_ways};
use ot_ways::both_ways;
use std::alloc::{AllocError, Global};

const LINES: &str = "left\n\
    \x20 op 2 after op 1     del 0         del ins 0: p1 < p2 : del p1\n\
    \x20 op 3 after op 1     ins 0 c       ins ins 0: p1 < p2 : ins p1\n\
    \x20 op 3 after both     ins 0 c       ins del 0: p1 <= p2 : ins p1\n\
    right\n\
    \x20 op 1 after op 2     ins 0 a       ins del 1: true : ins p1 - 1\n\
    \x20 op 3 after op 2     ins 0 c       ins del 0: p1 <= p2 : ins p1\n\
    \x20 op 3 after both     ins 1 c       ins ins 2: true : ins p1 + 1\n\
    differ: ins 0 c, ins 1 c\n\
    case {\"doc\":\"y\",\"ops\":[[\"ins\",1,\"a\",1],[\"del\",0,2],[\"ins\",0,\"c\",3]],\"orders\":[[0,1,2],[1,0,2]]}\n";

// What stands before a case.
const WORD: &str = "case ";

fn doc_of(alloc: Global, cells: &[Cell]) -> Result<Doc, AllocError> {
    let mut doc = Doc::new(alloc);
    for cell in cells {
        doc.push(*cell)?;
    }
    Ok(doc)
}

fn push_ways(
    alloc: Global,
    rules: &Rules,
    doc: &Doc,
    ops: &[Op],
    out: &mut Vec<u8>,
) -> Result<(), AllocError> {
    if !are_integrable(rules, doc.len(), ops) {
        return Ok(());
    }
    match both_ways(alloc, rules, Level::Tp2, doc, ops)? {
        Some(ways) => write_ways(alloc, rules, &ways, out),
        None => Ok(()),
    }
}

fn is_told(alloc: Global, rules: &Rules, doc: &Doc, ops: &[Op]) -> Result<bool, AllocError> {
    let mut out = Vec::new(alloc);
    push_ways(alloc, rules, doc, ops, &mut out)?;
    write_case_line(alloc, Level::Tp2, doc, ops, &mut out)?;
    Ok(out.as_slice() == LINES.as_bytes())
}

const CELL: Cell = Cell {
    ch: 'y',
    live: true,
};

// Two insertions and a deletion on one cell.
const OPS: [Op; 3] = [
    Op::Ins {
        at: 1,
        ch: 'a',
        site: 1,
    },
    Op::Del { at: 0, site: 2 },
    Op::Ins {
        at: 0,
        ch: 'c',
        site: 3,
    },
];

fn is_explained(alloc: Global) -> Result<bool, AllocError> {
    let doc = doc_of(alloc, &[CELL])?;
    match sites(alloc) {
        Some(rules) => is_told(alloc, &rules, &doc, &OPS),
        None => Ok(false),
    }
}

fn is_case(trial: &Trial, doc: &Doc, ops: &[Op]) -> bool {
    trial.doc.same(doc) && trial.ops.as_slice() == ops && trial.orders.len() == 2
}

// Whether a line is read as the case of these operations on the document.
fn is_line_of(alloc: Global, rules: &Rules, line: &[u8], doc: &Doc, ops: &[Op]) -> bool {
    if line.len() < WORD.len() {
        return false;
    }
    match trial_read(alloc, rules, &line[WORD.len()..]) {
        Ok(trial) => is_case(&trial, doc, ops),
        Err(_) => false,
    }
}

fn is_written_so(alloc: Global, rules: &Rules, doc: &Doc, ops: &[Op]) -> Result<bool, AllocError> {
    let mut line = Vec::new(alloc);
    write_case_line(alloc, Level::Tp1, doc, ops, &mut line)?;
    Ok(is_line_of(alloc, rules, &line, doc, ops))
}

// Whether the case of two insertions of these characters on cells that have them is read back.
fn is_read_back(alloc: Global, rules: &Rules, ch: char, other: char) -> Result<bool, AllocError> {
    let live = Cell { ch, live: true };
    let dead = Cell {
        ch: other,
        live: false,
    };
    let ops = [
        Op::Ins { at: 0, ch, site: 1 },
        Op::Ins {
            at: 2,
            ch: other,
            site: 2,
        },
    ];
    let doc = doc_of(alloc, &[live, dead])?;
    is_written_so(alloc, rules, &doc, &ops)
}

// Each kind of character that is escaped in JSON, in the text of a document, or in both.
fn are_read_back(alloc: Global, rules: &Rules) -> Result<bool, AllocError> {
    for (ch, other) in [
        ('"', '\\'),
        ('\n', '\r'),
        ('~', '\t'),
        ('\u{1}', '\u{1f}'),
        ('é', '𝄞'),
        ('a', '/'),
    ] {
        if !is_read_back(alloc, rules, ch, other)? {
            return Ok(false);
        }
    }
    Ok(true)
}

fn sites_are_read_back(alloc: Global) -> Result<bool, AllocError> {
    match sites(alloc) {
        Some(rules) => are_read_back(alloc, &rules),
        None => Ok(false),
    }
}

#[test]
fn a_counterexample_is_explained_case_by_case(rt: HostRuntime) {
    assert!(rt; is_explained(rt.alloc()) == Ok(true));
}

#[test]
fn a_case_is_read_back_whatever_its_characters(rt: HostRuntime) {
    assert!(rt; sites_are_read_back(rt.alloc()) == Ok(true));
}
