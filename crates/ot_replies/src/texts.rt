//! The status and the text of a reply.
ghost use Rattle.std.specs.Prelude.{◌≡◌, ◌++◌, [], IfOk, OnOk};
ghost use Rattle.cert_text.specs.Spelling.{level_text};
ghost use Rattle.ot_replies.specs.LevelTexts.{accepted_text, confirmed_text};
ghost use Rattle.ot_replies.specs.Texts.{case_status, differ_status, status_of, text_of, limit_text, limit_word};
ghost use Rattle.ot_replies.specs.Texts.{traced_status};

mod appending;
mod audits;
mod bounds;
mod counters;
mod documents;
mod drills;
mod explanations;
mod faults;
mod hubs;
mod lines;
mod mendings;
mod orders;
mod reversals;
mod sessions;

use crate::reply::{FileKind, Reply};
use appending::append_bytes;
use audits::{audit_status, same_status, write_audit, write_same, write_spent};
use bounds::{write_at_least, write_shortest};
use case_json::CaseFault;
use counters::write_counter;
use drills::write_drilled;
use explanations::{explanation_status, write_explanation};
use faults::{write_case_fault, write_proof_refusal, write_refusal, write_text_fault};
use fn_rules::Level;
use hubs::write_hub;
use lines::write_word_line;
use mendings::write_not_mended;
use orders::write_ends;
use ot_model::NoMemory;
use reversals::{reversal_status, write_reversal};
use sessions::{write_event_fault, write_sites, write_stuck};
use std::alloc::Global;

// The status of a case's fault: too much of a part is a limit.
fn case_status(fault: &CaseFault) -> u8
    ensures { result ≡ case_status fault.now }
{
    match fault {
        CaseFault::Limit(_) => 9,
        _ => 4,
    }
}

// Whether two sites differ, or a client does.
fn differ_status<T: Copy>(differ: Option<T>) -> u8
    ensures { result ≡ differ_status differ }
{
    match differ {
        None => 0,
        Some(_) => 1,
    }
}

// The status of a trace, which is that of the reply at its end: such a one is none of a fault of the outside, and none is
// above 9.
fn traced_status(status: u8) -> u8
    ensures { result ≡ traced_status status }
{
    if status <= 5 {
        return status;
    }
    if status <= 8 { 8 } else { 9 }
}

/// The exit status of a reply.
pub fn status(reply: &Reply) -> u8
    ensures { result ≡ status_of reply.now }
{
    match reply {
        Reply::Proved(_) => 0,
        Reply::Broken(_) => 1,
        Reply::Spent => 8,
        Reply::Accepted(_) => 0,
        Reply::Integrated(_, same) => { if *same { 0 } else { 1 } }
        Reply::Replayed(_, differ) => differ_status(*differ),
        Reply::Served(end) => differ_status(end.differ),
        Reply::Drilled(drilled) => differ_status(drilled.differ),
        Reply::Audited(audit) => audit_status(audit),
        Reply::Compared(same) => same_status(same),
        Reply::Reversed(back) => reversal_status(back),
        Reply::Unlike => 1,
        Reply::Unbroken => 0,
        Reply::Shortest(..) => 1,
        Reply::Certified(_) => 1,
        Reply::BoundTooLong => 9,
        Reply::AtLeast(..) => 0,
        Reply::Confirmed(_) => 0,
        Reply::ProofRefused { .. } => 2,
        Reply::Templated(_) => 0,
        Reply::NoTemplate => 1,
        Reply::Mended(_) => 0,
        Reply::NotMended(_) => 1,
        Reply::Explained(explanation) => explanation_status(explanation),
        Reply::Traced(_, status) => traced_status(*status),
        Reply::StuckAt(_) => 1,
        Reply::EventRefused(..) => 4,
        Reply::Refused { .. } => 2,
        Reply::FunctionRefused(..) => 3,
        Reply::CaseRefused(fault) => case_status(fault),
        Reply::Usage => 5,
        Reply::TooLong(_) => 9,
    }
}

// The word of a limit.
fn limit_word(kind: FileKind) -> &'static str
    ensures { result.now ≡ limit_word kind }
{
    match kind {
        FileKind::Function => "function",
        FileKind::Certificate => "certificate",
        FileKind::Proof => "proof",
        FileKind::Case => "file",
    }
}

fn write_limit(alloc: Global, kind: FileKind, out: &mut Vec<u8>) -> Result<(), NoMemory>
    requires { out.old.items ≡ [] }
    ensures { OnOk result (out.new.items ≡ limit_text kind) }
{
    write_word_line(alloc, "limit", limit_word(kind), out)
}

fn level_word(level: Level) -> &'static str
    ensures { result.now ≡ level_text level }
{
    match level {
        Level::Tp1 => "tp1",
        Level::Tp2 => "tp2",
    }
}

// Writes that a certificate is accepted at a level.
fn write_accepted(alloc: Global, level: Level, out: &mut Vec<u8>) -> Result<(), NoMemory>
    ensures { OnOk result (out.new.items ≡ out.old.items ++ accepted_text level) }
{
    write_word_line(alloc, "accepted", level_word(level), out)
}

// Writes that a proof is confirmed at a level.
fn write_confirmed(alloc: Global, level: Level, out: &mut Vec<u8>) -> Result<(), NoMemory>
    ensures { OnOk result (out.new.items ≡ out.old.items ++ confirmed_text level) }
{
    write_word_line(alloc, "confirmed", level_word(level), out)
}

// Writes the text of a reply.
fn write_reply(alloc: Global, reply: &Reply, out: &mut Vec<u8>) -> Result<(), NoMemory>
    requires { out.old.items ≡ [] }
    ensures { OnOk result (out.new.items ≡ text_of reply.now) }
{
    match reply {
        Reply::Proved(bytes) => append_bytes(bytes.as_slice(), out),
        Reply::Broken(counter) => write_counter(alloc, counter, out),
        Reply::Spent => write_spent(out),
        Reply::Accepted(level) => write_accepted(alloc, *level, out),
        Reply::Refused { offset, why } => write_refusal(alloc, *offset, *why, out),
        Reply::FunctionRefused(subject, fault) => { write_text_fault(alloc, *subject, fault, out) }
        Reply::CaseRefused(fault) => write_case_fault(alloc, fault, out),
        Reply::Integrated(ends, same) => write_ends(alloc, ends.as_slice(), *same, out),
        Reply::EventRefused(number, fault) => write_event_fault(alloc, *number, *fault, out),
        Reply::StuckAt(number) => write_stuck(alloc, *number, out),
        Reply::Replayed(ends, differ) => write_sites(alloc, ends.as_slice(), *differ, out),
        Reply::Served(end) => write_hub(alloc, end, out),
        Reply::Audited(audit) => write_audit(alloc, audit, out),
        Reply::Compared(same) => write_same(alloc, same, out),
        Reply::Reversed(back) => write_reversal(alloc, back, out),
        Reply::Unlike => append_bytes(b"differ head\n", out),
        Reply::Unbroken => append_bytes(b"none\n", out),
        Reply::Shortest(counter, cells) => write_shortest(alloc, counter, *cells, out),
        Reply::Certified(bytes) => append_bytes(bytes.as_slice(), out),
        Reply::BoundTooLong => append_bytes(b"limit bound\n", out),
        Reply::AtLeast(level, cells) => write_at_least(alloc, *level, *cells, out),
        Reply::Confirmed(level) => write_confirmed(alloc, *level, out),
        Reply::ProofRefused { offset, why } => { write_proof_refusal(alloc, *offset, *why, out) }
        Reply::Templated(bytes) => append_bytes(bytes.as_slice(), out),
        Reply::NoTemplate => append_bytes(b"none tp2\n", out),
        Reply::Mended(bytes) => append_bytes(bytes.as_slice(), out),
        Reply::NotMended(most) => write_not_mended(alloc, *most, out),
        Reply::Drilled(drilled) => write_drilled(alloc, drilled, out),
        Reply::Explained(explanation) => write_explanation(alloc, explanation, out),
        Reply::Traced(bytes, _) => append_bytes(bytes.as_slice(), out),
        Reply::Usage => append_bytes(b"usage: otp COMMAND ARGUMENTS\n", out),
        Reply::TooLong(kind) => write_limit(alloc, *kind, out),
    }
}

// The text of a reply, written anew.
fn written(alloc: Global, reply: &Reply) -> Result<Vec<u8>, NoMemory>
    ensures { IfOk result (λ text. text.items ≡ text_of reply.now) }
{
    let mut text = Vec::new(alloc);
    write_reply(alloc, reply, &mut text)?;
    Ok(text)
}

/// The text of a reply. A certificate, a proof, a function and a trace are not copied.
pub fn text(alloc: Global, reply: Reply) -> Result<Vec<u8>, NoMemory>
    ensures { IfOk result (λ text. text.items ≡ text_of reply) }
{
    match reply {
        Reply::Proved(bytes) => Ok(bytes.into_vec()),
        Reply::Certified(bytes) => Ok(bytes.into_vec()),
        Reply::Templated(bytes) => Ok(bytes.into_vec()),
        Reply::Mended(bytes) => Ok(bytes.into_vec()),
        Reply::Traced(bytes, _) => Ok(bytes.into_vec()),
        other => written(alloc, &other),
    }
}
