//! The lines of faults.
ghost use Rattle.std.specs.Prelude.{◌≡◌, [], OnOk};
ghost use Rattle.case_json.specs.declared.fault.CaseFault.TheVariants.{Pair};
ghost use Rattle.ot_replies.specs.FaultTexts.{case_fault_text, kind_word, name_word, proof_refusal_text};
ghost use Rattle.ot_replies.specs.FaultTexts.{proof_refusal_word, refusal_text, refusal_word, subject_word};
ghost use Rattle.ot_replies.specs.FaultTexts.{text_fault_text};

use super::appending::{append_bytes, append_text};
use super::lines::{write_cause_line, write_number_line, write_word_line};
use crate::reply::Subject;
use case_json::{CaseFault, Name};
use fn_text::{FaultKind, TextFault};
use ot_model::NoMemory;
use proof_sections::ProofRefusal;
use refusals::Refusal;
use std::alloc::Global;

fn kind_word(kind: FaultKind) -> &'static str
    ensures { result.now ≡ kind_word kind }
{
    match kind {
        FaultKind::Byte => "byte",
        FaultKind::Word => "word",
        FaultKind::Expected => "expected",
        FaultKind::Sort => "sort",
        FaultKind::Offset => "offset",
        FaultKind::Missing => "missing",
        FaultKind::Double => "double",
        FaultKind::Kind => "kind",
        FaultKind::Cases => "cases",
        FaultKind::Atoms => "atoms",
        FaultKind::Nesting => "nesting",
        FaultKind::Outcome => "result",
        FaultKind::Version => "version",
    }
}

fn name_word(name: Name) -> &'static str
    ensures { result.now ≡ name_word name }
{
    match name {
        Name::Doc => "doc",
        Name::Ops => "ops",
        Name::Orders => "orders",
        Name::Sites => "sites",
        Name::Events => "events",
        Name::Cells => "cells",
    }
}

fn refusal_word(why: Refusal) -> &'static str
    ensures { result.now ≡ refusal_word why }
{
    match why {
        Refusal::Token => "token",
        Refusal::Truncated => "truncated",
        Refusal::Trailing => "trailing",
        Refusal::NotAQuestion => "notaquestion",
        Refusal::NotDone => "notdone",
        Refusal::GoalFails => "fails",
        Refusal::BadPick => "pick",
        Refusal::NotACycle => "cycle",
        Refusal::NotNegative => "notnegative",
    }
}

/// Writes the line of a certificate that is refused.
pub(crate) fn write_refusal(
    alloc: Global,
    offset: u64,
    why: Refusal,
    out: &mut Vec<u8>,
) -> Result<(), NoMemory>
    requires { out.old.items ≡ [] }
    ensures { OnOk result (out.new.items ≡ refusal_text offset why) }
{
    write_cause_line(alloc, "certificate", offset, refusal_word(why), out)
}

fn proof_refusal_word(why: ProofRefusal) -> &'static str
    ensures { result.now ≡ proof_refusal_word why }
{
    match why {
        ProofRefusal::Token => "token",
        ProofRefusal::Truncated => "truncated",
        ProofRefusal::Trailing => "trailing",
        ProofRefusal::NotAQuestion => "notaquestion",
        ProofRefusal::NotDone => "notdone",
        ProofRefusal::GoalFails => "fails",
        ProofRefusal::BadPick => "pick",
        ProofRefusal::NotACycle => "cycle",
        ProofRefusal::NotNegative => "notnegative",
        ProofRefusal::NoStart => "nostart",
        ProofRefusal::TooManyLemmas => "lemmas",
        ProofRefusal::UnknownLemma => "lemma",
        ProofRefusal::OtherStart => "goal",
    }
}

/// Writes the line of a proof that is refused.
pub(crate) fn write_proof_refusal(
    alloc: Global,
    offset: u64,
    why: ProofRefusal,
    out: &mut Vec<u8>,
) -> Result<(), NoMemory>
    requires { out.old.items ≡ [] }
    ensures { OnOk result (out.new.items ≡ proof_refusal_text offset why) }
{
    write_cause_line(alloc, "proof", offset, proof_refusal_word(why), out)
}

fn subject_word(subject: Subject) -> &'static str
    ensures { result.now ≡ subject_word subject }
{
    match subject {
        Subject::First => "function",
        Subject::Second => "second",
    }
}

/// Writes the line of a function whose text has a fault.
pub(crate) fn write_text_fault(
    alloc: Global,
    subject: Subject,
    fault: &TextFault,
    out: &mut Vec<u8>,
) -> Result<(), NoMemory>
    requires { out.old.items ≡ [] }
    ensures { OnOk result (out.new.items ≡ text_fault_text subject fault.now) }
{
    let file = subject_word(subject);
    let word = kind_word(fault.kind);
    let line = fault.line;
    let column = fault.column;
    append_text(format!(in alloc; "{file} {line}:{column} {word}\n")?, out)
}

// Writes the line of two operations that are not allowed together.
fn write_pair_line(alloc: Global, i: u32, j: u32, out: &mut Vec<u8>) -> Result<(), NoMemory>
    requires { out.old.items ≡ [] }
    ensures { OnOk result (out.new.items ≡ case_fault_text (Pair i j)) }
{
    append_text(format!(in alloc; "case pair {i} {j}\n")?, out)
}

/// Writes the line of a case that has a fault.
pub(crate) fn write_case_fault(
    alloc: Global,
    fault: &CaseFault,
    out: &mut Vec<u8>,
) -> Result<(), NoMemory>
    requires { out.old.items ≡ [] }
    ensures { OnOk result (out.new.items ≡ case_fault_text fault.now) }
{
    match fault {
        CaseFault::Json => append_bytes(b"case json\n", out),
        CaseFault::Field(name) => write_word_line(alloc, "case field", name_word(*name), out),
        CaseFault::Kind(i) => write_number_line(alloc, "case kind", *i as u64, out),
        CaseFault::Enabled(i) => write_number_line(alloc, "case enabled", *i as u64, out),
        CaseFault::Pair(i, j) => write_pair_line(alloc, *i, *j, out),
        CaseFault::Order(i) => write_number_line(alloc, "case order", *i as u64, out),
        CaseFault::Limit(name) => write_word_line(alloc, "limit", name_word(*name), out),
    }
}
