//! The lines that say why a function has the properties of a level, or where it breaks one.
ghost use Rattle.std.specs.Prelude.{◌≡◌, ◌++◌, [], OnOk};
ghost use Rattle.ot_replies.specs.ExplainTexts.{before_text, breaks_text, counts_text, explanation_status};
ghost use Rattle.ot_replies.specs.ExplainTexts.{explanation_text, ground_text, holds_text, misread_text, open_text};
ghost use Rattle.ot_replies.specs.ExplainTexts.{unsettled_text};

use super::appending::{append_bytes, append_text};
use super::counters::write_counter;
use super::faults::write_text_fault;
use super::level_word;
use super::lines::{write_cause_line, write_number_line, write_word_line};
use crate::reply::{Attempt, Explanation, Ground, Subject, Unsettled};
use fn_rules::Level;
use fn_text::TextFault;
use ot_counter::Counter;
use ot_model::NoMemory;
use std::alloc::Global;

/// The status of an explanation.
pub(crate) fn explanation_status(explanation: &Explanation) -> u8
    ensures { result ≡ explanation_status explanation.now }
{
    match explanation {
        Explanation::Holds(..) => 0,
        Explanation::Breaks(..) => 1,
        Explanation::Open(..) => 8,
        Explanation::Misread(..) => 3,
    }
}

// Writes what shows that a function has the properties of a level.
fn write_ground(alloc: Global, basis: Ground, out: &mut Vec<u8>) -> Result<(), NoMemory>
    ensures { OnOk result (out.new.items ≡ out.old.items ++ ground_text basis) }
{
    match basis {
        Ground::Questions(number) => write_number_line(alloc, "questions", number, out),
        Ground::Proof(bytes) => write_cause_line(alloc, "settle: proof of", bytes, "bytes", out),
    }
}

// Writes that a function has the properties of a level, and what shows it.
fn write_holds(
    alloc: Global,
    level: Level,
    basis: Ground,
    out: &mut Vec<u8>,
) -> Result<(), NoMemory>
    requires { out.old.items ≡ [] }
    ensures { OnOk result (out.new.items ≡ holds_text level basis) }
{
    write_word_line(alloc, "yes", level_word(level), out)?;
    write_ground(alloc, basis, out)
}

// Writes that TP1 holds, where TP2 is broken.
fn write_before(level: Level, out: &mut Vec<u8>) -> Result<(), NoMemory>
    ensures { OnOk result (out.new.items ≡ out.old.items ++ before_text level) }
{
    match level {
        Level::Tp1 => Ok(()),
        Level::Tp2 => append_bytes(b"tp1 holds\n", out),
    }
}

// Writes the lines of a counterexample, and behind them what became of the operations.
fn write_breaks(
    alloc: Global,
    counter: &Counter,
    steps: &[u8],
    out: &mut Vec<u8>,
) -> Result<(), NoMemory>
    requires { out.old.items ≡ [] }
    ensures { OnOk result (out.new.items ≡ breaks_text counter.now steps.now) }
{
    write_before(counter.level, out)?;
    write_counter(alloc, counter, out)?;
    append_bytes(steps, out)
}

// Writes why `settle` said nothing.
fn write_unsettled(alloc: Global, cause: Unsettled, out: &mut Vec<u8>) -> Result<(), NoMemory>
    ensures { OnOk result (out.new.items ≡ out.old.items ++ unsettled_text cause) }
{
    match cause {
        Unsettled::Questions(most) => write_cause_line(alloc, "settle:", most, "questions", out),
        Unsettled::Bytes(most) => write_cause_line(alloc, "settle:", most, "bytes", out),
        Unsettled::NoProof => append_bytes(b"settle: no proof\n", out),
    }
}

// Writes how far `settle` came.
fn write_counts(
    alloc: Global,
    asked: u64,
    again: u64,
    bytes: u64,
    out: &mut Vec<u8>,
) -> Result<(), NoMemory>
    ensures { OnOk result (out.new.items ≡ out.old.items ++ counts_text asked again bytes) }
{
    append_text(
        format!(in alloc; "settle: asked {asked}, again {again}, bytes {bytes}\n")?,
        out,
    )
}

// Writes that nothing is said, how many questions `prove` may ask, and why `settle` said nothing.
fn write_open(
    alloc: Global,
    most: u64,
    attempt: &Attempt,
    out: &mut Vec<u8>,
) -> Result<(), NoMemory>
    requires { out.old.items ≡ [] }
    ensures { OnOk result (out.new.items ≡ open_text most attempt.now) }
{
    append_bytes(b"spent\n", out)?;
    write_cause_line(alloc, "prove:", most, "questions", out)?;
    write_unsettled(alloc, attempt.cause, out)?;
    write_counts(alloc, attempt.asked, attempt.again, attempt.bytes, out)
}

// Writes the line of a fault, and behind it what helps to mend it.
fn write_misread(
    alloc: Global,
    fault: &TextFault,
    hint: &[u8],
    out: &mut Vec<u8>,
) -> Result<(), NoMemory>
    requires { out.old.items ≡ [] }
    ensures { OnOk result (out.new.items ≡ misread_text fault.now hint.now) }
{
    write_text_fault(alloc, Subject::First, fault, out)?;
    append_bytes(hint, out)
}

/// Writes the lines of an explanation.
pub(crate) fn write_explanation(
    alloc: Global,
    explanation: &Explanation,
    out: &mut Vec<u8>,
) -> Result<(), NoMemory>
    requires { out.old.items ≡ [] }
    ensures { OnOk result (out.new.items ≡ explanation_text explanation.now) }
{
    match explanation {
        Explanation::Holds(level, basis) => write_holds(alloc, *level, *basis, out),
        Explanation::Breaks(counter, steps) => write_breaks(alloc, counter, steps.as_slice(), out),
        Explanation::Open(most, attempt) => write_open(alloc, *most, attempt, out),
        Explanation::Misread(fault, hint) => write_misread(alloc, fault, hint.as_slice(), out),
    }
}
