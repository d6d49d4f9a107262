//! The lines of whether one function takes back what another one makes.
ghost use Rattle.std.specs.Prelude.{◌≡◌, ◌++◌, [], codes, OnOk};
ghost use Rattle.ot_replies.specs.CounterTexts.{line_of};
ghost use Rattle.ot_replies.specs.ReversalTexts.{loss_text, loss_word, reversal_status, reversal_text};

use super::appending::append_bytes;
use super::audits::{write_form_line, write_spent};
use super::counters::{write_doc_line, write_ops};
use super::lines::write_word_line;
use ot_audit::Back;
use ot_model::{Doc, NoMemory, Op};
use std::alloc::Global;

/// The status of whether one function takes back what another one makes.
pub(crate) fn reversal_status(back: &Back) -> u8
    ensures { result ≡ reversal_status back.now }
{
    match back {
        Back::Yes => 0,
        Back::No { .. } => 1,
        Back::Spent => 8,
    }
}

// Why an operation is not taken back.
fn loss_word(there: Option<Op>, back: Option<Op>) -> &'static str
    ensures { result.now ≡ loss_word there back }
{
    match there {
        None => "undefined",
        Some(_) => match back {
            None => "undefined",
            Some(_) => "operations",
        },
    }
}

// Writes the line of the cause.
fn write_loss(
    alloc: Global,
    there: Option<Op>,
    back: Option<Op>,
    out: &mut Vec<u8>,
) -> Result<(), NoMemory>
    ensures { OnOk result (out.new.items ≡ out.old.items ++ line_of (codes "no reverse " ++ loss_word there back)) }
{
    write_word_line(alloc, "no reverse", loss_word(there, back), out)
}

// Writes where an operation is not taken back.
fn write_instance(
    alloc: Global,
    doc: &Doc,
    ops: &[Op],
    there: Option<Op>,
    back: Option<Op>,
    out: &mut Vec<u8>,
) -> Result<(), NoMemory>
    requires { out.old.items ≡ [] }
    ensures { OnOk result (out.new.items ≡ loss_text doc.now ops.now there back) }
{
    write_loss(alloc, there, back, out)?;
    write_doc_line(doc, out)?;
    write_ops(alloc, ops, out)?;
    write_form_line(alloc, "there ", there, out)?;
    write_form_line(alloc, "back ", back, out)
}

/// Writes whether one function takes back what another one makes, or where it does not.
pub(crate) fn write_reversal(
    alloc: Global,
    answer: &Back,
    out: &mut Vec<u8>,
) -> Result<(), NoMemory>
    requires { out.old.items ≡ [] }
    ensures { OnOk result (out.new.items ≡ reversal_text answer.now) }
{
    match answer {
        Back::Yes => append_bytes(b"reversed\n", out),
        Back::No {
            doc,
            a,
            b,
            there,
            back,
        } => write_instance(alloc, doc, &[*a, *b], *there, *back, out),
        Back::Spent => write_spent(out),
    }
}
