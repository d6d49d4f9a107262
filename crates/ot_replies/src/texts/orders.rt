//! The lines of orders.
ghost use Rattle.std.specs.Prelude.{◌≡◌, ◌++◌, [], map, OnOk};
ghost use Rattle.ot_integrate.specs.Ends.{outcome_of};
ghost use Rattle.ot_replies.specs.OrderTexts.{outcome_text, order_line, order_lines, orders_text};

use super::appending::{append_bytes, append_text};
use super::documents::write_document;
use ot_integrate::End;
use ot_model::NoMemory;
use std::alloc::Global;

fn write_outcome(alloc: Global, end: &End, out: &mut Vec<u8>) -> Result<(), NoMemory>
    ensures { OnOk result (out.new.items ≡ out.old.items ++ outcome_text (outcome_of end.now)) }
{
    match end {
        End::Doc(doc) => write_document(doc, out),
        End::Stuck(place) => append_text(format!(in alloc; "stuck {place}")?, out),
    }
}

fn write_order(alloc: Global, number: usize, end: &End, out: &mut Vec<u8>) -> Result<(), NoMemory>
    ensures { OnOk result (out.new.items ≡ out.old.items ++ order_line number (outcome_of end.now)) }
{
    append_text(format!(in alloc; "order {number} ")?, out)?;
    write_outcome(alloc, end, out)?;
    append_bytes(b"\n", out)
}

fn write_orders(alloc: Global, ends: &[End], out: &mut Vec<u8>) -> Result<(), NoMemory>
    requires { out.old.items ≡ [] }
    ensures { OnOk result (out.new.items ≡ order_lines 0 (map outcome_of ends.now)) }
{
    for (number, end) in ends.iter().enumerate() {
        write_order(alloc, number, end, out)?;
    }
    Ok(())
}

/// Writes a line for each order, and whether all ended with one document.
pub(crate) fn write_ends(
    alloc: Global,
    ends: &[End],
    same: bool,
    out: &mut Vec<u8>,
) -> Result<(), NoMemory>
    requires { out.old.items ≡ [] }
    ensures { OnOk result (out.new.items ≡ orders_text (map outcome_of ends.now) same) }
{
    write_orders(alloc, ends, out)?;
    let last = if same { "same\n" } else { "differ\n" };
    append_bytes(last.as_bytes(), out)
}
