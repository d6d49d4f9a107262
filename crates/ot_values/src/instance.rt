//! The operations and the document that are read off values.
ghost use Rattle.std.specs.Prelude.{◌≡◌, Some, IfOk};
ghost use Rattle.ot_model.specs.Operations.{kind_of};
ghost use Rattle.fn_rules.specs.Conditions.{IsWithin};
ghost use Rattle.diff_tables.specs.Solutions.{valuation_of};
ghost use Rattle.ot_questions.specs.Places.{sym_op};
ghost use Rattle.ot_questions.specs.Meaning as meaning;
ghost use Rattle.ot_values.specs.Values as values_read;

use crate::NoMemory;
use ot_model::{Cell, Doc, Kind, Op};
use ot_questions::{Who, char_name, position_name, site_name};
use std::alloc::Global;

/// The operation that the names stand for.
pub fn op_at(values: &[i32], kind: Kind, who: Who) -> Op
    requires { values_read.IsSmallAt values.now who }
    ensures value { result ≡ meaning.op_at (valuation_of values.now) (sym_op kind who) }
    ensures kind { kind_of result ≡ Some kind }
    ensures near { IsWithin values_read.farthest result }
{
    let at = i64::from(values[position_name(who) as usize]);
    let ch = values[char_name(who) as usize] as u8 as char;
    let site = values[site_name(who) as usize] as u32;
    match kind {
        Kind::Ins => Op::Ins { at, ch, site },
        Kind::Del => Op::Del { at, site },
        Kind::Upd => Op::Upd { at, ch, site },
    }
}

/// The document of so many live cells `y`.
pub fn live_document(alloc: Global, count: u32) -> Result<Doc, NoMemory>
    ensures { IfOk result (λ doc. doc ≡ values_read.live_cells count) }
{
    let mut doc = Doc::new(alloc);
    for _place in 0..count {
        doc.push(Cell {
            ch: 'y',
            live: true,
        })?;
    }
    Ok(doc)
}
