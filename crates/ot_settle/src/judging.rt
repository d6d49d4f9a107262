//! What is judged before it is handed over.
ghost use Rattle.std.specs.Prelude.{IsTrue, IfOk};
ghost use Rattle.fn_rules.specs.Properties.{HasTp1};
ghost use Rattle.fn_rules.specs.Rules.{function_of};
ghost use Rattle.ot_settle.specs.Outcomes.{IsShownByProof};

use ask_core::NoMemory;
use fn_rules::{Level, Rules};
use ot_confirm::{ConfirmError, judge_proof, proofs_show_the_properties};
use plan_proofs::MAX_BYTES;
use proof_text::{write_end, write_header};
use std::alloc::Global;

/// Whether the bytes are a proof of the function at the level, and keep the limit of a file.
pub(crate) fn is_proof(
    alloc: Global,
    rules: &Rules,
    level: Level,
    bytes: &[u8],
) -> Result<bool, NoMemory>
    ensures { IfOk result (λ shown. IsTrue shown → IsShownByProof (function_of rules.now) level bytes.now) }
{
    if bytes.len() > MAX_BYTES {
        return Ok(false);
    }
    match judge_proof(alloc, rules, bytes) {
        Ok(found) => Ok(found == level),
        Err(ConfirmError::Refused { .. }) => Ok(false),
        Err(ConfirmError::NoMemory) => Err(NoMemory),
    }
}

/// Whether these sections of the pairs show that a function has the first property: whether they are a proof at level
/// tp1.
pub(crate) fn pairs_hold(alloc: Global, rules: &Rules, sections: &[u8]) -> Result<bool, NoMemory>
    ensures { IfOk result (λ hold. IsTrue hold → HasTp1 (function_of rules.now)) }
{
    proofs_show_the_properties();
    let mut bytes = Vec::new(alloc);
    write_header(Level::Tp1, &mut bytes)?;
    bytes.extend_from_slice(sections)?;
    write_end(&mut bytes)?;
    is_proof(alloc, rules, Level::Tp1, &bytes)
}
