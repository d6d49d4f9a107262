//! Whether bytes are a proof of a function.
ghost use Rattle.std.specs.Prelude.{◌≡◌, ◌⊎◌, Err};
ghost use Rattle.fn_rules.specs.Rules.{function_of};
ghost use Rattle.proof_sections.specs.declared.refusal.ConfirmError.TheVariants as confirm;
ghost use Rattle.ot_confirm.specs.Judgement.{judgement_of};

use crate::section::{arena, judge_sections};
use fn_rules::{Level, Rules, obligations, obligations_are_those_of_the_kinds};
use proof_sections::{ConfirmError, ProofRefusal, judge_end, judge_header};
use std::alloc::Global;

/// Whether the bytes are a proof of the function, and at which level; or where they are refused first, and why. Nothing
/// is judged after what is refused.
pub fn judge_proof(alloc: Global, rules: &Rules, bytes: &[u8]) -> Result<Level, ConfirmError>
    ensures judged { (result ≡ Err confirm.NoMemory) ⊎ (result ≡ judgement_of (function_of rules.now) bytes.now) }
{
    obligations_are_those_of_the_kinds();
    let (level, start) = match judge_header(bytes) {
        Ok(header) => header,
        Err(end) => return Err(end),
    };
    let head = rules.head();
    let names = match obligations(alloc, &head, level) {
        Ok(names) => names,
        Err(_) => return Err(ConfirmError::NoMemory),
    };
    let mut bump = arena(alloc);
    let behind = match judge_sections(alloc, &mut bump, rules, &names, bytes, start) {
        Ok(behind) => behind,
        Err(end) => return Err(end),
    };
    match judge_end(bytes, behind) {
        Ok(end) if end == bytes.len() => Ok(level),
        Ok(end) => Err(ConfirmError::Refused {
            offset: end as u64,
            why: ProofRefusal::Trailing,
        }),
        Err(end) => Err(end),
    }
}
