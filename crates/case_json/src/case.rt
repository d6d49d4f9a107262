//! The reading of a case for a function.
ghost use Rattle.std.specs.Prelude.{◌≡◌, ok_or, IfOk, codes};
ghost use Rattle.std.specs.Option.{option_and_then};
ghost use Rattle.serde_json.specs.View.{view};
ghost use Rattle.fn_rules.specs.Rules.{function_of};
ghost use Rattle.case_json.specs.Faults.{CaseReads, seen_as};
ghost use Rattle.case_json.specs.Json.{json_in};
ghost use Rattle.case_json.specs.Tests.{IsReadyTrial};
ghost use Rattle.case_json.specs.Cases.{document_in, parts_in, case_in, trial_in};
ghost use Rattle.case_json.specs.declared.fault.CaseFault.TheVariants.{Json};

use crate::doc_text::doc_read;
use crate::fault::{CaseFault, Name};
use crate::first_fault::fault_of;
use crate::json::list_at;
use crate::laws::read_trials_are_ready;
use crate::limits::MAX_ORDERS;
use crate::stop::CaseError;
use crate::trial::Trial;
use fn_rules::Rules;
use ot_model::{Doc, MAX_OPERATIONS};
use serde_json::Value;
use std::alloc::Global;

/// Reads a case for a function, and answers the first fault in the order of the tests.
pub fn trial_read(alloc: Global, rules: &Rules, bytes: &[u8]) -> Result<Trial, CaseError>
    ensures reading { CaseReads result (trial_in (function_of rules.now) bytes.now) }
    ensures ready { IfOk result (λ trial. IsReadyTrial (function_of rules.now) trial) }
{
    let trial = case_read(alloc, bytes)?;
    read_trials_are_ready();
    match fault_of(rules, &trial) {
        Some(fault) => Err(CaseError::Fault(fault)),
        None => Ok(trial),
    }
}

/// Reads the parts of a case.
fn case_read(alloc: Global, bytes: &[u8]) -> Result<Trial, CaseError>
    ensures { CaseReads result (case_in bytes.now) }
{
    let json = json_read(alloc, bytes)?;
    parts_read(alloc, &json)
}

/// Reads bytes as JSON.
pub(crate) fn json_read(alloc: Global, bytes: &[u8]) -> Result<Value, CaseError>
    ensures { CaseReads (seen_as view result) (ok_or (json_in bytes.now) Json) }
{
    Ok(Value::from_slice(alloc, bytes)?)
}

fn parts_read(alloc: Global, json: &Value) -> Result<Trial, CaseError>
    ensures { CaseReads result (parts_in (view json.now)) }
{
    let doc = document(alloc, json)?;
    let ops = list_at(alloc, json, "ops", Name::Ops, MAX_OPERATIONS)?;
    let orders = list_at(alloc, json, "orders", Name::Orders, MAX_ORDERS)?;
    Ok(Trial { doc, ops, orders })
}

/// Reads the document under the key `doc`.
pub(crate) fn document(alloc: Global, json: &Value) -> Result<Doc, CaseError>
    ensures { CaseReads result (document_in (view json.now)) }
{
    match json.get("doc").and_then(Value::as_str) {
        Some(text) => doc_read(alloc, text),
        None => Err(CaseError::Fault(CaseFault::Field(Name::Doc))),
    }
}
