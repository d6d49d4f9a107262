//! `trace [--session | --hub] FUNCTION FILE`: what happens in a case, a session or a hub, step by step.
ghost use Rattle.std.specs.Prelude.{◌≡◌, ◌≤◌, ◌++◌, [], length, Ok, IfOk, IsErrOf, OnOk};
ghost use Rattle.case_json.specs.Hubs.{IsHubPlayable};
ghost use Rattle.case_json.specs.Scripts.{IsPlayable};
ghost use Rattle.case_json.specs.Tests.{IsReadyTrial};
ghost use Rattle.fn_rules.specs.Rules.{function_of};
ghost use Rattle.ot_outside.specs.Faults.{Rose};
ghost use Rattle.ot_outside.specs.Unchanged.{Unchanged};
ghost use Rattle.ot_replies.specs.Limits.{limit_of};
ghost use Rattle.ot_replies.specs.declared.reply.FileKind.TheVariants as files;
ghost use Rattle.ot_replies.specs.declared.reply.Reply.TheVariants.{CaseRefused};
ghost use Rattle.ot_words.specs.Commands.{Trace};
ghost use Rattle.ot_words.specs.declared.command.TraceKind.TheVariants as traces;
ghost use Rattle.ot_commands.specs.Given.{IsReplyOfGiven};
ghost use Rattle.ot_commands.specs.Load.{GoesOnBehind};
ghost use Rattle.ot_commands.specs.Replies.{IsReplyTo};
ghost use Rattle.ot_commands.specs.Trace.{IsTracedAs, TellsCase, TellsHubScript, TellsSession, cause_of, layout_of};
ghost use Rattle.ot_commands.specs.Trace.{placed_cause, placed_fault, traced, where_lines};

use crate::case_file::{ByCase, CaseCommand};
use crate::hub::run_script as run_hub;
use crate::integrate::outcomes;
use crate::load::Stop;
use crate::replay::run_script;
use crate::two_files::reply_to_both;
use case_json::{
    CaseError, CaseFault, EventCause, FaultPath, HubScript, Layout, Script, Trial, event_path,
    fault_path, hub_read, line_column_of, script_read, trial_read, write_cause, write_fault,
};
use fn_rules::Rules;
use ot_model::NoMemory;
use ot_outside::Shelf;
use ot_replies::{EventFault, Reply, status, text};
use ot_trace::{trace_case, trace_hub, trace_session};
use ot_words::TraceKind;
use plain_list::List;
use std::alloc::Global;

// How the file is laid out.
fn layout_of(events: TraceKind) -> Layout
    ensures { result ≡ layout_of events }
{
    match events {
        TraceKind::Case => Layout::Case,
        TraceKind::Session => Layout::Session,
        TraceKind::Hub => Layout::Hub,
    }
}

// The cause for which an event is refused.
fn cause_of(why: EventFault) -> EventCause
    ensures { result ≡ cause_of why }
{
    match why {
        EventFault::Site => EventCause::Site,
        EventFault::Owner => EventCause::Owner,
        EventFault::Kind => EventCause::Kind,
        EventFault::Enabled => EventCause::Enabled,
        EventFault::Number => EventCause::Number,
    }
}

// Writes where a fault of these bytes is that has this path.
fn write_placed_fault(
    alloc: Global,
    bytes: &[u8],
    path: Option<FaultPath>,
    fault: &CaseFault,
    out: &mut Vec<u8>,
) -> Result<(), NoMemory>
    ensures { OnOk result (out.new.items ≡ out.old.items ++ placed_fault bytes.now path fault.now) }
{
    let at = match &path {
        Some(path) => line_column_of(bytes, path),
        None => None,
    };
    write_fault(alloc, path, at, fault, out)
}

// Writes where the event is that is refused.
fn write_placed_cause(
    alloc: Global,
    bytes: &[u8],
    path: FaultPath,
    cause: EventCause,
    out: &mut Vec<u8>,
) -> Result<(), NoMemory>
    ensures { OnOk result (out.new.items ≡ out.old.items ++ placed_cause bytes.now path cause) }
{
    let at = line_column_of(bytes, &path);
    write_cause(alloc, path, at, cause, out)
}

// Writes where the fault of a reply is, if it tells one.
fn write_where(
    alloc: Global,
    events: TraceKind,
    bytes: &[u8],
    end: &Reply,
    out: &mut Vec<u8>,
) -> Result<(), NoMemory>
    ensures { OnOk result (out.new.items ≡ out.old.items ++ where_lines events bytes.now end.now) }
{
    match end {
        Reply::CaseRefused(fault) => {
            let path = fault_path(alloc, layout_of(events), bytes, fault)?;
            write_placed_fault(alloc, bytes, path, fault, out)
        }
        Reply::EventRefused(number, why) => {
            let cause = cause_of(*why);
            write_placed_cause(alloc, bytes, event_path(*number, cause), cause, out)
        }
        _ => Ok(()),
    }
}

// What is told, behind it a reply, and behind that where its fault is.
fn traced(
    alloc: Global,
    events: TraceKind,
    bytes: &[u8],
    told: Vec<u8>,
    end: Reply,
) -> Result<Reply, NoMemory>
    ensures { IfOk result (λ r. r ≡ traced events bytes.now told.items end) }
{
    let mut lines = Vec::new(alloc);
    write_where(alloc, events, bytes, &end, &mut lines)?;
    let status = status(&end);
    let answer = text(alloc, end)?;
    let mut whole = told;
    whole.extend_from_slice(&answer)?;
    whole.extend_from_slice(&lines)?;
    Ok(Reply::Traced(List::from_vec(whole), status))
}

// What is told of a case, and what it comes to.
fn tell_case(alloc: Global, rules: &Rules, trial: &Trial) -> Result<(Vec<u8>, Reply), NoMemory>
    requires { IsReadyTrial (function_of rules.now) trial.now }
    ensures { IfOk result (λ v. TellsCase (function_of rules.now) (Ok trial.now) v.0.items v.1) }
{
    let mut told = Vec::new(alloc);
    trace_case(alloc, rules, trial, &mut told)?;
    let end = outcomes(alloc, rules, trial)?;
    Ok((told, end))
}

// What is told of a session, and what it comes to.
fn tell_session(alloc: Global, rules: &Rules, script: &Script) -> Result<(Vec<u8>, Reply), NoMemory>
    requires { IsPlayable script.now }
    ensures { IfOk result (λ v. TellsSession (function_of rules.now) (Ok script.now) v.0.items v.1) }
{
    let mut told = Vec::new(alloc);
    trace_session(alloc, rules, script, &mut told)?;
    let end = run_script(alloc, rules, script)?;
    Ok((told, end))
}

// What is told of a hub, and what it comes to.
fn tell_hub(alloc: Global, rules: &Rules, script: &HubScript) -> Result<(Vec<u8>, Reply), NoMemory>
    requires { IsHubPlayable script.now }
    ensures { IfOk result (λ v. TellsHubScript (function_of rules.now) (Ok script.now) v.0.items v.1) }
{
    let mut told = Vec::new(alloc);
    trace_hub(alloc, rules, script, &mut told)?;
    let end = run_hub(alloc, rules, script)?;
    Ok((told, end))
}

// Of a file that is refused nothing is told.
fn refused(alloc: Global, fault: CaseFault) -> (Vec<u8>, Reply)
    ensures told { result.0.items ≡ [] }
    ensures end { result.1 ≡ CaseRefused fault }
{
    (Vec::new(alloc), Reply::CaseRefused(fault))
}

// What is told of the bytes of a case, and what they come to.
#[tactic(auto, unfolding(crate::specs::Trace::IsTracedAs))]
fn told_case(alloc: Global, rules: &Rules, bytes: &[u8]) -> Result<(Vec<u8>, Reply), NoMemory>
    requires { length bytes.now ≤ limit_of files.Case }
    ensures { IfOk result (λ v. IsTracedAs traces.Case (function_of rules.now) bytes.now v.0.items v.1) }
{
    match trial_read(alloc, rules, bytes) {
        Ok(trial) => tell_case(alloc, rules, &trial),
        Err(CaseError::Fault(fault)) => Ok(refused(alloc, fault)),
        Err(CaseError::NoMemory) => Err(NoMemory),
    }
}

// The same of a session.
#[tactic(auto, unfolding(crate::specs::Trace::IsTracedAs))]
fn told_session(alloc: Global, rules: &Rules, bytes: &[u8]) -> Result<(Vec<u8>, Reply), NoMemory>
    requires { length bytes.now ≤ limit_of files.Case }
    ensures { IfOk result (λ v. IsTracedAs traces.Session (function_of rules.now) bytes.now v.0.items v.1) }
{
    match script_read(alloc, bytes) {
        Ok(script) => tell_session(alloc, rules, &script),
        Err(CaseError::Fault(fault)) => Ok(refused(alloc, fault)),
        Err(CaseError::NoMemory) => Err(NoMemory),
    }
}

// And of a hub.
#[tactic(auto, unfolding(crate::specs::Trace::IsTracedAs))]
fn told_hub(alloc: Global, rules: &Rules, bytes: &[u8]) -> Result<(Vec<u8>, Reply), NoMemory>
    requires { length bytes.now ≤ limit_of files.Case }
    ensures { IfOk result (λ v. IsTracedAs traces.Hub (function_of rules.now) bytes.now v.0.items v.1) }
{
    match hub_read(alloc, bytes) {
        Ok(script) => tell_hub(alloc, rules, &script),
        Err(CaseError::Fault(fault)) => Ok(refused(alloc, fault)),
        Err(CaseError::NoMemory) => Err(NoMemory),
    }
}

// A case is told step by step.
struct TracingCase;

impl CaseCommand for TracingCase {
    ghost use Rattle.ot_commands.specs.Trace.{IsReplyToTraced};
    ghost use Rattle.ot_words.specs.declared.command.TraceKind.TheVariants as traces;

    ghost gets = { IsReplyToTraced traces.Case };

    ghost agrees = { λ f. ⊥ };

    fn reply(alloc: Global, rules: &Rules, bytes: &[u8]) -> Result<Reply, NoMemory> {
        let (told, end) = told_case(alloc, rules, bytes)?;
        traced(alloc, TraceKind::Case, bytes, told, end)
    }
}

// A session is told event by event.
struct TracingSession;

impl CaseCommand for TracingSession {
    ghost use Rattle.ot_commands.specs.Trace.{IsReplyToTraced};
    ghost use Rattle.ot_words.specs.declared.command.TraceKind.TheVariants as traces;

    ghost gets = { IsReplyToTraced traces.Session };

    ghost agrees = { λ f. ⊥ };

    fn reply(alloc: Global, rules: &Rules, bytes: &[u8]) -> Result<Reply, NoMemory> {
        let (told, end) = told_session(alloc, rules, bytes)?;
        traced(alloc, TraceKind::Session, bytes, told, end)
    }
}

// A hub is told event by event.
struct TracingHub;

impl CaseCommand for TracingHub {
    ghost use Rattle.ot_commands.specs.Trace.{IsReplyToTraced};
    ghost use Rattle.ot_words.specs.declared.command.TraceKind.TheVariants as traces;

    ghost gets = { IsReplyToTraced traces.Hub };

    ghost agrees = { λ f. ⊥ };

    fn reply(alloc: Global, rules: &Rules, bytes: &[u8]) -> Result<Reply, NoMemory> {
        let (told, end) = told_hub(alloc, rules, bytes)?;
        traced(alloc, TraceKind::Hub, bytes, told, end)
    }
}

/// The reply to the command.
pub fn trace<H: Shelf>(
    alloc: Global,
    shelf: &mut H,
    events: TraceKind,
    function: &str,
    file: &str,
) -> Result<Reply, Stop>
    requires function { H.offered shelf.old function.now }
    requires file { GoesOnBehind (H.holds shelf.old function.now) → H.offered shelf.old file.now }

    ensures ok { IfOk result (λ reply. IsReplyTo (H.holds shelf.old) (Trace events function.now file.now) reply) }
    ensures given { IfOk result (IsReplyOfGiven (H.reads shelf.old) (H.reads shelf.new)
        (Trace events function.now file.now)) }
    ensures shelf { IsErrOf result Stop.Shelf → Rose (H.faults shelf.old) (H.faults shelf.new) }
    ensures unchanged { Unchanged H.holds H.offered H.faults shelf.old shelf.new }
{
    match events {
        TraceKind::Case => reply_to_both::<ByCase<TracingCase>, H>(alloc, shelf, function, file),
        TraceKind::Session => {
            reply_to_both::<ByCase<TracingSession>, H>(alloc, shelf, function, file)
        }
        TraceKind::Hub => reply_to_both::<ByCase<TracingHub>, H>(alloc, shelf, function, file),
    }
}
