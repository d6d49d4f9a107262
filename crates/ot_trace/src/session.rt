//! A session, event by event.
ghost use Rattle.std.specs.Prelude.{◌≡◌, ◌≢◌, ◌≤◌, ◌++◌, true, length, codes, IfOk, OnOk};
ghost use Rattle.std.specs.List.{All, flat_map};
ghost use Rattle.fn_rules.specs.Rules.{function_of};
ghost use Rattle.case_json.specs.Scripts.{IsPlayable};
ghost use Rattle.case_json.specs.declared.limits.TheConstants.{MAX_EVENTS};
ghost use Rattle.case_json.specs.declared.script.Event.TheVariants as events;
ghost use Rattle.ot_causal.specs.Sessions.{IsSite};
ghost use Rattle.ot_session.specs.FormPairs.{CanMove};
ghost use Rattle.ot_session.specs.Views.{data_in, view_of};
ghost use Rattle.ot_session.specs.declared.answer.Make.TheVariants as makes;
ghost use Rattle.ot_session.specs.declared.answer.Take.TheVariants as takes;
ghost use Rattle.ot_session.specs.declared.answer.Took.TheVariants.{Done};
ghost use Rattle.ot_trace.specs.Columns.{columns, two_columns};
ghost use Rattle.ot_trace.specs.SessionTexts.{carried_line, carried_text, further_number, make_text, op_name, pair_line};
ghost use Rattle.ot_trace.specs.SessionTexts.{over_name, pair_lines, site_event, take_text, took_line};
ghost use Rattle.ot_trace.specs.SessionTexts.{IsEventTold};
ghost use Rattle.ot_steps.specs.StepTexts.{short_op};
ghost use Rattle.ot_trace.specs.SessionTexts.{TracesScript, TracesSession};

use crate::columns::{append, write_columns, write_two_columns};
use crate::lines::{choice_bytes, form_bytes, op_bytes, write_done};
use case_json::{Event, Script};
use fn_rules::Rules;
use ot_model::{Doc, NoMemory, Op};
use ot_session::{FormPair, Make, Session, Take, Took};
use ot_steps::{write_short_document, write_short_op};
use ot_ways::{Step, step};
use std::alloc::Global;

// The line of an operation that a site makes.
fn write_made(
    alloc: Global,
    number: u32,
    site: u32,
    made: u32,
    op: &Op,
    out: &mut Vec<u8>,
) -> Result<(), NoMemory>
    ensures { OnOk result (out.new.items
        ≡ out.old.items ++ columns (site_event number site) (short_op op.now) (op_name made)) }
{
    let name = format!(in alloc; "event {number} site {site}")?;
    let text = op_bytes(alloc, "", op)?;
    let own = format!(in alloc; "op {made}")?;
    write_columns(name.as_bytes(), &text, own.as_bytes(), out)
}

fn write_make(
    alloc: Global,
    number: u32,
    site: u32,
    made: u32,
    op: &Op,
    doc: &Doc,
    out: &mut Vec<u8>,
) -> Result<(), NoMemory>
    ensures { OnOk result (out.new.items ≡ out.old.items ++ make_text number site made op.now doc.now) }
{
    write_made(alloc, number, site, made, op, out)?;
    write_done(alloc, op, doc, out)
}

fn write_number(alloc: Global, number: u32, out: &mut Vec<u8>) -> Result<(), NoMemory>
    ensures { OnOk result (out.new.items ≡ out.old.items ++ further_number number) }
{
    append(format!(in alloc; " {number}")?.as_bytes(), out)
}

fn write_numbers(alloc: Global, numbers: &[u32], out: &mut Vec<u8>) -> Result<(), NoMemory>
    ensures { OnOk result (out.new.items ≡ out.old.items ++ flat_map further_number numbers.now) }
{
    for number in numbers {
        write_number(alloc, *number, out)?;
    }
    Ok(())
}

fn write_integrated(
    alloc: Global,
    done: &[u32],
    doc: &Doc,
    out: &mut Vec<u8>,
) -> Result<(), NoMemory>
    ensures { OnOk result (out.new.items ≡ out.old.items ++ took_line (Done done.now) doc.now) }
{
    append(b"  integrated", out)?;
    write_numbers(alloc, done, out)?;
    append(b" ", out)?;
    write_short_document(alloc, 0, doc, out)?;
    append(b"\n", out)
}

// The first column of a transformation: of which operation, over which one.
fn over_bytes(alloc: Global, number: u32, pair: &FormPair) -> Result<Vec<u8>, NoMemory>
    ensures { IfOk result (λ text. text.items
        ≡ over_name number pair.now.number ++ codes ": " ++ short_op pair.now.against) }
{
    let other = pair.number;
    let name = format!(in alloc; "  {number} over {other}")?;
    let mut text = Vec::new(alloc);
    append(name.as_bytes(), &mut text)?;
    append(b": ", &mut text)?;
    write_short_op(alloc, &pair.against, &mut text)?;
    Ok(text)
}

// The line of a transformation.
fn write_carried(
    alloc: Global,
    rules: &Rules,
    number: u32,
    pair: &FormPair,
    step: &Step,
    out: &mut Vec<u8>,
) -> Result<(), NoMemory>
    ensures { OnOk result (out.new.items
        ≡ out.old.items ++ carried_line (function_of rules.now) number pair.now step.now) }
{
    let over = over_bytes(alloc, number, pair)?;
    let form = form_bytes(alloc, &step.result)?;
    let case = choice_bytes(alloc, rules, step)?;
    write_columns(&over, &form, &case, out)
}

fn write_pair(
    alloc: Global,
    rules: &Rules,
    number: u32,
    pair: &FormPair,
    out: &mut Vec<u8>,
) -> Result<(), NoMemory>
    requires { CanMove (function_of rules.now) pair.now }
    ensures { OnOk result (out.new.items ≡ out.old.items ++ pair_line (function_of rules.now) number pair.now) }
{
    let step = step(rules, &pair.form, &pair.against);
    write_carried(alloc, rules, number, pair, &step, out)
}

fn write_pairs(
    alloc: Global,
    rules: &Rules,
    number: u32,
    pairs: &[FormPair],
    out: &mut Vec<u8>,
) -> Result<(), NoMemory>
    requires { All (CanMove (function_of rules.now)) pairs.now }
    ensures { OnOk result (out.new.items
        ≡ out.old.items ++ flat_map (pair_line (function_of rules.now) number) pairs.now) }
{
    for pair in pairs {
        write_pair(alloc, rules, number, pair, out)?;
    }
    Ok(())
}

// The transformations that led to what a site executed of an operation.
fn write_integrated_op(
    alloc: Global,
    session: &Session,
    site: u32,
    number: u32,
    out: &mut Vec<u8>,
) -> Result<(), NoMemory>
    requires is_open { (view_of session.now).is_open ≡ true }
    requires site { IsSite (data_in (view_of session.now)).sites site }
    ensures { OnOk result (out.new.items ≡ out.old.items ++ pair_lines (view_of session.now) site number) }
{
    let pairs = session.form_pairs(site, number)?;
    write_pairs(alloc, session.rules(), number, pairs.as_slice(), out)
}

fn write_integrated_ops(
    alloc: Global,
    session: &Session,
    site: u32,
    done: &[u32],
    out: &mut Vec<u8>,
) -> Result<(), NoMemory>
    requires is_open { (view_of session.now).is_open ≡ true }
    requires site { IsSite (data_in (view_of session.now)).sites site }
    ensures { OnOk result (out.new.items
        ≡ out.old.items ++ flat_map (pair_lines (view_of session.now) site) done.now) }
{
    for number in done {
        write_integrated_op(alloc, session, site, *number, out)?;
    }
    Ok(())
}

// The transformations of what a site integrated.
fn write_all_carried(
    alloc: Global,
    session: &Session,
    site: u32,
    took: &Took,
    out: &mut Vec<u8>,
) -> Result<(), NoMemory>
    requires is_open { (view_of session.now).is_open ≡ true }
    requires site { IsSite (data_in (view_of session.now)).sites site }
    ensures { OnOk result (out.new.items ≡ out.old.items ++ carried_text (view_of session.now) site took.now) }
{
    match took {
        Took::Done(done) => write_integrated_ops(alloc, session, site, done.as_slice(), out),
        Took::Held | Took::Repeat => Ok(()),
    }
}

fn write_took(alloc: Global, took: &Took, doc: &Doc, out: &mut Vec<u8>) -> Result<(), NoMemory>
    ensures { OnOk result (out.new.items ≡ out.old.items ++ took_line took.now doc.now) }
{
    match took {
        Took::Done(done) => write_integrated(alloc, done.as_slice(), doc, out),
        Took::Held => append(b"  held\n", out),
        Took::Repeat => append(b"  repeated\n", out),
    }
}

// The line of an operation that a site takes.
fn write_taken(
    alloc: Global,
    number: u32,
    site: u32,
    taken: u32,
    out: &mut Vec<u8>,
) -> Result<(), NoMemory>
    ensures { OnOk result (out.new.items ≡ out.old.items ++ two_columns (site_event number site) (op_name taken)) }
{
    let name = format!(in alloc; "event {number} site {site}")?;
    let text = format!(in alloc; "op {taken}")?;
    write_two_columns(name.as_bytes(), text.as_bytes(), out)
}

fn write_take(
    alloc: Global,
    session: &Session,
    number: u32,
    site: u32,
    taken: u32,
    took: &Took,
    out: &mut Vec<u8>,
) -> Result<(), NoMemory>
    requires is_open { (view_of session.now).is_open ≡ true }
    requires site { IsSite (data_in (view_of session.now)).sites site }
    ensures { OnOk result (out.new.items
        ≡ out.old.items ++ take_text (view_of session.now) number site taken took.now) }
{
    write_taken(alloc, number, site, taken, out)?;
    write_all_carried(alloc, session, site, took, out)?;
    write_took(alloc, took, session.doc(site), out)
}

// An operation is not made; want of memory is passed on.
fn not_made(why: Make) -> Result<(), NoMemory>
    ensures { OnOk result (why ≢ makes.NoMemory) }
{
    match why {
        Make::NoMemory => Err(NoMemory),
        Make::NoSite | Make::WrongSite | Make::WrongKind | Make::NotEnabled | Make::Full => Ok(()),
    }
}

// An operation is not taken; want of memory is passed on.
fn not_taken(why: Take) -> Result<(), NoMemory>
    ensures { OnOk result (why ≢ takes.NoMemory) }
{
    match why {
        Take::NoMemory => Err(NoMemory),
        Take::NoSite | Take::NoOp | Take::Stuck(_) | Take::Spent => Ok(()),
    }
}

// A site makes an operation.
fn make(
    alloc: Global,
    session: &mut Session,
    number: u32,
    site: u32,
    op: Op,
    out: &mut Vec<u8>,
) -> Result<bool, NoMemory>
    requires { (view_of session.old).is_open ≡ true }
    ensures { IfOk result (λ went. IsEventTold (view_of session.old) number (events.Make site op)
        (view_of session.new) went out.old.items out.new.items) }
{
    match session.make(site, op) {
        Ok(made) => {
            write_make(alloc, number, site, made, &op, session.doc(site), out)?;
            Ok(true)
        }
        Err(why) => {
            not_made(why)?;
            Ok(false)
        }
    }
}

// A site takes an operation.
fn take(
    alloc: Global,
    session: &mut Session,
    number: u32,
    site: u32,
    taken: u32,
    out: &mut Vec<u8>,
) -> Result<bool, NoMemory>
    requires { (view_of session.old).is_open ≡ true }
    ensures { IfOk result (λ went. IsEventTold (view_of session.old) number (events.Take site taken)
        (view_of session.new) went out.old.items out.new.items) }
{
    match session.take(site, taken) {
        Ok(took) => {
            write_take(alloc, session, number, site, taken, &took, out)?;
            Ok(true)
        }
        Err(why) => {
            not_taken(why)?;
            Ok(false)
        }
    }
}

// Runs an event, of which this is the number, and tells of it. Answers whether it was done.
fn run_event(
    alloc: Global,
    session: &mut Session,
    number: u32,
    event: Event,
    out: &mut Vec<u8>,
) -> Result<bool, NoMemory>
    requires { (view_of session.old).is_open ≡ true }
    ensures { IfOk result (λ went. IsEventTold (view_of session.old) number event (view_of session.new) went
        out.old.items out.new.items) }
{
    match event {
        Event::Make { site, op } => make(alloc, session, number, site, op, out),
        Event::Take {
            site,
            number: taken,
        } => take(alloc, session, number, site, taken, out),
    }
}

// Runs events up to the first that is refused, and tells of them.
fn run_events(
    alloc: Global,
    session: &mut Session,
    events: &[Event],
    out: &mut Vec<u8>,
) -> Result<(), NoMemory>
    requires is_open { (view_of session.old).is_open ≡ true }
    requires few { length events.now ≤ MAX_EVENTS }
    ensures { OnOk result (TracesSession (view_of session.old) 0 events.now out.old.items out.new.items) }
{
    for (number, event) in events.iter().enumerate() {
        if !run_event(alloc, session, number as u32, *event, out)? {
            return Ok(());
        }
    }
    Ok(())
}

/// Writes what happens in a session, event by event: what is made, and of what is taken whether it is integrated, with
/// held ones after it, or held, or a repeat; of each operation that is integrated, over what it is carried, with the case
/// that is taken of each transformation; and the document after it.
pub fn trace_session(
    alloc: Global,
    rules: &Rules,
    script: &Script,
    out: &mut Vec<u8>,
) -> Result<(), NoMemory>
    requires { IsPlayable script.now }
    ensures { OnOk result (TracesScript (function_of rules.now) script.now out.old.items out.new.items) }
{
    let mut session = Session::new(alloc, rules, &script.doc, script.sites)?;
    run_events(alloc, &mut session, script.events.as_slice(), out)
}
