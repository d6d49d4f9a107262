//! `drill NUMBER`: a workload is generated, its function proved, the certificate checked, and its session gone through.
ghost use Rattle.std.specs.Prelude.{◌≡◌, ◌≢◌, ◌≤◌, ◌<◌, ◌^◌, IfOk, length, None};
ghost use Rattle.fn_rules.specs.Rules.{function_of};
ghost use Rattle.ot_drill.specs.Workload.{drill_function};
ghost use Rattle.ot_sections.specs.Certificates.{IsCertificate};
ghost use Rattle.ot_commands.specs.Drill.{IsDrilled, IsReplyToDrill};
ghost use Rattle.ot_replies.specs.Texts.{status_of};

use crate::one_file::FunctionCommand;
use crate::prove::Proving;
use crate::replay::first_pair;
use fn_rules::{Level, Rules};
use fn_text::read_back;
use ot_counter::failing_ends_have_counterexamples;
use ot_drill::{MOST_ROUNDS, count_cases, drill_functions_have_both_properties, play, rules};
use ot_judge::{JudgeError, check_all};
use ot_model::NoMemory;
use ot_outside::SliceFeed;
use ot_replies::{Drilled, Reply};
use ot_words::MOST_QUESTIONS;
use std::alloc::Global;

// The function of a workload, as it is read from its text.
fn function_read(alloc: Global, number: u32) -> Result<Rules, NoMemory>
    requires { number ≤ MOST_ROUNDS }
    ensures { IfOk result (λ read. function_of read ≡ drill_function number) }
{
    let made = rules(alloc, number)?;
    read_back(alloc, &made)
}

// The level at which a certificate is accepted.
fn accepted(alloc: Global, rules: &Rules, certificate: &[u8]) -> Result<Level, NoMemory>
    requires certificate { IsCertificate certificate.now (function_of rules.now) Level.Tp2 }
    requires short { length certificate.now < 2 ^ 63 }
    ensures { IfOk result (λ level. level ≡ Level.Tp2) }
{
    match check_all(alloc, rules, &mut SliceFeed::new(certificate)) {
        Ok(level) => Ok(level),
        Err(JudgeError::NoMemory) => Err(NoMemory),
        Err(JudgeError::Failed) => unreachable!(),
        Err(JudgeError::Refused { .. }) => unreachable!(),
    }
}

// What comes of a workload whose function has this certificate.
fn gone_through(
    alloc: Global,
    rules: &Rules,
    number: u32,
    certificate: &[u8],
) -> Result<Drilled, NoMemory>
    requires number { number ≤ MOST_ROUNDS }
    requires function { function_of rules.now ≡ drill_function number }
    requires certificate { IsCertificate certificate.now (function_of rules.now) Level.Tp2 }
    requires short { length certificate.now < 2 ^ 63 }
    ensures drilled { IfOk result (IsDrilled number) }
    ensures agree { IfOk result (λ drilled. drilled.differ ≡ None) }
{
    let level = accepted(alloc, rules, certificate)?;
    let played = play(alloc, rules, number)?;
    played.session.sites_agree();
    let cells = played.session.doc(1).len();
    let ends = played.session.into_ends()?;
    drill_functions_have_both_properties();
    Ok(Drilled {
        number,
        cases: count_cases(rules),
        level,
        tally: played.tally,
        cells,
        differ: first_pair(ends.as_slice()),
    })
}

/// The reply to the command.
pub fn drill(alloc: Global, number: u32) -> Result<Reply, NoMemory>
    requires { number ≤ MOST_ROUNDS }
    ensures reply { IfOk result (IsReplyToDrill number) }
    ensures steady { IfOk result (λ reply. status_of reply ≢ 1) }
{
    let rules = function_read(alloc, number)?;
    let proving = Proving {
        level: Level::Tp2,
        budget: MOST_QUESTIONS,
    };
    match proving.reply(alloc, &rules)? {
        Reply::Proved(certificate) => {
            let drilled = gone_through(alloc, &rules, number, certificate.as_slice())?;
            Ok(Reply::Drilled(drilled))
        }
        other => {
            drill_functions_have_both_properties();
            failing_ends_have_counterexamples();
            Ok(other)
        }
    }
}
