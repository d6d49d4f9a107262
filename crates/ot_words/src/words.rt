//! The words of a command. The first one says which command it is, and clap reads the others.
ghost use Rattle.std.specs.Prelude.{◌≡◌, ◌≤◌, codes, map, false, true, IfOk, IfSome, string_bytes};
ghost use Rattle.std.specs.Prelude.{option_and_then, option_map};
ghost use Rattle.clap.specs.Words.{app_of, first_of, found_of, rows_of, rule_of};
ghost use Rattle.fn_rules.specs.declared.limits.TheConstants.{MOST_ROUNDS};
ghost use Rattle.ot_words.specs.Commands.{asked_of, Audit};
ghost use Rattle.ot_words.specs.Words.{asked_by, audit_in, bare_app, budget_rule, deciding_app, decision_by};
ghost use Rattle.ot_words.specs.Words.{decision_in, drill_app, drill_by, drill_in, explain_by, explain_in, flag_rule};
ghost use Rattle.ot_words.specs.Words.{flagged_app, is_given, trace_app, trace_by, trace_in, trace_kind, trace_options};
ghost use Rattle.ot_words.specs.Words.{least_by, least_in, level_by, number_by, number_rule, of_two, one_file};
ghost use Rattle.clap.specs.Words.{new_rule};
ghost use Rattle.ot_words.specs.Words.{head_in, kind_named, mode_named, no_kinds, template_app, template_by};
ghost use Rattle.ot_words.specs.Words.{edits_rule, mend_app, mend_by, mend_in, mend_options, template_options};
ghost use Rattle.ot_words.specs.Words.{template_in, with_further, with_kind, with_named, with_new};
ghost use Rattle.ot_words.specs.Words.{prove_in, required_rule, settle_in, two_files, two_in, values_in};

use crate::command::{Command, TraceKind};
use clap::builder::ValueParser;
use clap::{Arg, ArgAction, ArgMatches};
use clap_words::matches_in;
use fn_rules::{Head, Level, MOST_ROUNDS};
use ot_model::{Kind, Mode, NoMemory};
use std::alloc::Global;

/// The most questions that `prove` may be allowed, and that a workload's function may have.
pub const MOST_QUESTIONS: u64 = 1_000_000;

/// How many questions `settle` is allowed where the words do not say.
pub const SETTLING_QUESTIONS: u64 = 30_000_000;

// The most questions that `settle` may be allowed.
const MOST_SETTLING_QUESTIONS: u64 = 100_000_000;

/// The most edits of which `mend` may look for the fewest.
pub const MOST_EDITS: u64 = 3;

// The most functions to which a number of edits may lead that `mend` may be allowed to look at.
const MOST_MEMBERS: u64 = 1_000_000_000;

// An option that is given or not.
fn flag_option(alloc: Global, name: &str) -> Arg<'_>
    ensures rule { rule_of result ≡ flag_rule name.entry.now }
    ensures local { result.global ≡ false }
{
    Arg::new(alloc, name).long(name).action(ArgAction::SetTrue)
}

// The option `--budget N` of at most so many questions, and what it says where it is not given.
fn budget_option<'a>(alloc: Global, most: u64, otherwise: &'a str) -> Arg<'a>
    ensures rule { rule_of result ≡ budget_rule most otherwise.entry.now }
    ensures local { result.global ≡ false }
{
    Arg::new(alloc, "budget")
        .long("budget")
        .value_parser(ValueParser::unsigned(1, most))
        .default_value(otherwise)
}

// The option `--edits N`.
fn edits_option<'a>(alloc: Global) -> Arg<'a>
    ensures rule { rule_of result ≡ edits_rule }
    ensures local { result.global ≡ false }
{
    Arg::new(alloc, "edits")
        .long("edits")
        .value_parser(ValueParser::unsigned(1, MOST_EDITS))
        .default_value("2")
}

// An argument that has to be there, as the name of a file.
fn required_argument(alloc: Global, name: &str) -> Arg<'_>
    ensures rule { rule_of result ≡ required_rule name.entry.now }
    ensures local { result.global ≡ false }
{
    Arg::new(alloc, name).required(true)
}

// The clap command of a name, which has no options, not even for help, and no arguments.
fn bare_app(alloc: Global, name: &str) -> clap::Command<'_>
    ensures { app_of result ≡ bare_app name.entry.now }
{
    clap::Command::new(alloc, name)
        .no_binary_name(true)
        .disable_help_flag(true)
}

// The clap command of a name that decides a function: its two options, and a file name.
fn deciding_app<'a>(
    alloc: Global,
    name: &'a str,
    most: u64,
    otherwise: &'a str,
) -> Result<clap::Command<'a>, NoMemory>
    ensures { IfOk result (λ c. app_of c ≡ deciding_app name.entry.now most otherwise.entry.now) }
{
    let with_level = bare_app(alloc, name).arg(flag_option(alloc, "tp1"))?;
    let with_options = with_level.arg(budget_option(alloc, most, otherwise))?;
    with_options.arg(required_argument(alloc, "function"))
}

// The options of `mend`.
fn mend_options<'a>(alloc: Global) -> Result<clap::Command<'a>, NoMemory>
    ensures { IfOk result (λ c. app_of c ≡ mend_options) }
{
    let with_level = bare_app(alloc, "mend").arg(flag_option(alloc, "tp1"))?;
    let with_edits = with_level.arg(edits_option(alloc))?;
    with_edits.arg(budget_option(alloc, MOST_MEMBERS, "1000000"))
}

// The clap command `mend`: three options, and a file name.
fn mend_app<'a>(alloc: Global) -> Result<clap::Command<'a>, NoMemory>
    ensures { IfOk result (λ c. app_of c ≡ mend_app) }
{
    mend_options(alloc)?.arg(required_argument(alloc, "function"))
}

// The clap command of a name that takes one option and a file name.
fn flagged_app<'a>(
    alloc: Global,
    name: &'a str,
    flag: &'a str,
) -> Result<clap::Command<'a>, NoMemory>
    ensures { IfOk result (λ c. app_of c ≡ flagged_app name.entry.now flag.entry.now) }
{
    let with_flag = bare_app(alloc, name).arg(flag_option(alloc, flag))?;
    with_flag.arg(required_argument(alloc, "function"))
}

// The options of `trace`.
fn trace_options<'a>(alloc: Global) -> Result<clap::Command<'a>, NoMemory>
    ensures { IfOk result (λ c. app_of c ≡ trace_options) }
{
    let with_session = bare_app(alloc, "trace").arg(flag_option(alloc, "session"))?;
    with_session.arg(flag_option(alloc, "hub"))
}

// The clap command `trace`: two options, and two file names.
fn trace_app<'a>(alloc: Global) -> Result<clap::Command<'a>, NoMemory>
    ensures { IfOk result (λ c. app_of c ≡ trace_app) }
{
    let with_first = trace_options(alloc)?.arg(required_argument(alloc, "first"))?;
    with_first.arg(required_argument(alloc, "second"))
}

// The number of `drill`, which is at most `MOST_ROUNDS`.
fn number_argument<'a>(alloc: Global) -> Arg<'a>
    ensures rule { rule_of result ≡ number_rule }
    ensures local { result.global ≡ false }
{
    Arg::new(alloc, "number")
        .required(true)
        .value_parser(clap::value_parser!(u64).range(1..=16))
}

// The clap command `drill`: a number.
fn drill_app<'a>(alloc: Global) -> Result<clap::Command<'a>, NoMemory>
    ensures { IfOk result (λ c. app_of c ≡ drill_app) }
{
    bare_app(alloc, "drill").arg(number_argument(alloc))
}

// The clap command of a name, which has no options and takes one file name.
fn one_file(alloc: Global, name: &str) -> Result<clap::Command<'_>, NoMemory>
    ensures { IfOk result (λ c. app_of c ≡ one_file name.entry.now) }
{
    bare_app(alloc, name).arg(required_argument(alloc, "function"))
}

// The same, for two file names.
fn two_files(alloc: Global, name: &str) -> Result<clap::Command<'_>, NoMemory>
    ensures { IfOk result (λ c. app_of c ≡ two_files name.entry.now) }
{
    let with_first = bare_app(alloc, name).arg(required_argument(alloc, "first"))?;
    with_first.arg(required_argument(alloc, "second"))
}

// The value of an argument.
fn value_of<'a>(matches: &ArgMatches<'a>, id: &str) -> Option<&'a str>
    ensures { option_map (λ s. s.now) result ≡ first_of id.now (rows_of (found_of matches.now)) }
{
    matches.get_str(id)
}

// Whether the option is given.
fn is_given(flag: Option<&str>) -> bool
    ensures { result ≡ is_given (option_map (λ s. s.now) flag.entry) }
{
    match flag {
        Some("true") => true,
        _ => false,
    }
}

// The level that the option says.
fn level_by(flag: Option<&str>) -> Level
    ensures { result ≡ level_by (option_map (λ s. s.now) flag.entry) }
{
    if is_given(flag) {
        Level::Tp1
    } else {
        Level::Tp2
    }
}

// The number of a text that clap takes for one from 1 to the greatest.
fn number_by(most: u64, text: &str) -> Option<u64>
    ensures number { result ≡ number_by most text.now }
    ensures within { IfSome result (λ number. number ≤ most) }
{
    match text.parse::<u64>() {
        Ok(number) if 1 <= number && number <= most => Some(number),
        _ => None,
    }
}

// The level, the budget and the name that clap finds.
fn decision_in<'a>(most: u64, matches: &ArgMatches<'a>) -> Option<(Level, u64, &'a str)>
    ensures { option_map (λ v. (v.0, v.1, v.2.now)) result ≡ decision_in most (rows_of (found_of matches.now)) }
{
    let level = level_by(value_of(matches, "tp1"));
    let budget = number_by(most, value_of(matches, "budget")?)?;
    let function = value_of(matches, "function")?;
    Some((level, budget, function))
}

// The same in the words behind a command's name.
#[tactic(auto, unfolding(crate::specs::Words::decision_by))]
fn decision_by<'a>(
    alloc: Global,
    name: &'a str,
    most: u64,
    otherwise: &'a str,
    words: &'a [String],
) -> Result<Option<(Level, u64, &'a str)>, NoMemory>
    ensures { IfOk result (λ found. option_map (λ v. (v.0, v.1, v.2.now)) found
        ≡ decision_by name.entry.now most otherwise.entry.now (map string_bytes words.entry.now)) }
{
    match matches_in(deciding_app(alloc, name, most, otherwise)?, words)? {
        Some(matches) => Ok(decision_in(most, &matches)),
        None => Ok(None),
    }
}

// `prove [--tp1] [--budget N] FUNCTION`
fn prove_in<'a>(alloc: Global, words: &'a [String]) -> Result<Option<Command<'a>>, NoMemory>
    ensures { IfOk result (λ command. option_map asked_of command ≡ prove_in (map string_bytes words.entry.now)) }
{
    match decision_by(alloc, "prove", MOST_QUESTIONS, "1000000", words)? {
        Some((level, budget, function)) => Ok(Some(Command::Prove {
            level,
            budget,
            function,
        })),
        None => Ok(None),
    }
}

// `settle [--tp1] [--budget N] FUNCTION`
fn settle_in<'a>(alloc: Global, words: &'a [String]) -> Result<Option<Command<'a>>, NoMemory>
    ensures { IfOk result (λ command. option_map asked_of command ≡ settle_in (map string_bytes words.entry.now)) }
{
    match decision_by(alloc, "settle", MOST_SETTLING_QUESTIONS, "30000000", words)? {
        Some((level, budget, function)) => Ok(Some(Command::Settle {
            level,
            budget,
            function,
        })),
        None => Ok(None),
    }
}

// How many edits, and what else clap finds.
fn mend_by<'a>(matches: &ArgMatches<'a>) -> Option<Command<'a>>
    ensures { option_map asked_of result ≡ mend_by (rows_of (found_of matches.now)) }
{
    let edits = number_by(MOST_EDITS, value_of(matches, "edits")?)?;
    let (level, budget, function) = decision_in(MOST_MEMBERS, matches)?;
    Some(Command::Mend {
        level,
        edits: edits as u32,
        budget,
        function,
    })
}

// `mend [--tp1] [--edits N] [--budget M] FUNCTION`
#[tactic(auto, unfolding(crate::specs::Words::mend_in))]
fn mend_in<'a>(alloc: Global, words: &'a [String]) -> Result<Option<Command<'a>>, NoMemory>
    ensures { IfOk result (λ command. option_map asked_of command ≡ mend_in (map string_bytes words.entry.now)) }
{
    match matches_in(mend_app(alloc)?, words)? {
        Some(matches) => Ok(mend_by(&matches)),
        None => Ok(None),
    }
}

// The name that clap finds.
fn audit_by<'a>(matches: &ArgMatches<'a>) -> Option<Command<'a>>
    ensures { option_map asked_of result ≡ option_map Audit (first_of (codes "function") (rows_of (found_of matches.now))) }
{
    let function = value_of(matches, "function")?;
    Some(Command::Audit { function })
}

// `audit FUNCTION`
#[tactic(auto, unfolding(crate::specs::Words::name_by))]
fn audit_in<'a>(alloc: Global, words: &'a [String]) -> Result<Option<Command<'a>>, NoMemory>
    ensures { IfOk result (λ command. option_map asked_of command ≡ audit_in (map string_bytes words.entry.now)) }
{
    match matches_in(one_file(alloc, "audit")?, words)? {
        Some(matches) => Ok(audit_by(&matches)),
        None => Ok(None),
    }
}

// The option and the name that clap finds.
fn least_by<'a>(matches: &ArgMatches<'a>) -> Option<Command<'a>>
    ensures { option_map asked_of result ≡ least_by (rows_of (found_of matches.now)) }
{
    let cert = is_given(value_of(matches, "cert"));
    let function = value_of(matches, "function")?;
    Some(Command::Least { cert, function })
}

// `least [--cert] FUNCTION`
#[tactic(auto, unfolding(crate::specs::Words::least_in))]
fn least_in<'a>(alloc: Global, words: &'a [String]) -> Result<Option<Command<'a>>, NoMemory>
    ensures { IfOk result (λ command. option_map asked_of command ≡ least_in (map string_bytes words.entry.now)) }
{
    match matches_in(flagged_app(alloc, "least", "cert")?, words)? {
        Some(matches) => Ok(least_by(&matches)),
        None => Ok(None),
    }
}

// The level and the name that clap finds.
fn explain_by<'a>(matches: &ArgMatches<'a>) -> Option<Command<'a>>
    ensures { option_map asked_of result ≡ explain_by (rows_of (found_of matches.now)) }
{
    let level = level_by(value_of(matches, "tp1"));
    let function = value_of(matches, "function")?;
    Some(Command::Explain { level, function })
}

// `explain [--tp1] FUNCTION`
#[tactic(auto, unfolding(crate::specs::Words::explain_in))]
fn explain_in<'a>(alloc: Global, words: &'a [String]) -> Result<Option<Command<'a>>, NoMemory>
    ensures { IfOk result (λ command. option_map asked_of command ≡ explain_in (map string_bytes words.entry.now)) }
{
    match matches_in(flagged_app(alloc, "explain", "tp1")?, words)? {
        Some(matches) => Ok(explain_by(&matches)),
        None => Ok(None),
    }
}

// What the options say that the other file holds; nothing where they say two things.
fn trace_kind(session: bool, hub: bool) -> Option<TraceKind>
    ensures { result ≡ trace_kind session hub }
{
    match (session, hub) {
        (true, true) => None,
        (true, false) => Some(TraceKind::Session),
        (false, true) => Some(TraceKind::Hub),
        (false, false) => Some(TraceKind::Case),
    }
}

// What the options say, and the names that clap finds.
fn trace_by<'a>(matches: &ArgMatches<'a>) -> Option<Command<'a>>
    ensures { option_map asked_of result ≡ trace_by (rows_of (found_of matches.now)) }
{
    let session = is_given(value_of(matches, "session"));
    let hub = is_given(value_of(matches, "hub"));
    let events = trace_kind(session, hub)?;
    let function = value_of(matches, "first")?;
    let file = value_of(matches, "second")?;
    Some(Command::Trace {
        events,
        function,
        file,
    })
}

// `trace [--session | --hub] FUNCTION FILE`
#[tactic(auto, unfolding(crate::specs::Words::trace_in))]
fn trace_in<'a>(alloc: Global, words: &'a [String]) -> Result<Option<Command<'a>>, NoMemory>
    ensures { IfOk result (λ command. option_map asked_of command ≡ trace_in (map string_bytes words.entry.now)) }
{
    match matches_in(trace_app(alloc)?, words)? {
        Some(matches) => Ok(trace_by(&matches)),
        None => Ok(None),
    }
}

// The number that clap finds.
fn drill_by<'a>(matches: &ArgMatches<'a>) -> Option<Command<'a>>
    ensures { option_map asked_of result ≡ drill_by (rows_of (found_of matches.now)) }
{
    let number = number_by(MOST_ROUNDS as u64, value_of(matches, "number")?)?;
    Some(Command::Drill {
        number: number as u32,
    })
}

// `drill NUMBER`
#[tactic(auto, unfolding(crate::specs::Words::drill_in))]
fn drill_in<'a>(alloc: Global, words: &'a [String]) -> Result<Option<Command<'a>>, NoMemory>
    ensures { IfOk result (λ command. option_map asked_of command ≡ drill_in (map string_bytes words.entry.now)) }
{
    match matches_in(drill_app(alloc)?, words)? {
        Some(matches) => Ok(drill_by(&matches)),
        None => Ok(None),
    }
}

// The three options of `template`.
fn template_options<'a>(alloc: Global) -> Result<clap::Command<'a>, NoMemory>
    ensures { IfOk result (λ c. app_of c ≡ template_options) }
{
    let with_level = bare_app(alloc, "template").arg(flag_option(alloc, "tp1"))?;
    let with_sites = with_level.arg(flag_option(alloc, "sites-differ"))?;
    with_sites.arg(flag_option(alloc, "chars-differ"))
}

// The clap command `template`: three options, a mode, a kind, and up to two kinds more.
fn template_app<'a>(alloc: Global) -> Result<clap::Command<'a>, NoMemory>
    ensures { IfOk result (λ c. app_of c ≡ template_app) }
{
    let with_mode = template_options(alloc)?.arg(required_argument(alloc, "mode"))?;
    let with_kind = with_mode.arg(required_argument(alloc, "first"))?;
    let with_second = with_kind.arg(Arg::new(alloc, "second"))?;
    with_second.arg(Arg::new(alloc, "third"))
}

fn mode_named(word: &str) -> Option<Mode>
    ensures { result ≡ mode_named word.now }
{
    match word {
        "plain" => Some(Mode::Plain),
        "tomb" => Some(Mode::Tomb),
        _ => None,
    }
}

fn kind_named(word: &str) -> Option<Kind>
    ensures { result ≡ kind_named word.now }
{
    match word {
        "ins" => Some(Kind::Ins),
        "del" => Some(Kind::Del),
        "upd" => Some(Kind::Upd),
        _ => None,
    }
}

// The head with this kind too.
fn with_kind(head: Head, kind: Kind) -> Head
    ensures { result ≡ with_kind head kind }
{
    match kind {
        Kind::Ins => Head { ins: true, ..head },
        Kind::Del => Head { del: true, ..head },
        Kind::Upd => Head { upd: true, ..head },
    }
}

// The head with a kind more; none where it had it.
fn with_new(head: Head, kind: Kind) -> Option<Head>
    ensures { result ≡ with_new head kind }
{
    if head.declares(kind) {
        None
    } else {
        Some(with_kind(head, kind))
    }
}

// The same, of the kind that a word names.
fn with_named(head: Head, word: &str) -> Option<Head>
    ensures { result ≡ with_named head word.now }
{
    let kind = kind_named(word)?;
    with_new(head, kind)
}

// The same, where there is a word.
fn with_further(word: Option<&str>, head: Head) -> Option<Head>
    ensures { result ≡ with_further (option_map (λ s. s.now) word.entry) head }
{
    match word {
        None => Some(head),
        Some(word) => with_named(head, word),
    }
}

// The head of a mode that is for no operations.
fn no_kinds(sites_differ: bool, chars_differ: bool, mode: Mode) -> Head
    ensures { result ≡ no_kinds sites_differ chars_differ mode }
{
    Head {
        mode,
        ins: false,
        del: false,
        upd: false,
        sites_differ,
        chars_differ,
    }
}

// The head that clap finds.
fn head_in<'a>(matches: &ArgMatches<'a>) -> Option<Head>
    ensures { result ≡ head_in (rows_of (found_of matches.now)) }
{
    let sites_differ = is_given(value_of(matches, "sites-differ"));
    let chars_differ = is_given(value_of(matches, "chars-differ"));
    let mode = mode_named(value_of(matches, "mode")?)?;
    let first = with_named(
        no_kinds(sites_differ, chars_differ, mode),
        value_of(matches, "first")?,
    )?;
    let second = with_further(value_of(matches, "second"), first)?;
    with_further(value_of(matches, "third"), second)
}

// The level and the head that clap finds.
fn template_by<'a>(matches: &ArgMatches<'a>) -> Option<Command<'a>>
    ensures { option_map asked_of result ≡ template_by (rows_of (found_of matches.now)) }
{
    let level = level_by(value_of(matches, "tp1"));
    let head = head_in(matches)?;
    Some(Command::Template { level, head })
}

// `template [--tp1] [--sites-differ] [--chars-differ] MODE KIND..`
#[tactic(auto, unfolding(crate::specs::Words::template_in))]
fn template_in<'a>(alloc: Global, words: &'a [String]) -> Result<Option<Command<'a>>, NoMemory>
    ensures { IfOk result (λ command. option_map asked_of command ≡ template_in (map string_bytes words.entry.now)) }
{
    match matches_in(template_app(alloc)?, words)? {
        Some(matches) => Ok(template_by(&matches)),
        None => Ok(None),
    }
}

// The command of two files that has the name; none where no such command has it.
fn of_two<'a>(name: &str, function: &'a str, other: &'a str) -> Option<Command<'a>>
    ensures { option_map asked_of result ≡ of_two name.now (function.now, other.now) }
{
    match name {
        "check" => Some(Command::Check {
            function,
            certificate: other,
        }),
        "integrate" => Some(Command::Integrate {
            function,
            case: other,
        }),
        "replay" => Some(Command::Replay {
            function,
            session: other,
        }),
        "hub" => Some(Command::Hub {
            function,
            hub: other,
        }),
        "same" => Some(Command::Same { function, other }),
        "reverse" => Some(Command::Reverse { function, other }),
        "bound" => Some(Command::Bound {
            function,
            certificate: other,
        }),
        "confirm" => Some(Command::Confirm {
            function,
            proof: other,
        }),
        _ => None,
    }
}

// The command of two files that has the name, by what clap finds.
fn two_by<'a>(name: &str, matches: &ArgMatches<'a>) -> Option<Command<'a>>
    ensures { option_map asked_of result ≡ option_and_then (of_two name.now) (values_in (rows_of (found_of matches.now))) }
{
    let function = value_of(matches, "first")?;
    let other = value_of(matches, "second")?;
    of_two(name, function, other)
}

// `check FUNCTION CERTIFICATE`, or another command of two files, by its name
#[tactic(auto, unfolding(crate::specs::Words::names_by))]
fn two_in<'a>(
    alloc: Global,
    name: &'a str,
    words: &'a [String],
) -> Result<Option<Command<'a>>, NoMemory>
    ensures { IfOk result (λ command. option_map asked_of command
        ≡ two_in name.entry.now (map string_bytes words.entry.now)) }
{
    match matches_in(two_files(alloc, name)?, words)? {
        Some(matches) => Ok(two_by(name, &matches)),
        None => Ok(None),
    }
}

/// Reads the words behind the program's name; none where they are not those of a command.
pub fn read_words<'a>(alloc: Global, words: &'a [String]) -> Result<Option<Command<'a>>, NoMemory>
    ensures { IfOk result (λ command. option_map asked_of command ≡ asked_by (map string_bytes words.entry.now)) }
{
    let [name, arguments @ ..] = words else {
        return Ok(None);
    };
    match name.as_str() {
        "prove" => prove_in(alloc, arguments),
        "settle" => settle_in(alloc, arguments),
        "mend" => mend_in(alloc, arguments),
        "explain" => explain_in(alloc, arguments),
        "trace" => trace_in(alloc, arguments),
        "audit" => audit_in(alloc, arguments),
        "least" => least_in(alloc, arguments),
        "template" => template_in(alloc, arguments),
        "drill" => drill_in(alloc, arguments),
        other => two_in(alloc, other, arguments),
    }
}
