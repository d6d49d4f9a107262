//! The call that does all that the program does.
ghost use Rattle.std.specs.Prelude.{◌≡◌, ◌≢◌, ◌≤◌, ◌++◌, ℕ, List, Option, map, IfSome, string_bytes};
ghost use Rattle.ot_outside.specs.Faults.{Rose};
ghost use Rattle.ot_outside.specs.Whole.{AppendsFront};
ghost use Rattle.ot_outside.specs.Unchanged.{Unchanged};
ghost use Rattle.ot_top.specs.Answers.{AnswersCommand, Faults, count_change};
ghost use Rattle.ot_commands.specs.Given.{IsAnswerOfGiven};
ghost use Rattle.ot_commands.specs.Replies.{AreOffered, IsReply};
ghost use Rattle.ot_top.specs.Shows.{AreKnown, StatusShows};
ghost use Rattle.ot_commands.specs.Steady.{AreSteady};
ghost use Rattle.ot_replies.specs.Texts.{status_of, text_of};
ghost use Rattle.ot_words.specs.Words.{asked_by};

use crate::answer::answer;
use fn_text::{texts_of_functions_are_read, what_is_read_is_in_the_grammar};
use mend_texts::members_are_made;
use ot_bound::{bytes_have_one_low_judgement, low_certificates_show_shorter_documents};
use ot_commands::load::Stop;
use ot_confirm::proofs_show_the_properties;
use ot_counter::failing_ends_have_counterexamples;
use ot_decide::failing_triples_show_tp1;
use ot_heads::{
    plain_functions_lack_a_property, plain_text_has_no_transformation,
    templates_have_what_can_be_had, the_test_decides_the_fact,
};
use ot_hub::hubs_follow_their_logs;
use ot_integrate::both_properties_give_one_outcome;
use ot_judge::{bytes_have_one_judgement, certificates_show_the_properties};
use ot_least::first_documents_are_never_too_long;
use ot_outside::{Shelf, Sink, write_all};
use ot_prove::{plans_have_one_question_list, question_lists_tell_where_plans_fail};
use ot_questions::{Why, pair_plans_mean_tp1, triple_plans_mean_tp2};
use ot_replies::{Reply, status, text};
use std::alloc::Global;

/// A file could not be opened or read.
pub const SHELF_FAULT: u8 = 6;

/// The reply could not be written to its end.
pub const SINK_FAULT: u8 = 7;

/// Memory is wanting.
pub const NO_MEMORY: u8 = 10;

// Writes the reply to words, and gives its status.
fn write_answer<H: Shelf, S: Sink>(
    alloc: Global,
    words: &[String],
    shelf: &mut H,
    out: &mut S,
) -> u8
    requires { IfSome (asked_by (map string_bytes words.now)) (AreOffered (H.holds shelf.old) (H.offered shelf.old)) }

    ensures replied { result ≢ SHELF_FAULT → result ≢ SINK_FAULT → result ≢ NO_MEMORY →
        (reply : Reply) × IsReply (map string_bytes words.now) (H.holds shelf.old) reply
        × AreSteady (map string_bytes words.now) (H.holds shelf.old) reply
        × IsAnswerOfGiven (map string_bytes words.now) (H.reads shelf.old) (H.reads shelf.new) reply
        × (result ≡ status_of reply)
        × (S.took out.new ≡ S.took out.old ++ text_of reply) }
    ensures shelf_fault { result ≡ SHELF_FAULT → Rose (H.faults shelf.old) (H.faults shelf.new)
        × (S.took out.new ≡ S.took out.old) }
    ensures sink_fault { result ≡ SINK_FAULT →
        Rose (S.faults out.old) (S.faults out.new)
        × ((reply : Reply) × IsReply (map string_bytes words.now) (H.holds shelf.old) reply
        × AppendsFront (S.took out.old) (text_of reply) (S.took out.new)) }
    ensures no_memory { result ≡ NO_MEMORY → S.took out.new ≡ S.took out.old }
    ensures unchanged { Unchanged H.holds H.offered H.faults shelf.old shelf.new }
    ensures sink_faults { S.faults out.old ≤ S.faults out.new }
{
    let reply = match answer(alloc, words, shelf) {
        Ok(reply) => reply,
        Err(Stop::Shelf) => return SHELF_FAULT,
        Err(Stop::NoMemory) => return NO_MEMORY,
    };
    let status = status(&reply);
    let Ok(text) = text(alloc, reply) else {
        return NO_MEMORY;
    };
    match write_all(out, &text) {
        Ok(()) => status,
        Err(_) => SINK_FAULT,
    }
}

/// Answers the words behind the program's name: writes the reply, and gives the exit status.
///
/// `SHELF_FAULT` comes only where the shelf's faults rose, and `SINK_FAULT` only where the sink's did.
/// Nothing is written at `SHELF_FAULT` and `NO_MEMORY`, and a front of the reply at `SINK_FAULT`.
/// No name is opened but those that the words give, and the second one only after the first was read
/// as a function.
pub fn run<H: Shelf, S: Sink>(alloc: Global, words: &[String], shelf: &mut H, out: &mut S) -> u8
    requires { IfSome (asked_by (map string_bytes words.now)) (AreOffered (H.holds shelf.old) (H.offered shelf.old)) }

    // What is answered, of what the shelf tells and of what its calls gave.
    ensures answered { AnswersCommand (map string_bytes words.now) (H.holds shelf.old) (H.reads shelf.old)
        (H.reads shelf.new) (λ text. S.took out.new ≡ S.took out.old ++ text) result }

    // What the status shows, whether the files are known as what the shelf tells or as what its calls gave.
    ensures shows { (holds : List ℕ → Option (List ℕ))
        → AreKnown (map string_bytes words.now) (H.holds shelf.old) (H.reads shelf.old) (H.reads shelf.new) holds
        → StatusShows (map string_bytes words.now) holds
        (λ text. S.took out.new ≡ S.took out.old ++ text) result }

    // When the statuses of faults and of want of memory come, and what was written then.
    ensures faults { Faults (map string_bytes words.now) (H.holds shelf.old)
        (count_change (H.faults shelf.old) (H.faults shelf.new))
        (count_change (S.faults out.old) (S.faults out.new)) (S.took out.old) (S.took out.new) result }

    // What is left alone.
    ensures unchanged { Unchanged H.holds H.offered H.faults shelf.old shelf.new }
{
    certificates_show_the_properties();
    bytes_have_one_judgement();
    proofs_show_the_properties();
    low_certificates_show_shorter_documents();
    bytes_have_one_low_judgement();
    first_documents_are_never_too_long();
    failing_triples_show_tp1();
    hubs_follow_their_logs();
    failing_ends_have_counterexamples();
    plain_functions_lack_a_property();
    plain_text_has_no_transformation();
    the_test_decides_the_fact();
    templates_have_what_can_be_had();
    both_properties_give_one_outcome();
    plans_have_one_question_list::<Why>();
    question_lists_tell_where_plans_fail::<Why>();
    pair_plans_mean_tp1();
    triple_plans_mean_tp2();
    members_are_made();
    texts_of_functions_are_read();
    what_is_read_is_in_the_grammar();
    write_answer(alloc, words, shelf, out)
}
