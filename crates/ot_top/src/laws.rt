//! Laws of replies. Each is the contract of a function that does nothing.
ghost use Rattle.std.specs.Prelude.{◌≡◌, ◌≢◌, ℕ, Bool, true, false, List, Option, Some};
ghost use Rattle.fn_rules.specs.declared.function.Head.{Head};
ghost use Rattle.fn_rules.specs.declared.function.Level.{Level};
ghost use Rattle.fn_rules.specs.declared.function.Level.TheVariants.{Tp2};
ghost use Rattle.fn_rules.specs.Functions.{Function};
ghost use Rattle.ot_heads.specs.Heads.{InsertsAndDeletesOnPlain};
ghost use Rattle.ot_words.specs.Commands.{Prove, Check, Integrate, Replay, Hub, Audit, Same, Reverse, Least, Bound};
ghost use Rattle.ot_words.specs.Commands.{Confirm, Drill, Template};
ghost use Rattle.ot_commands.specs.Hub.{IsReplyToHub};
ghost use Rattle.ot_commands.specs.Replay.{IsReplyToSession};
ghost use Rattle.ot_commands.specs.Replies.{IsReplyTo};
ghost use Rattle.ot_replies.specs.declared.reply.Reply.TheVariants.{BoundTooLong};
ghost use Rattle.ot_replies.specs.Texts.{status_of};
ghost use Rattle.ot_top.specs.Evidence.{Evidence, IsEvidence, asks_for};

use fn_text::what_is_read_is_in_the_grammar;
use ot_audit::findings_are_one;
use ot_bound::bytes_have_one_low_judgement;
use ot_confirm::proofs_show_the_properties;
use ot_counter::failing_ends_have_counterexamples;
use ot_decide::{failing_triples_show_tp1, obligations_have_one_question_list};
use ot_heads::plain_functions_lack_a_property;
use ot_judge::{bytes_have_one_judgement, certificates_show_the_properties};
use ot_least::{first_documents_are_never_too_long, functions_have_one_shortest_document};
use ot_replies::Reply;
use ot_reverse::answers_are_one;
use ot_session::{makes_have_one_outcome, sessions_begin_as_one, takes_have_one_answer};

/// The bytes of a session get one reply under a function: each event is done in one way or refused for one reason, so
/// the status and the text of `replay` are told by its files.
pub fn sessions_have_one_reply()
    ensures { (f : Function) (bytes : List ℕ) (one other : Reply) → IsReplyToSession f bytes one
        → IsReplyToSession f bytes other
        → one ≡ other }
{
    sessions_begin_as_one();
    makes_have_one_outcome();
    takes_have_one_answer();
}

/// The bytes of a hub get one reply under a function: each event is done in one way or refused for one reason, so the
/// status and the text of `hub` are told by its files.
pub fn hubs_have_one_reply()
    ensures { (f : Function) (bytes : List ℕ) (one other : Reply) → IsReplyToHub f bytes one
        → IsReplyToHub f bytes other → one ≡ other }
{}

/// Where the files that a command names are told, two replies to the command are one, so they have one status and one
/// text; but the certificates that `prove` and `least --cert` write may differ.
pub fn commands_have_one_reply()
    ensures check { (holds : List ℕ → Option (List ℕ)) (name certificate_name bytes certificate : List ℕ)
        (one other : Reply)
        → holds name ≡ Some bytes → holds certificate_name ≡ Some certificate
        → IsReplyTo holds (Check name certificate_name) one → IsReplyTo holds (Check name certificate_name) other
        → one ≡ other }
    ensures integrate { (holds : List ℕ → Option (List ℕ)) (name case_name bytes contents : List ℕ) (one other : Reply)
        → holds name ≡ Some bytes → holds case_name ≡ Some contents
        → IsReplyTo holds (Integrate name case_name) one → IsReplyTo holds (Integrate name case_name) other
        → one ≡ other }
    ensures replay { (holds : List ℕ → Option (List ℕ)) (name session_name bytes contents : List ℕ) (one other : Reply)
        → holds name ≡ Some bytes → holds session_name ≡ Some contents
        → IsReplyTo holds (Replay name session_name) one → IsReplyTo holds (Replay name session_name) other
        → one ≡ other }
    ensures hub { (holds : List ℕ → Option (List ℕ)) (name hub_name bytes contents : List ℕ) (one other : Reply)
        → holds name ≡ Some bytes → holds hub_name ≡ Some contents
        → IsReplyTo holds (Hub name hub_name) one → IsReplyTo holds (Hub name hub_name) other → one ≡ other }
    ensures audit { (holds : List ℕ → Option (List ℕ)) (name bytes : List ℕ) (one other : Reply)
        → holds name ≡ Some bytes → IsReplyTo holds (Audit name) one → IsReplyTo holds (Audit name) other
        → one ≡ other }
    ensures same { (holds : List ℕ → Option (List ℕ)) (name other_name bytes contents : List ℕ) (one other : Reply)
        → holds name ≡ Some bytes → holds other_name ≡ Some contents
        → IsReplyTo holds (Same name other_name) one → IsReplyTo holds (Same name other_name) other → one ≡ other }
    ensures reverse { (holds : List ℕ → Option (List ℕ)) (name other_name bytes contents : List ℕ) (one other : Reply)
        → holds name ≡ Some bytes → holds other_name ≡ Some contents
        → IsReplyTo holds (Reverse name other_name) one → IsReplyTo holds (Reverse name other_name) other
        → one ≡ other }
    ensures bound { (holds : List ℕ → Option (List ℕ)) (name certificate_name bytes certificate : List ℕ)
        (one other : Reply)
        → holds name ≡ Some bytes → holds certificate_name ≡ Some certificate
        → IsReplyTo holds (Bound name certificate_name) one → IsReplyTo holds (Bound name certificate_name) other
        → one ≡ other }
    ensures confirm { (holds : List ℕ → Option (List ℕ)) (name proof_name bytes proof : List ℕ) (one other : Reply)
        → holds name ≡ Some bytes → holds proof_name ≡ Some proof
        → IsReplyTo holds (Confirm name proof_name) one → IsReplyTo holds (Confirm name proof_name) other
        → one ≡ other }
    ensures least { (holds : List ℕ → Option (List ℕ)) (name bytes : List ℕ) (one other : Reply)
        → holds name ≡ Some bytes → IsReplyTo holds (Least false name) one → IsReplyTo holds (Least false name) other
        → one ≡ other }
    ensures certified { (holds : List ℕ → Option (List ℕ)) (name bytes : List ℕ) (one other : Reply)
        → holds name ≡ Some bytes → IsReplyTo holds (Least true name) one → IsReplyTo holds (Least true name) other
        → (status_of one ≡ status_of other) × (status_of one ≢ 1 → one ≡ other) }
    ensures prove { (holds : List ℕ → Option (List ℕ)) (level : Level) (budget : ℕ) (name bytes : List ℕ)
        (one other : Reply)
        → holds name ≡ Some bytes → IsReplyTo holds (Prove level budget name) one
        → IsReplyTo holds (Prove level budget name) other
        → (status_of one ≡ status_of other) × (status_of one ≢ 0 → one ≡ other) }
    ensures template { (holds : List ℕ → Option (List ℕ)) (level : Level) (head : Head) (one other : Reply)
        → IsReplyTo holds (Template level head) one → IsReplyTo holds (Template level head) other → one ≡ other }
    ensures drill { (holds : List ℕ → Option (List ℕ)) (number : ℕ) (one other : Reply)
        → IsReplyTo holds (Drill number) one → IsReplyTo holds (Drill number) other → one ≡ other }
{
    what_is_read_is_in_the_grammar();
    bytes_have_one_judgement();
    obligations_have_one_question_list();
    sessions_begin_as_one();
    makes_have_one_outcome();
    takes_have_one_answer();
    sessions_have_one_reply();
    hubs_have_one_reply();
    findings_are_one();
    answers_are_one();
    bytes_have_one_low_judgement();
    functions_have_one_shortest_document();
}

/// Where the function's file is told, `prove` and `settle` do not contradict each other, nor themselves: with whatever
/// budgets, where a reply to one of them at a level has status 0, none to either of them at this level has status 1.
pub fn decisions_are_never_both()
    ensures { (holds : List ℕ → Option (List ℕ)) (holding failing : Evidence) (level : Level) (budget allowed : ℕ)
        (name bytes : List ℕ) (one other : Reply)
        → holds name ≡ Some bytes → IsReplyTo holds (asks_for holding level budget name) one
        → IsReplyTo holds (asks_for failing level allowed name) other → status_of one ≡ 0 → status_of other ≢ 1 }
{
    what_is_read_is_in_the_grammar();
    certificates_show_the_properties();
    proofs_show_the_properties();
    failing_ends_have_counterexamples();
    failing_triples_show_tp1();
}

/// There is no evidence that a function for insertions and deletions on plain text has both properties: no bytes are a
/// certificate of it at level tp2, and none a proof with lemmas.
pub fn plain_functions_have_no_evidence()
    ensures { (e : Evidence) (bytes : List ℕ) (f : Function) → InsertsAndDeletesOnPlain f.head
        → ¬ IsEvidence e bytes f Tp2 }
{
    certificates_show_the_properties();
    proofs_show_the_properties();
    plain_functions_lack_a_property();
}

/// Where the function's file is told, no reply of `least` is that the document of the first counterexample has more
/// than 1,000 cells.
pub fn least_is_never_too_long()
    ensures { (holds : List ℕ → Option (List ℕ)) (cert : Bool) (name bytes : List ℕ) (reply : Reply)
        → holds name ≡ Some bytes
        → IsReplyTo holds (Least cert name) reply → reply ≢ BoundTooLong }
{
    what_is_read_is_in_the_grammar();
    first_documents_are_never_too_long();
}
