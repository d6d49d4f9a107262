//! What a command replies.
use case_json::CaseFault;
use fn_rules::Level;
use fn_text::TextFault;
use ot_audit::{Audit, Back, Same};
use ot_counter::Counter;
use ot_drill::Tally;
use ot_integrate::End;
use ot_model::Doc;
use ot_session::SiteEnd;
use plain_list::List;
use proof_sections::ProofRefusal;
use refusals::Refusal;

/// What a file holds.
#[derive(Clone, Copy, PartialEq, Eq)]
pub enum FileKind {
    /// A function.
    Function,

    /// A certificate.
    Certificate,

    /// A proof with lemmas.
    Proof,

    /// A case, a session or a hub.
    Case,
}

/// Which of the functions' files of a command is meant.
#[derive(Clone, Copy, PartialEq, Eq)]
pub enum Subject {
    /// The first one, which most commands have alone.
    First,

    /// The one that is compared with the first.
    Second,
}

/// How many entries of the log a client of a hub has received, how many of its operations are pending, and the document
/// that it holds.
#[derive(Drop)]
pub struct ClientEnd {
    /// How many entries of the log it has received.
    pub received: u32,

    /// How many of its operations did not come back to it.
    pub pending: u32,

    /// The document.
    pub doc: Doc,
}

/// What the server of a hub and its clients hold.
#[derive(Drop)]
pub struct HubEnd {
    /// How many entries the server's log has.
    pub logged: u32,

    /// The server's document.
    pub doc: Doc,

    /// What each client holds, by their numbers.
    pub clients: List<ClientEnd>,

    /// The first client that has received the whole log, has nothing pending, and holds another document than the
    /// server.
    pub differ: Option<u32>,
}

/// Why an event of a session or of a hub is refused.
#[derive(Clone, Copy, PartialEq, Eq)]
pub enum EventFault {
    /// There is no such site, or no such client.
    Site,

    /// The operation names another one.
    Owner,

    /// The function is not for operations of this kind.
    Kind,

    /// The operation is not enabled on the document of the site or the client.
    Enabled,

    /// No operation with this number was made.
    Number,
}

/// What shows that a function has the properties of a level.
#[derive(Clone, Copy)]
pub enum Ground {
    /// The obligations ask so many questions, and hold after each answer.
    Questions(u64),

    /// There is a proof with lemmas, of so many bytes.
    Proof(u64),
}

/// Why `settle` said nothing of a function.
#[derive(Clone, Copy)]
pub enum Unsettled {
    /// All questions were asked that it may ask: so many.
    Questions(u64),

    /// The proof has more bytes than one may have: so many.
    Bytes(u64),

    /// It found no proof.
    NoProof,
}

/// What a search of `settle` came to that said nothing of a function.
#[derive(Clone, Copy)]
pub struct Attempt {
    /// Why it said nothing.
    pub cause: Unsettled,

    /// How many questions it asked.
    pub asked: u64,

    /// How many were asked again to write what it had shown.
    pub again: u64,

    /// How many bytes of a proof were written.
    pub bytes: u64,
}

/// Why a function has the properties of a level, or where it breaks one.
#[derive(Drop)]
pub enum Explanation {
    /// It has them.
    Holds(Level, Ground),

    /// It breaks one of them: where, and how; and what became of the operations, step by step.
    Breaks(Counter, List<u8>),

    /// Its obligations ask more questions than `prove` may ask, which is so many, and `settle` said nothing of it
    /// either.
    Open(u64, Attempt),

    /// The text is that of no function: its first fault, and what helps to mend it.
    Misread(TextFault, List<u8>),
}

/// What came of a workload.
#[derive(Drop)]
pub struct Drilled {
    /// The number that it was generated from.
    pub number: u32,

    /// How many cases the function has that was read.
    pub cases: usize,

    /// The level at which the certificate was accepted.
    pub level: Level,

    /// What was counted of the session.
    pub tally: Tally,

    /// The length of the document of site 1.
    pub cells: usize,

    /// The first two sites that have integrated the same operations and hold different documents.
    pub differ: Option<(u32, u32)>,
}

/// The reply to a command.
#[derive(Drop)]
pub enum Reply {
    /// The function has the properties of the level: the bytes of a certificate, or of a proof with lemmas.
    Proved(List<u8>),

    /// The function breaks one of them: where, and how.
    Broken(Counter),

    /// There are more questions than the budget allows, or more forms than a session may count, or a search that
    /// settles a function found neither a proof within its budget and the limit of its file nor a counterexample.
    Spent,

    /// The file is a certificate of the function at this level.
    Accepted(Level),

    /// The file is none.
    Refused {
        /// How many bytes stand before the part that is refused, or in the file where it ends too early.
        offset: u64,

        /// The cause.
        why: Refusal,
    },

    /// A function's file is refused for its first fault.
    FunctionRefused(Subject, TextFault),

    /// The case, the session or the hub is refused for its first fault.
    CaseRefused(CaseFault),

    /// The event of a session or of a hub with this number is refused, which counts from 0.
    EventRefused(u32, EventFault),

    /// A site of a session, or the server or a client of a hub, is stuck at the event with this number.
    StuckAt(u32),

    /// How integrating ended, an order each, and whether every order gave the same document.
    Integrated(List<End>, bool),

    /// What the sites of a session hold, and the first two that have integrated the same operations and hold different
    /// documents.
    Replayed(List<SiteEnd>, Option<(u32, u32)>),

    /// What the server of a hub and its clients hold.
    Served(HubEnd),

    /// What the guards of a function reach.
    Audited(Audit),

    /// Whether two functions are the same.
    Compared(Same),

    /// Whether a second function takes back what the first one makes.
    Reversed(Back),

    /// The two functions are of different modes or for different kinds, so neither takes back what the other one makes.
    Unlike,

    /// The function has both properties, so no document breaks one.
    Unbroken,

    /// The shortest documents on which the function breaks a property: where, and how, and how many cells they have.
    Shortest(Counter, u32),

    /// The bytes of a certificate that no shorter document breaks the property.
    Certified(List<u8>),

    /// The first document that breaks a property has more cells than such a certificate can speak of.
    BoundTooLong,

    /// The file is such a certificate: the function has the level's property on every document of fewer cells.
    AtLeast(Level, u32),

    /// The file is a proof with lemmas of the function at this level.
    Confirmed(Level),

    /// The file is no such proof.
    ProofRefused {
        /// How many bytes stand before the part that is refused, or in the file where it ends too early.
        offset: u64,

        /// The cause.
        why: ProofRefusal,
    },

    /// The text of a function to begin with.
    Templated(List<u8>),

    /// No function of the head has both properties.
    NoTemplate,

    /// The text of the function that the fewest edits lead to, with a comment for each of them.
    Mended(List<u8>),

    /// No function that so many edits lead to has the level; no transformation of a head that edits lead to has it
    /// where there is no number.
    NotMended(Option<u32>),

    /// What came of a workload.
    Drilled(Drilled),

    /// Why a function has the properties of a level, or where it breaks one.
    Explained(Explanation),

    /// What happened in a case, a session or a hub, step by step, and the lines of the command that runs it; and what it
    /// ends with.
    Traced(List<u8>, u8),

    /// The words are not those of a command.
    Usage,

    /// A file is longer than its limit.
    TooLong(FileKind),
}
