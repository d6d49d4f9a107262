//! `run`: from words, files and a sink to an exit status. What it says is three records, to read in this order:
//!
//! 1. `specs/Shows`: `StatusShows`, a field for each thing that a status shows (docs/CLAIMS.md). What the fields say
//!    stands in `Shown` and `Evidence` (`prove`, `settle`, `check`), `Barred`, `Audited` (`audit`, `same`, `reverse`),
//!    `Bounded` (`least`, `bound`), `Confirmed`, `Followed` (`hub`), `Templated`, `Explained` and `Traced`.
//! 2. `specs/Answers`: `AnswersCommand`, which reply comes and is written, and `Faults`, what faults of the outside
//!    tell.
//!
//! All is said twice: of files that the shelf tells, and of the bytes that its calls gave in this run. So of the
//! machine's files, which tell nothing, all fields speak of what was read: of a certificate that is refused before its
//! end, up to the end of the piece in which the refusal stands.
//!
//! The program above relies on one clause: `run` writes the reply that `IsReply` tells, and ends with its status; with
//! another one only where a file or the sink failed or memory is wanting.
#![tactic(auto)]

mod answer;
mod laws;
mod program;

pub use laws::{
    commands_have_one_reply, decisions_are_never_both, hubs_have_one_reply,
    least_is_never_too_long, plain_functions_have_no_evidence, sessions_have_one_reply,
};
pub use ot_replies::{ClientEnd, Drilled, EventFault, FileKind, HubEnd, Reply, SiteEnd, Subject};
pub use program::{NO_MEMORY, SHELF_FAULT, SINK_FAULT, run};
