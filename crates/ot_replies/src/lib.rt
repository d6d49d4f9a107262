//! What a command replies: its exit status, and its text.
#![tactic(auto)]

mod reply;
mod texts;

pub use ot_session::SiteEnd;
pub use reply::{
    Attempt, ClientEnd, Drilled, EventFault, Explanation, FileKind, Ground, HubEnd, Reply, Subject,
    Unsettled,
};
pub use texts::{status, text};
