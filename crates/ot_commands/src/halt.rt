//! Why events are run no further.
use ot_replies::Reply;

/// Why the events of a session or of a hub are run no further.
#[derive(Drop)]
pub(crate) enum Halt {
    /// An event is refused, and the session or the hub gets this reply.
    Refused(Reply),

    /// The allocator refused memory.
    NoMemory,
}
