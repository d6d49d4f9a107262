//! The path of a fault.
use crate::Name;
use json_places::Places;

/// What a file holds.
#[derive(Clone, Copy, PartialEq, Eq)]
pub enum Layout {
    /// A case.
    Case,

    /// A session.
    Session,

    /// A hub.
    Hub,
}

/// The path of a value in a file.
#[derive(Clone, Copy, PartialEq, Eq)]
pub struct FaultPath {
    /// The part, which has a key of the file's object.
    pub part: Name,

    /// The places under that key.
    pub places: Places,
}

/// Why an event of a session or of a hub is refused.
#[derive(Clone, Copy, PartialEq, Eq)]
pub enum EventCause {
    /// There is no such site, or no such client.
    Site,

    /// The operation names another one.
    Owner,

    /// The function is not for operations of this kind.
    Kind,

    /// The operation is not enabled on the document of the site or the client.
    Enabled,

    /// No operation with this number was made.
    Number,
}
