//! How results are told.

/// The name of the position of a result's own operation, and that of the other position by which the result is told.
#[derive(Clone, Copy)]
pub struct Told {
    pub own: u8,
    pub other: u8,
}
