//! What is told of a file that is refused.

use crate::slip::Slip;
use crate::standing::Numbers;
use fn_text::{TextFault, Token};

/// What is told of the first wrong token of a file.
#[derive(Drop)]
pub struct Hint {
    /// The line in which it stands, as it is shown.
    pub shown: Vec<u8>,

    /// How many bytes of it stand before the mark.
    pub mark: usize,

    /// The fault for which the file is refused.
    pub fault: TextFault,

    /// What was probably meant.
    pub slip: Option<Slip>,

    /// The tokens that may stand there, but for numbers.
    pub tokens: Vec<Token>,

    /// The numbers that may.
    pub numbers: Numbers,
}
