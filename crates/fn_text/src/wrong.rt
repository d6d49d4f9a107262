//! The first wrong token of a file.

ghost use Rattle.std.specs.Prelude.{◌≡◌, ◌<◌, ◌^◌, length, IfOk};
ghost use Rattle.fn_tokens.specs.Meaning.{to_formulas};
ghost use Rattle.fn_text.specs.Reader.{first_state};
ghost use Rattle.fn_text.specs.Wrong.{wrong_from, wrong_in};

use crate::NoMemory;
use crate::reader::FunctionReader;
use crate::stop::TextError;
use fn_tokens::{Control, Lexer, Placed};
use std::alloc::Global;

/// A token that cannot go on.
#[derive(Clone, Copy)]
pub struct WrongToken {
    /// What is kept of the tokens before it.
    pub control: Control,

    /// The token and its place.
    pub at: Placed,
}

fn wrong_among(alloc: Global, tokens: Lexer<'_>) -> Result<Option<WrongToken>, NoMemory>
    ensures { IfOk result (λ wrong. wrong ≡ wrong_from to_formulas (first_state to_formulas) tokens.entry) }
{
    let mut tokens = tokens;
    let mut reader = FunctionReader::new(alloc);
    while let Some(at) = tokens.next() {
        let control = reader.control();
        match reader.turn(alloc, &at) {
            Ok(()) => {}
            Err(TextError::Fault(_)) => return Ok(Some(WrongToken { control, at })),
            Err(TextError::NoMemory) => return Err(NoMemory),
        }
    }
    Ok(None)
}

/// The first wrong token of a file, and none where each token can go on.
pub fn first_wrong(alloc: Global, bytes: &[u8]) -> Result<Option<WrongToken>, NoMemory>
    requires { length bytes.now < 2 ^ 31 }
    ensures { IfOk result (λ wrong. wrong ≡ wrong_in bytes.now) }
{
    wrong_among(alloc, Lexer::new(bytes))
}
