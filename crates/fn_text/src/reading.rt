//! From the bytes of a file to a function.

ghost use Rattle.std.specs.Prelude.{◌<◌, ◌^◌, length, map, Ok, IfOk, IsTrue};
ghost use Rattle.fn_rules.specs.Building.{block_of, is_buildable};
ghost use Rattle.fn_rules.specs.Rules.{function_of};
ghost use Rattle.fn_tokens.specs.Tokens.{tokens_in};
ghost use Rattle.fn_tokens.specs.Meaning.{to_formulas};
ghost use Rattle.fn_text.specs.Reader.{read_from, first_state};
ghost use Rattle.fn_text.specs.Made.{GivesView};
ghost use Rattle.fn_text.specs.Reading.{function_in};
ghost use Rattle.fn_text.specs.Refusals.{IsAnswerFor};

use crate::reader::read_tokens;
use crate::stop::TextError;
use fn_rules::{Block, Head, Rules};
use fn_tokens::Lexer;
use std::alloc::Global;

/// The head and the blocks of a file, which are within the limits.
fn parts(alloc: Global, bytes: &[u8]) -> Result<(Head, Vec<Block>), TextError>
    requires { length bytes.now < 2 ^ 31 }
    ensures read { GivesView (λ x. (x.0, map block_of x.1.items)) result
        (read_from to_formulas (first_state to_formulas) (tokens_in bytes.now)) }
    ensures within_limits { IfOk result (λ x. IsTrue (is_buildable x.0 (map block_of x.1.items))) }
{
    read_tokens(alloc, Lexer::new(bytes))
}

/// What bytes are read as.
#[tactic(auto, unfolding(crate::specs::Reading::function_in))]
fn function_read(alloc: Global, bytes: &[u8]) -> Result<Rules, TextError>
    requires { length bytes.now < 2 ^ 31 }
    ensures { GivesView function_of result (function_in bytes.now) }
{
    let (head, blocks) = parts(alloc, bytes)?;
    Ok(Rules::build(head, blocks))
}

/// Reads the text of a function.
///
/// A text that is refused is refused for the first token that cannot go on, with its place and its
/// cause. Want of memory is no fault of the text.
pub fn read(alloc: Global, bytes: &[u8]) -> Result<Rules, TextError>
    requires { length bytes.now < 2 ^ 31 }
    // A function whose text the bytes are by the grammar, or the fault of their first wrong token, whose
    // cause is told on tokens, or want of memory.
    ensures text_or_first_wrong { IsAnswerFor function_of bytes.now result }

    // The function or the fault that the reader's definition gives, or want of memory.
    ensures read { GivesView function_of result (function_in bytes.now) }
{
    function_read(alloc, bytes)
}
