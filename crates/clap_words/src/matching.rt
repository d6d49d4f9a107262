//! What clap finds in words.
ghost use Rattle.std.specs.Prelude.{◌≡◌, map, true, IfOk, string_bytes, option_map};
ghost use Rattle.clap.specs.Words.{app_of, found_of, is_simple_and_free, rows_of};
ghost use Rattle.clap_words.specs.Found.{found_by};

use crate::NoMemory;
use clap::ArgMatches;
use clap::error::ErrorKind;

/// What clap finds in the words, none where it refuses them.
///
/// # Errors
///
/// Want of memory.
pub fn matches_in<'a>(
    command: clap::Command<'a>,
    words: &'a [String],
) -> Result<Option<ArgMatches<'a>>, NoMemory>
    requires { is_simple_and_free (app_of command) ≡ true }
    ensures { IfOk result (λ found. option_map (λ m. rows_of (found_of m)) found
        ≡ found_by (app_of command.entry) (map string_bytes words.entry.now)) }
{
    match command.try_get_matches_from(words) {
        Ok(matches) => Ok(Some(matches)),
        Err(error) => match error.kind() {
            ErrorKind::OutOfMemory => Err(NoMemory),
            _ => Ok(None),
        },
    }
}
