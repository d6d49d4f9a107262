//! Printing and reading, one behind the other.

ghost use Rattle.std.specs.Prelude.{◌≡◌, ◌<◌, ◌^◌, length, Ok, IfOk};
ghost use Rattle.fn_rules.specs.Rules.{function_of};
ghost use Rattle.fn_grammar.specs.Print.{printed};
ghost use Rattle.fn_text.specs.Reading.{function_in};

use crate::NoMemory;
use crate::reading::read;
use crate::stop::TextError;
use fn_grammar::canonical_text;
use fn_rules::Rules;
use std::alloc::Global;

/// The canonical text of a function, which `read` takes.
pub fn print(alloc: Global, rules: &Rules) -> Result<Vec<u8>, NoMemory>
    ensures text { IfOk result (λ text. text.items ≡ printed (function_of rules.now)) }
    ensures short { IfOk result (λ text. length text.items < 2 ^ 31) }
    // What is printed is read as the function again.
    ensures reads_back { IfOk result (λ text. function_in text.items ≡ Ok (function_of rules.now)) }
{
    Ok(canonical_text(alloc, rules)?)
}

/// Reads what is printed of a function. This gives the function, unless memory runs out.
pub fn read_back(alloc: Global, rules: &Rules) -> Result<Rules, NoMemory>
    ensures { IfOk result (λ read. function_of read ≡ function_of rules.now) }
{
    let text = print(alloc, rules)?;
    match read(alloc, &text) {
        Ok(read) => Ok(read),
        Err(TextError::Fault(_)) => unreachable!(),
        Err(TextError::NoMemory) => Err(NoMemory),
    }
}
