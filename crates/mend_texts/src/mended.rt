//! The text of a mended function.
ghost use Rattle.std.specs.Prelude.{◌≡◌, ◌++◌, IfOk, OnOk, codes};
ghost use Rattle.fn_grammar.specs.Grammar.{IsTextOf};
ghost use Rattle.fn_grammar.specs.Print.{printed};
ghost use Rattle.fn_rules.specs.Rules.{function_of};
ghost use Rattle.ot_mend.specs.Members.{function_after};
ghost use Rattle.mend_texts.specs.Made.{AreMade};
ghost use Rattle.mend_texts.specs.Texts.{comment_line, edit_lines, mended_text};

use crate::edit::write_edit_line;
use fn_grammar::canonical_text;
use fn_rules::{NoMemory, Rules};
use ot_mend::{Edit, edited};
use std::alloc::Global;

// Writes a function.
fn write_function(alloc: Global, rules: &Rules, out: &mut Vec<u8>) -> Result<(), NoMemory>
    ensures text { OnOk result (out.new.items ≡ out.old.items ++ printed (function_of rules.now)) }
    ensures of_function { OnOk result (IsTextOf (printed (function_of rules.now)) (function_of rules.now)) }
{
    let text = canonical_text(alloc, rules)?;
    out.extend_from_slice(text.as_slice())
}

// Writes a line for each edit, and then the function that they lead to.
fn write_edited(
    alloc: Global,
    rules: &Rules,
    edits: &[Edit],
    out: &mut Vec<u8>,
) -> Result<(), NoMemory>
    requires { AreMade (function_of rules.now) edits.now }
    ensures text { OnOk result (out.new.items ≡ out.old.items
        ++ (edit_lines (function_of rules.now) edits.now ++ printed (function_after edits.now (function_of rules.now)))) }
    ensures of_function { OnOk result (IsTextOf (printed (function_after edits.now (function_of rules.now)))
        (function_after edits.now (function_of rules.now))) }
{
    match edits {
        [] => write_function(alloc, rules, out),
        [edit, others @ ..] => {
            write_edit_line(alloc, rules, *edit, out)?;
            match edited(alloc, rules, edit)? {
                Some(new) => write_edited(alloc, &new, others, out),
                None => unreachable!(),
            }
        }
    }
}

/// The text of the function that edits lead to.
pub fn mended_text(alloc: Global, rules: &Rules, edits: &[Edit]) -> Result<Vec<u8>, NoMemory>
    requires { AreMade (function_of rules.now) edits.now }
    ensures text { IfOk result (λ text. text.items ≡ mended_text (function_of rules.now) edits.now) }
    // Behind the comments stands the text of the function that the edits lead to.
    ensures of_function { IfOk result (λ _. IsTextOf (printed (function_after edits.now (function_of rules.now)))
        (function_after edits.now (function_of rules.now))) }
{
    let mut out = Vec::new(alloc);
    if edits.is_empty() {
        out.extend_from_slice(b"# as it was\n")?;
    }
    write_edited(alloc, rules, edits, &mut out)?;
    Ok(out)
}
