//! An edit in words.
ghost use Rattle.std.specs.Prelude.{◌≡◌, [], ◌∷◌, ◌+◌, ◌++◌, IsTrue, OnOk, codes};
ghost use Rattle.std.specs.Fmt.{decimal};
ghost use Rattle.fn_rules.specs.Functions.{cases_of, is_declared_pair};
ghost use Rattle.fn_rules.specs.Rules.{function_of};
ghost use Rattle.fn_tokens.specs.Spelling.{spelled};
ghost use Rattle.fn_tokens.specs.declared.token.Token.TheVariants as Token;
ghost use Rattle.fn_tokens.specs.declared.token.Word.TheVariants as Word;
ghost use Rattle.ot_mend.specs.Edits.{place_of};
ghost use Rattle.mend_texts.specs.Made.{has_block};
ghost use Rattle.mend_texts.specs.Texts.{change_text, comment_line, edit_text};

use crate::change::{write_case, write_new_atom, write_new_case, write_new_result};
use crate::writing::{write_bytes, write_spelled, write_text};
use fn_rules::{NoMemory, Rules};
use fn_tokens::{Token, Word};
use ot_mend::{Change, Edit};
use ot_model::Kind;
use std::alloc::Global;

// The number of the first case that a change concerns.
fn place_of(change: Change) -> usize
    ensures { result ≡ place_of change }
{
    match change {
        Change::NewAtom { case, .. } => case,
        Change::NewResult { case, .. } => case,
        Change::TakeOut { case } => case,
        Change::Exchange { case } => case,
        Change::PutIn { case, .. } => case,
    }
}

// Writes what becomes of the cases of a block.
fn write_change(
    alloc: Global,
    rules: &Rules,
    first: Kind,
    second: Kind,
    change: Change,
    out: &mut Vec<u8>,
) -> Result<(), NoMemory>
    requires { IsTrue (is_declared_pair (function_of rules.now).head first second) }
    ensures { OnOk result (out.new.items ≡ out.old.items
        ++ change_text first (cases_of (function_of rules.now) first second) change) }
{
    match change {
        Change::NewAtom { from, to, .. } => write_new_atom(alloc, &from, &to, out),
        Change::NewResult { from, to, .. } => write_new_result(alloc, first, from, to, out),
        Change::TakeOut { case } => {
            write_case(alloc, rules, first, second, case, out)?;
            out.extend_from_slice(b" taken out")
        }
        Change::Exchange { case } => write_exchange(alloc, case, out),
        Change::PutIn { guard, res, .. } => {
            write_new_case(alloc, first, &guard, res, out)?;
            out.extend_from_slice(b" put in")
        }
    }
}

// Writes that a case changes places with the next one.
fn write_exchange(alloc: Global, case: usize, out: &mut Vec<u8>) -> Result<(), NoMemory>
    ensures { OnOk result (out.new.items ≡ out.old.items ++ (codes "changes places with " ++ decimal (case + 1))) }
{
    let next = case as u128 + 1;
    write_text(format!(in alloc; "changes places with {next}")?, out)
}

// Writes the kinds of a block and the number of a case.
fn write_front(
    alloc: Global,
    first: Kind,
    second: Kind,
    number: usize,
    out: &mut Vec<u8>,
) -> Result<(), NoMemory>
    ensures { OnOk result (out.new.items ≡ out.old.items
        ++ (spelled (Token.Known (Word.Kind first) ∷ Token.Known (Word.Kind second) ∷ []) ++ codes " " ++ decimal number
        ++ codes ": ")) }
{
    let first = Token::Known(Word::Kind(first));
    let second = Token::Known(Word::Kind(second));
    write_spelled(alloc, &[first, second], out)?;
    write_text(format!(in alloc; " {number}: ")?, out)
}

// Writes an edit.
fn write_edit(alloc: Global, rules: &Rules, edit: Edit, out: &mut Vec<u8>) -> Result<(), NoMemory>
    requires { IsTrue (has_block (function_of rules.now).head edit) }
    ensures { OnOk result (out.new.items ≡ out.old.items ++ edit_text (function_of rules.now) edit) }
{
    match edit {
        Edit::InBlock {
            first,
            second,
            change,
        } => {
            write_front(alloc, first, second, place_of(change), out)?;
            write_change(alloc, rules, first, second, change, out)
        }
        Edit::AssumeSites => write_bytes(b"assumes more: sites differ", out),
        Edit::AssumeChars => write_bytes(b"assumes more: chars differ", out),
    }
}

/// Writes the line of an edit.
pub(crate) fn write_edit_line(
    alloc: Global,
    rules: &Rules,
    edit: Edit,
    out: &mut Vec<u8>,
) -> Result<(), NoMemory>
    requires { IsTrue (has_block (function_of rules.now).head edit) }
    ensures { OnOk result (out.new.items ≡ out.old.items
        ++ comment_line (edit_text (function_of rules.now) edit)) }
{
    out.extend_from_slice(b"# ")?;
    write_edit(alloc, rules, edit, out)?;
    out.extend_from_slice(b"\n")
}
