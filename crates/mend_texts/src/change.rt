//! What becomes of the cases of a block, in words.
ghost use Rattle.std.specs.Prelude.{◌≡◌, ◌++◌, false, Some, IsTrue, OnOk, codes, slice_get, unsigned_abs};
ghost use Rattle.fn_rules.specs.Functions.{cases_of, is_declared_pair};
ghost use Rattle.fn_rules.specs.Rules.{function_of};
ghost use Rattle.fn_rules.specs.Shipped.{when};
ghost use Rattle.fn_rules.specs.declared.guard.Tightness.TheVariants.{Loose};
ghost use Rattle.fn_tokens.specs.Spelling.{spelled, spelled_from};
ghost use Rattle.fn_grammar.specs.Print.{guard_tokens, offset_tokens};
ghost use Rattle.fn_rules.specs.Formulas.{other_side};
ghost use Rattle.ot_mend.specs.Edits.{new_guard_of};
ghost use Rattle.mend_texts.specs.Texts.{atom_text, case_text, result_text};

use crate::writing::{write_spelled, write_text};
use fn_grammar::case_text;
use fn_rules::{Atom, NoMemory, Res, Rules, Side, Sort};
use fn_tokens::{Token, Word};
use ot_mend::NewGuard;
use ot_model::Kind;
use std::alloc::Global;

// How far an offset is from 0.
fn size_of(k: i32) -> u32
    ensures { result ≡ unsigned_abs k }
{
    k.unsigned_abs()
}

// Writes an offset behind other tokens of its line.
fn write_offset(alloc: Global, k: i32, out: &mut Vec<u8>) -> Result<(), NoMemory>
    ensures { OnOk result (out.new.items ≡ out.old.items ++ spelled_from false (offset_tokens k)) }
{
    let size = size_of(k);
    if k > 0 {
        return write_text(format!(in alloc; " + {size}")?, out);
    }
    if k < 0 {
        return write_text(format!(in alloc; " - {size}")?, out);
    }
    Ok(())
}

fn other(side: Side) -> Side
    ensures { result ≡ other_side side }
{
    match side {
        Side::First => Side::Second,
        Side::Second => Side::First,
    }
}

// Writes an atom.
fn write_atom(alloc: Global, atom: &Atom, out: &mut Vec<u8>) -> Result<(), NoMemory>
    ensures { OnOk result (out.new.items ≡ out.old.items ++ atom_text atom.now) }
{
    let left = Token::Known(Word::Thing(atom.sort, atom.left));
    let right = Token::Known(Word::Thing(atom.sort, other(atom.left)));
    write_spelled(alloc, &[left, Token::Comparison(atom.cmp), right], out)?;
    write_offset(alloc, atom.k, out)
}

// Writes what an operation of this kind becomes.
fn write_result(alloc: Global, kind: Kind, res: Res, out: &mut Vec<u8>) -> Result<(), NoMemory>
    ensures { OnOk result (out.new.items ≡ out.old.items ++ result_text kind res) }
{
    match res {
        Res::Keep { base, k } => {
            let kind = Token::Known(Word::Kind(kind));
            let base = Token::Known(Word::Thing(Sort::Pos, base));
            write_spelled(alloc, &[kind, base], out)?;
            write_offset(alloc, k, out)
        }
        Res::Nop => out.extend_from_slice(b"nop"),
    }
}

/// Writes that an atom becomes another one.
pub(crate) fn write_new_atom(
    alloc: Global,
    from: &Atom,
    to: &Atom,
    out: &mut Vec<u8>,
) -> Result<(), NoMemory>
    ensures { OnOk result (out.new.items ≡ out.old.items
        ++ (atom_text from.now ++ codes " becomes " ++ atom_text to.now)) }
{
    write_atom(alloc, from, out)?;
    out.extend_from_slice(b" becomes ")?;
    write_atom(alloc, to, out)
}

/// Writes that what an operation of this kind becomes is another one.
pub(crate) fn write_new_result(
    alloc: Global,
    kind: Kind,
    from: Res,
    to: Res,
    out: &mut Vec<u8>,
) -> Result<(), NoMemory>
    ensures { OnOk result (out.new.items ≡ out.old.items
        ++ (result_text kind from ++ codes " becomes " ++ result_text kind to)) }
{
    write_result(alloc, kind, from, out)?;
    out.extend_from_slice(b" becomes ")?;
    write_result(alloc, kind, to, out)
}

// Writes the guard of a case that is put in.
fn write_new_guard(alloc: Global, guard: &NewGuard, out: &mut Vec<u8>) -> Result<(), NoMemory>
    ensures { OnOk result (out.new.items ≡ out.old.items ++ spelled (guard_tokens Loose (new_guard_of guard.now))) }
{
    match guard {
        NewGuard::Tie(atom) => {
            out.extend_from_slice(b"p1 = p2 and ")?;
            write_atom(alloc, atom, out)
        }
        NewGuard::Compare(atom) => write_atom(alloc, atom, out),
        NewGuard::Always => out.extend_from_slice(b"true"),
    }
}

/// Writes a case that is put in.
pub(crate) fn write_new_case(
    alloc: Global,
    kind: Kind,
    guard: &NewGuard,
    res: Res,
    out: &mut Vec<u8>,
) -> Result<(), NoMemory>
    ensures { OnOk result (out.new.items ≡ out.old.items ++ case_text kind (Some (when (new_guard_of guard.now) res))) }
{
    out.extend_from_slice(b"case ")?;
    write_new_guard(alloc, guard, out)?;
    out.extend_from_slice(b" : ")?;
    write_result(alloc, kind, res, out)
}

/// Writes the case of this number, where there is one.
pub(crate) fn write_case(
    alloc: Global,
    rules: &Rules,
    first: Kind,
    second: Kind,
    number: usize,
    out: &mut Vec<u8>,
) -> Result<(), NoMemory>
    requires { IsTrue (is_declared_pair (function_of rules.now).head first second) }
    ensures { OnOk result (out.new.items ≡ out.old.items
        ++ case_text first (slice_get (cases_of (function_of rules.now) first second) number)) }
{
    match case_text(alloc, rules, first, second, number)? {
        Some(text) => {
            out.extend_from_slice(b"case ")?;
            out.extend_from_slice(text.as_slice())
        }
        None => Ok(()),
    }
}
