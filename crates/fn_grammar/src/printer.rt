//! The canonical text of a function: first its tokens, then their bytes.
ghost use Rattle.std.specs.Prelude.{◌≡◌, ◌≤◌, ◌<◌, ◌^◌, ◌++◌, length, map, IsTrue, IfOk, OnOk, unsigned_abs};
ghost use Rattle.std.specs.Prelude.{option_map, slice_get};
ghost use Rattle.std.specs.List.{All, flat_map};
ghost use Rattle.fn_rules.specs.Formulas.{formula_of, other_side};
ghost use Rattle.fn_rules.specs.Functions.{case_of, cases_of, is_declared_pair};
ghost use Rattle.fn_rules.specs.Rules.{function_of};
ghost use Rattle.fn_rules.specs.Validity.{is_valid};
ghost use Rattle.fn_tokens.specs.Languages.{language_for};
ghost use Rattle.fn_grammar.specs.Print.{offset_tokens, atom_tokens, guard_tokens, result_tokens, case_tokens};
ghost use Rattle.fn_grammar.specs.Print.{block_tokens, clause_tokens, kind_tokens, printed_case};
ghost use Rattle.fn_grammar.specs.Print.{declared_block, blocks_with, function_tokens, printed, head_tokens};
ghost use Rattle.fn_grammar.specs.Print.{assumption_tokens};
ghost use Rattle.fn_grammar.specs.Print.{first_lines};
ghost use Rattle.fn_grammar.specs.Grammar.{IsTextOf};
ghost use Rattle.fn_grammar.specs.Offsets.{HasOffset, HasOffsets, HasResultOffset, HasCaseOffsets};

use crate::NoMemory;
use fn_rules::{Atom, Case, Guard, Head, Res, Rules, Side, Sort, Tightness, rules_are_valid};
use fn_tokens::{Language, Sign, Token, Word, spell};
use ot_model::{KINDS, Kind, Mode};
use std::alloc::Global;

fn other(side: Side) -> Side
    ensures { result ≡ other_side side }
{
    match side {
        Side::First => Side::Second,
        Side::Second => Side::First,
    }
}

fn push_offset(out: &mut Vec<Token>, k: i32) -> Result<(), NoMemory>
    requires { unsigned_abs k ≤ 99 }
    ensures { OnOk result (out.new.items ≡ out.old.items ++ offset_tokens k) }
{
    if k > 0 {
        out.push(Token::Sign(Sign::Plus))?;
        out.push(Token::Number(k as u8))?;
    } else if k < 0 {
        out.push(Token::Sign(Sign::Minus))?;
        out.push(Token::Number((-k) as u8))?;
    }
    Ok(())
}

fn push_atom(out: &mut Vec<Token>, atom: &Atom) -> Result<(), NoMemory>
    requires { HasOffset atom.now }
    ensures { OnOk result (out.new.items ≡ out.old.items ++ atom_tokens atom.now) }
{
    out.push(Token::Known(Word::Thing(atom.sort, atom.left)))?;
    out.push(Token::Comparison(atom.cmp))?;
    out.push(Token::Known(Word::Thing(atom.sort, other(atom.left))))?;
    push_offset(out, atom.k)?;
    Ok(())
}

fn push_guard(out: &mut Vec<Token>, guard: &Guard, at: Tightness) -> Result<(), NoMemory>
    requires { HasOffsets (formula_of guard.now) }
    ensures { OnOk result (out.new.items ≡ out.old.items ++ guard_tokens at (formula_of guard.now)) }
{
    match guard {
        Guard::True => {
            out.push(Token::Known(Word::True))?;
            Ok(())
        }
        Guard::Atom(atom) => {
            push_atom(out, atom)?;
            Ok(())
        }
        Guard::And(left, right) => {
            let enclosed = matches!(at, Tightness::Tight);
            if enclosed {
                out.push(Token::Open)?;
            }
            push_guard(out, left, Tightness::Joined)?;
            out.push(Token::Known(Word::And))?;
            push_guard(out, right, Tightness::Tight)?;
            if enclosed {
                out.push(Token::Close)?;
            }
            Ok(())
        }
        Guard::Or(left, right) => {
            let enclosed = !matches!(at, Tightness::Loose);
            if enclosed {
                out.push(Token::Open)?;
            }
            push_guard(out, left, Tightness::Loose)?;
            out.push(Token::Known(Word::Or))?;
            push_guard(out, right, Tightness::Joined)?;
            if enclosed {
                out.push(Token::Close)?;
            }
            Ok(())
        }
        Guard::Not(inner) => {
            out.push(Token::Known(Word::Not))?;
            push_guard(out, inner, Tightness::Tight)?;
            Ok(())
        }
    }
}

fn push_result(out: &mut Vec<Token>, kind: Kind, res: &Res) -> Result<(), NoMemory>
    requires { HasResultOffset res.now }
    ensures { OnOk result (out.new.items ≡ out.old.items ++ result_tokens kind res.now) }
{
    match *res {
        Res::Keep { base, k } => {
            out.push(Token::Known(Word::Kind(kind)))?;
            out.push(Token::Known(Word::Thing(Sort::Pos, base)))?;
            push_offset(out, k)?;
            Ok(())
        }
        Res::Nop => {
            out.push(Token::Known(Word::Nop))?;
            Ok(())
        }
    }
}

fn push_case(out: &mut Vec<Token>, kind: Kind, case: &Case) -> Result<(), NoMemory>
    requires { HasCaseOffsets (case_of case.now) }
    ensures { OnOk result (out.new.items ≡ out.old.items ++ case_tokens kind (case_of case.now)) }
{
    out.push(Token::Known(Word::Case))?;
    push_guard(out, &case.guard, Tightness::Loose)?;
    out.push(Token::Colon)?;
    push_result(out, kind, &case.res)?;
    out.push(Token::LineEnd)?;
    Ok(())
}

fn push_cases(out: &mut Vec<Token>, kind: Kind, cases: &[Case]) -> Result<(), NoMemory>
    requires { All (λ c. HasCaseOffsets (case_of c)) cases.now }
    ensures { OnOk result (out.new.items ≡ out.old.items ++ flat_map (λ c. case_tokens kind (case_of c)) cases.now) }
{
    for case in cases {
        push_case(out, kind, case)?;
    }
    Ok(())
}

fn push_block(
    out: &mut Vec<Token>,
    first: Kind,
    second: Kind,
    cases: &[Case],
) -> Result<(), NoMemory>
    requires { All (λ c. HasCaseOffsets (case_of c)) cases.now }
    ensures { OnOk result (out.new.items ≡ out.old.items ++ block_tokens first second (map case_of cases.now)) }
{
    out.push(Token::Known(Word::Block))?;
    out.push(Token::Known(Word::Kind(first)))?;
    out.push(Token::Known(Word::Kind(second)))?;
    out.push(Token::LineEnd)?;
    push_cases(out, first, cases)?;
    Ok(())
}

fn push_kinds(out: &mut Vec<Token>, head: &Head, kinds: &[Kind]) -> Result<(), NoMemory>
    ensures { OnOk result (out.new.items ≡ out.old.items ++ flat_map (kind_tokens head.now) kinds.now) }
{
    for kind in kinds {
        if head.declares(*kind) {
            out.push(Token::Known(Word::Kind(*kind)))?;
        }
    }
    Ok(())
}

fn push_assumption(out: &mut Vec<Token>, assumed: bool, what: Word) -> Result<(), NoMemory>
    ensures { OnOk result (out.new.items ≡ out.old.items ++ assumption_tokens assumed what) }
{
    if assumed {
        out.push(Token::Known(Word::Assume))?;
        out.push(Token::Known(what))?;
        out.push(Token::Known(Word::Differ))?;
        out.push(Token::LineEnd)?;
    }
    Ok(())
}

fn push_first_lines(out: &mut Vec<Token>, language: Language, mode: Mode) -> Result<(), NoMemory>
    ensures { OnOk result (out.new.items ≡ out.old.items ++ first_lines language mode) }
{
    out.push(Token::Known(Word::Otfn))?;
    out.push(Token::Number(language.number()))?;
    out.push(Token::LineEnd)?;
    out.push(Token::Known(Word::Text))?;
    out.push(Token::Known(Word::Mode(mode)))?;
    out.push(Token::LineEnd)?;
    Ok(())
}

#[tactic(auto, unfolding(crate::specs::Print::head_tokens))]
fn push_head(out: &mut Vec<Token>, head: &Head) -> Result<(), NoMemory>
    ensures { OnOk result (out.new.items ≡ out.old.items ++ head_tokens (language_for head.now) head.now) }
{
    push_first_lines(out, Language::of(*head), head.mode)?;
    out.push(Token::Known(Word::Kinds))?;
    push_kinds(out, head, &KINDS)?;
    out.push(Token::LineEnd)?;
    push_assumption(out, head.sites_differ, Word::Sites)?;
    push_assumption(out, head.chars_differ, Word::Chars)?;
    Ok(())
}

#[tactic(auto, unfolding(crate::specs::Print::declared_block))]
fn push_declared(
    out: &mut Vec<Token>,
    rules: &Rules,
    first: Kind,
    second: Kind,
) -> Result<(), NoMemory>
    ensures { OnOk result (out.new.items ≡ out.old.items ++ declared_block (function_of rules.now) first second) }
{
    let head = rules.head();
    if head.declares_pair(first, second) {
        push_block(out, first, second, rules.cases(first, second))?;
    }
    Ok(())
}

/// The blocks with this first kind and one of these second ones.
fn push_blocks_with(
    out: &mut Vec<Token>,
    rules: &Rules,
    first: Kind,
    seconds: &[Kind],
) -> Result<(), NoMemory>
    ensures { OnOk result (out.new.items ≡ out.old.items
        ++ flat_map (declared_block (function_of rules.now) first) seconds.now) }
{
    for second in seconds {
        push_declared(out, rules, first, *second)?;
    }
    Ok(())
}

/// The blocks with one of these first kinds.
fn push_blocks(out: &mut Vec<Token>, rules: &Rules, firsts: &[Kind]) -> Result<(), NoMemory>
    ensures { OnOk result (out.new.items ≡ out.old.items ++ flat_map (blocks_with (function_of rules.now)) firsts.now) }
{
    for first in firsts {
        push_blocks_with(out, rules, *first, &KINDS)?;
    }
    Ok(())
}

fn push_function(out: &mut Vec<Token>, rules: &Rules) -> Result<(), NoMemory>
    ensures tokens { OnOk result (out.new.items ≡ out.old.items ++ function_tokens (function_of rules.now)) }
    ensures valid { OnOk result (IsTrue (is_valid (function_of rules.now))) }
{
    push_head(out, &rules.head())?;
    push_blocks(out, rules, &KINDS)?;
    out.push(Token::Known(Word::End))?;
    out.push(Token::LineEnd)?;
    Ok(())
}

/// The canonical text of a function.
pub fn canonical_text(alloc: Global, rules: &Rules) -> Result<Vec<u8>, NoMemory>
    ensures text { IfOk result (λ text. text.items ≡ printed (function_of rules.now)) }
    ensures short { IfOk result (λ text. length text.items < 2 ^ 31) }
    ensures of_function { IfOk result (λ text. IsTextOf text.items (function_of rules.now)) }
{
    let mut tokens = Vec::new(alloc);
    push_function(&mut tokens, rules)?;
    Ok(spell(alloc, &tokens)?)
}

fn push_clause(out: &mut Vec<Token>, kind: Kind, case: &Case) -> Result<(), NoMemory>
    requires { HasCaseOffsets (case_of case.now) }
    ensures { OnOk result (out.new.items ≡ out.old.items ++ clause_tokens kind (case_of case.now)) }
{
    push_guard(out, &case.guard, Tightness::Loose)?;
    out.push(Token::Colon)?;
    push_result(out, kind, &case.res)?;
    Ok(())
}

fn clause_text(alloc: Global, kind: Kind, case: &Case) -> Result<Vec<u8>, NoMemory>
    requires { HasCaseOffsets (case_of case.now) }
    ensures { IfOk result (λ text. text.items ≡ printed_case kind (case_of case.now)) }
{
    let mut tokens = Vec::new(alloc);
    push_clause(&mut tokens, kind, case)?;
    Ok(spell(alloc, &tokens)?)
}

/// The canonical text of the case at this place of the block for two kinds, without the word `case` and the line's
/// end. None where there is no such case.
pub fn case_text(
    alloc: Global,
    rules: &Rules,
    first: Kind,
    second: Kind,
    number: usize,
) -> Result<Option<Vec<u8>>, NoMemory>
    requires { IsTrue (is_declared_pair (function_of rules.now).head first second) }
    ensures { IfOk result (λ text. option_map (λ t. t.items) text
        ≡ option_map (printed_case first) (slice_get (cases_of (function_of rules.now) first second) number)) }
{
    rules_are_valid(rules);
    match rules.cases(first, second).get(number) {
        Some(case) => Ok(Some(clause_text(alloc, first, case)?)),
        None => Ok(None),
    }
}
