//! The function that an edit makes.
ghost use Rattle.std.specs.Prelude.{◌≡◌, ◌++◌, ◌∷◌, [], pos, false, IsTrue, OnOk, IfOk, MatchOption, map, take, drop};
ghost use Rattle.std.specs.Prelude.{reverse};
ghost use Rattle.std.specs.List.{flat_map};
ghost use Rattle.fn_rules.specs.Building.{block_of};
ghost use Rattle.fn_rules.specs.Formulas.{formula_of, And, Compare};
ghost use Rattle.fn_rules.specs.Functions.{case_of, cases_of, is_declared_pair};
ghost use Rattle.fn_rules.specs.Rules.{function_of};
ghost use Rattle.fn_rules.specs.Shipped.{when};
ghost use Rattle.fn_rules.specs.Validity.{is_valid};
ghost use Rattle.ot_mend.specs.Edits.{block_after, blocks_after, cases_after, declared_block_after, edited_of};
ghost use Rattle.ot_mend.specs.Edits.{head_after, new_guard_of, part_after, place_of, width_of, with_atom};

use crate::atoms::{copied, with_atom};
use crate::change::{Change, NewGuard};
use crate::edit::Edit;
use fn_rules::{
    Atom, Block, Case, Cmp, Guard, Head, NoMemory, Res, Rules, Side, Sort, is_within_limits,
};
use ot_model::Kind;
use std::alloc::Global;

// The first so many cases, or all.
fn first_cases(cases: &[Case], count: usize) -> &[Case]
    ensures { map case_of result.now ≡ take count (map case_of cases.now) }
{
    if count < cases.len() {
        &cases[..count]
    } else {
        cases
    }
}

// The cases after so many.
fn later_cases(cases: &[Case], count: usize) -> &[Case]
    ensures { map case_of result.now ≡ drop count (map case_of cases.now) }
{
    if count < cases.len() {
        &cases[count..]
    } else {
        &[]
    }
}

// Puts copies of the cases at the end.
fn push_copies(alloc: Global, cases: &[Case], out: &mut Vec<Case>) -> Result<(), NoMemory>
    ensures { OnOk result (map case_of out.new.items ≡ map case_of out.old.items ++ map case_of cases.now) }
{
    for case in cases {
        out.push(Case {
            guard: copied(alloc, &case.guard)?,
            res: case.res,
        })?;
    }
    Ok(())
}

// Puts copies of the cases at the end, each with another atom.
fn push_with_atom(
    alloc: Global,
    cases: &[Case],
    number: usize,
    to: Atom,
    out: &mut Vec<Case>,
) -> Result<(), NoMemory>
    ensures { OnOk result (map case_of out.new.items
        ≡ map case_of out.old.items ++ map (λ c. when (with_atom to number c.guard) c.res) (map case_of cases.now)) }
{
    for case in cases {
        out.push(Case {
            guard: with_atom(alloc, &case.guard, number, to)?,
            res: case.res,
        })?;
    }
    Ok(())
}

// Puts copies of the cases at the end, each with another result.
fn push_with_result(
    alloc: Global,
    cases: &[Case],
    to: Res,
    out: &mut Vec<Case>,
) -> Result<(), NoMemory>
    ensures { OnOk result (map case_of out.new.items
        ≡ map case_of out.old.items ++ map (λ c. when c.guard to) (map case_of cases.now)) }
{
    for case in cases {
        out.push(Case {
            guard: copied(alloc, &case.guard)?,
            res: to,
        })?;
    }
    Ok(())
}

// Puts copies of the cases at the end, the last one first.
fn push_reversed(alloc: Global, cases: &[Case], out: &mut Vec<Case>) -> Result<(), NoMemory>
    ensures { OnOk result (map case_of out.new.items
        ≡ map case_of out.old.items ++ reverse (map case_of cases.now)) }
{
    match cases {
        [] => Ok(()),
        [first, others @ ..] => {
            push_reversed(alloc, others, out)?;
            out.push(Case {
                guard: copied(alloc, &first.guard)?,
                res: first.res,
            })?;
            Ok(())
        }
    }
}

fn same_position() -> Guard
    ensures { formula_of result ≡ Compare (record { sort = Sort.Pos; left = Side.First; cmp = Cmp.Eq; k = pos 0 }) }
{
    Guard::Atom(Atom {
        sort: Sort::Pos,
        left: Side::First,
        cmp: Cmp::Eq,
        k: 0,
    })
}

fn new_guard(alloc: Global, guard: NewGuard) -> Result<Guard, NoMemory>
    ensures { IfOk result (λ new. formula_of new ≡ new_guard_of guard) }
{
    match guard {
        NewGuard::Tie(atom) => {
            let left = Box::new(alloc, same_position())?;
            let right = Box::new(alloc, Guard::Atom(atom))?;
            Ok(Guard::And(left, right))
        }
        NewGuard::Compare(atom) => Ok(Guard::Atom(atom)),
        NewGuard::Always => Ok(Guard::True),
    }
}

// The number of the first case that a change concerns.
fn place(change: &Change) -> usize
    ensures { result ≡ place_of change.now }
{
    match *change {
        Change::NewAtom { case, .. } => case,
        Change::NewResult { case, .. } => case,
        Change::TakeOut { case } => case,
        Change::Exchange { case } => case,
        Change::PutIn { case, .. } => case,
    }
}

// How many cases it concerns.
fn width(change: &Change) -> usize
    ensures { result ≡ width_of change.now }
{
    match *change {
        Change::NewAtom { .. } => 1,
        Change::NewResult { .. } => 1,
        Change::TakeOut { .. } => 1,
        Change::Exchange { .. } => 2,
        Change::PutIn { .. } => 0,
    }
}

// Puts at the end what a change makes of the cases that it concerns.
fn push_part(
    alloc: Global,
    change: &Change,
    part: &[Case],
    out: &mut Vec<Case>,
) -> Result<(), NoMemory>
    ensures { OnOk result (map case_of out.new.items
        ≡ map case_of out.old.items ++ part_after change.now (map case_of part.now)) }
{
    match *change {
        Change::NewAtom { atom, to, .. } => push_with_atom(alloc, part, atom, to, out),
        Change::NewResult { to, .. } => push_with_result(alloc, part, to, out),
        Change::TakeOut { .. } => Ok(()),
        Change::Exchange { .. } => push_reversed(alloc, part, out),
        Change::PutIn { guard, res, .. } => {
            out.push(Case {
                guard: new_guard(alloc, guard)?,
                res,
            })?;
            Ok(())
        }
    }
}

// What a change makes of a block's cases.
fn changed(alloc: Global, change: &Change, cases: &[Case]) -> Result<Vec<Case>, NoMemory>
    ensures { IfOk result (λ new. map case_of new.items ≡ cases_after change.now (map case_of cases.now)) }
{
    let later = later_cases(cases, place(change));
    let mut out = Vec::new(alloc);
    push_copies(alloc, first_cases(cases, place(change)), &mut out)?;
    push_part(alloc, change, first_cases(later, width(change)), &mut out)?;
    push_copies(alloc, later_cases(later, width(change)), &mut out)?;
    Ok(out)
}

fn copy_cases(alloc: Global, cases: &[Case]) -> Result<Vec<Case>, NoMemory>
    ensures { IfOk result (λ copy. map case_of copy.items ≡ map case_of cases.now) }
{
    let mut out = Vec::new(alloc);
    push_copies(alloc, cases, &mut out)?;
    Ok(out)
}

// What an edit makes of the cases of a pair of kinds.
fn cases_after(
    alloc: Global,
    edit: &Edit,
    first: Kind,
    second: Kind,
    cases: &[Case],
) -> Result<Vec<Case>, NoMemory>
    ensures { IfOk result (λ new. map case_of new.items
        ≡ block_after edit.now first second (map case_of cases.now)) }
{
    match edit {
        Edit::InBlock {
            first: k,
            second: l,
            change,
        } => {
            if k.same(first) && l.same(second) {
                changed(alloc, change, cases)
            } else {
                copy_cases(alloc, cases)
            }
        }
        Edit::AssumeSites | Edit::AssumeChars => copy_cases(alloc, cases),
    }
}

// What an edit makes of a head.
fn head_after(edit: &Edit, mut head: Head) -> Head
    ensures { result ≡ head_after edit.now head }
{
    match edit {
        Edit::InBlock { .. } => (),
        Edit::AssumeSites => head.sites_differ = true,
        Edit::AssumeChars => head.chars_differ = true,
    }
    head
}

// Puts at the end the block of a pair of kinds, where the function is for both.
fn push_declared(
    alloc: Global,
    rules: &Rules,
    edit: &Edit,
    blocks: &mut Vec<Block>,
    first: Kind,
    second: Kind,
) -> Result<(), NoMemory>
    ensures { OnOk result (map block_of blocks.new.items
        ≡ map block_of blocks.old.items ++ declared_block_after edit.now (function_of rules.now) (first, second)) }
{
    if rules.head().declares_pair(first, second) {
        let cases = cases_after(alloc, edit, first, second, rules.cases(first, second))?;
        blocks.push(Block {
            first,
            second,
            cases,
        })?;
    }
    Ok(())
}

// The blocks of a first kind.
fn push_first(
    alloc: Global,
    rules: &Rules,
    edit: &Edit,
    blocks: &mut Vec<Block>,
    first: Kind,
) -> Result<(), NoMemory>
    ensures { OnOk result (map block_of blocks.new.items ≡ map block_of blocks.old.items
        ++ flat_map (declared_block_after edit.now (function_of rules.now))
        ((first, Kind.Ins) ∷ (first, Kind.Del) ∷ (first, Kind.Upd) ∷ [])) }
{
    push_declared(alloc, rules, edit, blocks, first, Kind::Ins)?;
    push_declared(alloc, rules, edit, blocks, first, Kind::Del)?;
    push_declared(alloc, rules, edit, blocks, first, Kind::Upd)?;
    Ok(())
}

fn blocks_after(alloc: Global, rules: &Rules, edit: &Edit) -> Result<Vec<Block>, NoMemory>
    ensures { IfOk result (λ blocks. map block_of blocks.items ≡ blocks_after edit.now (function_of rules.now)) }
{
    let mut blocks = Vec::new(alloc);
    push_first(alloc, rules, edit, &mut blocks, Kind::Ins)?;
    push_first(alloc, rules, edit, &mut blocks, Kind::Del)?;
    push_first(alloc, rules, edit, &mut blocks, Kind::Upd)?;
    Ok(blocks)
}

/// The function that an edit makes of a function; none where it would break a limit.
pub fn edited(alloc: Global, rules: &Rules, edit: &Edit) -> Result<Option<Rules>, NoMemory>
    ensures some { IfOk result (λ new. MatchOption new
        (is_valid (edited_of edit.now (function_of rules.now)) ≡ false)
        (λ rules_after. function_of rules_after ≡ edited_of edit.now (function_of rules.now))) }
    ensures valid { IfOk result (λ new. MatchOption new (Unit {0})
        (λ rules_after. IsTrue (is_valid (edited_of edit.now (function_of rules.now))))) }
{
    let head = head_after(edit, rules.head());
    let blocks = blocks_after(alloc, rules, edit)?;
    if is_within_limits(&head, &blocks) {
        Ok(Some(Rules::build(head, blocks)))
    } else {
        Ok(None)
    }
}
