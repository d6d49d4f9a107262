//! Which edits a function has.
ghost use Rattle.std.specs.Prelude.{◌≡◌, ◌+◌, ◌≤◌, ◌++◌, ◌∷◌, [], OnOk, IfOk, map, length, drop};
ghost use Rattle.std.specs.List.{flat_map};
ghost use Rattle.ot_model.specs.Kinds.{kind_pairs};
ghost use Rattle.fn_rules.specs.Formulas.{formula_of};
ghost use Rattle.fn_rules.specs.Functions.{case_of};
ghost use Rattle.fn_rules.specs.Rules.{function_of};
ghost use Rattle.fn_rules.specs.Validity.{compares_chars};
ghost use Rattle.ot_mend.specs.declared.change.Change.TheVariants.{NewAtom, NewResult, PutIn};
ghost use Rattle.ot_mend.specs.declared.edit.Edit.TheVariants.{InBlock};
ghost use Rattle.ot_mend.specs.Offers.{assumptions, atom_changes, block_edits, by_number, changes_of, changes_of_cases};
ghost use Rattle.ot_mend.specs.Offers.{edits_of, exchanged, guard_changes, is_assumed, is_same_cmp, is_same_res};
ghost use Rattle.ot_mend.specs.Offers.{is_same_side, is_symmetric, new_cases, new_guards, order_guards, plain_atom};
ghost use Rattle.ot_mend.specs.Offers.{plain_atoms, put_in, result_changes, says_same, strict_ties, taken_out, ties_by};
ghost use Rattle.ot_mend.specs.Offers.{ties_by_char, unless, weak_ties};

use crate::atoms::push_atoms;
use crate::change::{Change, NewGuard};
use crate::edit::Edit;
use fn_rules::{Atom, Case, Cmp, Head, NoMemory, Res, Rules, Side, Sort};
use ot_model::Kind;
use std::alloc::Global;

// The results that a case can be given.
const NEW_RESULTS: [Res; 4] = [
    Res::Keep {
        base: Side::First,
        k: 0,
    },
    Res::Keep {
        base: Side::First,
        k: 1,
    },
    Res::Keep {
        base: Side::First,
        k: -1,
    },
    Res::Nop,
];

fn is_assumed(head: &Head, sort: Sort) -> bool
    ensures { result ≡ is_assumed head.now sort }
{
    match sort {
        Sort::Pos => false,
        Sort::Site => head.sites_differ,
        Sort::Char => head.chars_differ,
    }
}

fn plain_atom(sort: Sort, left: Side, cmp: Cmp) -> Atom
    ensures { result ≡ plain_atom sort left cmp }
{
    Atom {
        sort,
        left,
        cmp,
        k: 0,
    }
}

// What an atom of a sort can say.
fn plain_atoms(alloc: Global, sort: Sort, assumed: bool) -> Result<Vec<Atom>, NoMemory>
    ensures { IfOk result (λ v. v.items ≡ plain_atoms sort assumed) }
{
    let mut atoms = Vec::new(alloc);
    if assumed {
        atoms.push(plain_atom(sort, Side::First, Cmp::Lt))?;
        atoms.push(plain_atom(sort, Side::First, Cmp::Eq))?;
        atoms.push(plain_atom(sort, Side::Second, Cmp::Lt))?;
        Ok(atoms)
    } else {
        atoms.push(plain_atom(sort, Side::First, Cmp::Lt))?;
        atoms.push(plain_atom(sort, Side::First, Cmp::Le))?;
        atoms.push(plain_atom(sort, Side::First, Cmp::Eq))?;
        atoms.push(plain_atom(sort, Side::Second, Cmp::Lt))?;
        atoms.push(plain_atom(sort, Side::Second, Cmp::Le))?;
        Ok(atoms)
    }
}

fn same_side(side: Side, other: Side) -> bool
    ensures { result ≡ is_same_side side other }
{
    match (side, other) {
        (Side::First, Side::First) => true,
        (Side::First, Side::Second) => false,
        (Side::Second, Side::First) => false,
        (Side::Second, Side::Second) => true,
    }
}

// Whether the two compare alike.
fn same_cmp(assumed: bool, cmp: Cmp, other: Cmp) -> bool
    ensures { result ≡ is_same_cmp assumed cmp other }
{
    match (cmp, other) {
        (Cmp::Lt, Cmp::Lt) => true,
        (Cmp::Lt, Cmp::Le) => assumed,
        (Cmp::Lt, Cmp::Eq) => false,
        (Cmp::Le, Cmp::Lt) => assumed,
        (Cmp::Le, Cmp::Le) => true,
        (Cmp::Le, Cmp::Eq) => false,
        (Cmp::Eq, Cmp::Lt) => false,
        (Cmp::Eq, Cmp::Le) => false,
        (Cmp::Eq, Cmp::Eq) => true,
    }
}

fn is_symmetric(cmp: Cmp) -> bool
    ensures { result ≡ is_symmetric cmp }
{
    match cmp {
        Cmp::Lt => false,
        Cmp::Le => false,
        Cmp::Eq => true,
    }
}

// Whether an atom says the same as one of its sort without an offset.
fn says_same(assumed: bool, atom: &Atom, other: &Atom) -> bool
    ensures { result ≡ says_same assumed atom.now other.now }
{
    atom.k == 0
        && same_cmp(assumed, atom.cmp, other.cmp)
        && (is_symmetric(other.cmp) || same_side(atom.left, other.left))
}

fn same_res(res: Res, other: Res) -> bool
    ensures { result ≡ is_same_res res other }
{
    match (res, other) {
        (Res::Keep { base: a, k }, Res::Keep { base: b, k: j }) => same_side(a, b) && k == j,
        (Res::Keep { .. }, Res::Nop) => false,
        (Res::Nop, Res::Keep { .. }) => false,
        (Res::Nop, Res::Nop) => true,
    }
}

// Puts a change at the end, unless the test is true.
fn push_unless(given: bool, change: Change, out: &mut Vec<Change>) -> Result<(), NoMemory>
    ensures { OnOk result (out.new.items ≡ out.old.items ++ unless given change) }
{
    if given {
        Ok(())
    } else {
        out.push(change)?;
        Ok(())
    }
}

// Puts at the end that an atom becomes each of the others that does not say the same.
fn push_other_atoms(
    assumed: bool,
    case: usize,
    number: usize,
    atom: &Atom,
    others: &[Atom],
    out: &mut Vec<Change>,
) -> Result<(), NoMemory>
    ensures { OnOk result (out.new.items ≡ out.old.items
        ++ flat_map (λ other. unless (says_same assumed atom.now other) (NewAtom case number atom.now other))
        others.now) }
{
    match others {
        [] => Ok(()),
        [other, further @ ..] => {
            let change = Change::NewAtom {
                case,
                atom: number,
                from: *atom,
                to: *other,
            };
            push_unless(says_same(assumed, atom, other), change, out)?;
            push_other_atoms(assumed, case, number, atom, further, out)
        }
    }
}

// Puts at the end the changes of the atoms of a case, the first of which has this number.
fn push_atoms_of(
    alloc: Global,
    head: &Head,
    case: usize,
    number: usize,
    atoms: &[Atom],
    out: &mut Vec<Change>,
) -> Result<(), NoMemory>
    requires { number + length atoms.now ≤ usize.MAX }
    ensures { OnOk result (out.new.items ≡ out.old.items
        ++ by_number (atom_changes head.now case) number atoms.now) }
{
    match atoms {
        [] => Ok(()),
        [atom, further @ ..] => {
            let assumed = is_assumed(head, atom.sort);
            let others = plain_atoms(alloc, atom.sort, assumed)?;
            push_other_atoms(assumed, case, number, atom, &others, out)?;
            push_atoms_of(alloc, head, case, number + 1, further, out)
        }
    }
}

// Puts at the end the changes of the atoms of the cases, the first of which has this number.
fn push_atom_changes(
    alloc: Global,
    head: &Head,
    number: usize,
    cases: &[Case],
    out: &mut Vec<Change>,
) -> Result<(), NoMemory>
    requires { number + length cases.now ≤ usize.MAX }
    ensures { OnOk result (out.new.items ≡ out.old.items
        ++ by_number (guard_changes head.now) number (map case_of cases.now)) }
{
    match cases {
        [] => Ok(()),
        [case, others @ ..] => {
            let mut atoms = Vec::new(alloc);
            push_atoms(&case.guard, &mut atoms)?;
            push_atoms_of(alloc, head, number, 0, &atoms, out)?;
            push_atom_changes(alloc, head, number + 1, others, out)
        }
    }
}

// Puts at the end that a result becomes each of the others that is not the same.
fn push_other_results(
    case: usize,
    res: Res,
    others: &[Res],
    out: &mut Vec<Change>,
) -> Result<(), NoMemory>
    ensures { OnOk result (out.new.items ≡ out.old.items
        ++ flat_map (λ other. unless (is_same_res res other) (NewResult case res other)) others.now) }
{
    match others {
        [] => Ok(()),
        [other, further @ ..] => {
            let change = Change::NewResult {
                case,
                from: res,
                to: *other,
            };
            push_unless(same_res(res, *other), change, out)?;
            push_other_results(case, res, further, out)
        }
    }
}

// Puts at the end the changes of the results of the cases, the first of which has this number.
fn push_result_changes(number: usize, cases: &[Case], out: &mut Vec<Change>) -> Result<(), NoMemory>
    requires { number + length cases.now ≤ usize.MAX }
    ensures { OnOk result (out.new.items ≡ out.old.items
        ++ by_number result_changes number (map case_of cases.now)) }
{
    match cases {
        [] => Ok(()),
        [case, others @ ..] => {
            push_other_results(number, case.res, &NEW_RESULTS, out)?;
            push_result_changes(number + 1, others, out)
        }
    }
}

// Puts at the end that each case is taken out.
fn push_taken_out(number: usize, cases: &[Case], out: &mut Vec<Change>) -> Result<(), NoMemory>
    requires { number + length cases.now ≤ usize.MAX }
    ensures { OnOk result (out.new.items ≡ out.old.items
        ++ by_number taken_out number (map case_of cases.now)) }
{
    match cases {
        [] => Ok(()),
        [_, others @ ..] => {
            out.push(Change::TakeOut { case: number })?;
            push_taken_out(number + 1, others, out)
        }
    }
}

// Puts at the end that a case and the next one change places, where these are the next ones.
fn push_exchanged(number: usize, cases: &[Case], out: &mut Vec<Change>) -> Result<(), NoMemory>
    requires { number + length cases.now ≤ usize.MAX }
    ensures { OnOk result (out.new.items ≡ out.old.items
        ++ by_number exchanged number (map case_of cases.now)) }
{
    match cases {
        [] => Ok(()),
        [_, others @ ..] => {
            out.push(Change::Exchange { case: number })?;
            push_exchanged(number + 1, others, out)
        }
    }
}

// Puts at the end that each case but the last one and its next one change places.
fn push_exchanges(cases: &[Case], out: &mut Vec<Change>) -> Result<(), NoMemory>
    ensures { OnOk result (out.new.items ≡ out.old.items
        ++ by_number exchanged 0 (drop 1 (map case_of cases.now))) }
{
    match cases {
        [] => Ok(()),
        [_, others @ ..] => push_exchanged(0, others, out),
    }
}

fn push_strict_ties(sort: Sort, out: &mut Vec<NewGuard>) -> Result<(), NoMemory>
    ensures { OnOk result (out.new.items ≡ out.old.items ++ strict_ties sort) }
{
    out.push(NewGuard::Tie(plain_atom(sort, Side::First, Cmp::Lt)))?;
    out.push(NewGuard::Tie(plain_atom(sort, Side::Second, Cmp::Lt)))?;
    Ok(())
}

fn push_weak_ties(sort: Sort, out: &mut Vec<NewGuard>) -> Result<(), NoMemory>
    ensures { OnOk result (out.new.items ≡ out.old.items ++ weak_ties sort) }
{
    out.push(NewGuard::Tie(plain_atom(sort, Side::First, Cmp::Le)))?;
    out.push(NewGuard::Tie(plain_atom(sort, Side::Second, Cmp::Le)))?;
    out.push(NewGuard::Tie(plain_atom(sort, Side::First, Cmp::Eq)))?;
    Ok(())
}

// Puts at the end what breaks a tie.
fn push_ties(sort: Sort, assumed: bool, out: &mut Vec<NewGuard>) -> Result<(), NoMemory>
    ensures { OnOk result (out.new.items ≡ out.old.items ++ ties_by sort assumed) }
{
    if assumed {
        push_strict_ties(sort, out)
    } else {
        push_strict_ties(sort, out)?;
        push_weak_ties(sort, out)
    }
}

// Puts at the end what breaks a tie by character, where both operations have one.
fn push_ties_by_char(chars: bool, assumed: bool, out: &mut Vec<NewGuard>) -> Result<(), NoMemory>
    ensures { OnOk result (out.new.items ≡ out.old.items ++ ties_by_char chars assumed) }
{
    if chars {
        push_ties(Sort::Char, assumed, out)
    } else {
        Ok(())
    }
}

// Puts at the end a guard that compares the two positions.
fn push_order(left: Side, cmp: Cmp, out: &mut Vec<NewGuard>) -> Result<(), NoMemory>
    ensures { OnOk result (out.new.items ≡ out.old.items
        ++ NewGuard.Compare (plain_atom Sort.Pos left cmp) ∷ []) }
{
    out.push(NewGuard::Compare(plain_atom(Sort::Pos, left, cmp)))?;
    Ok(())
}

// Puts the other guards at the end.
fn push_order_guards(out: &mut Vec<NewGuard>) -> Result<(), NoMemory>
    ensures { OnOk result (out.new.items ≡ out.old.items ++ order_guards) }
{
    push_order(Side::First, Cmp::Eq, out)?;
    push_order(Side::First, Cmp::Lt, out)?;
    push_order(Side::Second, Cmp::Lt, out)?;
    push_order(Side::First, Cmp::Le, out)?;
    push_order(Side::Second, Cmp::Le, out)?;
    out.push(NewGuard::Always)?;
    Ok(())
}

// The guards that a new case can have.
fn new_guards(alloc: Global, head: &Head, chars: bool) -> Result<Vec<NewGuard>, NoMemory>
    ensures { IfOk result (λ v. v.items ≡ new_guards head.now chars) }
{
    let mut out = Vec::new(alloc);
    push_ties(Sort::Site, head.sites_differ, &mut out)?;
    push_ties_by_char(chars, head.chars_differ, &mut out)?;
    push_order_guards(&mut out)?;
    Ok(out)
}

// Puts at the end that a case of this guard is put in, with each of the results.
fn push_results(
    case: usize,
    guard: NewGuard,
    results: &[Res],
    out: &mut Vec<Change>,
) -> Result<(), NoMemory>
    ensures { OnOk result (out.new.items ≡ out.old.items ++ map (PutIn case guard) results.now) }
{
    match results {
        [] => Ok(()),
        [res, others @ ..] => {
            out.push(Change::PutIn {
                case,
                guard,
                res: *res,
            })?;
            push_results(case, guard, others, out)
        }
    }
}

// Puts at the end the cases of these guards that can be put in at a place.
fn push_new_cases(case: usize, guards: &[NewGuard], out: &mut Vec<Change>) -> Result<(), NoMemory>
    ensures { OnOk result (out.new.items ≡ out.old.items ++ new_cases guards.now case) }
{
    match guards {
        [] => Ok(()),
        [guard, others @ ..] => {
            push_results(case, *guard, &NEW_RESULTS, out)?;
            push_new_cases(case, others, out)
        }
    }
}

// Puts at the end the cases of these guards that can be put in in front of each of the cases.
fn push_put_in(
    guards: &[NewGuard],
    number: usize,
    cases: &[Case],
    out: &mut Vec<Change>,
) -> Result<(), NoMemory>
    requires { number + length cases.now ≤ usize.MAX }
    ensures { OnOk result (out.new.items ≡ out.old.items
        ++ by_number (put_in guards.now) number (map case_of cases.now)) }
{
    match cases {
        [] => Ok(()),
        [_, others @ ..] => {
            push_new_cases(number, guards, out)?;
            push_put_in(guards, number + 1, others, out)
        }
    }
}

// Puts at the end the changes of the cases that there are.
fn push_changes_of_cases(
    alloc: Global,
    head: &Head,
    cases: &[Case],
    out: &mut Vec<Change>,
) -> Result<(), NoMemory>
    ensures { OnOk result (out.new.items ≡ out.old.items
        ++ changes_of_cases head.now (map case_of cases.now)) }
{
    push_atom_changes(alloc, head, 0, cases, out)?;
    push_result_changes(0, cases, out)?;
    push_taken_out(0, cases, out)?;
    push_exchanges(cases, out)
}

// The changes of a block's cases.
fn changes(alloc: Global, head: &Head, chars: bool, cases: &[Case]) -> Result<Vec<Change>, NoMemory>
    ensures { IfOk result (λ v. v.items ≡ changes_of head.now chars (map case_of cases.now)) }
{
    let guards = new_guards(alloc, head, chars)?;
    let mut out = Vec::new(alloc);
    push_changes_of_cases(alloc, head, cases, &mut out)?;
    push_put_in(&guards, 0, cases, &mut out)?;
    push_new_cases(cases.len(), &guards, &mut out)?;
    Ok(out)
}

// Puts at the end the changes as edits of a pair of kinds.
fn push_in_block(
    first: Kind,
    second: Kind,
    changes: &[Change],
    out: &mut Vec<Edit>,
) -> Result<(), NoMemory>
    ensures { OnOk result (out.new.items ≡ out.old.items ++ map (InBlock first second) changes.now) }
{
    for change in changes {
        out.push(Edit::InBlock {
            first,
            second,
            change: *change,
        })?;
    }
    Ok(())
}

// Whether the block of a pair of kinds may compare characters.
fn compares_chars(first: Kind, second: Kind) -> bool
    ensures { result ≡ compares_chars first second }
{
    first.has_char() && second.has_char()
}

// Puts at the end the edits of the block of a pair of kinds, where the function is for both.
fn push_block(
    alloc: Global,
    rules: &Rules,
    out: &mut Vec<Edit>,
    first: Kind,
    second: Kind,
) -> Result<(), NoMemory>
    ensures { OnOk result (out.new.items ≡ out.old.items ++ block_edits (function_of rules.now) (first, second)) }
{
    let head = rules.head();
    if head.declares_pair(first, second) {
        let chars = compares_chars(first, second);
        let changes = changes(alloc, &head, chars, rules.cases(first, second))?;
        push_in_block(first, second, &changes, out)?;
    }
    Ok(())
}

// Puts at the end the edits of the blocks of a first kind.
fn push_blocks(
    alloc: Global,
    rules: &Rules,
    out: &mut Vec<Edit>,
    first: Kind,
) -> Result<(), NoMemory>
    ensures { OnOk result (out.new.items ≡ out.old.items
        ++ flat_map (block_edits (function_of rules.now))
        ((first, Kind.Ins) ∷ (first, Kind.Del) ∷ (first, Kind.Upd) ∷ [])) }
{
    push_block(alloc, rules, out, first, Kind::Ins)?;
    push_block(alloc, rules, out, first, Kind::Del)?;
    push_block(alloc, rules, out, first, Kind::Upd)?;
    Ok(())
}

// Puts an assumption at the end, unless it is made already.
fn push_assumption(made: bool, edit: Edit, out: &mut Vec<Edit>) -> Result<(), NoMemory>
    ensures { OnOk result (out.new.items ≡ out.old.items ++ unless made edit) }
{
    if made {
        Ok(())
    } else {
        out.push(edit)?;
        Ok(())
    }
}

// Puts at the end what can be assumed.
fn push_assumptions(head: &Head, out: &mut Vec<Edit>) -> Result<(), NoMemory>
    ensures { OnOk result (out.new.items ≡ out.old.items ++ assumptions head.now) }
{
    push_assumption(head.sites_differ, Edit::AssumeSites, out)?;
    push_assumption(head.chars_differ, Edit::AssumeChars, out)
}

// Puts at the end the edits of all blocks.
fn push_all_blocks(alloc: Global, rules: &Rules, out: &mut Vec<Edit>) -> Result<(), NoMemory>
    ensures { OnOk result (out.new.items ≡ out.old.items
        ++ flat_map (block_edits (function_of rules.now)) kind_pairs) }
{
    push_blocks(alloc, rules, out, Kind::Ins)?;
    push_blocks(alloc, rules, out, Kind::Del)?;
    push_blocks(alloc, rules, out, Kind::Upd)?;
    Ok(())
}

/// The edits of a function: block by block in canonical order, and then the assumptions.
pub fn edits(alloc: Global, rules: &Rules) -> Result<Vec<Edit>, NoMemory>
    ensures { IfOk result (λ v. v.items ≡ edits_of (function_of rules.now)) }
{
    let head = rules.head();
    let mut out = Vec::new(alloc);
    push_all_blocks(alloc, rules, &mut out)?;
    push_assumptions(&head, &mut out)?;
    Ok(out)
}
