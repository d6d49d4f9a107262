//! The template of a head.
ghost use Rattle.std.specs.Prelude.{◌≡◌, ◌++◌, ◌∷◌, [], pos, true, IfOk, OnOk, map};
ghost use Rattle.fn_rules.specs.declared.guard.Cmp.TheVariants.{Lt, Eq};
ghost use Rattle.std.specs.List.{flat_map};
ghost use Rattle.ot_model.specs.Kinds.{kind_pairs};
ghost use Rattle.fn_rules.specs.Building.{block_of};
ghost use Rattle.fn_rules.specs.Formulas.{formula_of, And, Or, Compare};
ghost use Rattle.fn_rules.specs.Functions.{case_of};
ghost use Rattle.fn_rules.specs.Rules.{function_of};
ghost use Rattle.fn_rules.specs.Shipped.{moved_down, moved_down_or_gone, moved_up, p1_plus, stays, when};
ghost use Rattle.ot_heads.specs.Templates.{behind_deletion, declared_block, has_kind, is_lower, lower_stays};
ghost use Rattle.ot_heads.specs.Templates.{lower_updates, template_blocks, template_cases, template_of, tie_sort};

use fn_rules::{Atom, Block, Case, Cmp, Guard, Head, Res, Rules, Side, Sort};
use ot_model::{Kind, Mode, NoMemory};
use std::alloc::Global;

// Whether the thing of an operation is so to that of the other one.
fn compared(sort: Sort, left: Side, cmp: Cmp) -> Guard
    ensures { formula_of result ≡ Compare (record { sort = sort; left = left; cmp = cmp; k = pos 0 }) }
{
    Guard::Atom(Atom {
        sort,
        left,
        cmp,
        k: 0,
    })
}

fn both(alloc: Global, first: Guard, second: Guard) -> Result<Guard, NoMemory>
    ensures { IfOk result (λ guard. formula_of guard ≡ And (formula_of first) (formula_of second)) }
{
    Ok(Guard::And(Box::new(alloc, first)?, Box::new(alloc, second)?))
}

fn either(alloc: Global, first: Guard, second: Guard) -> Result<Guard, NoMemory>
    ensures { IfOk result (λ guard. formula_of guard ≡ Or (formula_of first) (formula_of second)) }
{
    Ok(Guard::Or(Box::new(alloc, first)?, Box::new(alloc, second)?))
}

// What a tie goes by.
fn tie_sort(by_site: bool) -> Sort
    ensures { result ≡ tie_sort by_site }
{
    if by_site { Sort::Site } else { Sort::Char }
}

fn is_lower(by_site: bool) -> Guard
    ensures { formula_of result ≡ is_lower by_site }
{
    compared(tie_sort(by_site), Side::First, Cmp::Le)
}

// The first position is so to the second.
fn first_is(cmp: Cmp) -> Guard
    ensures { formula_of result ≡ Compare (record { sort = Sort.Pos; left = Side.First; cmp = cmp; k = pos 0 }) }
{
    compared(Sort::Pos, Side::First, cmp)
}

// The second position is before the first.
fn second_is_before() -> Guard
    ensures { formula_of result ≡ Compare (record { sort = Sort.Pos; left = Side.Second; cmp = Lt; k = pos 0 }) }
{
    compared(Sort::Pos, Side::Second, Cmp::Lt)
}

// The first operation is moved by `k`.
fn moved(k: i32) -> Res
    ensures { result ≡ p1_plus k }
{
    Res::Keep {
        base: Side::First,
        k,
    }
}

// One case more.
fn push_case(cases: &mut Vec<Case>, guard: Guard, res: Res) -> Result<(), NoMemory>
    ensures { OnOk result (map case_of cases.new.items
        ≡ map case_of cases.old.items ++ when (formula_of guard) res ∷ []) }
{
    cases.push(Case { guard, res })?;
    Ok(())
}

// Two insertions.
fn insertions(alloc: Global, by_site: bool) -> Result<Vec<Case>, NoMemory>
    ensures { IfOk result (λ cases. map case_of cases.items ≡ lower_stays by_site) }
{
    let tie = both(alloc, first_is(Cmp::Eq), is_lower(by_site))?;
    let mut cases = Vec::new(alloc);
    push_case(&mut cases, either(alloc, first_is(Cmp::Lt), tie)?, moved(0))?;
    push_case(&mut cases, Guard::True, moved(1))?;
    Ok(cases)
}

// Two updates.
fn updates(alloc: Global, by_site: bool) -> Result<Vec<Case>, NoMemory>
    ensures { IfOk result (λ cases. map case_of cases.items ≡ lower_updates by_site) }
{
    let apart = either(alloc, first_is(Cmp::Lt), second_is_before())?;
    let mut cases = Vec::new(alloc);
    push_case(
        &mut cases,
        either(alloc, apart, is_lower(by_site))?,
        moved(0),
    )?;
    push_case(&mut cases, Guard::True, Res::Nop)?;
    Ok(cases)
}

// Nothing moves.
fn stays(alloc: Global) -> Result<Vec<Case>, NoMemory>
    ensures { IfOk result (λ cases. map case_of cases.items ≡ stays) }
{
    let mut cases = Vec::new(alloc);
    push_case(&mut cases, Guard::True, moved(0))?;
    Ok(cases)
}

// An operation on a cell behind an insertion.
fn moved_up(alloc: Global) -> Result<Vec<Case>, NoMemory>
    ensures { IfOk result (λ cases. map case_of cases.items ≡ moved_up) }
{
    let mut cases = Vec::new(alloc);
    push_case(&mut cases, first_is(Cmp::Lt), moved(0))?;
    push_case(&mut cases, Guard::True, moved(1))?;
    Ok(cases)
}

// An insertion behind a deletion.
fn insertion_behind(alloc: Global, mode: Mode) -> Result<Vec<Case>, NoMemory>
    ensures { IfOk result (λ cases. map case_of cases.items ≡ behind_deletion mode moved_down) }
{
    match mode {
        Mode::Plain => {
            let mut cases = Vec::new(alloc);
            push_case(&mut cases, first_is(Cmp::Le), moved(0))?;
            push_case(&mut cases, Guard::True, moved(-1))?;
            Ok(cases)
        }
        Mode::Tomb => stays(alloc),
    }
}

// An operation on a cell behind a deletion.
fn cell_behind(alloc: Global, mode: Mode) -> Result<Vec<Case>, NoMemory>
    ensures { IfOk result (λ cases. map case_of cases.items ≡ behind_deletion mode moved_down_or_gone) }
{
    match mode {
        Mode::Plain => {
            let mut cases = Vec::new(alloc);
            push_case(&mut cases, first_is(Cmp::Lt), moved(0))?;
            push_case(&mut cases, second_is_before(), moved(-1))?;
            push_case(&mut cases, Guard::True, Res::Nop)?;
            Ok(cases)
        }
        Mode::Tomb => stays(alloc),
    }
}

// The cases of a pair of kinds.
fn cases(alloc: Global, head: &Head, first: Kind, second: Kind) -> Result<Vec<Case>, NoMemory>
    ensures { IfOk result (λ cases. map case_of cases.items ≡ template_cases head.now first second) }
{
    match (first, second) {
        (Kind::Ins, Kind::Ins) => insertions(alloc, head.sites_differ),
        (Kind::Ins, Kind::Del) => insertion_behind(alloc, head.mode),
        (Kind::Ins, Kind::Upd) => stays(alloc),
        (Kind::Del, Kind::Ins) => moved_up(alloc),
        (Kind::Del, Kind::Del) => cell_behind(alloc, head.mode),
        (Kind::Del, Kind::Upd) => stays(alloc),
        (Kind::Upd, Kind::Ins) => moved_up(alloc),
        (Kind::Upd, Kind::Del) => cell_behind(alloc, head.mode),
        (Kind::Upd, Kind::Upd) => updates(alloc, head.sites_differ),
    }
}

// The block of a pair of kinds, where the head declares it.
fn push_declared(
    alloc: Global,
    head: &Head,
    blocks: &mut Vec<Block>,
    first: Kind,
    second: Kind,
) -> Result<(), NoMemory>
    ensures { OnOk result (map block_of blocks.new.items
        ≡ map block_of blocks.old.items ++ declared_block head.now (first, second)) }
{
    if head.declares_pair(first, second) {
        let cases = cases(alloc, head, first, second)?;
        blocks.push(Block {
            first,
            second,
            cases,
        })?;
    }
    Ok(())
}

// The blocks of a first kind.
fn push_first(
    alloc: Global,
    head: &Head,
    blocks: &mut Vec<Block>,
    first: Kind,
) -> Result<(), NoMemory>
    ensures { OnOk result (map block_of blocks.new.items ≡ map block_of blocks.old.items
        ++ flat_map (declared_block head.now) ((first, Kind.Ins) ∷ (first, Kind.Del) ∷ (first, Kind.Upd) ∷ [])) }
{
    push_declared(alloc, head, blocks, first, Kind::Ins)?;
    push_declared(alloc, head, blocks, first, Kind::Del)?;
    push_declared(alloc, head, blocks, first, Kind::Upd)?;
    Ok(())
}

fn blocks(alloc: Global, head: &Head) -> Result<Vec<Block>, NoMemory>
    ensures { IfOk result (λ blocks. map block_of blocks.items ≡ template_blocks head.now) }
{
    let mut blocks = Vec::new(alloc);
    push_first(alloc, head, &mut blocks, Kind::Ins)?;
    push_first(alloc, head, &mut blocks, Kind::Del)?;
    push_first(alloc, head, &mut blocks, Kind::Upd)?;
    Ok(blocks)
}

/// The template of a head that declares some kind.
pub fn template(alloc: Global, head: Head) -> Result<Rules, NoMemory>
    requires { has_kind head ≡ true }
    ensures { IfOk result (λ rules. function_of rules ≡ template_of head) }
{
    let blocks = blocks(alloc, &head)?;
    Ok(Rules::build(head, blocks))
}
