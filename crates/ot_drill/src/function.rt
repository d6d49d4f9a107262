//! The function of a workload.
ghost use Rattle.std.specs.Prelude.{◌≡◌, ◌≤◌, ◌++◌, ◌∷◌, [], pos, IfOk, OnOk, map};
ghost use Rattle.fn_rules.specs.declared.guard.Cmp.TheVariants.{Eq};
ghost use Rattle.fn_rules.specs.declared.guard.Side.TheVariants as sides;
ghost use Rattle.fn_rules.specs.Building.{block_of};
ghost use Rattle.fn_rules.specs.Formulas.{formula_of, And, Compare};
ghost use Rattle.fn_rules.specs.Functions.{case_of};
ghost use Rattle.fn_rules.specs.Rules.{function_of};
ghost use Rattle.fn_rules.specs.Shipped.{block as pair_cases, by_sites, moved_up, p1_plus, p1_to_p2, s1_lt_s2};
ghost use Rattle.fn_rules.specs.Shipped.{smaller_stays, stays, when};
ghost use Rattle.ot_drill.specs.Workload.{drill_blocks, drill_function, further_cases};

use crate::limits::MOST_ROUNDS;
use fn_rules::{Atom, Block, Case, Cmp, Guard, Head, Res, Rules, Side, Sort};
use ot_model::{Kind, Mode, NoMemory};
use std::alloc::Global;

// Whether the thing of the first operation is so to that of the second plus `k`.
fn compared(sort: Sort, cmp: Cmp, k: i32) -> Guard
    ensures { formula_of result ≡ Compare (record { sort = sort; left = sides.First; cmp = cmp; k = k }) }
{
    Guard::Atom(Atom {
        sort,
        left: Side::First,
        cmp,
        k,
    })
}

// The first operation is moved by `k` where the guard holds.
fn case(guard: Guard, k: i32) -> Case
    ensures { case_of result ≡ when (formula_of guard) (p1_plus k) }
{
    Case {
        guard,
        res: Res::Keep {
            base: Side::First,
            k,
        },
    }
}

// One case more.
fn push_case(cases: &mut Vec<Case>, guard: Guard, k: i32) -> Result<(), NoMemory>
    ensures { OnOk result (map case_of cases.new.items
        ≡ map case_of cases.old.items ++ when (formula_of guard) (p1_plus k) ∷ []) }
{
    cases.push(case(guard, k))?;
    Ok(())
}

fn block(first: Kind, second: Kind, cases: Vec<Case>) -> Block
    ensures { block_of result ≡ pair_cases first second (map case_of cases.items) }
{
    Block {
        first,
        second,
        cases,
    }
}

// The cases that no two insertions need.
fn further_cases(alloc: Global, count: u32) -> Result<Vec<Case>, NoMemory>
    requires { count ≤ MOST_ROUNDS }
    ensures { IfOk result (λ cases. map case_of cases.items ≡ further_cases count) }
{
    let mut cases = Vec::new(alloc);
    let mut cells = count;
    while cells > 0 {
        push_case(&mut cases, compared(Sort::Pos, Cmp::Lt, -(cells as i32)), 0)?;
        cells -= 1;
    }
    Ok(cases)
}

// The positions are the same, and the first site is smaller.
fn smaller_site(alloc: Global) -> Result<Guard, NoMemory>
    ensures { IfOk result (λ guard. formula_of guard ≡ And (p1_to_p2 Eq (pos 0)) s1_lt_s2) }
{
    let same_place = Box::new(alloc, compared(Sort::Pos, Cmp::Eq, 0))?;
    let smaller_site = Box::new(alloc, compared(Sort::Site, Cmp::Lt, 0))?;
    Ok(Guard::And(same_place, smaller_site))
}

// Two insertions: the smaller position, and at one position the smaller site, stays.
fn insertions(alloc: Global, further: u32) -> Result<Vec<Case>, NoMemory>
    requires { further ≤ MOST_ROUNDS }
    ensures { IfOk result (λ cases. map case_of cases.items ≡ further_cases further ++ smaller_stays) }
{
    let mut cases = further_cases(alloc, further)?;
    push_case(&mut cases, compared(Sort::Pos, Cmp::Lt, 0), 0)?;
    push_case(&mut cases, smaller_site(alloc)?, 0)?;
    push_case(&mut cases, Guard::True, 1)?;
    Ok(cases)
}

// Nothing moves.
fn stays(alloc: Global) -> Result<Vec<Case>, NoMemory>
    ensures { IfOk result (λ cases. map case_of cases.items ≡ stays) }
{
    let mut cases = Vec::new(alloc);
    push_case(&mut cases, Guard::True, 0)?;
    Ok(cases)
}

// A deletion behind an insertion.
fn moved_up(alloc: Global) -> Result<Vec<Case>, NoMemory>
    ensures { IfOk result (λ cases. map case_of cases.items ≡ moved_up) }
{
    let mut cases = Vec::new(alloc);
    push_case(&mut cases, compared(Sort::Pos, Cmp::Lt, 0), 0)?;
    push_case(&mut cases, Guard::True, 1)?;
    Ok(cases)
}

// One block more.
fn push_block(
    blocks: &mut Vec<Block>,
    first: Kind,
    second: Kind,
    cases: Vec<Case>,
) -> Result<(), NoMemory>
    ensures { OnOk result (map block_of blocks.new.items
        ≡ map block_of blocks.old.items ++ pair_cases first second (map case_of cases.items) ∷ []) }
{
    blocks.push(block(first, second, cases))?;
    Ok(())
}

fn blocks(alloc: Global, further: u32) -> Result<Vec<Block>, NoMemory>
    requires { further ≤ MOST_ROUNDS }
    ensures { IfOk result (λ blocks. map block_of blocks.items ≡ drill_blocks further) }
{
    let mut blocks = Vec::new(alloc);
    push_block(
        &mut blocks,
        Kind::Ins,
        Kind::Ins,
        insertions(alloc, further)?,
    )?;
    push_block(&mut blocks, Kind::Ins, Kind::Del, stays(alloc)?)?;
    push_block(&mut blocks, Kind::Del, Kind::Ins, moved_up(alloc)?)?;
    push_block(&mut blocks, Kind::Del, Kind::Del, stays(alloc)?)?;
    Ok(blocks)
}

// For insertions and deletions that leave tombstones, of different sites.
fn head() -> Head
    ensures { result ≡ by_sites Mode.Tomb }
{
    Head {
        mode: Mode::Tomb,
        ins: true,
        del: true,
        upd: false,
        sites_differ: true,
        chars_differ: false,
    }
}

/// The function of the workload with this number: insertions and deletions on text with tombstones, with so many cases
/// more than it needs.
pub fn rules(alloc: Global, n: u32) -> Result<Rules, NoMemory>
    requires { n ≤ MOST_ROUNDS }
    ensures { IfOk result (λ rules. function_of rules ≡ drill_function n) }
{
    let blocks = blocks(alloc, n)?;
    Ok(Rules::build(head(), blocks))
}
