//! Functions that are within the limits.
ghost use Rattle.std.specs.Prelude.{◌≡◌, IsTrue, IfOk, map, count_by, length};
ghost use Rattle.fn_rules.specs.Formulas.{formula_of};
ghost use Rattle.std.specs.List.{list_all, list_any};
ghost use Rattle.ot_model.specs.Kinds.{each_pair};
ghost use Rattle.fn_rules.specs.Functions.{case_of, cases_of, is_declared, is_declared_pair};
ghost use Rattle.fn_rules.specs.Validity.{are_valid_cases, compares_chars, is_valid, is_valid_block};
ghost use Rattle.fn_rules.specs.Building.{block_of, is_for, cases_in, function_from, has_own_block, has_own_blocks};
ghost use Rattle.fn_rules.specs.Building.{is_buildable};

use crate::NoMemory;
use crate::function::{Block, Case, Head};
use crate::guard::Guard;
use crate::limits::cases_fit;
use ot_model::{KINDS, Kind};
use std::alloc::Global;

/// A function that keeps all limits: what is transformed by it can rely on them.
#[derive(Drop)]
pub struct Rules {
    head: Head,
    blocks: Vec<Block>,
    ghost within_limits: { IsTrue (is_buildable head (map block_of blocks.items)) },
}

fn copy_guard(alloc: Global, guard: &Guard) -> Result<Guard, NoMemory>
    ensures { IfOk result (λ copy. formula_of copy ≡ formula_of guard.now) }
{
    match guard {
        Guard::True => Ok(Guard::True),
        Guard::Atom(atom) => Ok(Guard::Atom(*atom)),
        Guard::And(g, h) => {
            let left = Box::new(alloc, copy_guard(alloc, g)?)?;
            let right = Box::new(alloc, copy_guard(alloc, h)?)?;
            Ok(Guard::And(left, right))
        }
        Guard::Or(g, h) => {
            let left = Box::new(alloc, copy_guard(alloc, g)?)?;
            let right = Box::new(alloc, copy_guard(alloc, h)?)?;
            Ok(Guard::Or(left, right))
        }
        Guard::Not(g) => Ok(Guard::Not(Box::new(alloc, copy_guard(alloc, g)?)?)),
    }
}

fn copy_case(alloc: Global, case: &Case) -> Result<Case, NoMemory>
    ensures { IfOk result (λ copy. case_of copy ≡ case_of case.now) }
{
    Ok(Case {
        guard: copy_guard(alloc, &case.guard)?,
        res: case.res,
    })
}

fn copy_cases(alloc: Global, cases: &[Case]) -> Result<Vec<Case>, NoMemory>
    ensures { IfOk result (λ copy. map case_of copy.items ≡ map case_of cases.now) }
{
    let mut copy = Vec::new(alloc);
    for case in cases {
        copy.push(copy_case(alloc, case)?)?;
    }
    Ok(copy)
}

fn copy_block(alloc: Global, block: &Block) -> Result<Block, NoMemory>
    ensures { IfOk result (λ copy. block_of copy ≡ block_of block.now) }
{
    Ok(Block {
        first: block.first,
        second: block.second,
        cases: copy_cases(alloc, &block.cases)?,
    })
}

fn copy_blocks(alloc: Global, blocks: &[Block]) -> Result<Vec<Block>, NoMemory>
    ensures { IfOk result (λ copy. map block_of copy.items ≡ map block_of blocks.now) }
{
    let mut copy = Vec::new(alloc);
    for block in blocks {
        copy.push(copy_block(alloc, block)?)?;
    }
    Ok(copy)
}

// Whether the block is for this pair of kinds.
fn covers(first: Kind, second: Kind, block: &Block) -> bool
    ensures { result ≡ is_for first second (block_of block.now) }
{
    block.first.same(first) && block.second.same(second)
}

// The cases of the first block for a pair of kinds, none where there is no such block.
fn find_cases(blocks: &[Block], first: Kind, second: Kind) -> &[Case]
    ensures { map case_of result.now ≡ cases_in (map block_of blocks.now) first second }
{
    for block in blocks {
        if covers(first, second, block) {
            return &block.cases;
        }
    }
    &[]
}

fn count_blocks(blocks: &[Block], first: Kind, second: Kind) -> usize
    ensures { result ≡ count_by (is_for first second) (map block_of blocks.now) }
{
    blocks
        .iter()
        .filter(|block| covers(first, second, block))
        .count()
}

// Whether there is one block for the pair if it is declared, and otherwise none.
fn owns_block(head: &Head, blocks: &[Block], first: Kind, second: Kind) -> bool
    ensures { result ≡ has_own_block head.now (map block_of blocks.now) first second }
{
    let wanted = if head.declares_pair(first, second) {
        1
    } else {
        0
    };
    count_blocks(blocks, first, second) == wanted
}

fn own_blocks_with(head: &Head, blocks: &[Block], first: Kind) -> bool
    ensures { result ≡ list_all (has_own_block head.now (map block_of blocks.now) first) KINDS }
{
    KINDS
        .iter()
        .all(|second| owns_block(head, blocks, first, *second))
}

fn owns_blocks(head: &Head, blocks: &[Block]) -> bool
    ensures { result ≡ has_own_blocks head.now (map block_of blocks.now) }
{
    KINDS
        .iter()
        .all(|first| own_blocks_with(head, blocks, *first))
}

fn block_fits(head: &Head, blocks: &[Block], first: Kind, second: Kind) -> bool
    ensures { result ≡ is_valid_block (function_from head.now (map block_of blocks.now)) first second }
{
    let cases = find_cases(blocks, first, second);
    cases_fit(first.has_char() && second.has_char(), cases)
        && (head.declares_pair(first, second) || cases.len() == 0)
}

fn blocks_fit_with(head: &Head, blocks: &[Block], first: Kind) -> bool
    ensures { result ≡ list_all (is_valid_block (function_from head.now (map block_of blocks.now)) first) KINDS }
{
    KINDS
        .iter()
        .all(|second| block_fits(head, blocks, first, *second))
}

fn all_blocks_fit(head: &Head, blocks: &[Block]) -> bool
    ensures { result ≡ each_pair (is_valid_block (function_from head.now (map block_of blocks.now))) }
{
    KINDS
        .iter()
        .all(|first| blocks_fit_with(head, blocks, *first))
}

fn has_kinds(head: &Head) -> bool
    ensures { result ≡ list_any (is_declared head.now) KINDS }
{
    KINDS.iter().any(|kind| head.declares(*kind))
}

fn blocks_fit(head: &Head, blocks: &[Block]) -> bool
    ensures { result ≡ is_valid (function_from head.now (map block_of blocks.now)) }
{
    has_kinds(head) && all_blocks_fit(head, blocks)
}

/// Whether a head and blocks make a function within the limits: at least one kind, one block for each
/// ordered pair of the kinds and no other, and in each block no more cases, atoms, nesting and offsets
/// than are allowed.
pub fn is_within_limits(head: &Head, blocks: &[Block]) -> bool
    ensures { result ≡ is_buildable head.now (map block_of blocks.now) }
{
    owns_blocks(head, blocks) && blocks_fit(head, blocks)
}

impl Rules {
    ghost use Rattle.fn_rules.specs.Rules.{function_of};

    /// Takes a head and blocks that `is_within_limits` accepts.
    #[tactic(auto, unfolding(crate::specs::Rules::function_of))]
    pub fn build(head: Head, blocks: Vec<Block>) -> Rules
        requires { IsTrue (is_buildable head (map block_of blocks.items)) }
        ensures { function_of result ≡ function_from head (map block_of blocks.items) }
    {
        Rules { head, blocks }
    }

    /// The head.
    #[tactic(auto, unfolding(crate::specs::Rules::function_of))]
    pub fn head(&self) -> Head
        ensures head { result ≡ (function_of self.now).head }
        ensures valid { IsTrue (is_valid (function_of self.now)) }
    {
        self.head
    }

    /// The cases for an ordered pair of declared kinds, in their order.
    #[tactic(auto, unfolding(crate::specs::Rules::function_of))]
    pub fn cases(&self, first: Kind, second: Kind) -> &[Case]
        requires { IsTrue (is_declared_pair (function_of self.now).head first second) }
        ensures cases { map case_of result.now ≡ cases_of (function_of self.now) first second }
        ensures valid { IsTrue (are_valid_cases (compares_chars first second) (map case_of result.now)) }
    {
        find_cases(&self.blocks, first, second)
    }

    /// An equal function of its own memory.
    #[tactic(auto, unfolding(crate::specs::Rules::function_of))]
    pub fn try_clone(&self) -> Result<Rules, NoMemory>
        ensures { IfOk result (λ copy. function_of copy ≡ function_of self.now) }
    {
        let blocks = copy_blocks(*self.blocks.allocator(), &self.blocks)?;
        Ok(Rules {
            head: self.head,
            blocks,
        })
    }
}
