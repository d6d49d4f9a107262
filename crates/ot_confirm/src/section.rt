//! What a proof has for the obligations of a function.
ghost use Rattle.std.specs.Prelude.{◌≡◌, ◌≤◌, true, length, drop, IsTrue};
ghost use Rattle.std.specs.List.{list_all};
ghost use Rattle.fn_rules.specs.Obligations.{is_obligation};
ghost use Rattle.fn_rules.specs.Rules.{function_of};
ghost use Rattle.start_laws.specs.Starts.{compare_starts};
ghost use Rattle.start_laws.specs.Marking.{marked_plan};
ghost use Rattle.proof_sections.specs.Judgement.{Judges, opened_tree, section_judged, sections_judged, tree_judged};

use bumpalo::Bump;
use fn_rules::{ObName, Rules};
use ot_starts::StartAsker;
use proof_sections::{ConfirmError, judge_line_end, judge_ob, judge_tree};
use std::alloc::Global;

/// How many bytes an arena begins with. Pages of it that nobody writes to take no memory.
const ARENA: usize = 2_097_152;

// Judges the tree of an obligation, whose goals stand in the arena.
fn judge_in<'a>(
    alloc: Global,
    bump: &'a Bump,
    rules: &'a Rules,
    name: ObName,
    bytes: &[u8],
    at: usize,
) -> Result<usize, ConfirmError>
    requires listed { IsTrue (is_obligation (function_of rules.now).head name) }
    requires place { at ≤ length bytes.now }
    ensures { Judges bytes.now (tree_judged compare_starts (length bytes.now)
        (opened_tree (marked_plan (function_of rules.now) name)) (drop at bytes.now)) result }
{
    judge_tree(alloc, StartAsker::new(bump, rules, name), bytes, at)
}

// Judges what a proof has for one obligation: its line, its tree and the newline after it. What the arena has is given
// up before, so that all obligations share its pages.
fn judge_section(
    alloc: Global,
    bump: &mut Bump,
    rules: &Rules,
    name: ObName,
    bytes: &[u8],
    at: usize,
) -> Result<usize, ConfirmError>
    requires listed { IsTrue (is_obligation (function_of rules.now).head name) }
    requires place { at ≤ length bytes.now }
    ensures { Judges bytes.now (section_judged compare_starts (marked_plan (function_of rules.now) name) name
        (length bytes.now) (drop at bytes.now)) result }
{
    let start = match judge_ob(alloc, bytes, at, name) {
        Ok(start) => start,
        Err(end) => return Err(end),
    };
    if bump.reset().is_err() {
        *bump = Bump::new(alloc);
    }
    match judge_in(alloc, bump, rules, name, bytes, start) {
        Ok(behind) => judge_line_end(bytes, behind),
        Err(end) => Err(end),
    }
}

/// An arena for the goals of one obligation after another.
pub(crate) fn arena(alloc: Global) -> Bump {
    match Bump::try_with_capacity(alloc, ARENA) {
        Ok(bump) => bump,
        Err(_) => Bump::new(alloc),
    }
}

/// Judges what it has for obligations, in order, whose goals stand in the arena one after another.
pub(crate) fn judge_sections(
    alloc: Global,
    bump: &mut Bump,
    rules: &Rules,
    names: &[ObName],
    bytes: &[u8],
    at: usize,
) -> Result<usize, ConfirmError>
    requires listed { list_all (is_obligation (function_of rules.now).head) names.now ≡ true }
    requires place { at ≤ length bytes.now }
    ensures { Judges bytes.now (sections_judged compare_starts (marked_plan (function_of rules.now)) names.now
        (length bytes.now) (drop at bytes.now)) result }
{
    let Some((name, others)) = names.split_first() else {
        return Ok(at);
    };
    match judge_section(alloc, bump, rules, *name, bytes, at) {
        Ok(next) => judge_sections(alloc, bump, rules, others, bytes, next),
        Err(end) => Err(end),
    }
}
