//! The lemmas that are being shown, one within another.
ghost use Rattle.std.specs.Prelude.{◌<◌, length};
ghost use Rattle.proof_search.specs.Owning.{KeepsNodes};

use crate::{Distances, LemmaLevel, NoMemory};
use diff_graph::Lit;

/// Makes a literal on the same names as strong as the given one, if there is one.
fn strengthen(literals: &mut [Lit], lit: Lit) -> bool {
    for held in literals.iter_mut() {
        if held.x == lit.x && held.y == lit.y {
            held.k = held.k.min(lit.k);
            return true;
        }
    }
    false
}

/// Assumes one more literal. Of two on the same names the stronger one stays.
fn assume(literals: &mut Vec<Lit>, lit: Lit) -> Result<(), NoMemory> {
    if strengthen(literals, lit) {
        return Ok(());
    }
    literals.push(lit)?;
    Ok(())
}

/// Assumes one more literal at a level.
pub(crate) fn assume_at<N: Copy>(
    levels: &mut [LemmaLevel<N>],
    number: usize,
    lit: Lit,
) -> Result<(), NoMemory>
    requires { number < length levels.old }
    ensures { KeepsNodes (λ l. l.node) levels.old levels.new }
{
    assume(&mut levels[number].literals, lit)
}

/// Adds what the next level around one assumes by now to what followed where it was begun. False where no integers lead
/// there any more.
fn add_assumed_around<N: Copy>(levels: &mut [LemmaLevel<N>], number: usize) -> bool
    requires { number < length levels.old }
    ensures { KeepsNodes (λ l. l.node) levels.old levels.new }
{
    let mut outer = levels[number].outer;
    let excluded = outer.add_up_to_excluded(assumed(&levels[..number]));
    levels[number].outer = outer;
    excluded.is_none()
}

/// Whether some integers still lead to a level, once those from one on that stand around it have assumed more.
pub(crate) fn is_still_reached<N: Copy>(
    levels: &mut [LemmaLevel<N>],
    first: usize,
    number: usize,
) -> bool
    requires { number < length levels.old }
    ensures { KeepsNodes (λ l. l.node) levels.old levels.new }
{
    number <= first || add_assumed_around(levels, number)
}

/// Adds what is known around a level to what followed within it, up to a literal that no integers meet with this, which
/// is the answer.
pub(crate) fn add_around<N: Copy>(
    inner: &mut Distances,
    levels: &[LemmaLevel<N>],
    number: usize,
    answers: &[Lit],
) -> Option<Lit>
    requires { number < length levels.now }
{
    let around = &levels[..number];
    let known = part(answers, answers_before(around), levels[number].answers);
    match inner.add_up_to_excluded(assumed(around)) {
        Some(lit) => Some(lit),
        None => inner.add_up_to_excluded(known),
    }
}

/// What the innermost level assumes. Outside of all levels it is nothing.
pub(crate) fn assumed<N: Copy>(levels: &[LemmaLevel<N>]) -> &[Lit] {
    match levels.last() {
        None => &[],
        Some(level) => level.literals.as_slice(),
    }
}

/// How many answers were given when the innermost level was begun.
pub(crate) fn answers_before<N: Copy>(levels: &[LemmaLevel<N>]) -> usize {
    match levels.last() {
        None => 0,
        Some(level) => level.answers,
    }
}

/// How many parts waited when the innermost level was begun.
pub(crate) fn waiting_before<N: Copy>(levels: &[LemmaLevel<N>]) -> usize {
    match levels.last() {
        None => 0,
        Some(level) => level.waiting,
    }
}

/// The answers from one place to another, or none where these are not among them.
pub(crate) fn part(answers: &[Lit], from: usize, to: usize) -> &[Lit] {
    match answers.get(from..to) {
        None => &[],
        Some(answers) => answers,
    }
}
