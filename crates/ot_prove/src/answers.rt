//! The answers on the way to a place.
ghost use Rattle.std.specs.Prelude.{◌≡◌, IfOk, if◌then◌else◌};
ghost use Rattle.ask_core.specs.Plans.{Plan};
ghost use Rattle.ot_prove.specs.Outcomes.{answered_by, AreAnswersTo};
ghost use Rattle.ot_prove.specs.Searching.{IsAsBefore, LeadsTo};

use crate::NoMemory;
use crate::outcome::Answer;
use ask_core::{Asker, Turn};
use diff_graph::{Lit, answered};
use std::alloc::Global;

/// The side of a question that an answer leads to.
fn side_of<N: Copy>(said: bool, yes: N, no: N) -> N
    ensures { result ≡ (if said then yes else no) }
{
    if said { yes } else { no }
}

/// The answers that these literals stand for, which lead from the asker's own plan to some place. The
/// asker is walked along them once more, since a path keeps literals alone.
pub fn answers_along<A: Asker>(
    alloc: Global,
    asker: &mut A,
    literals: &[Lit],
) -> Result<Vec<Answer>, NoMemory>
    requires { (end : Plan A.Why) × LeadsTo (A.root asker.old) literals.now end }
    ensures literals { IfOk result (λ answers. answered_by answers.items ≡ literals.now) }
    ensures way { IfOk result (λ answers. (end : Plan A.Why) → LeadsTo (A.root asker.old) literals.now end
        → AreAnswersTo (A.root asker.old) answers.items end) }
    ensures kept { IsAsBefore (A.is_own asker.old) (A.is_own asker.new) (A.plan asker.old) (A.plan asker.new)
        (A.root asker.old) (A.root asker.new) (A.name_count asker.old) (A.name_count asker.new) }
{
    let mut answers = Vec::new(alloc);
    let mut node = asker.start()?;
    for literal in literals {
        match asker.turn(node)? {
            Turn::Ask { lit, yes, no } => {
                // The literal of a no begins with the other name.
                let said = literal.x == lit.x;
                answers.push(Answer { lit, yes: said })?;
                node = side_of(said, yes, no);
            }
            Turn::Holds | Turn::Fails(_) => return Ok(answers),
        }
    }
    Ok(answers)
}

/// The literals that answers stand for. The error is want of memory.
pub fn literals_of(alloc: Global, answers: &[Answer]) -> Result<Vec<Lit>, NoMemory>
    ensures { IfOk result (λ literals. literals.items ≡ answered_by answers.now) }
{
    let mut literals = Vec::new(alloc);
    for answer in answers {
        literals.push(answered(answer.lit, answer.yes))?;
    }
    Ok(literals)
}
