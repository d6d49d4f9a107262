//! What the search of a plan over two names comes to.
ghost use Rattle.std.specs.Prelude.{◌≤◌};
ghost use Rattle.ask_core.specs.declared.asker.TheConstants.{MAX_NAMES};

use crate::two_names::TwoNames;
use ask_core::{Asker, NoMemory, Premised};
use diff_graph::Lit;
use ot_prove::{Answer, Outcome, prove};
use std::alloc::Global;

// Whether the marks of a tree are these: `?`, `.` and `x`, without the numbers of cycles.
fn has_marks(tree: &[u8], marks: &str) -> bool {
    let mut left = marks.as_bytes();
    for byte in tree {
        if matches!(*byte, b'?' | b'.' | b'x') {
            match left {
                [mark, others @ ..] if mark == byte => left = others,
                _ => return false,
            }
        }
    }
    left.is_empty()
}

/// Whether the plan holds by so many questions, and its tree has these marks.
fn holds_by<A: Asker>(
    alloc: Global,
    asker: &mut A,
    questions: u64,
    marks: &str,
) -> Result<bool, NoMemory>
    requires { A.name_count asker.old ≤ MAX_NAMES }
{
    match prove(alloc, asker, questions)? {
        Outcome::Yes { tree, asked } => Ok(asked == questions && has_marks(tree.as_bytes(), marks)),
        _ => Ok(false),
    }
}

#[test]
fn two_questions_are_enough(rt: HostRuntime) {
    let mut asker = TwoNames { strict: true };
    assert!(rt; holds_by(rt.alloc(), &mut asker, 2, "??x..") == Ok(true));
}

#[test]
fn one_question_is_not(rt: HostRuntime) {
    let outcome = prove(rt.alloc(), &mut TwoNames { strict: true }, 1);
    assert!(rt; matches!(outcome, Ok(Outcome::Spent)));
}

/// The answers yes to both questions of the plan that is not strict, which lead to an end that fails.
const YES_AND_YES: [Answer; 2] = [
    Answer {
        lit: Lit { x: 0, y: 1, k: 0 },
        yes: true,
    },
    Answer {
        lit: Lit { x: 1, y: 0, k: 0 },
        yes: true,
    },
];

fn fails_behind_both(alloc: Global) -> Result<bool, NoMemory> {
    match prove(alloc, &mut TwoNames { strict: false }, 2)? {
        Outcome::No { answers, why } => Ok(
            why == 7 && answers.as_slice() == YES_AND_YES.as_slice(),
        ),
        _ => Ok(false),
    }
}

#[test]
fn a_failing_end_has_its_answers(rt: HostRuntime) {
    assert!(rt; fails_behind_both(rt.alloc()) == Ok(true));
}

#[test]
fn a_premise_leaves_out_the_failing_end(rt: HostRuntime) {
    // Name 0 is below name 1, so name 1 is not at most name 0.
    let premise = Lit { x: 0, y: 1, k: -1 };
    let mut asker = Premised::new(premise, TwoNames { strict: false });
    assert!(rt; holds_by(rt.alloc(), &mut asker, 3, "???x.x.") == Ok(true));
}
