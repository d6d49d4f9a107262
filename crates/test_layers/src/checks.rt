//! Words over an asker with two names: `?` and `.` as they are, `x` for the cycle of answers 0 and 1.
ghost use Rattle.std.specs.Prelude.{◌≡◌};

use crate::two_names::TwoNames;
use ask_core::{NoMemory, Picks, Tok};
use cert_check::{CheckError, Checker, Progress};
use std::alloc::Global;

fn token_of(alloc: Global, mark: u8) -> Tok {
    match mark {
        b'?' => Tok::Ask,
        b'.' => Tok::Holds,
        _ => {
            let mut picks = Picks::new(alloc);
            picks.push(0);
            picks.push(1);
            Tok::Cycle(picks)
        }
    }
}

/// The answer to the last token of a word, or Done where that comes before.
fn last_answer(
    alloc: Global,
    strict: bool,
    word: &str,
) -> Result<Result<Progress, CheckError>, NoMemory> {
    let mut checker = Checker::new(alloc, TwoNames { strict })?;
    let mut last = Ok(Progress::More);
    for mark in word.as_bytes() {
        last = checker.feed(token_of(alloc, *mark));
        if let Ok(Progress::Done) = last {
            return Ok(last);
        }
    }
    Ok(last)
}

// Words, over an asker that is strict or not, and what is answered to their last token.
const WORDS: &[(bool, &str, Result<Progress, CheckError>)] = &[
    (true, "??x..", Ok(Progress::Done)),
    (true, "??.", Err(CheckError::GoalFails)),
    (true, ".", Err(CheckError::NotDone)),
    (true, "??x?", Err(CheckError::NotAQuestion)),
    (false, "??x", Err(CheckError::NotNegative)),
    (true, "??x.", Ok(Progress::More)),
];

#[test]
fn a_word_is_answered_as_it_fits_the_plan(rt: HostRuntime) {
    for (strict, word, want) in WORDS {
        assert!(rt; last_answer(rt.alloc(), *strict, word) == Ok(*want));
    }
}
