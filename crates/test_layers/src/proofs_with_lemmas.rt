//! Words over a plan without starts: `?` and `.` as they are, `x` for the cycle of answers 0 and 1, and `l` for a lemma
//! under no literals. Words of obligations, which have starts, are rows of `checks/tables/confirm.rows`.
ghost use Rattle.std.specs.Prelude.{◌≡◌};

use crate::two_names::TwoNames;
use ask_core::{NoMemory, Picks};
use cert_check::Progress;
use proof_check::{ProofChecker, ProofError};
use proof_trees::{Literals, ProofTok, Startless};
use std::alloc::Global;

fn token_of(alloc: Global, mark: u8) -> ProofTok {
    match mark {
        b'?' => ProofTok::Ask,
        b'.' => ProofTok::Holds,
        b'l' => ProofTok::Lemma(Literals::new()),
        _ => {
            let mut picks = Picks::new(alloc);
            picks.push(0);
            picks.push(1);
            ProofTok::Cycle(picks)
        }
    }
}

/// The answer to the last token of a word, or Done where that comes before.
fn last_answer(alloc: Global, word: &str) -> Result<Result<Progress, ProofError>, NoMemory> {
    let mut judge = ProofChecker::new(alloc, Startless::new(TwoNames { strict: true }))?;
    let mut last = Ok(Progress::More);
    for mark in word.as_bytes() {
        last = judge.judge(&token_of(alloc, *mark));
        if let Ok(Progress::Done) = last {
            return Ok(last);
        }
    }
    Ok(last)
}

#[test]
fn a_tree_of_a_certificate_is_a_proof(rt: HostRuntime) {
    assert!(rt; last_answer(rt.alloc(), "??x..") == Ok(Ok(Progress::Done)));
}

#[test]
fn no_lemma_begins_where_no_start_is(rt: HostRuntime) {
    assert!(rt; last_answer(rt.alloc(), "l") == Ok(Err(ProofError::NoStart)));
}
