//! A start in memory.
ghost use Rattle.std.specs.Prelude.{◌≡◌};
ghost use Rattle.start_laws.specs.Begun.{IsBegunProgress, start_after};

use ot_terms::{GoalProgress, SymOp};
use std::marker::Model;

/// A start: how far the transformations of an obligation have come, and the result that was delivered after that, if
/// one was.
#[derive(Clone, Copy)]
pub struct StartAt<'a> {
    pub progress: &'a GoalProgress,

    /// The result that comes after those of `progress`; none where the first transformation begins.
    pub last: Option<SymOp>,
}

/// The results before a start. They stand in place, so that no call takes memory.
#[derive(Drop)]
pub struct Results {
    got: [SymOp; 6],
    count: usize,
}

impl Model for Results {
    ghost use Rattle.std.specs.Prelude.{◌≤◌, List, take};
    ghost use Rattle.ot_questions.specs.declared.place.SymOp.{SymOp};

    ghost Value = { List SymOp };

    ghost view = { λ r. take r.count r.got };

    ghost invariant = { λ r. r.count ≤ 6 };
}

impl StartAt<'_> {
    /// The results before the start, with the one that was delivered.
    pub fn results(&self) -> Results
        requires { IsBegunProgress self.now.progress.now self.now.last }
        ensures { result ≡ (start_after self.now.progress.now self.now.last).got }
    {
        let mut got = self.progress.got;
        let count = self.progress.count as usize;
        if let Some(last) = self.last {
            got[count] = last;
            return Results {
                got,
                count: count + 1,
            };
        }
        Results { got, count }
    }
}

impl Results {
    /// The results, in their order.
    pub fn as_slice(&self) -> &[SymOp]
        ensures { result.now ≡ self.now }
    {
        &self.got[..self.count]
    }
}
