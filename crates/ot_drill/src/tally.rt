//! What is counted of a session.
ghost use Rattle.std.specs.Prelude.{◌≡◌, ◌<◌, ◌+◌, ◌^◌};
ghost use Rattle.ot_drill.specs.Playing.{nothing_done, tally_with_answer, with_made};

use ot_session::Took;

/// How many operations were made, and how many of those that were taken were not integrated at once.
#[derive(Clone, Copy, PartialEq, Eq)]
pub struct Tally {
    /// Operations that were made.
    pub made: usize,

    /// Operations that a site took while something before them was missing there.
    pub held: usize,

    /// Operations that a site took and had already.
    pub repeated: usize,
}

impl Tally {
    // Nothing was done.
    pub(crate) fn new() -> Tally
        ensures { result ≡ nothing_done }
    {
        Tally {
            made: 0,
            held: 0,
            repeated: 0,
        }
    }

    // One more operation was made.
    pub(crate) fn with_made(self) -> Tally
        requires { self.made + 1 < 2 ^ 64 }
        ensures { result ≡ with_made self }
    {
        Tally {
            made: self.made + 1,
            ..self
        }
    }

    // One was taken, and answered so.
    pub(crate) fn with_answer(self, answer: &Took) -> Tally
        requires held { self.held + 1 < 2 ^ 64 }
        requires repeated { self.repeated + 1 < 2 ^ 64 }
        ensures { result ≡ tally_with_answer self answer.now }
    {
        match answer {
            Took::Held => Tally {
                held: self.held + 1,
                ..self
            },
            Took::Repeat => Tally {
                repeated: self.repeated + 1,
                ..self
            },
            Took::Done(_) => self,
        }
    }
}
