ghost use Rattle.std.specs.Prelude.{◌≡◌, ◌<◌, ◌≤◌, ◌↔◌, ℕ, List, Option, [], take, length, IfOk, OnOk, OnErr};
ghost use Rattle.std.specs.Io.KnownBytes.{IsAtEnd, prepend_known};
ghost use Rattle.ot_outside.specs.Faults.{Rose, next_count};
ghost use Rattle.ot_outside.specs.Reads.{Reads, after_reading, gone_on};

/// The outside failed, and its count of faults rose.
#[derive(Clone, Copy, PartialEq, Eq)]
pub struct Failed;

// How many bytes a shelf is asked for at a time.
pub(crate) const PIECE: usize = 16_384;

/// Files under names, of which at most one is open.
///
/// No call changes what a name holds, whether that is told, or which names are on offer. Before the
/// first `open` no file is open, and nothing is left.
pub trait Shelf {
    /// What a name holds, where the shelf tells it.
    ghost holds: { Self → List ℕ → Option (List ℕ) };

    /// Whether a name may be opened.
    ghost offered: { Self → List ℕ → Type 0 };

    /// What is left of the open file, where the shelf tells it.
    ghost left: { Self → Option (List ℕ) };

    /// How often the shelf has failed. The count never falls.
    ghost faults: { Self → ℕ };

    /// How often the shelf was called, by `open` and `read` together.
    ghost calls: { Self → ℕ };

    /// What its calls gave, whether or not it tells what a name holds.
    ghost reads: { Self → Reads };

    /// Opens a file, from its beginning, and leaves the one that was open. After `Failed` no file is
    /// open and nothing is left.
    fn open(&mut self, name: &str) -> Result<(), Failed>
        requires { offered self.old name.now }

        ensures ok { OnOk result (left self.new ≡ holds self.old name.now) }
        ensures err { OnErr result (left self.new ≡ Some []) }

        ensures holds { (n : List ℕ) → holds self.new n ≡ holds self.old n }
        ensures offered { (n : List ℕ) → offered self.old n ↔ offered self.new n }
        ensures faults { faults self.old ≤ faults self.new }

        ensures failed { OnErr result (Rose (faults self.old) (faults self.new)) }
        ensures called { calls self.new ≡ next_count (calls self.old) }
        ensures opened { reads self.new ≡ after_reading name.now [] (reads self.old) };

    /// Puts the next bytes of what is left at the front of `into` and answers how many they are: 0
    /// exactly where nothing is left. What `into` then holds behind them is not said. After `Failed`
    /// nothing was taken.
    fn read(&mut self, into: &mut [u8]) -> Result<usize, Failed>
        requires { 0 < length into.old }

        ensures count { IfOk result (λ n. n ≤ length into.new) }
        ensures ok { IfOk result (λ n. left self.old ≡ prepend_known (take n into.new) (left self.new)) }
        ensures end { IfOk result (λ n. n ≡ 0 → IsAtEnd (left self.old)) }
        ensures err { OnErr result (left self.new ≡ left self.old) }

        ensures holds { (n : List ℕ) → holds self.new n ≡ holds self.old n }
        ensures offered { (n : List ℕ) → offered self.old n ↔ offered self.new n }
        ensures faults { faults self.old ≤ faults self.new }

        ensures failed { OnErr result (Rose (faults self.old) (faults self.new)) }
        ensures called { calls self.new ≡ next_count (calls self.old) }
        ensures given { IfOk result (λ n. reads self.new ≡ gone_on (take n into.new) (reads self.old)) }
        ensures not_given { OnErr result (reads self.new ≡ reads self.old) };
}
