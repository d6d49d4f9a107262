//! Bytes one at a time or in pieces: of a slice, and of a shelf's open file.
ghost use Rattle.std.specs.Prelude.{◌≡◌, ℕ, ◌++◌, ◌+◌, ◌<◌, ◌≤◌, List, Option, None, [], ◌∷◌, length, take, drop, true};
ghost use Rattle.std.specs.Prelude.{false, IfOk, OnErr, MatchOption};
ghost use Rattle.std.specs.Io.KnownBytes.{IsAtEnd, prepend_known};
ghost use Rattle.ot_outside.specs.Faults.{Rose};

use crate::Failed;

/// What gives bytes, one at a time, or as many as stand at hand.
pub trait Feed {
    /// The bytes that are left, where the feed tells them.
    ghost left: { Self → Option (List ℕ) };

    /// The bytes at hand: those that it gives next without a further read.
    ghost hand: { Self → List ℕ };

    /// The bytes that it gave so far. They are always told.
    ghost gave: { Self → List ℕ };

    /// How many bytes it can still give, at most. It is always told.
    ghost bound: { Self → ℕ };

    /// How often the feed has failed. The count never falls.
    ghost faults: { Self → ℕ };

    /// The reference by which it holds an object, if it holds one. No call puts another in its place, so
    /// the object is as the feed last held it when the feed is given up.
    ghost held: { Self → Option ℕ };

    /// What a feed keeps of how it stood before, as the files of a shelf that it holds. No call gives up
    /// what was kept until then.
    ghost keeps: { Self → Self → Type 0 };

    /// The next byte, or none exactly where no byte is left. After `Failed` nothing was taken.
    fn next(&mut self) -> Result<Option<u8>, Failed>
        ensures ok { IfOk result (λ byte. MatchOption byte
            (IsAtEnd (left self.old) × (left self.new ≡ left self.old))
            (λ b. left self.old ≡ prepend_known (b ∷ []) (left self.new))) }
        ensures err { OnErr result (left self.new ≡ left self.old) }

        ensures given { IfOk result (λ byte. MatchOption byte (bound self.new ≤ bound self.old)
            (λ _. bound self.old ≡ bound self.new + 1)) }
        ensures never_rises { bound self.new ≤ bound self.old }

        ensures gave { IfOk result (λ byte. MatchOption byte (gave self.new ≡ gave self.old)
            (λ b. gave self.new ≡ gave self.old ++ b ∷ [])) }
        ensures gave_none { OnErr result (gave self.new ≡ gave self.old) }

        ensures faults { faults self.old ≤ faults self.new }
        ensures failed { OnErr result (Rose (faults self.old) (faults self.new)) }
        ensures held { held self.new ≡ held self.old }
        ensures keeps { (before : Self) → keeps before self.old → keeps before self.new };

    /// Whether a byte is left. Where one is, the next bytes stand at hand, at least one, and otherwise none.
    /// After `Failed` nothing was taken.
    fn more(&mut self) -> Result<bool, Failed>
        ensures there { IfOk result (λ more. more ≡ true → 0 < length (hand self.new)) }
        ensures end { IfOk result (λ more. more ≡ false → IsAtEnd (left self.old)) }
        ensures none { IfOk result (λ more. more ≡ false → hand self.new ≡ []) }
        ensures left { left self.new ≡ left self.old }
        ensures bound { bound self.new ≡ bound self.old }
        ensures gave { gave self.new ≡ gave self.old }

        ensures faults { faults self.old ≤ faults self.new }
        ensures failed { OnErr result (Rose (faults self.old) (faults self.new)) }
        ensures held { held self.new ≡ held self.old }
        ensures keeps { (before : Self) → keeps before self.old → keeps before self.new };

    /// The bytes at hand. They are the next ones of those that are left.
    fn at_hand(&self) -> &[u8]
        ensures hand { result.now ≡ hand self.now }
        ensures front { (rest : Option (List ℕ)) × (left self.now ≡ prepend_known result.now rest) }
        ensures bound { length result.now ≤ bound self.now };

    /// Takes so many of the bytes at hand.
    fn consume(&mut self, count: usize)
        requires { count ≤ length (hand self.old) }
        ensures hand { hand self.new ≡ drop count (hand self.old) }
        ensures left { left self.old ≡ prepend_known (take count (hand self.old)) (left self.new) }
        ensures bound { bound self.old ≡ bound self.new + count }
        ensures gave { gave self.new ≡ gave self.old ++ take count (hand self.old) }

        ensures faults { faults self.new ≡ faults self.old }
        ensures held { held self.new ≡ held self.old }
        ensures keeps { (before : Self) → keeps before self.old → keeps before self.new };
}
