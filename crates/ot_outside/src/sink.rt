ghost use Rattle.std.specs.Prelude.{◌≡◌, ◌<◌, ◌≤◌, ◌++◌, ℕ, List, take, length, IfOk, OnErr};
ghost use Rattle.ot_outside.specs.Faults.{Rose};

use crate::Failed;

/// What takes bytes.
pub trait Sink {
    /// The bytes that its calls took so far, in their order. They are always told.
    ghost took: { Self → List ℕ };

    /// How often the sink has failed. The count never falls.
    ghost faults: { Self → ℕ };

    /// Takes bytes from the front of `bytes` and answers how many they are, at least one. After `Failed`
    /// nothing was taken.
    fn write(&mut self, bytes: &[u8]) -> Result<usize, Failed>
        requires { 0 < length bytes.now }

        ensures some { IfOk result (λ n. 0 < n) }
        ensures count { IfOk result (λ n. n ≤ length bytes.now) }
        ensures ok { IfOk result (λ n. took self.new ≡ took self.old ++ take n bytes.now) }
        ensures err { OnErr result (took self.new ≡ took self.old) }
        ensures faults { faults self.old ≤ faults self.new }

        ensures failed { OnErr result (Rose (faults self.old) (faults self.new)) };
}
