// The calls and the faults of an object in memory, and which of its calls fail.
ghost use Rattle.std.specs.Prelude.{◌≡◌, ◌≤◌, if◌then◌else◌, is_err, nat_eq};
ghost use Rattle.std.specs.List.{list_any};
ghost use Rattle.ot_outside.specs.Faults.{next_count};
ghost use Rattle.ot_outside.specs.Counts.{next_is_listed};

use crate::Failed;

/// Both counts start at 0 and stop at the last value of a u64.
#[derive(Drop)]
pub(crate) struct Counts {
    pub(crate) failing: Vec<u32>,
    pub(crate) calls: u64,
    pub(crate) faults: u64,
}

impl Counts {
    pub(crate) fn new(failing: Vec<u32>) -> Counts
        ensures failing { result.failing ≡ failing }
        ensures calls { result.calls ≡ 0 }
        ensures faults { result.faults ≡ 0 }
    {
        Counts {
            failing,
            calls: 0,
            faults: 0,
        }
    }

    // Counts a call, which fails if its number is listed.
    pub(crate) fn call(&mut self) -> Result<(), Failed>
        ensures fails { is_err result ≡ next_is_listed self.old }
        ensures after { self.new ≡ record self.old {
          calls = next_count self.old.calls;
          faults = if is_err result then next_count self.old.faults else self.old.faults;
        } }
        ensures never_falls { self.old.faults ≤ self.new.faults }
    {
        self.calls = self.calls.saturating_add(1);
        if is_listed(&self.failing, self.calls) {
            return Err(self.fault());
        }
        Ok(())
    }

    // Counts a fault.
    pub(crate) fn fault(&mut self) -> Failed
        ensures after { self.new ≡ record self.old { faults = next_count self.old.faults } }
        ensures never_falls { self.old.faults ≤ self.new.faults }
    {
        self.faults = self.faults.saturating_add(1);
        Failed
    }
}

fn is_listed(failing: &[u32], number: u64) -> bool
    ensures { result ≡ list_any (λ listed. nat_eq listed number) failing.now }
{
    failing.iter().any(|listed| u64::from(*listed) == number)
}
