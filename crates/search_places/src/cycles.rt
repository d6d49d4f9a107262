//! What is known of places that wait.
ghost use Rattle.std.specs.Prelude.{◌≡◌, ℕ, ◌-◌, ◌<◌, false, List, ◌∷◌, [], None, Some, length, slice_index_or};
ghost use Rattle.std.specs.Prelude.{IfOk, OnOk};
ghost use Rattle.diff_graph.specs.Limits.{IsNamed, IsSmall};
ghost use Rattle.diff_tables.specs.Tables.{kept_of};
ghost use Rattle.diff_bounds.specs.Kept.{has_room};
ghost use Rattle.ask_core.specs.declared.asker.TheConstants.{MAX_NAMES};
ghost use Rattle.search_places.specs.Sides.{ClosesCycle, StandsForSome};
ghost use Rattle.search_places.specs.Waiting.{IsTakenCycle};

use ask_core::{MAX_NAMES, NoMemory};
use cert_text::Tree;
use diff_bounds::Bounds;
use diff_graph::Lit;
use std::alloc::Global;
use std::marker::Model;

/// For each place that waits, a negative cycle of its answers, or none where some integers meet them. It is seen as
/// their list, that of the innermost place first. The numbers of all cycles stand in one list: each cycle has those
/// from its start on, as long as no other one stands behind it.
#[derive(Drop)]
pub struct Cycles {
    starts: Vec<Option<usize>>,
    numbers: Vec<u32>,
}

impl Model for Cycles {
    ghost use Rattle.std.specs.Prelude.{ℕ, List, Option, reverse};
    ghost use Rattle.search_places.specs.Waiting.{cycles_of_starts, HaveCycles};

    ghost Value = { List (Option (List ℕ)) };

    ghost view = { λ c. cycles_of_starts (reverse c.starts.items) c.numbers.items };

    ghost invariant = { λ c. HaveCycles (reverse c.starts.items) c.numbers.items };
}

// Where the cycle of the innermost place starts, if it has one.
#[inline(always)]
fn last_start(starts: &Vec<Option<usize>>) -> Option<usize>
    requires { 0 < length starts.now.items }
    ensures { result ≡ slice_index_or starts.now.items (length starts.now.items - 1) None }
{
    starts[starts.len() - 1]
}

impl Cycles {
    /// Of no places. The allocator is not asked for memory.
    pub fn new(alloc: Global) -> Cycles
        ensures { result ≡ [] }
    {
        Cycles {
            starts: Vec::new(alloc),
            numbers: Vec::new(alloc),
        }
    }

    /// A further place waits, whose answers some integers meet.
    #[inline(always)]
    pub fn push_possible(&mut self) -> Result<(), NoMemory>
        ensures { OnOk result (self.new ≡ None ∷ self.old) }
    {
        self.starts.push(None)?;
        Ok(())
    }

    /// A further place waits, to whose answers a literal belongs that a table of the others does not allow, under a
    /// number: the place has the negative cycle that shows it.
    #[inline(always)]
    pub fn push_why_not(
        &mut self,
        table: &Bounds<MAX_NAMES>,
        lit: Lit,
        number: u32,
    ) -> Result<(), NoMemory>
        requires named { IsNamed MAX_NAMES lit }
        requires small { IsSmall lit }
        requires stands { StandsForSome MAX_NAMES table.now }
        requires not_allowed { has_room (kept_of table.now) lit ≡ false }
        ensures { OnOk result ((numbers : List ℕ) × (self.new ≡ Some numbers ∷ self.old)
            × ClosesCycle (kept_of table.now) number lit numbers) }
    {
        self.starts.reserve(1)?;
        let start = self.numbers.len();
        table.append_why_not(&mut self.numbers, lit, number)?;
        self.starts.push_reserved(Some(start));
        Ok(())
    }

    /// Takes what is known of the innermost place. A cycle is put at the end of the tree: then the answer is true.
    #[inline(always)]
    pub fn take(&mut self, tree: &mut Tree) -> Result<bool, NoMemory>
        requires { 0 < length self.old }
        ensures { IfOk result (IsTakenCycle self.old self.new tree.old tree.new) }
    {
        match last_start(&self.starts) {
            None => {
                self.starts.pop();
                Ok(false)
            }
            Some(start) => {
                tree.push_cycle(&self.numbers[start..])?;
                self.starts.pop();
                self.numbers.truncate(start);
                Ok(true)
            }
        }
    }
}
