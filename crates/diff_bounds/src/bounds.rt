//! The table of distances.
ghost use Rattle.std.specs.Prelude.{◌≡◌, ◌↔◌, ℕ, ◌<◌, ◌≤◌, IsTrue, true, false, List, [], ◌∷◌, ◌++◌, Option, IfOk};
ghost use Rattle.std.specs.Prelude.{OnErr, OnOk, slice_index_or};
ghost use Rattle.diff_tables.specs.declared.hop.Hop.{Hop};
ghost use Rattle.diff_graph.specs.Limits.{IsNamed, IsSmall};
ghost use Rattle.diff_tables.specs.Tables.{Numbered, literals_of, kept_of, StandsFor, Follows};
ghost use Rattle.diff_tables.specs.Tables.{IsPossibleWith, IsCycleOf};
ghost use Rattle.diff_bounds.specs.Kept.{AreBounds, has_room, IsTightest};

use crate::rows::{allows, append_cycle, begin_rows, insert, kept, row_of};
use diff_graph::{Lit, NoMemory};
use diff_tables::{Hop, new_rows_stand_for_nothing, tables_tell_what_is_possible};
use std::alloc::Global;
use std::marker::Model;

/// What follows from a list of numbered literals over `N` names, at most 16. Each clause holds for
/// every list that the table stands for. Contracts see its rows: the row of `y` has what is kept for
/// each pair `x`, `y`.
#[derive(Clone, Copy)]
pub struct Bounds<const N: usize> {
    rows: [[Option<Hop>; N]; N],
}

impl<const N: usize> Model for Bounds<N> {
    ghost Value = { List (List (Option Hop)) };

    ghost view = { λ b. b.rows };

    ghost inverse = { λ rows. record { rows = rows } };

    ghost invariant = { λ b. AreBounds N b.rows };
}

impl<const N: usize> Bounds<N> {
    /// A table to which nothing was added.
    pub fn new() -> Self
        requires some { 1 ≤ N }
        requires few { N ≤ 16 }
        ensures { StandsFor N (kept_of result) [] }
    {
        let mut rows = [[None; N]; N];
        begin_rows(&mut rows);
        new_rows_stand_for_nothing();
        Bounds { rows }
    }

    /// Whether some integers meet the literals added so far and `lit`.
    #[inline(always)]
    pub fn allows(&self, lit: Lit) -> bool
        requires named { IsNamed N lit }
        requires small { IsSmall lit }
        ensures room { result ≡ has_room (kept_of self.now) lit }
        ensures exact { (ps : List Numbered) → StandsFor N (kept_of self.now) ps
            → (IsTrue result ↔ IsPossibleWith (literals_of ps) lit) }
    {
        tables_tell_what_is_possible();
        allows(&self.rows, lit)
    }

    /// The least `k` for which `x <= y + k` follows from the literals added so far. None where none
    /// follows.
    pub fn tightest(&self, x: u8, y: u8) -> Option<i32>
        requires x_below { x < N }
        requires y_below { y < N }
        ensures { (ps : List Numbered) → StandsFor N (kept_of self.now) ps → IsTightest (literals_of ps) x y result }
    {
        kept(&self.rows, x, y).map(|hop| hop.k)
    }

    /// What is kept from each name to `y`.
    #[inline(always)]
    pub fn row(&self, y: u8) -> &[Option<Hop>]
        requires { y < N }
        ensures { result.now ≡ slice_index_or self.now y [] }
    {
        row_of(&self.rows, y)
    }

    /// Adds a literal that is allowed, under a number. One that follows already changes nothing.
    pub fn add(&mut self, lit: Lit, number: u32)
        requires named { IsNamed N lit }
        requires small { IsSmall lit }
        requires allowed { has_room (kept_of self.old) lit ≡ true }
        ensures stands { (ps : List Numbered) → StandsFor N (kept_of self.old) ps
            → StandsFor N (kept_of self.new) (ps ++ record { number = number; lit = lit } ∷ []) }
        ensures same { (ps : List Numbered) → StandsFor N (kept_of self.old) ps
            → Follows (literals_of ps) lit.x lit.y lit.k → self.new ≡ self.old }
    {
        tables_tell_what_is_possible();
        insert(&mut self.rows, lit, number);
    }

    /// Why a literal is not allowed: the numbers of the literals of a negative cycle, at most `N`,
    /// each of an added literal or `number`. The error is want of memory.
    pub fn why_not(&self, alloc: Global, lit: Lit, number: u32) -> Result<Vec<u32>, NoMemory>
        requires named { IsNamed N lit }
        requires small { IsSmall lit }
        requires not_allowed { has_room (kept_of self.now) lit ≡ false }
        ensures { (ps : List Numbered) → StandsFor N (kept_of self.now) ps
            → IfOk result (λ picks. IsCycleOf N (ps ++ record { number = number; lit = lit } ∷ []) picks.items) }
    {
        let mut picks = Vec::new(alloc);
        self.write_why_not(&mut picks, lit, number)?;
        Ok(picks)
    }

    /// The same, written into `picks` in place of what it held, so that a vector that is used again takes
    /// memory once.
    #[inline(always)]
    pub fn write_why_not(&self, picks: &mut Vec<u32>, lit: Lit, number: u32) -> Result<(), NoMemory>
        requires named { IsNamed N lit }
        requires small { IsSmall lit }
        requires not_allowed { has_room (kept_of self.now) lit ≡ false }
        ensures { (ps : List Numbered) → StandsFor N (kept_of self.now) ps
            → OnOk result (IsCycleOf N (ps ++ record { number = number; lit = lit } ∷ []) picks.new.items) }
    {
        picks.clear();
        self.append_why_not(picks, lit, number)?;
        Ok(())
    }

    /// The same, put behind what `picks` holds. Where memory is wanting, `picks` is as it was.
    #[inline(always)]
    pub fn append_why_not(
        &self,
        picks: &mut Vec<u32>,
        lit: Lit,
        number: u32,
    ) -> Result<(), NoMemory>
        requires named { IsNamed N lit }
        requires small { IsSmall lit }
        requires not_allowed { has_room (kept_of self.now) lit ≡ false }
        ensures ok { OnOk result ((numbers : List ℕ) × (picks.new.items ≡ picks.old.items ++ numbers)
            × ((ps : List Numbered) → StandsFor N (kept_of self.now) ps
            → IsCycleOf N (ps ++ record { number = number; lit = lit } ∷ []) numbers)) }
        ensures err { OnErr result (picks.new.items ≡ picks.old.items) }
    {
        tables_tell_what_is_possible();
        append_cycle(picks, &self.rows, lit, number)?;
        Ok(())
    }
}
