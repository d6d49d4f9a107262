//! What follows from literals, with literals that are tested first.
ghost use Rattle.std.specs.Prelude.{◌≡◌, ◌↔◌, ◌<◌, ◌≤◌, ◌≤ℤ◌, ℕ, List, [], ◌∷◌, ◌++◌, pos, ◌-ℤ◌, IsTrue, true, false};
ghost use Rattle.std.specs.Prelude.{IfSome, IfOk, OnOk};
ghost use Rattle.ask_core.specs.declared.asker.TheConstants.{MAX_NAMES};
ghost use Rattle.diff_graph.specs.Limits.{IsNamed, IsSmall};
ghost use Rattle.diff_tables.specs.Tables.{Numbered, literals_of, kept_of, StandsFor, Follows};
ghost use Rattle.diff_tables.specs.Tables.{IsPossibleWith, IsCycleOf};
ghost use Rattle.proof_search.specs.Facts.{HasAdded};

use crate::NoMemory;
use ask_core::MAX_NAMES;
use diff_bounds::Bounds;
use diff_graph::{Lit, MAX_LITERAL_OFFSET};
use std::marker::Model;

/// What became of a literal that was to be added.
#[derive(Clone, Copy)]
pub enum Added {
    /// It is one of the facts now.
    Yes,

    /// No integers meet it and the facts.
    Excluded,

    /// A name of it is not below the most names, or its offset is larger than that of a literal which is asked, or of
    /// the negation of one.
    OutOfRange,
}

/// What follows from a list of numbered literals. Any literal may be asked of it and added to it; contracts see the
/// rows of its table.
#[derive(Clone, Copy)]
pub struct Facts {
    table: Bounds<MAX_NAMES>,
}

impl Model for Facts {
    ghost use Rattle.std.specs.Prelude.{List, Option};
    ghost use Rattle.diff_tables.specs.declared.hop.Hop.{Hop};

    ghost Value = { List (List (Option Hop)) };

    ghost view = { λ f. f.table };

    ghost inverse = { λ rows. record { table = rows } };
}

/// Whether both names are below the most names.
#[inline(always)]
fn is_named(lit: Lit) -> bool
    ensures { IsTrue result ↔ IsNamed MAX_NAMES lit }
{
    (lit.x as usize) < MAX_NAMES && (lit.y as usize) < MAX_NAMES
}

/// Whether the offset is that of a literal which is asked, or of the negation of one.
#[inline(always)]
fn is_small(lit: Lit) -> bool
    ensures { IsTrue result ↔ IsSmall lit }
{
    -MAX_LITERAL_OFFSET - 1 <= lit.k && lit.k <= MAX_LITERAL_OFFSET + 1
}

impl Facts {
    /// No facts.
    pub fn new() -> Facts
        ensures { StandsFor MAX_NAMES (kept_of result) [] }
    {
        Facts {
            table: Bounds::new(),
        }
    }

    /// Whether a literal follows.
    #[inline(always)]
    pub fn implies(&self, lit: Lit) -> bool
        ensures { (ps : List Numbered) → StandsFor MAX_NAMES (kept_of self.now) ps → IsTrue result
            → Follows (literals_of ps) lit.x lit.y lit.k }
    {
        if !is_named(lit) {
            return false;
        }
        match self.table.tightest(lit.x, lit.y) {
            None => false,
            Some(least) => least <= lit.k,
        }
    }

    /// Whether no integers meet the facts and a literal.
    #[inline(always)]
    pub fn excludes(&self, lit: Lit) -> bool
        ensures { (ps : List Numbered) → StandsFor MAX_NAMES (kept_of self.now) ps → IsTrue result
            → ¬ IsPossibleWith (literals_of ps) lit }
    {
        if !is_named(lit) || !is_small(lit) {
            return false;
        }
        !self.table.allows(lit)
    }

    /// The constant `k` for which `x = y + k` follows, if there is one.
    pub fn distance(&self, x: u8, y: u8) -> Option<i32>
        ensures { (ps : List Numbered) → StandsFor MAX_NAMES (kept_of self.now) ps
            → IfSome result (λ k. Follows (literals_of ps) x y k × Follows (literals_of ps) y x (pos 0 -ℤ k)) }
    {
        if x as usize >= MAX_NAMES || y as usize >= MAX_NAMES {
            return None;
        }
        let there = self.table.tightest(x, y)?;
        let back = self.table.tightest(y, x)?;
        if there.checked_add(back) == Some(0) {
            return Some(there);
        }
        None
    }

    /// Adds a literal under a number, where it can be added.
    #[inline(always)]
    pub fn try_add(&mut self, lit: Lit, number: u32) -> Added
        ensures { HasAdded lit number result self.old self.new }
    {
        if !is_named(lit) || !is_small(lit) {
            return Added::OutOfRange;
        }
        if !self.table.allows(lit) {
            return Added::Excluded;
        }
        self.table.add(lit, number);
        Added::Yes
    }

    /// Why a literal is excluded: where it is, the answer is true, and the numbers of a negative cycle stand in
    /// `picks`, in place of what it held, the number of the literal first.
    pub fn write_why_excluded(
        &self,
        picks: &mut Vec<u32>,
        lit: Lit,
        number: u32,
    ) -> Result<bool, NoMemory>
        ensures { (ps : List Numbered) → StandsFor MAX_NAMES (kept_of self.now) ps
            → IfOk result (λ found. IsTrue found
            → IsCycleOf MAX_NAMES (ps ++ record { number = number; lit = lit } ∷ []) picks.new.items) }
    {
        if !is_named(lit) || !is_small(lit) {
            return Ok(false);
        }
        if self.table.allows(lit) {
            return Ok(false);
        }
        self.table.write_why_not(picks, lit, number)?;
        Ok(true)
    }
}
