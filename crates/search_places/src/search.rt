//! A search under way: the open places, what is known of each, and the tree so far.
ghost use Rattle.std.specs.Prelude.{◌≡◌, ◌+◌, ◌<◌, ◌^◌, [], ◌∷◌, true, length, drop, slice_index_or};
ghost use Rattle.std.specs.Prelude.{IfOk, OnOk};
ghost use Rattle.diff_graph.specs.Limits.{IsNamed};
ghost use Rattle.diff_tables.specs.Tables.{StandsFor, kept_of};
ghost use Rattle.ask_core.specs.Paths.{first_answers};
ghost use Rattle.ask_core.specs.declared.tree.Tok.TheVariants.{Holds};
ghost use Rattle.cert_text.specs.TreeTexts.{with_token};
ghost use Rattle.ask_core.specs.declared.asker.TheConstants.{MAX_NAMES};
ghost use Rattle.search_places.specs.Sides.{IsAsked, StandsForSome, last_rows};
ghost use Rattle.search_places.specs.Changes.{HasAsked, HasClosed, known_of};

use crate::cycles::Cycles;
use crate::split::{Room, close_yes, judge_sides, wait_impossible};
use ask_core::{MAX_NAMES, NoMemory, Path};
use cert_text::Tree;
use diff_bounds::Bounds;
use diff_graph::Lit;
use diff_tables::tables_tell_what_is_possible;
use std::alloc::Global;

/// How many tables there is room for from the first on. Pages of it that nobody writes to take no memory.
const TABLES: usize = 16;

/// A search under way. For each open place `cycles` has a negative cycle of its answers, or none where some
/// integers meet them, the first place last. Where the first place is known to be `possible`, it has none there. The
/// places that some integers meet have a table each, the last one that of the first of them.
#[derive(Drop)]
pub struct PlanSearch<N: Copy> {
    pub path: Path<N>,
    pub possible: bool,
    pub cycles: Cycles,
    pub tables: Vec<Bounds<MAX_NAMES>>,
    pub tree: Tree,
    pub asked: u64,
}

impl<N: Copy> PlanSearch<N> {
    /// A search with one open place, to which no answers lead, whose tree is to stand at the end of this one.
    pub fn begin(alloc: Global, first: N, tree: Tree) -> Result<PlanSearch<N>, NoMemory>
        ensures path { IfOk result (λ s. s.path ≡ record { node = first; answers = [] } ∷ []) }
        ensures cycles { IfOk result (λ s. (s.possible ≡ true) × (s.cycles ≡ [])) }
        ensures tables { IfOk result (λ s. (length s.tables.items ≡ 1)
            × StandsFor MAX_NAMES (kept_of (slice_index_or s.tables.items 0 [])) []) }
        ensures nothing { IfOk result (λ s. (s.tree ≡ tree) × (s.asked ≡ 0)) }
    {
        let mut tables = Vec::with_capacity(alloc, TABLES)?;
        tables.push(Bounds::new())?;
        Ok(PlanSearch {
            path: Path::new(alloc, first),
            possible: true,
            cycles: Cycles::new(alloc),
            tables,
            tree,
            asked: 0,
        })
    }

    /// Closes the first place, at which the plan holds.
    #[inline(always)]
    pub fn close_holds(&mut self) -> Result<(), NoMemory>
        requires { 0 < length self.old.path }
        ensures { OnOk result (self.new ≡ record self.old
            { path = drop 1 self.old.path; tree = with_token self.old.tree Holds }) }
    {
        self.tree.push_holds()?;
        self.path.close();
        Ok(())
    }

    /// Asks a literal at the first place, which some integers meet, and answers which sides have room. A side for yes
    /// that none meet is closed at once.
    #[inline(always)]
    pub fn ask(&mut self, lit: Lit, yes: N, no: N) -> Result<Room, NoMemory>
        requires opened { 0 < length self.old.path }
        requires few { length (first_answers self.old.path) < 2 ^ 32 }
        requires fits { self.old.asked + 1 < 2 ^ 64 }
        requires named { IsNamed MAX_NAMES lit }
        requires asked { IsAsked lit }
        requires some { 0 < length self.old.tables.items }
        requires stands { StandsForSome MAX_NAMES (last_rows self.old.tables.items) }
        ensures asked { OnOk result (self.new.asked ≡ self.old.asked + 1) }
        ensures possible { OnOk result (self.new.possible ≡ self.old.possible) }
        ensures judged { IfOk result (λ room. HasAsked room lit yes no self.old self.new) }
    {
        tables_tell_what_is_possible();
        let number = self.path.answers().len() as u32;
        let room = judge_sides(&mut self.tables, lit, number)?;
        self.asked += 1;
        match room {
            Room::Both => {
                self.tree.push_ask()?;
                self.path.ask(lit, yes, no)?;
                self.cycles.push_possible()?;
            }
            Room::OnlyYes => {
                self.tree.push_ask()?;
                self.path.ask(lit, yes, no)?;
                wait_impossible(&mut self.cycles, &self.tables, lit, number)?;
            }
            Room::OnlyNo => {
                self.path.ask_no(lit, no)?;
                close_yes(&self.tables, lit, number, &mut self.tree)?;
            }
        }
        Ok(room)
    }

    /// Finds what is known of the first place. Where it is a cycle, the place is closed with it: then the answer
    /// is true. Else some integers meet its answers.
    #[inline(always)]
    pub fn close_impossible(&mut self) -> Result<bool, NoMemory>
        requires opened { 0 < length self.old.path }
        requires known { 0 < length (known_of self.old) }
        ensures { IfOk result (HasClosed self.old self.new) }
    {
        if self.possible {
            return Ok(false);
        }
        if self.cycles.take(&mut self.tree)? {
            self.path.close();
            return Ok(true);
        }
        self.possible = true;
        Ok(false)
    }
}
