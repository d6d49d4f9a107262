//! The asker of one obligation, with its starts numbered.
ghost use Rattle.std.specs.Prelude.{◌≡◌, IsTrue};
ghost use Rattle.fn_rules.specs.Obligations.{is_obligation};
ghost use Rattle.fn_rules.specs.Rules.{function_of};
ghost use Rattle.ot_questions.specs.Names as names;
ghost use Rattle.ot_questions.specs.Obligation.{plan_of};
ghost use Rattle.ot_terms.specs.Goals.{goal_tree};
ghost use Rattle.start_laws.specs.Begun.{IsBegunProgress};
ghost use Rattle.ot_starts.specs.Nodes.{IsStop};

use crate::numbers::{Numbers, Read, told_otherwise};
use ask_core::{Asker, NoMemory, Turn};
use bumpalo::Bump;
use diff_graph::Lit;
use fn_rules::{ObName, Rules};
use ot_questions::Why;
use ot_starts::{Begun, StartAsker};
use ot_terms::Goal;
use plain_list::List;
use proof_search::{Distances, Finder, Pins, Told};
use proof_trees::Starter;
use start_laws::{StartAt, still_read};
use std::alloc::Global;

// What is read of a start.
fn read_of<P: Pins>(start: &StartAt<'_>, pinned: Option<&P>) -> Read
    requires { IsBegunProgress start.now.progress.now start.now.last }
{
    let results = start.results();
    let got = results.as_slice();
    Read::new(got.len(), still_read(start.progress.ob, got), pinned)
}

// The number of what is read of the start at a node, and 0 where no transformation begins.
#[inline]
fn number_at<'a, P: Pins>(
    asker: &StartAsker<'a>,
    numbers: &mut Numbers,
    node: &'a Goal<'a>,
    pinned: Option<&P>,
) -> Result<usize, NoMemory>
    requires { IsStop (function_of asker.now.laid) asker.now.ob (goal_tree node.now) }
{
    match asker.start_at(node) {
        Some(start) => numbers.number(read_of(&start, pinned)),
        None => Ok(0),
    }
}

/// What an obligation of a function asks, with a start wherever a transformation begins, and a number for each of these
/// that is met.
#[derive(Drop)]
pub struct FindingStarts<'a> {
    inner: StartAsker<'a>,
    numbers: Numbers,
}

impl<'a> FindingStarts<'a> {
    /// The asker of an obligation that is one of the function's. It takes no memory.
    pub fn new(alloc: Global, bump: &'a Bump, rules: &'a Rules, ob: ObName) -> FindingStarts<'a>
        requires { IsTrue (is_obligation (function_of rules.now).head ob) }
        ensures root { ⟦<FindingStarts<'a> as Asker>⟧.root result ≡ plan_of (function_of rules.now) ob }
        ensures count { ⟦<FindingStarts<'a> as Asker>⟧.name_count result ≡ names.name_count ob }
        ensures told { ⟦<FindingStarts<'a> as Starter>⟧.told result ≡ 0 }
    {
        FindingStarts {
            inner: StartAsker::new(bump, rules, ob),
            numbers: Numbers::new(alloc),
        }
    }
}

impl<'a> Asker for FindingStarts<'a> {
    type Node = &'a Goal<'a>;

    type Why = Why;

    ghost is_own = { λ a. ⟦<StartAsker<'a> as Asker>⟧.is_own a.inner };

    ghost plan = { λ a. ⟦<StartAsker<'a> as Asker>⟧.plan a.inner };

    ghost root = { λ a. ⟦<StartAsker<'a> as Asker>⟧.root a.inner };

    ghost name_count = { λ a. ⟦<StartAsker<'a> as Asker>⟧.name_count a.inner };

    fn names(&self) -> u8 {
        self.inner.names()
    }

    fn start(&mut self) -> Result<&'a Goal<'a>, NoMemory> {
        self.inner.start()
    }

    fn turn(&mut self, node: &'a Goal<'a>) -> Result<Turn<&'a Goal<'a>, Why>, NoMemory> {
        self.inner.turn(node)
    }

    ghost fine = { λ a n own. own.node.fine };
}

impl<'a> Starter for FindingStarts<'a> {
    ghost use Rattle.fn_rules.specs.Rules.{function_of};
    ghost use Rattle.ot_starts.specs.Whole.{IsWhole-starts};

    type Start = Begun;

    ghost starts = { λ a. ⟦<StartAsker<'a> as Starter>⟧.starts a.inner };

    ghost told = { λ a. ⟦<StartAsker<'a> as Starter>⟧.told a.inner };

    fn first(&mut self) -> Result<&'a Goal<'a>, NoMemory> {
        self.inner.first()
    }

    fn follow(&mut self, node: &'a Goal<'a>) -> Result<Turn<&'a Goal<'a>, Why>, NoMemory> {
        self.inner.follow(node)
    }

    fn begins(&self, node: &'a Goal<'a>) -> bool {
        self.inner.begins(node)
    }

    fn compare(
        &mut self,
        alloc: Global,
        lemma: &'a Goal<'a>,
        here: &'a Goal<'a>,
    ) -> Result<Option<List<Lit>>, NoMemory> {
        self.inner.compare(alloc, lemma, here)
    }

    ghost whole = { λ a. IsWhole-starts (function_of a.inner.laid) a.inner.ob a.inner.listed a.inner.lawful };
}

impl<'a> Finder for FindingStarts<'a> {
    fn number(&mut self, node: &'a Goal<'a>) -> Result<usize, NoMemory> {
        number_at::<Distances>(&self.inner, &mut self.numbers, node, None)
    }

    fn number_alike<P: Pins>(&mut self, node: &'a Goal<'a>, pinned: &P) -> Result<usize, NoMemory> {
        number_at(&self.inner, &mut self.numbers, node, Some(pinned))
    }

    fn told_otherwise(&self, node: &'a Goal<'a>) -> Option<Told> {
        told_otherwise(self.inner.start_at(node)?.last?)
    }
}
