//! An asker without starts.
ghost use Rattle.std.specs.Prelude.{◌≡◌};
ghost use Rattle.proof_trees.specs.Startless.{no_starts};

use crate::starter::Starter;
use ask_core::{Asker, NoMemory, Turn};
use diff_graph::Lit;
use plain_list::List;
use std::alloc::Global;

/// An asker as one with starts that has none: where its trees are judged, lemmas are neither begun nor cited,
/// so they are the trees of certificates.
#[derive(Drop)]
pub struct Startless<A: Asker> {
    inner: A,
    told: u64,
}

impl<A: Asker> Startless<A> {
    /// The asker without starts.
    pub fn new(inner: A) -> Startless<A>
        ensures root { ⟦<Startless<A> as Asker>⟧.root result ≡ A.root inner }
        ensures count { ⟦<Startless<A> as Asker>⟧.name_count result ≡ A.name_count inner }
        ensures starts { ⟦<Startless<A> as Starter>⟧.starts result ≡ no_starts (A.plan inner) (A.root inner) }
        ensures told { ⟦<Startless<A> as Starter>⟧.told result ≡ 0 }
    {
        Startless { inner, told: 0 }
    }
}

impl<A: Asker> Asker for Startless<A> {
    type Node = A::Node;

    type Why = A::Why;

    ghost is_own = { λ a. A.is_own a.inner };

    ghost plan = { λ a. A.plan a.inner };

    ghost root = { λ a. A.root a.inner };

    ghost name_count = { λ a. A.name_count a.inner };

    fn names(&self) -> u8 {
        self.inner.names()
    }

    fn start(&mut self) -> Result<A::Node, NoMemory> {
        Ok(self.inner.start()?)
    }

    fn turn(&mut self, node: A::Node) -> Result<Turn<A::Node, A::Why>, NoMemory> {
        Ok(self.inner.turn(node)?)
    }

    ghost fine = { λ a. A.fine a.inner };
}

impl<A: Asker> Starter for Startless<A> {
    ghost use Rattle.proof_trees.specs.Startless.{IsWhole-no_starts};

    type Start = ();

    ghost starts = { λ a. no_starts (A.plan a.inner) (A.root a.inner) };

    ghost told = { λ a. a.told };

    fn first(&mut self) -> Result<A::Node, NoMemory> {
        Ok(self.inner.start()?)
    }

    fn follow(&mut self, node: A::Node) -> Result<Turn<A::Node, A::Why>, NoMemory> {
        match self.inner.turn(node)? {
            Turn::Ask { lit, yes, no } => {
                self.told = self.told.saturating_add(1);
                Ok(Turn::Ask { lit, yes, no })
            }
            Turn::Holds => Ok(Turn::Holds),
            Turn::Fails(why) => Ok(Turn::Fails(why)),
        }
    }

    fn begins(&self, _node: A::Node) -> bool {
        false
    }

    fn compare(
        &mut self,
        _alloc: Global,
        _lemma: A::Node,
        _here: A::Node,
    ) -> Result<Option<List<Lit>>, NoMemory> {
        Ok(None)
    }

    ghost whole = { λ a. IsWhole-no_starts (A.plan a.inner) (A.root a.inner) };
}
