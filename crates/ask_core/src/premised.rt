//! An asker that asks a premise first.
ghost use Rattle.std.specs.Prelude.{◌≡◌, ◌↔◌, ◌<◌, ℕ, ℤ, true, IsTrue};
ghost use Rattle.diff_graph.specs.declared.lit.Lit.{Lit};
ghost use Rattle.diff_graph.specs.Literals.{Meets};
ghost use Rattle.ask_core.specs.declared.asker.TheConstants.{MAX_QUESTIONS};
ghost use Rattle.ask_core.specs.Plans.{Plan, premised, value};
ghost use Rattle.ask_core.specs.Askers.{IsFine, is_fine_literal, has_fine_literals, longest_path};

use crate::NoMemory;
use crate::asker::Asker;
use crate::turn::Turn;
use diff_graph::Lit;

/// A place in the plan of a premised asker.
#[derive(Clone, Copy, PartialEq, Eq)]
pub enum PremisedNode<N> {
    /// The premise is asked here.
    Premise,

    /// The premise is met, and this is a place of the inner asker's plan.
    Within(N),

    /// The premise is not met, so nothing is left to show.
    Unmet,
}

/// An asker that asks a literal first: at yes it goes on with the plan of the inner asker, and at no it
/// holds. So its plan holds exactly where the premise is not met or the inner plan holds.
#[derive(Drop)]
pub struct Premised<A: Asker> {
    premise: Lit,
    inner: A,
    ghost fine: { IsFine (A.name_count inner) (premised premise (A.root inner)) },
}

impl<A: Asker> Premised<A> {
    /// The asker of a premise and an inner asker, on whose paths one question is left.
    pub fn new(premise: Lit, inner: A) -> Premised<A>
        requires premise { IsTrue (is_fine_literal (A.name_count inner) premise) }
        requires literals { IsTrue (has_fine_literals (A.name_count inner) (A.root inner)) }
        requires paths { longest_path (A.root inner) < MAX_QUESTIONS }
        ensures root { ⟦<Premised<A> as Asker>⟧.root result ≡ premised premise (A.root inner) }
        ensures count { ⟦<Premised<A> as Asker>⟧.name_count result ≡ A.name_count inner }
    {
        Premised { premise, inner }
    }
}

impl<A: Asker> Asker for Premised<A> {
    ghost use Rattle.ask_core.specs.declared.premised.PremisedNode.TheVariants.{Premise, Within, Unmet};
    ghost use Rattle.ask_core.specs.Premises.{IsOwnAfter, plan_after, IsFine-holds};

    type Node = PremisedNode<A::Node>;

    type Why = A::Why;

    ghost is_own = { λ a. IsOwnAfter (A.is_own a.inner) };

    ghost plan = { λ a. plan_after a.premise (A.root a.inner) (A.plan a.inner) };

    ghost root = { λ a. premised a.premise (A.root a.inner) };

    ghost name_count = { λ a. A.name_count a.inner };

    fn names(&self) -> u8 {
        self.inner.names()
    }

    fn start(&mut self) -> Result<PremisedNode<A::Node>, NoMemory> {
        Ok(PremisedNode::Premise)
    }

    #[inline(always)]
    fn turn(
        &mut self,
        node: PremisedNode<A::Node>,
    ) -> Result<Turn<PremisedNode<A::Node>, A::Why>, NoMemory> {
        match node {
            PremisedNode::Premise => {
                let first = self.inner.start()?;
                Ok(Turn::Ask {
                    lit: self.premise,
                    yes: PremisedNode::Within(first),
                    no: PremisedNode::Unmet,
                })
            }
            PremisedNode::Within(node) => match self.inner.turn(node)? {
                Turn::Ask { lit, yes, no } => Ok(Turn::Ask {
                    lit,
                    yes: PremisedNode::Within(yes),
                    no: PremisedNode::Within(no),
                }),
                Turn::Holds => Ok(Turn::Holds),
                Turn::Fails(why) => Ok(Turn::Fails(why)),
            },
            PremisedNode::Unmet => Ok(Turn::Holds),
        }
    }

    ghost fine = { λ a. elim [
      | Premise ↦ λ _. a.fine
      | Within n ↦ λ own. A.fine a.inner n own
      | Unmet ↦ λ _. IsFine-holds (A.name_count a.inner)
    ] };
}

/// A law and no code: a plan behind a premise holds at a valuation exactly where the valuation does not
/// meet the premise or the plan itself holds there.
pub fn premised_plans_hold_where_the_premise_is_met<W: Copy>()
    ensures { (l : Lit) (p : Plan W) (v : ℕ → ℤ) → value (premised l p) v ≡ true ↔ (Meets v l → value p v ≡ true) }
{}
