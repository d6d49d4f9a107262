//! An asker with two names.
ghost use Rattle.std.specs.Prelude.{◌≡◌};

use ask_core::{Asker, NoMemory, Turn};
use diff_graph::Lit;

#[derive(Clone, Copy)]
pub(crate) enum TwoNamesNode {
    First,
    Second,
    Kept,
    Broken,
}

/// It asks whether name 0 is at most name 1, and at yes whether name 1 is below name 0, or at most
/// name 0 where `strict` is false. Yes there fails; no holds.
#[derive(Drop)]
pub(crate) struct TwoNames {
    pub(crate) strict: bool,
}

impl Asker for TwoNames {
    ghost use Rattle.std.specs.Prelude.{refl};
    ghost use Rattle.std.proofs.Common.{lit≤};
    ghost use Rattle.test_layers.specs.declared.two_names.TwoNamesNode.TheVariants.{First, Second, Kept, Broken};
    ghost use Rattle.ask_core.specs.Plans.{Holds, Fails};
    ghost use Rattle.ask_core.specs.TwoNames.{second_plan, two_name_plan, IsFine-two_name_plan, IsFine-second_plan};

    type Node = TwoNamesNode;

    type Why = u8;

    ghost is_own = { λ _ _. Unit {0} };

    ghost plan = { λ a. elim [
      | First ↦ two_name_plan a.strict
      | Second ↦ second_plan a.strict
      | Kept ↦ Holds
      | Broken ↦
          Fails 7
    ] };

    ghost root = { λ a. two_name_plan a.strict };

    ghost name_count = { λ _. 2 };

    fn names(&self) -> u8 {
        2
    }

    fn start(&mut self) -> Result<TwoNamesNode, NoMemory> {
        Ok(TwoNamesNode::First)
    }

    fn turn(&mut self, node: TwoNamesNode) -> Result<Turn<TwoNamesNode, u8>, NoMemory> {
        Ok(match node {
            TwoNamesNode::First => Turn::Ask {
                lit: Lit { x: 0, y: 1, k: 0 },
                yes: TwoNamesNode::Second,
                no: TwoNamesNode::Kept,
            },
            TwoNamesNode::Second => Turn::Ask {
                lit: Lit {
                    x: 1,
                    y: 0,
                    k: if self.strict { -1 } else { 0 },
                },
                yes: TwoNamesNode::Broken,
                no: TwoNamesNode::Kept,
            },
            TwoNamesNode::Kept => Turn::Holds,
            TwoNamesNode::Broken => Turn::Fails(7),
        })
    }

    ghost fine = { λ a. elim [
      | First ↦ λ _. IsFine-two_name_plan a.strict
      | Second ↦ λ _. IsFine-second_plan a.strict
      | Kept ↦ λ _. record { literals = refl; paths = lit≤ tt }
      | Broken ↦ λ _. record { literals = refl; paths = lit≤ tt }
    ] };
}
