//! Goals without parts, which stand outside of arenas.
ghost use Rattle.std.specs.Prelude.{◌≡◌};
ghost use Rattle.ot_terms.specs.Goals as trees;
ghost use Rattle.ot_terms.specs.Goals.{goal_tree};

use ot_terms::{Goal, Why};

static HOLDS: Goal<'static> = Goal::Holds;

static OUT_OF_RANGE: Goal<'static> = Goal::Fails(Why::OutOfRange);

static LENGTHS: Goal<'static> = Goal::Fails(Why::Lengths);

static OPERATIONS: Goal<'static> = Goal::Fails(Why::Operations);

pub(crate) fn holds<'a>() -> &'a Goal<'a>
    ensures { goal_tree result.now ≡ trees.Holds }
{
    &HOLDS
}

pub(crate) fn out_of_range<'a>() -> &'a Goal<'a>
    ensures { goal_tree result.now ≡ trees.Fails Why.OutOfRange }
{
    &OUT_OF_RANGE
}

pub(crate) fn lengths<'a>() -> &'a Goal<'a>
    ensures { goal_tree result.now ≡ trees.Fails Why.Lengths }
{
    &LENGTHS
}

pub(crate) fn operations<'a>() -> &'a Goal<'a>
    ensures { goal_tree result.now ≡ trees.Fails Why.Operations }
{
    &OPERATIONS
}
