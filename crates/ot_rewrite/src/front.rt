//! Goals that are held by value at their front.
ghost use Rattle.std.specs.Prelude.{◌≡◌, Some, IfOk, option_map};
ghost use Rattle.ot_terms.specs.Cells.{cell_tree};
ghost use Rattle.ot_terms.specs.Forms.{form_tree};
ghost use Rattle.ot_terms.specs.Goals as trees;
ghost use Rattle.ot_terms.specs.Goals.{GoalTree, goal_tree};
ghost use Rattle.ot_rewrite.specs.Steps.{front_tree};

use ask_core::NoMemory;
use bumpalo::Bump;
use ot_terms::{CellT, Form, Goal, GoalProgress, Operands, SymOp, Why, placed};

/// A goal whose first parts are values: what is rewritten next is not in an arena.
#[derive(Clone, Copy)]
pub enum Front<'a> {
    Holds,
    Fails(Why),

    /// One of two goals, by a form.
    If {
        form: Form<'a>,
        yes: &'a Goal<'a>,
        no: &'a Goal<'a>,
    },

    /// What the first operation becomes behind the second, by the cases from `case` on, is the next result.
    Choose {
        case: u32,
        ops: &'a Operands,
        progress: &'a GoalProgress,
    },

    /// The operation is the next result.
    Deliver {
        op: SymOp,
        progress: &'a GoalProgress,
    },

    /// The two cells are the same for every document that both ways may come from.
    Same {
        left: CellT<'a>,
        right: CellT<'a>,
    },
}

/// The outcome of a rule, as one that fits.
#[inline(always)]
pub(crate) fn fitting<'a>(
    outcome: Result<Front<'a>, NoMemory>,
) -> Result<Option<Front<'a>>, NoMemory>
    ensures { (g : GoalTree) → IfOk outcome.entry (λ r. front_tree r ≡ g)
        → IfOk result (λ r. option_map front_tree r ≡ Some g) }
{
    Ok(Some(outcome?))
}

// The comparison, with both cells in the arena.
#[inline]
fn same<'a>(bump: &'a Bump, left: CellT<'a>, right: CellT<'a>) -> Result<Goal<'a>, NoMemory>
    ensures { IfOk result (λ r. goal_tree r ≡ trees.Same (cell_tree left.entry) (cell_tree right.entry)) }
{
    Ok(Goal::Same {
        left: placed(bump, left)?,
        right: placed(bump, right)?,
    })
}

impl<'a> Front<'a> {
    /// The goal, held at its front.
    #[inline(always)]
    pub fn of(goal: &Goal<'a>) -> Front<'a>
        ensures { front_tree result ≡ goal_tree goal.now }
    {
        match *goal {
            Goal::Holds => Front::Holds,
            Goal::Fails(why) => Front::Fails(why),
            Goal::Ask { order, yes, no } => Front::If {
                form: order.form(),
                yes,
                no,
            },
            Goal::If { form, yes, no } => Front::If {
                form: *form,
                yes,
                no,
            },
            Goal::Choose {
                case,
                ops,
                plan: progress,
            } => Front::Choose {
                case,
                ops,
                progress,
            },
            Goal::Deliver { op, plan: progress } => Front::Deliver { op, progress },
            Goal::Same { left, right } => Front::Same {
                left: *left,
                right: *right,
            },
        }
    }

    /// The goal, with the cells of a comparison in the arena, and a form that is not the order of two places.
    #[inline]
    pub fn goal(self, bump: &'a Bump) -> Result<Goal<'a>, NoMemory>
        ensures { IfOk result (λ r. goal_tree r ≡ front_tree self.entry) }
    {
        match self {
            Front::Holds => Ok(Goal::Holds),
            Front::Fails(why) => Ok(Goal::Fails(why)),
            Front::If { form, yes, no } => Goal::branch(bump, form, yes, no),
            Front::Choose {
                case,
                ops,
                progress,
            } => Ok(Goal::Choose {
                case,
                ops,
                plan: progress,
            }),
            Front::Deliver { op, progress } => Ok(Goal::Deliver { op, plan: progress }),
            Front::Same { left, right } => same(bump, left, right),
        }
    }

    /// One of two goals, by a form.
    pub(crate) fn either(
        bump: &'a Bump,
        form: &'a Form<'a>,
        yes: Goal<'a>,
        no: Goal<'a>,
    ) -> Result<Front<'a>, NoMemory>
        ensures { IfOk result (λ r. front_tree r
            ≡ trees.If (form_tree form.now) (goal_tree yes.entry) (goal_tree no.entry)) }
    {
        Ok(Front::If {
            form: *form,
            yes: placed(bump, yes)?,
            no: placed(bump, no)?,
        })
    }

    /// The goal, in the arena.
    pub fn placed(self, bump: &'a Bump) -> Result<&'a Goal<'a>, NoMemory>
        ensures { IfOk result (λ r. goal_tree r.now ≡ front_tree self.entry) }
    {
        placed(bump, self.goal(bump)?)
    }
}
