//! Goals: what is left to be shown of an obligation.
ghost use Rattle.std.specs.Prelude.{◌≡◌, IfOk};
ghost use Rattle.ot_terms.specs.Cells.{cell_tree};
ghost use Rattle.ot_terms.specs.Forms as forms;
ghost use Rattle.ot_terms.specs.Forms.{form_tree};
ghost use Rattle.ot_terms.specs.Goals as trees;
ghost use Rattle.ot_terms.specs.Goals.{goal_tree, asked_form};

use crate::arena::placed;
use crate::cell::CellT;
use crate::form::Form;
use ask_core::NoMemory;
use bumpalo::Bump;
use fn_rules::ObName;
use ot_questions::{Place, SymOp, Why};

/// How far the transformations of an obligation have come.
#[derive(Clone, Copy)]
pub struct GoalProgress {
    pub ob: ObName,

    /// The operations that the obligation is about. A pair has nop in the third place.
    pub ops: [SymOp; 3],

    /// The results of the transformations, in the order in which they are asked for. Those behind the
    /// first `count` are of no account.
    pub got: [SymOp; 6],

    pub count: u8,
}

/// The operation that is transformed, and the one behind which it is.
#[derive(Clone, Copy)]
pub struct Operands {
    pub a: SymOp,
    pub b: SymOp,
}

/// Two places, of which it is asked whether the first is at most the second. They take less room than two `Place`.
#[derive(Clone, Copy)]
pub struct Order {
    x: u8,
    y: u8,
    x_off: i32,
    y_off: i32,
}

impl Order {
    #[inline(always)]
    pub fn of(x: Place, y: Place) -> Order
        ensures { asked_form result ≡ forms.Le x y }
    {
        Order {
            x: x.var,
            y: y.var,
            x_off: x.off,
            y_off: y.off,
        }
    }

    /// What is asked, as a form.
    #[inline(always)]
    pub fn form<'a>(self) -> Form<'a>
        ensures { form_tree result ≡ asked_form self }
    {
        Form::Le(
            Place {
                var: self.x,
                off: self.x_off,
            },
            Place {
                var: self.y,
                off: self.y_off,
            },
        )
    }
}

/// What is left to be shown. Most goals of an arena ask for the order of two places, so a goal has no more room than
/// these take, and the other parts of a goal stand outside it where they are greater.
#[derive(Clone, Copy)]
pub enum Goal<'a> {
    Holds,
    Fails(Why),

    /// One of two goals, by the order of two places.
    Ask {
        order: Order,
        yes: &'a Goal<'a>,
        no: &'a Goal<'a>,
    },

    /// One of two goals, by a form.
    If {
        form: &'a Form<'a>,
        yes: &'a Goal<'a>,
        no: &'a Goal<'a>,
    },

    /// What the first operation becomes behind the second, by the cases from `case` on, is the next result.
    Choose {
        case: u32,
        ops: &'a Operands,
        plan: &'a GoalProgress,
    },

    /// The operation is the next result.
    Deliver {
        op: SymOp,
        plan: &'a GoalProgress,
    },

    /// The two cells are the same for every document that both ways may come from.
    Same {
        left: &'a CellT<'a>,
        right: &'a CellT<'a>,
    },
}

impl<'a> Goal<'a> {
    pub fn holds(bump: &'a Bump) -> Result<&'a Goal<'a>, NoMemory>
        ensures { IfOk result (λ r. goal_tree r.now ≡ trees.Holds) }
    {
        placed(bump, Goal::Holds)
    }

    pub fn fails(bump: &'a Bump, why: Why) -> Result<&'a Goal<'a>, NoMemory>
        ensures { IfOk result (λ r. goal_tree r.now ≡ trees.Fails why) }
    {
        placed(bump, Goal::Fails(why))
    }

    /// One of two goals, where the first place is at most the second.
    #[inline(always)]
    pub fn ask(
        bump: &'a Bump,
        x: Place,
        y: Place,
        yes: &'a Goal<'a>,
        no: &'a Goal<'a>,
    ) -> Result<&'a Goal<'a>, NoMemory>
        ensures { IfOk result (λ r. goal_tree r.now ≡ trees.If (forms.Le x y) (goal_tree yes.now)
            (goal_tree no.now)) }
    {
        let order = Order::of(x, y);
        placed(bump, Goal::Ask { order, yes, no })
    }

    /// One of two goals, by a form, which is placed into the arena where it is not the order of two places.
    pub fn branch(
        bump: &'a Bump,
        form: Form<'a>,
        yes: &'a Goal<'a>,
        no: &'a Goal<'a>,
    ) -> Result<Goal<'a>, NoMemory>
        ensures { IfOk result (λ r. goal_tree r ≡ trees.If (form_tree form.entry) (goal_tree yes.now)
            (goal_tree no.now)) }
    {
        if let Form::Le(x, y) = form {
            let order = Order::of(x, y);
            return Ok(Goal::Ask { order, yes, no });
        }
        let form = placed(bump, form)?;
        Ok(Goal::If { form, yes, no })
    }

    pub fn either(
        bump: &'a Bump,
        form: Form<'a>,
        yes: &'a Goal<'a>,
        no: &'a Goal<'a>,
    ) -> Result<&'a Goal<'a>, NoMemory>
        ensures { IfOk result (λ r. goal_tree r.now ≡ trees.If (form_tree form.entry) (goal_tree yes.now)
            (goal_tree no.now)) }
    {
        placed(bump, Goal::branch(bump, form, yes, no)?)
    }

    pub fn choose(
        bump: &'a Bump,
        case: u32,
        ops: &'a Operands,
        progress: &'a GoalProgress,
    ) -> Result<&'a Goal<'a>, NoMemory>
        ensures { IfOk result (λ r. goal_tree r.now ≡ trees.Choose case ops.now.a ops.now.b progress.now) }
    {
        placed(
            bump,
            Goal::Choose {
                case,
                ops,
                plan: progress,
            },
        )
    }

    pub fn deliver(
        bump: &'a Bump,
        op: SymOp,
        progress: &'a GoalProgress,
    ) -> Result<&'a Goal<'a>, NoMemory>
        ensures { IfOk result (λ r. goal_tree r.now ≡ trees.Deliver op progress.now) }
    {
        placed(bump, Goal::Deliver { op, plan: progress })
    }

    pub fn same(
        bump: &'a Bump,
        left: &'a CellT<'a>,
        right: &'a CellT<'a>,
    ) -> Result<&'a Goal<'a>, NoMemory>
        ensures { IfOk result (λ r. goal_tree r.now ≡ trees.Same (cell_tree left.now) (cell_tree right.now)) }
    {
        placed(bump, Goal::Same { left, right })
    }
}
