//! The question whether a document is short, which is asked before an obligation.
ghost use Rattle.std.specs.Prelude.{◌≡◌, ◌≤◌, pos, ◌-ℤ◌, Some, IfSome, IsTrue};
ghost use Rattle.fn_rules.specs.declared.function.ObName.{ObName};
ghost use Rattle.fn_rules.specs.Functions.{Function};
ghost use Rattle.ask_core.specs.Askers.{is_fine_literal};
ghost use Rattle.ask_core.specs.Plans.{premised};
ghost use Rattle.ot_questions.specs.Names.{name_count};
ghost use Rattle.ot_questions.specs.Obligation.{plan_below, plan_of};
ghost use Rattle.ot_sections.specs.Stands.{plan_behind};

use diff_graph::Lit;
use ot_questions::{LENGTH, ZERO};

/// The greatest bound of the lengths that a plan may ask for.
pub const MAX_BOUND: u32 = 1_000;

// The literal, as the definition of the plan has it.
fn literal_below(bound: u32) -> Lit
    requires { bound ≤ MAX_BOUND }
    ensures { result ≡ record { x = 1; y = 0; k = pos bound -ℤ pos 1 } }
{
    Lit {
        x: LENGTH,
        y: ZERO,
        k: bound as i32 - 1,
    }
}

// The literal that a document has fewer cells than the bound.
fn shorter_than(bound: u32) -> Lit
    requires { bound ≤ MAX_BOUND }
    ensures plan { (f : Function) (ob : ObName) → premised result (plan_of f ob) ≡ plan_below f (Some bound) ob }
    ensures fine { (ob : ObName) → IsTrue (is_fine_literal (name_count ob) result) }
{
    literal_below(bound)
}

/// The literal that a document has fewer cells than the bound, if there is one.
pub fn premise_below(below: Option<u32>) -> Option<Lit>
    requires { IfSome below (λ bound. bound ≤ MAX_BOUND) }
    ensures plan { (f : Function) (ob : ObName) → plan_behind result (plan_of f ob) ≡ plan_below f below ob }
    ensures fine { (ob : ObName) → IfSome result (λ lit. IsTrue (is_fine_literal (name_count ob) lit)) }
{
    match below {
        None => None,
        Some(bound) => Some(shorter_than(bound)),
    }
}
