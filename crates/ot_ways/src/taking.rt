//! The case that a transformation takes.
ghost use Rattle.std.specs.Prelude.{◌≡◌, ◌≢◌, IsTrue, IfNone, IfSome, map};
ghost use Rattle.ot_model.specs.Operations.{kind_of};
ghost use Rattle.fn_rules.specs.Conditions.{IsInRange, both_have_chars};
ghost use Rattle.fn_rules.specs.Functions.{case_of, IsForKind};
ghost use Rattle.fn_rules.specs.Rules.{function_of};
ghost use Rattle.fn_rules.specs.Validity.{are_valid_cases};
ghost use Rattle.ot_ways.specs.Taken as takes;
ghost use Rattle.ot_ways.specs.Taken.{taken_of, AreAllFalse, IsTaken};

use crate::taken_case::Taken;
use fn_rules::{Case, Rules, holds};
use ot_model::Op;

// The number of the first case whose guard is true.
fn first_true(cases: &[Case], a: &Op, b: &Op) -> Option<usize>
    requires a_in_range { IsInRange a.now }
    requires b_in_range { IsInRange b.now }
    requires a_acts { a.now ≢ Op.Nop }
    requires b_acts { b.now ≢ Op.Nop }
    requires valid { IsTrue (are_valid_cases (both_have_chars a.now b.now) (map case_of cases.now)) }
    ensures { result ≡ takes.first_true 0 (map case_of cases.now) a.now b.now }
{
    for (number, case) in cases.iter().enumerate() {
        if holds(&case.guard, a, b) {
            return Some(number);
        }
    }
    None
}

// The case that is taken, by the kinds of the two operations.
fn taken_case(rules: &Rules, a: &Op, b: &Op) -> Option<Taken>
    requires a_declared { IsForKind (function_of rules.now).head (kind_of a.now) }
    requires b_declared { IsForKind (function_of rules.now).head (kind_of b.now) }
    requires a_in_range { IsInRange a.now }
    requires b_in_range { IsInRange b.now }
    ensures { result ≡ taken_of (function_of rules.now) a.now b.now }
{
    match a.kind() {
        None => None,
        Some(first) => match b.kind() {
            None => None,
            Some(second) => {
                let number = first_true(rules.cases(first, second), a, b)?;
                Some(Taken {
                    first,
                    second,
                    number,
                })
            }
        },
    }
}

/// The case that the transformation of `a` against `b` takes: the first of their block whose guard is true. None where
/// no guard is, and where one of the two is nop, which asks for no case.
pub fn taken(rules: &Rules, a: &Op, b: &Op) -> Option<Taken>
    requires a_declared { IsForKind (function_of rules.now).head (kind_of a.now) }
    requires b_declared { IsForKind (function_of rules.now).head (kind_of b.now) }
    requires a_in_range { IsInRange a.now }
    requires b_in_range { IsInRange b.now }
    ensures taken { result ≡ taken_of (function_of rules.now) a.now b.now }

    // It is the case by which the interpreter gets its result; where it is none, no guard is true.
    ensures some { IfSome result (IsTaken (function_of rules.now) a.now b.now) }
    ensures none { IfNone result (AreAllFalse (function_of rules.now) a.now b.now) }
{
    taken_case(rules, a, b)
}
