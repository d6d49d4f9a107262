//! What an operation becomes behind another one, and which pairs of operations are meant.
ghost use Rattle.std.specs.Prelude.{◌≡◌, ◌≢◌, ◌↔◌, ◌+ℤ◌, IsTrue, map};
ghost use Rattle.ot_model.specs.Operations.{kind_of, at_of};
ghost use Rattle.fn_rules.specs.Formulas.{of_side};
ghost use Rattle.fn_rules.specs.Functions.{case_of, IsForKind};
ghost use Rattle.fn_rules.specs.Validity.{is_valid_res, are_valid_cases};
ghost use Rattle.fn_rules.specs.Rules.{function_of};
ghost use Rattle.fn_rules.specs.Transformation.{result_of, first_result, transform_of, differ, Differ, is_allowed};
ghost use Rattle.fn_rules.specs.Transformation.{IsAllowed};
ghost use Rattle.fn_rules.specs.Conditions.{IsInRange, both_have_chars, is_integrable, IsIntegrable};

use crate::function::{Case, Res};
use crate::guard::Side;
use crate::rules::Rules;
use crate::truth::{holds, shifted};
use ot_model::{Op, enabled};

// The position of an operation, moved by an offset.
fn moved(op: &Op, k: i32) -> i64
    requires { IsInRange op.now }
    ensures { result ≡ at_of op.now +ℤ k }
{
    shifted(op.position(), k)
}

fn give(res: &Res, a: &Op, b: &Op) -> Op
    requires a_in_range { IsInRange a.now }
    requires b_in_range { IsInRange b.now }
    ensures { result ≡ result_of res.now a.now b.now }
{
    match *res {
        Res::Keep { base, k } => match base {
            Side::First => a.placed(moved(a, k)),
            Side::Second => a.placed(moved(b, k)),
        },
        Res::Nop => Op::Nop,
    }
}

// The result of the first case whose guard is true.
fn first_of(cases: &[Case], a: &Op, b: &Op) -> Option<Op>
    requires a_in_range { IsInRange a.now }
    requires b_in_range { IsInRange b.now }
    requires a_acts { a.now ≢ Op.Nop }
    requires b_acts { b.now ≢ Op.Nop }
    requires valid { IsTrue (are_valid_cases (both_have_chars a.now b.now) (map case_of cases.now)) }
    ensures { result ≡ first_result (map case_of cases.now) a.now b.now }
{
    for case in cases {
        if holds(&case.guard, a, b) {
            return Some(give(&case.res, a, b));
        }
    }
    None
}

/// What `a` becomes where `b`, made on the same document, was executed before it. None where no case
/// of their block has a true guard.
pub fn transform(rules: &Rules, a: &Op, b: &Op) -> Option<Op>
    requires a_declared { IsForKind (function_of rules.now).head (kind_of a.now) }
    requires b_declared { IsForKind (function_of rules.now).head (kind_of b.now) }
    requires a_in_range { IsInRange a.now }
    requires b_in_range { IsInRange b.now }
    ensures { result ≡ transform_of (function_of rules.now) a.now b.now }
{
    match a.kind() {
        None => Some(Op::Nop),
        Some(first) => match b.kind() {
            None => Some(*a),
            Some(second) => first_of(rules.cases(first, second), a, b),
        },
    }
}

// Whether the two are not both there, or differ.
fn differ(x: Option<u32>, y: Option<u32>) -> bool
    ensures test { result ≡ differ x y }
    ensures fact { IsTrue result ↔ Differ x y }
{
    match x {
        None => true,
        Some(p) => match y {
            None => true,
            Some(q) => p != q,
        },
    }
}

/// Whether the two operations differ in what the function assumes to differ.
pub fn allowed(rules: &Rules, a: &Op, b: &Op) -> bool
    ensures test { result ≡ is_allowed (function_of rules.now) a.now b.now }
    ensures fact { IsTrue result ↔ IsAllowed (function_of rules.now) a.now b.now }
{
    let head = rules.head();
    (!head.sites_differ || differ(a.site(), b.site()))
        && (!head.chars_differ || differ(a.ch().map(u32::from), b.ch().map(u32::from)))
}

/// Whether the operation may be integrated into a document of so many cells: it is nop or of a kind that
/// the function transforms, and it is enabled there.
pub fn is_integrable(rules: &Rules, cells: usize, op: &Op) -> bool
    ensures test { result ≡ is_integrable (function_of rules.now) cells op.now }
    ensures fact { IsTrue result ↔ IsIntegrable (function_of rules.now) cells op.now }
{
    rules.head().admits(op) && enabled(op, cells)
}
