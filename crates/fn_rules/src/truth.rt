//! The truth of guards.
ghost use Rattle.std.specs.Prelude.{◌≡◌, ◌≢◌, pos, ◌+ℤ◌, ◌≤ℤ◌};
ghost use Rattle.fn_rules.specs.Formulas.{formula_of, is_compared, thing_of, atom_holds, holds_of};
ghost use Rattle.fn_rules.specs.Conditions.{IsInRange, IsReadyFor};

use crate::guard::{Atom, Cmp, Guard, Side, Sort};
use ot_model::Op;

// What an atom compares; 0 where the operation has no such thing.
fn thing(sort: Sort, op: &Op) -> i64
    requires { IsInRange op.now }
    ensures thing { result ≡ thing_of sort op.now }
    ensures least { pos 0 ≤ℤ (result +ℤ pos 1099511627776) }
    ensures most { result ≤ℤ pos 1099511627776 }
{
    match sort {
        Sort::Pos => op.position(),
        Sort::Site => op.site().map_or(0, i64::from),
        Sort::Char => op.ch().map_or(0, |ch| i64::from(u32::from(ch))),
    }
}

// A thing plus an offset.
pub(crate) fn shifted(y: i64, k: i32) -> i64
    requires least { pos 0 ≤ℤ (y +ℤ pos 1099511627776) }
    requires most { y ≤ℤ pos 1099511627776 }
    ensures { result ≡ y +ℤ k }
{
    y + i64::from(k)
}

fn compare(cmp: Cmp, x: i64, y: i64) -> bool
    ensures { result ≡ is_compared cmp x y }
{
    match cmp {
        Cmp::Lt => x < y,
        Cmp::Le => x <= y,
        Cmp::Eq => x == y,
    }
}

fn is_true_at(atom: &Atom, a: &Op, b: &Op) -> bool
    requires a_in_range { IsInRange a.now }
    requires b_in_range { IsInRange b.now }
    ensures { result ≡ atom_holds atom.now a.now b.now }
{
    match atom.left {
        Side::First => compare_things(atom, a, b),
        Side::Second => compare_things(atom, b, a),
    }
}

fn compare_things(atom: &Atom, left: &Op, right: &Op) -> bool
    requires left_in_range { IsInRange left.now }
    requires right_in_range { IsInRange right.now }
    ensures { result ≡ is_compared atom.now.cmp (thing_of atom.now.sort left.now)
        (thing_of atom.now.sort right.now +ℤ atom.now.k) }
{
    let x = thing(atom.sort, left);
    let y = thing(atom.sort, right);
    compare(atom.cmp, x, shifted(y, atom.k))
}

/// Whether the guard is true at two operations.
pub fn holds(guard: &Guard, a: &Op, b: &Op) -> bool
    requires a_in_range { IsInRange a.now }
    requires b_in_range { IsInRange b.now }
    requires a_acts { a.now ≢ Op.Nop }
    requires b_acts { b.now ≢ Op.Nop }
    requires chars { IsReadyFor (formula_of guard.now) a.now b.now }
    ensures { result ≡ holds_of (formula_of guard.now) a.now b.now }
{
    match guard {
        Guard::True => true,
        Guard::Atom(atom) => is_true_at(atom, a, b),
        Guard::And(g, h) => holds(g, a, b) && holds(h, a, b),
        Guard::Or(g, h) => holds(g, a, b) || holds(h, a, b),
        Guard::Not(g) => !holds(g, a, b),
    }
}
