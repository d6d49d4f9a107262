//! The tests that the parts of a case have to pass.
ghost use Rattle.std.specs.Prelude.{◌≡◌, ◌≤◌, ◌+◌, ◌<◌, length};
ghost use Rattle.ot_model.specs.Operations.{kind_of};
ghost use Rattle.fn_rules.specs.Functions.{has_declared_kind};
ghost use Rattle.fn_rules.specs.Orders.{names_below, names_each_once};
ghost use Rattle.fn_rules.specs.Rules.{function_of};
ghost use Rattle.case_json.specs.Tests.{first_fault, operation_fault, pair_fault, pairs_fault, order_fault};
ghost use Rattle.case_json.specs.Tests.{case_fault_of as first_fault_of};

use crate::fault::CaseFault;
use crate::limits::MAX_ORDERS;
use crate::trial::Trial;
use fn_rules::{Rules, allowed};
use ot_model::{MAX_OPERATIONS, Op, enabled};
use plain_list::List;

/// The first fault of a trial: of its operations one by one, of its pairs, of its orders.
pub(crate) fn fault_of(rules: &Rules, trial: &Trial) -> Option<CaseFault>
    requires ops { length trial.now.ops ≤ MAX_OPERATIONS }
    requires orders { length trial.now.orders ≤ MAX_ORDERS }
    ensures { result ≡ first_fault_of (function_of rules.now) trial.now }
{
    let ops = trial.ops.as_slice();
    let fault = fault_of_ops(rules, trial.doc.len(), ops);
    if fault.is_some() {
        return fault;
    }
    let fault = fault_of_pairs(rules, ops);
    if fault.is_some() {
        return fault;
    }
    fault_of_orders(ops.len(), trial.orders.as_slice())
}

fn fault_of_ops(rules: &Rules, cells: usize, ops: &[Op]) -> Option<CaseFault>
    requires { length ops.now ≤ MAX_OPERATIONS }
    ensures { result ≡ first_fault (operation_fault (function_of rules.now) cells) 0 ops.now }
{
    for (i, op) in ops.iter().enumerate() {
        let fault = fault_of_op(rules, cells, i as u32, op);
        if fault.is_some() {
            return fault;
        }
    }
    None
}

fn fault_of_op(rules: &Rules, cells: usize, i: u32, op: &Op) -> Option<CaseFault>
    ensures { result ≡ operation_fault (function_of rules.now) cells i op.now }
{
    if !is_declared(rules, op) {
        return Some(CaseFault::Kind(i));
    }
    if !enabled(op, cells) {
        return Some(CaseFault::Enabled(i));
    }
    None
}

fn is_declared(rules: &Rules, op: &Op) -> bool
    ensures { result ≡ has_declared_kind (function_of rules.now).head (kind_of op.now) }
{
    match op.kind() {
        Some(kind) => rules.head().declares(kind),
        None => false,
    }
}

fn fault_of_pairs(rules: &Rules, ops: &[Op]) -> Option<CaseFault>
    requires { length ops.now ≤ MAX_OPERATIONS }
    ensures { result ≡ pairs_fault (function_of rules.now) 0 ops.now }
{
    for (i, op) in ops.iter().enumerate() {
        let fault = fault_behind(rules, i as u32, op, &ops[i + 1..]);
        if fault.is_some() {
            return fault;
        }
    }
    None
}

/// The first fault of an operation with each of those behind it.
fn fault_behind(rules: &Rules, i: u32, op: &Op, others: &[Op]) -> Option<CaseFault>
    requires number { i < MAX_OPERATIONS }
    requires others { length others.now ≤ MAX_OPERATIONS }
    ensures { result ≡ first_fault (pair_fault (function_of rules.now) i op.now) (i + 1) others.now }
{
    for (n, other) in others.iter().enumerate() {
        let fault = fault_of_pair(rules, i, op, i + 1 + n as u32, other);
        if fault.is_some() {
            return fault;
        }
    }
    None
}

fn fault_of_pair(rules: &Rules, i: u32, a: &Op, j: u32, b: &Op) -> Option<CaseFault>
    ensures { result ≡ pair_fault (function_of rules.now) i a.now j b.now }
{
    if allowed(rules, a, b) {
        None
    } else {
        Some(CaseFault::Pair(i, j))
    }
}

fn fault_of_orders(count: usize, orders: &[List<u32>]) -> Option<CaseFault>
    requires count { count ≤ MAX_OPERATIONS }
    requires orders { length orders.now ≤ MAX_ORDERS }
    ensures { result ≡ first_fault (order_fault count) 0 orders.now }
{
    for (i, order) in orders.iter().enumerate() {
        let fault = fault_of_order(count, i as u32, order.as_slice());
        if fault.is_some() {
            return fault;
        }
    }
    None
}

fn fault_of_order(count: usize, i: u32, order: &[u32]) -> Option<CaseFault>
    requires { count ≤ MAX_OPERATIONS }
    ensures { result ≡ order_fault count i order.now }
{
    if names_each(count, order) {
        None
    } else {
        Some(CaseFault::Order(i))
    }
}

/// Whether the order names each of so many operations once.
fn names_each(count: usize, order: &[u32]) -> bool
    requires { count ≤ MAX_OPERATIONS }
    ensures { result ≡ names_each_once count order.now }
{
    order.len() == count && names_all_below(count, order)
}

fn names_all_below(count: usize, order: &[u32]) -> bool
    requires { count ≤ MAX_OPERATIONS }
    ensures { result ≡ names_below count order.now }
{
    for i in 0..count {
        if !order.contains(&(i as u32)) {
            return false;
        }
    }
    true
}
