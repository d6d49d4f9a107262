//! What a trace has to do with the integration. This function works nothing out: its contract is the law.
ghost use Rattle.std.specs.Prelude.{◌≡◌, ℕ, List};
ghost use Rattle.ot_model.specs.declared.cell.Cell.{Cell};
ghost use Rattle.ot_model.specs.declared.op.Op.{Op};
ghost use Rattle.fn_rules.specs.Functions.{Function};
ghost use Rattle.fn_rules.specs.Orders.{integrated};
ghost use Rattle.ot_trace.specs.Orders.{ends_with, order_trace};

/// What is told of the operations of an order ends as the order is integrated: with its document, or stuck at its place.
pub fn traces_end_as_integrated()
    ensures { (f : Function) (d : List Cell) (ops : List Op) (order : List ℕ)
        → ends_with 0 d (order_trace f d ops order) ≡ integrated f d ops order }
{}
