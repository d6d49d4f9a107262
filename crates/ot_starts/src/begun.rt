//! What a start of an obligation is.
use fn_rules::ObName;
use ot_terms::SymOp;
use plain_list::List;
use std::marker::Model;

/// What was done where a transformation begins: the obligation, its operations, and the results so far. Only contracts
/// speak of its values.
#[derive(Drop)]
pub struct Begun {
    ob: ObName,
    ops: List<SymOp>,
    got: List<SymOp>,
}

impl Model for Begun {
    ghost use Rattle.start_laws.specs.Starts.{Start};

    ghost Value = { Start };

    ghost view = { λ s. record { ob = s.ob; ops = s.ops; got = s.got } };
}
