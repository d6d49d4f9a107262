//! Operations on their way between the clients and the server.
ghost use Rattle.std.specs.Prelude.{◌≡◌, ◌∷◌, [], ◌++◌, length, slice_get, ◌↔◌, Some, IsTrue, IfOk, OnOk, OnErr};
ghost use Rattle.ot_model.specs.Operations.{kind_of, site_of};
ghost use Rattle.fn_rules.specs.Functions.{HasDeclaredKind};
ghost use Rattle.ot_model.specs.Effect.{IsEnabled, document_after};
ghost use Rattle.fn_rules.specs.Rules.{function_of};

use fn_rules::Rules;
use ot_model::{Apply, Doc, NoMemory, Op, apply};
use plain_list::List;

/// An operation with a place of the log, counted from 0: for an entry that the server keeps for a client,
/// its own place; for what a client made, the place of the first entry that it had not received then.
#[derive(Clone, Copy)]
pub struct PlacedOp {
    pub place: u32,
    pub op: Op,
}

/// An entry of the log: whose operation it was, and what the server executed.
#[derive(Clone, Copy)]
pub struct Entry {
    pub client: u32,
    pub op: Op,
}

/// The list with an item more at its end, in its own memory.
pub(crate) fn pushed<T: Copy>(list: &List<T>, item: T) -> Result<List<T>, NoMemory>
    ensures { IfOk result (λ longer. longer ≡ list.now ++ item ∷ []) }
{
    let mut longer = list.try_clone()?;
    longer.push(item)?;
    Ok(longer)
}

/// Executes an operation that is enabled on a document, which is as it was where there is no memory.
pub(crate) fn execute(rules: &Rules, op: Op, doc: &mut Doc) -> Result<(), NoMemory>
    requires { IsEnabled op (length doc.old) }
    ensures ok { OnOk result (doc.new ≡ document_after (function_of rules.now).head.mode op doc.old) }
    ensures err { OnErr result (doc.new ≡ doc.old) }
{
    match apply(rules.head().mode, &op, doc) {
        Ok(()) => Ok(()),
        Err(Apply::NoMemory) => Err(NoMemory),
        Err(Apply::NotEnabled) => unreachable!(),
    }
}

/// The first of a list, if there is one.
pub(crate) fn first_of(list: &List<PlacedOp>) -> Option<PlacedOp>
    ensures { result ≡ slice_get list.now 0 }
{
    list.as_slice().first().copied()
}

/// The entry of the log at a place, if there is one.
pub(crate) fn entry_at(log: &List<Entry>, place: u32) -> Option<Entry>
    ensures { result ≡ slice_get log.now place }
{
    log.as_slice().get(place as usize).copied()
}

/// Whether the client made the operation, which none did of nop.
pub(crate) fn is_made_at(client: u32, op: &Op) -> bool
    ensures { IsTrue result ↔ (site_of op.now ≡ Some client) }
{
    match op.site() {
        Some(own) => own == client,
        None => false,
    }
}

/// Whether the function is for operations of this kind, which nop has not.
pub(crate) fn has_declared_kind(rules: &Rules, op: &Op) -> bool
    ensures { IsTrue result ↔ HasDeclaredKind (function_of rules.now).head (kind_of op.now) }
{
    match op.kind() {
        Some(kind) => rules.head().declares(kind),
        None => false,
    }
}
