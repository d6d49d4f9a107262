//! Laws of carrying, and of hubs. Each is the contract of a function that works nothing out.
ghost use Rattle.std.specs.Prelude.{◌≡◌, ℕ, false, List, length};
ghost use Rattle.ot_model.specs.declared.cell.Cell.{Cell};
ghost use Rattle.ot_model.specs.declared.op.Op.{Op};
ghost use Rattle.fn_rules.specs.Functions.{Function};
ghost use Rattle.fn_rules.specs.Conditions.{IsIntegrable};
ghost use Rattle.fn_rules.specs.Properties.{HasTp1};
ghost use Rattle.ot_hub.specs.Chains.{IsChain, IsAllowedWith, CarriesAcross};
ghost use Rattle.ot_hub.specs.Theorem.{FollowsLog, KeepsLog, LeadTo};
ghost use Rattle.ot_hub.specs.Views.{HubData, begun_hub};
ghost use Rattle.ot_hub.specs.declared.placed.PlacedOp.{PlacedOp};

use fn_rules::{functions_keep_forms, tp1_holds_of_forms, transform_keeps_all_but_the_position};

/// Where a function has the first property, an operation can be carried over each list of operations that
/// can be executed on its document and that it may be with, and both ways lead to one document.
pub fn tp1_carries_across()
    ensures { (f : Function) → HasTp1 f → (d : List Cell) (o : Op) (list : List PlacedOp) → IsIntegrable f (length d) o
        → IsChain f d list
        → IsAllowedWith f o list → CarriesAcross f d o list }
{
    functions_keep_forms();
    tp1_holds_of_forms();
}

/// Of each hub to which calls lead from a new one: whatever the function, the server's document is the first one after
/// the log, and what is counted stays so; and where the function has the first property and characters need not differ,
/// each client's document is the first one after the entries that it received and then what is pending there.
pub fn hubs_follow_their_logs()
    ensures log { (f : Function) (d : List Cell) (clients : ℕ) (hubs : List HubData) (hub : HubData)
        → LeadTo (begun_hub f d clients) hubs hub → KeepsLog f d hub }
    ensures clients { (f : Function) (d : List Cell) (clients : ℕ) (hubs : List HubData) (hub : HubData)
        → LeadTo (begun_hub f d clients) hubs hub → HasTp1 f → f.head.chars_differ ≡ false → FollowsLog hub }
{
    functions_keep_forms();
    tp1_holds_of_forms();
    transform_keeps_all_but_the_position();
}
