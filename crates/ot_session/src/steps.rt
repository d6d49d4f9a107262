//! What is done to the parts of a session.
ghost use Rattle.std.specs.Prelude.{◌≡◌, ◌↔◌, ◌<◌, ℕ, Some, IsTrue, length, IfOk, IfSome, OnOk, OnErr, slice_get, map};
ghost use Rattle.std.specs.List.{AllByRecursion};
ghost use Rattle.ot_model.specs.Effect.{IsEnabled};
ghost use Rattle.ot_model.specs.Operations.{kind_of, site_of};
ghost use Rattle.fn_rules.specs.Functions.{HasDeclaredKind};
ghost use Rattle.fn_rules.specs.Rules.{function_of};
ghost use Rattle.ot_session.specs.Sites.{view_site, IsFresh, IsMarked, IsSorted, ExecutesAt};
ghost use Rattle.ot_session.specs.declared.limits.TheConstants.{MAX_MADE};

use crate::made::Made;
use crate::site::Site;
use fn_rules::Rules;
use ot_model::{Apply, Doc, Mode, NoMemory, Op};
use std::alloc::{AllocError, Global};

/// Some sites that hold the document.
pub(crate) fn fresh_sites(alloc: Global, doc: &Doc, sites: u32) -> Result<Vec<Site>, AllocError>
    ensures count { IfOk result (λ list. length list.items ≡ sites) }
    ensures fresh { IfOk result (λ list. AllByRecursion (IsFresh doc.now) list.items) }
{
    let mut list = Vec::new(alloc);
    while list.len() < sites as usize {
        list.push(Site::new(alloc, doc)?)?;
    }
    Ok(list)
}

/// Executes an operation at the site at a place; it gets the next number.
pub(crate) fn execute_at(
    mode: Mode,
    made: &mut Vec<Made>,
    sites: &mut [Site],
    place: usize,
    op: Op,
) -> Result<u32, NoMemory>
    requires place { place < length sites.old }
    requires few { length made.old.items < MAX_MADE }
    requires room { ∥ AllByRecursion IsMarked sites.old ∥₁ }
    requires enabled { IfSome (slice_get sites.old place) (λ site. IsEnabled op (length site.doc)) }
    ensures number { IfOk result (λ number. number ≡ length made.old.items) }
    ensures ok { OnOk result (ExecutesAt mode op place made.old.items made.new.items sites.old sites.new) }
    ensures made { OnErr result (made.new.items ≡ made.old.items) }
    ensures sites { OnErr result (map view_site sites.new ≡ map view_site sites.old) }
    ensures sorted { OnErr result ((n : ℕ) → AllByRecursion (IsSorted n) sites.old
        → AllByRecursion (IsSorted n) sites.new) }
{
    let number = made.len() as u32;
    made.reserve(1)?;
    let site = &mut sites[place];
    let known = site.integrated.try_clone()?;
    match site.execute(mode, number, &op) {
        Ok(()) => {
            made.push_reserved(Made { op, known });
            Ok(number)
        }
        Err(Apply::NoMemory) => Err(NoMemory),
        Err(Apply::NotEnabled) => unreachable!(),
    }
}

/// Whether the site made the operation, which none did of nop.
pub(crate) fn is_made_at(site: u32, op: &Op) -> bool
    ensures { IsTrue result ↔ (site_of op.now ≡ Some site) }
{
    match op.site() {
        Some(own) => own == site,
        None => false,
    }
}

/// Whether the function is for operations of this kind, which nop has not.
pub(crate) fn has_declared_kind(rules: &Rules, op: &Op) -> bool
    ensures { IsTrue result ↔ HasDeclaredKind (function_of rules.now).head (kind_of op.now) }
{
    match op.kind() {
        Some(kind) => rules.head().declares(kind),
        None => false,
    }
}
