//! How a site takes an operation.
ghost use Rattle.std.specs.Prelude.{◌≡◌, ◌≤◌, ◌<◌, ℕ, List, Ok, Err, IfOk, IfSome, OnOk, OnErr, None, length, reverse};
ghost use Rattle.std.specs.Prelude.{slice_get};
ghost use Rattle.std.specs.List.{AllByRecursion};
ghost use Rattle.fn_rules.specs.Rules.{function_of};
ghost use Rattle.ot_causal.specs.Past.{IsNext};
ghost use Rattle.ot_causal.specs.Counting.{counted};
ghost use Rattle.ot_session.specs.declared.limits.TheConstants.{MAX_MADE, MAX_FORMS};
ghost use Rattle.ot_session.specs.declared.form.FormError.TheVariants.{NoForm, Spent};
ghost use Rattle.ot_session.specs.Past.{is_marked, past_of};
ghost use Rattle.ot_session.specs.Seeking.{IsCountSpent, count_behind};
ghost use Rattle.ot_session.specs.Sites.{view_site, IsSameSite, IsSorted, CanTake};
ghost use Rattle.ot_session.specs.Taking.{standing, IsKnown, HasAllBefore, HasIntegrated, IsStuck, Takes};
ghost use Rattle.ot_session.specs.Taking.{TakesAtPlace, IsDueByMarks, IsLeastByMarks};

use crate::answer::{Take, Took};
use crate::form::{FormError, Seeking, counts_of, form_behind};
use crate::limits::{MAX_FORMS, MAX_MADE};
use crate::made::{Made, is_marked, knows_all};
use crate::site::Site;
use fn_rules::Rules;
use ot_causal::{
    counted_forms_need_not_be_sought, forms_are_sought_before_they_are_made, members_were_made,
    sublists_are_told_by_their_sets,
};
use ot_model::{Apply, enabled};
use plain_list::List;
use std::alloc::{AllocError, Global};

/// Takes an operation at the site at a place. Of the forms of the whole session so many were counted as `total` says.
pub(crate) fn take_at(
    alloc: Global,
    rules: &Rules,
    made: &[Made],
    sites: &mut [Site],
    total: &mut u64,
    place: usize,
    number: u32,
) -> Result<Took, Take>
    requires place { place < length sites.old }
    requires made { number < length made.now }
    requires few { length made.now ≤ MAX_MADE }
    requires can { ∥ AllByRecursion (CanTake (function_of rules.now) (past_of made.now)) sites.old ∥₁ }
    requires total { IfSome (slice_get sites.old place)
        (λ site. length (counted (past_of made.now) (reverse site.seen.items)) ≤ total.old) }
    requires within { total.old ≤ MAX_FORMS }
    ensures takes { TakesAtPlace (function_of rules.now) (past_of made.now) place number sites.old sites.new total.old
        total.new result }
    ensures sorted { ∥ AllByRecursion (IsSorted (length made.now)) sites.new ∥₁ }
    ensures can { OnOk result (∥ AllByRecursion (CanTake (function_of rules.now) (past_of made.now)) sites.new ∥₁) }
    ensures within { total.new ≤ MAX_FORMS }
    ensures more { total.old ≤ total.new }
{
    take_here(alloc, rules, made, &mut sites[place], total, number)
}

fn take_here(
    alloc: Global,
    rules: &Rules,
    made: &[Made],
    site: &mut Site,
    total: &mut u64,
    number: u32,
) -> Result<Took, Take>
    requires made { number < length made.now }
    requires few { length made.now ≤ MAX_MADE }
    requires can { ∥ CanTake (function_of rules.now) (past_of made.now) site.old ∥₁ }
    requires total { length (counted (past_of made.now) (reverse site.old.seen.items)) ≤ total.old }
    requires within { total.old ≤ MAX_FORMS }
    ensures takes { Takes (function_of rules.now) (past_of made.now) number (standing site.old total.old)
        (standing site.new total.new) result }
    ensures sorted { ∥ IsSorted (length made.now) site.new ∥₁ }
    ensures can { OnOk result (∥ CanTake (function_of rules.now) (past_of made.now) site.new ∥₁) }
    ensures within { total.new ≤ MAX_FORMS }
    ensures more { total.old ≤ total.new }
{
    if is_marked(site.integrated.as_slice(), number as usize) {
        return Ok(Took::Repeat);
    }
    if is_marked(site.held.as_slice(), number as usize) {
        return Ok(Took::Repeat);
    }
    if !knows_all(made, site.integrated.as_slice(), number) {
        site.held.set(number as usize, true);
        return Ok(Took::Held);
    }
    integrate_all(alloc, rules, made, site, total, number)
}

/// Integrates an operation, and then, again and again, the least of those held that are due.
fn integrate_all(
    alloc: Global,
    rules: &Rules,
    made: &[Made],
    site: &mut Site,
    total: &mut u64,
    number: u32,
) -> Result<Took, Take>
    requires made { number < length made.now }
    requires few { length made.now ≤ MAX_MADE }
    requires can { ∥ CanTake (function_of rules.now) (past_of made.now) site.old ∥₁ }
    requires total { length (counted (past_of made.now) (reverse site.old.seen.items)) ≤ total.old }
    requires within { total.old ≤ MAX_FORMS }
    requires unknown { ¬ (IsKnown (view_site site.old) number) }
    requires ready { HasAllBefore (past_of made.now) (view_site site.old) number }
    ensures takes { Takes (function_of rules.now) (past_of made.now) number (standing site.old total.old)
        (standing site.new total.new) result }
    ensures sorted { ∥ IsSorted (length made.now) site.new ∥₁ }
    ensures can { OnOk result (∥ CanTake (function_of rules.now) (past_of made.now) site.new ∥₁) }
    ensures within { total.new ≤ MAX_FORMS }
    ensures more { total.old ≤ total.new }
{
    members_were_made();
    let mut done = List::new(alloc);
    let mut next = Some(number);
    while let Some(one) = next {
        done.push(one)?;
        match integrate(alloc, rules, made, site, total, one) {
            Ok(()) => (),
            Err(FormError::NoForm) => return Err(Take::Stuck(one)),
            Err(FormError::Spent) => return Err(Take::Spent),
            Err(FormError::NoMemory) => return Err(Take::NoMemory),
        }
        next = least_due(made, site.integrated.as_slice(), site.held.as_slice());
    }
    Ok(Took::Done(done))
}

/// The least of the held operations before which nothing is missing.
fn least_due(made: &[Made], integrated: &[bool], held: &[bool]) -> Option<u32>
    requires few { length made.now ≤ MAX_MADE }
    ensures some { IfSome result (λ o. IsLeastByMarks (past_of made.now) (is_marked integrated.now) (is_marked held.now)
        o) }
    ensures none { result ≡ None → (x : ℕ) → x < length made.now
        → ¬ (IsDueByMarks (past_of made.now) (is_marked integrated.now) (is_marked held.now) x) }
{
    for number in 0..made.len() as u32 {
        if is_marked(held, number as usize) && knows_all(made, integrated, number) {
            return Some(number);
        }
    }
    None
}

/// Integrates an operation that is next at a site. A site that was refused is as it was, but for its table of forms.
fn integrate(
    alloc: Global,
    rules: &Rules,
    made: &[Made],
    site: &mut Site,
    total: &mut u64,
    number: u32,
) -> Result<(), FormError>
    requires few { length made.now ≤ MAX_MADE }
    requires can { ∥ CanTake (function_of rules.now) (past_of made.now) site.old ∥₁ }
    requires next { IsNext (past_of made.now) (reverse site.old.seen.items) number }
    requires total { length (counted (past_of made.now) (reverse site.old.seen.items)) ≤ total.old }
    requires within { total.old ≤ MAX_FORMS }
    ensures ok { OnOk result (HasIntegrated (function_of rules.now) (past_of made.now) number
        (standing site.old total.old) (standing site.new total.new)) }
    ensures can { OnOk result (∥ CanTake (function_of rules.now) (past_of made.now) site.new ∥₁) }
    ensures stuck { result ≡ Err NoForm → IsStuck (function_of rules.now) (past_of made.now) number
        (standing site.old total.old) }
    ensures stuck_at { result ≡ Err NoForm → total.new
        ≡ count_behind (function_of rules.now) (past_of made.now) total.old (reverse site.old.seen.items) number }
    ensures spent { result ≡ Err Spent → IsCountSpent (function_of rules.now) (past_of made.now) total.old
        (reverse site.old.seen.items) number }
    ensures spent_at { result ≡ Err Spent → total.new ≡ MAX_FORMS }
    ensures err { OnErr result (IsSameSite site.old site.new) }
    ensures within { total.new ≤ MAX_FORMS }
    ensures more { total.old ≤ total.new }
{
    let seen = newest_first(alloc, &site.seen)?;
    forms_are_sought_before_they_are_made();
    counted_forms_need_not_be_sought();
    members_were_made();
    sublists_are_told_by_their_sets();
    let seeking = Seeking {
        rules,
        made,
        seen: &seen,
    };
    let counts = counts_of(made, &seen);
    let form = form_behind(
        alloc,
        seeking,
        &mut site.table,
        total,
        number,
        &seen,
        counts,
    )?;
    if !enabled(&form, site.doc.len()) {
        return Err(FormError::NoForm);
    }
    match site.execute(rules.head().mode, number, &form) {
        Ok(()) => {
            site.held.set(number as usize, false);
            Ok(())
        }
        Err(Apply::NoMemory) => Err(FormError::NoMemory),
        Err(Apply::NotEnabled) => unreachable!(),
    }
}

/// A list turned round.
pub(crate) fn newest_first(alloc: Global, seen: &[u32]) -> Result<Vec<u32>, AllocError>
    ensures { IfOk result (λ list. list.items ≡ reverse seen.now) }
{
    seen.iter().rev().copied().collect(alloc)
}
