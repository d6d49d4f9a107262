//! The form of an operation behind a list of others, newest first.
ghost use Rattle.std.specs.Prelude.{◌≡◌, ◌≤◌, ◌<◌, ◌+◌, ◌-◌, ℕ, List, Some, None, Err, IfOk, OnOk, IfErr, length};
ghost use Rattle.std.specs.Prelude.{slice_index, slice_set, filter, not, nat_eq};
ghost use Rattle.indexmap.specs.IndexMap.{insert_entry};
ghost use Rattle.ot_model.specs.Operations.{kind_of};
ghost use Rattle.fn_rules.specs.Conditions.{IsInRange};
ghost use Rattle.fn_rules.specs.Functions.{IsForKind};
ghost use Rattle.fn_rules.specs.Rules.{function_of};
ghost use Rattle.fn_rules.specs.Transformation.{transform_of};
ghost use Rattle.ot_causal.specs.Members.{without};
ghost use Rattle.ot_causal.specs.Past.{maker, IsClosed};
ghost use Rattle.ot_causal.specs.Forms.{form, newest_open};
ghost use Rattle.ot_causal.specs.Counting.{FormName, from_site};
ghost use Rattle.ot_session.specs.Past.{past_of};
ghost use Rattle.ot_session.specs.Lists.{clock};
ghost use Rattle.ot_session.specs.Entries.{is_same_key, HasForms, IsTable, MaySeek, HasSought};
ghost use Rattle.ot_session.specs.declared.form.FormError.TheVariants.{NoForm, Spent, NoMemory};

use crate::limits::{MAX_FORMS, MAX_MADE, MAX_SITES};
use crate::made::{Made, is_before, maker, operation};
use crate::table::{Key, Table};
use fn_rules::{Rules, rules_are_valid, transform};
use ot_causal::{
    closed_lists_are_told_by_their_counts, counted_forms_need_not_be_sought,
    forms_are_made_from_shorter_ones, forms_are_sought_before_they_are_made,
    forms_keep_all_but_the_position, members_were_made, open_members_may_be_taken_out,
    sublists_are_told_by_their_sets,
};
use ot_model::Op;
use std::alloc::{AllocError, Global};

/// Why there is no form.
#[derive(Clone, Copy)]
pub(crate) enum FormError {
    /// A transformation has no result.
    NoForm,

    /// As many forms were counted as are allowed.
    Spent,

    /// There was no memory.
    NoMemory,
}

impl From<AllocError> for FormError {
    ghost from_gives = { λ _ e. e ≡ NoMemory };

    fn from(_: AllocError) -> FormError {
        FormError::NoMemory
    }
}

/// What forms are sought of, behind parts of what a site has integrated.
#[derive(Clone, Copy)]
pub(crate) struct Seeking<'a> {
    pub rules: &'a Rules,
    pub made: &'a [Made],

    /// What the site has integrated, newest first.
    pub seen: &'a [u32],
}

/// The form of an operation behind a list, of which each site made so many as `counts` says. A form that is neither
/// in the table nor the operation itself is counted and stored once its two parts are there.
pub(crate) fn form_behind(
    alloc: Global,
    seeking: Seeking,
    table: &mut Table,
    counted: &mut u64,
    number: u32,
    list: &[u32],
    counts: [u32; MAX_SITES],
) -> Result<Op, FormError>
    requires may { ∥ MaySeek (function_of seeking.rules.now) (past_of seeking.made.now) seeking.seen.now number list.now
        ∥₁ }
    requires counts { counts ≡ clock (past_of seeking.made.now) list.now }
    requires few { length list.now ≤ MAX_MADE }
    requires table { ∥ IsTable (function_of seeking.rules.now) (past_of seeking.made.now) seeking.seen.now table.old
        counted.old ∥₁ }
    requires counted { counted.old ≤ MAX_FORMS }
    ensures ok { IfOk result (λ p. form (function_of seeking.entry.rules.now) (past_of seeking.entry.made.now) number
        list.now ≡ Some p) }
    ensures no_form { result ≡ Err NoForm → form (function_of seeking.entry.rules.now) (past_of seeking.entry.made.now)
        number list.now ≡ None }
    ensures sought { (names : List FormName) (others : ℕ)
        → ∥ HasForms (function_of seeking.entry.rules.now) (past_of seeking.entry.made.now) seeking.entry.seen.now names
        table.old ∥₁
        → counted.old ≡ others + length names
        → HasSought (function_of seeking.entry.rules.now) (past_of seeking.entry.made.now) seeking.entry.seen.now names
        others number list.now
        table.new counted.new result }
    ensures counted { counted.new ≤ MAX_FORMS }
    ensures more { counted.old ≤ counted.new }
    ensures spent { result ≡ Err Spent → counted.new ≡ MAX_FORMS }
{
    forms_are_sought_before_they_are_made();
    forms_are_made_from_shorter_ones();
    let Some(other) = newest_open(seeking.made, number, list) else {
        return Ok(operation(seeking.made, number));
    };
    counted_forms_need_not_be_sought();
    closed_lists_are_told_by_their_counts();
    sublists_are_told_by_their_sets();
    let key = Key { number, counts };
    if let Some(form) = table.find(&key) {
        return Ok(form);
    }
    let older = without(alloc, seeking.made, list, other)?;
    open_members_may_be_taken_out();
    forms_keep_all_but_the_position();
    members_were_made();
    rules_are_valid(seeking.rules);
    let fewer = with_one_less(counts, maker(seeking.made, other));
    let own = form_behind(alloc, seeking, table, counted, number, &older, fewer)?;
    let by = form_behind(alloc, seeking, table, counted, other, &older, fewer)?;
    store_moved(seeking.rules, table, counted, key, &own, &by)
}

// Counts the form of an operation behind another one, and stores it where there is one.
fn store_moved(
    rules: &Rules,
    table: &mut Table,
    counted: &mut u64,
    key: Key,
    own: &Op,
    by: &Op,
) -> Result<Op, FormError>
    requires own_declared { IsForKind (function_of rules.now).head (kind_of own.now) }
    requires by_declared { IsForKind (function_of rules.now).head (kind_of by.now) }
    requires own_in_range { IsInRange own.now }
    requires by_in_range { IsInRange by.now }
    requires counted { counted.old ≤ MAX_FORMS }
    ensures ok { IfOk result (λ p. (transform_of (function_of rules.now) own.now by.now ≡ Some p)
        × (counted.new ≡ counted.old + 1)
        × (table.new ≡ insert_entry is_same_key table.old key p)) }
    ensures no_form { result ≡ Err NoForm → (transform_of (function_of rules.now) own.now by.now ≡ None)
        × (counted.new ≡ counted.old + 1) }
    ensures spent { result ≡ Err Spent → (counted.old ≡ MAX_FORMS) × (counted.new ≡ counted.old) }
    ensures within { counted.new ≤ MAX_FORMS }
    ensures more { counted.old ≤ counted.new }
{
    count_one(counted)?;
    let Some(form) = transform(rules, own, by) else {
        return Err(FormError::NoForm);
    };
    table.store(key, form)?;
    Ok(form)
}

fn count_one(counted: &mut u64) -> Result<(), FormError>
    requires { counted.old ≤ MAX_FORMS }
    ensures ok { OnOk result (counted.new ≡ counted.old + 1) }
    ensures err { IfErr result (λ e. (e ≡ Spent) × (counted.old ≡ MAX_FORMS) × (counted.new ≡ counted.old)) }
    ensures within { counted.new ≤ MAX_FORMS }
{
    if *counted == MAX_FORMS {
        return Err(FormError::Spent);
    }
    *counted += 1;
    Ok(())
}

/// The newest member that is not before the operation.
pub(crate) fn newest_open(made: &[Made], number: u32, list: &[u32]) -> Option<u32>
    ensures { result ≡ newest_open (past_of made.now) number list.now }
{
    list.iter().copied().find(|x| !is_before(made, *x, number))
}

/// A closed list without a member.
pub(crate) fn without(
    alloc: Global,
    made: &[Made],
    list: &[u32],
    member: u32,
) -> Result<Vec<u32>, AllocError>
    requires { ∥ IsClosed (past_of made.now) list.now ∥₁ }
    ensures { IfOk result (λ rest. rest.items ≡ without member list.now) }
{
    others(alloc, list, member)
}

/// The members of a list that are not this one.
fn others(alloc: Global, list: &[u32], member: u32) -> Result<Vec<u32>, AllocError>
    ensures { IfOk result (λ rest. rest.items ≡ filter (λ x. not (nat_eq x member)) list.now) }
{
    list.iter().copied().filter(|x| *x != member).collect(alloc)
}

/// The counts of a list without a member that the site made.
pub(crate) fn with_one_less(counts: [u32; MAX_SITES], site: u32) -> [u32; MAX_SITES]
    requires site { (1 ≤ site) × (site ≤ MAX_SITES) }
    requires some { 0 < slice_index counts (site - 1) }
    ensures { result ≡ slice_set counts (site - 1) (slice_index counts (site - 1) - 1) }
{
    let mut fewer = counts;
    let place = site as usize - 1;
    fewer[place] -= 1;
    fewer
}

/// How many members of the list each site made, from site 1 on.
pub(crate) fn counts_of(made: &[Made], list: &[u32]) -> [u32; MAX_SITES]
    requires { length list.now ≤ MAX_MADE }
    ensures { result ≡ clock (past_of made.now) list.now }
{
    let mut counts = [0; MAX_SITES];
    for (place, count) in counts.iter_mut().enumerate() {
        *count = count_from(made, place as u32 + 1, list);
    }
    counts
}

fn count_from(made: &[Made], site: u32, list: &[u32]) -> u32
    requires { length list.now ≤ MAX_MADE }
    ensures { result ≡ from_site (past_of made.now) site list.now }
{
    list.iter().filter(|x| maker(made, **x) == site).count() as u32
}
