//! The transformations that led to the form of an operation behind a list of others, newest first.
ghost use Rattle.std.specs.Prelude.{◌≡◌, ◌≤◌, ◌<◌, ◌++◌, ℕ, true, false, length, reverse, IfOk, IfSome, OnOk};
ghost use Rattle.std.specs.List.{All};
ghost use Rattle.ot_model.specs.declared.op.Op.{Op};
ghost use Rattle.ot_model.specs.Operations.{kind_of};
ghost use Rattle.fn_rules.specs.Conditions.{IsInRange};
ghost use Rattle.fn_rules.specs.Functions.{IsForKind};
ghost use Rattle.fn_rules.specs.Rules.{function_of};
ghost use Rattle.ot_causal.specs.Forms.{form, transformed};
ghost use Rattle.ot_causal.specs.Counting.{counted};
ghost use Rattle.ot_session.specs.Past.{past_of};
ghost use Rattle.ot_session.specs.Lists.{clock};
ghost use Rattle.ot_session.specs.Entries.{HasForms, MaySeek};
ghost use Rattle.ot_session.specs.FormPairs.{form_pairs, integrated_pairs, older_than, pair_of, CanMove};
ghost use Rattle.ot_session.specs.Sites.{CanTake};

use crate::form::{Seeking, counts_of, newest_open, with_one_less, without};
use crate::limits::{MAX_MADE, MAX_SITES};
use crate::made::{Made, is_marked, maker, operation};
use crate::site::Site;
use crate::table::{Key, Table};
use crate::taking::newest_first;
use fn_rules::{Rules, rules_are_valid, transform};
use ot_causal::{
    closed_lists_are_told_by_their_counts, forms_are_made_from_shorter_ones,
    forms_keep_all_but_the_position, members_were_made, open_members_may_be_taken_out,
    sublists_are_told_by_their_sets,
};
use ot_model::{NoMemory, Op};
use plain_list::List;
use std::alloc::Global;

/// A transformation that led to the form of an operation.
#[derive(Clone, Copy)]
pub struct FormPair {
    /// The form so far.
    pub form: Op,

    /// The number of the operation over which it was carried.
    pub number: u32,

    /// The form of that operation, against which the form was transformed.
    pub against: Op,
}

/// Appends the transformations that led to the form of an operation behind a list, of which each site made so many as
/// `counts` says, and answers the form. Forms that are not in the table are made anew.
pub(crate) fn pairs_behind(
    alloc: Global,
    seeking: Seeking,
    table: &Table,
    number: u32,
    list: &[u32],
    counts: [u32; MAX_SITES],
    pairs: &mut List<FormPair>,
) -> Result<Option<Op>, NoMemory>
    requires may { ∥ MaySeek (function_of seeking.rules.now) (past_of seeking.made.now) seeking.seen.now number list.now
        ∥₁ }
    requires counts { counts ≡ clock (past_of seeking.made.now) list.now }
    requires few { length list.now ≤ MAX_MADE }
    requires table { ∥ HasForms (function_of seeking.rules.now) (past_of seeking.made.now) seeking.seen.now
        (counted (past_of seeking.made.now) seeking.seen.now) table.now ∥₁ }
    ensures form { IfOk result (λ p. p ≡ form (function_of seeking.entry.rules.now) (past_of seeking.entry.made.now)
        number list.now) }
    ensures pairs { OnOk result (pairs.new ≡ pairs.old ++ form_pairs (function_of seeking.entry.rules.now)
        (past_of seeking.entry.made.now) number list.now) }
    ensures usable { OnOk result (All (CanMove (function_of seeking.entry.rules.now))
        (form_pairs (function_of seeking.entry.rules.now) (past_of seeking.entry.made.now) number list.now)) }
{
    forms_are_made_from_shorter_ones();
    let Some(other) = newest_open(seeking.made, number, list) else {
        return Ok(Some(operation(seeking.made, number)));
    };
    closed_lists_are_told_by_their_counts();
    sublists_are_told_by_their_sets();
    open_members_may_be_taken_out();
    forms_keep_all_but_the_position();
    members_were_made();
    rules_are_valid(seeking.rules);
    let older = without(alloc, seeking.made, list, other)?;
    let fewer = with_one_less(counts, maker(seeking.made, other));
    let own = pairs_behind(alloc, seeking, table, number, &older, fewer, pairs)?;
    let key = Key {
        number: other,
        counts: fewer,
    };
    if let Some(by) = table.find(&key) {
        return carry_over(seeking.rules, own, other, Some(by), pairs);
    }
    let mut unused = List::new(alloc);
    let by = pairs_behind(alloc, seeking, table, other, &older, fewer, &mut unused)?;
    carry_over(seeking.rules, own, other, by, pairs)
}

// Transforms a form against another one, where both exist, and appends that. Answers what the form becomes.
fn carry_over(
    rules: &Rules,
    own: Option<Op>,
    number: u32,
    by: Option<Op>,
    pairs: &mut List<FormPair>,
) -> Result<Option<Op>, NoMemory>
    requires own { IfSome own (λ p. IsForKind (function_of rules.now).head (kind_of p) × IsInRange p) }
    requires by { IfSome by (λ p. IsForKind (function_of rules.now).head (kind_of p) × IsInRange p) }
    ensures form { IfOk result (λ p. p ≡ transformed (function_of rules.now) own by) }
    ensures pairs { OnOk result (pairs.new ≡ pairs.old ++ pair_of own number by) }
{
    let Some(form) = own else {
        return Ok(None);
    };
    let Some(against) = by else {
        return Ok(None);
    };
    pairs.push(FormPair {
        form,
        number,
        against,
    })?;
    Ok(transform(rules, &form, &against))
}

// The members of a list that are older than one of them.
fn older_than(list: &[u32], number: u32) -> &[u32]
    ensures { result.now ≡ older_than number list.now }
{
    for place in 0..list.len() {
        if list[place] == number {
            return &list[place + 1..];
        }
    }
    &[]
}

/// The transformations that led to what a site executed of an operation; none where it has not integrated it.
pub(crate) fn pairs_at(
    alloc: Global,
    rules: &Rules,
    made: &[Made],
    site: &Site,
    number: u32,
) -> Result<List<FormPair>, NoMemory>
    requires few { length made.now ≤ MAX_MADE }
    requires can { ∥ CanTake (function_of rules.now) (past_of made.now) site.now ∥₁ }
    ensures pairs { IfOk result (λ pairs. pairs ≡ integrated_pairs (function_of rules.now) (past_of made.now)
        (reverse site.now.seen.items) number) }
    ensures usable { IfOk result (All (CanMove (function_of rules.now))) }
{
    let mut pairs = List::new(alloc);
    if !is_marked(site.integrated.as_slice(), number as usize) {
        return Ok(pairs);
    }
    members_were_made();
    sublists_are_told_by_their_sets();
    let seen = newest_first(alloc, &site.seen)?;
    let list = older_than(&seen, number);
    let seeking = Seeking {
        rules,
        made,
        seen: &seen,
    };
    let counts = counts_of(made, list);
    pairs_behind(
        alloc,
        seeking,
        &site.table,
        number,
        list,
        counts,
        &mut pairs,
    )?;
    Ok(pairs)
}
