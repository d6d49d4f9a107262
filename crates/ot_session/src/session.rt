//! The session.
ghost use Rattle.std.specs.Prelude.{◌≡◌, ◌≤◌, ◌<◌, ◌↔◌, ◌≢◌, ◌*◌, length, IfOk, IfErr, OnOk, IsTrue, Some, Err};
ghost use Rattle.std.specs.Prelude.{reverse, map, true, false, ℕ};
ghost use Rattle.std.specs.List.{AllByRecursion};
ghost use Rattle.ot_model.specs.declared.limits.TheConstants.{MAX_CELLS};
ghost use Rattle.fn_rules.specs.Rules.{function_of};
ghost use Rattle.ot_causal.specs.Sessions.{all_counted};
ghost use Rattle.ot_session.specs.Past.{past_of};
ghost use Rattle.ot_session.specs.Sites.{view_site, data_of, site_end_of, SiteKeepsForms, IsKeptSession};
ghost use Rattle.ot_session.specs.declared.limits.TheConstants.{MAX_MADE, MAX_SITES, MAX_FORMS};

use crate::answer::{Make, Take, Took};
use crate::ending::SiteEnd;
use crate::limits::{MAX_FORMS, MAX_MADE, MAX_SITES};
use crate::made::{Made, is_before};
use crate::pairs::{FormPair, pairs_at};
use crate::site::Site;
use crate::steps::{execute_at, fresh_sites, has_declared_kind, is_made_at};
use crate::taking::take_at;
use fn_rules::{Rules, tests_decide_their_facts};
use ot_causal::{
    both_properties_give_one_course, both_properties_give_one_document,
    counted_forms_need_not_be_sought, forms_are_sought_before_they_are_made,
    making_more_changes_nothing, members_were_made, open_members_may_be_taken_out,
    sites_count_no_more_than_the_bound, steps_count_what_they_seek, steps_keep_sessions_sound,
};
use ot_model::{Doc, NoMemory, Op, documents_grow_by_one_cell_at_most, enabled};
use plain_list::List;
use std::alloc::Global;

/// A session of some sites.
#[derive(Drop)]
pub struct Session {
    rules: Rules,
    first: Doc,
    made: Vec<Made>,
    sites: Vec<Site>,
    counted: u64,
    is_open: bool,
    ghost few: { length made.items ≤ MAX_MADE },
    ghost small: { length first ≤ MAX_CELLS },
    ghost most: { length sites.items ≤ MAX_SITES },
    ghost within: { counted ≤ MAX_FORMS },
    ghost kept: { ∥ IsKeptSession (function_of rules) first made.items sites.items ∥₁ },
    ghost forms: { is_open ≡ true
        → ∥ AllByRecursion (SiteKeepsForms (function_of rules) (past_of made.items)) sites.items ∥₁ },
    ghost counts: { is_open ≡ true → counted ≡ all_counted (data_of first made.items (map view_site sites.items)) },
}

impl Session {
    ghost use Rattle.ot_model.specs.Operations.{kind_of, site_of};
    ghost use Rattle.ot_model.specs.Effect.{IsEnabled, document_after};
    ghost use Rattle.fn_rules.specs.Functions.{HasDeclaredKind};
    ghost use Rattle.ot_causal.specs.Counting.{counted, most_forms};
    ghost use Rattle.ot_causal.specs.Sessions.{IsSite, MayMake};
    ghost use Rattle.ot_causal.specs.Members.{HaveOneSet};
    ghost use Rattle.ot_causal.specs.Past.{IsClosed};
    ghost use Rattle.ot_causal.specs.Forms.{state};
    ghost use Rattle.ot_causal.specs.Convergence.{HasOneCourse};
    ghost use Rattle.fn_rules.specs.Properties.{HasTp1, HasTp2};
    ghost use Rattle.std.specs.List.{All};
    ghost use Rattle.ot_session.specs.FormPairs.{integrated_pairs, CanMove};
    ghost use Rattle.ot_session.specs.Making.{HasRefused};
    ghost use Rattle.ot_session.specs.Views.{view_of, data_in, closed_session, IsBegun, HasMade, HasTaken};
    ghost use Rattle.ot_session.specs.declared.answer.Take.TheVariants as takes;
    ghost use Rattle.ot_session.specs.declared.answer.Make.TheVariants as makes;

    /// A new session with this function, in which each site holds the document. Sites are numbered from 1.
    pub fn new(alloc: Global, rules: &Rules, doc: &Doc, sites: u32) -> Result<Session, NoMemory>
        requires sites { (1 ≤ sites) × (sites ≤ MAX_SITES) }
        requires cells { length doc.now ≤ MAX_CELLS }
        ensures { IfOk result (λ session. IsBegun (function_of rules.now) doc.now sites (view_of session)) }
    {
        steps_keep_sessions_sound();
        forms_are_sought_before_they_are_made();
        Ok(Session {
            rules: rules.try_clone()?,
            first: doc.try_clone()?,
            sites: fresh_sites(alloc, doc, sites)?,
            made: Vec::new(alloc),
            counted: 0,
            is_open: true,
        })
    }

    /// Whether operations can be made and taken: neither was stuck, spent, or wanting memory.
    pub fn is_open(&self) -> bool
        ensures { result ≡ (view_of self.now).is_open }
    {
        self.is_open
    }

    /// The document of a site.
    pub fn doc(&self, site: u32) -> &Doc
        requires { IsSite (data_in (view_of self.now)).sites site }
        ensures held { result.now ≡ (data_in (view_of self.now)).document site }
        ensures state { state (view_of self.now).function (data_in (view_of self.now)).past (view_of self.now).first
            ((data_in (view_of self.now)).seen site) ≡ Some result.now }
    {
        &self.sites[site as usize - 1].doc
    }

    /// What a site has integrated, in order.
    pub fn seen(&self, site: u32) -> &[u32]
        requires { IsSite (data_in (view_of self.now)).sites site }
        ensures seen { reverse result.now ≡ (data_in (view_of self.now)).seen site }
        ensures closed { ∥ IsClosed (data_in (view_of self.now)).past (reverse result.now) ∥₁ }
    {
        &self.sites[site as usize - 1].seen
    }

    /// The function that operations are transformed with.
    pub fn rules(&self) -> &Rules
        ensures { function_of result.now ≡ (view_of self.now).function }
    {
        &self.rules
    }

    /// The transformations that led to what a site executed of an operation, the first one first; none where it has not
    /// integrated it. Nothing is counted.
    pub fn form_pairs(&self, site: u32, number: u32) -> Result<List<FormPair>, NoMemory>
        requires open { (view_of self.now).is_open ≡ true }
        requires site { IsSite (data_in (view_of self.now)).sites site }
        ensures pairs { IfOk result (λ pairs. pairs ≡ integrated_pairs (view_of self.now).function
            (data_in (view_of self.now)).past ((data_in (view_of self.now)).seen site) number) }

        // Each of them can be made again.
        ensures usable { IfOk result (All (CanMove (view_of self.now).function)) }
    {
        members_were_made();
        open_members_may_be_taken_out();
        documents_grow_by_one_cell_at_most();
        let alloc = *self.made.allocator();
        pairs_at(
            alloc,
            &self.rules,
            &self.made,
            &self.sites[site as usize - 1],
            number,
        )
    }

    /// Whether the first operation is before the second: the site of the second had integrated it when the second
    /// was made there. False where one of them was not made.
    pub fn before(&self, first: u32, second: u32) -> bool
        ensures { result ≡ (data_in (view_of self.now)).past.before first second }
    {
        is_before(&self.made, first, second)
    }

    /// How many forms were counted.
    pub fn forms(&self) -> u64
        ensures counted { result ≡ (view_of self.now).counted }
        ensures within { result ≤ MAX_FORMS }
        ensures all { (view_of self.now).is_open ≡ true → result ≡ all_counted (data_in (view_of self.now)) }
    {
        self.counted
    }

    /// Makes an operation at its site, which executes it, and answers its number. Numbers count from 0.
    pub fn make(&mut self, site: u32, op: Op) -> Result<u32, Make>
        requires { (view_of self.old).is_open ≡ true }
        ensures made { IfOk result (λ number. HasMade (view_of self.old) (view_of self.new) site op number) }
        ensures no_site { (result ≡ Err makes.NoSite) ↔ (¬ (IsSite (data_in (view_of self.old)).sites site)) }
        ensures wrong_site { result ≡ Err makes.WrongSite → IsSite (data_in (view_of self.old)).sites site
            × (site_of op ≢ Some site) }
        ensures wrong_kind { result ≡ Err makes.WrongKind → IsSite (data_in (view_of self.old)).sites site
            × (site_of op ≡ Some site)
            × (¬ (HasDeclaredKind (view_of self.old).function.head (kind_of op))) }
        ensures not_enabled { result ≡ Err makes.NotEnabled → IsSite (data_in (view_of self.old)).sites site
            × (site_of op ≡ Some site)
            × HasDeclaredKind (view_of self.old).function.head (kind_of op)
            × (¬ (IsEnabled op (length ((data_in (view_of self.old)).document site)))) }
        ensures full { result ≡ Err makes.Full → MayMake (view_of self.old).function (data_in (view_of self.old)) site
            op
            × (length (view_of self.old).made ≡ MAX_MADE) }

        // What was not refused had passed every test.
        ensures passed { OnOk result (MayMake (view_of self.old).function (data_in (view_of self.old)) site op
            × (length (view_of self.old).made < MAX_MADE)) }
        ensures no_memory { result ≡ Err makes.NoMemory
            → MayMake (view_of self.old).function (data_in (view_of self.old)) site op
            × (length (view_of self.old).made < MAX_MADE) }
        ensures unchanged { IfErr result (λ e. e ≢ makes.NoMemory → view_of self.new ≡ view_of self.old) }
        ensures closed { result ≡ Err makes.NoMemory → view_of self.new ≡ closed_session (view_of self.old) }
    {
        self.test_make(site, &op)?;
        self.execute(site, op)
    }

    /// Tests whether a site can make an operation.
    fn test_make(&self, site: u32, op: &Op) -> Result<(), Make>
        ensures ok { OnOk result (MayMake (view_of self.now).function (data_in (view_of self.now)) site op.now
            × (length (view_of self.now).made < MAX_MADE)) }
        ensures err { IfErr result (HasRefused (view_of self.now) site op.now) }
    {
        if !self.has_site(site) {
            return Err(Make::NoSite);
        }
        if !is_made_at(site, op) {
            return Err(Make::WrongSite);
        }
        if !has_declared_kind(&self.rules, op) {
            return Err(Make::WrongKind);
        }
        if !self.can_execute(site, op) {
            return Err(Make::NotEnabled);
        }
        if self.made.len() == MAX_MADE {
            return Err(Make::Full);
        }
        Ok(())
    }

    /// Makes an operation that passed every test.
    fn execute(&mut self, site: u32, op: Op) -> Result<u32, Make>
        requires open { (view_of self.old).is_open ≡ true }
        requires may { MayMake (view_of self.old).function (data_in (view_of self.old)) site op }
        requires few { length (view_of self.old).made < MAX_MADE }
        ensures made { IfOk result (λ number. HasMade (view_of self.old) (view_of self.new) site op number) }
        ensures lacked { IfErr result (λ e. (e ≡ makes.NoMemory)
            × (view_of self.new ≡ closed_session (view_of self.old))) }
    {
        steps_keep_sessions_sound();
        steps_count_what_they_seek();
        making_more_changes_nothing();
        counted_forms_need_not_be_sought();
        open_members_may_be_taken_out();
        members_were_made();
        let mode = self.rules.head().mode;
        match execute_at(mode, &mut self.made, &mut self.sites, site as usize - 1, op) {
            Ok(number) => Ok(number),
            Err(NoMemory) => {
                self.is_open = false;
                Err(Make::NoMemory)
            }
        }
    }

    /// Takes an operation at a site. If all that are before it are integrated there, it is integrated: its form behind
    /// what the site has integrated is executed. Then, again and again, so is the least of the held operations before
    /// which nothing is missing any more. Otherwise it is held.
    pub fn take(&mut self, site: u32, number: u32) -> Result<Took, Take>
        requires { (view_of self.old).is_open ≡ true }
        ensures taken { HasTaken (view_of self.old) (view_of self.new) site number result }

        // Where the function has both properties and characters need not differ, no operation is stuck.
        ensures never_stuck { HasTp1 (view_of self.old).function → HasTp2 (view_of self.old).function
            → (view_of self.old).function.head.chars_differ ≡ false → (o : ℕ) → result ≢ Err (takes.Stuck o) }

        // Where the most forms that its sites can count are no more than are allowed, the count is never spent.
        ensures never_spent { (data_in (view_of self.old)).sites * most_forms (data_in (view_of self.old)).past
            (data_in (view_of self.old)).sites ≤ MAX_FORMS
            → result ≢ Err takes.Spent }

        // Whatever the answer, what was counted stays counted.
        ensures more { (view_of self.old).counted ≤ (view_of self.new).counted }
    {
        if !self.has_site(site) {
            return Err(Take::NoSite);
        }
        if number as usize >= self.made.len() {
            return Err(Take::NoOp);
        }
        steps_keep_sessions_sound();
        steps_count_what_they_seek();
        open_members_may_be_taken_out();
        members_were_made();
        both_properties_give_one_document();
        tests_decide_their_facts();
        documents_grow_by_one_cell_at_most();
        sites_count_no_more_than_the_bound();
        let alloc = *self.made.allocator();
        let taken = take_at(
            alloc,
            &self.rules,
            &self.made,
            &mut self.sites,
            &mut self.counted,
            site as usize - 1,
            number,
        );
        self.is_open = taken.is_ok();
        taken
    }

    /// Ends the session: what each site has integrated and the document that it holds, in the order of the sites. They
    /// are handed over, and nothing of them is copied.
    pub fn into_ends(self) -> Result<List<SiteEnd>, NoMemory>
        ensures { IfOk result (λ ends. ends ≡ map site_end_of (view_of self).sites) }
    {
        let mut ends = List::new(*self.sites.allocator());
        for site in self.sites {
            ends.push(site.into_end())?;
        }
        Ok(ends)
    }

    /// Whether the operation is enabled on a site's document.
    fn can_execute(&self, site: u32, op: &Op) -> bool
        requires { IsSite (data_in (view_of self.now)).sites site }
        ensures { IsTrue result ↔ IsEnabled op.now (length ((data_in (view_of self.now)).document site)) }
    {
        enabled(op, self.doc(site).len())
    }

    /// A law: where the function has both properties and characters need not differ, sites that have integrated the
    /// same operations hold one document.
    pub fn sites_agree(&self)
        ensures { HasTp1 (view_of self.now).function → HasTp2 (view_of self.now).function
            → (view_of self.now).function.head.chars_differ ≡ false → (s t : ℕ)
            → IsSite (data_in (view_of self.now)).sites s → IsSite (data_in (view_of self.now)).sites t
            → HaveOneSet ((data_in (view_of self.now)).seen s) ((data_in (view_of self.now)).seen t)
            → (data_in (view_of self.now)).document s ≡ (data_in (view_of self.now)).document t }
    {
        both_properties_give_one_document();
    }

    /// A law: where the function has both properties and characters need not differ, each closed list of operations
    /// made so far leads to a document, on which each operation that the list is ready for has an enabled form, and
    /// documents and forms depend on sets alone; also for lists that no site has integrated.
    pub fn past_has_one_course(&self)
        ensures { HasTp1 (view_of self.now).function → HasTp2 (view_of self.now).function
            → (view_of self.now).function.head.chars_differ ≡ false
            → HasOneCourse (view_of self.now).function (data_in (view_of self.now)).past (view_of self.now).first }
    {
        both_properties_give_one_course();
    }

    /// A law: what a site counts is at most the sum, over the operations made, of the product, over the other sites, of
    /// one more than the number made there.
    pub fn sites_count_few_forms(&self)
        ensures { (s : ℕ) → IsSite (data_in (view_of self.now)).sites s
            → length (counted (data_in (view_of self.now)).past ((data_in (view_of self.now)).seen s))
            ≤ most_forms (data_in (view_of self.now)).past (data_in (view_of self.now)).sites }
    {
        sites_count_no_more_than_the_bound();
    }

    /// Whether there is such a site.
    pub fn has_site(&self, site: u32) -> bool
        ensures { IsTrue result ↔ IsSite (data_in (view_of self.now)).sites site }
    {
        1 <= site && site as usize <= self.sites.len()
    }
}
