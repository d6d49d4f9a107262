//! Laws of what is sought and counted. Each is the contract of a function that does nothing.
ghost use Rattle.std.specs.Prelude.{◌≡◌, ◌≢◌, ℕ, ◌+◌, ◌≤◌, true, false, List, [], ◌∷◌, ◌++◌, length, Some, None};
ghost use Rattle.ot_model.specs.declared.op.Op.{Op};
ghost use Rattle.fn_rules.specs.Functions.{Function};
ghost use Rattle.ot_causal.specs.Members.{without, IsSublist};
ghost use Rattle.ot_causal.specs.Past.{Past, IsNext, IsClosed, IsReady, IsOrderly, Extends};
ghost use Rattle.ot_causal.specs.Forms.{newest_open};
ghost use Rattle.ot_causal.specs.Counting.{FormName, name_of, is_among, sought, counted, count_sought, AreCounted};
ghost use Rattle.ot_causal.specs.Counting.{most_forms};
ghost use Rattle.ot_causal.specs.Sessions.{SessionData, IsSite, IsSound, KeepsOthers, Makes, MayMake, Integrates};
ghost use Rattle.ot_causal.specs.Sessions.{all_counted};

/// Where all of a list is before the operation, no form is sought. Otherwise those of the operation are
/// sought, then those of the newest open member, both behind the list without that member, and then the
/// form itself. A site counts what is sought for each operation that it integrates.
pub fn forms_are_sought_before_they_are_made()
    ensures none { (past : Past) (o : ℕ) (l : List ℕ) → newest_open past o l ≡ None → sought past o l ≡ [] }
    ensures some { (past : Past) (o : ℕ) (l : List ℕ) (x : ℕ) → newest_open past o l ≡ Some x
        → sought past o l ≡ sought past o (without x l) ++ sought past x (without x l) ++ name_of o l ∷ [] }
    ensures counted_none { (past : Past) → counted past [] ≡ [] }
    ensures counted_next { (past : Past) (o : ℕ) (l : List ℕ)
        → counted past (o ∷ l) ≡ count_sought (counted past l) (sought past o l) }
{}

/// With a form, all that it is made from was counted. So nothing is counted anew where a form is sought that
/// was counted. One that was not is counted after all that it is made from.
pub fn counted_forms_need_not_be_sought()
    ensures counted { (past : Past) (seen : List ℕ) → IsOrderly past → IsClosed past seen
        → AreCounted past seen (counted past seen) }
    ensures kept { (past : Past) (seen : List ℕ) (names : List FormName) (o : ℕ) (l : List ℕ) → IsOrderly past
        → IsReady past o l → IsSublist l seen → AreCounted past seen names
        → AreCounted past seen (count_sought names (sought past o l)) }
    ensures longer { (past : Past) (seen : List ℕ) (names : List FormName) (o : ℕ) → AreCounted past seen names
        → AreCounted past (o ∷ seen) names }
    ensures again { (past : Past) (seen : List ℕ) (names : List FormName) (o : ℕ) (l : List ℕ) → IsClosed past seen
        → IsSublist l seen → AreCounted past seen names → is_among names (name_of o l) ≡ true
        → count_sought names (sought past o l) ≡ names }
    ensures last { (past : Past) (names : List FormName) (o : ℕ) (l : List ℕ) (x : ℕ) → IsOrderly past
        → IsReady past o l
        → newest_open past o l ≡ Some x → is_among names (name_of o l) ≡ false
        → is_among (count_sought names (sought past o (without x l) ++ sought past x (without x l))) (name_of o l)
        ≡ false }
    ensures joined { (names first more : List FormName)
        → count_sought names (first ++ more) ≡ count_sought (count_sought names first) more }
{}

/// Making an operation counts nothing, and integrating one counts what is sought for it, at its site alone.
pub fn steps_count_what_they_seek()
    ensures made { (f : Function) (old new : SessionData) (s : ℕ) (a : Op) → IsSound f old → MayMake f old s a
        → Makes f old new s a
        → counted new.past (new.seen s) ≡ counted old.past (old.seen s) }
    ensures all_made { (f : Function) (old new : SessionData) (s : ℕ) (a : Op) → IsSound f old → MayMake f old s a
        → Makes f old new s a
        → all_counted new ≡ all_counted old }
    ensures integrated { (f : Function) (old new : SessionData) (s o : ℕ) → IsSound f old → Integrates f old new s o
        → counted new.past (new.seen s) ≡ count_sought (counted old.past (old.seen s))
        (sought old.past o (old.seen s)) }
    ensures all_integrated { (f : Function) (old new : SessionData) (s o : ℕ) → IsSound f old → Integrates f old new s o
        → all_counted new + length (counted old.past (old.seen s))
        ≡ all_counted old + length (counted new.past (new.seen s)) }
    ensures others { (f : Function) (old new : SessionData) (s u : ℕ) → IsSound f old → KeepsOthers old new s
        → Extends old.past new.past
        → IsSite old.sites u → u ≢ s → counted new.past (new.seen u) ≡ counted old.past (old.seen u) }
{}

/// A site counts at most so many forms: the sum, over the operations made, of the product, over the other
/// sites, of one more than the number of operations made there. So it is also within an integration, where
/// some of what is sought was counted.
pub fn sites_count_no_more_than_the_bound()
    ensures whole { (f : Function) (session : SessionData) (s : ℕ) → IsSound f session → IsSite session.sites s
        → length (counted session.past (session.seen s)) ≤ most_forms session.past session.sites }
    ensures within { (f : Function) (session : SessionData) (s o : ℕ) (names more : List FormName) → IsSound f session
        → IsSite session.sites s
        → IsNext session.past (session.seen s) o → sought session.past o (session.seen s) ≡ names ++ more
        → length (count_sought (counted session.past (session.seen s)) names) ≤ most_forms session.past session.sites }
{}
