//! Laws of closed lists and their members. Each is the contract of a function that does nothing.
ghost use Rattle.std.specs.Prelude.{◌≡◌, ◌≢◌, ◌↔◌, ℕ, ◌+◌, ◌<◌, ◌≤◌, true, false, List, length, Some, None};
ghost use Rattle.ot_model.specs.declared.cell.Cell.{Cell};
ghost use Rattle.fn_rules.specs.Functions.{Function};
ghost use Rattle.ot_causal.specs.Members.{has, without, have_one_set, HaveOneSet, IsSublist};
ghost use Rattle.ot_causal.specs.Past.{Past, maker, IsClosed, IsReady, AreMade, IsOrderly, IsOpening};
ghost use Rattle.ot_causal.specs.Forms.{newest_open};
ghost use Rattle.ot_causal.specs.Counting.{from_site};
ghost use Rattle.ot_causal.specs.Sessions.{IsSoundPast};

/// The members of a closed list were made, so there are no more of them than were made.
pub fn members_were_made()
    ensures made { (past : Past) (l : List ℕ) → IsClosed past l → AreMade past l }
    ensures few { (past : Past) (l : List ℕ) → IsClosed past l → length l ≤ past.count }
{}

/// The newest open member is a member that is not before the operation, and there is none exactly where all
/// of the list is before it.
pub fn newest_open_members_are_found()
    ensures some { (past : Past) (o : ℕ) (l : List ℕ) (x : ℕ) → newest_open past o l ≡ Some x → (has l x ≡ true)
        × (past.before x o ≡ false) }
    ensures none { (past : Past) (o : ℕ) (l : List ℕ) → ((x : ℕ) → has l x ≡ true → past.before x o ≡ true)
        → newest_open past o l ≡ None }
    ensures all_before { (past : Past) (o : ℕ) (l : List ℕ) (x : ℕ) → newest_open past o l ≡ None → has l x ≡ true
        → past.before x o ≡ true }
{}

/// In a sound past being before is an order, in which the operations of each site stand one behind the
/// other. So the member that a form is transformed by may be taken out of the list.
pub fn open_members_may_be_taken_out()
    ensures order { (f : Function) (past : Past) (first : List Cell) → IsSoundPast f past first → IsOrderly past }
    ensures opening { (past : Past) (o : ℕ) (l : List ℕ) (x : ℕ) → IsOrderly past → IsReady past o l
        → newest_open past o l ≡ Some x
        → IsOpening past o l x }
{}

/// Closed lists have one set exactly where they have as many operations of each site. Taking a member out
/// leaves one operation less of its site, and as many of each other one.
pub fn closed_lists_are_told_by_their_counts()
    ensures told { (past : Past) (l m : List ℕ) → IsOrderly past → IsClosed past l → IsClosed past m
        → ((o : ℕ) → o < past.count → from_site past (maker past o) l ≡ from_site past (maker past o) m)
        → HaveOneSet l m }
    ensures counts { (past : Past) (s : ℕ) (l m : List ℕ) → IsClosed past l → IsClosed past m → HaveOneSet l m
        → from_site past s l ≡ from_site past s m }
    ensures tested { (l m : List ℕ) → (have_one_set l m ≡ true) ↔ HaveOneSet l m }
    ensures taken_out { (past : Past) (s x : ℕ) (l : List ℕ) → has l x ≡ true → maker past x ≡ s
        → from_site past s l ≡ from_site past s (without x l) + 1 }
    ensures others { (past : Past) (s x : ℕ) (l : List ℕ) → maker past x ≢ s
        → from_site past s (without x l) ≡ from_site past s l }
{}

/// Sublists of one closed list with one set are one list. A list without a member is a sublist of whatever
/// the list is a sublist of.
pub fn sublists_are_told_by_their_sets()
    ensures told { (past : Past) (n l m : List ℕ) → IsClosed past n → IsSublist l n → IsSublist m n → HaveOneSet l m
        → l ≡ m }
    ensures whole { (l : List ℕ) → IsSublist l l }
    ensures without { (x : ℕ) (l m : List ℕ) → IsSublist l m → IsSublist (without x l) m }
    ensures members { (l m : List ℕ) (x : ℕ) → IsSublist l m → has l x ≡ true → has m x ≡ true }
{}
