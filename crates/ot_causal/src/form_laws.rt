//! Laws of forms, and of the documents that lists lead to. Each is the contract of a function that does
//! nothing.
ghost use Rattle.std.specs.Prelude.{◌≡◌, ℕ, ◌+◌, ◌*◌, ◌<◌, false, List, [], ◌∷◌, length, Some, None, IsTrue};
ghost use Rattle.ot_model.specs.declared.cell.Cell.{Cell};
ghost use Rattle.ot_model.specs.declared.op.Op.{Op};
ghost use Rattle.fn_rules.specs.Functions.{Function};
ghost use Rattle.fn_rules.specs.Validity.{is_valid};
ghost use Rattle.fn_rules.specs.Conditions.{IsWithin, IsFormOf};
ghost use Rattle.ot_causal.specs.Members.{without};
ghost use Rattle.ot_causal.specs.Past.{Past, IsNext, IsClosed, AreMade, Extends};
ghost use Rattle.ot_causal.specs.Forms.{newest_open, transformed, form, executed, state};
ghost use Rattle.ot_causal.specs.Counting.{sought, counted};

use fn_rules::{
    enabled_operations_are_near, transform_keeps_all_but_the_position, transform_stays_near,
};

/// The form of an operation is the operation itself where all of the list is before it. Otherwise it is
/// its form behind the list without the newest open member, transformed against that member's; so it is
/// behind a newest member that is not before it.
pub fn forms_are_made_from_shorter_ones()
    ensures whole { (f : Function) (past : Past) (o : ℕ) (l : List ℕ) → newest_open past o l ≡ None
        → form f past o l ≡ Some (past.operation o) }
    ensures moved { (f : Function) (past : Past) (o : ℕ) (l : List ℕ) (x : ℕ) → newest_open past o l ≡ Some x
        → form f past o l ≡ transformed f (form f past o (without x l)) (form f past x (without x l)) }
    ensures newest { (f : Function) (past : Past) (o x : ℕ) (l : List ℕ) → past.before x o ≡ false
        → form f past o (x ∷ l) ≡ transformed f (form f past o l) (form f past x l) }
{}

/// A form is nop, or its operation at some position, which each member of the list moves by at most 99 from
/// where operations were made.
pub fn forms_keep_all_but_the_position()
    ensures kept { (f : Function) (past : Past) (o : ℕ) (l : List ℕ) (p : Op) → form f past o l ≡ Some p
        → IsFormOf (past.operation o) p }
    ensures near { (f : Function) (past : Past) (m o : ℕ) (l : List ℕ) (p : Op) → IsTrue (is_valid f)
        → ((x : ℕ) → x < past.count → IsWithin m (past.operation x)) → o < past.count → AreMade past l
        → form f past o l ≡ Some p → IsWithin (m + 99 * length l) p }
{
    transform_keeps_all_but_the_position();
    transform_stays_near();
    enabled_operations_are_near();
}

/// No list leads to the first document, and a longer one leads from where its older members lead.
pub fn lists_lead_member_by_member()
    ensures none { (f : Function) (past : Past) (first : List Cell) → state f past first [] ≡ Some first }
    ensures next { (f : Function) (past : Past) (first : List Cell) (o : ℕ) (l : List ℕ) (d : List Cell)
        → state f past first l ≡ Some d
        → state f past first (o ∷ l) ≡ executed f (form f past o l) d }
{}

/// What was made stays as it was when more is made.
pub fn making_more_changes_nothing()
    ensures next { (old new : Past) (l : List ℕ) (o : ℕ) → Extends old new → IsNext old l o → IsNext new l o }
    ensures closed { (old new : Past) (l : List ℕ) → Extends old new → IsClosed old l → IsClosed new l }
    ensures closed_before { (old new : Past) (l : List ℕ) → Extends old new → AreMade old l → IsClosed new l
        → IsClosed old l }
    ensures newest { (old new : Past) (o : ℕ) (l : List ℕ) → Extends old new → o < old.count
        → newest_open new o l ≡ newest_open old o l }
    ensures forms { (f : Function) (old new : Past) (o : ℕ) (l : List ℕ) → Extends old new → o < old.count
        → AreMade old l
        → form f new o l ≡ form f old o l }
    ensures states { (f : Function) (old new : Past) (first : List Cell) (l : List ℕ) → Extends old new → AreMade old l
        → state f new first l ≡ state f old first l }
    ensures sought { (old new : Past) (o : ℕ) (l : List ℕ) → Extends old new → o < old.count → AreMade old l
        → sought new o l ≡ sought old o l }
    ensures counted { (old new : Past) (l : List ℕ) → Extends old new → AreMade old l → counted new l ≡ counted old l }
{}
