//! What the plans of obligations ask, and what is kept of the questions that they are made of. These
//! functions do nothing: their contracts are the laws.
ghost use Rattle.std.specs.Prelude.{◌≡◌, ◌+◌, ◌*◌, ◌<◌, ◌≤◌, ◌≤ℤ◌, ℕ, ℤ, pos, List, Option, Some, None, IsTrue};
ghost use Rattle.diff_graph.specs.declared.lit.Lit.{Lit};
ghost use Rattle.diff_graph.specs.Literals.{AreMet};
ghost use Rattle.ot_model.specs.declared.op.Kind.{Kind};
ghost use Rattle.fn_rules.specs.declared.function.Head.{Head};
ghost use Rattle.fn_rules.specs.declared.function.ObName.{ObName};
ghost use Rattle.fn_rules.specs.declared.guard.Sort.{Sort};
ghost use Rattle.fn_rules.specs.Atoms.{function_atoms, guard_atoms};
ghost use Rattle.fn_rules.specs.Formulas.{Formula};
ghost use Rattle.fn_rules.specs.Functions.{Function};
ghost use Rattle.fn_rules.specs.Validity.{compares_chars, has_valid_atoms, is_valid};
ghost use Rattle.ask_core.specs.declared.asker.TheConstants.{MAX_QUESTIONS};
ghost use Rattle.ask_core.specs.Askers.{IsFine};
ghost use Rattle.ask_core.specs.Leading.{LeadTo};
ghost use Rattle.ask_core.specs.Plans.{Plan};
ghost use Rattle.ot_questions.specs.declared.name.Who.{Who};
ghost use Rattle.ot_questions.specs.declared.place.Place.{Place};
ghost use Rattle.ot_questions.specs.declared.place.SymOp.{SymOp};
ghost use Rattle.ot_questions.specs.declared.why.Why.{Why};
ghost use Rattle.ot_questions.specs.Asked.{IsBelow, IsKept, OpStands, PlaceStands};
ghost use Rattle.ot_questions.specs.Instances.{StandsForOperation};
ghost use Rattle.ot_questions.specs.Meaning.{op_at};
ghost use Rattle.ot_questions.specs.Names.{zero_name, position_name, site_name, char_name};
ghost use Rattle.ot_questions.specs.Nears.{IsNear};
ghost use Rattle.ot_questions.specs.Obligation.{plan_of, ask_same_form};
ghost use Rattle.ot_questions.specs.Places.{sym_op, sym_kind};
ghost use Rattle.ot_questions.specs.Questions.{ask_le, ask_guard, ask_result, ask_enabled, ask_allowed};
ghost use Rattle.ot_questions.specs.Sorts.{AreLike, AsksLike, HasNoNegativePosition};

/// Each question of a plan compares two names of one sort, and sites and characters by their order alone;
/// so do the answers on a way through it. And each position is first asked whether it is at least 0: at a
/// valuation that meets the answers on the way to an end that fails, no position that they speak of is
/// negative.
pub fn plans_compare_like_with_like()
    ensures plans { (f : Function) (ob : ObName) → IsTrue (is_valid f) → AsksLike (plan_of f ob) }
    ensures answers { (why : Why) (p : Plan Why) (w : List Lit) → AsksLike p → LeadTo why p w → AreLike w }
    ensures positions { (f : Function) (ob : ObName) (why : Why) (w : List Lit) (v : ℕ → ℤ) → IsTrue (is_valid f)
        → LeadTo why (plan_of f ob) w → v zero_name ≡ pos 0 → AreMet v w → HasNoNegativePosition w v }
{}

/// What is kept of the plans that go on behind a question about operations is kept of the question with
/// them, with a few more questions on the longest path: each literal compares like with like and keeps the
/// limits.
pub fn questions_keep_limits()
    ensures operations { (count : ℕ) (k : Kind) (who : Who) → position_name who < count → site_name who < count
        → char_name who < count
        → OpStands (IsBelow count) 0 (sym_op k who) }
    ensures comparison { (count m : ℕ) (sort : Sort) (a b : Place) (p q : Plan Why) → 2 < count
        → PlaceStands (IsBelow count) 500 sort a → PlaceStands (IsBelow count) 500 sort b → IsKept count m p
        → IsKept count m q → IsKept count (m + 1) (ask_le a b p q) }
    ensures guard { (count m : ℕ) (k l : Kind) (g : Formula) (a b : SymOp) (p q : Plan Why) → 2 < count
        → sym_kind a ≡ Some k
        → sym_kind b ≡ Some l → OpStands (IsBelow count) 200 a → OpStands (IsBelow count) 200 b
        → IsTrue (has_valid_atoms (compares_chars k l) g) → IsKept count m p → IsKept count m q
        → IsKept count (m + 2 * guard_atoms g) (ask_guard g a b p q) }
    ensures result { (count m n : ℕ) (f : Function) (a b : SymOp) (go : Option SymOp → Plan Why) → 2 < count
        → IsTrue (is_valid f)
        → n ≤ 200 → OpStands (IsBelow count) n a → OpStands (IsBelow count) n b → IsKept count m (go None)
        → ((r : SymOp) → OpStands (IsBelow count) (n + 99) r → IsKept count m (go (Some r)))
        → IsKept count (m + 2 * function_atoms f) (ask_result f a b go) }
    ensures enabled { (count m : ℕ) (a : SymOp) (off : ℤ) (p q : Plan Why) → 2 < count → IsNear 499 off
        → OpStands (IsBelow count) 499 a
        → IsKept count m p → IsKept count m q → IsKept count (m + 2) (ask_enabled a off p q) }
    ensures allowed { (count m n : ℕ) (head : Head) (a b : SymOp) (p : Plan Why) → 2 < count
        → OpStands (IsBelow count) n a
        → OpStands (IsBelow count) n b → IsKept count m p → IsKept count (m + 4) (ask_allowed head a b p) }
    ensures one_form { (count : ℕ) (a b : SymOp) → 2 < count → OpStands (IsBelow count) 500 a
        → OpStands (IsBelow count) 500 b
        → IsKept count 2 (ask_same_form a b) }

    // A plan of which it is kept is within the limits and compares like with like.
    ensures fine { (count m : ℕ) (p : Plan Why) → m ≤ MAX_QUESTIONS → IsKept count m p → IsFine count p }
    ensures like { (count m : ℕ) (p : Plan Why) → IsKept count m p → AsksLike p }
{}

/// Where the names of a site and of a character are natural numbers, the names of an operation stand for the
/// operation at the valuation.
pub fn names_stand_for_operations()
    ensures { (v : ℕ → ℤ) (k : Kind) (who : Who) → v zero_name ≡ pos 0 → pos 0 ≤ℤ v (site_name who)
        → pos 0 ≤ℤ v (char_name who)
        → StandsForOperation v (sym_op k who) (op_at v (sym_op k who)) }
{}
