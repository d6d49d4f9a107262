//! What stays small. This function does nothing: its contract is the law.
ghost use Rattle.std.specs.Prelude.{◌≤◌, ◌+◌, ℕ, ℤ, ◌+ℤ◌, Bool, List, IsTrue};
ghost use Rattle.std.specs.List.{AllByRecursion};
ghost use Rattle.fn_rules.specs.declared.guard.Sort.{Sort};
ghost use Rattle.fn_rules.specs.Functions.{GuardedCase};
ghost use Rattle.fn_rules.specs.Validity.{are_valid_cases};
ghost use Rattle.ot_questions.specs.declared.place.SymOp.{SymOp};
ghost use Rattle.ot_questions.specs.declared.place.SymOp.TheVariants as ops;
ghost use Rattle.ot_questions.specs.Nears.{IsNear, IsNearOp, IsNearCase, IsResultOf};
ghost use Rattle.ot_questions.specs.Places.{sym_thing};

/// What an atom compares is no farther away than the operation's place, and offsets that are added add their bounds.
/// The cases of a valid block have small offsets; and nop, and the first operation itself, may come out of a
/// transformation.
pub fn offsets_stay_near()
    ensures things { (n : ℕ) (sort : Sort) (o : SymOp) → IsNearOp n o → IsNear n (sym_thing sort o).off }
    ensures more { (m n : ℕ) (k : ℤ) → m ≤ n → IsNear m k → IsNear n k }
    ensures sums { (m n : ℕ) (j k : ℤ) → IsNear m j → IsNear n k → IsNear (m + n) (j +ℤ k) }
    ensures cases { (chars : Bool) (cases : List GuardedCase) → IsTrue (are_valid_cases chars cases)
        → AllByRecursion IsNearCase cases }
    ensures nop { (a b : SymOp) → IsResultOf a b ops.Nop }
    ensures first { (a b : SymOp) → IsResultOf a b a }
{}
