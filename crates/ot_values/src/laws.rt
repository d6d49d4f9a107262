//! Why answers have small values. This function does nothing: its contract is the law.
ghost use Rattle.std.specs.Prelude.{◌≡◌, ◌<◌, ◌≤ℤ◌, ℕ, ℤ, pos, IsTrue, List, length};
ghost use Rattle.diff_graph.specs.declared.lit.Lit.{Lit};
ghost use Rattle.diff_graph.specs.Literals.{AreMet};
ghost use Rattle.diff_tables.specs.Solutions.{AreLeast, IsPossibleAbove, valuation_of};
ghost use Rattle.fn_rules.specs.declared.function.ObName.{ObName};
ghost use Rattle.fn_rules.specs.declared.guard.Sort.TheVariants.{Pos};
ghost use Rattle.ot_questions.specs.declared.name.Who.{Who};
ghost use Rattle.ot_questions.specs.Names.{zero_name, char_name};
ghost use Rattle.ot_questions.specs.Sorts.{AreLike, HasNoNegativePosition, sort_name, speaks_of};
ghost use Rattle.ot_values.specs.Values.{floors_of, IsPossibleAtPositions, IsSmallAt};

/// Answers of any plan that compare like with like: where some integers meet them, which are not negative at
/// the positions that the answers speak of, some above the floors do. The least of these have small parts, and
/// at the positions that the answers speak of they are no higher than any such integers.
pub fn answers_have_least_values()
    ensures above { (ob : ObName) (w : List Lit) → AreLike w → IsPossibleAtPositions w
        → IsPossibleAbove (floors_of ob) w }
    ensures small { (ob : ObName) (w : List Lit) (values : List ℤ) (who : Who) → AreLike w
        → AreLeast w (floors_of ob) values
        → char_name who < length (floors_of ob) → IsSmallAt values who }
    ensures lowest { (ob : ObName) (w : List Lit) (values : List ℤ) (v : ℕ → ℤ) (x : ℕ) → AreLike w
        → AreLeast w (floors_of ob) values
        → v zero_name ≡ pos 0 → AreMet v w → HasNoNegativePosition w v → x < length (floors_of ob) → sort_name x ≡ Pos
        → IsTrue (speaks_of w x) → valuation_of values x ≤ℤ v x }
{}
