//! Where the plans of obligations end at one valuation. These functions do nothing: their contracts are
//! the laws.
ghost use Rattle.std.specs.Prelude.{◌≡◌, ◌≢◌, ◌↔◌, ◌⊎◌, ℕ, ℤ, pos, ◌+ℤ◌, int_le, if◌then◌else◌, IsTrue, IsSome, List};
ghost use Rattle.std.specs.Prelude.{[], ◌∷◌, length, Option, Some, None};
ghost use Rattle.ot_model.specs.declared.cell.Cell.{Cell};
ghost use Rattle.ot_model.specs.declared.op.Kind.{Kind};
ghost use Rattle.ot_model.specs.declared.op.Op.{Op};
ghost use Rattle.ot_model.specs.Effect.{is_enabled};
ghost use Rattle.fn_rules.specs.declared.function.ObName.TheVariants.{Pair, Triple};
ghost use Rattle.fn_rules.specs.Formulas.{Formula, holds_of};
ghost use Rattle.fn_rules.specs.Functions.{Function};
ghost use Rattle.fn_rules.specs.Conditions.{IsFormOf};
ghost use Rattle.fn_rules.specs.Properties.{AreConcurrent, ConvergesAt, CommutesAt};
ghost use Rattle.fn_rules.specs.Transformation.{is_allowed, transform_of};
ghost use Rattle.ask_core.specs.Plans.{Plan, end_of};
ghost use Rattle.ot_questions.specs.declared.name.Who.{Who};
ghost use Rattle.ot_questions.specs.declared.place.Place.{Place};
ghost use Rattle.ot_questions.specs.declared.place.SymOp.{SymOp};
ghost use Rattle.ot_questions.specs.declared.why.Why.{Why};
ghost use Rattle.ot_questions.specs.declared.why.Why.TheVariants.{Cells, Operations};
ghost use Rattle.ot_questions.specs.Names.{zero_name, length_name, index_name};
ghost use Rattle.ot_questions.specs.Places.{integer_at};
ghost use Rattle.ot_questions.specs.Questions.{ask_le, ask_guard, ask_result, ask_transform, ask_enabled, ask_allowed};
ghost use Rattle.ot_questions.specs.Obligation.{plan_of, ask_same_form};
ghost use Rattle.ot_questions.specs.Instances.{StandsForOperation, NamesPair, NamesTriple, NamesAll, GoesOnWith};
ghost use Rattle.ot_questions.specs.Instances.{ComesTo};
ghost use Rattle.ot_questions.specs.Instances.{EndWith, AgreeAt, cell_in, PairFails, ShowsCause, EndsBy, TripleFails};

use fn_rules::tests_decide_their_facts;

/// At a valuation the plan of a pair ends as TP1 does at the operations that the names stand for.
///
/// It holds exactly where, on every document of the length, both operations are not concurrent or both
/// ways agree at the index. Where it fails, TP1 fails by that cause on the document in hand if this
/// shows the cause; and where TP1 fails by a cause, the plan ends in it. The places that the cause of
/// cells names are within each document of the length.
pub fn pair_ends_at_valuations()
    ensures holds { (f : Function) (k l : Kind) (v : ℕ → ℤ) (n : ℕ) (a b : Op) → NamesPair f k l v n a b
        → (end_of (plan_of f (Pair k l)) v ≡ None)
        ↔ ((d : List Cell) → length d ≡ n → AreConcurrent f d (a ∷ b ∷ []) → EndWith f d a b (AgreeAt (v index_name))) }
    ensures fails { (f : Function) (k l : Kind) (v : ℕ → ℤ) (d : List Cell) (a b : Op) (why : Why)
        → NamesPair f k l v (length d) a b
        → end_of (plan_of f (Pair k l)) v ≡ Some why → ShowsCause d a b (v index_name) why
        → AreConcurrent f d (a ∷ b ∷ []) × PairFails f d a b (v index_name) why }
    ensures ends { (f : Function) (k l : Kind) (v : ℕ → ℤ) (d : List Cell) (a b : Op) (why : Why)
        → NamesPair f k l v (length d) a b
        → AreConcurrent f d (a ∷ b ∷ []) → PairFails f d a b (v index_name) why
        → EndsBy why (end_of (plan_of f (Pair k l)) v) }
    ensures read { (f : Function) (k l : Kind) (v : ℕ → ℤ) (d : List Cell) (a b : Op) (left dead : Option ℤ) (off : ℤ)
        → NamesPair f k l v (length d) a b → end_of (plan_of f (Pair k l)) v ≡ Some (Cells left dead)
        → (left ≡ Some off) ⊎ (dead ≡ Some off) → IsSome (cell_in d (v index_name +ℤ off)) }
    ensures breaks { (f : Function) (d : List Cell) (a b : Op) (i : ℤ) (why : Why) → PairFails f d a b i why
        → ConvergesAt f d a b → ⊥ }
{}

/// At a valuation the plan of a triple ends as TP2 does at the operations that the names stand for. It
/// holds exactly where the operations are not concurrent or commute, and ends in a cause exactly where
/// they are concurrent and TP2 fails by that cause. The document is one of the length, whichever.
pub fn triple_ends_at_valuations()
    ensures holds { (f : Function) (k l m : Kind) (v : ℕ → ℤ) (d : List Cell) (a b c : Op)
        → NamesTriple f k l m v (length d) a b c
        → (end_of (plan_of f (Triple k l m)) v ≡ None) ↔ (AreConcurrent f d (a ∷ b ∷ c ∷ []) → CommutesAt f a b c) }
    ensures fails { (f : Function) (k l m : Kind) (v : ℕ → ℤ) (d : List Cell) (a b c : Op) (why : Why)
        → NamesTriple f k l m v (length d) a b c
        → (end_of (plan_of f (Triple k l m)) v ≡ Some why)
        ↔ (AreConcurrent f d (a ∷ b ∷ c ∷ []) × TripleFails f a b c why) }
    ensures breaks { (f : Function) (a b c : Op) (why : Why) → TripleFails f a b c why → CommutesAt f a b c → ⊥ }
{}

/// At a valuation each question goes on as the integers and the interpreter answer it for the operations
/// that the names and places stand for. A result goes on as the first true guard says, and with none where
/// no guard is true. Two forms of one operation are found equal exactly where they are.
pub fn questions_mean_the_interpreter()
    ensures at_most { (v : ℕ → ℤ) (x y : Place) (p q : Plan Why)
        → end_of (ask_le x y p q) v ≡ (if int_le (integer_at v x) (integer_at v y) then end_of p v else end_of q v) }
    ensures guard { (g : Formula) (v : ℕ → ℤ) (x y : SymOp) (a b : Op) (p q : Plan Why) → v zero_name ≡ pos 0
        → StandsForOperation v x a → StandsForOperation v y b
        → end_of (ask_guard g x y p q) v ≡ (if holds_of g a b then end_of p v else end_of q v) }
    ensures result { (f : Function) (v : ℕ → ℤ) (x y : SymOp) (a b : Op) → v zero_name ≡ pos 0
        → StandsForOperation v x a → StandsForOperation v y b → GoesOnWith v (ask_result f x y) (transform_of f a b) }
    ensures transform { (f : Function) (v : ℕ → ℤ) (x y : SymOp) (a b : Op) → v zero_name ≡ pos 0
        → StandsForOperation v x a → StandsForOperation v y b
        → ComesTo v (ask_transform f x y) (transform_of f a b) }
    ensures enabled { (v : ℕ → ℤ) (x : SymOp) (a : Op) (off : ℤ) (n : ℕ) (p q : Plan Why) → v zero_name ≡ pos 0
        → v length_name +ℤ off ≡ pos n → StandsForOperation v x a
        → end_of (ask_enabled x off p q) v ≡ (if is_enabled a n then end_of p v else end_of q v) }
    ensures allowed { (f : Function) (v : ℕ → ℤ) (x y : SymOp) (a b : Op) (p : Plan Why) → v zero_name ≡ pos 0
        → StandsForOperation v x a → StandsForOperation v y b
        → end_of (ask_allowed f.head x y p) v ≡ (if is_allowed f a b then end_of p v else None) }
    ensures one_form { (v : ℕ → ℤ) (x y : SymOp) (a b c : Op) → StandsForOperation v x a → StandsForOperation v y b
        → IsFormOf c a → IsFormOf c b
        → (a ≡ b → end_of (ask_same_form x y) v ≡ None) × (a ≢ b → end_of (ask_same_form x y) v ≡ Some Operations) }
{
    tests_decide_their_facts();
}

/// Any three operations, any length and any index have names: at some valuation each operation is what the
/// names of its kind stand for.
pub fn any_operations_have_names()
    ensures { (n : ℕ) (i : ℤ) (made : Who → Op) → (v : ℕ → ℤ) × NamesAll v n i made }
{}
