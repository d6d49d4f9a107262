//! Laws of functions, for the layers above. Each is the contract of a function that does nothing.
ghost use Rattle.std.specs.Prelude.{◌≡◌, ◌↔◌, ℕ, ◌+◌, ◌≤◌, List, [], Some, false, true, IsTrue, Bool, ◌⊎◌, length};
ghost use Rattle.std.specs.List.{Contains, list_all};
ghost use Rattle.ot_model.specs.declared.cell.Cell.{Cell};
ghost use Rattle.ot_model.specs.declared.op.Kind.{Kind};
ghost use Rattle.ot_model.specs.declared.op.Op.{Op};
ghost use Rattle.ot_model.specs.declared.op.Op.TheVariants.{Nop};
ghost use Rattle.ot_model.specs.Effect.{IsEnabled, is_enabled};
ghost use Rattle.fn_rules.specs.declared.function.Head.{Head};
ghost use Rattle.fn_rules.specs.declared.function.Level.{Level};
ghost use Rattle.fn_rules.specs.declared.function.ObName.TheVariants.{Pair, Triple};
ghost use Rattle.fn_rules.specs.Functions.{Function, GuardedCase, cases_of, is_declared, is_declared_pair};
ghost use Rattle.fn_rules.specs.Validity.{is_valid, is_valid_case, are_valid_cases, compares_chars};
ghost use Rattle.fn_rules.specs.Transformation.{transform_of, is_allowed, IsAllowed};
ghost use Rattle.fn_rules.specs.Conditions.{IsWithin, IsFormOf, has_char_atoms, is_integrable, IsIntegrable};
ghost use Rattle.fn_rules.specs.Obligations.{declared_kinds, pairs_of, triples_of, obligations_of, is_obligation};
ghost use Rattle.fn_rules.specs.Properties.{ConvergesAt, CommutesAt};
ghost use Rattle.fn_rules.specs.Orders.{names_each_once, NamesEachOnce};
ghost use Rattle.fn_rules.specs.Rules.{function_of};

use crate::rules::Rules;

/// Who may be with whom does not depend on the order.
pub fn allowed_is_symmetric()
    ensures { (f : Function) (a b : Op) → IsAllowed f a b → IsAllowed f b a }
{}

/// What is tested of operations and orders is what the definitions say of them.
pub fn tests_decide_their_facts()
    ensures allowed { (f : Function) (a b : Op) → (is_allowed f a b ≡ true) ↔ IsAllowed f a b }
    ensures enabled { (cells : ℕ) (o : Op) → (is_enabled o cells ≡ true) ↔ IsEnabled o cells }
    ensures integrable { (f : Function) (cells : ℕ) (o : Op)
        → (is_integrable f cells o ≡ true) ↔ IsIntegrable f cells o }
    ensures once { (count : ℕ) (order : List ℕ) → names_each_once count order ≡ true → NamesEachOnce count order }
{}

/// Both properties are symmetric in their first two operations.
pub fn properties_are_symmetric()
    ensures converging { (f : Function) (d : List Cell) (a b : Op) → ConvergesAt f d a b → ConvergesAt f d b a }
    ensures commuting { (f : Function) (a b c : Op) → CommutesAt f a b c → CommutesAt f b a c }
{}

/// Nop stays nop.
pub fn nop_stays_nop()
    ensures { (f : Function) (b : Op) → transform_of f Nop b ≡ Some Nop }
{}

/// An operation is as it was behind nop.
pub fn nop_changes_nothing()
    ensures { (f : Function) (a : Op) → transform_of f a Nop ≡ Some a }
{}

/// A transformed operation is nop, or keeps its kind, site and character.
pub fn transform_keeps_all_but_the_position()
    ensures { (f : Function) (a b c : Op) → transform_of f a b ≡ Some c → IsFormOf a c }
{}

/// A transformed operation is allowed with whatever it was allowed with before.
pub fn transform_keeps_allowed()
    ensures { (f : Function) (a b c d : Op) → transform_of f a b ≡ Some c → IsAllowed f a d → IsAllowed f c d }
{}

/// A position moves by at most 99 from one of the two positions.
pub fn transform_stays_near()
    ensures { (f : Function) (a b c : Op) (m : ℕ) → IsTrue (is_valid f) → IsWithin m a → IsWithin m b
        → transform_of f a b ≡ Some c → IsWithin (m + 99) c }
{}

/// Rules keep the limits: their function is valid.
#[tactic(auto, unfolding(crate::specs::Rules::function_of))]
pub fn rules_are_valid(rules: &Rules)
    ensures { IsTrue (is_valid (function_of rules.now)) }
{}

/// The cases of a valid function are valid in their block.
pub fn cases_are_valid()
    ensures { (f : Function) (k l : Kind) → IsTrue (is_valid f)
        → IsTrue (are_valid_cases (compares_chars k l) (cases_of f k l)) }
{}

/// A valid function has no cases for kinds that it is not for.
pub fn undeclared_pairs_have_no_cases()
    ensures { (f : Function) (k l : Kind) → IsTrue (is_valid f) → is_declared_pair f.head k l ≡ false
        → cases_of f k l ≡ [] }
{}

/// A valid case compares characters only where its block may.
pub fn characters_are_compared_where_they_are()
    ensures { (chars : Bool) (c : GuardedCase) → IsTrue (is_valid_case chars c) → IsTrue (has_char_atoms c.guard)
        → IsTrue chars }
{}

/// Functions are equal that have one head and the same cases for each pair of kinds.
pub fn functions_are_equal_by_their_cases()
    ensures { (f g : Function) → f.head ≡ g.head → ((k l : Kind) → cases_of f k l ≡ cases_of g k l) → f ≡ g }
{}

/// The obligations of a level speak of declared kinds alone, and of all of them: of each pair in one of
/// its two orders, and of each triple in one of the two orders of its first two kinds.
pub fn obligations_are_those_of_the_kinds()
    ensures declared { (head : Head) (level : Level) → list_all (is_obligation head) (obligations_of head level)
        ≡ true }
    ensures pairs { (head : Head) (k l : Kind) → is_declared head k ≡ true → is_declared head l ≡ true
        → Contains (pairs_of (declared_kinds head)) (Pair k l) ⊎ Contains (pairs_of (declared_kinds head)) (Pair l k) }
    ensures triples { (head : Head) (k l m : Kind) → is_declared head k ≡ true → is_declared head l ≡ true
        → is_declared head m ≡ true
        → Contains (triples_of (declared_kinds head)) (Triple k l m)
        ⊎ Contains (triples_of (declared_kinds head)) (Triple l k m) }
{}

/// A level has at most 24 obligations: three kinds have six pairs and eighteen triples.
pub fn levels_have_few_obligations()
    ensures { (head : Head) (level : Level) → length (obligations_of head level) ≤ 24 }
{}
