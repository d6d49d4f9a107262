//! Laws of tables that stand for lists of literals. A law is a clause and no code: a caller
//! whose proof needs it calls it.
ghost use Rattle.std.specs.Prelude.{◌≡◌, ◌↔◌, ℕ, ◌≤◌, List, [], ◌∷◌, ◌++◌, length, slice_index_or, slice_set, ◌<◌};
ghost use Rattle.std.specs.Prelude.{◌+◌, true, false, IsTrue, Option, None};
ghost use Rattle.diff_tables.specs.declared.hop.Hop.{Hop};
ghost use Rattle.diff_graph.specs.declared.lit.Lit.{Lit};
ghost use Rattle.diff_tables.specs.Tables.{Numbered, IsCycleOf, IsPossibleWith, StandsFor, kept_of};
ghost use Rattle.diff_graph.specs.Limits.{AreSmall, IsNamed};
ghost use Rattle.diff_tables.specs.Tables.{literals_of};
ghost use Rattle.diff_tables.specs.Steps.{AreLowered, AreNewRows, IsLowered, IsModest, IsSquare, added, way_of, keeps};
ghost use Rattle.diff_tables.specs.Steps.{leaves_room, numbers_along};
ghost use Rattle.diff_tables.specs.Solutions.{IsUnsatisfiable, HasNegativeCycle};

/// A list of literals is unsatisfiable over the integers exactly where its graph has a negative
/// cycle (Bellman 1958; Cormen, Leiserson, Rivest and Stein, Introduction to Algorithms, the section
/// on difference constraints and shortest paths).
pub fn unsatisfiable_exactly_at_negative_cycles()
    ensures { (ls : List Lit) → IsUnsatisfiable ls ↔ HasNegativeCycle ls }
{}

/// The rows of a new table stand for no literals.
pub fn new_rows_stand_for_nothing()
    ensures square { (n : ℕ) (rows : List (List (Option Hop))) → AreNewRows n n rows → IsSquare rows }
    ensures stands { (n : ℕ) (rows : List (List (Option Hop))) → AreNewRows n n rows → StandsFor n (kept_of rows) [] }
{}

/// A table that stands for a list stands for it with one more literal, which it keeps already or which
/// is added.
pub fn tables_stand_for_what_is_added()
    ensures kept { (n : ℕ) (t : ℕ → ℕ → Option Hop) (ps : List Numbered) (number : ℕ) (l : Lit)
        → StandsFor n t ps → IsNamed n l → keeps (t l.x l.y) l.k ≡ true
        → StandsFor n t (ps ++ record { number = number; lit = l } ∷ []) }
    ensures added { (n : ℕ) (t u : ℕ → ℕ → Option Hop) (ps : List Numbered) (number : ℕ) (l : Lit)
        → StandsFor n t ps → IsNamed n l → leaves_room (t l.y l.x) l.k ≡ true
        → ((x y : ℕ) → u x y ≡ added t number l x y)
        → StandsFor n u (ps ++ record { number = number; lit = l } ∷ []) }
{}

/// Rows that are lowered one after another keep what the step says.
pub fn lowered_rows_keep_the_step()
    ensures one_more { (ways : List (Option Hop)) (from : ℕ) (old new : List (List (Option Hop))) (place : ℕ)
        (row : List (Option Hop))
        → AreLowered ways from old new place → place < length old
        → IsLowered ways from (slice_index_or new place []) row
        → AreLowered ways from old (slice_set new place row) (place + 1) }
    ensures added { (old new : List (List (Option Hop))) (ways : List (Option Hop)) (number : ℕ) (l : Lit)
        → IsSquare old → IsNamed (length old) l → length new ≡ length old
        → ((y : ℕ) → y < length old → IsLowered ways l.y (slice_index_or old y []) (slice_index_or new y []))
        → ((x : ℕ) → x < length old → slice_index_or ways x None ≡ way_of number l x (kept_of old x l.x))
        → (x y : ℕ) → kept_of new x y ≡ added (kept_of old) number l x y }
{}

/// What a table tells of the list that it stands for: whether a literal is possible with it, and if not,
/// a negative cycle. The offsets that it keeps are no sums of more literals than it has names.
pub fn tables_tell_what_is_possible()
    ensures possible { (n : ℕ) (t : ℕ → ℕ → Option Hop) (ps : List Numbered) (l : Lit)
        → StandsFor n t ps → IsNamed n l
        → (IsTrue (leaves_room (t l.y l.x) l.k) ↔ IsPossibleWith (literals_of ps) l) }
    ensures cycle { (n : ℕ) (t : ℕ → ℕ → Option Hop) (ps : List Numbered) (number : ℕ) (l : Lit)
        → StandsFor n t ps → IsNamed n l → leaves_room (t l.y l.x) l.k ≡ false
        → IsCycleOf n (ps ++ record { number = number; lit = l } ∷ [])
        (number ∷ numbers_along (λ x. t x l.x) n l.y l.x) }
    ensures modest { (n : ℕ) (t : ℕ → ℕ → Option Hop) (ps : List Numbered)
        → StandsFor n t ps → AreSmall (literals_of ps) → n ≤ 256 → (x y : ℕ) → IsModest 1000000 (t x y) }
{}
