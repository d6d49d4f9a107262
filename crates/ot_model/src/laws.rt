//! Laws of kinds and operations, for the layers above. Each is the contract of a function that does nothing.
ghost use Rattle.std.specs.Prelude.{◌≡◌, ◌≢◌, ◌↔◌, ◌+◌, ◌≤◌, ℤ, List, Option, Some, None, length, slice_get, true};
ghost use Rattle.std.specs.Prelude.{is_some};
ghost use Rattle.std.specs.List.{Contains};
ghost use Rattle.ot_model.specs.declared.cell.Cell.{Cell};
ghost use Rattle.ot_model.specs.declared.op.Kind.{Kind};
ghost use Rattle.ot_model.specs.declared.op.Mode.{Mode};
ghost use Rattle.ot_model.specs.declared.op.Op.{Op};
ghost use Rattle.ot_model.specs.declared.op.TheConstants.{KINDS};
ghost use Rattle.ot_model.specs.Kinds.{kind_rank, is_same_kind, has_char, kind_pairs};
ghost use Rattle.ot_model.specs.Effect.{document_after};
ghost use Rattle.ot_model.specs.Operations.{kind_of, at_of, site_of, char_of, placed};

/// Each kind stands in the list of kinds, at its place, and each pair of kinds in the list of pairs.
pub fn every_kind_is_listed()
    ensures place { (k : Kind) → slice_get KINDS (kind_rank k) ≡ Some k }
    ensures kind { (k : Kind) → Contains KINDS k }
    ensures pair { (k l : Kind) → Contains kind_pairs (k, l) }
{}

/// The test of two kinds tells them apart.
pub fn kinds_are_told_apart()
    ensures { (k l : Kind) → (is_same_kind k l ≡ true) ↔ (k ≡ l) }
{}

/// An operation of a kind that has a character has one, and no other has; nop alone has no kind.
pub fn operations_have_the_parts_of_their_kind()
    ensures char { (o : Op) (k : Kind) → kind_of o ≡ Some k → is_some (char_of o) ≡ has_char k }
    ensures site { (o : Op) (k : Kind) → kind_of o ≡ Some k → is_some (site_of o) ≡ true }
    ensures nop { (o : Op) → (kind_of o ≡ None) ↔ (o ≡ Op.Nop) }
{}

/// An operation that is placed elsewhere keeps its kind, site and character, and stands there.
pub fn placing_changes_the_position_alone()
    ensures kind { (o : Op) (to : ℤ) → kind_of (placed o to) ≡ kind_of o }
    ensures site { (o : Op) (to : ℤ) → site_of (placed o to) ≡ site_of o }
    ensures char { (o : Op) (to : ℤ) → char_of (placed o to) ≡ char_of o }
    ensures position { (o : Op) (to : ℤ) → o ≢ Op.Nop → at_of (placed o to) ≡ to }
{}

/// An operation makes a document longer by at most one cell.
pub fn documents_grow_by_one_cell_at_most()
    ensures { (mode : Mode) (o : Op) (d : List Cell) → length (document_after mode o d) ≤ length d + 1 }
{}
