//! What is true of the cases that are taken, and of documents that do not differ. These functions do nothing: their
//! contracts are the laws.
ghost use Rattle.std.specs.Prelude.{◌≡◌, ◌↔◌, List, Some, None};
ghost use Rattle.ot_model.specs.declared.cell.Cell.{Cell};
ghost use Rattle.ot_model.specs.declared.op.Op.{Op};
ghost use Rattle.fn_rules.specs.Functions.{Function};
ghost use Rattle.fn_rules.specs.Transformation.{transform_of};
ghost use Rattle.ot_ways.specs.declared.taken_case.Taken.{Taken};
ghost use Rattle.ot_ways.specs.Differences.{difference_of};
ghost use Rattle.ot_ways.specs.Taken.{taken_of, AreAllFalse, BothAct, IsTaken};

/// A case is taken exactly where it is the first of its block whose guard is true, and then the transformation comes to
/// its result. None is taken exactly where no guard of the block is true; of two operations that are not nop, this is
/// exactly where the transformation has no result.
pub fn cases_are_taken()
    ensures some { (f : Function) (a b : Op) (t : Taken) → (taken_of f a b ≡ Some t) ↔ IsTaken f a b t }
    ensures none { (f : Function) (a b : Op) → (taken_of f a b ≡ None) ↔ AreAllFalse f a b }
    ensures undefined { (f : Function) (a b : Op)
        → (transform_of f a b ≡ None) ↔ (BothAct a b × AreAllFalse f a b) }
{}

/// Two documents that differ at no place are one.
pub fn documents_without_difference_are_one()
    ensures { (left right : List Cell) → (difference_of left right ≡ None) ↔ (left ≡ right) }
{}
