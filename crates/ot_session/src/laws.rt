//! Laws of the calls: what each answers, and leaves behind, is told by the session before it. They are the contracts of
//! functions that do nothing.
ghost use Rattle.std.specs.Prelude.{◌≡◌, ◌≢◌, ℕ, List, Result, Ok, Err};
ghost use Rattle.ot_model.specs.declared.cell.Cell.{Cell};
ghost use Rattle.ot_model.specs.declared.op.Op.{Op};
ghost use Rattle.fn_rules.specs.Functions.{Function};
ghost use Rattle.ot_session.specs.declared.answer.Take.{Take};
ghost use Rattle.ot_session.specs.declared.answer.Take.TheVariants as takes;
ghost use Rattle.ot_session.specs.declared.answer.Took.{Took};
ghost use Rattle.ot_session.specs.Views.{View, IsBegun, HasMade, HasTaken};

/// A new session is told by its function, its document and the number of its sites.
pub fn sessions_begin_as_one()
    ensures { (f : Function) (d : List Cell) (sites : ℕ) (one other : View) → IsBegun f d sites one
        → IsBegun f d sites other → one ≡ other }
{}

/// The number of an operation that is made at a site, and the session behind it, are told by the session before it.
pub fn makes_have_one_outcome()
    ensures { (old one other : View) (t n m : ℕ) (o : Op) → HasMade old one t o n → HasMade old other t o m → (n ≡ m)
        × (one ≡ other) }
{}

/// What a site answers where it takes an operation is told by the session alone: two answers, of which neither is want
/// of memory, are one, and so is the session behind them, whether the operation was taken or refused.
pub fn takes_have_one_answer()
    ensures answer { (old one other : View) (t n : ℕ) (a b : Result Took Take) → HasTaken old one t n a
        → HasTaken old other t n b
        → a ≢ Err takes.NoMemory → b ≢ Err takes.NoMemory → a ≡ b }
    ensures session { (old one other : View) (t n : ℕ) (took : Took) → HasTaken old one t n (Ok took)
        → HasTaken old other t n (Ok took)
        → one ≡ other }
    ensures refusal { (old one other : View) (t n : ℕ) (e : Take) → HasTaken old one t n (Err e)
        → HasTaken old other t n (Err e)
        → e ≢ takes.NoMemory → one ≡ other }
{}
