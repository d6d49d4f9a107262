//! What the reader takes, as the grammar tells it. These functions work nothing out: their contracts are
//! the laws.
ghost use Rattle.std.specs.Prelude.{◌≡◌, ℕ, List, Ok, IsTrue};
ghost use Rattle.fn_rules.specs.Functions.{Function};
ghost use Rattle.fn_rules.specs.Validity.{is_valid};
ghost use Rattle.fn_text.specs.Reading.{function_in};
ghost use Rattle.fn_grammar.specs.Grammar.{IsTextOf};
ghost use Rattle.fn_text.specs.Continuing.{TakenTokensGoOn, ExceptionsAreDeadEnds};

/// What is read is in the grammar, and is the function that its phrases mean, which is within the limits.
pub fn what_is_read_is_in_the_grammar()
    ensures text { (bytes : List ℕ) (f : Function) → function_in bytes ≡ Ok f → IsTextOf bytes f }
    ensures valid { (bytes : List ℕ) (f : Function) → IsTextOf bytes f → IsTrue (is_valid f) }
{}

/// Some file of the grammar begins with tokens that the reader took, so none of them is the first wrong
/// one. There are two exceptions, in which none does. Where an operand is wanted behind the last atom
/// that a case may have, a file goes on in which that case has one atom more. Where the word `block` was
/// read and its line can name no pair of kinds that is without a block, the kinds are still to be judged
/// before that word is.
pub fn taken_tokens_can_go_on()
    ensures go_on { TakenTokensGoOn }
    ensures exceptions { ExceptionsAreDeadEnds }
{}
