//! The least values that meet answers.
ghost use Rattle.std.specs.Prelude.{◌≡◌, ◌<◌, ◌^◌, pos, length, slice_index_or, IfOk};
ghost use Rattle.fn_rules.specs.declared.function.ObName.{ObName};
ghost use Rattle.diff_tables.specs.Solutions.{AreLeast, AreFloors, IsPossibleAbove};
ghost use Rattle.diff_graph.specs.Limits.{AreNamed, AreSmall};
ghost use Rattle.ot_questions.specs.declared.name.Who.{Who};
ghost use Rattle.ot_questions.specs.Names.{name_count, char_name};
ghost use Rattle.ot_questions.specs.Sorts.{AreLike};
ghost use Rattle.ot_values.specs.Values.{floors_of, IsPossibleAtPositions, IsSmallAt};

use crate::NoMemory;
use crate::laws::answers_have_least_values;
use diff_graph::Lit;
use diff_tables::least;
use fn_rules::ObName;
use std::alloc::Global;

// The floors of the names of a pair: zero, the length and the index; then of each operation its position,
// its site and its character.
const PAIR_FLOORS: [i32; 9] = [0, 0, 0, 0, 1, 97, 0, 2, 98];

// The floors of the names of a triple.
const TRIPLE_FLOORS: [i32; 12] = [0, 0, 0, 0, 1, 97, 0, 2, 98, 0, 3, 99];

/// The least values above the floors that meet answers, one for each name that the obligation has. The
/// answers compare like with like, and some integers meet them that are not negative at the positions they
/// speak of. The error is want of memory.
pub fn least_values(alloc: Global, ob: ObName, answers: &[Lit]) -> Result<Vec<i32>, NoMemory>
    requires like { AreLike answers.now }
    requires named { AreNamed (name_count ob) answers.now }
    requires small { AreSmall answers.now }
    requires few { length answers.now < 2 ^ 32 }
    requires possible { IsPossibleAtPositions answers.now }
    ensures least { IfOk result (λ values. AreLeast answers.now (floors_of ob) values.items) }
    ensures small { IfOk result (λ values. (who : Who) → char_name who < length (floors_of ob)
        → IsSmallAt values.items who) }
{
    answers_have_least_values();
    let values = least_above_floors(alloc, ob, answers)?;
    Ok(values)
}

// The least values above the floors of the obligation, where there are some.
fn least_above_floors(alloc: Global, ob: ObName, answers: &[Lit]) -> Result<Vec<i32>, NoMemory>
    requires named { AreNamed (name_count ob) answers.now }
    requires small { AreSmall answers.now }
    requires few { length answers.now < 2 ^ 32 }
    requires possible { IsPossibleAbove (floors_of ob) answers.now }
    ensures { IfOk result (λ values. AreLeast answers.now (floors_of ob) values.items) }
{
    match ob {
        ObName::Pair(_, _) => least_above(alloc, answers, &PAIR_FLOORS),
        ObName::Triple(_, _, _) => least_above(alloc, answers, &TRIPLE_FLOORS),
    }
}

// The least values above floors, where there are some.
fn least_above(alloc: Global, answers: &[Lit], floors: &[i32]) -> Result<Vec<i32>, NoMemory>
    requires names { 0 < length floors.now }
    requires zero_first { slice_index_or floors.now 0 (pos 0) ≡ pos 0 }
    requires floors { AreFloors floors.now }
    requires named { AreNamed (length floors.now) answers.now }
    requires small { AreSmall answers.now }
    requires few { length answers.now < 2 ^ 32 }
    requires possible { IsPossibleAbove floors.now answers.now }
    ensures { IfOk result (λ values. AreLeast answers.now floors.now values.items) }
{
    match least(alloc, answers, floors)? {
        Some(values) => Ok(values),
        None => unreachable!(),
    }
}
