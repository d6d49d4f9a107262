//! The obligations of one property alone.
ghost use Rattle.std.specs.Prelude.{◌≡◌, ◌≤◌, true, IfOk, length};
ghost use Rattle.std.specs.List.{AllByRecursion, list_all};
ghost use Rattle.fn_rules.specs.declared.function.Head.{Head};
ghost use Rattle.fn_rules.specs.declared.function.Level.{Level};
ghost use Rattle.fn_rules.specs.Obligations.{is_obligation, level_of};
ghost use Rattle.ot_bound.specs.Lows.{parts_of};

use ask_core::NoMemory;
use fn_rules::{
    Head, Level, ObName, levels_have_few_obligations, obligations_are_those_of_the_kinds, pairs,
    triples,
};
use std::alloc::Global;

/// The obligations of a level's property: its pairs at level tp1, and at level tp2 its triples alone.
pub fn parts(alloc: Global, head: &Head, level: Level) -> Result<Vec<ObName>, NoMemory>
    ensures { IfOk result (λ v. v.items ≡ parts_of head.now level) }
{
    match level {
        Level::Tp1 => pairs(alloc, head),
        Level::Tp2 => triples(alloc, head),
    }
}

/// The obligations of a level's property are parts of that level, speak of declared kinds alone, and are few. This
/// function works nothing out: its contract is the law.
pub fn parts_are_obligations()
    ensures listed { (head : Head) (level : Level) → list_all (is_obligation head) (parts_of head level) ≡ true }
    ensures of_level { (head : Head) (level : Level) → AllByRecursion (λ ob. level_of ob ≡ level)
        (parts_of head level) }
    ensures few { (head : Head) (level : Level) → length (parts_of head level) ≤ 24 }
{
    obligations_are_those_of_the_kinds();
    levels_have_few_obligations();
}
