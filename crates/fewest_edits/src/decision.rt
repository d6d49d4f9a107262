//! What is decided of a function.
ghost use Rattle.std.specs.Prelude.{IfOk};
ghost use Rattle.fn_rules.specs.declared.function.Level.{Level};
ghost use Rattle.fn_rules.specs.Functions.{Function};
ghost use Rattle.fn_rules.specs.Rules.{function_of};
ghost use Rattle.fewest_edits.specs.declared.decision.Decision.{Decision};

use fn_rules::{Level, NoMemory, Rules};
use std::alloc::Global;

/// Whether a function has the properties of a level.
#[derive(Clone, Copy)]
pub enum Decision {
    /// It has them.
    Yes,

    /// It lacks one of them.
    No,

    /// It has more questions than are allowed.
    Spent,
}

/// What decides whether functions have the properties of a level.
pub trait Decider {
    /// How functions are decided.
    ghost decides: { Level → Function → Decision → Type 0 };

    /// Decides whether a function has the properties of a level.
    fn decide(&mut self, alloc: Global, rules: &Rules, level: Level) -> Result<Decision, NoMemory>
        ensures { IfOk result (decides level (function_of rules.now)) };
}
