//! The goals of one function, laid out where transformations begin.
ghost use Rattle.std.specs.Prelude.{◌≡◌, IsTrue, IfOk};
ghost use Rattle.fn_rules.specs.declared.function.ObName.{ObName};
ghost use Rattle.fn_rules.specs.Obligations.{is_obligation};
ghost use Rattle.fn_rules.specs.Rules.{function_of};
ghost use Rattle.ot_questions.specs.Obligation.{plan_of};
ghost use Rattle.ot_terms.specs.Belonging.{IsGoalOf};
ghost use Rattle.ot_terms.specs.Goals.{goal_tree};
ghost use Rattle.ot_terms.specs.Standing.{ask_goal};
ghost use Rattle.start_laws.specs.Marking.{marked_goal, marked_plan};
ghost use Rattle.ot_starts.specs.Nodes.{IsStop};
ghost use Rattle.ot_starts.specs.Turns.{TurnsAs};

use crate::kept::{Ends, Table};
use crate::settling::first_stop;
use crate::walking::turn_of;
use ask_core::{NoMemory, Turn};
use bumpalo::Bump;
use fn_rules::{ObName, Rules};
use ot_terms::{Goal, Why};
use std::marker::Model;

/// The rules of a function, and what was laid out by them in an arena so far.
#[derive(Drop)]
pub struct Laid<'a> {
    rules: &'a Rules,
    starts: Table<'a>,
    ends: Ends<'a>,
}

impl<'a> Model for Laid<'a> {
    ghost use Rattle.std.specs.List.{All};
    ghost use Rattle.std.specs.Coded.{codes};
    ghost use Rattle.fn_rules.specs.contracts.rules.Rules as row;
    ghost use Rattle.fn_rules.specs.declared.rules.Rules.{Rules};
    ghost use Rattle.fn_rules.specs.Rules.{function_of};
    ghost use Rattle.ot_starts.specs.Kept.{IsKeptStart, IsKeptEnd};

    ghost Value = { Rules };

    ghost coded = { Prim.hlevel (codes, row.the_row.coded) };

    ghost view = { λ s. s.rules.now };

    ghost invariant = { λ s. All (IsKeptStart (function_of s.rules.now)) s.starts.goals.items
        × All (IsKeptEnd (function_of s.rules.now)) s.ends.kept.goals.items };
}

impl<'a> Laid<'a> {
    /// Nothing is laid out yet. It takes no memory.
    pub(crate) fn new(bump: &'a Bump, rules: &'a Rules) -> Laid<'a>
        ensures { result ≡ rules.now }
    {
        Laid {
            rules,
            starts: Table::new(bump),
            ends: Ends {
                bump,
                kept: Table::new(bump),
            },
        }
    }

    /// The function's rules.
    pub(crate) fn rules(&self) -> &'a Rules
        ensures { result.now ≡ self.now }
    {
        self.rules
    }

    /// What an obligation begins with, as far as to its first question.
    pub(crate) fn first(&self, ob: ObName) -> Result<&'a Goal<'a>, NoMemory>
        requires { IsTrue (is_obligation (function_of self.now).head ob) }
        ensures stop { IfOk result (λ g. IsStop (function_of self.now) ob (goal_tree g.now)) }
        ensures plan { IfOk result (λ g. ask_goal (function_of self.now) (goal_tree g.now)
            ≡ plan_of (function_of self.now) ob) }
        ensures marked { IfOk result (λ g. marked_goal (function_of self.now) (goal_tree g.now)
            ≡ marked_plan (function_of self.now) ob) }
    {
        first_stop(self.ends.bump, self.rules, ob)
    }

    /// How the plan of a goal begins.
    #[inline(always)]
    pub(crate) fn turn(&mut self, goal: &'a Goal<'a>) -> Result<Turn<&'a Goal<'a>, Why>, NoMemory>
        requires { (ob : ObName) × IsGoalOf (function_of self.old) ob (goal_tree goal.now) }
        ensures turns { IfOk result (λ t. TurnsAs (function_of self.old) (goal_tree goal.now) t) }
        ensures same { self.new ≡ self.old }
    {
        turn_of(self.rules, &mut self.starts, &mut self.ends, goal)
    }
}
