//! The asker of one obligation, with its starts.
ghost use Rattle.std.specs.Prelude.{◌≡◌, IsTrue, IfOk, IfSome, option_map};
ghost use Rattle.fn_rules.specs.Obligations.{is_obligation};
ghost use Rattle.fn_rules.specs.Rules.{function_of};
ghost use Rattle.ask_core.specs.Askers.{Begins};
ghost use Rattle.proof_trees.specs.Starts.{IsLawful, start_of};
ghost use Rattle.proof_trees.specs.Starters.{BeginsAt};
ghost use Rattle.ot_questions.specs.Names as names;
ghost use Rattle.ot_questions.specs.Obligation.{plan_of};
ghost use Rattle.ot_terms.specs.Goals.{goal_tree};
ghost use Rattle.ot_terms.specs.Standing.{ask_goal};
ghost use Rattle.start_laws.specs.Begun.{IsBegunProgress, start_after};
ghost use Rattle.start_laws.specs.Starts.{compare_starts, meaning};
ghost use Rattle.start_laws.specs.Marking.{marked_goal};
ghost use Rattle.ot_starts.specs.Nodes.{IsStop, starts_of};

use crate::begun::Begun;
use crate::fronts::{compared, is_begun, start_at};
use crate::laid::Laid;
use ask_core::{Asker, NoMemory, Turn};
use bumpalo::Bump;
use diff_graph::Lit;
use fn_rules::{ObName, Rules};
use ot_terms::{Goal, Why};
use plain_list::List;
use proof_trees::Starter;
use start_laws::{StartAt, rules_keep_starts, starts_have_one_value};
use std::alloc::Global;

/// What an obligation of a function asks, with a start wherever a transformation begins. Its nodes are goals in an
/// arena that stands outside.
#[derive(Drop)]
pub struct StartAsker<'a> {
    laid: Laid<'a>,
    ob: ObName,
    told: u64,
    ghost listed: { IsTrue (is_obligation (function_of laid).head ob) },
    ghost lawful: { IsLawful compare_starts (meaning (function_of laid)) },
}

impl<'a> StartAsker<'a> {
    /// The asker of an obligation that is one of the function's. It takes no memory.
    pub fn new(bump: &'a Bump, rules: &'a Rules, ob: ObName) -> StartAsker<'a>
        requires { IsTrue (is_obligation (function_of rules.now).head ob) }
        ensures root { ⟦<StartAsker<'a> as Asker>⟧.root result ≡ plan_of (function_of rules.now) ob }
        ensures count { ⟦<StartAsker<'a> as Asker>⟧.name_count result ≡ names.name_count ob }
        ensures starts { ⟦<StartAsker<'a> as Starter>⟧.starts result ≡ starts_of (function_of rules.now) ob }
        ensures told { ⟦<StartAsker<'a> as Starter>⟧.told result ≡ 0 }
    {
        starts_have_one_value();
        StartAsker {
            laid: Laid::new(bump, rules),
            ob,
            told: 0,
        }
    }

    /// The start at a node, if a transformation begins there.
    pub fn start_at(&self, node: &'a Goal<'a>) -> Option<StartAt<'a>>
        requires { IsStop (function_of self.now.laid) self.now.ob (goal_tree node.now) }
        ensures start { option_map (λ s. start_after s.progress.now s.last) result
            ≡ start_of (marked_goal (function_of self.now.laid) (goal_tree node.now)) }
        ensures begun { IfSome result (λ s. IsBegunProgress s.progress.now s.last) }
    {
        rules_keep_starts();
        start_at(node)
    }

    // How the plan of a node begins, with its starts and without them.
    #[inline(always)]
    fn walked(&mut self, node: &'a Goal<'a>) -> Result<Turn<&'a Goal<'a>, Why>, NoMemory>
        requires { IsStop (function_of self.old.laid) self.old.ob (goal_tree node.now) }
        ensures marked { IfOk result (λ t. BeginsAt (λ n. IsStop (function_of self.old.laid) self.old.ob
            (goal_tree n.now))
            (λ n. marked_goal (function_of self.old.laid) (goal_tree n.now)) t
            (marked_goal (function_of self.old.laid) (goal_tree node.now))) }
        ensures plain { IfOk result (λ t. Begins (λ n. IsStop (function_of self.old.laid) self.old.ob (goal_tree n.now))
            (λ n. ask_goal (function_of self.old.laid) (goal_tree n.now)) t
            (ask_goal (function_of self.old.laid) (goal_tree node.now))) }
        ensures laid { self.new.laid ≡ self.old.laid }
        ensures ob { self.new.ob ≡ self.old.ob }
        ensures told { self.new.told ≡ self.old.told }
    {
        self.laid.turn(node)
    }
}

impl<'a> Asker for StartAsker<'a> {
    ghost use Rattle.fn_rules.specs.Rules.{function_of};
    ghost use Rattle.ot_questions.specs.Names as names;
    ghost use Rattle.ot_questions.specs.Obligation.{plan_of};
    ghost use Rattle.ot_terms.specs.Goals.{goal_tree};
    ghost use Rattle.ot_terms.specs.Standing.{ask_goal};
    ghost use Rattle.ot_starts.specs.Nodes.{IsStop};

    type Node = &'a Goal<'a>;

    type Why = Why;

    ghost is_own = { λ a n. IsStop (function_of a.laid) a.ob (goal_tree n.now) };

    ghost plan = { λ a n. ask_goal (function_of a.laid) (goal_tree n.now) };

    ghost root = { λ a. plan_of (function_of a.laid) a.ob };

    ghost name_count = { λ a. names.name_count a.ob };

    fn names(&self) -> u8 {
        match self.ob {
            ObName::Pair(..) => 9,
            ObName::Triple(..) => 12,
        }
    }

    fn start(&mut self) -> Result<&'a Goal<'a>, NoMemory> {
        self.laid.first(self.ob)
    }

    fn turn(&mut self, node: &'a Goal<'a>) -> Result<Turn<&'a Goal<'a>, Why>, NoMemory> {
        self.walked(node)
    }

    ghost fine = { λ a n own. own.node.fine };
}

impl<'a> Starter for StartAsker<'a> {
    ghost use Rattle.fn_rules.specs.Rules.{function_of};
    ghost use Rattle.ot_starts.specs.Nodes.{starts_of};
    ghost use Rattle.ot_starts.specs.Whole.{IsWhole-starts};

    type Start = Begun;

    ghost starts = { λ a. starts_of (function_of a.laid) a.ob };

    ghost told = { λ a. a.told };

    fn first(&mut self) -> Result<&'a Goal<'a>, NoMemory> {
        self.laid.first(self.ob)
    }

    #[inline(always)]
    fn follow(&mut self, node: &'a Goal<'a>) -> Result<Turn<&'a Goal<'a>, Why>, NoMemory> {
        match self.walked(node)? {
            Turn::Ask { lit, yes, no } => {
                self.told = self.told.saturating_add(1);
                Ok(Turn::Ask { lit, yes, no })
            }
            Turn::Holds => Ok(Turn::Holds),
            Turn::Fails(why) => Ok(Turn::Fails(why)),
        }
    }

    fn begins(&self, node: &'a Goal<'a>) -> bool {
        rules_keep_starts();
        is_begun(node)
    }

    fn compare(
        &mut self,
        alloc: Global,
        lemma: &'a Goal<'a>,
        here: &'a Goal<'a>,
    ) -> Result<Option<List<Lit>>, NoMemory> {
        rules_keep_starts();
        compared(alloc, self.laid.rules(), lemma, here)
    }

    ghost whole = { λ a. IsWhole-starts (function_of a.laid) a.ob a.listed a.lawful };
}
