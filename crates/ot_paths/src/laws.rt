//! Which goals are nodes. The function works nothing out: its contract is the law.
ghost use Rattle.std.specs.Prelude.{◌+◌, ◌≤◌, max, IsTrue};
ghost use Rattle.fn_rules.specs.declared.function.ObName.{ObName};
ghost use Rattle.fn_rules.specs.Functions.{Function};
ghost use Rattle.fn_rules.specs.Obligations.{is_obligation};
ghost use Rattle.ask_core.specs.declared.asker.TheConstants.{MAX_QUESTIONS};
ghost use Rattle.ask_core.specs.Askers.{longest_path};
ghost use Rattle.ot_questions.specs.declared.why.Why.{Why};
ghost use Rattle.ot_questions.specs.Names.{name_count};
ghost use Rattle.ot_terms.specs.Belonging.{HasPlaces};
ghost use Rattle.ot_terms.specs.Forms.{FormTree};
ghost use Rattle.ot_terms.specs.Goals as goals;
ghost use Rattle.ot_terms.specs.Goals.{GoalTree};
ghost use Rattle.ot_terms.specs.Standing.{ask_goal};
ghost use Rattle.ot_rewrite.specs.Splits.{comparisons_left};
ghost use Rattle.ot_paths.specs.Nodes.{IsNode};

/// The goals that a condition alone makes are nodes, so a `PathAsker` can be made over them: the two ends; and a
/// condition with places, in front of two nodes, where no path has too many questions. It asks at most its comparisons.
pub fn conditions_are_nodes()
    ensures ends { (f : Function) (ob : ObName) (why : Why) → IsTrue (is_obligation f.head ob)
        → IsNode f ob goals.Holds × IsNode f ob (goals.Fails why) }
    ensures paths { (f : Function) (ob : ObName) (g : FormTree) (y n : GoalTree) → HasPlaces (name_count ob) g
        → longest_path (ask_goal f (goals.If g y n))
        ≤ comparisons_left g + max (longest_path (ask_goal f y)) (longest_path (ask_goal f n)) }
    ensures conditions { (f : Function) (ob : ObName) (g : FormTree) (y n : GoalTree) → HasPlaces (name_count ob) g
        → IsNode f ob y → IsNode f ob n
        → comparisons_left g + max (longest_path (ask_goal f y)) (longest_path (ask_goal f n)) ≤ MAX_QUESTIONS
        → IsNode f ob (goals.If g y n) }
{}
