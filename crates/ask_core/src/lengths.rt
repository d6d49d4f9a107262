//! How long a question list is.
ghost use Rattle.std.specs.Prelude.{ℕ, ◌^◌, ◌<◌, List, length};
ghost use Rattle.diff_graph.specs.declared.lit.Lit.{Lit};
ghost use Rattle.ask_core.specs.Plans.{Plan};
ghost use Rattle.ask_core.specs.Askers.{longest_path};
ghost use Rattle.ask_core.specs.Questions.{Questions, QuestionList};

/// A law and no code: a question list is shorter than 2 to the number of questions on the plan's longest
/// path, since a tree with two branches at each question has no more questions than that.
pub fn paths_bound_question_lists<W: Copy>()
    ensures { (p : Plan W) (w : List Lit) (q : Questions W) → QuestionList p w q → length q.asked < 2 ^ longest_path p }
{}
