//! Functions with the edits that lead to them.
ghost use Rattle.std.specs.Prelude.{◌≡◌, ◌++◌, ◌∷◌, [], IfOk};
ghost use Rattle.fn_rules.specs.Rules.{function_of};
ghost use Rattle.ot_mend.specs.Members.{member, stage_of};
ghost use Rattle.ot_mend.specs.Ranks.{rank_of};
ghost use Rattle.fewest_edits.specs.Candidates.{IsNextOf, member_of};

use fn_rules::{NoMemory, Rules};
use ot_mend::{Edit, Rank, edited, rank_after};
use std::alloc::Global;

/// A function, and the edits that lead to it.
#[derive(Drop)]
pub(crate) struct Candidate {
    pub(crate) rules: Rules,
    pub(crate) edits: Vec<Edit>,
}

/// The stage in which an edit is made.
pub(crate) fn stage_of(edit: &Edit) -> usize
    ensures { result ≡ stage_of edit.now }
{
    match edit {
        Edit::InBlock { first, second, .. } => 3 * first.rank() + second.rank(),
        Edit::AssumeSites => 9,
        Edit::AssumeChars => 10,
    }
}

// The edits, and one more.
fn with_edit(alloc: Global, edits: &[Edit], edit: Edit) -> Result<Vec<Edit>, NoMemory>
    ensures { IfOk result (λ more. more.items ≡ edits.now ++ edit ∷ []) }
{
    let mut more = Vec::with_capacity(alloc, edits.len())?;
    more.extend_from_slice(edits)?;
    more.push(edit)?;
    Ok(more)
}

impl Candidate {
    /// The function itself, without edits.
    pub(crate) fn new(alloc: Global, rules: &Rules) -> Result<Candidate, NoMemory>
        ensures { IfOk result (λ c. member_of c ≡ member [] (function_of rules.now)) }
    {
        Ok(Candidate {
            rules: rules.try_clone()?,
            edits: Vec::new(alloc),
        })
    }

    /// What one edit more leads to; none where it belongs to an earlier stage, or would break a limit.
    pub(crate) fn next(
        &self,
        alloc: Global,
        stage: usize,
        edit: &Edit,
    ) -> Result<Option<Candidate>, NoMemory>
        ensures { IfOk result (IsNextOf stage (member_of self.now) edit.now) }
    {
        if stage_of(edit) < stage {
            return Ok(None);
        }
        match edited(alloc, &self.rules, edit)? {
            None => Ok(None),
            Some(rules) => {
                let edits = with_edit(alloc, &self.edits, *edit)?;
                Ok(Some(Candidate { rules, edits }))
            }
        }
    }

    /// Its rank.
    pub(crate) fn rank(&self) -> Rank
        ensures { result ≡ rank_of self.now.edits.items (function_of self.now.rules) }
    {
        rank_after(&self.edits, &self.rules)
    }
}
