//! One token at the first open place.
ghost use Rattle.std.specs.Prelude.{◌≡◌, ◌<◌, ◌≤◌, length, drop, Ok, Err, OnOk, OnErr, IfErr};
ghost use Rattle.diff_graph.specs.declared.lit.PickError.{PickError};
ghost use Rattle.diff_graph.specs.Cycles.{pick_verdict};
ghost use Rattle.ask_core.specs.declared.tree.Tok.TheVariants as token;
ghost use Rattle.ask_core.specs.Paths.{AreOwn, branches_at, first_answers};
ghost use Rattle.cert_check.specs.Steps.{after, end_of_cycle, HasFewPicks};
ghost use Rattle.cert_check.specs.Judging.{IsCauseOf};

use crate::cycle::is_plain_cycle;
use crate::verdict::CheckError;
use ask_core::{Asker, MAX_PICKS, Path, Picks, Tok, Turn, turn_at};
use diff_graph::is_negative_cycle;

/// Takes a cycle: it closes the first place where it is a negative cycle of the answers there.
#[inline(always)]
pub fn take_cycle<N: Copy>(path: &mut Path<N>, picks: &Picks) -> Result<(), CheckError>
    requires { 0 < length path.old }
    ensures few { length picks.now ≤ MAX_PICKS }
    ensures closed { OnOk result (path.new ≡ drop 1 path.old) }
    ensures ok { OnOk result (pick_verdict (first_answers path.old) picks.now ≡ Ok tt) }
    ensures err { OnErr result (path.new ≡ path.old) }
    ensures why { IfErr result (λ e. (p : PickError) × (pick_verdict (first_answers path.old) picks.now ≡ Err p)
        × (e ≡ end_of_cycle p)) }
{
    if !is_plain_cycle(path.answers(), picks.as_slice()) {
        is_negative_cycle(path.answers(), picks.as_slice())?;
    }
    path.close();
    Ok(())
}

/// Takes `.`: it closes the first place where the plan holds there.
#[inline(always)]
pub fn take_end<A: Asker>(asker: &mut A, path: &mut Path<A::Node>) -> Result<(), CheckError>
    requires open { 0 < length path.old }
    requires own { AreOwn (A.is_own asker.old) path.old }
    ensures ok { OnOk result (after token.Holds (branches_at (A.plan asker.old) path.old)
        ≡ Ok (branches_at (A.plan asker.new) path.new)) }
    ensures own { AreOwn (A.is_own asker.new) path.new }
    ensures err { OnErr result (path.new ≡ path.old) }
    ensures why { IfErr result (λ e. IsCauseOf e token.Holds (branches_at (A.plan asker.old) path.old)) }
    ensures branches { branches_at (A.plan asker.new) path.old ≡ branches_at (A.plan asker.old) path.old }
    ensures root { A.root asker.new ≡ A.root asker.old }
{
    match turn_at(asker, path)? {
        Turn::Ask { .. } => Err(CheckError::NotDone),
        Turn::Holds => {
            path.close();
            Ok(())
        }
        Turn::Fails(_) => Err(CheckError::GoalFails),
    }
}

/// Takes `?`: the first place becomes its part for yes, and then comes its part for no.
#[inline(always)]
pub fn take_question<A: Asker>(asker: &mut A, path: &mut Path<A::Node>) -> Result<(), CheckError>
    requires open { 0 < length path.old }
    requires own { AreOwn (A.is_own asker.old) path.old }
    ensures ok { OnOk result (after token.Ask (branches_at (A.plan asker.old) path.old)
        ≡ Ok (branches_at (A.plan asker.new) path.new)) }
    ensures own { AreOwn (A.is_own asker.new) path.new }
    ensures err { OnErr result (path.new ≡ path.old) }
    ensures why { IfErr result (λ e. IsCauseOf e token.Ask (branches_at (A.plan asker.old) path.old)) }
    ensures branches { branches_at (A.plan asker.new) path.old ≡ branches_at (A.plan asker.old) path.old }
    ensures root { A.root asker.new ≡ A.root asker.old }
{
    match turn_at(asker, path)? {
        Turn::Ask { lit, yes, no } => {
            path.ask(lit, yes, no)?;
            Ok(())
        }
        Turn::Holds => Err(CheckError::NotAQuestion),
        Turn::Fails(_) => Err(CheckError::NotAQuestion),
    }
}

/// Takes any token at the first place, or says why it is refused there; a refusal leaves the path as
/// it was.
#[inline(always)]
pub fn take_token<A: Asker>(
    asker: &mut A,
    path: &mut Path<A::Node>,
    tok: &Tok,
) -> Result<(), CheckError>
    requires open { 0 < length path.old }
    requires own { AreOwn (A.is_own asker.old) path.old }
    ensures ok { OnOk result (after tok.now (branches_at (A.plan asker.old) path.old)
        ≡ Ok (branches_at (A.plan asker.new) path.new)) }
    ensures few { OnOk result (HasFewPicks tok.now) }
    ensures own { AreOwn (A.is_own asker.new) path.new }
    ensures err { OnErr result (path.new ≡ path.old) }
    ensures why { IfErr result (λ e. IsCauseOf e tok.now (branches_at (A.plan asker.old) path.old)) }
    ensures branches { branches_at (A.plan asker.new) path.old ≡ branches_at (A.plan asker.old) path.old }
    ensures root { A.root asker.new ≡ A.root asker.old }
{
    match tok {
        Tok::Ask => take_question(asker, path),
        Tok::Holds => take_end(asker, path),
        Tok::Cycle(picks) => take_cycle(path, picks),
    }
}
