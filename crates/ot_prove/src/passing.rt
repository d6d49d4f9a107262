//! Questions one after another whose side for yes has no room.
ghost use Rattle.std.specs.Prelude.{◌≡◌, ℕ, ◌<◌, ◌≤◌, List, ◌∷◌, Option, None, drop, length, reverse, IfOk};
ghost use Rattle.diff_graph.specs.declared.lit.Lit.{Lit};
ghost use Rattle.ask_core.specs.Paths.{after_question};
ghost use Rattle.ask_core.specs.declared.asker.TheConstants.{MAX_NAMES};
ghost use Rattle.ot_prove.specs.Searching.{HasPassed, IsSearching};

use crate::NoMemory;
use ask_core::{Asker, Path, look_at};
use cert_text::Tree;
use diff_bounds::Bounds;
use diff_graph::{Lit, negative_cycles_are_never_met};
use diff_tables::tables_tell_what_is_possible;
use search_places::{MAX_NAMES, excludes_yes, put_yes};

/// What a question whose side for yes is closed at once changes of a search.
#[derive(Drop)]
pub struct Passing<N: Copy> {
    pub path: Path<N>,
    pub tree: Tree,
    pub asked: u64,
}

// The places after the literal was asked at the first one, whose part for yes is closed at once.
#[inline(never)]
fn longer<N: Copy>(path: Path<N>, lit: Lit, no: N) -> Result<Path<N>, NoMemory>
    requires { 0 < length path }
    ensures { IfOk result (λ r. (yes : N) → r ≡ drop 1 (after_question lit yes no path)) }
{
    let mut path = path;
    path.ask_no(lit, no)?;
    Ok(path)
}

/// Goes on at no, as long as the asker has a question at hand whose side for yes has no room, the tree and the path
/// have room at hand, and the budget is not spent. The last table is that of the first place, which some integers
/// meet.
// By value, so that the loop keeps lengths and places in registers: of some plans nine of ten questions are such.
#[inline(never)]
pub fn passed<A: Asker>(
    asker: &A,
    tables: &Vec<Bounds<MAX_NAMES>>,
    path: Path<A::Node>,
    tree: Tree,
    asked: u64,
    budget: u64,
) -> Result<Passing<A::Node>, NoMemory>
    requires names { A.name_count asker.now ≤ MAX_NAMES }
    requires opened { 0 < length path }
    requires searching { (cycles : List (Option (List ℕ)))
        × IsSearching (A.is_own asker.now) (A.plan asker.now) (A.root asker.now) budget path (None ∷ cycles)
        (reverse tables.now.items) tree.tokens asked }
    ensures { IfOk result (HasPassed (A.is_own asker.now) (A.plan asker.now) (A.root asker.now) budget
        tables.now.items (record { path = path; tree = tree; asked = asked })) }
{
    negative_cycles_are_never_met();
    tables_tell_what_is_possible();
    let mut passed = Passing { path, tree, asked };
    let table = &tables[tables.len() - 1];
    'questions: loop {
        let Some(question) = look_at(asker, &passed.path) else {
            return Ok(passed);
        };
        let (lit, no) = question;
        if passed.asked == budget {
            return Ok(passed);
        }
        let number = passed.path.answers().len() as u32;
        if !excludes_yes(table, lit, number) {
            return Ok(passed);
        }
        if !put_yes(table, lit, number, &mut passed.tree) {
            return Ok(passed);
        }
        let asked = passed.asked + 1;
        if !passed.path.put_no(lit, no) {
            let path = longer(passed.path, lit, no)?;
            return Ok(Passing {
                path,
                tree: passed.tree,
                asked,
            });
        }
        passed.asked = asked;
    }
}
