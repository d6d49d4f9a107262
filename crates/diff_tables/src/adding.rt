//! Literals added one after another.
ghost use Rattle.std.specs.Prelude.{◌≡◌, ℕ, ◌<◌, ◌≤◌, ◌^◌, true, false, List, [], ◌∷◌, ◌++◌, length, slice_index_or};
ghost use Rattle.std.specs.Prelude.{Option, Some, None, IfSome};
ghost use Rattle.diff_graph.specs.Cycles.{literal_at};
ghost use Rattle.diff_graph.specs.Limits.{IsNamed, AreNamed, IsSmall, AreSmall};
ghost use Rattle.diff_tables.specs.Tables.{Numbered, literals_of, numbered_from};
ghost use Rattle.diff_tables.specs.Tables.{kept_of, StandsFor};
ghost use Rattle.diff_tables.specs.Steps.{leaves_room, IsSquare, AreModest, before_stop};

use crate::hop::Hop;
use crate::rows::{Row, add, allows, follows};
use diff_graph::Lit;

/// Adds a literal that closes no negative cycle. One that follows already changes nothing.
fn insert(rows: &mut [Row], ways: &mut [Option<Hop>], lit: Lit, number: u32)
    requires few { length rows.old ≤ 256 }
    requires square { IsSquare rows.old }
    requires modest { AreModest rows.old }
    requires room { length ways.old ≡ length rows.old }
    requires named { IsNamed (length rows.old) lit }
    requires small { IsSmall lit }
    requires allowed { leaves_room (kept_of rows.old lit.y lit.x) lit.k ≡ true }
    ensures square { IsSquare rows.new }
    ensures stands { (ps : List Numbered) → StandsFor (length rows.old) (kept_of rows.old) ps
        → StandsFor (length rows.old) (kept_of rows.new) (ps ++ record { number = number; lit = lit } ∷ []) }
{
    if follows(rows, lit) {
        return;
    }
    add(rows, ways, lit, number);
}

/// Adds the literals in their order, each under its place, up to the first that closes a negative
/// cycle with those before it, and gives that place. `ways` is room for one row.
pub fn add_all(rows: &mut [Row], ways: &mut [Option<Hop>], lits: &[Lit]) -> Option<usize>
    requires few { length rows.old ≤ 256 }
    requires square { IsSquare rows.old }
    requires stands { (ps : List Numbered) × StandsFor (length rows.old) (kept_of rows.old) ps
        × AreSmall (literals_of ps) }
    requires room { length ways.old ≡ length rows.old }
    requires named { AreNamed (length rows.old) lits.now }
    requires small { AreSmall lits.now }
    requires count { length lits.now < 2 ^ 32 }
    ensures square { IsSquare rows.new }
    ensures modest { AreModest rows.new }
    ensures stands { (ps : List Numbered) → StandsFor (length rows.old) (kept_of rows.old) ps
        → StandsFor (length rows.old) (kept_of rows.new) (ps ++ numbered_from 0 (before_stop result lits.now)) }
    ensures refused { IfSome result (λ place. (place < length lits.now)
        × (leaves_room (kept_of rows.new (literal_at lits.now place).y (literal_at lits.now place).x)
        (literal_at lits.now place).k ≡ false)) }
{
    for place in 0..lits.len() {
        let lit = lits[place];
        if !allows(rows, lit) {
            return Some(place);
        }
        insert(rows, ways, lit, place as u32);
    }
    None
}
