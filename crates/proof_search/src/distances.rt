//! Distances between names, as a search keeps them: without the literals that show them. What a search finds is judged
//! above, and nothing is promised of them.
use crate::facts::Added;
use ask_core::MAX_NAMES;
use diff_graph::{Lit, MAX_LITERAL_OFFSET};

/// A distance that bounds nothing, far above those that literals give.
const UNBOUNDED: i32 = 268_435_456;

/// The distances from here on bound nothing.
const BOUNDLESS: i32 = 134_217_728;

/// The distances of each name to one.
type Row = [i32; MAX_NAMES];

/// What follows from literals: for each two names `x` and `y` the least `k` for which `x <= y + k` follows, in the row
/// of `y`.
#[derive(Clone, Copy)]
pub struct Distances {
    rows: [Row; MAX_NAMES],
}

/// Whether the names and the offset are those of a literal that is asked, or of the negation of one.
#[inline(always)]
fn is_in_range(lit: Lit) -> bool {
    let small = -MAX_LITERAL_OFFSET - 1 <= lit.k && lit.k <= MAX_LITERAL_OFFSET + 1;
    small && (lit.x as usize) < MAX_NAMES && (lit.y as usize) < MAX_NAMES
}

/// Where `x <= y + there` and `y <= x + back` have no integers, the offset of the second one, weakened where it is
/// below 0, as far as 0 or as it may be.
#[inline(always)]
fn shutting_offset(there: i32, back: i32) -> Option<i32> {
    let weakest = (-1_i32).saturating_sub(there);
    if back > weakest || back < -MAX_LITERAL_OFFSET || back > MAX_LITERAL_OFFSET {
        return None;
    }
    if back < 0 {
        return Some(weakest.min(0));
    }
    Some(back)
}

/// That of two literals whose offset is nearer to 0, or the first one.
#[inline(always)]
fn nearest(found: Option<Lit>, lit: Lit) -> Lit {
    match found {
        Some(first) if first.k.unsigned_abs() <= lit.k.unsigned_abs() => first,
        _ => lit,
    }
}

/// The row, gone on by an offset. What bounds nothing bounds nothing then.
#[inline(always)]
fn gone_on(row: &Row, offset: i32) -> Row {
    let mut ways = [UNBOUNDED; MAX_NAMES];
    for x in 0..MAX_NAMES {
        if row[x] < BOUNDLESS {
            ways[x] = row[x].wrapping_add(offset);
        }
    }
    ways
}

/// Lowers a row by ways that go on by an offset.
#[inline(always)]
fn lower(row: &mut Row, ways: &Row, offset: i32) {
    for x in 0..MAX_NAMES {
        row[x] = row[x].min(ways[x].wrapping_add(offset));
    }
}

/// Lowers the row of a name by the ways along a literal to its second name, if they are lower there.
#[inline(always)]
fn lower_by(row: &mut Row, ways: &Row, lit: Lit) {
    let (Some(rest), Some(kept)) = (
        row.get(lit.y as usize).copied(),
        row.get(lit.x as usize).copied(),
    ) else {
        return;
    };
    if rest < BOUNDLESS && rest.wrapping_add(lit.k) < kept {
        lower(row, ways, rest);
    }
}

impl Distances {
    /// Nothing follows but that each name is at most itself.
    pub fn new() -> Distances {
        let mut rows = [[UNBOUNDED; MAX_NAMES]; MAX_NAMES];
        for own in 0..MAX_NAMES {
            rows[own][own] = 0;
        }
        Distances { rows }
    }

    /// The distance of a name to another one.
    #[inline(always)]
    fn kept(&self, x: u8, y: u8) -> i32 {
        match self.rows.get(y as usize) {
            None => UNBOUNDED,
            Some(row) => row.get(x as usize).copied().unwrap_or(UNBOUNDED),
        }
    }

    /// The least `k` for which `x <= y + k` follows, if there is one.
    #[inline(always)]
    pub fn least(&self, x: u8, y: u8) -> Option<i32> {
        let kept = self.kept(x, y);
        if kept < BOUNDLESS {
            return Some(kept);
        }
        None
    }

    /// Whether a literal follows.
    #[inline(always)]
    pub fn implies(&self, lit: Lit) -> bool {
        let kept = self.kept(lit.x, lit.y);
        kept < BOUNDLESS && kept <= lit.k
    }

    /// Whether no integers meet what follows and a literal.
    #[inline(always)]
    pub fn excludes(&self, lit: Lit) -> bool {
        let back = self.kept(lit.y, lit.x);
        is_in_range(lit) && back < BOUNDLESS && back.wrapping_add(lit.k) < 0
    }

    /// The constant `k` for which `x = y + k` follows, if there is one.
    #[inline(always)]
    pub fn distance(&self, x: u8, y: u8) -> Option<i32> {
        let there = self.least(x, y)?;
        let back = self.least(y, x)?;
        if there.wrapping_add(back) == 0 {
            return Some(there);
        }
        None
    }

    /// Adds a literal that is allowed and does not follow.
    #[inline(always)]
    fn insert(&mut self, lit: Lit) {
        let Some(row) = self.rows.get(lit.x as usize) else {
            return;
        };
        let ways = gone_on(row, lit.k);
        for y in 0..MAX_NAMES {
            lower_by(&mut self.rows[y], &ways, lit);
        }
    }

    /// Adds a literal, where it can be added.
    #[inline(always)]
    pub fn try_add(&mut self, lit: Lit) -> Added {
        if !is_in_range(lit) {
            return Added::OutOfRange;
        }
        if self.excludes(lit) {
            return Added::Excluded;
        }
        if !self.implies(lit) {
            self.insert(lit);
        }
        Added::Yes
    }

    /// Adds literals up to the first one that cannot be added, which is the answer.
    pub fn add_up_to_excluded(&mut self, literals: &[Lit]) -> Option<Lit> {
        for lit in literals {
            if !matches!(self.try_add(*lit), Added::Yes) {
                return Some(*lit);
            }
        }
        None
    }

    /// Adds what other distances say of each two names, as far as some integers meet it.
    pub fn add_possible(&mut self, other: &Distances) {
        for x in 0..MAX_NAMES as u8 {
            for y in 0..MAX_NAMES as u8 {
                if let Some(k) = other.least(x, y) {
                    self.try_add(Lit { x, y, k });
                }
            }
        }
    }

    /// The same of each two names that are equal up to a constant by the other distances.
    pub fn add_fixed(&mut self, other: &Distances) {
        for x in 0..MAX_NAMES as u8 {
            for y in 0..MAX_NAMES as u8 {
                if let Some(k) = other.distance(x, y) {
                    self.try_add(Lit { x, y, k });
                }
            }
        }
    }

    /// A literal that follows from what is known around and that no integers meet with this, if one of two names does.
    /// It is weakened where it is below 0, as far as 0 or as it may be. Of several it is the one that is nearest to 0
    /// then.
    pub fn shut_out_by(&self, around: &Distances) -> Option<Lit> {
        let mut found: Option<Lit> = None;
        for x in 0..MAX_NAMES as u8 {
            for y in 0..MAX_NAMES as u8 {
                if let (Some(there), Some(back)) = (self.least(x, y), around.least(y, x)) {
                    if let Some(k) = shutting_offset(there, back) {
                        found = Some(nearest(found, Lit { x: y, y: x, k }));
                    }
                }
            }
        }
        found
    }
}
