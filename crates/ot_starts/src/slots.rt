//! Where goals that are kept are found.
use ask_core::NoMemory;
use bumpalo::Bump;
use ot_terms::{Goal, GoalProgress, Place, SymOp};

/// How many slots there are at first.
const FIRST: usize = 64;

/// How far from its own slot the place of a goal stands at most. One that would stand further off is laid out anew
/// where it is met again.
const MOST_STEPS: usize = 32;

/// The place of a goal in the order in which they came, and its mark.
#[derive(Clone, Copy)]
struct Slot {
    mark: u64,
    place: usize,
}

/// The places of goals by their marks: each in one of the slots from its own one on. At most half of the slots are
/// taken. Nothing is promised of a place, and who takes it compares what stands there.
#[derive(Drop)]
pub struct Slots<'a> {
    bump: &'a Bump,
    slots: Vec<Option<Slot>, &'a Bump>,
    taken: usize,
}

/// A mark in which one more number is mixed.
#[inline(always)]
fn mixed(mark: u64, number: u64) -> u64 {
    let product = (mark ^ number).wrapping_mul(0x9e37_79b9_7f4a_7c15);
    product ^ (product >> 29)
}

/// The mark with an operation of a kind of this number: where it stands, its character and its site.
#[inline(always)]
fn with_parts(mark: u64, kind: u8, at: Place, ch: u8, site: u8) -> u64 {
    let names = u32::from_le_bytes([kind, at.var, ch, site]);
    let offset = at.off.cast_unsigned();
    mixed(mixed(mark, u64::from(names)), u64::from(offset))
}

/// The mark with an operation.
fn with_op(mark: u64, op: SymOp) -> u64 {
    match op {
        SymOp::Nop => mixed(mark, 0),
        SymOp::Ins { at, ch, site } => with_parts(mark, 1, at, ch, site),
        SymOp::Del { at, site } => with_parts(mark, 2, at, 0, site),
        SymOp::Upd { at, ch, site } => with_parts(mark, 3, at, ch, site),
    }
}

/// The mark with the results so far.
fn with_results(mark: u64, progress: &GoalProgress) -> u64 {
    let mut mark = mixed(mark, u64::from(progress.count));
    for op in &progress.got {
        mark = with_op(mark, *op);
    }
    mark
}

/// A number that equal goals share, of goals where a transformation begins or a result is delivered.
pub(crate) fn mark_of(goal: &Goal<'_>) -> u64 {
    match *goal {
        Goal::Deliver { op, plan } => with_results(with_op(1, op), plan),
        Goal::Choose { case, ops, plan } => {
            let mark = mixed(2, u64::from(case));
            with_results(with_op(with_op(mark, ops.a), ops.b), plan)
        }
        _ => 0,
    }
}

/// The number of the slot so many steps from the own one of a mark. So many slots there are, a power of two.
#[inline(always)]
fn slot_of(mark: u64, step: usize, count: usize) -> usize {
    (mark as usize).wrapping_add(step) & count.wrapping_sub(1)
}

/// Puts a place into the first slot that is free, if one is near enough.
fn place_in(slots: &mut [Option<Slot>], slot: Slot) {
    for step in 0..MOST_STEPS {
        let number = slot_of(slot.mark, step, slots.len());
        if number < slots.len() && slots[number].is_none() {
            slots[number] = Some(slot);
            return;
        }
    }
}

impl<'a> Slots<'a> {
    /// No place is taken. It takes no memory.
    pub(crate) fn new(bump: &'a Bump) -> Slots<'a> {
        Slots {
            bump,
            slots: Vec::new(bump),
            taken: 0,
        }
    }

    /// The place of the goal that has this mark, if it is found.
    pub(crate) fn place(&self, mark: u64) -> Option<usize> {
        for step in 0..MOST_STEPS {
            let number = slot_of(mark, step, self.slots.len());
            let slot = self.slots.get(number).copied()??;
            if slot.mark == mark {
                return Some(slot.place);
            }
        }
        None
    }

    /// Keeps the place of a goal that has this mark.
    pub(crate) fn put(&mut self, mark: u64, place: usize) -> Result<(), NoMemory> {
        if self.taken >= self.slots.len() / 2 {
            self.grow()?;
        }
        self.taken = self.taken.saturating_add(1);
        place_in(&mut self.slots, Slot { mark, place });
        Ok(())
    }

    /// Twice as many slots.
    fn grow(&mut self) -> Result<(), NoMemory> {
        let count = self.slots.len().saturating_mul(2).max(FIRST);
        let mut slots = Vec::new(self.bump);
        for _ in 0..count {
            slots.push(None)?;
        }
        for taken in &self.slots {
            if let Some(slot) = taken {
                place_in(&mut slots, *slot);
            }
        }
        self.slots = slots;
        Ok(())
    }
}
