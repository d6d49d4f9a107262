//! Numbers of starts.
use ask_core::NoMemory;
use ot_questions::{Place, SymOp, Who, position_name, site_name};
use proof_search::{Pins, Told};
use std::alloc::Global;

/// How many slots there are at first.
const FIRST: usize = 64;

/// How far from its own slot a number stands at most. What is read has a further number where it is met again, if its
/// number would stand further off.
const MOST_STEPS: usize = 32;

/// Where a result stands.
#[derive(Clone, Copy, PartialEq, Eq)]
pub(crate) struct Standing {
    name: u8,
    offset: i32,
}

/// What is read of a start of one obligation: how many results there are, and where those stand that are read from here
/// on. At most three are, and one that changes nothing stands nowhere.
#[derive(Clone, Copy, PartialEq, Eq)]
pub(crate) struct Read {
    results: usize,
    first: Option<Standing>,
    second: Option<Standing>,
    third: Option<Standing>,
}

/// What was read of starts so far, each under its number; and these numbers in slots, each in one from its own slot on.
/// At most half of the slots are taken.
#[derive(Drop)]
pub(crate) struct Numbers {
    alloc: Global,
    read: Vec<Read>,
    slots: Vec<Option<usize>>,
}

// A mark in which one more number is mixed.
#[inline(always)]
fn mixed(mark: u64, number: u64) -> u64 {
    let product = (mark ^ number).wrapping_mul(0x9e37_79b9_7f4a_7c15);
    product ^ (product >> 29)
}

// The mark with where a result stands.
#[inline(always)]
fn with_standing(mark: u64, standing: Option<Standing>) -> u64 {
    match standing {
        None => mixed(mark, 0),
        Some(Standing { name, offset }) => {
            let named = mixed(mark, 1 + u64::from(name));
            mixed(named, u64::from(offset.cast_unsigned()))
        }
    }
}

// A number that is the same for all that is read alike.
#[inline(always)]
fn mark_of(read: Read) -> u64 {
    let first = with_standing(read.results as u64, read.first);
    with_standing(with_standing(first, read.second), read.third)
}

// The slot so many steps from the own one of a mark. So many slots there are, a power of two.
#[inline(always)]
fn slot_of(mark: u64, step: usize, count: usize) -> usize {
    (mark as usize).wrapping_add(step) & count.wrapping_sub(1)
}

// Puts a number into the first slot that is free, if one is near enough.
fn place_in(slots: &mut [Option<usize>], mark: u64, number: usize) {
    for step in 0..MOST_STEPS {
        let at = slot_of(mark, step, slots.len());
        if at < slots.len() && slots[at].is_none() {
            slots[at] = Some(number);
            return;
        }
    }
}

// The name of the position of the operation that a result is of, told by its site.
fn own_position(op: SymOp) -> Option<u8> {
    let site = op.site()?;
    for who in [Who::A, Who::B, Who::C] {
        if site_name(who) == site {
            return Some(position_name(who));
        }
    }
    None
}

/// How a result is told, where this is by another position than that of its own operation.
pub(crate) fn told_otherwise(delivered: SymOp) -> Option<Told> {
    let own = own_position(delivered)?;
    let other = delivered.at().var;
    if own == other {
        return None;
    }
    Some(Told { own, other })
}

// A place told by another name, where the two are pinned to one another.
fn told_by<P: Pins>(pinned: &P, place: Place, name: u8) -> Option<Place> {
    let distance = pinned.apart(place.var, name)?;
    Some(Place {
        var: name,
        off: place.off.checked_add(distance)?,
    })
}

// Where a result stands; told by its own operation's position, where the two are pinned to one another.
fn stands<P: Pins>(op: SymOp, pinned: Option<&P>) -> Option<Standing> {
    if op == SymOp::Nop {
        return None;
    }
    let at = op.at();
    let own = match (pinned, own_position(op)) {
        (Some(pinned), Some(name)) => told_by(pinned, at, name),
        _ => None,
    };
    let place = own.unwrap_or(at);
    Some(Standing {
        name: place.var,
        offset: place.off,
    })
}

fn standing_of<P: Pins>(results: &[SymOp], number: usize, pinned: Option<&P>) -> Option<Standing> {
    stands(*results.get(number)?, pinned)
}

impl Read {
    /// What is read of a start with so many results, of which these are read from here on.
    pub(crate) fn new<P: Pins>(results: usize, read: &[SymOp], pinned: Option<&P>) -> Read {
        Read {
            results,
            first: standing_of(read, 0, pinned),
            second: standing_of(read, 1, pinned),
            third: standing_of(read, 2, pinned),
        }
    }
}

impl Numbers {
    /// No numbers. The allocator is not asked for memory.
    pub(crate) fn new(alloc: Global) -> Numbers {
        Numbers {
            alloc,
            read: Vec::new(alloc),
            slots: Vec::new(alloc),
        }
    }

    // The number of what is read, if it is found.
    fn found(&self, read: Read, mark: u64) -> Option<usize> {
        for step in 0..MOST_STEPS {
            let at = slot_of(mark, step, self.slots.len());
            let number = self.slots.get(at).copied()??;
            if self.read.get(number).copied() == Some(read) {
                return Some(number);
            }
        }
        None
    }

    // Twice as many slots.
    fn grow(&mut self) -> Result<(), NoMemory> {
        let count = self.slots.len().saturating_mul(2).max(FIRST);
        let mut slots = Vec::new(self.alloc);
        for _ in 0..count {
            slots.push(None)?;
        }
        for (number, read) in self.read.iter().enumerate() {
            place_in(&mut slots, mark_of(*read), number);
        }
        self.slots = slots;
        Ok(())
    }

    // The next number, for what is read.
    fn learnt(&mut self, read: Read, mark: u64) -> Result<usize, NoMemory> {
        let number = self.read.len();
        if number >= self.slots.len() / 2 {
            self.grow()?;
        }
        place_in(&mut self.slots, mark, number);
        self.read.push(read)?;
        Ok(number)
    }

    /// The number of what is read, which is a new one where it was not read before.
    pub(crate) fn number(&mut self, read: Read) -> Result<usize, NoMemory> {
        let mark = mark_of(read);
        match self.found(read, mark) {
            Some(number) => Ok(number),
            None => self.learnt(read, mark),
        }
    }
}
