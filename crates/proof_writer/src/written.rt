//! Which lemmas are written.
use ask_core::NoMemory;
use proof_search::Choice;
use std::alloc::Global;

/// The numbers by which lemmas are cited, by their places in the list: none until a lemma's tree has ended.
#[derive(Drop)]
pub struct LemmaNumbers {
    numbers: Vec<Option<u32>>,
    count: u32,
}

impl LemmaNumbers {
    /// Of so many lemmas, none of which is written.
    pub fn new(alloc: Global, count: usize) -> Result<LemmaNumbers, NoMemory> {
        let mut numbers = Vec::new(alloc);
        for _ in 0..count {
            numbers.push(None)?;
        }
        Ok(LemmaNumbers { numbers, count: 0 })
    }

    /// The number of a lemma that is written.
    pub fn number(&self, place: usize) -> Option<u32> {
        self.numbers.get(place).copied()?
    }

    /// The tree of a lemma ends: it gets the next number.
    pub fn end(&mut self, place: usize) {
        if place < self.numbers.len() {
            self.numbers[place] = Some(self.count);
            self.count = self.count.saturating_add(1);
        }
    }
}

impl Choice for LemmaNumbers {
    fn takes(&self, place: usize) -> bool {
        self.number(place).is_some()
    }
}

/// For each lemma, by its place in the list, whether it was not begun yet.
#[derive(Drop)]
pub struct Unbegun {
    unbegun: Vec<bool>,
}

impl Unbegun {
    /// Of so many lemmas, none of which was begun.
    pub fn new(alloc: Global, count: usize) -> Result<Unbegun, NoMemory> {
        let mut unbegun = Vec::new(alloc);
        for _ in 0..count {
            unbegun.push(true)?;
        }
        Ok(Unbegun { unbegun })
    }

    /// A lemma is begun.
    pub fn begin(&mut self, place: usize) {
        if place < self.unbegun.len() {
            self.unbegun[place] = false;
        }
    }
}

impl Choice for Unbegun {
    fn takes(&self, place: usize) -> bool {
        self.unbegun.get(place).copied().unwrap_or(false)
    }
}
