//! The tree of an obligation, which is written while it is found.
ghost use Rattle.std.specs.Prelude.{◌≡◌, ◌<◌, ◌≤◌, [], ◌∷◌, ◌++◌, length, OnOk, OnErr, IsTrue, false};
ghost use Rattle.ask_core.specs.declared.picks.TheConstants.{MAX_PICKS};
ghost use Rattle.ask_core.specs.declared.tree.Tok.TheVariants.{Ask, Holds, Cycle};
ghost use Rattle.cert_text.specs.Spelling.{tokens_text};
ghost use Rattle.cert_text.specs.TreeTexts.{with_token};

use crate::NoMemory;
use crate::writer::{put_asked, write_asked, write_cycle};
use std::alloc::Global;
use std::marker::Model;

/// Numbers of a cycle that come one after another, so that no list of them is made.
pub trait CycleNumbers: Drop {
    ghost use Rattle.std.specs.Prelude.{◌≡◌, ℕ, List, [], ◌∷◌, MatchOption};

    /// The numbers that are still to come.
    ghost left: { Self → List ℕ };

    /// The next number, or none where all have come.
    fn next(&mut self) -> Option<u32>
        ensures { MatchOption result (left self.old ≡ []) (λ n. left self.old ≡ n ∷ left self.new) };
}

/// The tokens of a tree in preorder: a question, then its tree for yes, then its tree for no. A list of
/// tokens may also be none, or more than one tree. They are kept as their text, behind the bytes that stand
/// before it, so that nothing is written a second time.
#[derive(Drop)]
pub struct Tree {
    text: Vec<u8>,
    start: usize,
}

impl Model for Tree {
    ghost use Rattle.cert_text.specs.TreeTexts.{Written, tree_at, IsTreeAt};

    ghost Value = { Written };

    ghost view = { λ t. tree_at t.start t.text.items };

    ghost invariant = { λ t. IsTreeAt t.start t.text.items };
}

impl Tree {
    /// No tokens, and nothing before them. The allocator is not asked for memory.
    pub fn new(alloc: Global) -> Tree
        ensures { result ≡ record { front = []; tokens = [] } }
    {
        Tree::behind(Vec::new(alloc))
    }

    /// No tokens behind these bytes.
    pub fn behind(front: Vec<u8>) -> Tree
        ensures { result ≡ record { front = front.items; tokens = [] } }
    {
        let start = front.len();
        Tree { text: front, start }
    }

    /// Puts a question at the end. A tree that was refused memory is as it was.
    #[inline(always)]
    pub fn push_ask(&mut self) -> Result<(), NoMemory>
        ensures ok { OnOk result (self.new ≡ with_token self.old Ask) }
        ensures err { OnErr result (self.new ≡ self.old) }
    {
        self.text.reserve(1)?;
        self.text.push_reserved(b'?');
        Ok(())
    }

    /// Puts an end at which the plan holds at the end. A tree that was refused memory is as it was.
    #[inline(always)]
    pub fn push_holds(&mut self) -> Result<(), NoMemory>
        ensures ok { OnOk result (self.new ≡ with_token self.old Holds) }
        ensures err { OnErr result (self.new ≡ self.old) }
    {
        self.text.reserve(1)?;
        self.text.push_reserved(b'.');
        Ok(())
    }

    /// Puts a cycle with these numbers at the end. A tree that was refused memory is as it was.
    #[inline(always)]
    pub fn push_cycle(&mut self, numbers: &[u32]) -> Result<(), NoMemory>
        requires { length numbers.now ≤ MAX_PICKS }
        ensures ok { OnOk result (self.new ≡ with_token self.old (Cycle numbers.now)) }
        ensures err { OnErr result (self.new ≡ self.old) }
    {
        write_cycle(numbers, &mut self.text)?;
        Ok(())
    }

    /// Puts a question at the end, and a cycle of a number and others behind it. A tree that was refused memory is as
    /// it was.
    #[inline(always)]
    pub fn push_asked<C: CycleNumbers>(&mut self, first: u32, others: C) -> Result<(), NoMemory>
        requires { length (C.left others) < MAX_PICKS }
        ensures ok { OnOk result (self.new
            ≡ with_token (with_token self.old Ask) (Cycle (first ∷ C.left others))) }
        ensures err { OnErr result (self.new ≡ self.old) }
    {
        write_asked(first, others, &mut self.text)?;
        Ok(())
    }

    /// The same, where there is room at hand: then the answer is true. Else it is false, and the tree is as it was. The
    /// allocator is not asked for memory.
    #[inline(always)]
    pub fn put_asked<C: CycleNumbers>(&mut self, first: u32, others: C) -> bool
        requires { length (C.left others) < MAX_PICKS }
        ensures put { IsTrue result → self.new
            ≡ with_token (with_token self.old Ask) (Cycle (first ∷ C.left others)) }
        ensures kept { result ≡ false → self.new ≡ self.old }
    {
        if put_asked(first, others, &mut self.text) {
            return true;
        }
        false
    }

    /// The text of the tokens.
    pub fn as_bytes(&self) -> &[u8]
        ensures { result.now ≡ tokens_text self.now.tokens }
    {
        &self.text[self.start..]
    }

    /// What stands before the tokens, and their text behind it.
    pub fn into_bytes(self) -> Vec<u8>
        ensures { result.items ≡ self.front ++ tokens_text self.tokens }
    {
        self.text
    }
}
