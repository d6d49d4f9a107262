//! The bytes of a slice.
ghost use Rattle.std.specs.Prelude.{◌≡◌, [], None, Some, length};

use crate::record::Record;
use crate::{Failed, Feed};

/// The bytes of a slice. It never fails, and holds no object.
#[derive(Drop)]
pub struct SliceFeed<'a> {
    bytes: &'a [u8],

    // What was taken of them.
    taken: Record,
}

impl<'a> SliceFeed<'a> {
    /// It takes no memory.
    pub fn new(bytes: &'a [u8]) -> SliceFeed<'a>
        ensures left { ⟦<SliceFeed<'a> as Feed>⟧.left result ≡ Some bytes.now }
        ensures bound { ⟦<SliceFeed<'a> as Feed>⟧.bound result ≡ length bytes.now }
        ensures gave { ⟦<SliceFeed<'a> as Feed>⟧.gave result ≡ [] }
    {
        SliceFeed {
            bytes,
            taken: Record::new(),
        }
    }
}

impl Feed for SliceFeed<'_> {
    ghost left = { λ feed. Some feed.bytes.now };

    ghost hand = { λ feed. feed.bytes.now };

    ghost bound = { λ feed. length feed.bytes.now };

    ghost gave = { λ feed. feed.taken.bytes };

    ghost faults = { λ _. 0 };

    ghost held = { λ _. None };

    ghost keeps = { λ _ _. Unit {0} };

    fn next(&mut self) -> Result<Option<u8>, Failed> {
        let Some((byte, rest)) = self.bytes.split_first() else {
            return Ok(None);
        };
        self.bytes = rest;
        self.taken.note(&[*byte]);
        Ok(Some(*byte))
    }

    fn more(&mut self) -> Result<bool, Failed> {
        Ok(!self.bytes.is_empty())
    }

    fn at_hand(&self) -> &[u8] {
        self.bytes
    }

    fn consume(&mut self, count: usize) {
        self.taken.note(&self.bytes[..count]);
        self.bytes = &self.bytes[count..];
    }
}
