//! The bytes of a shelf's open file, up to a limit.
ghost use Rattle.std.specs.Prelude.{◌≡◌, ◌≤◌, ◌<◌, length};

use crate::record::Record;
use crate::shelf::PIECE;
use crate::{Failed, Feed, Shelf};
use std::mem;

/// The open file of a shelf, read in pieces, up to a limit.
///
/// The shelf is held by reference, and is as the feed last held it when the feed is given up.
#[derive(Drop)]
pub struct ShelfFeed<'a, H: Shelf> {
    shelf: &'a mut H,

    // How many bytes it may still give.
    room: u64,

    // The bytes that were read last, and which of them are the next ones.
    piece: [u8; PIECE],
    at: usize,
    filled: usize,

    // The bytes that were given.
    given: Record,

    ghost ordered: { at ≤ filled },
    ghost within: { filled ≤ length piece },
}

impl<'a, H: Shelf> ShelfFeed<'a, H> {
    ghost use Rattle.std.specs.Prelude.{ℕ, List, [], Some, Ok, true, false, ◌↔◌, IfOk, OnErr, IsTrue};
    ghost use Rattle.std.specs.Option.{ForSome};
    ghost use Rattle.std.specs.Io.KnownBytes.{IsAtEnd};
    ghost use Rattle.ot_outside.specs.Faults.{Rose};
    ghost use Rattle.ot_outside.specs.Reads.{IsSameReading};
    ghost use Rattle.ot_outside.specs.Unchanged.{Unchanged};
    ghost use Rattle.ot_outside.specs.ShelfFeed.{IsAllOfReads, file_left, gave_by, held_by, room_of, shelf_of};
    ghost use Rattle.ot_outside.specs.ShelfFeed.{unread_of};

    /// A feed of what is left of the open file, of at most `limit` bytes. It takes no memory.
    pub fn new(shelf: &'a mut H, limit: u64) -> ShelfFeed<'a, H>
        ensures file_left { file_left result ≡ H.left shelf.old }
        ensures room { room_of result ≡ limit }
        ensures gave { gave_by result ≡ [] }
        ensures unread { unread_of result ≡ [] }
        ensures shelf { shelf_of result ≡ shelf.old }
        ensures held { held_by result ≡ Some shelf.entry.ghost_name }
    {
        ShelfFeed {
            shelf,
            room: limit,
            piece: [0; PIECE],
            at: 0,
            filled: 0,
            given: Record::new(),
        }
    }

    /// Whether as many bytes as the limit were given and a further byte of the file is left. Where fewer
    /// were given it is not told, and nothing is read. After `Failed` nothing was taken.
    pub fn too_long(&mut self) -> Result<bool, Failed>
        ensures ok { IfOk result (λ more. ForSome (file_left self.old) (λ bytes.
            IsTrue more ↔ ((room_of self.old ≡ 0) × (0 < length bytes)))) }

        // Whether or not the shelf tells what is left.
        ensures below { 0 < room_of self.old → (result ≡ Ok false) × (self.new ≡ self.old) }
        ensures there { IfOk result (λ more. more ≡ true → (room_of self.old ≡ 0) × (0 < length (unread_of self.new))) }
        ensures none { IfOk result (λ more. more ≡ false → room_of self.old ≡ 0 → unread_of self.new ≡ []) }
        ensures gave { gave_by self.new ≡ gave_by self.old }
        ensures read { IsAllOfReads self.old → IsAllOfReads self.new }

        ensures file_left { file_left self.new ≡ file_left self.old }
        ensures room { room_of self.new ≡ room_of self.old }
        ensures failed { OnErr result (Rose (H.faults (shelf_of self.old)) (H.faults (shelf_of self.new))) }
        ensures held { held_by self.new ≡ held_by self.old }
        ensures unchanged { Unchanged H.holds H.offered H.faults (shelf_of self.old) (shelf_of self.new) }
        ensures reading { IsSameReading (H.reads (shelf_of self.old)) (H.reads (shelf_of self.new)) }
    {
        if self.room > 0 {
            return Ok(false);
        }
        self.fill()
    }

    // Whether a byte of the file is left. The next one then stands in the piece.
    fn fill(&mut self) -> Result<bool, Failed>
        ensures there { IfOk result (λ more. more ≡ true → self.new.at < self.new.filled) }
        ensures end { IfOk result (λ more. more ≡ false → IsAtEnd (file_left self.old)) }
        ensures none { IfOk result (λ more. more ≡ false → unread_of self.new ≡ []) }
        ensures gave { gave_by self.new ≡ gave_by self.old }
        ensures read { IsAllOfReads self.old → IsAllOfReads self.new }

        ensures file_left { file_left self.new ≡ file_left self.old }
        ensures room { room_of self.new ≡ room_of self.old }
        ensures failed { OnErr result (Rose (H.faults (shelf_of self.old)) (H.faults (shelf_of self.new))) }
        ensures held { held_by self.new ≡ held_by self.old }
        ensures unchanged { Unchanged H.holds H.offered H.faults (shelf_of self.old) (shelf_of self.new) }
        ensures reading { IsSameReading (H.reads (shelf_of self.old)) (H.reads (shelf_of self.new)) }
    {
        if self.at == self.filled {
            self.at = 0;
            self.filled = 0;
            self.filled = self.shelf.read(&mut self.piece)?;
        }
        Ok(self.at < self.filled)
    }
}

impl<H: Shelf> Feed for ShelfFeed<'_, H> {
    ghost use Rattle.ot_outside.specs.ShelfFeed.{KeepsShelf, feed_left, gave_by, hand_of, held_by, room_of, shelf_of};

    ghost left = { feed_left };

    ghost hand = { hand_of };

    ghost gave = { gave_by };

    ghost bound = { room_of };

    ghost faults = { λ feed. H.faults (shelf_of feed) };

    ghost held = { held_by };

    ghost keeps = { KeepsShelf };

    fn next(&mut self) -> Result<Option<u8>, Failed> {
        if self.room == 0 || !self.fill()? {
            return Ok(None);
        }
        let byte = self.piece[self.at];
        self.at += 1;
        self.room -= 1;
        self.given.note(&[byte]);
        Ok(Some(byte))
    }

    fn more(&mut self) -> Result<bool, Failed> {
        match self.room {
            0 => Ok(false),
            _ => self.fill(),
        }
    }

    fn at_hand(&self) -> &[u8] {
        let bytes = &self.piece[self.at..self.filled];
        if self.room < bytes.len() as u64 {
            &bytes[..self.room as usize]
        } else {
            bytes
        }
    }

    fn consume(&mut self, count: usize) {
        let mut given = mem::replace(&mut self.given, Record::new());
        given.note(&self.piece[self.at..self.at + count]);
        self.given = given;
        self.at += count;
        self.room -= count as u64;
    }
}
