//! The next part of a certificate.
ghost use Rattle.std.specs.Prelude.{◌≡◌, ℕ, ◌+◌, ◌^◌, ◌<◌, ◌≤◌, List, [], IfOk, IfErr, IfSome, IfNone, Some, Ok, None};
ghost use Rattle.cert_text.specs.Places.{Finish};
ghost use Rattle.cert_text.specs.Reading.{fed_to};
ghost use Rattle.ot_sections.specs.Feeding.{IsSpent, Leaves, fed};
ghost use Rattle.ot_sections.specs.Stands.{Came, IsBetween, IsMisspeltBehind, IsOver, reader_place_of};

use crate::JudgeError;
use cert_reader::Reader;
use cert_text::Item;
use ot_outside::Feed;

/// The next part, or none where the certificate ends.
pub fn next_part<F: Feed>(reader: &mut Reader, feed: &mut F) -> Result<Option<Item>, JudgeError>
    requires between { IsBetween reader.old }
    requires room { fed_to reader.old + F.bound feed.old < 2 ^ 63 }

    // A part that may stand there, and one with which the feed gives fewer bytes.
    ensures came { IfOk result (λ o. IfSome o (Came F.Feed (fed reader.old feed.old) (fed reader.new feed.new))) }
    ensures fewer { IfOk result (λ o. IfSome o (λ _. F.bound feed.new < F.bound feed.old)) }

    // None behind the last part, where nothing is left.
    ensures finish { IfOk result (λ o. IfNone o (reader_place_of reader.old ≡ Finish)) }
    ensures over { IfOk result (λ o. IfNone o (IsOver F.Feed (fed reader.old feed.old) feed.new)) }
    ensures nothing_left { IfOk result (λ o. IfNone o (IsSpent F.left F.hand feed.new)) }

    ensures misspelt { IfErr result (IsMisspeltBehind F.Feed (fed reader.old feed.old) feed.new) }
    ensures leaves { Leaves F.Feed (fed reader.old feed.old) (fed reader.new feed.new) result }
{
    while feed.more()? {
        let (taken, given) = reader.feed_piece(feed.at_hand());
        feed.consume(taken);
        if let Some(item) = given? {
            return Ok(Some(item));
        }
    }
    reader.finish()?;
    Ok(None)
}

/// The next part of a certificate that does not end there.
///
/// The error is the refusal of bytes by their spelling, or a failure of the feed.
pub fn expect_part<F: Feed>(reader: &mut Reader, feed: &mut F) -> Result<Item, JudgeError>
    requires between { IsBetween reader.old }
    requires unfinished { reader_place_of reader.old ≡ Finish → ⊥ }
    requires room { fed_to reader.old + F.bound feed.old < 2 ^ 63 }
    ensures came { IfOk result (Came F.Feed (fed reader.old feed.old) (fed reader.new feed.new)) }
    ensures fewer { IfOk result (λ _. F.bound feed.new < F.bound feed.old) }
    ensures misspelt { IfErr result (IsMisspeltBehind F.Feed (fed reader.old feed.old) feed.new) }
    ensures leaves { Leaves F.Feed (fed reader.old feed.old) (fed reader.new feed.new) result }
{
    match next_part(reader, feed)? {
        Some(item) => Ok(item),
        None => unreachable!(),
    }
}
