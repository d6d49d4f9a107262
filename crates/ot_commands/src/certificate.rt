//! Certificates of any kind: a function is read, and then a certificate of it is judged.
ghost use Rattle.std.specs.Prelude.{◌≡◌, [], ℕ, List, Some, Err, IfOk, IsErrOf};
ghost use Rattle.fn_rules.specs.Rules.{function_of};
ghost use Rattle.refusals.specs.declared.refusal.JudgeError.{JudgeError};
ghost use Rattle.ot_outside.specs.Faults.{Rose};
ghost use Rattle.ot_outside.specs.Reads.{IsSameReading, after_reading};
ghost use Rattle.ot_outside.specs.ShelfFeed.{IsAllOfReads, file_left, gave_by, held_by, room_of, shelf_of};
ghost use Rattle.ot_outside.specs.Unchanged.{Unchanged};
ghost use Rattle.ot_commands.specs.Certificate.{IsReplyToCertificate, Tells, is_truncated, rests_on_the_end};
ghost use Rattle.ot_replies.specs.Limits.{limit_of};
ghost use Rattle.ot_replies.specs.declared.reply.FileKind.TheVariants as files;

use crate::load::{Stop, limit};
use crate::two_files::FileCommand;
use fn_rules::{Level, Rules};
use ot_bound::check_bound;
use ot_judge::check_all;
use ot_outside::{Feed, Shelf, ShelfFeed};
use ot_replies::{FileKind, Reply};
use ot_sections::{JudgeError, Refusal};
use std::alloc::Global;
use std::marker::PhantomData;

/// What an accepted certificate shows of its function: each kind of certificate has its own such type.
pub(crate) trait Finding: Copy {
    ghost use Rattle.std.specs.Prelude.{◌⊎◌, ◌^◌, ◌<◌, Result, IfErr};
    ghost use Rattle.fn_rules.specs.Functions.{Function};
    ghost use Rattle.ot_sections.specs.Feeding.{IsKeptFeed, IsSpent, IsTruncated, MayGive, MayGiveOf, MayHave, Whole};
    ghost use Rattle.ot_bound.specs.Judgements.{IsNoJudgement};
    ghost use Rattle.ot_replies.specs.declared.reply.Reply.{Reply};

    /// What the judgement of bytes is.
    ghost judges: { Function → List ℕ → Result Self JudgeError → Type 0 };

    /// The reply to an accepted certificate.
    ghost accepts: { Self → Reply };

    /// Judges the bytes of a feed.
    fn judge<F: Feed>(alloc: Global, rules: &Rules, feed: &mut F) -> Result<Self, JudgeError>
        requires { F.bound feed.old < 2 ^ 63 }
        ensures judged { IsNoJudgement result ⊎ ((bytes : List ℕ) × MayGive F.left F.bound feed.old bytes
            × judges (function_of rules.now) bytes result) }
        ensures given { IsNoJudgement result ⊎ ((all : Whole) → MayHave F.left F.bound F.gave F.hand feed.new all →
            (bytes : List ℕ) × MayGiveOf F.left F.bound F.gave feed.old all bytes
            × judges (function_of rules.now) bytes result) }
        ensures nothing_left { IfOk result (λ _. IsSpent F.left F.hand feed.new) }
        ensures truncated { IfErr result (λ e. IsTruncated e → IsSpent F.left F.hand feed.new) }
        ensures failed { IfErr result (λ e. e ≡ JudgeError.Failed → Rose (F.faults feed.old) (F.faults feed.new)) }
        ensures kept { IsKeptFeed F.faults F.bound F.held F.keeps feed.old feed.new };

    /// The reply that says what it shows.
    fn reply(self) -> Reply
        ensures { result ≡ accepts self };
}

// A certificate shows the properties of its level.
impl Finding for Level {
    ghost use Rattle.ot_judge.specs.Refusals.{IsJudgement};
    ghost use Rattle.ot_replies.specs.declared.reply.Reply.TheVariants.{Accepted};

    ghost judges = { IsJudgement };

    ghost accepts = { Accepted };

    fn judge<F: Feed>(alloc: Global, rules: &Rules, feed: &mut F) -> Result<Level, JudgeError> {
        check_all(alloc, rules, feed)
    }

    fn reply(self) -> Reply {
        Reply::Accepted(self)
    }
}

// A low certificate shows the property of its level on every document of fewer cells than its bound.
impl Finding for (Level, u32) {
    ghost use Rattle.ot_bound.specs.Judgements.{IsLowJudgement};
    ghost use Rattle.ot_commands.specs.Bound.{at_least};

    ghost judges = { IsLowJudgement };

    ghost accepts = { at_least };

    fn judge<F: Feed>(
        alloc: Global,
        rules: &Rules,
        feed: &mut F,
    ) -> Result<(Level, u32), JudgeError> {
        check_bound(alloc, rules, feed)
    }

    fn reply(self) -> Reply {
        Reply::AtLeast(self.0, self.1)
    }
}

fn is_truncated(why: Refusal) -> bool
    ensures { result ≡ is_truncated why }
{
    match why {
        Refusal::Truncated => true,
        _ => false,
    }
}

// Whether bytes behind those that were judged could change the judgement.
fn rests_on_the_end<T: Copy>(judgement: &Result<T, JudgeError>) -> bool
    ensures { result ≡ rests_on_the_end judgement.now }
{
    match judgement {
        Ok(_) => true,
        Err(JudgeError::Refused { why, .. }) => is_truncated(*why),
        Err(JudgeError::Failed | JudgeError::NoMemory) => false,
    }
}

// The reply that tells a judgement.
fn told<T: Finding>(judgement: Result<T, JudgeError>) -> Result<Reply, Stop>
    ensures ok { IfOk result (λ reply. Tells T.accepts judgement reply) }
    ensures shelf { IsErrOf result Stop.Shelf → judgement ≡ Err JudgeError.Failed }
{
    match judgement {
        Ok(shown) => Ok(shown.reply()),
        Err(JudgeError::Refused { offset, why }) => Ok(Reply::Refused { offset, why }),
        Err(JudgeError::Failed) => Err(Stop::Shelf),
        Err(JudgeError::NoMemory) => Err(Stop::NoMemory),
    }
}

// The reply to the bytes of a new feed that gives as many as a certificate may have.
fn reply_to_feed<T: Finding, H: Shelf>(
    alloc: Global,
    rules: &Rules,
    feed: &mut ShelfFeed<'_, H>,
) -> Result<Reply, Stop>
    requires limit { room_of feed.old ≡ limit_of files.Certificate }
    requires begins { gave_by feed.old ≡ [] }
    requires read { IsAllOfReads feed.old }

    ensures ok { IfOk result (λ reply.
        IsReplyToCertificate (T.judges (function_of rules.now)) T.accepts (file_left feed.old) reply) }
    ensures shelf { IsErrOf result Stop.Shelf → Rose (H.faults (shelf_of feed.old)) (H.faults (shelf_of feed.new)) }
    ensures unchanged { Unchanged H.holds H.offered H.faults (shelf_of feed.old) (shelf_of feed.new) }
    ensures held { held_by feed.new ≡ held_by feed.old }
    ensures given { IfOk result (λ reply.
        IsReplyToCertificate (T.judges (function_of rules.now)) T.accepts (Some (H.reads (shelf_of feed.new)).bytes)
        reply) }
    ensures reading { IsSameReading (H.reads (shelf_of feed.old)) (H.reads (shelf_of feed.new)) }
{
    let judgement = T::judge(alloc, rules, feed);
    if rests_on_the_end(&judgement) && feed.too_long()? {
        return Ok(Reply::TooLong(FileKind::Certificate));
    }
    told(judgement)
}

// The reply to a certificate's file, of which no more bytes are judged than it may have.
fn reply_to_certificate<T: Finding, H: Shelf>(
    alloc: Global,
    shelf: &mut H,
    rules: &Rules,
    name: &str,
) -> Result<Reply, Stop>
    requires { H.offered shelf.old name.now }

    ensures ok { IfOk result (λ reply.
        IsReplyToCertificate (T.judges (function_of rules.now)) T.accepts (H.holds shelf.old name.now) reply) }
    ensures given { IfOk result (λ reply.
        IsReplyToCertificate (T.judges (function_of rules.now)) T.accepts (Some (H.reads shelf.new).bytes) reply) }
    ensures read { H.reads shelf.new ≡ after_reading name.now (H.reads shelf.new).bytes (H.reads shelf.old) }
    ensures shelf { IsErrOf result Stop.Shelf → Rose (H.faults shelf.old) (H.faults shelf.new) }
    ensures unchanged { Unchanged H.holds H.offered H.faults shelf.old shelf.new }
{
    shelf.open(name)?;
    let mut feed = ShelfFeed::new(shelf, limit(FileKind::Certificate) as u64);
    reply_to_feed::<T, H>(alloc, rules, &mut feed)
}

/// The command on the file of a certificate.
pub(crate) struct ByCertificate<T>(PhantomData<T>);

impl<T: Finding> FileCommand for ByCertificate<T> {
    ghost gets = { λ f told r. IsReplyToCertificate (T.judges f) T.accepts told r };

    ghost agrees = { λ f. ⊥ };

    fn reply<H: Shelf>(
        alloc: Global,
        shelf: &mut H,
        rules: &Rules,
        name: &str,
    ) -> Result<Reply, Stop> {
        reply_to_certificate::<T, H>(alloc, shelf, rules, name)
    }
}
