//! The verdict on records, and why it is a no or unfinished.

ghost use Rattle.std.specs.Prelude.{List, ℕ, Some, IfOk, OnErr, is_some, map};
ghost use Rattle.bgp_prefix.specs.Shown.{ShownRecord};
ghost use Rattle.mrt.specs.Reader.{shown_of};
ghost use Rattle.bgp_machine.specs.Run.{Begins};
ghost use Rattle.bgp_open.specs.declared.config.Config.{Config as TheConfig};
ghost use Rattle.bgp_judge.specs.Memory.{LacksMemoryFor};
ghost use Rattle.bgp_judge.specs.Verdict.{verdict_value};
ghost use Rattle.bgp_text.specs.Lines.{Writes};
ghost use Rattle.bgp_verdict_lines.specs.Lines.{PutsLines};
ghost use Rattle.bgp_explain.specs.Details.{AreDetailsOf};
ghost use Rattle.bgp_explain.specs.Places.{places_of};
ghost use Rattle.bgp_explain.specs.Progress.{IsAt};
ghost use Rattle.bgp_explain.specs.Records.{AreExplained, SaysDeed, SaysLines, SaysWhere};
ghost use Rattle.bgp_explain.specs.KeptLines.{kept_text};
ghost use Rattle.bgp_explain.specs.Text.{CanBePutOf};
ghost use Rattle.bgp_explain.specs.Why.{AreCaptured};

use crate::deed::put_deed_text;
use crate::details::{Details, details_of};
use crate::explained::Reason;
use crate::kept_lines::KeptLines;
use crate::left_out::LeftOut;
use crate::places::Places;
use crate::so_far::Progress;
use crate::tally::{Tally, put_yes_lines};
use crate::texts::put_any_reason;
use bgp_judge::{Tracker, Verdict};
use bgp_open::Config;
use bgp_prefix::Session;
use bgp_text::Lines;
use bgp_tool::Seen;
use bgp_verdict_lines::VerdictLines;
use bgp_why::{Endpoint, Style};
use mrt::{Record, Sink};
use std::alloc::{AllocError, Allocator, Global};

/// What judging records answers, and why.
#[derive(Drop)]
pub struct ExplainedRecords<A: Allocator = Global> {
    /// The verdict.
    pub verdict: Verdict<A>,
    /// Why it is a no or unfinished; none where memory was refused for it.
    pub reason: Option<Reason<A>>,
    /// How many records there are, up to the first impossible one.
    pub tally: Tally,
    /// What these show of what the local system did.
    pub seen: Seen,
    /// What judging leaves out of what both OPENs offer, by these.
    pub left_out: LeftOut,
}

/// What judging records answers, by how far the judging has come with them. Memory is refused where
/// the tracker lacks it for the ends, and there alone.
fn concluded<A: Allocator + Copy, T: Tracker<A>>(
    alloc: A,
    config: &Config,
    tracker: &T,
    progress: Progress<A>,
) -> Result<ExplainedRecords<A>, AllocError>
    ensures explained { (records : List ShownRecord)
        → IsAt (T.stands_for tracker.now) config.now records progress
        → IfOk result (AreExplained config.now records) }
    ensures err { (records : List ShownRecord)
        → IsAt (T.stands_for tracker.now) config.now records progress
        → OnErr result (Begins config.now records) }
{
    let (tally, seen) = (progress.tally, progress.seen);
    let left_out = progress.sending.offers.left_out(config);
    let (verdict, reason) = progress.conclude(alloc, tracker, config)?;
    Ok(ExplainedRecords {
        verdict,
        reason,
        tally,
        seen,
        left_out,
    })
}

/// Judges records, one after another, and keeps why the verdict is a no or unfinished, as far as
/// there is memory for it. `AllocError` is answered where the tracker lacks memory: before the first
/// record, for one that doesn't stand behind the impossible one, or behind all of them where they
/// begin a run. So what is kept for the reason never costs the verdict.
///
/// Beside the tracker it holds the message that was received last and the first impossible record.
pub fn explain_records<A: Allocator + Copy, T: Tracker<A>>(
    alloc: A,
    config: &Config,
    records: &[Record<'_>],
) -> Result<ExplainedRecords<A>, AllocError>
    ensures explained { IfOk result (AreExplained config.now (map shown_of records.now)) }
    ensures memory { OnErr result (LacksMemoryFor T.may_lack_at_start T.may_lack config.now
        (map shown_of records.now)) }
{
    let mut tracker = T::start(alloc, config)?;
    let mut progress = Progress::new(alloc);
    for shown in records {
        progress.advance(alloc, &mut tracker, config, shown)?;
    }
    concluded(alloc, config, &tracker, progress)
}

impl<A: Allocator + Copy> ExplainedRecords<A> {
    /// What the reason says besides, as far as it takes memory; none where memory is refused for
    /// it, or where there is no reason, as of a yes.
    pub fn details(&self, alloc: A, config: &Config) -> Option<Details<'_, A>>
        ensures { AreDetailsOf config.now self.entry.now.reason result }
    {
        details_of(alloc, config, &self.reason)
    }
}

/// Puts what is told after the verdict on records that stand at these places: after a yes how many
/// there are, and else why it is so, which names the record that can't be, the one that told the
/// state and that of the last message by where they stand; or that memory was refused for the
/// reason, where there are no details of it. The lines of a reason are in this style.
///
/// The line of that record is put as of a capture of this session, which has to be able to hold it:
/// the configuration's own, or one whose messages may be longer or have to be shorter.
pub fn put_explained_records<W: Sink, A: Allocator + Copy>(
    lines: &mut VerdictLines<'_, A, W>,
    config: &Config,
    style: &Style,
    session: &Session,
    places: Places<'_>,
    explained: &ExplainedRecords<A>,
    details: &Option<Details<'_, A>>,
)
    requires can { CanBePutOf session.now explained.now.reason }
    requires details { AreDetailsOf config.now explained.now.reason details.now }
    ensures { (records : List ShownRecord) → AreExplained config.now records explained.now
        → (more : List ℕ)
        × SaysWhere config.now style.now session.now (places_of places.entry) records
        (is_some details.now) (verdict_value explained.now.verdict) more
        × PutsLines lines.old lines.new more }
{
    let reason = &explained.reason;
    match &explained.verdict {
        Verdict::Yes(_) => put_yes_lines(lines, &explained.tally, None, explained.seen.left_idle),
        Verdict::No(_) => {
            put_any_reason(lines, config, style, session, places, reason, details);
        }
        Verdict::Unfinished => {
            put_any_reason(lines, config, style, session, places, reason, details);
        }
    }
}

/// Puts what the impossible record of a no shows was done, between the local system and this peer,
/// and what is wrong with it, without a line end: `sent UPDATE to 192.0.2.2, not allowed here`.
/// Nothing is put after another verdict.
///
/// The record is one that a capture of this session can hold. The details are those of the reason,
/// which has to be there.
pub fn put_deed_of<W: Sink, A: Allocator + Copy>(
    lines: &mut Lines<'_, W>,
    style: &Style,
    session: &Session,
    peer: &Endpoint,
    explained: &ExplainedRecords<A>,
    details: &Details<'_, A>,
)
    requires { CanBePutOf session.now explained.now.reason }
    ensures { (config : TheConfig) (records : List ShownRecord)
        → AreDetailsOf config explained.now.reason (Some details.now)
        → AreExplained config records explained.now
        → (text : List ℕ)
        × SaysDeed config style.now session.now peer.now records
        (verdict_value explained.now.verdict) text
        × Writes lines.old lines.new text }
{
    match &explained.verdict {
        Verdict::Yes(_) => lines.put(b""),
        Verdict::No(_) => {
            if let Some(reason) = &explained.reason {
                put_deed_text(lines, style, session, peer, reason, &details.lacks);
            }
        }
        Verdict::Unfinished => lines.put(b""),
    }
}

/// Keeps the lines of the reason of a no, without the first one, or of an unfinished, to be put in
/// either form: the message of the impossible record in words, what the records before tell, all
/// that could have stood in its place or may follow, and notes. There are none after a yes. If a
/// number is given, the configuration is one with any other AS number of the peer. Returns
/// `AllocError` if memory runs out, or ran out for the reason.
///
/// The records stand at these places, and the impossible one is one that a capture of this session
/// can hold. Each message that they show as received is one that a capture of the configuration's
/// session can hold.
pub fn keep_lines_of<A: Allocator + Copy>(
    alloc: A,
    config: &Config,
    style: &Style,
    session: &Session,
    another: Option<u32>,
    places: Places<'_>,
    explained: ExplainedRecords<A>,
) -> Result<Option<KeptLines<A>>, AllocError>
    requires can { CanBePutOf session.now explained.reason }
    requires captured { (records : List ShownRecord) × AreExplained config.now records explained
        × AreCaptured config.now records }
    ensures { IfOk result (λ kept. (records : List ShownRecord)
        → AreExplained config.now records explained
        → SaysLines config.now style.now session.now another (places_of places.entry) records
        (verdict_value explained.verdict) (kept_text kept)) }
{
    let ExplainedRecords {
        verdict,
        reason,
        ..
    } = explained;
    match reason {
        Some(reason) => {
            let kept = KeptLines::of(alloc, config, style, session, another, places, reason)?;
            Ok(Some(kept))
        }
        None => match verdict {
            Verdict::Yes(_) => Ok(None),
            Verdict::No(_) | Verdict::Unfinished => Err(AllocError),
        },
    }
}
