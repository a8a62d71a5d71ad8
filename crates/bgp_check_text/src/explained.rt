//! What is said of records, in memory.

ghost use Rattle.std.specs.Prelude.{◌<◌, ℕ, IfOk, List, OnOk, Some, map};
ghost use Rattle.std.specs.List.{AllByRecursion};
ghost use Rattle.mrt.specs.Reader.{shown_of};
ghost use Rattle.bgp_prefix.specs.Shown.{ShownRecord};
ghost use Rattle.bgp_judge.specs.Verdict.{HasVerdict, VerdictValue, verdict_value};
ghost use Rattle.bgp_explain.specs.Details.{AreDetailsOf};
ghost use Rattle.bgp_explain.specs.Places.{places_of};
ghost use Rattle.bgp_explain.specs.Records.{AreExplained, SaysDeed};
ghost use Rattle.bgp_explain.specs.Text.{CanBePutOf};
ghost use Rattle.bgp_check_text.specs.Reason.{IsSaid, SaysSo, deed_text, lines_text};
ghost use Rattle.bgp_check_text.specs.Shown.{CanBeTold, session_at};

use crate::reason::Reason;
use crate::shown::{can_be_told, session_at};
use bgp_explain::{Details, ExplainedRecords, Places, explain_records, keep_lines_of, put_deed_of};
use bgp_judge::{Tracker, records_have_just_one_verdict};
use bgp_open::Config;
use bgp_prefix::Session;
use bgp_text::Lines;
use bgp_why::{Endpoint, Style};
use bgp_wire::Limit;
use mrt::{Failed, MemSink, Record, Sink};
use std::alloc::{AllocError, Allocator};

/// In which way an end's records are told.
#[derive(Clone, Copy)]
pub(crate) struct Telling<'a> {
    /// How lines are put.
    pub(crate) style: Style,
    /// By which limit the line of a record goes that was sent.
    pub(crate) sent: Limit,
    /// The peer.
    pub(crate) peer: Endpoint,
    /// The AS number that the peer doesn't have, if it has any other one.
    pub(crate) another: Option<u32>,
    /// Where the records stand.
    pub(crate) places: Places<'a>,
}

/// Writes what the impossible record of a no shows was done.
fn write_deed<W: Sink, A: Allocator + Copy>(
    sink: &mut W,
    config: &Config,
    telling: &Telling<'_>,
    session: &Session,
    explained: &ExplainedRecords<A>,
    details: &Details<'_, A>,
) -> Result<(), Failed>
    requires failures { W.failures sink.old < u64.MAX }
    requires can { CanBePutOf session.now explained.now.reason }
    requires details { AreDetailsOf config.now explained.now.reason (Some details.now) }
    ensures { OnOk result ((records : List ShownRecord)
        → AreExplained config.now records explained.now → (text : List ℕ)
        × SaysDeed config.now telling.now.style session.now telling.now.peer records
        (verdict_value explained.now.verdict) text
        × W.takes sink.old sink.new text) }
{
    let mut lines = Lines::new(sink);
    put_deed_of(
        &mut lines,
        &telling.style,
        session,
        &telling.peer,
        explained,
        details,
    );
    let handed_over = lines.hand_over();
    // No effect: it ends the loan of the sink.
    lines.into_sink();
    handed_over
}

/// Returns what the impossible record of a no shows was done. Returns `AllocError` if memory runs
/// out.
fn deed_of<A: Allocator + Copy>(
    alloc: A,
    config: &Config,
    telling: &Telling<'_>,
    session: &Session,
    explained: &ExplainedRecords<A>,
) -> Result<Vec<u8, A>, AllocError>
    requires { CanBePutOf session.now explained.now.reason }
    ensures { IfOk result (λ text. (records : List ShownRecord)
        → AreExplained config.now records explained.now
        → SaysDeed config.now telling.now.style session.now telling.now.peer records
        (verdict_value explained.now.verdict) text.items) }
{
    let Some(details) = explained.details(alloc, config) else {
        return Err(AllocError);
    };
    let mut sink = MemSink::new(alloc);
    match write_deed(&mut sink, config, telling, session, explained, &details) {
        Ok(()) => Ok(sink.into_octets()),
        Err(_) => Err(AllocError),
    }
}

/// Returns what is said of records that a capture can hold, the sent ones by that limit. Returns
/// `AllocError` if memory runs out for the reason.
fn text_of<A: Allocator + Copy, T: Tracker<A>>(
    alloc: A,
    config: &Config,
    telling: &Telling<'_>,
    records: &[Record<'_>],
) -> Result<Reason<A>, AllocError>
    requires { AllByRecursion (CanBeTold config.now.parts.session telling.now.sent)
        (map shown_of records.now) }
    ensures { IfOk result (λ reason. (verdict : VerdictValue)
        → HasVerdict config.now (map shown_of records.now) verdict
        → SaysSo config.now telling.now.style (session_at config.now.parts.session
        telling.now.sent (map shown_of records.now) verdict) telling.now.peer
        telling.now.another (places_of telling.now.places) (map shown_of records.now) verdict
        (deed_text reason) (lines_text reason)) }
{
    records_have_just_one_verdict();
    let explained = explain_records::<A, T>(alloc, config, records)?;
    let session = session_at(
        &config.parts.session,
        telling.sent,
        records,
        &explained.verdict,
    );
    let (style, another, places) = (&telling.style, telling.another, telling.places);
    Ok(Reason {
        deed: deed_of(alloc, config, telling, &session, &explained)?,
        lines: keep_lines_of(alloc, config, style, &session, another, places, explained)?,
    })
}

/// Returns what is said of records after the verdict on them under a configuration: nothing if no
/// capture can hold them all.
pub(crate) fn said_of<A: Allocator + Copy, T: Tracker<A>>(
    alloc: A,
    config: &Config,
    telling: &Telling<'_>,
    records: &[Record<'_>],
) -> Result<Reason<A>, AllocError>
    ensures { IfOk result (λ reason. (verdict : VerdictValue)
        → HasVerdict config.now (map shown_of records.now) verdict
        → IsSaid config.now telling.now.style telling.now.sent telling.now.peer
        telling.now.another (places_of telling.now.places) (map shown_of records.now) verdict
        (deed_text reason) (lines_text reason)) }
{
    if !can_be_told(&config.parts.session, telling.sent, records) {
        return Ok(Reason::nothing(alloc));
    }
    text_of::<A, T>(alloc, config, telling, records)
}
