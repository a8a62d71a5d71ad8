//! Whether `bgp judge` reads the same records of a connection as are told.

ghost use Rattle.std.specs.Prelude.{◌≡◌, ◌↔◌, IfOk, IsTrue, map};
ghost use Rattle.bgp_recording.specs.Gathered.{IsClocked, IsCovered};
ghost use Rattle.bgp_recording.specs.Recorded.{IsRecordedInOrder};
ghost use Rattle.bgp_recording.specs.Tells.{numbered_of};
ghost use Rattle.bgp_check_text.specs.ReadAlike.{AreJudgeOptions, IsReadAlike, framings_by};
ghost use Rattle.bgp_check_text.specs.ReadAlike.{passes_over};

use crate::framed_alike::are_framed_alike;
use crate::options::{Asked, JudgeOptions};
use bgp_import::refresh_in;
use bgp_open::Config;
use bgp_recording::{
    Entry, Framing, Framings, Recording, Unshown, connections_are_recorded_once, make_records,
};
use bgp_wire::Limit;
use mrt_sessions::show_the_same;
use std::alloc::{AllocError, Allocator};
use streams::Connection;

/// Whether a ROUTE-REFRESH is passed over in either direction.
fn passes_over(received: Unshown, sent: Unshown) -> bool
    ensures { result ≡ passes_over received sent }
{
    0 < received.passed_over || 0 < sent.passed_over
}

/// By which rules `bgp judge` frames both directions.
fn framings_by(config: &Config, skips_refresh: bool) -> Framings
    ensures { result ≡ framings_by config.now skips_refresh }
{
    Framings::alike(Framing {
        limit: Limit::with_extended(config.parts.session.extended),
        skips_refresh,
    })
}

/// Whether two entries are the same record at the same packet, with the same time.
fn is_same(one: &Entry<'_>, other: &Entry<'_>) -> bool
    ensures { IsTrue result ↔ (numbered_of one.now ≡ numbered_of other.now) }
{
    one.packet == other.packet
        && one.second == other.second
        && one.micro == other.micro
        && show_the_same(&one.record, &other.record)
}

/// Whether these are the same, one after another.
fn are_same(one: &[Entry<'_>], other: &[Entry<'_>]) -> bool
    ensures { IsTrue result ↔ (map numbered_of one.now ≡ map numbered_of other.now) }
{
    if one.len() != other.len() {
        return false;
    }
    for index in 0..one.len() {
        if !is_same(&one[index], &other[index]) {
            return false;
        }
    }
    true
}

/// Whether by these rules, by which `judge` frames it, the connection has the same records as were
/// made of it by the framings. Decided without making them again, where these rules differ from the
/// framings only in what doesn't occur.
fn reads_them<A: Allocator + Copy>(
    alloc: A,
    connection: &Connection<'_>,
    within: u16,
    made: &Recording<'_, A>,
    framings: Framings,
    rules: Framings,
) -> Result<bool, AllocError>
    requires received { IsCovered connection.now.received }
    requires sent { IsCovered connection.now.sent }
    ensures { IfOk result (λ reads. IsClocked connection.now
        → IsRecordedInOrder framings within connection.now made.now.entries.items
        made.now.received made.now.sent
        → IsTrue reads ↔ IsReadAlike rules within connection.now made.now.entries.items) }
{
    connections_are_recorded_once();
    if are_framed_alike(made, framings, rules) {
        return Ok(true);
    }
    let others = make_records(alloc, connection, rules, within)?;
    Ok(are_same(others.entries.as_slice(), made.entries.as_slice()))
}

/// The options by which `bgp judge` gives the verdict on the records that were made of a connection
/// by these framings, where that is told under this configuration. `None` where it reads other
/// records: it frames the messages of both directions by what the local system offers alone, and
/// passes over a ROUTE-REFRESH in both or in neither.
///
/// `AllocError` is answered where memory is refused: the records may be made once more.
pub fn judge_options<A: Allocator + Copy>(
    alloc: A,
    config: Config,
    asked: Asked,
    connection: &Connection<'_>,
    within: u16,
    made: &Recording<'_, A>,
    framings: Framings,
) -> Result<Option<JudgeOptions>, AllocError>
    requires received { IsCovered connection.now.received }
    requires sent { IsCovered connection.now.sent }
    ensures { IfOk result (λ options. IsClocked connection.now
        → IsRecordedInOrder framings within connection.now made.now.entries.items
        made.now.received made.now.sent → AreJudgeOptions config asked
        within connection.now made.now.entries.items made.now.received made.now.sent options) }
{
    let skips_refresh = passes_over(made.received, made.sent);
    let rules = framings_by(&config, skips_refresh);
    let reads = reads_them(alloc, connection, within, made, framings, rules)?;
    if !reads {
        return Ok(None);
    }
    Ok(Some(JudgeOptions {
        config,
        skips_refresh,
        no_refresh: refresh_in(made).is_some(),
        asked,
    }))
}
