//! What all orders of one of a recording's connections say, beside the made one.

ghost use Rattle.std.specs.Prelude.{◌≡◌, List, IfNone, IfOk, IfSome, IsFalse, IsTrue};
ghost use Rattle.std.specs.Prelude.{length, reverse};
ghost use Rattle.packets.specs.Packet.{Recorded};
ghost use Rattle.streams.specs.Passed.{Segment};
ghost use Rattle.bgp_judge.specs.Verdict.{Unfinished, verdict_value};
ghost use Rattle.bgp_import.specs.Gathers.{HoldsSession};
ghost use Rattle.bgp_import.specs.Making.{HoldsTaken};
ghost use Rattle.bgp_import.specs.Selecting.{AreTaken};
ghost use Rattle.bgp_recording.specs.Captured.{records_of};
ghost use Rattle.bgp_recording.specs.Gathered.{IsClocked, IsCovered};
ghost use Rattle.bgp_orders.specs.WholeWays.{NoneIsFoundOver};
ghost use Rattle.bgp_explain.specs.Records.{AreExplained};
ghost use Rattle.bgp_recording_tool.specs.Connections.{AreInsteadOver, IsFound, IsFoundOver};
ghost use Rattle.bgp_recording_tool.specs.Connections.{IsInstead, IsInsteadOver, IsMadeVerdict};
ghost use Rattle.bgp_recording_tool.specs.Connections.{IsYesOver};
ghost use Rattle.bgp_recording_tool.specs.Found.{IsNo, IsNoYes, IsSought, IsYes};
ghost use Rattle.bgp_recording_tool.specs.Found.{ends_of, entries_of, found_of};

use bgp_explain::{ExplainedRecords, Report, explain_records};
use bgp_import::{Gathered, Import};
use bgp_instead::other_orders;
use bgp_judge::{Tracker, Verdict};
use bgp_open::Config;
use bgp_orders::{OverOrders, Unexplained, record_whole_way, verdict_over_orders};
use bgp_recording::{Entry, Framings, Recording};
use bgp_why::OtherOrders;
use std::alloc::{AllocError, Allocator};
use streams::Connection;

/// Another order than the made one, whose records are a yes.
#[derive(Drop)]
pub(crate) struct AnotherOrder<'a, A: Allocator> {
    /// Its records, and what is left of the streams.
    pub(crate) recording: Recording<'a, A>,
    /// What judging them answers.
    pub(crate) explained: ExplainedRecords<A>,
}

/// What the search of all orders finds that is reported in place of the verdict on the made one.
#[derive(Drop)]
pub(crate) enum Searched<'a, A: Allocator> {
    /// Nothing: that verdict is reported, and is the one over all orders.
    Nothing,
    /// There are too many orders: that verdict is reported, which is no yes.
    TooMany,
    /// No order explains this sent message; and what its reason says of other orders.
    NoOrder(Unexplained, OtherOrders),
    /// Another order is a yes.
    Another(AnotherOrder<'a, A>),
    /// Some order explains all that was sent, and none is a yes.
    Unfinished,
}

/// Whether the verdict is a no. Else it is a yes or unfinished.
fn is_no<A: Allocator>(verdict: &Verdict<A>) -> bool
    ensures yes { IsTrue result → IsNo (verdict_value verdict.now) }
    ensures no { IsFalse result → IsNoYes (verdict_value verdict.now)
        → verdict_value verdict.now ≡ Unfinished }
{
    match verdict {
        Verdict::No(_) => true,
        Verdict::Yes(_) => false,
        Verdict::Unfinished => false,
    }
}

/// Whether the verdict is a yes.
fn is_yes<A: Allocator>(verdict: &Verdict<A>) -> bool
    ensures yes { IsTrue result → IsYes (verdict_value verdict.now) }
    ensures no { IsFalse result → IsNoYes (verdict_value verdict.now) }
{
    match verdict {
        Verdict::Yes(_) => true,
        Verdict::No(_) | Verdict::Unfinished => false,
    }
}

/// Returns the records of a whole way of the connection's messages, and the yes that judging them
/// answers. Returns `None` only if no way is whole, or if there are too many nodes, and
/// `AllocError` if memory is refused.
fn another_yes<'a, A: Allocator + Copy, T: Tracker<A>>(
    alloc: A,
    config: &Config,
    connection: &Connection<'a>,
    framings: Framings,
    within: u16,
) -> Result<Option<AnotherOrder<'a, A>>, AllocError>
    requires received { IsCovered connection.now.received }
    requires sent { IsCovered connection.now.sent }
    ensures explained { IfOk result (λ found. IfSome found (λ another.
        AreExplained config.now (records_of another.recording.entries.items) another.explained
        × IsYes (verdict_value another.explained.verdict))) }
    ensures yes { IfOk result (λ found. IfSome found (λ another. IsClocked connection.now
        → IsYesOver config.now within framings connection.now another.recording.entries.items
        (ends_of (verdict_value another.explained.verdict)))) }
    ensures none { IfOk result (λ found. IfNone found
        (NoneIsFoundOver config.now within framings connection.now)) }
{
    let Some(recording) = record_whole_way(alloc, config, connection, framings, within)? else {
        return Ok(None);
    };
    let explained = explain_records::<A, T>(alloc, config, &recording.records)?;
    Ok(Some(AnotherOrder {
        recording,
        explained,
    }))
}

/// Returns what a reason says of other orders, if one is wanted, where no order explains the sent
/// message behind so many, and this is the verdict on the records of the made entries.
fn instead_of<A: Allocator + Copy>(
    alloc: A,
    config: &Config,
    report: Report,
    connection: &Connection<'_>,
    framings: Framings,
    within: u16,
    before: usize,
    made: &[Entry<'_>],
    verdict: &Verdict<A>,
) -> OtherOrders
    requires received { IsCovered connection.now.received }
    requires sent { IsCovered connection.now.sent }
    ensures { IsClocked connection.now → AreInsteadOver report config.now within framings
        connection.now before made.now (verdict_value verdict.now) result }
{
    match report {
        Report::VerdictAlone => OtherOrders::Unasked,
        Report::WithReason => match verdict {
            Verdict::Yes(_) | Verdict::Unfinished => OtherOrders::Unasked,
            Verdict::No(count) => {
                let count = *count as usize;
                other_orders(
                    alloc, config, connection, framings, within, before, made, count,
                )
            }
        },
    }
}

/// Returns what is found over all orders of the connection's messages, if this is the verdict on
/// the records of the made entries, and no yes. It is nothing only if it is unfinished over all
/// orders, as this verdict is. Returns `AllocError` if memory is refused.
fn search_connection<'a, A: Allocator + Copy, T: Tracker<A>>(
    alloc: A,
    config: &Config,
    report: Report,
    connection: &Connection<'a>,
    framings: Framings,
    within: u16,
    made: &[Entry<'_>],
    verdict: &Verdict<A>,
) -> Result<Searched<'a, A>, AllocError>
    requires received { IsCovered connection.now.received }
    requires sent { IsCovered connection.now.sent }
    requires no_yes { IsNoYes (verdict_value verdict.now) }
    ensures sought { IfOk result (λ searched.
        IsSought config.now (verdict_value verdict.now) searched) }
    ensures found { IfOk result (λ searched. IsClocked connection.now
        → IsFoundOver config.now within framings connection.now (verdict_value verdict.now)
        (entries_of searched) (found_of searched)) }
    ensures instead { IfOk result (λ searched. IsClocked connection.now
        → IsInsteadOver report config.now within framings connection.now made.now
        (verdict_value verdict.now) (found_of searched)) }
{
    match verdict_over_orders(alloc, config, connection, framings, within)? {
        OverOrders::Yes => {
            match another_yes::<A, T>(alloc, config, connection, framings, within)? {
                Some(another) => Ok(Searched::Another(another)),
                None => Ok(Searched::TooMany),
            }
        }
        OverOrders::No(unexplained) => {
            let before = unexplained.before;
            let instead = instead_of(
                alloc, config, report, connection, framings, within, before, made, verdict,
            );
            Ok(Searched::NoOrder(unexplained, instead))
        }
        OverOrders::Unfinished => {
            if !is_no(verdict) {
                return Ok(Searched::Nothing);
            }
            Ok(Searched::Unfinished)
        }
        OverOrders::TooMany => Ok(Searched::TooMany),
    }
}

/// Returns what is found over all orders of the connection of this number, or of the only one, of
/// which these entries are made, if the verdict on their records isn't a yes. If it is one nothing
/// is searched. Returns `AllocError` if memory is refused.
pub(crate) fn search_orders<'a, A: Allocator + Copy, T: Tracker<A>>(
    alloc: A,
    config: &Config,
    report: Report,
    import: &Import,
    gathered: &'a Gathered<A>,
    number: Option<usize>,
    made: &[Entry<'_>],
    verdict: &Verdict<A>,
) -> Result<Searched<'a, A>, AllocError>
    requires holds { HoldsTaken import.now.selection gathered.now }
    ensures sought { IfOk result (λ searched.
        IsSought config.now (verdict_value verdict.now) searched) }
    ensures found { IfOk result (λ searched. (packets : List Recorded) (segments : List Segment)
        → AreTaken import.now.selection 0 packets segments
        → HoldsSession (reverse segments) (length packets) gathered.now
        → IsMadeVerdict config.now import.now packets segments number made.now
        (verdict_value verdict.now)
        → IsFound config.now import.now packets segments number (verdict_value verdict.now)
        (entries_of searched) (found_of searched)) }
    ensures instead { IfOk result (λ searched. (packets : List Recorded) (segments : List Segment)
        → AreTaken import.now.selection 0 packets segments
        → HoldsSession (reverse segments) (length packets) gathered.now
        → IsInstead config.now import.now packets segments report number made.now
        (verdict_value verdict.now) (found_of searched)) }
{
    if is_yes(verdict) {
        return Ok(Searched::Nothing);
    }
    let Ok(connection) = gathered.choose(number) else {
        return Ok(Searched::Nothing);
    };
    let framings = Framings::of_session(&import.selection.session);
    let within = import.within;
    search_connection::<A, T>(
        alloc,
        config,
        report,
        &connection,
        framings,
        within,
        made,
        verdict,
    )
}
