//! What is remarked on one of a recording's connections.

ghost use Rattle.std.specs.Prelude.{◌≡◌, ◌++◌, OnErr, OnOk};
ghost use Rattle.bgp_judge.specs.Verdict.{verdict_value};
ghost use Rattle.bgp_recording_tool.specs.Remarks.{made_order_remark, making_remark};
ghost use Rattle.bgp_recording_tool.specs.Remarks.{making_remarks, verdict_remark};
ghost use Rattle.bgp_recording_tool.specs.Remarks.{confederation_remark, has_sent, notes_of};
ghost use Rattle.bgp_recording_tool.specs.Found.{found_of};
ghost use Rattle.bgp_recording_tool.specs.Remarks.{remarks_on};
ghost use Rattle.bgp_recording_tool.specs.Remarks.{without_remark};
ghost use Rattle.bgp_recording_tool.specs.Remarks.{one_order_remark, packet_after, yes_remark};
ghost use Rattle.bgp_recording_tool.specs.Remarks.{unsent_remark};
ghost use Rattle.bgp_tool.specs.Seen.{is_sent};
ghost use Rattle.mrt.specs.Reader.{shown_of};

use crate::orders::Searched;
use crate::remark::{Remark, RemarkKind, add_remarks};
use bgp_explain::LeftOut;
use bgp_import::{Note, notes_on};
use bgp_judge::Verdict;
use bgp_open::RouteOffer;
use bgp_recording::{Entry, Recording};
use mrt::Record;
use std::alloc::{AllocError, Allocator};

/// A note as a remark on the connection of this number, where several are told of.
fn made_remark(connection: Option<usize>, note: Option<Note>) -> Option<Remark>
    ensures { result ≡ making_remark connection note }
{
    match note {
        Some(note) => Some(Remark {
            connection,
            kind: RemarkKind::Made(note),
        }),
        None => None,
    }
}

/// What there is to tell of how the capture of a connection was made.
pub(crate) fn making_remarks<A: Allocator>(
    connection: Option<usize>,
    made: &Recording<'_, A>,
) -> [Option<Remark>; 5]
    ensures { result ≡ making_remarks connection (notes_of made.now) }
{
    let [
        received_passed,
        sent_passed,
        received_left,
        sent_left,
        put_off,
    ] = notes_on(made).in_order();
    [
        made_remark(connection, received_passed),
        made_remark(connection, sent_passed),
        made_remark(connection, received_left),
        made_remark(connection, sent_left),
        made_remark(connection, put_off),
    ]
}

/// The packet that shows the entry after so many: 0 where there are no more.
fn packet_after(entries: &[Entry<'_>], count: u64) -> u64
    ensures { result ≡ packet_after entries.now count }
{
    match entries.get(count as usize) {
        Some(entry) => entry.packet,
        None => 0,
    }
}

/// Whether the local system sent a message.
fn has_sent(entries: &[Entry<'_>]) -> bool
    ensures { result ≡ has_sent entries.now }
{
    entries.iter().any(|entry| is_sent(entry))
}

/// Whether an entry is a message that the local system sent.
fn is_sent(entry: &Entry<'_>) -> bool
    ensures { result ≡ is_sent (shown_of entry.now.record) }
{
    matches!(entry.record, Record::Out(_, _))
}

/// That an UPDATE of a confederation is among the records, where one is.
fn confederation_remark(connection: Option<usize>, confederation: bool) -> Option<Remark>
    ensures { result ≡ confederation_remark connection confederation }
{
    if !confederation {
        return None;
    }
    Some(Remark {
        connection,
        kind: RemarkKind::Confederation,
    })
}

/// That nothing is configured to be offered about routes, though both OPENs offer something.
fn without_remark(connection: Option<usize>, without: Option<RouteOffer>) -> Option<Remark>
    ensures { result ≡ without_remark connection without }
{
    match without {
        Some(offer) => Some(Remark {
            connection,
            kind: RemarkKind::Without(offer),
        }),
        None => None,
    }
}

/// That nothing was sent, where that is so.
fn unsent_remark(connection: Option<usize>, entries: &[Entry<'_>]) -> Option<Remark>
    ensures { result ≡ unsent_remark connection entries.now }
{
    if has_sent(entries) {
        return None;
    }
    Some(Remark {
        connection,
        kind: RemarkKind::NothingSent,
    })
}

/// Returns the remark on a yes that nothing was sent, if that is so.
fn yes_remark<A: Allocator>(
    connection: Option<usize>,
    entries: &[Entry<'_>],
    verdict: &Verdict<A>,
) -> Option<Remark>
    ensures { result ≡ yes_remark connection entries.now (verdict_value verdict.now) }
{
    match verdict {
        Verdict::Yes(_) => unsent_remark(connection, entries),
        Verdict::No(_) | Verdict::Unfinished => None,
    }
}

/// Returns the remark that a verdict is about one order, and how long a message may have waited in
/// it; on a no, at which record and packet it is, too.
fn one_order_remark<A: Allocator>(
    connection: Option<usize>,
    within: u16,
    entries: &[Entry<'_>],
    verdict: &Verdict<A>,
) -> Option<Remark>
    ensures { result
        ≡ one_order_remark connection within entries.now (verdict_value verdict.now) }
{
    match verdict {
        Verdict::Yes(_) => unsent_remark(connection, entries),
        Verdict::No(count) => Some(Remark {
            connection,
            kind: RemarkKind::No {
                before: *count,
                packet: packet_after(entries, *count),
                within,
            },
        }),
        Verdict::Unfinished => Some(Remark {
            connection,
            kind: RemarkKind::OneOrder { within },
        }),
    }
}

/// Returns what there is to tell of a verdict, or of the sent message that no order explains, if
/// there is one; of each yes, that nothing was sent, where that is so.
fn verdict_remark<A: Allocator>(
    connection: Option<usize>,
    within: u16,
    entries: &[Entry<'_>],
    verdict: &Verdict<A>,
    searched: &Searched<'_, A>,
) -> Option<Remark>
    ensures { result ≡ verdict_remark connection within entries.now (verdict_value verdict.now)
        (found_of searched.now) }
{
    match searched {
        Searched::Nothing => yes_remark(connection, entries, verdict),
        Searched::TooMany => one_order_remark(connection, within, entries, verdict),
        Searched::NoOrder(unexplained, _) => Some(Remark {
            connection,
            kind: RemarkKind::NoOrder {
                before: unexplained.before,
                packet: unexplained.packet,
                within,
            },
        }),
        Searched::Another(_) => unsent_remark(connection, entries),
        Searched::Unfinished => None,
    }
}

/// Returns what the made order is, if what is answered isn't its verdict: no yes, beside the yes of
/// another; or a no, beside what is unfinished over all.
fn made_order_remark<A: Allocator>(
    connection: Option<usize>,
    searched: &Searched<'_, A>,
) -> Option<Remark>
    ensures { result ≡ made_order_remark connection (found_of searched.now) }
{
    match searched {
        Searched::Nothing | Searched::TooMany | Searched::NoOrder(..) => None,
        Searched::Another(_) => Some(Remark {
            connection,
            kind: RemarkKind::AnotherOrder,
        }),
        Searched::Unfinished => Some(Remark {
            connection,
            kind: RemarkKind::AllOrders,
        }),
    }
}

/// Adds the remarks on a connection: how its records were made; whether they show an UPDATE of a
/// confederation, and what is left out of what both OPENs offer, as the caller found; what the made
/// order is, if what is answered isn't its verdict; on a no, the sent message that no order
/// explains; on a yes, that nothing was sent; if there are too many orders, that the verdict is
/// about one. Each has this number, if there are several connections. None is added if a growth is
/// refused, and then it returns `AllocError`: without them an answer would say too much or too
/// little.
pub(crate) fn add_remarks_on<A: Allocator + Copy>(
    remarks: &mut Vec<Remark, A>,
    named: Option<usize>,
    within: u16,
    made: &Recording<'_, A>,
    confederation: bool,
    left_out: LeftOut,
    verdict: &Verdict<A>,
    searched: &Searched<'_, A>,
) -> Result<(), AllocError>
    ensures ok { OnOk result (remarks.new.items ≡ remarks.old.items
        ++ remarks_on named within made.now.entries.items (notes_of made.now) confederation
        left_out (verdict_value verdict.now) (found_of searched.now)) }
    ensures err { OnErr result (remarks.new.items ≡ remarks.old.items) }
{
    let [
        received_passed,
        sent_passed,
        received_left,
        sent_left,
        put_off,
    ] = making_remarks(named, made);
    let shown = confederation_remark(named, confederation);
    let without = without_remark(named, left_out.without);
    let in_made = made_order_remark(named, searched);
    let judged = verdict_remark(named, within, made.entries.as_slice(), verdict, searched);
    add_remarks(
        remarks,
        &[
            received_passed,
            sent_passed,
            received_left,
            sent_left,
            put_off,
            shown,
            without,
            in_made,
            judged,
        ],
    )
}
