//! The page to show: what judging a recording promises, and what a yes and a no are worth.

ghost use Rattle.std.specs.Prelude.{◌<◌, ◌^◌};
ghost use Rattle.bgp_recording_tool.specs.Told.{NoIsTold};
ghost use Rattle.bgp_recording_tool.specs.Headline.{EachEndIsShown, EachEndOfAnotherIsShown};
ghost use Rattle.bgp_recording_tool.specs.Headline.{ImportAndJudgeAgree};
ghost use Rattle.bgp_recording_tool.specs.Headline.{JudgeTellsTheCapture, NoAtPacketIsByNoOrder};
ghost use Rattle.bgp_recording_tool.specs.Headline.{NoAtRecordIsAsMade, PrintsVerdictOverAll};
ghost use Rattle.bgp_recording_tool.specs.Headline.{UnfinishedIsSo};
ghost use Rattle.bgp_recording_tool.specs.Judging.{JudgesRecording};

use crate::judging::{Judged, judge_source, misfit};
use crate::options::{import_of, misfit_of};
use bgp_explain::Report;
use bgp_import::{RecordingOptions, recordings_are_made_once};
use bgp_judge::{Tracker, records_have_just_one_verdict};
use bgp_open::Config;
use bgp_orders::{no_order_explains_a_no, runs_of_entries_are_whole};
use bgp_recording::made_records_are_read;
use bgp_verdict_lines::{VerdictForm, VerdictLines};
use mrt::{Sink, Source, each_capture_has_one_reading};
use std::alloc::Allocator;

/// Judges the session of a recording that a source gives: whether the messages in its packets are
/// those of a run of the session machine (RFC 4271, 8.2.2), under this configuration.
///
/// Packets don't tell when the local system read a message, and what came may have waited. So one
/// order is made in which it may have handled them, and the records of that are judged. What a yes
/// is worth says [`each_end_is_shown`]. If the verdict isn't a yes, all orders that the packets
/// allow are searched. If another is a yes, that yes is reported, and a remark says so. A no over
/// all is reported by the packet of a sent message ([`a_no_at_a_packet_is_by_no_order`]). If some
/// order explains all that was sent and none is a yes, unfinished is reported
/// ([`what_is_unfinished_is_so`]). So the verdict over all orders is reported
/// ([`what_is_printed_is_over_all_orders`]). Only if there are too many to be searched, the verdict
/// on the made order is: a no by its record, which is about this one order, and another may be a
/// yes ([`a_no_at_a_record_is_as_made`]). By [`import_and_judge_agree`] the capture that is
/// imported has the verdict of the made order from [`judge_capture`](bgp_tool::judge_capture).
///
/// It judges the connection that is named, or the only one; where there are several and none is
/// named, each, under a line that names it. It writes the text of each verdict, or `recording
/// refused: NUMBER NAME at packet N`, and answers its exit status, of several the first of 5, 4, 1,
/// 3, 2, 0 that one of them has ([`a_no_is_told`]):
///
/// * 0: `yes`, and each possible end with its routes, and no other: of the made order, or of the
///   other one that is a yes.
/// * 1: `no at packet P`: no order explains the sent message that this packet shows; a remark has
///   its number among those sent. Or `no at record N` of the made records; a remark has the packet
///   that shows the record.
/// * 2: `unfinished`: the recording stops within what the local system had to do, over all orders;
///   a remark says if the made one is a no. Or in the made one, and a remark says so.
/// * 3: the recording is refused.
/// * 4: memory was refused.
/// * 5: a device failed.
/// * 64: no recording can be meant, as a remark tells: the session's addresses are of two families,
///   or one, and the local system's port isn't named. Nothing is read or written then.
///
/// If the reason is wanted, it writes after the verdict on each connection:
///
/// * after a no, in either form, the line of the first impossible of the made records, with the
///   packet that shows it, which of a change is that of the record beside it; the state that the
///   records before it tell; the message received last, what it asks for, and the packet by which
///   it was whole; each kind of record that could have stood in its place, and no other, with what
///   the record lacks of it; and each note whose condition holds, as
///   [`explain_capture`](bgp_explain::explain_capture) has them.
/// * after an unfinished the same, of what may follow all records; if the made order is a no, and
///   it is unfinished over all, the same as after a no.
/// * after a yes how many records there are, and of which kinds; of another order its own.
///
/// After a refusal it writes nothing more. Where memory is refused for the reason of a connection,
/// `note: out of memory for the reason` stands in its place, and the verdict is told all the same.
/// Where it is refused for a remark, the connection is refused: no verdict is told without its
/// remarks. By [`made_records_could_have_stood`](crate::made_records_could_have_stood) each line
/// after a no can be put to the test, and by
/// [`recordings_are_explained_as_judged`](crate::recordings_are_explained_as_judged) the verdict is
/// the one that is told without a reason.
///
/// In JSON it writes the objects of lines that have just this text, a line each
/// (`specs/Printed` of bgp_verdict_lines). If memory is refused for one, those before it are
/// written, and the status is 4.
///
/// A recording that was cut short is judged by what it has, and it is told that it was. A remark
/// says of each connection whether its records show an UPDATE of a confederation (RFC 5065), which
/// isn't judged.
///
/// A recording holds its packets one at a time; of the session it holds each connection's streams,
/// and of one connection its messages and records besides, which point into these. It rests on the
/// contract of [`Tracker`] alone, and so holds with every tracker.
pub fn judge_recording<A: Allocator + Copy, T: Tracker<A>, R: Source, W: Sink>(
    alloc: A,
    config: &Config,
    report: Report,
    form: VerdictForm,
    options: &RecordingOptions,
    source: &mut R,
    sink: &mut W,
) -> Judged<A>
    requires source { R.failures source.old < 2 ^ 63 }
    requires sink { W.failures sink.old < 2 ^ 63 }
    ensures { JudgesRecording R.gives R.has_ended W.takes R.failures W.failures config.now
        report form options.now source.old source.new sink.old sink.new result }
{
    let import = import_of(&config.parts.session, options);
    if let Some(remark) = misfit_of(&import) {
        return misfit(alloc, remark);
    }
    let mut remarks = Vec::new(alloc);
    let mut lines = VerdictLines::new(form, alloc, sink);
    let (status, cut_short) = judge_source::<A, T, R, W>(
        alloc,
        config,
        report,
        &import,
        source,
        &mut lines,
        &mut remarks,
    );
    let status = lines.finish(status);
    // No effect: it ends the loan of the sink.
    lines.into_sink();
    Judged {
        status: status.code(),
        cut_short,
        remarks,
    }
}

/// Law: what a yes on a recording is worth.
///
/// For each end that is listed there is a run of the session machine that ends so, with just these
/// routes, and that explains the packets: it hears each message that the peer sent, and sends each
/// that the local system sent, but for the octets that a remark tells to be left and the
/// ROUTE-REFRESHes that one tells to be passed over. Nothing is
/// handled before it came; nothing that was on the wire before is moved after it; and nothing waits
/// longer than the patience, 10 seconds unless told (`IsRecorded` of bgp_recording).
///
/// No promise rests on the rules of waiting, by which one of the allowed orders is chosen: with any
/// others that keep to these limits the law is the same, and only a no or an unfinished could
/// become a yes, or the other way round.
///
/// A yes of another order than the made one is worth the same: some run shows just the records of
/// an order of the connection's messages that the packets allow within the patience, and ends so.
/// The session may begin in Connect or in Active then, whoever opened the connection.
///
/// It rests on the packets: that the recorder missed none, that the file has them in the order in
/// which they passed, by a clock that is right, and that what was recorded is what arrived.
pub fn each_end_is_shown()
    ensures made { EachEndIsShown }
    ensures other { EachEndOfAnotherIsShown }
{
    runs_of_entries_are_whole();
}

/// Law: what a no over all orders is worth.
///
/// If what is printed of a connection begins with `no at packet`, the packet is that of a message
/// that the local system sent, and no order of the connection's messages that the packets allow has
/// records that begin a run of the session machine under this configuration, up to and with that
/// message or any further; whichever state the session begins in, Connect or Active. Some order
/// explains all that was sent before it. So it is about the router, its settings, or what
/// [`each_end_is_shown`] rests on, and that the router handled each message within the patience.
pub fn a_no_at_a_packet_is_by_no_order()
    ensures { NoAtPacketIsByNoOrder }
{
    no_order_explains_a_no();
}

/// Law: what an unfinished is worth.
///
/// If what is printed of a connection begins with `unfinished`, some order that the packets allow
/// explains all that was sent, and no run of the session machine shows just the records of any of
/// these orders under this configuration, whichever state the session begins in. Or its made
/// records are unfinished, and it isn't known what all orders say, for too many nodes.
pub fn what_is_unfinished_is_so()
    ensures { UnfinishedIsSo }
{}

/// Law: what a no of one order is worth.
///
/// If what is printed of a connection begins with `no at record`, its made records are a no at that
/// record, and it isn't known what all orders say, for too many nodes: more than 1,048,576.
pub fn a_no_at_a_record_is_as_made()
    ensures { NoAtRecordIsAsMade }
{}

/// Law: what is printed of a connection is the verdict over all orders of its messages that the
/// packets allow within the patience, whichever state the session begins in.
///
/// It is `yes` if some run of the session machine shows just the records of some order; `no at
/// packet` of the first sent message that no order explains; or `unfinished`, if some order explains
/// all that was sent, and no run shows just the records of any. There is one exception: if it isn't
/// known what all orders say, for too many nodes, the verdict on the made records is printed, and
/// that is no yes. Or the connection is refused, as it is if memory is.
pub fn what_is_printed_is_over_all_orders()
    ensures { PrintsVerdictOverAll }
{
    runs_of_entries_are_whole();
}

/// Law: what is imported of a recording is judged as the recording is.
///
/// Whatever is imported of a recording and whatever is judged of it, each by its own contract, are
/// one list of records ([`recordings_are_made_once`]). The capture that
/// [`import_recording`](bgp_import::import_recording) writes reads as just these. The verdict on
/// what it reads as is the one that is answered of the recording, unless that is over all orders:
/// then the capture's is a no, if the answer is a no or unfinished, and it is no yes, if the answer
/// is the yes of another order.
///
/// A reader refuses such a capture at its first ROUTE-REFRESH, where the session refuses one, and
/// for nothing else (7 RouteRefresh); and exactly there is the recording refused for that (18
/// RouteRefresh). Where both pass such messages over, none is in the capture.
pub fn import_and_judge_agree()
    ensures agree { ImportAndJudgeAgree }
    ensures told { JudgeTellsTheCapture }
{
    each_capture_has_one_reading();
    made_records_are_read();
    records_have_just_one_verdict();
    recordings_are_made_once();
}

/// Law: over several connections the exit status is 1 exactly where one of them is told no, and no
/// device and no memory failed. So a connection that is refused, or unfinished, hides no no.
pub fn a_no_is_told()
    ensures { NoIsTold }
{}
