//! The page to show: what checking a recording promises.

ghost use Rattle.std.specs.Prelude.{◌<◌, ◌^◌, []};
ghost use Rattle.bgp_import.specs.Talks.{HoldsEach};
ghost use Rattle.bgp_import.specs.Wrapped.{AreCounted};
ghost use Rattle.bgp_check_tool.specs.Checking.{ChecksMarked, ChecksRecording};
ghost use Rattle.bgp_check_tool.specs.Printed.{NoesAreTrue, PrintsTrue, ToldVerdictIsOverAll};
ghost use Rattle.bgp_check_tool.specs.Printed.{UnfinishedAreTrue, YesesAreTrue};

use crate::checking::{self, CheckedRecording};
use crate::laws::{no_order_has_a_run, no_order_is_whole};
use crate::marks::Marks;
use crate::options::CheckOptions;
use bgp_check::{a_verdict_holds_under_its_configuration, no_configuration_explains_a_no};
use bgp_import::Talks;
use bgp_judge::Tracker;
use mrt::{Sink, Source};
use std::alloc::Allocator;

/// Checks each end of each connection in a recording that holds octets and one of whose ports is
/// this one: whether its messages are those of a run of the session machine (RFC 4271, 8.2.2) under
/// some configuration under which the OPEN that it sent is its own.
///
/// **The sentence.** If the lines of an end begin with `no at packet P`, and no note says that this
/// is one possible order, packet P is the first that shows some message of the end's, and no order
/// that the packets allow has a run that explains this message and all that the end sent before it.
/// That is so under every configuration under which the end's OPEN is its own, and if each message
/// is handled within D seconds after it came (`--within`).
///
/// If the note is there, the same is known of one of these orders: no such configuration has a run
/// that shows the end's records in it up to one that packet P shows. In both cases some such
/// configuration has a run that explains what comes before, if the OPEN is any configuration's own.
/// The note is there only if memory is refused for the search over all orders, or if that reaches
/// more than [`MOST_NODES`](bgp_orders::MOST_NODES) nodes under one of the end's widest
/// configurations, two at most. Under the other it does, too, or no order has a run that shows just
/// the end's records. That is the clause `no`.
///
/// If they begin with `yes`, some run under such a configuration shows just the end's records in
/// one of these orders. Each state in which such a run can end is listed, and no other. It is the
/// order that `bgp import` makes, or another one, and then a note says so. The routes *before that*
/// of a session that left Established are those of all ends of the longest front of these records
/// that has one in Established; if the end refused an UPDATE, of the records before that UPDATE.
/// That is the clause `yes`.
///
/// If they begin with `unfinished after packet P`, and no note says that this is one possible
/// order, packet P shows the last record, no run under such a configuration shows just the end's
/// records in any order that the packets allow, and in one of these some run explains all that the
/// end sent. Another note says so if the order that is made is a no. If the note is there, no such
/// run shows just the records in the order that is made, and some run shows more; and it is there
/// only for one of the two causes of a no. That is the clause `unfinished`. All that is printed is
/// tied to the packets, so that no other line passes for one of these.
///
/// It writes a line for each connection, in the order of their first packets. After it come the
/// reports on both ends, first on the one that opened the connection: the verdict; for a yes each
/// state in which the session may stand, for a no what was done and what is wrong with it, and for
/// a no and an unfinished why it is so; and the `bgp judge` command that gives the verdict. Or the
/// report says why the end isn't judged. Then it writes why the file can't be read on, if it can't,
/// that memory was refused for a list of the connections, if it was, and that the file was cut
/// short, if it was; last how many ends there are of each verdict. If only what isn't well is
/// printed (`quiet`), it leaves out the ends that are a yes or not judged, the line of a connection
/// of which nothing else is left, that the file was cut short, and the last line, if it would stand
/// alone. It answers the exit status over all ends, the first of 5, 4, 1, 3, 2, 0 for which there
/// is something:
///
/// * 0: a yes.
/// * 1: a no.
/// * 2: an end is unfinished: the recording stops within what it had to do.
/// * 3: the recording or a connection is refused; or no end is judged.
/// * 4: memory was refused.
/// * 5: a device failed.
///
/// A recording holds its packets one at a time; of all connections it holds the streams, and of one
/// end its messages and records besides.
///
/// It rests on the contract of [`Tracker`] alone, and so holds with every tracker; and on those of
/// its source and sink.
pub fn check_recording<A: Allocator + Copy, T: Tracker<A>, R: Source, W: Sink>(
    alloc: A,
    options: &CheckOptions,
    source: &mut R,
    sink: &mut W,
) -> CheckedRecording
    requires source { R.failures source.old < 2 ^ 63 }
    requires sink { W.failures sink.old < 2 ^ 63 }
    ensures no { PrintsTrue NoesAreTrue R.gives R.has_ended W.takes W.failures options.now
        source.old source.new sink.old sink.new result.status result.cut_short }
    ensures yes { PrintsTrue YesesAreTrue R.gives R.has_ended W.takes W.failures options.now
        source.old source.new sink.old sink.new result.status result.cut_short }
    ensures unfinished { PrintsTrue UnfinishedAreTrue R.gives R.has_ended W.takes W.failures
        options.now source.old source.new sink.old sink.new result.status result.cut_short }
    ensures all { ChecksRecording R.gives R.has_ended W.takes R.failures W.failures options.now
        source.old source.new sink.old sink.new result.status result.cut_short
        result.refusals.items result.refusal result.nothing }
{
    let mut talks = Talks::new(alloc, options.port);
    let mut marks = Marks::new(alloc);
    check_marking::<A, T, R, W>(alloc, options, source, sink, &mut talks, &mut marks)
}

/// Checks a recording as [`check_recording`] does, holds its connections in `talks`, which holds
/// none before, and adds to `marks` where the no of each end stands whose answer is printed.
pub fn check_marking<A: Allocator + Copy, T: Tracker<A>, R: Source, W: Sink>(
    alloc: A,
    options: &CheckOptions,
    source: &mut R,
    sink: &mut W,
    talks: &mut Talks<A>,
    marks: &mut Marks<A>,
) -> CheckedRecording
    requires source { R.failures source.old < 2 ^ 63 }
    requires sink { W.failures sink.old < 2 ^ 63 }
    requires empty { HoldsEach options.now.port [] talks.old }
    requires none { AreCounted [] talks.old.wrapped }
    ensures no { PrintsTrue NoesAreTrue R.gives R.has_ended W.takes W.failures options.now
        source.old source.new sink.old sink.new result.status result.cut_short }
    ensures yes { PrintsTrue YesesAreTrue R.gives R.has_ended W.takes W.failures options.now
        source.old source.new sink.old sink.new result.status result.cut_short }
    ensures unfinished { PrintsTrue UnfinishedAreTrue R.gives R.has_ended W.takes W.failures
        options.now source.old source.new sink.old sink.new result.status result.cut_short }
    ensures all { ChecksMarked R.gives R.has_ended W.takes R.failures W.failures options.now
        source.old source.new sink.old sink.new result.status result.cut_short
        result.refusals.items result.refusal result.nothing talks.new marks.old marks.new }
{
    no_configuration_explains_a_no();
    a_verdict_holds_under_its_configuration();
    no_order_has_a_run();
    no_order_is_whole();
    checking::check_recording::<A, T, R, W>(alloc, options, source, sink, talks, marks)
}

/// Law: each verdict that is told of an end in a block, a yes, a no and an unfinished, is the one
/// over all configurations under which the OPEN that the end sent is its own, where that has no own
/// fault; of records in an order that the packets allow, or unfinished of all these orders.
pub fn a_printed_verdict_is_over_all_configurations()
    ensures { ToldVerdictIsOverAll }
{
    no_order_is_whole();
}
