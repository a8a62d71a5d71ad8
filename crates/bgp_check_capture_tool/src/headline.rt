//! The page to show: what checking a capture promises.

ghost use Rattle.std.specs.Prelude.{◌<◌};
ghost use Rattle.bgp_check_capture_tool.specs.Checking.{ChecksCapture, ChecksMarked};
ghost use Rattle.bgp_check_capture_tool.specs.Printed.{PrintsTrueNoes, ToldVerdictIsOverAll};
ghost use Rattle.bgp_check_capture_tool.specs.Printed.{WritesTrueNoes};

use crate::checking::{CheckedCapture, check_held};
use crate::marks::StretchMarks;
use crate::options::CaptureOptions;
use bgp_check::{
    a_left_stretch_is_judged_over_all, a_no_names_its_record, no_configuration_explains_a_no,
    what_is_judged_is_a_stretch,
};
use bgp_judge::Tracker;
use mrt::{Sink, Source};
use mrt_sessions::{Held, hold};
use std::alloc::Allocator;

/// Checks the local system of each session in a capture, stretch by stretch: whether its records
/// are those of a run of the session machine (RFC 4271, 8.2.2) under some configuration under which
/// the OPEN that it sent is its own. A stretch begins where the system leaves Idle.
///
/// **The sentence.** Where the lines of a stretch begin with `no at record N`, no configuration
/// under which the OPEN that was sent is the local system's own has a run that shows the records of
/// that stretch up to record N of the session; of these records, ROUTE-REFRESH messages that their
/// receiver offered are passed over. Some such configuration has a run that shows those before it,
/// if the OPEN is any configuration's own. The line tells the time of record N, with the fraction in
/// its octets, if they have one. That is the clause `no`. All that is printed is tied to
/// the file, so that no other line passes for one of these.
///
/// It writes a line for each session, in the order of their first records, and after it what is
/// told of each of its stretches: the verdict, for which AS number of its peer it is told, of a yes
/// each possible end and the routes that stood before it left Established, of a no and an
/// unfinished why it is so, and, of one that is all of its session, with which options `bgp judge`
/// gives it; or why it isn't judged. After them stands why
/// the session's next record is refused, if one is, and after all sessions why the file can't be
/// read on, if it can't; last how many ends there are of each verdict. If only what isn't well is
/// printed (`quiet`), it leaves out the ends that are a yes or not judged, the line of a session of
/// which nothing else is left, and the last line, if it would stand alone. It answers the exit
/// status over all ends, the first of 5, 4, 1, 3, 2, 0 for which there is something:
///
/// * 0: a yes.
/// * 1: a no.
/// * 2: an end is unfinished: its records stop within what it had to do.
/// * 3: the file or a session is refused; or no end is judged.
/// * 4: memory was refused.
/// * 5: a device failed.
///
/// The file is held whole.
///
/// It rests on the contract of [`Tracker`] alone, and so holds with every tracker; and on those of
/// its source and sink.
pub fn check_capture<A: Allocator + Copy, T: Tracker<A>, R: Source, W: Sink>(
    alloc: A,
    options: &CaptureOptions,
    source: &mut R,
    sink: &mut W,
) -> CheckedCapture
    requires source { R.failures source.old < u64.MAX }
    requires sink { W.failures sink.old < u64.MAX }
    ensures no { PrintsTrueNoes R.gives R.has_ended W.takes W.failures options.now source.old
        source.new sink.old sink.new result.status result.fault }
    ensures all { ChecksCapture R.gives R.has_ended W.takes R.failures W.failures options.now
        source.old source.new sink.old sink.new result.status result.refusals.items
        result.sessions result.fault result.nothing }
{
    let held = hold(alloc, source);
    let mut marks = StretchMarks::unkept(alloc);
    check_capture_marking::<A, T, W>(alloc, options, &held, sink, &mut marks)
}

/// Checks a capture that is held as [`check_capture`] does, and adds to `marks` what is known of
/// each stretch whose verdict is printed, in the order of these: the records that are judged, their
/// numbers in the session, and at which of them a no stands. The records are octets of the file.
///
/// If memory is refused for this of one stretch, `marks` says that some are missing; what is printed
/// stays the same.
pub fn check_capture_marking<'a, A: Allocator + Copy, T: Tracker<A>, W: Sink>(
    alloc: A,
    options: &CaptureOptions,
    held: &'a Held<A>,
    sink: &mut W,
    marks: &mut StretchMarks<'a, A>,
) -> CheckedCapture
    requires { W.failures sink.old < u64.MAX }
    ensures no { WritesTrueNoes W.takes W.failures options.now held.entry.now.octets.items
        sink.old sink.new result.status result.fault }
    ensures all { ChecksMarked W.takes W.failures options.now held.entry.now.octets.items
        held.entry.now.ending sink.old sink.new result.status result.refusals.items
        result.sessions result.fault result.nothing marks.old marks.new }
{
    no_configuration_explains_a_no();
    what_is_judged_is_a_stretch();
    a_no_names_its_record();
    check_held::<A, T, W>(alloc, options, held, sink, marks)
}

/// Law: each verdict that is told of a stretch, a yes, a no and an unfinished, is the one over all
/// configurations under which the OPEN that was sent is the local system's own, where that has no
/// own fault. Of a stretch that a record leaves it is a yes, with the one end Idle, if and only if
/// one of them has a run that shows the stretch and then leaves it so.
pub fn a_printed_verdict_is_over_all_configurations()
    ensures { ToldVerdictIsOverAll }
{
    a_left_stretch_is_judged_over_all();
    what_is_judged_is_a_stretch();
}
