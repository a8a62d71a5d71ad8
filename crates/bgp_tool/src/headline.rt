//! The page to show: what judging a capture promises, and what `decode_raw` does with no argument
//! to look up.

ghost use Rattle.std.specs.Prelude.{◌<◌, ◌≤◌, ◌^◌};
ghost use Rattle.bgp_tool.specs.Decoding.{IsDecoded, IsBegun};
ghost use Rattle.bgp_tool.specs.Judging.{JudgesCapture, HasOneVerdict, NeverNone};

use crate::decoding::decode_raw;
use crate::judging::write_answer;
use crate::stream_options::StreamOptions;
use bgp_judge::{Tracker, judge, records_have_just_one_verdict};
use bgp_open::Config;
use mrt::{MemSink, MemSource, Sink, Source, each_capture_has_one_reading};
use std::alloc::Allocator;

/// Judges the capture that a source gives: whether its records are those of a run of the session
/// machine (RFC 4271 with RFC 7606, and each choice of docs/SESSION-MACHINE.md), under this
/// configuration and of the session that it names.
///
/// And the capture of whatever the speaker's core does is answered `yes`, with the state and the
/// routes in which the core ended among the ends, where both addresses are of one family and no
/// ROUTE-REFRESH is to be refused (`each_drive_is_judged_yes` of bgp_speak_tool).
///
/// It writes exactly the text of the one verdict on the records that the octets spell, and answers
/// its exit status:
///
/// * 0: `yes`, and each possible end with its routes, and no other.
/// * 1: `no at record N`: the records before it begin a run, and with it none.
/// * 2: `unfinished`: the records begin a run, and no run shows just them.
///
/// Where the octets spell none, also after an impossible record, it writes `capture refused:
/// NUMBER NAME at OFFSET` of their first fault, and answers 3; where memory was refused 4, and
/// where the source failed 5. Where the sink failed, a beginning of that text is written, and the
/// status is 5. At a record memory is refused only where the tracker may lack it
/// ([`Tracker`](bgp_judge::Tracker), `may_lack`).
///
/// It rests on the contract of [`Tracker`] alone, and so holds with every tracker.
pub fn judge_capture<A: Allocator + Copy, T: Tracker<A>, R: Source, W: Sink>(
    alloc: A,
    config: &Config,
    source: &mut R,
    sink: &mut W,
) -> u8
    requires source { R.failures source.old < 2 ^ 63 }
    requires sink { W.failures sink.old < 2 ^ 63 }
    ensures { JudgesCapture R.gives R.has_ended W.takes R.failures W.failures config.now
        source.old source.new T.may_lack sink.old sink.new result }
{
    let answer = judge::<A, T, R>(alloc, config, source);
    write_answer(sink, &answer)
}

/// Law: just one verdict holds of a capture's records, by its text and its exit status.
pub fn each_capture_has_one_verdict()
    ensures one { HasOneVerdict }
    ensures some { NeverNone }
{
    each_capture_has_one_reading();
    records_have_just_one_verdict();
}

/// The text of a stream of octets in memory, and the exit status.
///
/// Where the status is 0, 2 or 3, the text is exactly the lines of the stream's one framing, with
/// the last line that tells how it ends, and the status says which end it is
/// ([`each_stream_has_one_text`](crate::each_stream_has_one_text)). Else memory was refused, to the
/// splitter or to a line (4), or to the text (5), and the text is a beginning of that of the octets
/// that were read.
pub fn text_and_status<A: Allocator + Copy>(
    options: StreamOptions,
    alloc: A,
    stream: Vec<u8, A>,
) -> (Vec<u8, A>, u8)
    ensures text { result.1 < 4 → IsDecoded options stream.items result.0.items result.1 }
    ensures begun { IsBegun options stream.items result.0.items }
    ensures statuses { result.1 ≤ 5 }
{
    let mut source = MemSource::new(stream);
    let mut sink = MemSink::new(alloc);
    let status = decode_raw(options, alloc, &mut source, &mut sink);
    (sink.into_octets(), status)
}
