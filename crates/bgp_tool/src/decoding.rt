//! `bgp decode` of a raw stream: the octets of one direction of a connection (RFC 4271, 4).

ghost use Rattle.std.specs.Prelude.{◌≡◌, ◌<◌, ◌≤◌, ◌^◌, ◌+◌, ◌-◌, ◌⊎◌, IsTrue, List, ℕ, length};
ghost use Rattle.std.specs.Prelude.{false};
ghost use Rattle.bgp_wire.specs.Framing.{joined};
ghost use Rattle.bgp_json.specs.Output.{Knows, form_of};
ghost use Rattle.bgp_tool.specs.Decoding.{CountsFailures, Decodes, stream_before};
ghost use Rattle.bgp_tool.specs.Ending.{PutsFrames, PutsRest, HandsOver};
ghost use Rattle.bgp_tool.specs.Ending.{Reaches, IsAtEnd, source_failures};

use crate::status::Status;
use crate::stream_options::StreamOptions;
use bgp_json::OutputTeller;
use bgp_text::Lines;
use bgp_values::Direction;
use bgp_wire::{Frames, Next};
use mrt::{Sink, Source};
use std::alloc::{AllocError, Allocator};

/// How a decoding ended.
#[derive(Clone, Copy)]
enum End {
    /// The stream ended behind a whole message, or was empty.
    BetweenMessages,
    /// The stream ended inside a message.
    InsideMessage,
    /// A header with faults came.
    AtFault,
    /// Memory was refused for a growth or for a line.
    OutOfMemory,
    /// A read failed.
    SourceFailed,
    /// A write failed.
    SinkFailed,
}

impl End {
    ghost use Rattle.bgp_tool.specs.Status.{code_of};
    ghost use Rattle.bgp_tool.specs.Ending.{status_of};

    fn status(self) -> Status
        ensures { code_of result ≡ status_of self }
    {
        match self {
            End::BetweenMessages => Status::Done,
            End::InsideMessage => Status::Unfinished,
            End::AtFault => Status::Refused,
            End::OutOfMemory => Status::Memory,
            End::SourceFailed | End::SinkFailed => Status::Device,
        }
    }
}

/// The offset in the stream at which the held octets begin, the last ones of those given.
fn offset_of_held(given: u64, held: usize) -> u64
    requires { held ≤ given }
    ensures { result ≡ given - held }
{
    given - held as u64
}

/// Writes the line of each whole frame that is held, and of a header with faults behind them;
/// answers whether there is one. So many octets were given in all. It stops at a line for which
/// memory is refused.
///
/// A stream shows one direction, and not which: all its messages are told as received ones.
fn put_frames<W: Sink, A: Allocator + Copy>(
    alloc: A,
    frames: &mut Frames<A>,
    teller: &mut OutputTeller,
    lines: &mut Lines<'_, W>,
    given: u64,
) -> Result<bool, AllocError>
    requires open { frames.old.is_closed ≡ false }
    requires given { length frames.old.octets ≤ given }
    ensures { (before : List (List ℕ))
        → given ≡ length (joined before) + length frames.old.octets
        → Knows teller.old (stream_before before)
        → PutsFrames lines.old lines.new given before frames.old frames.new teller.old teller.new
        result }
{
    loop {
        let offset = offset_of_held(given, frames.len());
        match frames.next() {
            Next::Frame(kind, frame) => {
                teller.put_frame(lines, alloc, Direction::Received, offset, kind, frame)?;
            }
            Next::More => return Ok(false),
            Next::Fault(faults, header) => {
                teller.put_fault(lines, alloc, offset, faults, header)?;
                return Ok(true);
            }
        }
    }
}

/// Tells what octets stand behind the last frame where the stream ends, if any do. So many octets
/// were given in all.
fn put_rest<W: Sink, A: Allocator + Copy>(
    alloc: A,
    teller: &OutputTeller,
    lines: &mut Lines<'_, W>,
    given: u64,
    octets: &[u8],
) -> End
    requires { length octets.now ≤ given }
    ensures { PutsRest lines.old lines.new (form_of teller.now) (given - length octets.now)
        octets.now result }
{
    if octets.is_empty() {
        return End::BetweenMessages;
    }
    let offset = offset_of_held(given, octets.len());
    match teller.put_rest(lines, alloc, offset, octets) {
        Ok(()) => End::InsideMessage,
        Err(AllocError) => End::OutOfMemory,
    }
}

/// Hands over what is left of the text, and answers how the decoding ends then.
fn hand_over<W: Sink>(lines: &mut Lines<'_, W>, end: End) -> End
    ensures { HandsOver lines.old lines.new end result }
{
    match lines.hand_over() {
        Ok(()) => end,
        Err(_) => End::SinkFailed,
    }
}

/// How many octets are read at once, at the most.
const BLOCK: usize = 1 << 16;

/// Decodes a stream to its end, to its first fault, or until something is refused.
fn decode<R: Source, W: Sink, A: Allocator + Copy>(
    options: StreamOptions,
    alloc: A,
    source: &mut R,
    lines: &mut Lines<'_, W>,
) -> End
    requires { R.failures source.old < u64.MAX }
    ensures reaches { Reaches options R.gives source.old source.new lines.old lines.new result }
    ensures source_count { R.failures source.new ≡ source_failures (R.failures source.old) result }
    ensures ended { IsAtEnd result → IsTrue (R.has_ended source.new) }
{
    let mut frames = Frames::new(alloc, options.limit);
    let mut teller = OutputTeller::new(options.form);
    let mut block = [0; BLOCK];
    let mut given = 0u64;
    'reads: loop {
        match lines.hand_over() {
            Ok(()) => {}
            Err(_) => return End::SinkFailed,
        }
        let count = match source.read(&mut block) {
            Ok(count) => count,
            Err(_) => return End::SourceFailed,
        };
        if count == 0 {
            let end = put_rest(alloc, &teller, lines, given, frames.held());
            return hand_over(lines, end);
        }
        match frames.feed(&block[..count]) {
            Ok(()) => given += count as u64,
            Err(_) => return End::OutOfMemory,
        }
        match put_frames(alloc, &mut frames, &mut teller, lines, given) {
            Ok(false) => {}
            Ok(true) => return hand_over(lines, End::AtFault),
            Err(AllocError) => return hand_over(lines, End::OutOfMemory),
        }
    }
}

/// Decodes a raw stream, the octets of one direction of a BGP connection: writes one line a
/// message, and a last one where the stream ends inside a message or stops being BGP. A message may
/// be as long as the limit says (RFC 4271, 4.1; RFC 8654, 4).
///
/// In the plain form the lines are those of bgp_text's `specs/Text.antt`. In words (bgp_lines'
/// `specs/Form.antt`) and in JSON (bgp_json's `specs/Output.antt`) AS numbers have two octets if
/// that is asked for, or the last OPEN before offers none of four; path identifiers are taken for
/// prefixes, since one direction doesn't show what both OPENs offer.
///
/// Answers the exit status:
///
/// * 0: all octets were whole messages.
/// * 2: the stream ends inside a message; the last line is `rest N`, in words and in JSON with the
///   octets.
/// * 3: a header has faults; the last line is `fault at OFFSET 1/S ..` (RFC 4271, 6.1).
/// * 4: memory was refused, for a growth or, in JSON, for a line. No device failed, and a beginning
///   of the text is written.
/// * 5: a device failed. Where it is the source, the lines of the frames that it gave are written,
///   and else a beginning of the text.
pub fn decode_raw<R: Source, W: Sink, A: Allocator + Copy>(
    options: StreamOptions,
    alloc: A,
    source: &mut R,
    sink: &mut W,
) -> u8
    requires source { R.failures source.old < 2 ^ 63 }
    requires sink { W.failures sink.old < 2 ^ 63 }
    ensures text { Decodes options R.gives W.takes source.old source.new sink.old sink.new
        (R.failures source.new ≡ R.failures source.old + 1) result }
    ensures failures { CountsFailures (R.failures source.old) (R.failures source.new)
        (W.failures sink.old) (W.failures sink.new) result }
    ensures ended { ((result ≡ 0) ⊎ (result ≡ 2)) → IsTrue (R.has_ended source.new) }
    ensures statuses { result ≤ 5 }
{
    let mut lines = Lines::new(sink);
    let end = decode(options, alloc, source, &mut lines);
    // No effect: it ends the loan of the sink.
    lines.into_sink();
    end.status().code()
}
