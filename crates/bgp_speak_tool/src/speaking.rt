//! A speaker over a wire, with what is printed of it.

ghost use Rattle.std.specs.Prelude.{◌≡◌, ◌<◌, ◌≤◌, ◌^◌, option_to_list};
ghost use Rattle.bgp_prefix.specs.Address.{family_of};
ghost use Rattle.bgp_speaker.specs.Core.{fresh_core, without_offers};
ghost use Rattle.bgp_talk.specs.Account.{first_owed};
ghost use Rattle.bgp_talk.specs.Talk.{capture_of};
ghost use Rattle.bgp_talk.specs.declared.wire.Connection.TheVariants.{NotAsked};
ghost use Rattle.bgp_text.specs.Lines.{Writes};
ghost use Rattle.bgp_tool.specs.Answer.{IsWritten};
ghost use Rattle.bgp_speak_tool.specs.Speaking.{Speaks, fault_status, listens, report_text};

use bgp_open::Config;
use bgp_prefix::Prefix;
use bgp_talk::{Report, SpeakFault, Speaking, Start, Wire, speak};
use bgp_text::Lines;
use bgp_tool::{Status, hand_over, put_routes};
use mrt::Sink;
use std::alloc::Allocator;

/// The lines of a report: how many turns were taken, and the routes.
fn put_report<O: Sink, A: Allocator>(lines: &mut Lines<'_, O>, report: &Report<A>)
    ensures { Writes lines.old lines.new (report_text report.now.turns report.now.rib) }
{
    lines.put(b"turns ");
    lines.put_decimal(report.turns);
    lines.put(b"\n");
    put_routes(lines, &report.rib);
}

/// Writes a report, and answers 0, or the exit status of a device where the sink failed.
fn write_report<O: Sink, A: Allocator>(sink: &mut O, report: &Report<A>) -> u8
    requires { O.failures sink.old < 2 ^ 63 }
    ensures writes { IsWritten O.takes O.failures
        (report_text report.now.turns report.now.rib) 0 sink.old sink.new result }
    ensures statuses { result ≤ 5 }
{
    let mut lines = Lines::new(sink);
    put_report(&mut lines, report);
    let status = hand_over(&mut lines, Status::Done);
    // No effect: it ends the loan of the sink.
    lines.into_sink();
    status.code()
}

/// The exit status of a speaker that gave up.
fn status_of(fault: SpeakFault) -> u8
    ensures { result ≡ fault_status fault }
{
    match fault {
        SpeakFault::Capture => Status::Device.code(),
        SpeakFault::Memory => Status::Memory.code(),
    }
}

/// Speaks over a wire, as [`speak`] does, at most so many turns: BGP-4 with one peer (RFC 4271).
/// Then it writes `turns N`, N being how many were taken, and a line for each route that the peer
/// had announced before the session was ended. Until then nothing is written to the output.
///
/// Answers the exit status:
///
/// * 0: it came to its end, and all of that was written. A wire that failed is no fault: the
///   session machine handles it.
/// * 4: memory was refused. Nothing is printed, and the capture breaks off.
/// * 5: a sink failed. Where it is that of the capture, nothing is printed and a beginning of the
///   capture is written; where it is the output, a beginning of the text.
pub fn speak_session<A: Allocator + Copy, W: Wire, C: Sink, O: Sink>(
    alloc: A,
    config: &Config,
    next_hop4: u32,
    next_hop6: u128,
    passive: bool,
    own: &[Prefix],
    wire: &mut W,
    capture: &mut C,
    output: &mut O,
    turns: u64,
) -> u8
    requires families { family_of config.now.parts.session.peer
        ≡ family_of config.now.parts.session.local }
    requires fresh { W.connection wire.old ≡ NotAsked }
    requires wire { W.failures wire.old < 2 ^ 63 }
    requires capture { C.failures capture.old < 2 ^ 63 }
    requires output { O.failures output.old < 2 ^ 63 }
    ensures speaks { Speaks W.tells C.takes O.takes C.failures O.failures (capture_of config.now)
        (first_owed own.now passive) turns (fresh_core (record {
          config = without_offers config.now;
          next_hop4 = next_hop4;
          next_hop6 = next_hop6;
        })) wire.old wire.new capture.old capture.new output.old output.new result }
    ensures statuses { result ≤ 5 }
{
    match speak(
        alloc, config, next_hop4, next_hop6, passive, own, wire, capture, turns,
    ) {
        Ok(report) => write_report(output, &report),
        Err(fault) => status_of(fault),
    }
}

/// Whether a connection is listened for, and not tried.
fn listens(start: Start) -> bool
    ensures { result ≡ listens start }
{
    match start {
        Start::Connect(_) => false,
        Start::Listen(_) => true,
    }
}

/// Speaks as the words of `bgp speak` say, by [`speak_session`]: with their next hops, passive
/// where a connection is to be listened for, with the prefix that they name, if any, and at most as
/// many turns as they say.
pub fn speak_as<A: Allocator + Copy, W: Wire, C: Sink, O: Sink>(
    alloc: A,
    config: &Config,
    speaking: &Speaking,
    wire: &mut W,
    capture: &mut C,
    output: &mut O,
) -> u8
    requires families { family_of config.now.parts.session.peer
        ≡ family_of config.now.parts.session.local }
    requires fresh { W.connection wire.old ≡ NotAsked }
    requires wire { W.failures wire.old < 2 ^ 63 }
    requires capture { C.failures capture.old < 2 ^ 63 }
    requires output { O.failures output.old < 2 ^ 63 }
    ensures speaks { Speaks W.tells C.takes O.takes C.failures O.failures (capture_of config.now)
        (first_owed (option_to_list speaking.now.announce) (listens speaking.now.start))
        speaking.now.turns (fresh_core (record {
          config = without_offers config.now;
          next_hop4 = speaking.now.next_hop4;
          next_hop6 = speaking.now.next_hop6;
        })) wire.old wire.new capture.old capture.new output.old output.new result }
    ensures statuses { result ≤ 5 }
{
    speak_session(
        alloc,
        config,
        speaking.next_hop4,
        speaking.next_hop6,
        listens(speaking.start),
        speaking.announce.as_slice(),
        wire,
        capture,
        output,
        speaking.turns,
    )
}
