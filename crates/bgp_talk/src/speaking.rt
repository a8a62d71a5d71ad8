//! A speaker over a connection.

ghost use Rattle.std.specs.Prelude.{◌≡◌, ◌<◌, ◌^◌, IfErr, IfOk};
ghost use Rattle.bgp_prefix.specs.Address.{family_of};
ghost use Rattle.bgp_speaker.specs.Core.{fresh_core, without_offers};
ghost use Rattle.bgp_talk.specs.Account.{first_owed};
ghost use Rattle.bgp_talk.specs.Talk.{GaveUp, Spoken, capture_of, faults_after};
ghost use Rattle.bgp_talk.specs.declared.wire.Connection.TheVariants.{NotAsked};

use crate::fault::SpeakFault;
use crate::talking::Talk;
use crate::wire::Wire;
use bgp_open::Config;
use bgp_prefix::Prefix;
use bgp_rib::RibIn;
use mrt::Sink;
use std::alloc::{Allocator, Global};

/// What a speaker did.
#[derive(Drop)]
pub struct Report<A: Allocator = Global> {
    /// How often it read the wire.
    pub turns: u64,
    /// The routes that the peer had announced before the session was ended, and the families that
    /// were disabled.
    pub rib: RibIn<A>,
}

/// Speaks over a wire: a core is told to announce the prefixes, then to start, or to listen where
/// it is passive; the wire is asked to connect, and the core told of its answer. Then turns are
/// taken, at most so many, until the core is Idle or Active: the wire is read once, what came is
/// handed in, and a tick. At last it is told to stop, unless it is Idle. Each input has the wire's
/// second, asked for just before it. What the core shows on an input is written to the sink, and
/// then its octets to the wire. Where the wire doesn't take all of them, the core is told that the
/// connection failed.
///
/// So the core is handed in just what the wire told, in its order, each input at the second asked
/// for it; what it sends is written before anything else is asked; a read has room for 4096 octets,
/// and none follows once the core rests; Stop is the last input, and a failure stands right after
/// an input whose octets weren't all taken. The sink took the capture of what the core shows. A
/// fault cuts this short: see [`SpeakFault`]. A failure of the wire is no fault, since the core is
/// told of it.
///
/// The wire wasn't asked to connect before, and both addresses are of one family.
pub fn speak<A: Allocator + Copy, W: Wire, C: Sink>(
    alloc: A,
    config: &Config,
    next_hop4: u32,
    next_hop6: u128,
    passive: bool,
    own: &[Prefix],
    wire: &mut W,
    sink: &mut C,
    turns: u64,
) -> Result<Report<A>, SpeakFault>
    requires families { family_of config.now.parts.session.peer
        ≡ family_of config.now.parts.session.local }
    requires fresh { W.connection wire.old ≡ NotAsked }
    requires wire_failures { W.failures wire.old < 2 ^ 63 }
    requires sink_failures { C.failures sink.old < 2 ^ 63 }
    ensures ok { IfOk result (λ report. Spoken W.tells C.takes (capture_of config.now)
        (first_owed own.now passive) turns report.turns report.rib (fresh_core (record {
          config = without_offers config.now;
          next_hop4 = next_hop4;
          next_hop6 = next_hop6;
        })) wire.old sink.old wire.new sink.new) }
    ensures err { IfErr result (λ fault. GaveUp W.tells C.takes (capture_of config.now) fault
        (first_owed own.now passive) turns (fresh_core (record {
          config = without_offers config.now;
          next_hop4 = next_hop4;
          next_hop6 = next_hop6;
        })) wire.old sink.old wire.new sink.new) }

    // It can't write the capture exactly where the sink failed.
    ensures sink_failures { C.failures sink.new ≡ faults_after (C.failures sink.old) result }
{
    let mut talk = Talk::new(alloc, config, next_hop4, next_hop6);
    let left = talk.converse(wire, sink, own, passive, turns)?;
    let Ok(rib) = talk.routes() else {
        return Err(SpeakFault::Memory);
    };
    talk.close(wire, sink)?;
    Ok(Report {
        turns: turns - left,
        rib,
    })
}
