//! What a speaker over a wire in memory does with little memory, with a sink that fails, and when
//! it writes; and what a core does with little memory. With ample memory and a sink that takes all
//! the talk and the drive of these tests are compared by the program `speaker_drives`, as rows that
//! were written down by hand ("a session is opened and stopped", "each kind of input"): here what
//! is refused is compared with them.

mod arising;
mod core_memory;
mod memory;
mod pairs;
mod reports;
mod sinks;
mod wires;

use bgp_open::{Config, Families};
use bgp_prefix::{Prefix, read_prefix};
use bgp_talk::{MemRead, MemWire, Report, SpeakFault, Wire, WireUpset, speak};
use bgp_vectors::SPEAKER_A;
use bgp_wire::vectors::{KEEPALIVE, OPEN_B};
use mrt::{MemSink, Sink, SinkUpset};
use std::alloc::{Allocator, Global};
use std::num::NonZeroUsize;

/// Router A's IPv4 next hop, 192.0.2.1.
const HOP_4: u32 = 0xc000_0201;

/// Its IPv6 next hop, 2001:db8::1.
const HOP_6: u128 = 0x2001_0db8_0000_0000_0000_0000_0000_0001;

/// No family.
const NONE: Families = Families {
    v4: false,
    v6: false,
};

/// The UPDATE by which router B announces 10.2.0.0/16 (RFC 4271, 4.3).
const PEER_10_2: [u8; 46] = [
    255, 255, 255, 255, 255, 255, 255, 255, 255, 255, 255, 255, 255, 255, 255, 255, // marker
    0x00, 0x2e, // Length: 46
    0x02, // Type: UPDATE
    0x00, 0x00, // Withdrawn Routes Length: 0
    0x00, 0x14, // Total Path Attribute Length: 20
    0x40, 0x01, 0x01, 0x00, // ORIGIN: IGP
    0x40, 0x02, 0x06, 0x02, 0x01, 0x00, 0x00, 0xfd, 0xea, // AS_PATH: a sequence of 65002
    0x40, 0x03, 0x04, 0xc0, 0x00, 0x02, 0x02, // NEXT_HOP: 192.0.2.2
    0x10, 0x0a, 0x02, // NLRI: 10.2.0.0/16
];

/// Router B opens a session, announces 10.2.0.0/16, and says no more.
static READS: [MemRead<'static>; 5] = [
    MemRead::Bytes(&OPEN_B),
    MemRead::Bytes(&KEEPALIVE),
    MemRead::Bytes(&PEER_10_2),
    MemRead::Nothing,
    MemRead::Nothing,
];

/// A talk: what the wire answers in each of its turns, and what fails.
#[derive(Clone, Copy)]
struct Talk<'a> {
    reads: &'a [MemRead<'a>],
    /// Whether 10.1.0.0/16 is announced.
    announces: bool,
    /// Whether nobody is there to connect to.
    is_refused: bool,
    /// How many octets the sink takes at most in each write, and the write that fails.
    sink: (NonZeroUsize, u64),
}

/// The talk that nothing upsets.
fn whole_talk() -> Talk<'static> {
    Talk {
        reads: &READS,
        announces: true,
        is_refused: false,
        sink: (NonZeroUsize::MAX, u64::MAX),
    }
}

/// What a talk came to.
#[derive(Drop)]
struct Came {
    /// How many turns and routes there were.
    answer: Result<(u64, usize), SpeakFault>,
    capture: Vec<u8>,
    taken: Vec<u8>,
    /// How often the wire and the sink failed.
    failures: (u64, u64),
}

/// The prefix that is announced, if one is.
fn own_of(alloc: Global, announces: bool) -> Option<Vec<Prefix>> {
    let mut own = Vec::new(alloc);
    if announces {
        own.push(read_prefix("10.1.0.0/16")?).ok()?;
    }
    Some(own)
}

/// How many turns and routes there were, with both families.
fn answer_of<A: Allocator>(
    told: &Result<Report<A>, SpeakFault>,
) -> Option<Result<(u64, usize), SpeakFault>> {
    match told {
        Ok(report) if report.rib.disabled() == NONE => {
            Some(Ok((report.turns, report.rib.len())))
        }
        Ok(_) => None,
        Err(fault) => Some(Err(*fault)),
    }
}

/// What a talk comes to where the core has this memory.
fn spoken<A: Allocator + Copy>(
    memory: A,
    alloc: Global,
    config: &Config,
    own: &[Prefix],
    talk: &Talk<'_>,
) -> Option<Came> {
    let session = &config.parts.session;
    if session.peer.family() != session.local.family() {
        return None;
    }
    let (upset, (most, call)) = (upset_of(talk.is_refused), talk.sink);
    let mut wire = MemWire::new(alloc, talk.reads, &[1000]).upset_at(u64::MAX, upset);
    let mut sink = MemSink::new(alloc)
        .in_pieces_of(most)
        .upset_at(call, SinkUpset::Fail);
    let turns = talk.reads.len() as u64;
    let told = speak(
        memory, config, HOP_4, HOP_6, false, own, &mut wire, &mut sink, turns,
    );
    let answer = answer_of(&told)?;
    let failures = (wire.failures(), sink.failures());
    Some(Came {
        answer,
        taken: Vec::from_slice(alloc, wire.taken()).ok()?,
        capture: sink.into_octets(),
        failures,
    })
}

/// Whether that was written and answered.
fn same(written: &[u8], answer: u8, text: &str, status: u8) -> bool {
    written == text.as_bytes() && answer == status
}

/// What happens to a wire, if anything does: there is no read of the number that it is told.
fn upset_of(is_refused: bool) -> WireUpset {
    if is_refused {
        WireUpset::ConnectFails
    } else {
        WireUpset::ReadFails
    }
}

/// What a talk comes to where the core has this memory.
fn came_of<A: Allocator + Copy>(memory: A, alloc: Global, talk: &Talk<'_>) -> Option<Came> {
    let config = Config::new(SPEAKER_A)?;
    let own = own_of(alloc, talk.announces)?;
    spoken(memory, alloc, &config, own.as_slice(), talk)
}

/// Whether a talk came to all that is wanted.
fn is_whole(came: &Came, wanted: &Came) -> bool {
    came.answer == wanted.answer
        && came.capture.as_slice() == wanted.capture.as_slice()
        && came.taken.as_slice() == wanted.taken.as_slice()
        && came.failures == (0, 0)
}

/// Whether a fault cut it short: with beginnings of what is wanted.
fn is_cut(came: &Came, fault: SpeakFault, wanted: &Came) -> bool {
    let failures = u64::from(fault == SpeakFault::Capture);
    came.answer == Err(fault)
        && wanted.capture.starts_with(came.capture.as_slice())
        && wanted.taken.starts_with(came.taken.as_slice())
        && came.failures == (0, failures)
}
