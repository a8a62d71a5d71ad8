//! Records that are written as they arise: a sink that says at any moment how much it holds, and a
//! wire that looks at it whenever it is asked to connect or read.

ghost use Rattle.std.specs.Prelude.{◌≡◌};
ghost use Rattle.bgp_talk.specs.MemWire.{wire_state};

use super::*;
use bgp_prefix::Seconds;
use bgp_talk::ReadAnswer;
use mrt::Failed;
use std::cell::Cell;

/// A sink that takes all, and how much that was. Others can look.
#[derive(Drop)]
struct Shown<'a> {
    taken: &'a Cell<usize>,
    failures: u64,
}

impl<'a> Sink for Shown<'a> {
    ghost takes = { λ a b octets. Unit {0} };

    ghost failures = { λ a. a.failures };

    ghost nothing = { λ a. tt };

    ghost joined = { λ a b c xs ys first second. tt };

    fn write(&mut self, octets: &[u8]) -> Result<usize, Failed> {
        self.taken
            .set(self.taken.get().saturating_add(octets.len()));
        Ok(octets.len())
    }

    fn failures(&self) -> u64 {
        self.failures
    }
}

/// A wire that compares at each connecting and reading what the sink has taken with what is wanted,
/// one number for each of these calls.
#[derive(Drop)]
struct Looking<'a> {
    wire: MemWire<'a>,
    taken: &'a Cell<usize>,
    wanted: &'a [usize],
    is_right: bool,
}

impl<'a> Looking<'a> {
    /// Looks.
    fn look(&mut self)
        ensures { self.new.wire ≡ self.old.wire }
    {
        match self.wanted.split_first() {
            Some((count, others)) => {
                self.is_right = self.is_right && self.taken.get() == *count;
                self.wanted = others;
            }
            None => self.is_right = false,
        }
    }
}

impl<'a> Wire for Looking<'a> {
    ghost tells = { λ a b account. Unit {0} };

    ghost failures = { λ a. (wire_state a.wire).failures };

    ghost connection = { λ a. (wire_state a.wire).connection };

    ghost nothing = { λ a. tt };

    ghost joined = { λ a b c xs ys first second. tt };

    fn connect(&mut self) -> Result<(), Failed> {
        self.look();
        self.wire.connect()
    }

    fn read(&mut self, buffer: &mut [u8]) -> ReadAnswer {
        self.look();
        self.wire.read(buffer)
    }

    fn write(&mut self, octets: &[u8]) -> Result<usize, Failed> {
        self.wire.write(octets)
    }

    fn now(&mut self) -> Seconds {
        self.wire.now()
    }

    fn failures(&self) -> u64 {
        self.wire.failures()
    }
}

/// How much of the capture of the whole talk is written when the wire is asked to connect, at each
/// of its five reads, and at the end. A change of state takes 36 octets, a message 32 and its own
/// (RFC 6396, 2 and 4.4): the OPENs have 49, a KEEPALIVE 19, each UPDATE 46, the Cease 21.
const WRITTEN: [usize; 6] = [
    36, // Change to Connect
    36 + 81 + 36, // and the OPEN, change to OpenSent
    153 + 81 + 51 + 36, // and the peer's, KEEPALIVE, change to OpenConfirm
    321 + 51 + 36 + 78, // and the peer's, change to Established, UPDATE
    486 + 78, // and the peer's UPDATE, on which nothing is sent
    564, // and nothing came
];

/// Whether each record of the talk is written before anything further is asked of the wire, by a
/// sink that counts here what it has taken.
fn are_seen(alloc: Global, config: &Config, own: &[Prefix], taken: &Cell<usize>) -> bool {
    let session = &config.parts.session;
    if session.peer.family() != session.local.family() {
        return false;
    }
    let mut sink = Shown { taken, failures: 0 };
    let mut wire = Looking {
        wire: MemWire::new(alloc, &READS, &[1000]),
        taken,
        wanted: &WRITTEN,
        is_right: true,
    };
    let told = speak(
        alloc, config, HOP_4, HOP_6, false, own, &mut wire, &mut sink, 5,
    );
    told.is_ok() && wire.is_right && wire.wanted.is_empty()
}

/// Whether they are, and the Cease and the change to Idle come after the last read.
fn are_written_as_they_arise(alloc: Global) -> bool {
    let taken = Cell::new(0);
    match (Config::new(SPEAKER_A), own_of(alloc, true)) {
        (Some(config), Some(own)) => {
            are_seen(alloc, &config, own.as_slice(), &taken) && taken.get() == 564 + 53 + 36
        }
        _ => false,
    }
}

#[test]
fn records_are_written_as_they_arise(rt: HostRuntime) {
    assert!(rt; are_written_as_they_arise(rt.alloc()));
}
