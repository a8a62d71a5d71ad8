//! The two ends of a connection in one process: what each is set to, and how they take turns.

ghost use Rattle.std.specs.Prelude.{◌≡◌, ◌<◌, ◌≤◌, ◌+◌, ◌^◌, IfOk, OnOk, IsTrue, IsFalse, length};
ghost use Rattle.bgp_prefix.specs.Address.{family_of};
ghost use Rattle.bgp_speaker.specs.Core.{fresh_core, without_offers};
ghost use Rattle.mrt.specs.FromWrite.{fresh_writer, writer_state};
ghost use Rattle.bgp_speak_tool.specs.Pairing.{Drove, IsEnd, IsEstablished};
ghost use Rattle.bgp_speak_tool.specs.Pairing.{left_address, left_next_hop6};
ghost use Rattle.bgp_speak_tool.specs.Pairing.{right_address, right_next_hop6};

use bgp_machine::Fsm;
use bgp_open::{Config, ConfigParts, Families, RouteOffer};
use bgp_prefix::{Address, Prefix, RouteRefresh, Seconds, Session};
use bgp_speaker::{Core, Input};
use bgp_talk::{again, each_record_is_short, write_records};
use bgp_tool::{PairEnd, PairFault};
use mrt::FromWrite;
use std::alloc::Allocator;
use std::io::{ErrorKind, Read, Write};

/// What an end is set to.
#[derive(Clone, Copy)]
pub(crate) struct Settings {
    pub(crate) config: Config,
    next_hop4: u32,
    next_hop6: u128,
    /// Whether it listens for the connection (RFC 4271, 8.1.2, event 4).
    passive: bool,
    /// The prefix that it announces.
    own: Prefix,
}

/// The second of the set-up and of the first round.
const FIRST_SECOND: Seconds = 1000;

/// How many rounds are taken at the most.
const ROUNDS: Seconds = 20;

/// The left end's address and identifier, 192.0.2.1.
const LEFT: u32 = 0xc000_0201;

/// The right end's, 192.0.2.2.
const RIGHT: u32 = 0xc000_0202;

/// The left end's next hop for IPv6, 2001:db8::1.
const LEFT_V6: u128 = 0x2001_0db8_0000_0000_0000_0000_0000_0001;

/// The right end's, 2001:db8::2.
const RIGHT_V6: u128 = 0x2001_0db8_0000_0000_0000_0000_0000_0002;

/// The configuration of an end of AS `local_as` at the address `local`.
fn config_of(local_as: u32, local: u32, peer_as: u32, peer: u32) -> Config
    requires local_as { 0 < local_as }
    requires peer_as { 0 < peer_as }
    requires local { 0 < local }
    ensures families { family_of result.parts.session.peer
        ≡ family_of result.parts.session.local }
    ensures parts { IsEnd result.parts local_as local peer_as peer }
{
    let parts = ConfigParts {
        local_as,
        peer_as,
        local_id: local,
        hold: 90,
        families: Families { v4: true, v6: true },
        as4: true,
        delay_open: false,
        large_hold: 240,
        session: Session {
            peer: Address::V4(peer),
            local: Address::V4(local),
            refresh: RouteRefresh::NotOffered,
            extended: false,
        },
        offers: RouteOffer::NOTHING,
    };
    Config { parts }
}

/// The prefix of 16 bits of an IPv4 address.
fn prefix_of_16(address: u32) -> Prefix {
    match Prefix::new(Address::V4(address), 16) {
        Some(prefix) => prefix,
        None => unreachable!(),
    }
}

/// The left end: AS 65001 at 192.0.2.1, which connects and announces 10.1.0.0/16.
pub(crate) fn left_settings() -> Settings
    ensures families { family_of result.config.parts.session.peer
        ≡ family_of result.config.parts.session.local }
    ensures config { IsEnd result.config.parts 65001 left_address 65002 right_address }
    ensures next_hop4 { result.next_hop4 ≡ left_address }
    ensures next_hop6 { result.next_hop6 ≡ left_next_hop6 }
    ensures passive { IsFalse result.passive }
{
    Settings {
        config: config_of(65001, LEFT, 65002, RIGHT),
        next_hop4: LEFT,
        next_hop6: LEFT_V6,
        passive: false,
        own: prefix_of_16(0x0a01_0000),
    }
}

/// The right end: AS 65002 at 192.0.2.2, which listens and announces 10.2.0.0/16.
pub(crate) fn right_settings() -> Settings
    ensures families { family_of result.config.parts.session.peer
        ≡ family_of result.config.parts.session.local }
    ensures config { IsEnd result.config.parts 65002 right_address 65001 left_address }
    ensures next_hop4 { result.next_hop4 ≡ right_address }
    ensures next_hop6 { result.next_hop6 ≡ right_next_hop6 }
    ensures passive { IsTrue result.passive }
{
    Settings {
        config: config_of(65002, RIGHT, 65001, LEFT),
        next_hop4: RIGHT,
        next_hop6: RIGHT_V6,
        passive: true,
        own: prefix_of_16(0x0a02_0000),
    }
}

/// One end: a core, the stream to its peer, and what its capture is written to.
#[derive(Drop)]
pub(crate) struct End<S: Drop, W: Drop, A: Allocator> {
    name: PairEnd,
    config: Config,
    core: Core<A>,
    stream: S,
    capture: FromWrite<W>,
    /// How many octets the peer has written that weren't read yet.
    unread: usize,
    pub(crate) ghost families: { family_of config.parts.session.peer
        ≡ family_of config.parts.session.local },
    pub(crate) ghost alike: { core.speaker.config.parts.session.extended
        ≡ config.parts.session.extended },
}

impl<S: Read + Write + Drop, W: Write + Drop, A: Allocator + Copy> End<S, W, A> {
    /// An end that nothing happened to.
    pub(crate) fn new(
        alloc: A,
        name: PairEnd,
        settings: &Settings,
        stream: S,
        writer: W,
    ) -> End<S, W, A>
        requires { family_of settings.now.config.parts.session.peer
            ≡ family_of settings.now.config.parts.session.local }
        ensures core { result.core ≡ fresh_core (record {
          config = without_offers settings.now.config;
          next_hop4 = settings.now.next_hop4;
          next_hop6 = settings.now.next_hop6;
        }) }
        ensures capture { writer_state result.capture ≡ fresh_writer writer }
        ensures config { result.config ≡ settings.now.config }
    {
        End {
            name,
            config: settings.config,
            core: Core::new(
                alloc,
                &settings.config,
                settings.next_hop4,
                settings.next_hop6,
            ),
            stream,
            capture: FromWrite::new(writer),
            unread: 0,
        }
    }

    /// Hands in an input, writes its records to the capture and its octets to the peer. Answers how
    /// many octets that were.
    fn hand_in(&mut self, input: &Input<'_>, second: Seconds) -> Result<usize, PairFault>
        requires { (writer_state self.old.capture).failures < 2 ^ 63 }
        ensures ok { OnOk result (Drove W.contents self.old.config
            self.old.core (writer_state self.old.capture)
            self.new.core (writer_state self.new.capture)) }
        ensures failures { OnOk result ((writer_state self.new.capture).failures
            ≡ (writer_state self.old.capture).failures) }
        ensures config { self.new.config ≡ self.old.config }
        ensures unread { self.new.unread ≡ self.old.unread }
    {
        each_record_is_short();
        let Ok(output) = self.core.step(again(input), second) else {
            return Err(PairFault::Memory);
        };
        if write_records(&self.config, &mut self.capture, output.records.as_slice()).is_err() {
            return Err(PairFault::Capture(self.name, self.capture.last_error()));
        }
        match self.stream.write_all(output.octets.as_slice()) {
            Ok(()) => Ok(output.octets.len()),
            Err(error) => Err(PairFault::Connection(error.kind())),
        }
    }

    /// Reads some of the octets that the peer has written, at most as many as there is room for.
    fn read_some(&mut self, buffer: &mut [u8]) -> Result<usize, PairFault>
        requires room { 0 < length buffer.old }
        requires unread { 0 < self.old.unread }
        ensures some { IfOk result (λ count. (0 < count) × (count ≤ length buffer.new)) }
        ensures read { IfOk result (λ count. self.new.unread + count ≡ self.old.unread) }
        ensures length { length buffer.new ≡ length buffer.old }
        ensures core { self.new.core ≡ self.old.core }
        ensures capture { self.new.capture ≡ self.old.capture }
        ensures config { self.new.config ≡ self.old.config }
    {
        let room = buffer.len().min(self.unread);
        match self.stream.read(&mut buffer[..room]) {
            Ok(0) => Err(PairFault::Connection(ErrorKind::UnexpectedEof)),
            Ok(count) => {
                self.unread -= count;
                Ok(count)
            }
            Err(error) => Err(PairFault::Connection(error.kind())),
        }
    }

    /// Hears all that the peer has written and that wasn't read yet. Answers how many octets went
    /// to the peer.
    fn hear(&mut self, second: Seconds) -> Result<usize, PairFault>
        requires { (writer_state self.old.capture).failures < 2 ^ 63 }
        ensures ok { OnOk result (Drove W.contents self.old.config
            self.old.core (writer_state self.old.capture)
            self.new.core (writer_state self.new.capture)) }
        ensures failures { OnOk result ((writer_state self.new.capture).failures
            ≡ (writer_state self.old.capture).failures) }
        ensures config { self.new.config ≡ self.old.config }
    {
        let mut buffer = [0; 4096];
        let mut sent = 0usize;
        while self.unread > 0 {
            let count = self.read_some(&mut buffer)?;
            let octets = self.hand_in(&Input::Bytes(&buffer[..count]), second)?;
            sent = sent.saturating_add(octets);
        }
        Ok(sent)
    }

    /// Takes a turn: hears what came, and a tick. Answers how many octets went to the peer.
    fn take_turn(&mut self, second: Seconds) -> Result<usize, PairFault>
        requires { (writer_state self.old.capture).failures < 2 ^ 63 }
        ensures ok { OnOk result (Drove W.contents self.old.config
            self.old.core (writer_state self.old.capture)
            self.new.core (writer_state self.new.capture)) }
        ensures failures { OnOk result ((writer_state self.new.capture).failures
            ≡ (writer_state self.old.capture).failures) }
        ensures config { self.new.config ≡ self.old.config }
    {
        let heard = self.hear(second)?;
        let ticked = self.hand_in(&Input::Tick, second)?;
        Ok(heard.saturating_add(ticked))
    }

    /// Announces the prefix, starts or listens, and is told that the connection is up. Answers how
    /// many octets went to the peer.
    fn begin(&mut self, settings: &Settings) -> Result<usize, PairFault>
        requires { (writer_state self.old.capture).failures < 2 ^ 63 }
        ensures ok { OnOk result (Drove W.contents self.old.config
            self.old.core (writer_state self.old.capture)
            self.new.core (writer_state self.new.capture)) }
        ensures failures { OnOk result ((writer_state self.new.capture).failures
            ≡ (writer_state self.old.capture).failures) }
        ensures config { self.new.config ≡ self.old.config }
    {
        let announced = self.hand_in(&Input::Announce(settings.own), FIRST_SECOND)?;
        let start = if settings.passive {
            Input::Passive
        } else {
            Input::Start
        };
        let started = self.hand_in(&start, FIRST_SECOND)?;
        let connected = self.hand_in(&Input::Connected, FIRST_SECOND)?;
        Ok(announced.saturating_add(started).saturating_add(connected))
    }

    /// Whether it is Established, and has read all that the peer has written.
    fn is_settled(&self) -> bool
        ensures { IsTrue result → IsEstablished self.now.core }
    {
        if self.unread > 0 {
            return false;
        }
        match self.core.fsm() {
            Fsm::Established => true,
            Fsm::Idle | Fsm::Connect | Fsm::Active | Fsm::OpenSent | Fsm::OpenConfirm => false,
        }
    }

    /// Ends it: hands over what is held of its capture.
    pub(crate) fn keep(self) -> Result<(), PairFault> {
        let End { name, capture, .. } = self;
        let mut writer = capture.into_inner();
        match writer.flush() {
            Ok(()) => Ok(()),
            Err(error) => Err(PairFault::Capture(name, Some(error.kind()))),
        }
    }
}

/// A round: the left end takes a turn, then the right one.
fn take_round<S: Read + Write + Drop, W: Write + Drop, A: Allocator + Copy>(
    left: &mut End<S, W, A>,
    right: &mut End<S, W, A>,
    second: Seconds,
) -> Result<(), PairFault>
    requires left { (writer_state left.old.capture).failures < 2 ^ 63 }
    requires right { (writer_state right.old.capture).failures < 2 ^ 63 }
    ensures left { OnOk result (Drove W.contents left.old.config
        left.old.core (writer_state left.old.capture)
        left.new.core (writer_state left.new.capture)) }
    ensures right { OnOk result (Drove W.contents right.old.config
        right.old.core (writer_state right.old.capture)
        right.new.core (writer_state right.new.capture)) }
    ensures left_failures { OnOk result ((writer_state left.new.capture).failures
        ≡ (writer_state left.old.capture).failures) }
    ensures right_failures { OnOk result ((writer_state right.new.capture).failures
        ≡ (writer_state right.old.capture).failures) }
    ensures left_config { left.new.config ≡ left.old.config }
    ensures right_config { right.new.config ≡ right.old.config }
{
    let sent = left.take_turn(second)?;
    right.unread = right.unread.saturating_add(sent);
    let sent = right.take_turn(second)?;
    left.unread = left.unread.saturating_add(sent);
    Ok(())
}

/// Whether both ends are Established, and have read all.
fn are_settled<S: Read + Write + Drop, W: Write + Drop, A: Allocator + Copy>(
    left: &End<S, W, A>,
    right: &End<S, W, A>,
) -> bool
    ensures left { IsTrue result → IsEstablished left.now.core }
    ensures right { IsTrue result → IsEstablished right.now.core }
{
    if !left.is_settled() {
        return false;
    }
    right.is_settled()
}

/// Sets both ends up, and takes rounds, second by second, until both are Established and have read
/// all. Answers whether they came to that, in 20 rounds at most.
///
/// Where it answers, each end's capture took just the text of what its core showed.
pub(crate) fn converse<S: Read + Write + Drop, W: Write + Drop, A: Allocator + Copy>(
    left: &mut End<S, W, A>,
    right: &mut End<S, W, A>,
) -> Result<bool, PairFault>
    requires left { (writer_state left.old.capture).failures < 2 ^ 63 }
    requires right { (writer_state right.old.capture).failures < 2 ^ 63 }
    ensures left { OnOk result (Drove W.contents left.old.config
        left.old.core (writer_state left.old.capture)
        left.new.core (writer_state left.new.capture)) }
    ensures right { OnOk result (Drove W.contents right.old.config
        right.old.core (writer_state right.old.capture)
        right.new.core (writer_state right.new.capture)) }
    ensures settled { IfOk result (λ settled. IsTrue settled
        → IsEstablished left.new.core × IsEstablished right.new.core) }
{
    let sent = left.begin(&left_settings())?;
    right.unread = right.unread.saturating_add(sent);
    let sent = right.begin(&right_settings())?;
    left.unread = left.unread.saturating_add(sent);
    for round in 0..ROUNDS {
        take_round(left, right, FIRST_SECOND + round)?;
        if are_settled(left, right) {
            return Ok(true);
        }
    }
    Ok(false)
}
