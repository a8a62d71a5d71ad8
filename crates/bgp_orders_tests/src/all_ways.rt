//! Small exchanges, each way of which is judged by itself: what the search says of an exchange is
//! what its ways say together.

use crate::explained::{MALFORMED_LIST, REJECTED, router_a};
use bgp_judge::{PlainTracker, Verdict, judge_records};
use bgp_open::Config;
use bgp_orders::{Explained, explained_count};
use bgp_recording::{Exchange, Message};
use bgp_wire::MessageType;
use bgp_wire::vectors::{
    ANNOUNCES_10, HOLD_TIMER_EXPIRED, KEEPALIVE, MP_UNREACH_TWICE, OPEN_A, OPEN_B,
};
use mrt::Record;
use std::alloc::{AllocError, Allocator, Global};
use streams::{Closing, End, Side};

/// States, as a capture numbers them (RFC 6396, 4.4.1).
const IDLE: u16 = 1;

pub(crate) const CONNECT: u16 = 2;

pub(crate) const ACTIVE: u16 = 3;

pub(crate) const OPEN_SENT: u16 = 4;

const OPEN_CONFIRM: u16 = 5;

const ESTABLISHED: u16 = 6;

/// How many seconds after it came a received message is handled at the latest.
pub(crate) const WITHIN: u16 = 10;

/// A message, and who sent it.
#[derive(Clone, Copy)]
pub(crate) struct Said {
    by: Side,
    kind: MessageType,
    octets: &'static [u8],
}

/// By which the session comes up, in the order in which the packets pass.
static OPENING: [Said; 4] = [
    Said {
        by: Side::Peer,
        kind: MessageType::Open,
        octets: &OPEN_B,
    },
    Said {
        by: Side::Local,
        kind: MessageType::Open,
        octets: &OPEN_A,
    },
    Said {
        by: Side::Local,
        kind: MessageType::Keepalive,
        octets: &KEEPALIVE,
    },
    Said {
        by: Side::Peer,
        kind: MessageType::Keepalive,
        octets: &KEEPALIVE,
    },
];

/// What may pass then.
pub(crate) static LATER: [Said; 9] = [
    Said {
        by: Side::Peer,
        kind: MessageType::Keepalive,
        octets: &KEEPALIVE,
    },
    Said {
        by: Side::Peer,
        kind: MessageType::Update,
        octets: &ANNOUNCES_10,
    },
    Said {
        by: Side::Peer,
        kind: MessageType::Update,
        octets: &MP_UNREACH_TWICE,
    },
    Said {
        by: Side::Peer,
        kind: MessageType::Notification,
        octets: &HOLD_TIMER_EXPIRED,
    },
    Said {
        by: Side::Local,
        kind: MessageType::Keepalive,
        octets: &KEEPALIVE,
    },
    Said {
        by: Side::Local,
        kind: MessageType::Open,
        octets: &OPEN_A,
    },
    Said {
        by: Side::Local,
        kind: MessageType::Update,
        octets: &ANNOUNCES_10,
    },
    Said {
        by: Side::Local,
        kind: MessageType::Notification,
        octets: &MALFORMED_LIST,
    },
    Said {
        by: Side::Local,
        kind: MessageType::Notification,
        octets: &REJECTED,
    },
];

/// How many seconds lie before each of the later messages, and who ends the connection.
pub(crate) static ENDINGS: [(u32, Option<Side>); 4] = [
    (0, None),
    (11, None),
    (0, Some(Side::Local)),
    (11, Some(Side::Peer)),
];

/// What stands in an order.
#[derive(Clone, Copy)]
enum Item {
    Received(Message<'static>),
    Sent(Message<'static>),
    Ended(End),
}

/// What packets tell of a connection: its messages, and its end if it has one.
#[derive(Drop)]
pub(crate) struct Passed {
    pub(crate) received: Vec<Message<'static>>,
    pub(crate) sent: Vec<Message<'static>>,
    pub(crate) end: Option<End>,
}

impl Passed {
    /// The exchange over a connection that this side opened.
    pub(crate) fn exchange(&self, opened_by: Side) -> Exchange<'_, 'static> {
        Exchange {
            opened_by,
            packet: 1,
            second: 100,
            micro: None,
            received: &self.received,
            sent: &self.sent,
            end: self.end,
        }
    }

    /// Adds what is said, by this packet.
    fn add(&mut self, said: Said, packet: u64, second: u32) -> Result<(), AllocError> {
        let message = Message {
            octets: said.octets,
            kind: Some(said.kind),
            packet,
            second,
            micro: None,
        };
        match said.by {
            Side::Peer => self.received.push(message)?,
            Side::Local => self.sent.push(message)?,
        }
        Ok(())
    }
}

/// The front of the opening, then these two messages, each so many seconds behind what passed
/// before; and then this side ends the connection, if one does.
pub(crate) fn passed_behind(
    alloc: Global,
    opening: usize,
    later: &[Said],
    gap: u32,
    ended_by: Option<Side>,
) -> Option<Passed> {
    let mut passed = Passed {
        received: Vec::new(alloc),
        sent: Vec::new(alloc),
        end: None,
    };
    let mut packet = 3u64;
    for said in OPENING.iter().take(opening) {
        packet = packet.wrapping_add(1);
        passed.add(*said, packet, 100).ok()?;
    }
    let mut second = 100u32;
    for said in later {
        packet = packet.wrapping_add(1);
        second = second.wrapping_add(gap);
        passed.add(*said, packet, second).ok()?;
    }
    passed.end = ended_by.map(|side| End {
        packet: packet.wrapping_add(1),
        second,
        micro: None,
        side,
        closing: Closing::Fin,
    });
    Some(passed)
}

/// Checks whether one item may stand before another in an order that the packets allow.
fn may_precede(first: &Item, second: &Item) -> bool {
    let in_time = |own: u32, came: u32| u64::from(own) <= u64::from(came) + u64::from(WITHIN);
    match (first, second) {
        (Item::Received(came), Item::Sent(own)) => came.packet < own.packet,
        (Item::Received(came), Item::Ended(end)) => {
            end.side == Side::Peer || came.packet <= end.packet
        }
        (Item::Sent(own), Item::Received(came)) => in_time(own.second, came.second),
        (Item::Ended(end), Item::Received(came)) => in_time(end.second, came.second),
        (Item::Ended(_), Item::Sent(_)) => false,
        _ => true,
    }
}

/// Checks whether each item may stand before each later one.
fn is_allowed(order: &[Item]) -> bool {
    for (at, first) in order.iter().enumerate() {
        for (place, second) in order.iter().enumerate() {
            if at < place && !may_precede(first, second) {
                return false;
            }
        }
    }
    true
}

/// The order in which bit by bit of a number says whether the next item is a received message, with
/// the end before as many of the last; if the number has as many bits as there are such messages.
fn order_of(alloc: Global, passed: &Passed, bits: u32, left: usize) -> Option<Vec<Item>> {
    let mut order = Vec::new(alloc);
    let mut received = passed.received.iter();
    let mut sent = passed.sent.iter();
    let count = passed.received.len().checked_add(passed.sent.len())?;
    let ends_at = count.checked_sub(left)?;
    let mut bits = bits;
    for place in 0..count {
        if place == ends_at {
            order.push(Item::Ended(passed.end?)).ok()?;
        }
        let item = if bits % 2 == 1 {
            Item::Received(*received.next()?)
        } else {
            Item::Sent(*sent.next()?)
        };
        order.push(item).ok()?;
        bits /= 2;
    }
    if let (0, Some(end)) = (left, passed.end) {
        order.push(Item::Ended(end)).ok()?;
    }
    (bits == 0).then_some(order)
}

/// Where a way stands: the state, the second, and how many OPENs stand just before: a received one,
/// and behind that the own one, which was delayed.
#[derive(Clone, Copy)]
pub(crate) struct Standing {
    pub(crate) state: u16,
    pub(crate) second: u32,
    pub(crate) opens: u8,
}

impl Standing {
    /// Checks whether no OPEN was sent.
    fn is_before_open(self) -> bool {
        self.state == CONNECT || self.state == ACTIVE
    }

    /// The state after a received message. Before the own OPEN it ends the session, unless the next
    /// message that is sent answers it: an OPEN that is delayed, or a NOTIFICATION of code 1 or 2.
    fn after_received(self, kind: MessageType, next: Option<&Message<'_>>) -> u16 {
        if kind == MessageType::Notification {
            return IDLE;
        }
        if self.is_before_open() && !next.is_some_and(|own| answers(kind, own)) {
            return IDLE;
        }
        if self.state == OPEN_CONFIRM && kind == MessageType::Keepalive {
            return ESTABLISHED;
        }
        self.state
    }

    /// The state after a sent message.
    fn after_sent(self, kind: MessageType) -> u16 {
        match kind {
            MessageType::Notification => IDLE,
            MessageType::Open if self.is_before_open() && self.opens != 1 => OPEN_SENT,
            MessageType::Keepalive if self.is_before_open() && self.opens == 2 => OPEN_CONFIRM,
            MessageType::Keepalive if self.state == OPEN_SENT && self.opens == 1 => OPEN_CONFIRM,
            _ => self.state,
        }
    }
}

/// Checks whether a sent message answers one of this type before the own OPEN.
fn answers(kind: MessageType, own: &Message<'_>) -> bool {
    match own.kind {
        Some(MessageType::Open) => kind == MessageType::Open,
        Some(MessageType::Notification) => matches!(own.octets.get(19), Some(1 | 2)),
        _ => false,
    }
}

/// The records of a way, and where it stands behind them.
#[derive(Drop)]
pub(crate) struct Told {
    pub(crate) records: Vec<Record<'static>>,
    pub(crate) standing: Standing,
}

impl Told {
    /// Behind the first record, by which the session goes to this state.
    pub(crate) fn begun(alloc: Global, start: u16) -> Option<Told> {
        let mut told = Told {
            records: Vec::new(alloc),
            standing: Standing {
                state: IDLE,
                second: 100,
                opens: 0,
            },
        };
        told.change(start).ok()?;
        Some(told)
    }

    /// Goes to this state, with a record of that unless it is the state already.
    fn change(&mut self, state: u16) -> Result<(), AllocError> {
        let Standing {
            state: old,
            second,
            ..
        } = self.standing;
        if state != old {
            self.records.push(Record::Change(second, old, state))?;
        }
        self.standing.state = state;
        Ok(())
    }

    /// Handles a received message, behind which this one is sent next.
    pub(crate) fn receive(
        &mut self,
        came: Message<'static>,
        next: Option<&Message<'_>>,
    ) -> Result<(), AllocError> {
        let Some(kind) = came.kind else {
            return Ok(());
        };
        self.standing.second = self.standing.second.max(came.second);
        let record = Record::In(self.standing.second, came.octets);
        self.records.push(record)?;
        let state = self.standing.after_received(kind, next);
        self.change(state)?;
        self.standing.opens = u8::from(kind == MessageType::Open);
        Ok(())
    }

    /// Sends a message.
    pub(crate) fn send(&mut self, own: Message<'static>) -> Result<(), AllocError> {
        let Some(kind) = own.kind else {
            return Ok(());
        };
        self.standing.second = own.second;
        self.records.push(Record::Out(own.second, own.octets))?;
        let before = self.standing;
        self.change(before.after_sent(kind))?;
        let delayed = before.is_before_open() && before.opens == 1 && kind == MessageType::Open;
        self.standing.opens = if delayed { 2 } else { 0 };
        Ok(())
    }

    /// Ends the connection, behind which received messages are left or not.
    pub(crate) fn end(&mut self, end: End, are_left: bool) -> Result<(), AllocError> {
        self.standing.second = self.standing.second.max(end.second);
        self.standing.opens = 0;
        if self.standing.state == OPEN_SENT {
            self.change(ACTIVE)?;
            if are_left {
                self.change(IDLE)?;
            }
            return Ok(());
        }
        self.change(IDLE)
    }
}

/// The message that is sent next in the rest of an order.
fn next_sent(later: &[Item]) -> Option<&Message<'static>> {
    for item in later {
        if let Item::Sent(own) = item {
            return Some(own);
        }
    }
    None
}

/// The records of a way that begins in this state.
fn records_of(alloc: Global, start: u16, order: &[Item]) -> Option<Vec<Record<'static>>> {
    let mut told = Told::begun(alloc, start)?;
    for (at, item) in order.iter().enumerate() {
        let later = order.get(at..)?;
        match *item {
            Item::Received(came) => told.receive(came, next_sent(later)).ok()?,
            Item::Sent(own) => told.send(own).ok()?,
            Item::Ended(end) => told.end(end, later.len() > 1).ok()?,
        }
    }
    Some(told.records)
}

/// How many of these records show a sent message.
fn count_sent(records: &[Record<'_>]) -> usize {
    let mut count = 0usize;
    for record in records {
        if matches!(record, Record::Out(..)) {
            count = count.wrapping_add(1);
        }
    }
    count
}

/// How many sent messages a way explains, and whether it is whole.
pub(crate) fn explained_by(
    alloc: Global,
    config: &Config,
    records: &[Record<'_>],
) -> Option<(usize, bool)> {
    let verdict = judge_records::<Global, PlainTracker<Global>>(alloc, config, records).ok()?;
    match verdict {
        Verdict::Yes(_) => Some((count_sent(records), true)),
        Verdict::Unfinished => Some((count_sent(records), false)),
        Verdict::No(before) => {
            let before = usize::try_from(before).ok()?;
            Some((count_sent(records.get(..before)?), false))
        }
    }
}

/// What all ways of an exchange say together.
fn explained_by_all(alloc: Global, config: &Config, passed: &Passed) -> Option<Explained> {
    let mut most = 0;
    let mut is_whole = false;
    let left_at_most = if passed.end.is_some() {
        passed.received.len()
    } else {
        0
    };
    for start in [CONNECT, ACTIVE] {
        for bits in 0..64 {
            for left in 0..=left_at_most {
                let Some(order) = order_of(alloc, passed, bits, left) else {
                    continue;
                };
                if !is_allowed(&order) {
                    continue;
                }
                let records = records_of(alloc, start, &order)?;
                let (count, whole) = explained_by(alloc, config, &records)?;
                most = usize::max(most, count);
                is_whole = is_whole || whole;
            }
        }
    }
    Some(if most < passed.sent.len() {
        Explained::Only(most)
    } else {
        Explained::All { is_whole }
    })
}

/// Whether the search says of an exchange what its ways do.
fn is_said_by_all(alloc: Global, config: &Config, passed: &Passed) -> Option<bool> {
    let by_ways = explained_by_all(alloc, config, passed)?;
    let from_peer = explained_count(alloc, config, &passed.exchange(Side::Peer), WITHIN).ok()?;
    Some(from_peer == by_ways)
}

/// Whether it is so of each exchange with this front of the opening and two messages behind it.
fn agree_behind(alloc: Global, delays: bool, opening: usize) -> Option<bool> {
    let config = router_a(delays)?;
    for first in &LATER {
        for second in &LATER {
            for (gap, ended_by) in &ENDINGS {
                let later = [*first, *second];
                let passed = passed_behind(alloc, opening, &later, *gap, *ended_by)?;
                if !is_said_by_all(alloc, &config, &passed)? {
                    return Some(false);
                }
            }
        }
    }
    Some(true)
}

#[test]
fn the_search_says_what_all_ways_say(rt: HostRuntime) {
    for opening in 0..=OPENING.len() {
        assert!(rt; agree_behind(rt.alloc(), false, opening) == Some(true));
    }
    // An OPEN may be delayed if it isn't sent in the front.
    assert!(rt; agree_behind(rt.alloc(), true, 0) == Some(true));
    assert!(rt; agree_behind(rt.alloc(), true, 1) == Some(true));
}
