//! Exchanges of router A with router B, whose answers were worked out by hand. Messages have the
//! names of `bgp_wire::vectors`.

use bgp_judge::{PlainTracker, Verdict, judge_records};
use bgp_machine::Fsm;
use bgp_open::{Config, ConfigParts, Families};
use bgp_orders::{Explained, entries_of_whole_way, explained_count};
use bgp_recording::{Entry, Exchange, Message};
use bgp_vectors::ROUTER_A;
use bgp_wire::MessageType;
use bgp_wire::vectors::{
    ANNOUNCES_10, HOLD_TIMER_EXPIRED, KEEPALIVE, KEEPALIVE_OF_18, MP_UNREACH_TWICE, OPEN_A, OPEN_B,
};
use mrt::Record;
use std::alloc::Global;
use streams::{Closing, End, Side};

/// A NOTIFICATION: Malformed Attribute List (RFC 4271, 6.3).
pub(crate) const MALFORMED_LIST: [u8; 21] = [
    255, 255, 255, 255, 255, 255, 255, 255, 255, 255, 255, 255, 255, 255, 255, 255, 0, 21, 3, 3, 1,
];

/// A NOTIFICATION: Connection Rejected (RFC 4486).
pub(crate) const REJECTED: [u8; 21] = [
    255, 255, 255, 255, 255, 255, 255, 255, 255, 255, 255, 255, 255, 255, 255, 255, 0, 21, 3, 6, 5,
];

/// The OPENs and KEEPALIVEs by which the session comes up.
const OPEN_CAME: Message<'static> = Message {
    octets: &OPEN_B,
    kind: Some(MessageType::Open),
    packet: 4,
    second: 100,
    micro: None,
};

const OPEN_SENT: Message<'static> = Message {
    octets: &OPEN_A,
    kind: Some(MessageType::Open),
    packet: 5,
    second: 100,
    micro: None,
};

const KEEPALIVE_SENT: Message<'static> = Message {
    octets: &KEEPALIVE,
    kind: Some(MessageType::Keepalive),
    packet: 6,
    second: 100,
    micro: None,
};

const KEEPALIVE_CAME: Message<'static> = Message {
    octets: &KEEPALIVE,
    kind: Some(MessageType::Keepalive),
    packet: 7,
    second: 101,
    micro: None,
};

/// What comes behind them.
const ROUTE_CAME: Message<'static> = Message {
    octets: &ANNOUNCES_10,
    kind: Some(MessageType::Update),
    packet: 8,
    second: 102,
    micro: None,
};

const FAULT_CAME: Message<'static> = Message {
    octets: &MP_UNREACH_TWICE,
    kind: Some(MessageType::Update),
    packet: 8,
    second: 102,
    micro: None,
};

const BAD_HEADER_CAME: Message<'static> = Message {
    octets: &KEEPALIVE_OF_18,
    kind: None,
    packet: 8,
    second: 102,
    micro: None,
};

const ROUTE_CAME_LATER: Message<'static> = Message {
    octets: &ANNOUNCES_10,
    kind: Some(MessageType::Update),
    packet: 9,
    second: 102,
    micro: None,
};

const OPEN_AGAIN: Message<'static> = Message {
    octets: &OPEN_A,
    kind: Some(MessageType::Open),
    packet: 8,
    second: 102,
    micro: None,
};

const OPEN_LATE: Message<'static> = Message {
    octets: &OPEN_A,
    kind: Some(MessageType::Open),
    packet: 5,
    second: 115,
    micro: None,
};

/// An exchange, how much of it is explained, and in which state the session ends if some way is
/// whole.
pub(crate) struct Row {
    received: &'static [Message<'static>],
    sent: &'static [Message<'static>],
    end: Option<End>,
    pub(crate) delays: bool,
    pub(crate) within: u16,
    pub(crate) explained: Explained,
    ends: Option<Fsm>,
}

/// All, and some run shows just the records of a way.
const WHOLE: Explained = Explained::All { is_whole: true };

/// All, and none does.
const OWES: Explained = Explained::All { is_whole: false };

/// KEEPALIVEs and NOTIFICATIONs by these packets, at these seconds.
const KEEPALIVE_9_AT_110: Message<'static> = Message {
    octets: &KEEPALIVE,
    kind: Some(MessageType::Keepalive),
    packet: 9,
    second: 110,
    micro: None,
};

const KEEPALIVE_10_AT_120: Message<'static> = Message {
    octets: &KEEPALIVE,
    kind: Some(MessageType::Keepalive),
    packet: 10,
    second: 120,
    micro: None,
};

const KEEPALIVE_9_AT_112: Message<'static> = Message {
    octets: &KEEPALIVE,
    kind: Some(MessageType::Keepalive),
    packet: 9,
    second: 112,
    micro: None,
};

const KEEPALIVE_9_AT_113: Message<'static> = Message {
    octets: &KEEPALIVE,
    kind: Some(MessageType::Keepalive),
    packet: 9,
    second: 113,
    micro: None,
};

const KEEPALIVE_10_AT_183: Message<'static> = Message {
    octets: &KEEPALIVE,
    kind: Some(MessageType::Keepalive),
    packet: 10,
    second: 183,
    micro: None,
};

const KEEPALIVE_10_AT_181: Message<'static> = Message {
    octets: &KEEPALIVE,
    kind: Some(MessageType::Keepalive),
    packet: 10,
    second: 181,
    micro: None,
};

const KEEPALIVE_8_AT_102: Message<'static> = Message {
    octets: &KEEPALIVE,
    kind: Some(MessageType::Keepalive),
    packet: 8,
    second: 102,
    micro: None,
};

const KEEPALIVE_6_AT_116: Message<'static> = Message {
    octets: &KEEPALIVE,
    kind: Some(MessageType::Keepalive),
    packet: 6,
    second: 116,
    micro: None,
};

const KEEPALIVE_5_AT_115: Message<'static> = Message {
    octets: &KEEPALIVE,
    kind: Some(MessageType::Keepalive),
    packet: 5,
    second: 115,
    micro: None,
};

pub(crate) const MALFORMED_LIST_AT_103: Message<'static> = Message {
    octets: &MALFORMED_LIST,
    kind: Some(MessageType::Notification),
    packet: 10,
    second: 103,
    micro: None,
};

pub(crate) const MALFORMED_LIST_AT_113: Message<'static> = Message {
    octets: &MALFORMED_LIST,
    kind: Some(MessageType::Notification),
    packet: 10,
    second: 113,
    micro: None,
};

const HOLD_TIMER_EXPIRED_AT_104: Message<'static> = Message {
    octets: &HOLD_TIMER_EXPIRED,
    kind: Some(MessageType::Notification),
    packet: 9,
    second: 104,
    micro: None,
};

const HOLD_TIMER_EXPIRED_AT_192: Message<'static> = Message {
    octets: &HOLD_TIMER_EXPIRED,
    kind: Some(MessageType::Notification),
    packet: 11,
    second: 192,
    micro: None,
};

const REJECTED_AT_101: Message<'static> = Message {
    octets: &REJECTED,
    kind: Some(MessageType::Notification),
    packet: 4,
    second: 101,
    micro: Some(999_999),
};

/// The rows.
pub(crate) static ROWS: [Row; 18] = [
    // The session comes up, and B announces a route.
    Row {
        received: &[OPEN_CAME, KEEPALIVE_CAME, ROUTE_CAME],
        sent: &[OPEN_SENT, KEEPALIVE_SENT],
        end: None,
        delays: false,
        within: 10,
        explained: WHOLE,
        ends: Some(Fsm::Established),
    },
    // A header with a bad length, and 18 seconds later a KEEPALIVE in place of the answer.
    Row {
        received: &[OPEN_CAME, KEEPALIVE_CAME, BAD_HEADER_CAME],
        sent: &[
            OPEN_SENT,
            KEEPALIVE_SENT,
            KEEPALIVE_9_AT_110,
            KEEPALIVE_10_AT_120,
        ],
        end: None,
        delays: false,
        within: 10,
        explained: Explained::Only(3),
        ends: None,
    },
    // The same without the last KEEPALIVE: the answer is owed.
    Row {
        received: &[OPEN_CAME, KEEPALIVE_CAME, BAD_HEADER_CAME],
        sent: &[OPEN_SENT, KEEPALIVE_SENT, KEEPALIVE_9_AT_110],
        end: None,
        delays: false,
        within: 10,
        explained: OWES,
        ends: None,
    },
    // An UPDATE at fault, and a KEEPALIVE 10 seconds later.
    Row {
        received: &[OPEN_CAME, KEEPALIVE_CAME, FAULT_CAME],
        sent: &[OPEN_SENT, KEEPALIVE_SENT, KEEPALIVE_9_AT_112],
        end: None,
        delays: false,
        within: 10,
        explained: OWES,
        ends: None,
    },
    // The same 11 seconds later.
    Row {
        received: &[OPEN_CAME, KEEPALIVE_CAME, FAULT_CAME],
        sent: &[OPEN_SENT, KEEPALIVE_SENT, KEEPALIVE_9_AT_113],
        end: None,
        delays: false,
        within: 10,
        explained: Explained::Only(2),
        ends: None,
    },
    // With a patience of 11 seconds.
    Row {
        received: &[OPEN_CAME, KEEPALIVE_CAME, FAULT_CAME],
        sent: &[OPEN_SENT, KEEPALIVE_SENT, KEEPALIVE_9_AT_113],
        end: None,
        delays: false,
        within: 11,
        explained: OWES,
        ends: None,
    },
    // The UPDATE that follows it was never read.
    Row {
        received: &[OPEN_CAME, KEEPALIVE_CAME, FAULT_CAME, ROUTE_CAME_LATER],
        sent: &[OPEN_SENT, KEEPALIVE_SENT, MALFORMED_LIST_AT_103],
        end: Some(End {
            packet: 11,
            second: 103,
            micro: None,
            side: Side::Local,
            closing: Closing::Fin,
        }),
        delays: false,
        within: 10,
        explained: WHOLE,
        ends: Some(Fsm::Idle),
    },
    // It is overdue, and can't be heard while the first isn't answered.
    Row {
        received: &[OPEN_CAME, KEEPALIVE_CAME, FAULT_CAME, ROUTE_CAME_LATER],
        sent: &[OPEN_SENT, KEEPALIVE_SENT, MALFORMED_LIST_AT_113],
        end: Some(End {
            packet: 11,
            second: 113,
            micro: None,
            side: Side::Local,
            closing: Closing::Fin,
        }),
        delays: false,
        within: 10,
        explained: Explained::Only(2),
        ends: None,
    },
    // A HoldTimer that expires two seconds after an UPDATE.
    Row {
        received: &[OPEN_CAME, KEEPALIVE_CAME, FAULT_CAME],
        sent: &[OPEN_SENT, KEEPALIVE_SENT, HOLD_TIMER_EXPIRED_AT_104],
        end: None,
        delays: false,
        within: 10,
        explained: Explained::Only(2),
        ends: None,
    },
    // The HoldTimer expires 90 seconds after an UPDATE, and what came then was never read.
    Row {
        received: &[OPEN_CAME, KEEPALIVE_CAME, ROUTE_CAME, KEEPALIVE_10_AT_183],
        sent: &[OPEN_SENT, KEEPALIVE_SENT, HOLD_TIMER_EXPIRED_AT_192],
        end: None,
        delays: false,
        within: 10,
        explained: WHOLE,
        ends: Some(Fsm::Idle),
    },
    // The KEEPALIVE is overdue, and sets the timer again.
    Row {
        received: &[OPEN_CAME, KEEPALIVE_CAME, ROUTE_CAME, KEEPALIVE_10_AT_181],
        sent: &[OPEN_SENT, KEEPALIVE_SENT, HOLD_TIMER_EXPIRED_AT_192],
        end: None,
        delays: false,
        within: 10,
        explained: Explained::Only(2),
        ends: None,
    },
    // The local system ends the connection without an answer: it never read the UPDATE.
    Row {
        received: &[OPEN_CAME, KEEPALIVE_CAME, FAULT_CAME],
        sent: &[OPEN_SENT, KEEPALIVE_SENT],
        end: Some(End {
            packet: 9,
            second: 104,
            micro: None,
            side: Side::Local,
            closing: Closing::Fin,
        }),
        delays: false,
        within: 10,
        explained: WHOLE,
        ends: Some(Fsm::Idle),
    },
    // It is overdue then.
    Row {
        received: &[OPEN_CAME, KEEPALIVE_CAME, FAULT_CAME],
        sent: &[OPEN_SENT, KEEPALIVE_SENT],
        end: Some(End {
            packet: 9,
            second: 114,
            micro: None,
            side: Side::Local,
            closing: Closing::Fin,
        }),
        delays: false,
        within: 10,
        explained: OWES,
        ends: None,
    },
    // A second OPEN.
    Row {
        received: &[OPEN_CAME, KEEPALIVE_CAME],
        sent: &[OPEN_SENT, KEEPALIVE_SENT, KEEPALIVE_8_AT_102, OPEN_AGAIN],
        end: None,
        delays: false,
        within: 10,
        explained: Explained::Only(3),
        ends: None,
    },
    // The OPEN is delayed.
    Row {
        received: &[OPEN_CAME, KEEPALIVE_6_AT_116],
        sent: &[OPEN_LATE, KEEPALIVE_5_AT_115],
        end: None,
        delays: true,
        within: 10,
        explained: WHOLE,
        ends: Some(Fsm::Established),
    },
    // It may not be.
    Row {
        received: &[OPEN_CAME, KEEPALIVE_6_AT_116],
        sent: &[OPEN_LATE, KEEPALIVE_5_AT_115],
        end: None,
        delays: false,
        within: 10,
        explained: Explained::Only(0),
        ends: None,
    },
    // An OPEN that isn't answered.
    Row {
        received: &[OPEN_CAME],
        sent: &[],
        end: None,
        delays: false,
        within: 10,
        explained: WHOLE,
        ends: Some(Fsm::Idle),
    },
    // A NOTIFICATION before the OPEN: in Active alone it may come first.
    Row {
        received: &[],
        sent: &[REJECTED_AT_101],
        end: Some(End {
            packet: 5,
            second: 101,
            micro: None,
            side: Side::Local,
            closing: Closing::Fin,
        }),
        delays: true,
        within: 10,
        explained: WHOLE,
        ends: Some(Fsm::Idle),
    },
];

/// What router A is configured to do.
pub(crate) fn router_a(delays: bool) -> Option<Config> {
    Config::new(ConfigParts {
        delay_open: delays,
        ..ROUTER_A
    })
}

/// A row's exchange, over a connection that this side opened.
pub(crate) fn exchange_of(row: &Row, opened_by: Side) -> Exchange<'static, 'static> {
    Exchange {
        opened_by,
        packet: 1,
        second: 100,
        micro: Some(7),
        received: row.received,
        sent: row.sent,
        end: row.end,
    }
}

/// Whether so much of a row's exchange is explained, over a connection that this side opened.
fn is_explained(alloc: Global, row: &Row, opened_by: Side) -> Option<bool> {
    let config = router_a(row.delays)?;
    let exchange = exchange_of(row, opened_by);
    let explained = explained_count(alloc, &config, &exchange, row.within).ok()?;
    Some(explained == row.explained)
}

#[test]
fn exchanges_are_explained(rt: HostRuntime) {
    for row in &ROWS {
        assert!(rt; is_explained(rt.alloc(), row, Side::Peer) == Some(true));
        assert!(rt; is_explained(rt.alloc(), row, Side::Local) == Some(true));
    }
}

/// The entries of a whole way of a row's exchange, if there is one.
fn entries_of(
    alloc: Global,
    config: &Config,
    row: &Row,
    opened_by: Side,
) -> Option<Vec<Entry<'static>>> {
    let exchange = exchange_of(row, opened_by);
    entries_of_whole_way(alloc, config, &exchange, row.within).ok()?
}

/// No family.
const NEITHER: Families = Families {
    v4: false,
    v6: false,
};

/// The state in which the records of these entries end, if they are judged to end in one alone,
/// with no family disabled.
fn judged_end(alloc: Global, config: &Config, entries: &[Entry<'_>]) -> Option<Fsm> {
    let mut records = Vec::new(alloc);
    for entry in entries {
        records.push(entry.record).ok()?;
    }
    let verdict = judge_records::<Global, PlainTracker<Global>>(alloc, config, &records).ok()?;
    let Verdict::Yes(ends) = verdict else {
        return None;
    };
    match ends.as_slice() {
        [end] => (end.rib.disabled() == NEITHER).then_some(end.fsm),
        _ => None,
    }
}

/// Whether a way of a row's exchange is whole just if one is said to be, and ends so.
fn ends_so(alloc: Global, row: &Row, opened_by: Side) -> Option<bool> {
    let config = router_a(row.delays)?;
    match entries_of(alloc, &config, row, opened_by) {
        Some(entries) => Some(judged_end(alloc, &config, &entries) == row.ends),
        None => Some(row.ends.is_none()),
    }
}

#[test]
fn entries_of_whole_ways_are_judged_yes(rt: HostRuntime) {
    for row in &ROWS {
        assert!(rt; ends_so(rt.alloc(), row, Side::Peer) == Some(true));
        assert!(rt; ends_so(rt.alloc(), row, Side::Local) == Some(true));
    }
}

/// The entries of the last row: the one way that is whole begins in Active.
pub(crate) const REJECTS: [Entry<'static>; 3] = [
    Entry {
        packet: 1,
        second: 100,
        micro: Some(7),
        record: Record::Change(100, 1, 3),
    },
    Entry {
        packet: 4,
        second: 101,
        micro: Some(999_999),
        record: Record::Out(101, &REJECTED),
    },
    Entry {
        packet: 4,
        second: 101,
        micro: Some(999_999),
        record: Record::Change(101, 3, 1),
    },
];

/// Whether the entries of the last row are these, over a connection that the local system opens.
fn rejects_in_active(alloc: Global) -> Option<bool> {
    let config = router_a(true)?;
    let entries = entries_of(alloc, &config, ROWS.last()?, Side::Local)?;
    Some(entries.as_slice() == REJECTS.as_slice())
}

#[test]
fn a_way_begins_in_either_state(rt: HostRuntime) {
    assert!(rt; rejects_in_active(rt.alloc()) == Some(true));
}
