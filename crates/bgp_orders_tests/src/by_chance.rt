//! Whether exchanges by chance have the answers that another program gave.

use crate::exchanges::{Case, FIFTH, FIRST, FOURTH, SECOND, SEVENTH, SIXTH, THIRD};
use crate::explained::{MALFORMED_LIST, REJECTED, router_a};
use crate::instead::NOTHING;
use bgp_instead::{Sendable, sendable_instead};
use bgp_open::{Config, OpenSubcodes};
use bgp_orders::{Explained, explained_count};
use bgp_reason::FsmErrors;
use bgp_recording::{Exchange, Message};
use bgp_update::Subcodes;
use bgp_wire::vectors::{
    ADMINISTRATIVE_SHUTDOWN, ANNOUNCES_10, BAD_LENGTH_18, HOLD_TIMER_EXPIRED, KEEPALIVE,
    KEEPALIVE_OF_18, MP_UNREACH_TWICE, NEXT_HOP_OF_5, OPEN_A, OPEN_B, OPEN_B_HOLD_0,
    OPTIONAL_ATTRIBUTE_ERROR, ORIGIN_OF_3,
};
use bgp_wire::{HeaderFaults, MessageType};
use std::alloc::Global;
use streams::{Closing, End, Side};

/// NOTIFICATIONs: Unacceptable Hold Time (RFC 4271, 6.2), and Finite State Machine Error with the
/// subcodes 0 and 1 (RFC 6608).
const HOLD_REFUSED: [u8; 21] = [
    255, 255, 255, 255, 255, 255, 255, 255, 255, 255, 255, 255, 255, 255, 255, 255, 0, 21, 3, 2, 6,
];

const UNEXPECTED: [u8; 21] = [
    255, 255, 255, 255, 255, 255, 255, 255, 255, 255, 255, 255, 255, 255, 255, 255, 0, 21, 3, 5, 0,
];

const UNEXPECTED_IN_OPEN_SENT: [u8; 21] = [
    255, 255, 255, 255, 255, 255, 255, 255, 255, 255, 255, 255, 255, 255, 255, 255, 0, 21, 3, 5, 1,
];

/// The octets of a message that is received, by its name.
fn received_octets(name: &str) -> Option<&'static [u8]> {
    match name {
        "open" => Some(&OPEN_B),
        "open-hold-0" => Some(&OPEN_B_HOLD_0),
        "keepalive" => Some(&KEEPALIVE),
        "route" => Some(&ANNOUNCES_10),
        "fault" => Some(&MP_UNREACH_TWICE),
        "next-hop" => Some(&NEXT_HOP_OF_5),
        "origin" => Some(&ORIGIN_OF_3),
        "header" => Some(&KEEPALIVE_OF_18),
        "6/2" => Some(&ADMINISTRATIVE_SHUTDOWN),
        "4/0" => Some(&HOLD_TIMER_EXPIRED),
        _ => None,
    }
}

/// Of one that is sent.
fn sent_octets(name: &str) -> Option<&'static [u8]> {
    match name {
        "open" => Some(&OPEN_A),
        "keepalive" => Some(&KEEPALIVE),
        "route" => Some(&ANNOUNCES_10),
        "origin" => Some(&ORIGIN_OF_3),
        "1/2" => Some(&BAD_LENGTH_18),
        "2/6" => Some(&HOLD_REFUSED),
        "3/1" => Some(&MALFORMED_LIST),
        "3/9" => Some(&OPTIONAL_ATTRIBUTE_ERROR),
        "4/0" => Some(&HOLD_TIMER_EXPIRED),
        "5/0" => Some(&UNEXPECTED),
        "5/1" => Some(&UNEXPECTED_IN_OPEN_SENT),
        "6/2" => Some(&ADMINISTRATIVE_SHUTDOWN),
        "6/5" => Some(&REJECTED),
        _ => None,
    }
}

/// The type of a message by its name: none of one with a faulty header.
fn kind_of(name: &str) -> Option<MessageType> {
    match name {
        "open" | "open-hold-0" => Some(MessageType::Open),
        "keepalive" => Some(MessageType::Keepalive),
        "route" | "fault" | "next-hop" | "origin" => Some(MessageType::Update),
        "header" => None,
        _ => Some(MessageType::Notification),
    }
}

/// The message that a text names, with its packet and its second.
fn message_of(alloc: Global, text: &str, by: Side) -> Option<Message<'static>> {
    let words: Vec<&str> = text.split(' ').collect(alloc).ok()?;
    let [name, packet, second] = words.as_slice() else {
        return None;
    };
    let octets = match by {
        Side::Peer => received_octets(name)?,
        Side::Local => sent_octets(name)?,
    };
    Some(Message {
        octets,
        kind: kind_of(name),
        packet: packet.parse::<u64>().ok()?,
        second: second.parse::<u32>().ok()?,
        micro: None,
    })
}

/// The messages of a list.
fn messages_of(alloc: Global, list: &str, by: Side) -> Option<Vec<Message<'static>>> {
    let mut messages = Vec::new(alloc);
    if list == "-" {
        return Some(messages);
    }
    for text in list.split(", ") {
        messages.push(message_of(alloc, text, by)?).ok()?;
    }
    Some(messages)
}

/// The end that a text names: its side, packet and second.
fn end_of(alloc: Global, text: &str) -> Option<End> {
    let words: Vec<&str> = text.split(' ').collect(alloc).ok()?;
    let [side, packet, second] = words.as_slice() else {
        return None;
    };
    Some(End {
        packet: packet.parse::<u64>().ok()?,
        second: second.parse::<u32>().ok()?,
        micro: None,
        side: if *side == "local" {
            Side::Local
        } else {
            Side::Peer
        },
        closing: Closing::Fin,
    })
}

/// The same, with the kind of message that a word names.
fn with_kind(sendable: Sendable, word: &str) -> Option<Sendable> {
    let Sendable {
        header_errors,
        open_errors,
        update_errors,
        fsm_errors,
        ..
    } = sendable;
    match word {
        "-" => Some(sendable),
        "open" => Some(Sendable {
            own_open: true,
            ..sendable
        }),
        "keepalive" => Some(Sendable {
            keepalive: true,
            ..sendable
        }),
        "update" => Some(Sendable {
            update: true,
            ..sendable
        }),
        "1/2" => Some(Sendable {
            header_errors: HeaderFaults {
                length: Some(18),
                ..header_errors
            },
            ..sendable
        }),
        "2/6" => Some(Sendable {
            open_errors: OpenSubcodes {
                hold: true,
                capability: true,
                role: true,
                ..open_errors
            },
            ..sendable
        }),
        "3/1" => Some(Sendable {
            update_errors: Subcodes {
                malformed_attribute_list: true,
                ..update_errors
            },
            ..sendable
        }),
        "3/9" => Some(Sendable {
            update_errors: Subcodes {
                optional_attribute: true,
                ..update_errors
            },
            ..sendable
        }),
        "4/0" => Some(Sendable {
            hold_timer_expired: true,
            ..sendable
        }),
        "8/0" => Some(Sendable {
            send_hold_timer_expired: true,
            ..sendable
        }),
        "5/1" => Some(Sendable {
            fsm_errors: FsmErrors {
                unspecified: true,
                open_sent: true,
                ..fsm_errors
            },
            ..sendable
        }),
        "5/2" => Some(Sendable {
            fsm_errors: FsmErrors {
                unspecified: true,
                open_confirm: true,
                ..fsm_errors
            },
            ..sendable
        }),
        "5/3" => Some(Sendable {
            fsm_errors: FsmErrors {
                unspecified: true,
                established: true,
                ..fsm_errors
            },
            ..sendable
        }),
        "6/5" => Some(Sendable {
            cease: true,
            ..sendable
        }),
        _ => None,
    }
}

/// What the words name.
fn sendable_of(text: &str) -> Option<Sendable> {
    let mut sendable = NOTHING;
    for word in text.split(' ') {
        sendable = with_kind(sendable, word)?;
    }
    Some(sendable)
}

/// How much is explained, by an answer, and what could have been sent then.
fn answer_of(text: &str) -> Option<(Explained, Option<Sendable>)> {
    match text {
        "whole" => Some((Explained::All { is_whole: true }, None)),
        "owes" => Some((Explained::All { is_whole: false }, None)),
        _ => {
            let (count, words) = text.split_once(": ")?;
            let count = count.parse::<usize>().ok()?;
            Some((Explained::Only(count), Some(sendable_of(words)?)))
        }
    }
}

/// What is found of an exchange.
fn found(
    alloc: Global,
    config: &Config,
    exchange: &Exchange<'_, 'static>,
    within: u16,
) -> Option<(Explained, Option<Sendable>)> {
    let explained = explained_count(alloc, config, exchange, within).ok()?;
    let Explained::Only(before) = explained else {
        return Some((explained, None));
    };
    let sendable = sendable_instead(alloc, config, exchange, within, before).ok()?;
    Some((explained, sendable))
}

/// Whether a case is answered so, over a connection that this side opened.
fn is_so(alloc: Global, case: &Case, opened_by: Side) -> Option<bool> {
    let (within, delays) = case.settings.split_once(' ')?;
    let config = router_a(delays == "delays")?;
    let received = messages_of(alloc, case.received, Side::Peer)?;
    let sent = messages_of(alloc, case.sent, Side::Local)?;
    let end = if case.end == "-" {
        None
    } else {
        Some(end_of(alloc, case.end)?)
    };
    let exchange = Exchange {
        opened_by,
        packet: 1,
        second: 100,
        micro: None,
        received: &received,
        sent: &sent,
        end,
    };
    let within = within.parse::<u16>().ok()?;
    Some(found(alloc, &config, &exchange, within)? == answer_of(case.answer)?)
}

/// Whether all of them have, asked from both sides.
fn are_so(alloc: Global, cases: &[Case]) -> bool {
    for case in cases {
        if is_so(alloc, case, Side::Peer) != Some(true) {
            return false;
        }
        if is_so(alloc, case, Side::Local) != Some(true) {
            return false;
        }
    }
    true
}

#[test]
fn the_first_exchanges_have_their_answers(rt: HostRuntime) {
    assert!(rt; are_so(rt.alloc(), &FIRST));
}

#[test]
fn the_second_exchanges_have_their_answers(rt: HostRuntime) {
    assert!(rt; are_so(rt.alloc(), &SECOND));
}

#[test]
fn the_third_exchanges_have_their_answers(rt: HostRuntime) {
    assert!(rt; are_so(rt.alloc(), &THIRD));
}

#[test]
fn the_fourth_exchanges_have_their_answers(rt: HostRuntime) {
    assert!(rt; are_so(rt.alloc(), &FOURTH));
}

#[test]
fn the_fifth_exchanges_have_their_answers(rt: HostRuntime) {
    assert!(rt; are_so(rt.alloc(), &FIFTH));
}

#[test]
fn the_sixth_exchanges_have_their_answers(rt: HostRuntime) {
    assert!(rt; are_so(rt.alloc(), &SIXTH));
}

#[test]
fn the_seventh_exchanges_have_their_answers(rt: HostRuntime) {
    assert!(rt; are_so(rt.alloc(), &SEVENTH));
}
