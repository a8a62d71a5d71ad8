//! Remarks that no recording here leads to: a record and a sent message whose number is the
//! greatest, what is unfinished with too many orders to look at, a connection that is refused for
//! its link, and memory. (The others are notes of cases of `real_recordings`.)

use bgp_import::{Help, Refusal};
use bgp_recording_tool::{Remark, RemarkKind};
use segments::PacketFault;
use std::alloc::Global;

/// What there is to tell, with its sentence.
static REMARKS: [(Option<usize>, RemarkKind, &str); 5] = [
    (
        Some(2),
        RemarkKind::No {
            before: u64::MAX,
            packet: u64::MAX,
            within: 1,
        },
        "connection 2: no at record 18446744073709551616: packet 18446744073709551615 shows it; \
         this is about one order of the messages that these packets allow if each is handled \
         within 1 s (--within)",
    ),
    (
        Some(2),
        RemarkKind::NoOrder {
            before: usize::MAX,
            packet: u64::MAX,
            within: 1,
        },
        "connection 2: no at packet 18446744073709551615: it shows sent message \
         18446744073709551616; no order that these packets allow within 1 s explains it",
    ),
    (
        Some(2),
        RemarkKind::OneOrder { within: 65535 },
        "connection 2: unfinished: this is about one order of the messages that these packets \
         allow if each is handled within 65535 s (--within)",
    ),
    (
        Some(2),
        RemarkKind::Refused(Help {
            refusal: Refusal::Packet {
                fault: PacketFault::Link(105),
                packet: 1,
            },
        }),
        "connection 2: link type 105 isn't read (Ethernet, Linux cooked, loopback and raw IP \
         are): record by tcpdump -i any on a Linux system",
    ),
    (
        None,
        RemarkKind::Refused(Help {
            refusal: Refusal::Memory { packet: 3 },
        }),
        "all connections of the session are held whole: try a file of fewer packets, or more \
         memory",
    ),
];

/// Whether a remark has its words.
fn has_words(alloc: Global, connection: Option<usize>, kind: RemarkKind, words: &str) -> bool {
    match format!(in alloc; "{}", Remark { connection, kind }) {
        Ok(told) => told.as_str() == words,
        Err(_) => false,
    }
}

/// Whether each of them has.
fn have_words(alloc: Global) -> bool {
    for (connection, kind, words) in &REMARKS {
        if !has_words(alloc, *connection, *kind, words) {
            return false;
        }
    }
    true
}

#[test]
fn each_remark_has_its_words(rt: HostRuntime) {
    assert!(rt; have_words(rt.alloc()));
}
