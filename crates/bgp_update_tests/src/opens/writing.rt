//! Messages are written.

use super::reading::{AS_65001, IPV4_UNICAST, IPV6_UNICAST, reads_as};
use super::*;
use bgp_open::{
    Capability, Notification, NotificationWriteFault, OpenFault, OpenWriteFault, read_notification,
    write_notification, write_open, write_own_open,
};
use bgp_wire::vectors::{ADMINISTRATIVE_SHUTDOWN, BAD_LENGTH_18, OPEN_A};
use linked_list_allocator::LocalHeap;
use std::alloc::{Allocator, Global};
use std::fmt::Display;

/// What is written.
#[derive(Drop)]
enum Message<'a> {
    /// An OPEN of this AS, Hold Time and identifier, with these capabilities.
    Open(u16, u16, u32, &'a [Capability<'a>]),
    Notification(Notification<'a>),
}

/// A message that is to be written.
#[derive(Drop)]
struct Row<'a> {
    lesson: &'static str,
    message: Message<'a>,
    /// The octets that it begins with and how many it has, or the number of its fault.
    wanted: Result<(&'static [u8], usize), u8>,
}

/// One capability whose value has so many octets.
macro_rules! long_capability {
    ($len:expr) => {
        &[Capability {
            code: 9,
            value: &[7; $len],
        }]
    };
}

/// The OPEN whose one capability fills its one parameter: 253 octets of it are capabilities.
const LONGEST_OPEN: Row<'static> = Row {
    lesson: "253 octets of capabilities",
    message: Message::Open(65002, 90, 0xc000_0202, long_capability!(251)),
    wanted: Ok((
        &[
            // marker
            255, 255, 255, 255, 255, 255, 255, 255, 255, 255, 255, 255, 255, 255, 255, 255, 0x01,
            0x1c, // Length: 284
            0x01, // Type: OPEN
            0x04, // version 4
            0xfd, 0xea, // My Autonomous System: 65002
            0x00, 0x5a, // Hold Time: 90
            0xc0, 0x00, 0x02, 0x02, // BGP Identifier: 192.0.2.2
            0xff, // Optional Parameters Length: 255
            0x02, 0xfd, // Capabilities, 253 octets
            0x09, 0xfb, // capability 9, 251 octets
            7, 7,
        ],
        284,
    )),
};

const LONGEST_NOTIFICATION: Row<'static> = Row {
    lesson: "4075 octets of data",
    message: Message::Notification(Notification {
        code: 6,
        subcode: 2,
        detail: &[7; 4075],
    }),
    wanted: Ok((&[], 4096)),
};

static WRITTEN: [Row<'static>; 11] = [
    Row {
        lesson: "router A's OPEN",
        message: Message::Open(
            65001,
            90,
            0xc000_0201,
            &[IPV4_UNICAST, IPV6_UNICAST, AS_65001],
        ),
        wanted: Ok((&OPEN_A, 49)),
    },
    Row {
        lesson: "an OPEN without capabilities has no parameter",
        message: Message::Open(65002, 30, 0xc000_0202, &[]),
        wanted: Ok((
            message![29, 1, 4, 0xfd, 0xea, 0x00, 0x1e, 192, 0, 2, 2, 0],
            29,
        )),
    },
    LONGEST_OPEN,
    Row {
        lesson: "252 octets are too many for a parameter",
        message: Message::Open(65001, 90, 0xc000_0201, long_capability!(252)),
        wanted: Err(1),
    },
    Row {
        lesson: "256 octets have no length",
        message: Message::Open(65001, 90, 0xc000_0201, long_capability!(256)),
        wanted: Err(1),
    },
    Row {
        lesson: "42 capabilities of four octets fill a parameter",
        message: Message::Open(65001, 90, 0xc000_0201, &[IPV4_UNICAST; 42]),
        wanted: Ok((&[], 283)),
    },
    Row {
        lesson: "43 don't",
        message: Message::Open(65001, 90, 0xc000_0201, &[IPV4_UNICAST; 43]),
        wanted: Err(1),
    },
    Row {
        lesson: "a NOTIFICATION with data",
        message: Message::Notification(Notification {
            code: 1,
            subcode: 2,
            detail: &[0x00, 0x12],
        }),
        wanted: Ok((&BAD_LENGTH_18, 23)),
    },
    Row {
        lesson: "a NOTIFICATION without",
        message: Message::Notification(Notification {
            code: 6,
            subcode: 2,
            detail: &[],
        }),
        wanted: Ok((&ADMINISTRATIVE_SHUTDOWN, 21)),
    },
    LONGEST_NOTIFICATION,
    Row {
        lesson: "4076 octets of data",
        message: Message::Notification(Notification {
            code: 6,
            subcode: 2,
            detail: &[7; 4076],
        }),
        wanted: Err(1),
    },
];

/// Appends a message, or tells the number of its fault.
fn write<A: Allocator>(message: &Message<'_>, out: &mut Vec<u8, A>) -> Option<u8> {
    match message {
        Message::Open(my_as, hold, id, capabilities) => {
            match write_open(*my_as, *hold, *id, capabilities, out) {
                Ok(()) => None,
                Err(fault) => Some(fault.number()),
            }
        }
        Message::Notification(notification) => match write_notification(notification, out) {
            Ok(()) => None,
            Err(fault) => Some(fault.number()),
        },
    }
}

/// Whether the octets are read as the message.
fn is_read(message: &Message<'_>, octets: &[u8]) -> bool {
    match message {
        Message::Open(my_as, hold, id, capabilities) => {
            reads_as(octets, (*my_as, *hold, *id), capabilities)
        }
        Message::Notification(notification) => read_notification(octets) == Some(*notification),
    }
}

/// Whether behind the octets 1 and 2 stand those that were to be written, or nothing for a fault.
fn stands_in(out: &[u8], row: &Row<'_>, fault: Option<u8>) -> bool {
    let [1, 2, octets @ ..] = out else {
        return false;
    };
    match (&row.wanted, fault) {
        (Ok((front, len)), None) => {
            octets.starts_with(front) && octets.len() == *len && is_read(&row.message, octets)
        }
        (Err(number), Some(fault)) => *number == fault && octets.is_empty(),
        _ => false,
    }
}

/// Whether what is wanted is written behind the octets 1 and 2.
fn is_written(alloc: Global, row: &Row<'_>) -> bool {
    let Ok(mut out) = Vec::from_slice(alloc, &[1, 2]) else {
        return false;
    };
    let fault = write(&row.message, &mut out);
    stands_in(&out, row, fault)
}

#[test]
fn messages_are_written_and_read_where_they_have_room(rt: HostRuntime) {
    for row in &WRITTEN {
        assert_row(&rt, is_written(rt.alloc(), row), row.lesson);
    }
}

/// Whether the message was written behind the octets 1 and 2 into a small heap. Where memory was
/// refused the vector has to be as before, and else there is no answer.
fn is_whole(heap: &LocalHeap, row: &Row<'_>) -> Option<bool> {
    let Ok(mut out) = Vec::from_slice(heap, &[1, 2]) else {
        return None;
    };
    let fault = write(&row.message, &mut out);
    let is_refused = fault == Some(2) && out.as_slice() == [1, 2].as_slice();
    if is_refused || stands_in(&out, row, fault) {
        Some(!is_refused)
    } else {
        None
    }
}

/// The same in a heap of so many octets.
fn is_whole_in(alloc: Global, size: usize, row: &Row<'_>) -> Option<bool> {
    match LocalHeap::new(alloc, size) {
        Ok(heap) => is_whole(&heap, row),
        Err(_) => None,
    }
}

static LONGEST: [Row<'static>; 2] = [LONGEST_OPEN, LONGEST_NOTIFICATION];

/// Whether a message is refused memory in small heaps, and whole in larger ones.
fn is_refused_and_whole(alloc: Global, row: &Row<'_>) -> bool {
    let (mut is_right, mut refused, mut whole) = (true, false, false);
    // Two octets have room in each heap.
    for step in 4usize..512 {
        match is_whole_in(alloc, 16 * step, row) {
            Some(true) => whole = true,
            Some(false) => refused = true,
            None => is_right = false,
        }
    }
    is_right && refused && whole
}

#[test]
fn a_message_that_is_refused_memory_leaves_the_vector(rt: HostRuntime) {
    for row in &LONGEST {
        assert!(rt; is_refused_and_whole(rt.alloc(), row));
    }
}

/// Whether a system that is configured so appended its OPEN.
fn appends_own<A: Allocator>(parts: &ConfigParts, out: &mut Vec<u8, A>) -> bool {
    match Config::new(*parts) {
        Some(config) => write_own_open(&config, out).is_ok(),
        None => false,
    }
}

/// Whether a heap that has room for two octets and not for an OPEN leaves the two.
fn keeps_two_octets(alloc: Global) -> bool {
    let Ok(heap) = LocalHeap::new(alloc, 64) else {
        return false;
    };
    let Ok(mut out) = Vec::from_slice(&heap, &[1, 2]) else {
        return false;
    };
    !appends_own(&ROUTER_A, &mut out) && out.as_slice() == [1, 2].as_slice()
}

#[test]
fn an_own_open_that_is_refused_memory_leaves_the_vector(rt: HostRuntime) {
    assert!(rt; keeps_two_octets(rt.alloc()));
}

/// Whether the value prints so.
fn prints(alloc: Global, value: &impl Display, text: &str) -> bool {
    match format!(in alloc; "{value}") {
        Ok(printed) => printed.as_str() == text,
        Err(_) => false,
    }
}

/// Whether faults of an OPEN that is read have their words.
fn are_open_faults(alloc: Global) -> bool {
    prints(alloc, &OpenFault::Malformed, "malformed OPEN message")
        && prints(alloc, &OpenFault::Version, "unsupported version number")
        && prints(
            alloc,
            &OpenFault::Parameter,
            "unsupported optional parameter",
        )
}

/// Whether faults of an OPEN that is written have their words and numbers.
fn are_open_write_faults(alloc: Global) -> bool {
    let (too_many, memory) = (OpenWriteFault::TooMany, OpenWriteFault::Memory);
    prints(
        alloc,
        &too_many,
        "too many capabilities for an OPEN message",
    ) && prints(alloc, &memory, "out of memory")
        && too_many.number() == 1
        && memory.number() == 2
}

/// And those of a NOTIFICATION.
fn are_notification_faults(alloc: Global) -> bool {
    let too_large = NotificationWriteFault::TooLarge;
    let memory = NotificationWriteFault::Memory;
    prints(
        alloc,
        &too_large,
        "the data of the NOTIFICATION are too large",
    ) && prints(alloc, &memory, "out of memory")
        && too_large.number() == 1
        && memory.number() == 2
}

#[test]
fn faults_have_their_words_and_numbers(rt: HostRuntime) {
    let alloc = rt.alloc();
    assert!(rt;
        are_open_faults(alloc) && are_open_write_faults(alloc) && are_notification_faults(alloc)
    );
}
