//! Lists of segments, and what is told of them, worked out by hand from the rules. What is refused
//! is in the tables of `real_recordings`.

use super::rows::*;
use streams::{Closing, End, Run, Side};

/// A list of segments, by their places in the table; the numbers of both SYNs, the peer's first;
/// which connection is asked for; and what it has.
pub struct Case {
    pub rows: &'static [usize],
    pub starts: (u32, u32),
    pub number: Option<usize>,
    pub received: &'static [Run],
    pub sent: &'static [Run],
    pub end: Option<End>,
}

/// So many octets that a packet gave in this second, as many milliseconds after it as its number.
macro_rules! run {
    ($count:literal, $packet:literal, $second:literal) => {
        Run {
            count: $count,
            packet: $packet,
            second: $second,
            micro: Some(1000 * $packet),
        }
    };
}

/// The segments of one session in order, and those of a later one, too.
const IN_ORDER: &[usize] = &[T1, T2, T3, T4, T5, T6, T7, T8, T9];

pub const SEVERAL: &[usize] = &[
    T1, T2, T3, T4, T5, T6, T7, T8, T9, T1_LATER, T2_LATER, T3_LATER, T4_LATER, T5_LATER, T6_LATER,
    T7_LATER, T8_LATER, T9_LATER,
];

/// What most cases have.
pub const STARTS: (u32, u32) = (1000, 5000);

const RECEIVED: &[Run] = &[run!(49, 4, 100), run!(19, 7, 101), run!(45, 8, 102)];

const SENT: &[Run] = &[run!(49, 5, 100), run!(19, 6, 100)];

const FIN_AT_10: Option<End> = Some(End {
    packet: 10,
    second: 103,
    micro: Some(10000),
    side: Side::Peer,
    closing: Closing::Fin,
});

const RST_AT_10: Option<End> = Some(End {
    packet: 10,
    second: 103,
    micro: Some(10000),
    side: Side::Peer,
    closing: Closing::Reset,
});

pub static CASES: [Case; 25] = [
    // In order.
    Case {
        rows: IN_ORDER,
        starts: STARTS,
        number: None,
        received: RECEIVED,
        sent: SENT,
        end: None,
    },
    // An answer passes after what answers it.
    Case {
        rows: &[T1, T2, T3, T4, T5, T7_BEFORE, T6_AFTER, T8, T9],
        starts: STARTS,
        number: None,
        received: &[run!(49, 4, 100), run!(19, 6, 101), run!(45, 8, 102)],
        sent: &[run!(49, 5, 100), run!(19, 7, 101)],
        end: None,
    },
    // Sequence numbers wrap.
    Case {
        rows: IN_ORDER,
        starts: (4294967290, 4294967295),
        number: None,
        received: RECEIVED,
        sent: SENT,
        end: None,
    },
    // Numbers wrap at half the range.
    Case {
        rows: IN_ORDER,
        starts: (2147483600, 2147483647),
        number: None,
        received: RECEIVED,
        sent: SENT,
        end: None,
    },
    // A segment in two parts, the second first, and whole again.
    Case {
        rows: &[T1, T2, T3, T4_BACK, T4_FRONT, T5, T6, T7, T8, T9, T4_AGAIN],
        starts: STARTS,
        number: None,
        received: &[
            run!(30, 5, 100),
            run!(19, 4, 100),
            run!(19, 8, 101),
            run!(45, 9, 102),
        ],
        sent: &[run!(49, 6, 100), run!(19, 7, 100)],
        end: None,
    },
    // Parts overlap while they wait.
    Case {
        rows: &[T1, T2, T3, T4_BACK, T4_MIDDLE, T4_FIRST, T5, T6, T7, T8, T9],
        starts: STARTS,
        number: None,
        received: &[
            run!(20, 6, 100),
            run!(10, 5, 100),
            run!(19, 4, 100),
            run!(19, 9, 101),
            run!(45, 10, 102),
        ],
        sent: &[run!(49, 7, 100), run!(19, 8, 100)],
        end: None,
    },
    // A part comes between what is known and what waits, and overlaps that.
    Case {
        rows: &[T1, T2, T3, T4_BACK, T4_FIRST, T4_MIDDLE, T5, T6, T7, T8, T9],
        starts: STARTS,
        number: None,
        received: &[
            run!(20, 5, 100),
            run!(10, 6, 100),
            run!(19, 4, 100),
            run!(19, 9, 101),
            run!(45, 10, 102),
        ],
        sent: &[run!(49, 7, 100), run!(19, 8, 100)],
        end: None,
    },
    // Parts overlap what is known.
    Case {
        rows: &[T1, T2, T3, T4_FRONT, T4_MIDDLE, T5, T6, T7, T8, T9],
        starts: STARTS,
        number: None,
        received: &[
            run!(30, 4, 100),
            run!(19, 5, 100),
            run!(19, 8, 101),
            run!(45, 9, 102),
        ],
        sent: &[run!(49, 6, 100), run!(19, 7, 100)],
        end: None,
    },
    // Another octet again, which was acknowledged.
    Case {
        rows: &[T1, T2, T3, T4, T5, T6, T7, T8, T9, T4_OTHER],
        starts: STARTS,
        number: None,
        received: RECEIVED,
        sent: SENT,
        end: None,
    },
    // An octet of garbage that keeps the connection alive.
    Case {
        rows: &[T1, T2, T3, T4, T5, T6, T7, T8, T9, KEEP_ALIVE],
        starts: STARTS,
        number: None,
        received: RECEIVED,
        sent: SENT,
        end: None,
    },
    // A FIN with octets that were acknowledged.
    Case {
        rows: &[T1, T2, T3, T4, T5, T6, T7, T8, T9, T8_FIN],
        starts: STARTS,
        number: None,
        received: RECEIVED,
        sent: SENT,
        end: FIN_AT_10,
    },
    // A FIN.
    Case {
        rows: &[T1, T2, T3, T4, T5, T6, T7, T8, T9, FIN],
        starts: STARTS,
        number: None,
        received: RECEIVED,
        sent: SENT,
        end: FIN_AT_10,
    },
    // A FIN before the last octets.
    Case {
        rows: &[T1, T2, T3, T4, T5, T6, T7, FIN_BEFORE, T8, T9],
        starts: STARTS,
        number: None,
        received: &[run!(49, 4, 100), run!(19, 7, 101), run!(45, 9, 102)],
        sent: SENT,
        end: Some(End {
            packet: 8,
            second: 101,
            micro: Some(8000),
            side: Side::Peer,
            closing: Closing::Fin,
        }),
    },
    // A FIN that is acknowledged.
    Case {
        rows: &[T1, T2, T3, T4, T5, T6, T7, T8, T9, FIN, FIN_ACKED],
        starts: STARTS,
        number: None,
        received: RECEIVED,
        sent: SENT,
        end: FIN_AT_10,
    },
    // An octet again after a RST.
    Case {
        rows: &[T1, T2, T3, T4, T5, T6, T7, T8, T9, RST, T8_AGAIN],
        starts: STARTS,
        number: None,
        received: RECEIVED,
        sent: SENT,
        end: RST_AT_10,
    },
    // A RST after a FIN, and a FIN after a RST: the first is the end.
    Case {
        rows: &[T1, T2, T3, T4, T5, T6, T7, T8, T9, FIN, RST],
        starts: STARTS,
        number: None,
        received: RECEIVED,
        sent: SENT,
        end: FIN_AT_10,
    },
    Case {
        rows: &[T1, T2, T3, T4, T5, T6, T7, T8, T9, RST, FIN],
        starts: STARTS,
        number: None,
        received: RECEIVED,
        sent: SENT,
        end: RST_AT_10,
    },
    // A RST acknowledges nothing.
    Case {
        rows: &[T1, T2, T3, T4, T5, T6, T7, T8, T9, RST_ACK],
        starts: STARTS,
        number: None,
        received: RECEIVED,
        sent: SENT,
        end: RST_AT_10,
    },
    // The SYN again.
    Case {
        rows: &[T1, T2, T3, T4, T5, T6, T7, T8, T9, T1_AGAIN],
        starts: STARTS,
        number: None,
        received: RECEIVED,
        sent: SENT,
        end: None,
    },
    // Another connection without octets.
    Case {
        rows: &[T1, T2, T3, T4, T5, T6, T7, T8, T9, OTHER_SYN],
        starts: STARTS,
        number: None,
        received: RECEIVED,
        sent: SENT,
        end: None,
    },
    // The first of several.
    Case {
        rows: SEVERAL,
        starts: STARTS,
        number: Some(1),
        received: RECEIVED,
        sent: SENT,
        end: None,
    },
    // The second of several.
    Case {
        rows: SEVERAL,
        starts: STARTS,
        number: Some(2),
        received: &[run!(49, 13, 110), run!(19, 16, 111), run!(45, 17, 112)],
        sent: &[run!(49, 14, 110), run!(19, 15, 110)],
        end: None,
    },
    // What follows half a connection.
    Case {
        rows: &[T4, T5, T6, T7, T8, T9, T1, T2, T3, T4, T5, T6, T7, T8, T9],
        starts: STARTS,
        number: Some(2),
        received: &[run!(49, 10, 100), run!(19, 13, 101), run!(45, 14, 102)],
        sent: &[run!(49, 11, 100), run!(19, 12, 100)],
        end: None,
    },
    // Both open at once.
    Case {
        rows: &[T1, OPENS_TOO, T3, T4, T5, T6, T7, T8, T9],
        starts: STARTS,
        number: None,
        received: RECEIVED,
        sent: SENT,
        end: None,
    },
    // A SYN that acknowledges, after another segment.
    Case {
        rows: &[T1, T3, T2, T4, T5, T6, T7, T8, T9],
        starts: STARTS,
        number: None,
        received: RECEIVED,
        sent: SENT,
        end: None,
    },
];
