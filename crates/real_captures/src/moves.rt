//! What the records of a session show next, by the state that they have come to.

use crate::messages::{
    ANNOUNCES_11_AND_12, MALFORMED_ATTRIBUTE_LIST, UNEXPECTED_IN_OPENCONFIRM,
    UNEXPECTED_IN_OPENSENT, WITHDRAWS_10_AND_12, WITHDRAWS_2001_DB8,
};
use bgp_machine::Fsm;
use bgp_prefix::Seconds;
use bgp_wire::vectors::{
    ADMINISTRATIVE_SHUTDOWN, ANNOUNCES_10, ANNOUNCES_2001_DB8, BAD_LENGTH_18,
    BAD_LENGTH_WITHOUT_DATA, HOLD_TIMER_EXPIRED, INVALID_ORIGIN, KEEPALIVE, KEEPALIVE_OF_18,
    MED_TWICE, MP_REACH_FOR_IPV4, MP_REACH_TRANSITIVE, MP_UNREACH_TWICE, NEXT_HOP_OF_5, OPEN_A,
    OPEN_B, OPEN_B_HOLD_0, OPTIONAL_ATTRIBUTE_ERROR, ORIGIN_OF_3,
};
use mrt::Record::{self, Change, In, Out};

/// So many seconds of silence, records of one second, and the state that they lead to. The seconds
/// of the records themselves aren't used.
pub(crate) type Move = (Seconds, &'static [Record<'static>], Fsm);

/// Moves of a state: some that keep or bring up a session, and others.
pub(crate) type Moves = (&'static [Move], &'static [Move]);

static OF_IDLE: Moves = (
    &[
        (0, &[Change(0, 1, 2)], Fsm::Connect),
        (0, &[Change(0, 1, 3)], Fsm::Active),
    ],
    &[
        (0, &[In(0, &KEEPALIVE)], Fsm::Idle),
        (0, &[Out(0, &KEEPALIVE)], Fsm::Idle),
        (0, &[Change(0, 1, 4)], Fsm::OpenSent),
    ],
);

static OF_CONNECT: Moves = (
    &[
        (0, &[Out(0, &OPEN_A), Change(0, 2, 4)], Fsm::OpenSent),
        (0, &[Change(0, 2, 4), Out(0, &OPEN_A)], Fsm::OpenSent),
        (
            0,
            &[
                In(0, &OPEN_B),
                Out(0, &OPEN_A),
                Out(0, &KEEPALIVE),
                Change(0, 2, 5),
            ],
            Fsm::OpenConfirm,
        ),
        (
            0,
            &[
                In(0, &OPEN_B),
                Change(0, 2, 5),
                Out(0, &OPEN_A),
                Out(0, &KEEPALIVE),
            ],
            Fsm::OpenConfirm,
        ),
    ],
    &[
        (0, &[Change(0, 2, 3)], Fsm::Active),
        (0, &[Change(0, 2, 1)], Fsm::Idle),
        (0, &[In(0, &KEEPALIVE), Change(0, 2, 1)], Fsm::Idle),
        (0, &[Out(0, &OPEN_B), Change(0, 2, 4)], Fsm::OpenSent),
    ],
);

static OF_ACTIVE: Moves = (
    &[
        (0, &[Out(0, &OPEN_A), Change(0, 3, 4)], Fsm::OpenSent),
        (0, &[Change(0, 3, 4), Out(0, &OPEN_A)], Fsm::OpenSent),
        (0, &[Change(0, 3, 2)], Fsm::Connect),
    ],
    &[
        (0, &[Change(0, 3, 1)], Fsm::Idle),
        (
            0,
            &[In(0, &ADMINISTRATIVE_SHUTDOWN), Change(0, 3, 1)],
            Fsm::Idle,
        ),
        (0, &[Change(0, 2, 4)], Fsm::OpenSent),
    ],
);

static OF_OPENSENT: Moves = (
    &[
        (
            0,
            &[In(0, &OPEN_B), Out(0, &KEEPALIVE), Change(0, 4, 5)],
            Fsm::OpenConfirm,
        ),
        (
            0,
            &[In(0, &OPEN_B), Change(0, 4, 5), Out(0, &KEEPALIVE)],
            Fsm::OpenConfirm,
        ),
        (
            0,
            &[In(0, &OPEN_B_HOLD_0), Out(0, &KEEPALIVE), Change(0, 4, 5)],
            Fsm::OpenConfirm,
        ),
    ],
    &[
        (0, &[Change(0, 4, 3)], Fsm::Active),
        (
            0,
            &[Out(0, &ADMINISTRATIVE_SHUTDOWN), Change(0, 4, 1)],
            Fsm::Idle,
        ),
        (
            0,
            &[
                In(0, &KEEPALIVE_OF_18),
                Out(0, &BAD_LENGTH_18),
                Change(0, 4, 1),
            ],
            Fsm::Idle,
        ),
        (
            0,
            &[
                In(0, &KEEPALIVE_OF_18),
                Change(0, 4, 1),
                Out(0, &BAD_LENGTH_WITHOUT_DATA),
            ],
            Fsm::Idle,
        ),
        (
            0,
            &[
                In(0, &KEEPALIVE),
                Change(0, 4, 1),
                Out(0, &UNEXPECTED_IN_OPENSENT),
            ],
            Fsm::Idle,
        ),
        (0, &[In(0, &OPEN_B), Change(0, 4, 5)], Fsm::OpenConfirm),
    ],
);

static OF_OPENCONFIRM: Moves = (
    &[
        (0, &[In(0, &KEEPALIVE), Change(0, 5, 6)], Fsm::Established),
        (0, &[Out(0, &KEEPALIVE)], Fsm::OpenConfirm),
    ],
    &[
        (
            0,
            &[In(0, &ADMINISTRATIVE_SHUTDOWN), Change(0, 5, 1)],
            Fsm::Idle,
        ),
        (
            0,
            &[
                In(0, &OPEN_B),
                Out(0, &ADMINISTRATIVE_SHUTDOWN),
                Change(0, 5, 1),
            ],
            Fsm::Idle,
        ),
        (
            0,
            &[
                In(0, &ANNOUNCES_10),
                Out(0, &UNEXPECTED_IN_OPENCONFIRM),
                Change(0, 5, 1),
            ],
            Fsm::Idle,
        ),
        (
            90,
            &[Change(0, 5, 1), Out(0, &HOLD_TIMER_EXPIRED)],
            Fsm::Idle,
        ),
        (0, &[Change(0, 5, 6)], Fsm::Established),
    ],
);

static OF_ESTABLISHED: Moves = (
    &[
        (0, &[In(0, &ANNOUNCES_10)], Fsm::Established),
        (0, &[In(0, &ANNOUNCES_11_AND_12)], Fsm::Established),
        (0, &[In(0, &WITHDRAWS_10_AND_12)], Fsm::Established),
        (0, &[In(0, &ANNOUNCES_2001_DB8)], Fsm::Established),
        (0, &[In(0, &WITHDRAWS_2001_DB8)], Fsm::Established),
        (0, &[In(0, &ORIGIN_OF_3)], Fsm::Established),
        (0, &[In(0, &MED_TWICE)], Fsm::Established),
        (0, &[In(0, &NEXT_HOP_OF_5)], Fsm::Established),
        (0, &[In(0, &MP_REACH_TRANSITIVE)], Fsm::Established),
        (0, &[In(0, &MP_REACH_FOR_IPV4)], Fsm::Established),
        (0, &[In(0, &KEEPALIVE)], Fsm::Established),
        (0, &[Out(0, &KEEPALIVE)], Fsm::Established),
        (0, &[Out(0, &ANNOUNCES_10)], Fsm::Established),
    ],
    &[
        (0, &[Change(0, 6, 1)], Fsm::Idle),
        (
            0,
            &[In(0, &ADMINISTRATIVE_SHUTDOWN), Change(0, 6, 1)],
            Fsm::Idle,
        ),
        (
            0,
            &[Change(0, 6, 1), Out(0, &ADMINISTRATIVE_SHUTDOWN)],
            Fsm::Idle,
        ),
        (
            90,
            &[Out(0, &HOLD_TIMER_EXPIRED), Change(0, 6, 1)],
            Fsm::Idle,
        ),
        (
            80,
            &[Out(0, &HOLD_TIMER_EXPIRED), Change(0, 6, 1)],
            Fsm::Idle,
        ),
        (
            0,
            &[
                In(0, &MP_UNREACH_TWICE),
                Out(0, &MALFORMED_ATTRIBUTE_LIST),
                Change(0, 6, 1),
            ],
            Fsm::Idle,
        ),
        (
            0,
            &[
                In(0, &NEXT_HOP_OF_5),
                Change(0, 6, 1),
                Out(0, &OPTIONAL_ATTRIBUTE_ERROR),
            ],
            Fsm::Idle,
        ),
        (
            0,
            &[
                In(0, &ORIGIN_OF_3),
                Out(0, &INVALID_ORIGIN),
                Change(0, 6, 1),
            ],
            Fsm::Idle,
        ),
    ],
);

/// Those of a state.
pub(crate) fn moves_of(fsm: Fsm) -> Moves {
    match fsm {
        Fsm::Idle => OF_IDLE,
        Fsm::Connect => OF_CONNECT,
        Fsm::Active => OF_ACTIVE,
        Fsm::OpenSent => OF_OPENSENT,
        Fsm::OpenConfirm => OF_OPENCONFIRM,
        Fsm::Established => OF_ESTABLISHED,
    }
}
