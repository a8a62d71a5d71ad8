//! What a core may be told next, by the state that it is in.

use bgp_machine::Fsm;
use bgp_wire::vectors::{
    ADMINISTRATIVE_SHUTDOWN, ANNOUNCES_10, ANNOUNCES_2001_DB8, KEEPALIVE, KEEPALIVE_OF_18,
    MED_TWICE, MP_REACH_FOR_IPV4, MP_REACH_TRANSITIVE, MP_UNREACH_TWICE, NEXT_HOP_OF_5, OPEN_A,
    OPEN_B, OPEN_B_HOLD_0, OPEN_WITH_ROUTE_REFRESH, OPEN_WITHOUT_PARAMETERS, ORIGIN_OF_3,
};

/// What a core is told; which prefix is left to chance.
#[derive(Clone, Copy)]
pub(crate) enum Told {
    Start,
    Passive,
    Stop,
    Connected,
    Failed,
    Bytes(&'static [u8]),
    Tick,
    Announce,
    Withdraw,
}

/// What a state is told: some that keep or bring up a session, and others.
pub(crate) type Moves = (&'static [Told], &'static [Told]);

static OF_IDLE: Moves = (
    &[Told::Start, Told::Passive, Told::Announce],
    &[
        Told::Stop,
        Told::Connected,
        Told::Failed,
        Told::Bytes(&OPEN_B),
        Told::Tick,
        Told::Withdraw,
    ],
);

static OF_CONNECT_AND_ACTIVE: Moves = (
    &[Told::Connected, Told::Connected, Told::Announce],
    &[
        Told::Start,
        Told::Passive,
        Told::Stop,
        Told::Failed,
        Told::Bytes(&OPEN_B),
        Told::Tick,
        Told::Withdraw,
    ],
);

static OF_OPENSENT: Moves = (
    &[
        Told::Bytes(&OPEN_B),
        Told::Bytes(&OPEN_B),
        Told::Bytes(&OPEN_B_HOLD_0),
        Told::Bytes(&OPEN_WITHOUT_PARAMETERS),
        Told::Bytes(&OPEN_WITH_ROUTE_REFRESH),
        Told::Tick,
    ],
    &[
        Told::Start,
        Told::Stop,
        Told::Connected,
        Told::Failed,
        Told::Bytes(&OPEN_A),
        Told::Bytes(&KEEPALIVE),
        Told::Bytes(&KEEPALIVE_OF_18),
        Told::Bytes(&ANNOUNCES_10),
        Told::Bytes(&ADMINISTRATIVE_SHUTDOWN),
    ],
);

static OF_OPENCONFIRM: Moves = (
    &[
        Told::Bytes(&KEEPALIVE),
        Told::Bytes(&KEEPALIVE),
        Told::Bytes(&OPEN_B),
        Told::Tick,
        Told::Announce,
    ],
    &[
        Told::Passive,
        Told::Stop,
        Told::Connected,
        Told::Failed,
        Told::Bytes(&OPEN_A),
        Told::Bytes(&KEEPALIVE_OF_18),
        Told::Bytes(&ANNOUNCES_10),
        Told::Bytes(&ADMINISTRATIVE_SHUTDOWN),
    ],
);

static OF_ESTABLISHED: Moves = (
    &[
        Told::Bytes(&KEEPALIVE),
        Told::Bytes(&OPEN_B),
        Told::Bytes(&ANNOUNCES_10),
        Told::Bytes(&ANNOUNCES_10),
        Told::Bytes(&ANNOUNCES_2001_DB8),
        Told::Bytes(&ANNOUNCES_2001_DB8),
        Told::Bytes(&ORIGIN_OF_3),
        Told::Bytes(&MED_TWICE),
        Told::Bytes(&NEXT_HOP_OF_5),
        Told::Bytes(&MP_REACH_TRANSITIVE),
        Told::Bytes(&MP_REACH_FOR_IPV4),
        Told::Tick,
        Told::Announce,
        Told::Withdraw,
    ],
    &[
        Told::Start,
        Told::Stop,
        Told::Connected,
        Told::Failed,
        Told::Bytes(&OPEN_A),
        Told::Bytes(&KEEPALIVE_OF_18),
        Told::Bytes(&MP_UNREACH_TWICE),
        Told::Bytes(&ADMINISTRATIVE_SHUTDOWN),
    ],
);

/// Those of a state.
pub(crate) fn moves_of(fsm: Fsm) -> Moves {
    match fsm {
        Fsm::Idle => OF_IDLE,
        Fsm::Connect | Fsm::Active => OF_CONNECT_AND_ACTIVE,
        Fsm::OpenSent => OF_OPENSENT,
        Fsm::OpenConfirm => OF_OPENCONFIRM,
        Fsm::Established => OF_ESTABLISHED,
    }
}
