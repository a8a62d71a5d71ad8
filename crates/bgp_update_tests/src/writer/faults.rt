//! What keeps an UPDATE from being written, and which fault is answered where there are several.

use super::*;

const V4: Families = Families {
    v4: true,
    v6: false,
};

const V6: Families = Families {
    v4: false,
    v6: true,
};

/// A prefix of each family.
const OF_BOTH: &[(usize, &str)] = &[(1, "10.0.0.0/8"), (1, "2001:db8::/32")];

/// The announcement of no prefix, which is refused as not clean.
const NOT_CLEAN: Row<'static> = Row {
    prefixes: &[],
    wanted: Wanted::Fault(UpdateFault::NotClean),
    ..ANNOUNCE
};

/// The same to an internal peer, which is written: 43 octets and an attribute of 7.
const INTERNAL: Row<'static> = Row {
    internal: true,
    wanted: Wanted::Length(50),
    ..NOT_CLEAN
};

const WITH_PREFERENCE: Said<'static> = Said {
    local_pref: Some(100),
    ..BY_V4
};

const REFLECTED: Said<'static> = Said {
    originator_id: Some(1),
    ..BY_V4
};

const IN_CLUSTER: Said<'static> = Said {
    cluster_list: &[1],
    ..BY_V4
};

const WITH_A_REPEAT: Said<'static> = Said {
    large_communities: &[LARGE, LATER, LARGE],
    ..BY_V4
};

/// 65002:1:3
const LATER: LargeCommunity = LargeCommunity {
    local_data_part_2: 3,
    ..LARGE
};

static ROWS: [Row<'static>; 23] = [
    // A family that isn't in use.
    Row {
        lesson: "the family is told before a prefix and a next hop that aren't of it",
        families: V4,
        family: Family::V6,
        wanted: Wanted::Fault(UpdateFault::FamilyNotInUse),
        ..ANNOUNCE
    },
    Row {
        lesson: "the family is told before a withdrawn prefix that isn't of it",
        families: V4,
        family: Family::V6,
        wanted: Wanted::Fault(UpdateFault::FamilyNotInUse),
        ..WITHDRAW
    },
    Row {
        lesson: "IPv4 isn't in use",
        families: V6,
        wanted: Wanted::Fault(UpdateFault::FamilyNotInUse),
        ..WITHDRAW
    },
    // What is of the other family.
    Row {
        lesson: "an IPv6 prefix in a withdrawal of IPv4",
        path: None,
        prefixes: OF_BOTH,
        ..NOT_CLEAN
    },
    Row {
        lesson: "an IPv4 prefix in a withdrawal of IPv6",
        path: None,
        family: Family::V6,
        prefixes: OF_BOTH,
        ..NOT_CLEAN
    },
    Row {
        lesson: "an IPv6 prefix in an announcement of IPv4",
        prefixes: OF_BOTH,
        ..NOT_CLEAN
    },
    Row {
        lesson: "an IPv6 next hop for IPv4, without a prefix",
        path: Some(BY_V6),
        ..NOT_CLEAN
    },
    Row {
        lesson: "two IPv6 next hops for IPv4, without a prefix",
        path: Some(Said {
            next_hop: NextHop::V6WithLinkLocal(1, 2),
            ..BY_V4
        }),
        ..NOT_CLEAN
    },
    Row {
        lesson: "an IPv4 next hop for IPv6, without a prefix",
        family: Family::V6,
        ..NOT_CLEAN
    },
    // An external peer is sent no attribute that it discards.
    Row {
        lesson: "LOCAL_PREF to an external peer",
        path: Some(WITH_PREFERENCE),
        ..NOT_CLEAN
    },
    Row {
        lesson: "LOCAL_PREF to an internal peer",
        path: Some(WITH_PREFERENCE),
        ..INTERNAL
    },
    Row {
        lesson: "ORIGINATOR_ID to an external peer",
        path: Some(REFLECTED),
        ..NOT_CLEAN
    },
    Row {
        lesson: "ORIGINATOR_ID to an internal peer",
        path: Some(REFLECTED),
        ..INTERNAL
    },
    Row {
        lesson: "CLUSTER_LIST to an external peer",
        path: Some(IN_CLUSTER),
        ..NOT_CLEAN
    },
    Row {
        lesson: "CLUSTER_LIST to an internal peer",
        path: Some(IN_CLUSTER),
        ..INTERNAL
    },
    // No peer is sent a large community twice.
    Row {
        lesson: "a large community twice to an external peer",
        path: Some(WITH_A_REPEAT),
        ..NOT_CLEAN
    },
    Row {
        lesson: "a large community twice to an internal peer",
        path: Some(WITH_A_REPEAT),
        internal: true,
        ..NOT_CLEAN
    },
    // Prefixes with path identifiers aren't written yet.
    Row {
        lesson: "prefixes of IPv4 are sent with path identifiers",
        identified: V4,
        wanted: Wanted::Fault(UpdateFault::NotClean),
        ..ANNOUNCE
    },
    Row {
        lesson: "they are withdrawn with path identifiers",
        identified: V4,
        wanted: Wanted::Fault(UpdateFault::NotClean),
        ..WITHDRAW
    },
    Row {
        lesson: "prefixes of IPv6 alone are sent with path identifiers",
        identified: V6,
        ..ANNOUNCE
    },
    Row {
        lesson: "the family is told before path identifiers",
        families: V6,
        identified: V4,
        wanted: Wanted::Fault(UpdateFault::FamilyNotInUse),
        ..ANNOUNCE
    },
    // What is not clean is told before what is too large.
    Row {
        lesson: "4096 IPv6 prefixes in a withdrawal of IPv4",
        path: None,
        prefixes: &[(4096, "2001:db8::/32")],
        ..NOT_CLEAN
    },
    Row {
        lesson: "4096 IPv6 prefixes in a withdrawal",
        family: Family::V6,
        prefixes: &[(4096, "2001:db8::/32")],
        wanted: Wanted::Fault(UpdateFault::TooLarge),
        ..WITHDRAW
    },
];

#[test]
fn updates_are_refused(rt: HostRuntime) {
    for row in &ROWS {
        assert!(rt; is_told(rt.alloc(), row), "{}", row.lesson);
    }
}

/// Each fault, its number and its text.
static TEXTS: [(UpdateFault, u8, &str); 4] = [
    (
        UpdateFault::TooLarge,
        1,
        "the UPDATE would have more octets than a message may have",
    ),
    (
        UpdateFault::FamilyNotInUse,
        2,
        "the session exchanges no routes of this family",
    ),
    (
        UpdateFault::NotClean,
        3,
        "the peer would not take the UPDATE as it is meant",
    ),
    (UpdateFault::Memory, 4, "out of memory"),
];

/// Whether a fault has this text.
fn is_text(alloc: Global, fault: UpdateFault, text: &str) -> bool {
    match format!(in alloc; "{fault}") {
        Ok(told) => told.as_str() == text,
        Err(_) => false,
    }
}

#[test]
fn faults_have_their_numbers_and_texts(rt: HostRuntime) {
    for (fault, number, text) in &TEXTS {
        assert!(rt;
            fault.number() == *number && is_text(rt.alloc(), *fault, text),
            "{text}"
        );
    }
}
