//! Configurations, as lines of tables tell them.

use bgp_open::{Config, ConfigParts, Families, RouteOffer};
use bgp_prefix::{Address, RouteRefresh, Session, read_address};
use std::alloc::{AllocError, Global};

/// The configuration that a line tells, if it tells one.
pub fn config_of(alloc: Global, line: &str) -> Result<Option<Config>, AllocError> {
    match parts_of(alloc, line)? {
        Some(parts) => Ok(Config::new(parts)),
        None => Ok(None),
    }
}

/// The parts of a configuration that a line tells, if it does:
///
/// ```text
/// 65001 65002 192.0.2.1 90 v4,v6 4 240 192.0.2.1 192.0.2.2 refresh plain
/// ```
///
/// The words are the AS numbers of the local system and its peer; its identifier, Hold Time and
/// families; how many octets an AS number has; the HoldTimer before the peer's OPEN; its address and
/// the peer's; `refresh` if a ROUTE-REFRESH may come and is refused, `skipped` if it is passed over,
/// a dash if none may come; and `extended` or `plain` messages. Behind them may stand what is
/// offered about routes, or a dash, and `delayed` if the OPEN may be.
pub fn parts_of(alloc: Global, line: &str) -> Result<Option<ConfigParts>, AllocError> {
    let words: Vec<&str> = line.split(' ').collect(alloc)?;
    Ok(parts_in(words.as_slice()))
}

/// The parts of a configuration that these words tell.
fn parts_in(words: &[&str]) -> Option<ConfigParts> {
    let [
        local_as,
        peer_as,
        id,
        hold,
        families,
        width,
        large_hold,
        rest @ ..,
    ] = words
    else {
        return None;
    };
    Some(ConfigParts {
        local_as: local_as.parse::<u32>().ok()?,
        peer_as: peer_as.parse::<u32>().ok()?,
        local_id: id_of(id)?,
        hold: hold.parse::<u16>().ok()?,
        families: families_of(families),
        as4: *width == "4",
        delay_open: rest.get(5).copied() == Some("delayed"),
        large_hold: large_hold.parse::<u32>().ok()?,
        session: session_in(rest)?,
        offers: offer_of(rest.get(4).copied())?,
    })
}

/// The session that these words tell.
fn session_in(words: &[&str]) -> Option<Session> {
    let [local, peer, refresh, limit, ..] = words else {
        return None;
    };
    Some(Session {
        peer: read_address(peer)?,
        local: read_address(local)?,
        refresh: refresh_of(refresh),
        extended: *limit == "extended",
    })
}

/// The identifier that is written as an address.
fn id_of(word: &str) -> Option<u32> {
    match read_address(word)? {
        Address::V4(id) => Some(id),
        Address::V6(_) => None,
    }
}

/// The families that are named, `v4`, `v6` or `v4,v6`; none by another word.
pub fn families_of(names: &str) -> Families {
    Families {
        v4: names == "v4" || names == "v4,v6",
        v6: names == "v6" || names == "v4,v6",
    }
}

/// What becomes of a ROUTE-REFRESH by this word.
fn refresh_of(word: &str) -> RouteRefresh {
    match word {
        "refresh" => RouteRefresh::Refused,
        "skipped" => RouteRefresh::PassedOver,
        _ => RouteRefresh::NotOffered,
    }
}

/// The offer about routes of a list of words with commas: nothing by a dash, and where there is no
/// list.
pub fn offer_of(list: Option<&str>) -> Option<RouteOffer> {
    let mut offer = RouteOffer::NOTHING;
    match list {
        None | Some("-") => {}
        Some(list) => {
            for word in list.split(',') {
                offer = offer_with(offer, word)?;
            }
        }
    }
    Some(offer)
}

/// The offer that a word of a list adds to another one.
fn offer_with(offer: RouteOffer, word: &str) -> Option<RouteOffer> {
    let RouteOffer {
        mut sends,
        mut receives,
        mut next_hops,
    } = offer;
    match word {
        "send-v4" => sends.v4 = true,
        "send-v6" => sends.v6 = true,
        "receive-v4" => receives.v4 = true,
        "receive-v6" => receives.v6 = true,
        "next-hops" => next_hops = true,
        _ => return None,
    }
    Some(RouteOffer {
        sends,
        receives,
        next_hops,
    })
}
