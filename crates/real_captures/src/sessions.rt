//! The UPDATEs of the streams: whether each is one that a speaker may send on its link.

use bgp_open::{Config, ConfigParts, Link, negotiate, read_open};
use bgp_update::is_clean;
use bgp_vectors::SPEAKER_A;
use bgp_wire::{Frames, Limit, MessageType, Next};
use std::alloc::Global;
use std::rt::Files;
use std::{fs, io};

/// One end of a session: its AS number, and whether it sends the capability of four-octet ones.
#[derive(Clone, Copy)]
struct End {
    as_number: u32,
    as4: bool,
}

const A: End = End {
    as_number: 65001,
    as4: true,
};

const A_WITHOUT_AS4: End = End {
    as_number: 65001,
    as4: false,
};

const B: End = End {
    as_number: 65002,
    as4: true,
};

/// A stream, the end that receives it, and the one that sends it.
static DIRECTIONS: [(&str, End, End); 14] = [
    ("as-trans.a-to-b.bgp", B, A_WITHOUT_AS4),
    ("as-trans.b-to-a.bgp", A_WITHOUT_AS4, B),
    ("bad-as-frr.a-to-b.bgp", B, A),
    ("bad-as-frr.b-to-a.bgp", A, B),
    ("bird-frr.a-to-b.bgp", B, A),
    ("bird-frr.b-to-a.bgp", A, B),
    ("hold0.a-to-b.bgp", B, A),
    ("hold0.b-to-a.bgp", A, B),
    ("openbgpd-gobgp.a-to-b.bgp", B, A),
    ("openbgpd-gobgp.b-to-a.bgp", A, B),
    ("refresh.a-to-b.bgp", B, A),
    ("refresh.b-to-a.bgp", A, B),
    ("transport6.a-to-b.bgp", B, A),
    ("transport6.b-to-a.bgp", A, B),
];

/// Prints for each stream how many UPDATEs it has, and how many of them are clean. Answers whether
/// all are.
pub(crate) fn print_sessions<R: Files + Print + AllocGlobal>(rt: &R) -> io::Result<bool> {
    let mut all = true;
    for (name, to, from) in &DIRECTIONS {
        let Some(config) = config(*to, *from) else {
            return Ok(false);
        };
        let (updates, clean) = count_updates(rt, name, &config)?;
        println!(rt; "{name}: {updates} updates, {clean} clean")?;
        all &= updates == clean;
    }
    Ok(all)
}

/// What an end is configured to, where it expects the other.
fn config_of(local_as: u32, peer_as: u32, as4: bool) -> Option<Config> {
    Config::new(ConfigParts {
        local_as,
        peer_as,
        as4,
        ..SPEAKER_A
    })
}

/// What the end that receives a stream is configured to.
fn config(to: End, from: End) -> Option<Config> {
    config_of(to.as_number, from.as_number, to.as4)
}

/// How many UPDATEs a stream has, and how many of them are clean on the link that its OPEN settles.
fn count_updates<R: Files + AllocGlobal>(
    rt: &R,
    name: &str,
    config: &Config,
) -> io::Result<(u64, u64)> {
    let path = format!(in rt.alloc(); "streams/{name}")?;
    let octets = fs::read(rt, path.as_str())?;
    count_among(rt.alloc(), &octets, config)
}

/// How many UPDATEs are among the messages of a stream, and how many of them are clean.
fn count_among(alloc: Global, octets: &[u8], config: &Config) -> io::Result<(u64, u64)> {
    let mut frames = Frames::new(alloc, Limit::Plain);
    frames.feed(octets)?;
    let mut link: Option<Link> = None;
    let (mut updates, mut clean) = (0u64, 0u64);
    for _ in 0..octets.len() {
        let Next::Frame(kind, frame) = frames.next() else {
            break;
        };
        match (kind, link) {
            (MessageType::Open, _) => {
                link = read_open(frame).ok().map(|open| negotiate(config, &open));
            }
            (MessageType::Update, Some(link)) => {
                updates = updates.saturating_add(1);
                if is_clean(&link, frame) {
                    clean = clean.saturating_add(1);
                }
            }
            (MessageType::Update, None) => updates = updates.saturating_add(1),
            _ => {}
        }
    }
    Ok((updates, clean))
}
