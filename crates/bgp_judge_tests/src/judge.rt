//! Captures of a session of two routers, A and B, with little memory, and what a reader tells of
//! them. Messages have the names of `bgp_wire::vectors`. (The verdicts on sessions are compared by
//! the program `real_captures`.)

mod captures;
pub(crate) mod memory;

use bgp_judge::{End, PlainTracker, Verdict, judge};
use bgp_machine::Fsm;
use bgp_open::{Config, Families};
use bgp_prefix::{Address, read_prefix};
use bgp_update::Destination;
use bgp_vectors::ROUTER_A;
use mrt::{FaultKind, MemSink, MemSource, Record, Sink, is_writable, write_record};
use std::alloc::{AllocError, Allocator, Global};

/// No family.
pub(crate) const NONE: Families = Families {
    v4: false,
    v6: false,
};

/// IPv6 alone.
pub(crate) const V6: Families = Families {
    v4: false,
    v6: true,
};

/// Router A.
pub(crate) fn router_a() -> Option<Config> {
    Config::new(ROUTER_A)
}

/// An end: the state, the disabled families and the prefixes of its routes, which have no
/// identifiers.
pub(crate) type Expected<'a> = (Fsm, Families, &'a [&'a str]);

/// Whether the destination is just the prefix of this text.
fn is_just(destination: Destination, text: &str) -> bool {
    match read_prefix(text) {
        Some(prefix) => destination.prefix == prefix && destination.path.is_none(),
        None => false,
    }
}

/// Whether an end is that.
fn is_end<A: Allocator>(end: &End<A>, (fsm, disabled, texts): &Expected<'_>) -> bool {
    let mut texts = texts.iter();
    for (destination, _) in end.rib.routes() {
        match texts.next() {
            Some(text) if is_just(destination, text) => {}
            _ => return false,
        }
    }
    texts.next().is_none() && end.fsm == *fsm && end.rib.disabled() == *disabled
}

/// Whether these are just the ends, in this order.
pub(crate) fn are_ends<A: Allocator>(ends: &[End<A>], expected: &[Expected<'_>]) -> bool {
    if ends.len() != expected.len() {
        return false;
    }
    for (end, wanted) in ends.iter().zip(expected) {
        if !is_end(end, wanted) {
            return false;
        }
    }
    true
}

/// Whether the record is written.
fn is_put(sink: &mut MemSink, config: &Config, record: &Record<'_>) -> bool {
    let session = &config.parts.session;
    sink.failures() < u64::MAX
        && is_writable(session, record)
        && write_record(sink, session, 65002, 65001, record).is_ok()
}

/// A capture of these records.
fn capture_of(alloc: Global, config: &Config, records: &[Record<'_>]) -> Option<Vec<u8>> {
    let mut sink = MemSink::new(alloc);
    for record in records {
        if !is_put(&mut sink, config, record) {
            return None;
        }
    }
    Some(sink.into_octets())
}
