//! Texts of routes. (How they print is compared by the program `real_captures`.)

use crate::writer::{BY_V4, path_of};
use bgp_path::Path;
use bgp_prefix::read_prefix;
use bgp_text::write_route;
use bgp_update::Destination;
use mrt::{MemSink, Sink, SinkUpset};
use std::alloc::Global;

/// Whether a sink that fails takes nothing of a route, and its failure is told.
fn tells_failure(alloc: Global, destination: Destination, path: &Path) -> bool {
    let mut sink = MemSink::new(alloc).upset_at(0, SinkUpset::Fail);
    write_route(&mut sink, destination, path).is_err()
        && sink.octets().is_empty()
        && sink.failures() == 1
}

#[test]
fn a_route_tells_that_its_sink_failed(rt: HostRuntime) {
    let is_told = match (read_prefix("10.0.0.0/8"), path_of(rt.alloc(), &BY_V4)) {
        (Some(prefix), Ok(path)) => tells_failure(rt.alloc(), Destination::plain(prefix), &path),
        _ => false,
    };
    assert!(rt; is_told);
}
