//! What a reader tells once a capture was judged. (Faults are asked for by `real_captures`.)

use super::*;
use bgp_judge::judge_with;
use mrt::{Endpoints, Reader};

/// A change from Idle to Connect at second 100.
const CHANGE: [u8; 36] = [
    0, 0, 0, 100, // Timestamp
    0, 16, 0, 5, // BGP4MP, STATE_CHANGE_AS4
    0, 0, 0, 24, // Length
    0, 0, 0xfd, 0xea, 0, 0, 0xfd, 0xe9, // AS numbers: 65002, 65001
    0, 0, 0, 1, // interface index, AFI: IPv4
    192, 0, 2, 2, 192, 0, 2, 1, // addresses of the peer and of the local system
    0, 1, 0, 2, // old and new state
];

/// The same where the addresses are exchanged, so that it isn't the session's.
const EXCHANGED: [u8; 36] = [
    0, 0, 0, 100, // Timestamp
    0, 16, 0, 5, // BGP4MP, STATE_CHANGE_AS4
    0, 0, 0, 24, // Length
    0, 0, 0xfd, 0xea, 0, 0, 0xfd, 0xe9, // AS numbers: 65002, 65001
    0, 0, 0, 1, // interface index, AFI: IPv4
    192, 0, 2, 1, 192, 0, 2, 2, // addresses of the peer and of the local system
    0, 1, 0, 2, // old and new state
];

/// Its addresses.
const OTHER_ENDS: Option<Endpoints> = Some(Endpoints {
    peer: Address::V4(0xc000_0201),
    local: Address::V4(0xc000_0202),
});

/// [`CHANGE`], and then [`EXCHANGED`].
const BOTH: [u8; 72] = [
    0, 0, 0, 100, 0, 16, 0, 5, 0, 0, 0, 24, 0, 0, 0xfd, 0xea, 0, 0, 0xfd, 0xe9, 0, 0, 0, 1, //
    192, 0, 2, 2, 192, 0, 2, 1, 0, 1, 0, 2, //
    0, 0, 0, 100, 0, 16, 0, 5, 0, 0, 0, 24, 0, 0, 0xfd, 0xea, 0, 0, 0xfd, 0xe9, 0, 0, 0, 1, //
    192, 0, 2, 1, 192, 0, 2, 2, 0, 1, 0, 2,
];

/// A capture, whether a record of it is the session's, and the addresses of the first other one.
static ROWS: [(&[u8], bool, Option<Endpoints>); 4] = [
    (&[], false, None),
    (&CHANGE, true, None),
    (&EXCHANGED, false, OTHER_ENDS),
    (&BOTH, true, OTHER_ENDS),
];

/// Whether a capture is judged, and its reader has found this: whether a record is the session's,
/// and the ends of another one that it skipped first.
fn has_found(
    alloc: Global,
    (capture, is_shown, other): &(&[u8], bool, Option<Endpoints>),
) -> Option<bool> {
    let config = router_a()?;
    let mut source = MemSource::new(Vec::from_slice(alloc, capture).ok()?);
    let mut reader = Reader::new(alloc);
    let judged = judge_with::<_, PlainTracker, _>(&mut reader, alloc, &config, &mut source);
    let is_found = reader.has_answered() == *is_shown && reader.first_other() == *other;
    Some(judged.is_ok() && is_found)
}

#[test]
fn a_reader_tells_what_it_found(rt: HostRuntime) {
    for row in &ROWS {
        assert!(rt; has_found(rt.alloc(), row) == Some(true));
    }
}
