//! What commands tell where memory is refused to what they do with a reader's octets.

use super::*;
use mrt::FromWrite;

/// Whether decoding a KEEPALIVE on a heap of this size is refused memory, which is told, and writes
/// nothing.
fn is_decoding_refused(alloc: Global, size: usize) -> Result<bool, AllocError> {
    let heap = LocalHeap::new(alloc, size)?;
    let mut sink = FromWrite::new(Vec::new(alloc));
    let octets: &[u8] = &KEEPALIVE;
    let outcome = decode_opened(PLAIN, &heap, "a", Ok(octets), &mut sink);
    let (file, octet) = ("a", 19);
    let is_told = outcome.note == Some(Note::OutOfMemory { file, octet });
    Ok(outcome.status == 4 && is_told && sink.into_inner().is_empty())
}

#[test]
fn refused_memory_is_told(rt: HostRuntime) {
    assert!(rt; is_decoding_refused(rt.alloc(), 16) == Ok(true));
}
