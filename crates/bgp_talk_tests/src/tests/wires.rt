//! A wire in memory by itself: what its calls answer.

use super::*;
use bgp_talk::ReadAnswer;
use mrt::Failed;

/// Octets, more than a buffer of these tests has room for, and a failure.
static READS: [MemRead<'static>; 2] = [MemRead::Bytes(b"abcde"), MemRead::Failed];

/// Whether a read gives the front of octets, and the others are gone, and the last answer repeats.
fn are_read(alloc: Global) -> bool {
    let mut buffer = *b"xyz";
    let mut wire = MemWire::new(alloc, &READS, &[]);
    wire.connect().is_ok()
        && wire.read(&mut buffer) == ReadAnswer::Bytes(3)
        && buffer == *b"abc"
        && wire.read(&mut buffer) == ReadAnswer::Failed
        && wire.read(&mut buffer) == ReadAnswer::Failed
        && wire.failures() == 2
}

/// Whether seconds are told, the last again and again, and 0 where there is none.
fn are_told(alloc: Global) -> bool {
    let mut wire = MemWire::new(alloc, &[], &[7, 5]);
    let mut still = MemWire::new(alloc, &[], &[]);
    wire.now() == 7 && wire.now() == 5 && wire.now() == 5 && still.now() == 0
}

/// Whether a wire without answers gives nothing, but for the read that fails.
fn is_read_upset(alloc: Global) -> bool {
    let mut buffer = [0; 3];
    let mut wire = MemWire::new(alloc, &[], &[]).upset_at(1, WireUpset::ReadFails);
    wire.connect().is_ok()
        && wire.read(&mut buffer) == ReadAnswer::Nothing
        && wire.read(&mut buffer) == ReadAnswer::Failed
        && wire.read(&mut buffer) == ReadAnswer::Nothing
        && wire.failures() == 1
}

/// Whether of three writes of `abc`, of two octets at most, the second is upset and answered so,
/// with so many failures.
fn is_write_upset(
    alloc: Global,
    (upset, answer, failures): &(WireUpset, Result<usize, Failed>, u64),
) -> bool {
    let mut wire = MemWire::new(alloc, &[], &[])
        .in_pieces_of(NonZeroUsize::new(2).unwrap_or(NonZeroUsize::MIN))
        .upset_at(1, *upset);
    wire.connect().is_ok()
        && wire.write(b"abc") == Ok(2)
        && wire.write(b"abc") == *answer
        && wire.write(b"abc") == Ok(2)
        && wire.failures() == *failures
        && wire.taken() == b"abab".as_slice()
}

/// Whether a wire that doesn't connect says so.
fn is_refused(alloc: Global) -> bool {
    let mut wire = MemWire::new(alloc, &[], &[]).upset_at(0, WireUpset::ConnectFails);
    wire.connect() == Err(Failed) && wire.failures() == 1
}

#[test]
fn a_wire_in_memory_answers_from_its_lists(rt: HostRuntime) {
    assert!(rt; are_read(rt.alloc()) && are_told(rt.alloc()));
}

#[test]
fn a_wire_in_memory_is_upset_once(rt: HostRuntime) {
    let is_so = is_write_upset(rt.alloc(), &(WireUpset::WriteFails, Err(Failed), 1))
        && is_write_upset(rt.alloc(), &(WireUpset::WriteTakesNothing, Ok(0), 0))
        && is_read_upset(rt.alloc())
        && is_refused(rt.alloc());
    assert!(rt; is_so);
}
