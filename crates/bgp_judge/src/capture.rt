//! The verdict on one session of a capture (RFC 6396), read in one pass.

ghost use Rattle.std.specs.Prelude.{◌≡◌, ◌<◌, ◌+◌, []};
ghost use Rattle.mrt.specs.declared.fault.FaultKind.TheVariants.{Memory};
ghost use Rattle.mrt.specs.Progress.{failures_of};
ghost use Rattle.mrt.specs.Reader.{fresh_reader};
ghost use Rattle.bgp_judge.specs.Judging.{Follows, Judges, ReadsWith, fault_in};

use crate::judging::{advance, verdict_of};
use crate::tracker::Tracker;
use crate::verdict::Verdict;
use bgp_open::Config;
use mrt::{CaptureFault, FaultKind, Reader, Source};
use std::alloc::Allocator;

/// Returns the fault of refused memory at this octet.
fn out_of_memory(offset: u64) -> CaptureFault
    ensures { result ≡ record { kind = Memory; offset = offset } }
{
    CaptureFault {
        kind: FaultKind::Memory,
        offset,
    }
}

/// Reads the session's records to the end of the capture or to its first fault, and gives them to
/// the tracker up to the first impossible one. Returns how many records stand before that one.
fn follow<A: Allocator + Copy, T: Tracker<A>, S: Source>(
    tracker: &mut T,
    reader: &mut Reader<A>,
    config: &Config,
    source: &mut S,
) -> Result<Option<u64>, CaptureFault>
    requires stands { T.stands_for tracker.old config.now [] }
    requires fresh { reader.old ≡ fresh_reader }
    requires failures { S.failures source.old < u64.MAX }
    ensures follows { ReadsWith S.gives config.now.parts.session source.old source.new reader.new
        (fault_in result)
        (λ gives. Follows gives S.has_ended config.now source.old source.new T.may_lack
        (T.stands_for tracker.new) reader.new.place result) }
    ensures failures { S.failures source.new ≡ S.failures source.old + failures_of result }
{
    let mut impossible = None;
    let mut count: u64 = 0;
    loop {
        let advanced = match reader.next_record(source, &config.parts.session) {
            Ok(Some(shown)) => advance(tracker, impossible, count, &shown),
            Ok(None) => return Ok(impossible),
            Err(fault) => return Err(fault),
        };
        match advanced {
            Ok(first) => impossible = first,
            Err(_) => return Err(out_of_memory(reader.place())),
        }
        count += 1;
    }
}

/// Judges the session's records in a capture with any tracker: yes with every possible end, no at
/// the first impossible record, or unfinished. A capture that is refused gets no verdict, even if
/// its fault comes after an impossible record.
///
/// Reads in one pass to the end or to the first fault, and holds one record at a time; the tracker
/// takes no record after an impossible one. Asks the source for few octets at a time: put a buffer
/// before a file.
///
/// A fault's offset is that of the first octet of the record in which it was found. Faults 1 to 8
/// say what is wrong with the octets; 9, `Device`, that the source failed; and 10, `Memory`, that
/// memory was refused: at offset 0 before anything is read, at the offset of a record for which the
/// tracker may lack it, at the capture's length while the ends are listed.
pub fn judge<A: Allocator + Copy, T: Tracker<A>, S: Source>(
    alloc: A,
    config: &Config,
    source: &mut S,
) -> Result<Verdict<A>, CaptureFault>
    requires { S.failures source.old < u64.MAX }
    ensures judged { Judges S.gives S.has_ended config.now source.old source.new T.may_lack
        result }
    ensures failures { S.failures source.new ≡ S.failures source.old + failures_of result }
{
    let mut reader = Reader::new(alloc);
    judge_with::<A, T, S>(&mut reader, alloc, config, source)
}

/// Judges as [`judge`] does, with a reader that has read nothing. Afterwards the reader knows
/// whether it found a record of the session, and the addresses of the first record of another one.
pub fn judge_with<A: Allocator + Copy, T: Tracker<A>, S: Source>(
    reader: &mut Reader<A>,
    alloc: A,
    config: &Config,
    source: &mut S,
) -> Result<Verdict<A>, CaptureFault>
    requires fresh { reader.old ≡ fresh_reader }
    requires failures { S.failures source.old < u64.MAX }
    ensures judged { ReadsWith S.gives config.now.parts.session source.old source.new reader.new
        (fault_in result)
        (λ gives. Judges gives S.has_ended config.now source.old source.new T.may_lack result) }
    ensures failures { S.failures source.new ≡ S.failures source.old + failures_of result }
{
    let started: Result<T, _> = T::start(alloc, config);
    let Ok(mut tracker) = started else {
        return Err(out_of_memory(0));
    };
    if let Some(count) = follow(&mut tracker, reader, config, source)? {
        return Ok(Verdict::No(count));
    }
    match verdict_of(&tracker) {
        Ok(verdict) => Ok(verdict),
        Err(_) => Err(out_of_memory(reader.place())),
    }
}
