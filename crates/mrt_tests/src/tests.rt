//! What no clause says: devices that fail in mid-stream, each upset once, refused memory.

mod alike;
mod captures;
mod extended;
mod fractions;
mod refreshes;
mod sessions;
mod written;

use linked_list_allocator::LocalHeap;
use mrt::*;
use std::alloc::{AllocError, Allocator, Global};
use std::io;
use std::io::{ErrorKind, Read, Write};
use std::num::NonZeroUsize;

/// The octets of these pieces; `None` where memory is refused.
fn joined(alloc: Global, pieces: &[&[u8]]) -> Option<Vec<u8>> {
    let mut octets = Vec::new(alloc);
    for piece in pieces {
        octets.extend_from_slice(piece).ok()?;
    }
    Some(octets)
}

/// Whether a device answers so to one call: by a digit, which says how many octets, or `!` where it
/// fails.
fn is_answer(answer: Result<usize, Failed>, wanted: u8) -> bool {
    match answer {
        Ok(count) => count < 10 && wanted == b'0' + count as u8,
        Err(_) => wanted == b'!',
    }
}

/// Whether a source answers so to reads with room for two octets, and gives just these octets.
fn gives<R: Source>(source: &mut R, answers: &str, octets: &[u8]) -> bool {
    let mut left = octets;
    let mut buffer = [0; 2];
    for wanted in answers.as_bytes() {
        if source.failures() == u64::MAX {
            return false;
        }
        let answer = source.read(&mut buffer);
        if !is_answer(answer, *wanted) {
            return false;
        }
        if let Ok(count) = answer {
            let Some(rest) = left.strip_prefix(&buffer[..count]) else {
                return false;
            };
            left = rest;
        }
    }
    left.is_empty()
}

/// Whether a sink answers so to writes of `abc`.
fn takes<W: Sink>(sink: &mut W, answers: &str) -> bool {
    for wanted in answers.as_bytes() {
        if sink.failures() == u64::MAX || !is_answer(sink.write(b"abc"), *wanted) {
            return false;
        }
    }
    true
}

/// A reader that gives one octet a call, but for one call, which fails.
#[derive(Drop)]
struct FailingReader<'a> {
    octets: &'a [u8],
    calls_before: u32,
    error: ErrorKind,
}

impl Read for FailingReader<'_> {
    fn read(&mut self, buffer: &mut [u8]) -> io::Result<usize> {
        if self.calls_before == 0 {
            self.calls_before = u32::MAX;
            return Err(io::Error::from(self.error));
        }
        self.calls_before -= 1;
        let octets = self.octets;
        if octets.is_empty() || buffer.is_empty() {
            return Ok(0);
        }
        buffer[0] = octets[0];
        self.octets = octets.split_at(1).1;
        Ok(1)
    }
}

/// What a [`FaultyWriter`] does in one call.
#[derive(Clone, Copy)]
enum WriterFault {
    Error(ErrorKind),
    TakesNothing,
}

/// A writer that takes two octets a call, but for one call.
#[derive(Drop)]
struct FaultyWriter {
    octets: Vec<u8>,
    calls_before: u32,
    fault: WriterFault,
}

impl Write for FaultyWriter {
    fn write(&mut self, octets: &[u8]) -> io::Result<usize> {
        if self.calls_before == 0 {
            self.calls_before = u32::MAX;
            return match self.fault {
                WriterFault::Error(kind) => Err(io::Error::from(kind)),
                WriterFault::TakesNothing => Ok(0),
            };
        }
        self.calls_before -= 1;
        let count = octets.len().min(2);
        self.octets.extend_from_slice(&octets[..count])?;
        Ok(count)
    }

    fn flush(&mut self) -> io::Result<()> {
        Ok(())
    }
}

/// Whether a reader of `abcde` gives it, and then its end.
fn is_given() -> bool {
    let mut source = FromRead::new(b"abcde".as_slice());
    gives(&mut source, "22100", b"abcde")
        && source.failures() == 0
        && source.given() == 5
        && source.into_inner().is_empty()
}

/// The call of a reader of `abc` that fails, and what five reads are answered.
static READS: [(u32, &str); 5] = [
    (0, "!1110"),
    (1, "1!110"),
    (2, "11!10"),
    (3, "111!0"),
    (4, "1110!"),
];

/// Whether an error of a reader of `abc` in this call is one failure, and these are the answers.
fn fails_once_by(calls_before: u32, error: ErrorKind, answers: &str) -> bool {
    let mut source = FromRead::new(FailingReader {
        octets: b"abc",
        calls_before,
        error,
    });
    gives(&mut source, answers, b"abc")
        && source.failures() == 1
        && source.last_error() == Some(error)
        && source.given() == 3
}

/// Whether each error of a reader of `abc` in this call is one failure.
fn fails_once(calls_before: u32, answers: &str) -> bool {
    fails_once_by(calls_before, ErrorKind::Other, answers)
        && fails_once_by(calls_before, ErrorKind::Interrupted, answers)
}

#[test]
fn a_reader_gives_its_octets_and_each_error_is_one_failure(rt: HostRuntime) {
    assert!(rt; is_given());
    for (call, answers) in &READS {
        assert!(rt; fails_once(*call, answers), "at {call}");
    }
}

/// Whether a sink takes `ab`, and then nothing.
fn takes_ab<W: Sink>(sink: &mut W) -> bool {
    sink.failures() == 0
        && write_all(sink, b"ab").is_ok()
        && sink.failures() == 0
        && write_all(sink, b"").is_ok()
}

/// Whether a vector takes all that is written.
fn is_all_taken(alloc: Global) -> bool {
    let mut sink = FromWrite::new(Vec::new(alloc));
    takes_ab(&mut sink) && sink.into_inner().as_slice() == b"ab".as_slice()
}

/// What a writer does in its second call, and the error that is told.
static WRITER_FAULTS: [(WriterFault, ErrorKind); 3] = [
    (WriterFault::Error(ErrorKind::Other), ErrorKind::Other),
    (
        WriterFault::Error(ErrorKind::Interrupted),
        ErrorKind::Interrupted,
    ),
    (WriterFault::TakesNothing, ErrorKind::WriteZero),
];

/// Whether a writer's fault in its second call is one failure, by this error.
fn is_one_failure(alloc: Global, fault: WriterFault, error: ErrorKind) -> bool {
    let mut sink = FromWrite::new(FaultyWriter {
        octets: Vec::new(alloc),
        calls_before: 1,
        fault,
    });
    let is_told = takes(&mut sink, "2!2")
        && sink.failures() == 1
        && sink.last_error() == Some(error)
        && sink.taken() == 4;
    is_told && sink.into_inner().octets.as_slice() == b"abab".as_slice()
}

#[test]
fn a_writer_takes_octets_and_each_fault_is_one_failure(rt: HostRuntime) {
    assert!(rt; is_all_taken(rt.alloc()));
    for (fault, error) in &WRITER_FAULTS {
        assert!(rt; is_one_failure(rt.alloc(), *fault, *error), "{error:?}");
    }
}

/// At most so many octets, which has to be a number above 0.
fn at_most(count: usize) -> NonZeroUsize {
    NonZeroUsize::new(count).unwrap_or(NonZeroUsize::MIN)
}

/// A call; what a source of `abcde` does in it: `!` where it fails, `.` where it ends, and else how
/// many octets it gives at most; what five reads are answered, and what it gives.
type SourceRow = (u64, u8, &'static str, &'static str);

static UPSET_SOURCES: [SourceRow; 8] = [
    (0, b'!', "!2210", "abcde"),
    (1, b'!', "2!210", "abcde"),
    (3, b'!', "221!0", "abcde"),
    (9, b'!', "22100", "abcde"),
    (1, b'1', "21200", "abcde"),
    (1, b'5', "22100", "abcde"),
    (0, b'.', "00000", ""),
    (1, b'.', "20000", "ab"),
];

/// What this character says.
fn upset_by(character: u8) -> SourceUpset {
    match character {
        b'!' => SourceUpset::Fail,
        b'.' => SourceUpset::End,
        digit => SourceUpset::Short(at_most(usize::from(digit.saturating_sub(b'0')))),
    }
}

/// Whether a source that is upset so answers so, and gives these octets.
fn is_source_upset(alloc: Global, (call, upset, answers, given): &SourceRow) -> bool {
    let Ok(octets) = b"abcde".to_vec(alloc) else {
        return false;
    };
    let mut source = MemSource::new(octets).upset_at(*call, upset_by(*upset));
    let has_failed = answers.as_bytes().contains(&b'!');
    gives(&mut source, answers, given.as_bytes())
        && source.failures() == u64::from(has_failed)
        && source.given() == given.len()
        && source.octets() == b"abcde".as_slice()
}

/// Whether a source of `abc` gives it in pieces of one octet.
fn is_in_pieces(alloc: Global) -> bool {
    let Ok(octets) = b"abc".to_vec(alloc) else {
        return false;
    };
    let mut source = MemSource::new(octets).in_pieces_of(NonZeroUsize::MIN);
    source.read(&mut []) == Ok(0) && gives(&mut source, "1110", b"abc")
}

#[test]
fn a_source_in_memory_is_upset_once_and_ends_for_good(rt: HostRuntime) {
    for (row, upset) in UPSET_SOURCES.iter().enumerate() {
        assert!(rt; is_source_upset(rt.alloc(), upset), "{row}");
    }
    assert!(rt; is_in_pieces(rt.alloc()));
}

/// A call of a sink, how many octets it takes then (`None`: it fails), what three writes of `abc`
/// are answered, and what it took.
type SinkRow = (u64, Option<usize>, &'static str, &'static str);

static UPSET_SINKS: [SinkRow; 5] = [
    (0, None, "!33", "abcabc"),
    (1, None, "3!3", "abcabc"),
    (1, Some(2), "323", "abcababc"),
    (1, Some(4), "333", "abcabcabc"),
    (3, None, "333", "abcabcabc"),
];

/// Whether a sink that is upset so answers so, and takes these octets.
fn is_sink_upset(alloc: Global, (call, most, answers, taken): &SinkRow) -> bool {
    let upset = match most {
        Some(most) => SinkUpset::Short(at_most(*most)),
        None => SinkUpset::Fail,
    };
    let has_failed = answers.as_bytes().contains(&b'!');
    let mut sink = MemSink::new(alloc).upset_at(*call, upset);
    sink.write(b"") == Ok(0)
        && takes(&mut sink, answers)
        && sink.failures() == u64::from(has_failed)
        && sink.octets() == taken.as_bytes()
}

/// Whether `write_all` stops at the call that fails, where each call takes one octet.
fn stops_at(alloc: Global, call: u64, text: &[u8]) -> bool {
    let mut sink = MemSink::new(alloc)
        .in_pieces_of(NonZeroUsize::MIN)
        .upset_at(call, SinkUpset::Fail);
    let is_written = write_all(&mut sink, text).is_ok();
    let fails = call < text.len() as u64;
    let taken = if fails { call as usize } else { text.len() };
    is_written != fails && sink.failures() == u64::from(fails) && sink.octets() == &text[..taken]
}

/// Whether octets are written one behind another.
fn are_written(alloc: Global) -> bool {
    let mut sink = MemSink::new(alloc);
    sink.write(b"octets") == Ok(6)
        && write_all(&mut sink, b" and more").is_ok()
        && sink.into_octets().as_slice() == b"octets and more".as_slice()
}

/// And so is a write of all octets, which stops there.
#[test]
fn a_sink_in_memory_is_upset_once(rt: HostRuntime) {
    for (row, upset) in UPSET_SINKS.iter().enumerate() {
        assert!(rt; is_sink_upset(rt.alloc(), upset), "{row}");
    }
    for call in 0..7 {
        assert!(rt; stops_at(rt.alloc(), call, b"abcde"), "at {call}");
    }
    assert!(rt; are_written(rt.alloc()));
}

/// Whether a sink that takes seven octets a call holds all of a text, or what it took of it.
fn is_kept(sink: &MemSink<&LocalHeap>, text: &[u8], is_written: bool) -> bool {
    let taken = sink.octets();
    let is_counted = if is_written {
        taken.len() == text.len() && sink.failures() == 0
    } else {
        taken.len() % 7 == 0 && sink.failures() == 1
    };
    is_counted && text.starts_with(taken)
}

/// Whether a sink in this heap takes 100 octets; `None` where it doesn't hold what it took.
fn is_written(heap: &LocalHeap) -> Option<bool> {
    let text = [b'x'; 100];
    let mut sink = MemSink::new(heap).in_pieces_of(at_most(7));
    let is_written = write_all(&mut sink, &text).is_ok();
    is_kept(&sink, &text, is_written).then_some(is_written)
}

/// The same, of a heap of this size.
fn is_written_over(alloc: Global, size: usize) -> Option<bool> {
    match LocalHeap::new(alloc, size) {
        Ok(heap) => is_written(&heap),
        Err(_) => None,
    }
}

/// Whether each of some heaps is told of, the smallest of which has too little memory, and the
/// largest enough.
fn is_written_or_refused(alloc: Global) -> bool {
    for steps in 1..100 {
        if is_written_over(alloc, 16 * steps).is_none() {
            return false;
        }
    }
    is_written_over(alloc, 16) == Some(false) && is_written_over(alloc, 1584) == Some(true)
}

#[test]
fn a_sink_keeps_what_it_took_where_memory_is_refused(rt: HostRuntime) {
    assert!(rt; is_written_or_refused(rt.alloc()));
}
