//! Captures, read record by record (RFC 6396).

ghost use Rattle.std.specs.Prelude.{◌≡◌, ◌<◌, ◌≤◌, ◌+◌, length, OnOk, OnErr, is_some};
ghost use Rattle.std.specs.Prelude.{slice_get};
ghost use Rattle.std.specs.Borrow.{sem};
ghost use Rattle.std.specs.Io.BufRead.{Rests};
ghost use Rattle.mrt.specs.Progress.{state_of, shown_from, Advances, failures_of};
ghost use Rattle.mrt.specs.Reader.{shown_of, fresh_reader, places_of, IsNext, failures_in};
ghost use Rattle.mrt.specs.contracts.reader.Reader.{the_row};

use crate::fault::{CaptureFault, FaultKind};
use crate::judging::{Found, Shows};
use crate::layout::{HEADER, LONGEST_BODY};
use crate::others::{MOST_OTHERS, in_places, pair_at};
use crate::progress::Progress;
use crate::reading::{Read, read_record};
use crate::record::{Endpoints, Record};
use crate::skipped::SkippedRecords;
use crate::source::Source;
use bgp_prefix::Session;
use std::alloc::{AllocError, Allocator, Global};
use std::marker::Model;

/// Reads on to the next record of the session, whose body the buffer holds then.
fn advance<S: Source>(
    source: &mut S,
    buffer: &mut [u8],
    progress: &mut Progress,
    session: &Session,
) -> Result<Option<Found>, CaptureFault>
    requires room { length buffer.old ≡ LONGEST_BODY }
    requires failures { S.failures source.old < u64.MAX }
    requires one_source { progress.old.passed ≤ S.given_count source.old }
    ensures room { length buffer.new ≡ LONGEST_BODY }
    ensures next { Advances S.gives S.has_ended session.now source.old source.new
        (state_of progress.old) (state_of progress.new) buffer.new result }
    ensures one_source { progress.new.passed ≤ S.given_count source.new }
    ensures failures { S.failures source.new ≡ S.failures source.old + failures_of result }
{
    loop {
        match read_record(source, buffer, session, progress.last) {
            Ok(Read::End) => {
                progress.end();
                return Ok(None);
            }
            Ok(Read::Skipped(skip, count)) => progress.skip(skip, count),
            Ok(Read::Refused(kind)) => return Err(progress.refuse(kind)),
            Ok(Read::OfSession(found)) => {
                progress.answer(found.second, found.micro, (HEADER + found.count) as u64);
                return Ok(Some(found));
            }
            Err(_) => return Err(progress.refuse(FaultKind::Device)),
        }
    }
}

/// The record that was found, whose body stands at the front of the buffer.
fn record_of(found: Found, buffer: &[u8]) -> Record<'_>
    requires within { found.content_at ≤ found.count }
    requires fits { found.count ≤ length buffer.now }
    ensures { shown_of result ≡ shown_from found buffer.entry.now }
{
    let content = buffer[..found.count].split_at(found.content_at).1;
    match found.shows {
        Shows::Received => Record::In(found.second, content),
        Shows::Sent => Record::Out(found.second, content),
        Shows::Changed(old, new) => Record::Change(found.second, old, new),
    }
}

/// Reads the records of one session from a capture. It holds the body of one record at the most, in
/// a buffer of 65583 octets, takes no octets beyond the record that it answers, and asks for no
/// more than that record lacks: who reads from a file puts a buffer between.
///
/// After a fault it answers that fault for good, and after the end the end.
#[derive(Drop)]
pub struct Reader<A: Allocator = Global> {
    buffer: Vec<u8, A>,
    progress: Progress,
}

impl<A: Allocator> Model for Reader<A> {
    ghost use Rattle.std.specs.Prelude.{◌≤◌, length};
    ghost use Rattle.mrt.specs.Reader.{ReaderState, HasRoom};
    ghost use Rattle.mrt.specs.Progress.{state_of};

    ghost Value = { ReaderState };

    ghost view = { λ r. state_of r.progress };

    ghost invariant = { λ r. (length r.buffer.items ≤ 65583)
        × HasRoom (length r.buffer.items) (state_of r.progress) };
}

/// A buffer for the body of one record, made of an empty or an old one.
fn make_room<A: Allocator>(buffer: &mut Vec<u8, A>) -> Result<(), AllocError>
    requires { length buffer.old.items ≤ LONGEST_BODY }
    ensures ok { OnOk result (length buffer.new.items ≡ LONGEST_BODY) }
    ensures err { OnErr result (length buffer.old.items < LONGEST_BODY) }
    ensures bound { length buffer.new.items ≤ LONGEST_BODY }
{
    if buffer.len() < LONGEST_BODY {
        buffer.resize(LONGEST_BODY, 0)?;
    }
    Ok(())
}

impl<A: Allocator + Copy> Reader<A> {
    /// A reader that has read nothing. It takes no memory until a record is read.
    pub fn new(alloc: A) -> Reader<A>
        ensures { result ≡ fresh_reader }
    {
        Reader {
            buffer: Vec::new(alloc),
            progress: Progress::new(),
        }
    }

    /// The offset of what was last answered: of the record, of the end or of the record at fault; 0
    /// before the first call.
    pub fn place(&self) -> u64
        ensures { result ≡ self.now.place }
    {
        self.progress.place
    }

    /// How many octets the records have that it answered or skipped, from the start of the capture.
    pub fn passed(&self) -> u64
        ensures { result ≡ self.now.passed }
    {
        self.progress.passed
    }

    /// Returns the first nine different pairs of addresses for which a record was skipped, in the
    /// order of their first records. If there are fewer, `None` follows them.
    pub fn others(&self) -> [Option<Endpoints>; MOST_OTHERS]
        ensures { result ≡ places_of self.now.others }
    {
        in_places(self.progress.others.as_slice())
    }

    /// Returns the first of them: the addresses of the first record that was skipped for its
    /// addresses.
    pub fn first_other(&self) -> Option<Endpoints>
        ensures { result ≡ slice_get self.now.others 0 }
    {
        pair_at(self.progress.others.as_slice(), 0)
    }

    /// How many records were skipped, by why.
    pub fn skipped(&self) -> SkippedRecords
        ensures { result ≡ self.now.skipped }
    {
        self.progress.skipped
    }

    /// Returns the fraction of the second of the record that it answered last, in microseconds:
    /// below 1,000,000. None where the record has none, or no record was answered.
    pub fn micro(&self) -> Option<u32>
        ensures { result ≡ self.now.micro }
    {
        self.progress.micro
    }

    /// Whether a record of the session was answered.
    pub fn has_answered(&self) -> bool
        ensures { result ≡ is_some self.now.last }
    {
        self.progress.last.is_some()
    }

    /// Reads on to the next record of the session, and answers it, or `None` where the capture
    /// ends. All calls are lent one source.
    ///
    /// A fault's offset is that of the first octet of the record in which it was found. Faults 1 to
    /// 8 are what is wrong in the octets; 9, `Device`, is answered where the source failed in this
    /// call, and 10, `Memory`, where the first call couldn't make the buffer.
    pub fn next_record<S: Source>(
        &mut self,
        source: &mut S,
        session: &Session,
    ) -> Result<Option<Record<'_>>, CaptureFault>
        requires failures { S.failures source.old < u64.MAX }
        requires one_source { self.old.passed ≤ S.given_count source.old }

        // How the reader stands once the answer is let go.
        ensures* after_borrow { sem 𝓛 (Rests (the_row A.row A.Allocator) self.entry
            (λ new. IsNext S.gives S.has_ended session.now source.old source.new
            self.old new result × (new.passed ≤ S.given_count source.new))) }

        ensures failures { S.failures source.new
            ≡ S.failures source.old + failures_in self.old result }
    {
        if let Some(fault) = self.progress.fault {
            return Err(fault);
        }
        if self.progress.is_ended {
            return Ok(None);
        }
        if make_room(&mut self.buffer).is_err() {
            return Err(self.progress.refuse(FaultKind::Memory));
        }
        match advance(source, &mut self.buffer, &mut self.progress, session)? {
            Some(found) => Ok(Some(record_of(found, &self.buffer))),
            None => Ok(None),
        }
    }
}
