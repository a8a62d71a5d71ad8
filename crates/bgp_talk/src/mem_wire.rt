//! A wire in memory, which can be told to fail.

ghost use Rattle.std.specs.Prelude.{◌≡◌, ◌<◌, ◌≤◌, ◌+◌, None, Some, length, is_ok, IfOk};
ghost use Rattle.std.specs.Int.NonZero.{non_zero_usize_get};
ghost use Rattle.bgp_talk.specs.Account.{IsWithin, failures_after_read, read_told};
ghost use Rattle.bgp_talk.specs.MemWire.{place_after, told_by};

use crate::wire::{Connection, ReadAnswer, Wire};
use bgp_prefix::Seconds;
use mrt::Failed;
use std::alloc::{Allocator, Global};
use std::num::NonZeroUsize;

/// What a wire in memory answers to a read.
#[derive(Clone, Copy, Debug)]
pub enum MemRead<'a> {
    /// These octets, as many of them as there is room for. The others are gone.
    Bytes(&'a [u8]),
    /// Nothing came yet.
    Nothing,
    /// The peer has ended the connection.
    Closed,
    /// The read fails.
    Failed,
}

/// What a wire in memory does once in a call, in place of what it would.
#[derive(Clone, Copy, Debug, PartialEq, Eq)]
pub enum WireUpset {
    /// It doesn't connect.
    ConnectFails,
    /// The read fails.
    ReadFails,
    /// The write fails.
    WriteFails,
    /// The write takes nothing.
    WriteTakesNothing,
}

/// A wire in memory: it answers reads and tells seconds from two lists, the last of each again and
/// again, and keeps the octets that it takes.
///
/// Without an answer nothing comes, and without a second it is 0. A write takes all that it is
/// given, unless it was told otherwise, and fails where the memory for them is refused.
#[derive(Drop)]
pub struct MemWire<'a, A: Allocator = Global> {
    reads: &'a [MemRead<'a>],
    next_read: usize,
    seconds: &'a [Seconds],
    next_second: usize,
    taken: Vec<u8, A>,
    most: NonZeroUsize,
    upset: Option<WireUpset>,
    calls_before: u64,
    connection: Connection,
    failures: u64,
}

/// The place after one in a list of so many, the last of which repeats.
fn place_behind(place: usize, count: usize) -> usize
    ensures { result ≡ place_after place count }
{
    place.saturating_add(1).min(count.saturating_sub(1))
}

/// Puts an answer's octets into the front of `buffer`, as many as there is room for.
fn fill(answer: &MemRead<'_>, buffer: &mut [u8]) -> ReadAnswer
    ensures within { IsWithin result (length buffer.new) }
    ensures told { read_told result buffer.new ≡ told_by answer.now (length buffer.new) }
{
    match answer {
        MemRead::Bytes(octets) => {
            let count = octets.len().min(buffer.len());
            buffer[..count].copy_from_slice(&octets[..count]);
            ReadAnswer::Bytes(count)
        }
        MemRead::Nothing => ReadAnswer::Nothing,
        MemRead::Closed => ReadAnswer::Closed,
        MemRead::Failed => ReadAnswer::Failed,
    }
}

impl<'a, A: Allocator> MemWire<'a, A> {
    ghost use Rattle.bgp_talk.specs.MemWire.{wire_state, fresh_wire, next_read_fails};
    ghost use Rattle.bgp_talk.specs.MemWire.{after_read_call, next_write_upset, after_write_call};
    ghost use Rattle.bgp_talk.specs.MemWire.{after_connect, connects, after_read_place, read_tells};
    ghost use Rattle.bgp_talk.specs.MemWire.{after_write, second_now, after_now, IsWriteAnswer};

    /// A wire that wasn't asked to connect yet, by its answers to reads and its seconds.
    pub fn new(alloc: A, reads: &'a [MemRead<'a>], seconds: &'a [Seconds]) -> MemWire<'a, A>
        ensures { wire_state result ≡ fresh_wire reads.now seconds.now }
    {
        MemWire {
            reads,
            next_read: 0,
            seconds,
            next_second: 0,
            taken: Vec::new(alloc),
            most: NonZeroUsize::MAX,
            upset: None,
            calls_before: 0,
            connection: Connection::NotAsked,
            failures: 0,
        }
    }

    /// The same wire, which takes at most so many octets in each write.
    pub fn in_pieces_of(mut self, most: NonZeroUsize) -> MemWire<'a, A>
        ensures { wire_state result
            ≡ record (wire_state self.entry) { most = non_zero_usize_get most } }
    {
        self.most = most;
        self
    }

    /// The same wire, which does something else in the call of this number, of those of the kind
    /// that it can happen in, counted from the next one, which is 0. Connecting has no number.
    pub fn upset_at(mut self, call: u64, upset: WireUpset) -> MemWire<'a, A>
        ensures { wire_state result
            ≡ record (wire_state self.entry) { calls_before = call; upset = Some upset } }
    {
        self.calls_before = call;
        self.upset = Some(upset);
        self
    }

    /// The octets that it took.
    pub fn taken(&self) -> &[u8]
        ensures { result.now ≡ (wire_state self.now).taken }
    {
        self.taken.as_slice()
    }

    // Counts a read, and answers whether it is to fail.
    fn begin_read(&mut self) -> bool
        ensures fails { result ≡ next_read_fails (wire_state self.old) }
        ensures state { wire_state self.new ≡ after_read_call (wire_state self.old) }
    {
        let Some(WireUpset::ReadFails) = self.upset else {
            return false;
        };
        if self.calls_before > 0 {
            self.calls_before -= 1;
            return false;
        }
        self.upset = None;
        true
    }

    // Counts a write, and answers what else happens in it.
    fn begin_write(&mut self) -> Option<WireUpset>
        ensures upset { result ≡ next_write_upset (wire_state self.old) }
        ensures state { wire_state self.new ≡ after_write_call (wire_state self.old) }
    {
        match self.upset {
            Some(WireUpset::WriteFails | WireUpset::WriteTakesNothing) => {}
            _ => return None,
        }
        if self.calls_before > 0 {
            self.calls_before -= 1;
            return None;
        }
        self.upset.take()
    }

    // Answers a read from the list, but for the count of failures.
    fn read_next(&mut self, buffer: &mut [u8]) -> ReadAnswer
        ensures within { IsWithin result (length buffer.new) }
        ensures answer { read_told result buffer.new
            ≡ read_tells (wire_state self.old) (length buffer.new) }
        ensures state { wire_state self.new ≡ after_read_place (wire_state self.old) }
    {
        if self.begin_read() {
            return ReadAnswer::Failed;
        }
        let place = self.next_read;
        self.next_read = place_behind(place, self.reads.len());
        match self.reads.get(place) {
            Some(answer) => fill(answer, buffer),
            None => ReadAnswer::Nothing,
        }
    }

    // Counts a read's failure, if it is one.
    fn count_failed(&mut self, answer: ReadAnswer)
        requires { (wire_state self.old).failures < u64.MAX }
        ensures { wire_state self.new ≡ record (wire_state self.old) {
          failures = failures_after_read (wire_state self.old).failures answer;
        } }
    {
        if let ReadAnswer::Failed = answer {
            self.failures += 1;
        }
    }

    // Connects, unless it is to fail.
    fn dial(&mut self) -> Result<(), Failed>
        requires { (wire_state self.old).failures < u64.MAX }
        ensures answer { is_ok result ≡ connects (wire_state self.old) }
        ensures state { wire_state self.new ≡ after_connect (wire_state self.old) }
    {
        if let Some(WireUpset::ConnectFails) = self.upset {
            self.connection = Connection::Refused;
            return Err(self.fail());
        }
        self.connection = Connection::Stands;
        Ok(())
    }

    // Answers a read.
    fn answer_read(&mut self, buffer: &mut [u8]) -> ReadAnswer
        requires { (wire_state self.old).failures < u64.MAX }
        ensures within { IsWithin result (length buffer.new) }
        ensures answer { read_told result buffer.new
            ≡ read_tells (wire_state self.old) (length buffer.new) }
        ensures state { wire_state self.new ≡ record (after_read_place (wire_state self.old)) {
          failures = failures_after_read (wire_state self.old).failures result;
        } }
    {
        let answer = self.read_next(buffer);
        self.count_failed(answer);
        answer
    }

    // Takes octets, or fails.
    fn keep(&mut self, octets: &[u8]) -> Result<usize, Failed>
        requires { (wire_state self.old).failures < u64.MAX }
        ensures bound { IfOk result (λ count. count ≤ length octets.now) }
        ensures answer { IsWriteAnswer (next_write_upset (wire_state self.old))
            (wire_state self.old).most octets.now result }
        ensures state { wire_state self.new
            ≡ after_write (wire_state self.old) octets.now result }
    {
        match self.begin_write() {
            Some(WireUpset::WriteFails) => return Err(self.fail()),
            Some(_) => return Ok(0),
            None => {}
        }
        let count = octets.len().min(self.most.get());
        match self.taken.extend_from_slice(&octets[..count]) {
            Ok(()) => Ok(count),
            Err(_) => Err(self.fail()),
        }
    }

    // Tells the next second.
    fn tell_second(&mut self) -> Seconds
        ensures answer { result ≡ second_now (wire_state self.old) }
        ensures state { wire_state self.new ≡ after_now (wire_state self.old) }
    {
        let place = self.next_second;
        self.next_second = place_behind(place, self.seconds.len());
        match self.seconds.get(place) {
            Some(second) => *second,
            None => 0,
        }
    }

    // Counts a failure.
    fn fail(&mut self) -> Failed
        requires { (wire_state self.old).failures < u64.MAX }
        ensures { wire_state self.new ≡ record (wire_state self.old) {
          failures = (wire_state self.old).failures + 1;
        } }
    {
        self.failures += 1;
        Failed
    }
}

impl<'a, A: Allocator> Wire for MemWire<'a, A> {
    ghost use Rattle.bgp_talk.specs.MemWire.{wire_state, Tells, tells_nothing, tells_joined};

    ghost tells = { λ a b account. Tells (wire_state a) account (wire_state b) };

    ghost failures = { λ a. (wire_state a).failures };

    ghost connection = { λ a. (wire_state a).connection };

    ghost nothing = { λ a. tells_nothing (wire_state a) };

    ghost joined = { λ a b c. tells_joined (wire_state a) (wire_state b) (wire_state c) };

    fn connect(&mut self) -> Result<(), Failed> {
        self.dial()
    }

    fn read(&mut self, buffer: &mut [u8]) -> ReadAnswer {
        self.answer_read(buffer)
    }

    fn write(&mut self, octets: &[u8]) -> Result<usize, Failed> {
        self.keep(octets)
    }

    fn now(&mut self) -> Seconds {
        self.tell_second()
    }

    fn failures(&self) -> u64 {
        self.failures
    }
}
