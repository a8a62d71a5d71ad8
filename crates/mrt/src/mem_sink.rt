//! A sink in memory, which can be told to fail or to shorten a call.

ghost use Rattle.std.specs.Prelude.{◌≡◌, ◌<◌, None, Some, Ok, length, IsErr, IfOk};
ghost use Rattle.std.specs.Int.NonZero.{non_zero_usize_get};

use crate::failure::Failed;
use crate::sink::Sink;
use std::alloc::{Allocator, Global};
use std::num::NonZeroUsize;

/// What a sink in memory does once in place of taking what it is given.
#[derive(Clone, Copy, Debug, PartialEq, Eq)]
pub enum SinkUpset {
    /// The call fails.
    Fail,
    /// The call takes at most so many octets.
    Short(NonZeroUsize),
}

/// A sink that keeps the octets in memory.
///
/// It takes all that it is given, unless it was told otherwise, and fails where the memory for them
/// is refused. Calls are counted from 0; one with no octets takes nothing, and isn't counted.
#[derive(Drop)]
pub struct MemSink<A: Allocator = Global> {
    octets: Vec<u8, A>,
    most: NonZeroUsize,
    upset: Option<SinkUpset>,
    calls_before: u64,
    failures: u64,
}

impl<A: Allocator> MemSink<A> {
    ghost use Rattle.mrt.specs.MemSink.{sink_state, fresh_sink, failed_sink};
    ghost use Rattle.mrt.specs.MemSink.{next_upset, after_call, answered_sink};

    /// A sink that has taken nothing.
    pub fn new(alloc: A) -> MemSink<A>
        ensures { sink_state result ≡ fresh_sink }
    {
        MemSink {
            octets: Vec::new(alloc),
            most: NonZeroUsize::MAX,
            upset: None,
            calls_before: 0,
            failures: 0,
        }
    }

    /// The same sink, which takes at most so many octets in each call.
    pub fn in_pieces_of(mut self, most: NonZeroUsize) -> MemSink<A>
        ensures { sink_state result ≡ record (sink_state self) { most = non_zero_usize_get most } }
    {
        self.most = most;
        self
    }

    /// The same sink, which does something else in the call of this number, counted from the next
    /// one, which is 0.
    pub fn upset_at(mut self, call: u64, upset: SinkUpset) -> MemSink<A>
        ensures { sink_state result
            ≡ record (sink_state self) { calls_before = call; upset = Some upset } }
    {
        self.calls_before = call;
        self.upset = Some(upset);
        self
    }

    /// The octets that it took.
    pub fn octets(&self) -> &[u8]
        ensures { result.now ≡ (sink_state self.now).octets }
    {
        self.octets.as_slice()
    }

    /// The octets that it took, without a copy.
    pub fn into_octets(self) -> Vec<u8, A>
        ensures { result.items ≡ (sink_state self).octets }
    {
        self.octets
    }

    // Counts a call, and answers what else happens in it.
    fn begin_call(&mut self) -> Option<SinkUpset>
        ensures upset { result ≡ next_upset (sink_state self.old) }
        ensures state { sink_state self.new ≡ after_call (sink_state self.old) }
    {
        if self.calls_before > 0 {
            self.calls_before -= 1;
            return None;
        }
        self.upset.take()
    }

    // Takes all of these octets, or where memory is refused none.
    fn keep(&mut self, octets: &[u8]) -> Result<usize, Failed>
        requires { (sink_state self.old).failures < u64.MAX }
        ensures ok { IfOk result (λ count. count ≡ length octets.now) }
        ensures state { sink_state self.new
            ≡ answered_sink (sink_state self.old) octets.now result }
    {
        match self.octets.extend_from_slice(octets) {
            Ok(()) => Ok(octets.len()),
            Err(_) => Err(self.fail()),
        }
    }

    // Counts a failure.
    fn fail(&mut self) -> Failed
        requires { (sink_state self.old).failures < u64.MAX }
        ensures { sink_state self.new ≡ failed_sink (sink_state self.old) }
    {
        self.failures += 1;
        Failed
    }
}

impl<A: Allocator> Sink for MemSink<A> {
    ghost use Rattle.mrt.specs.MemSink.{sink_state, next_upset, count_taken, after_write};
    ghost use Rattle.mrt.specs.MemTakes.{Takes, takes_nothing, takes_joined};
    ghost use Rattle.mrt.specs.declared.mem_sink.SinkUpset.TheVariants.{Fail};

    ghost takes = { λ a b. Takes (sink_state a) (sink_state b) };

    ghost failures = { λ a. (sink_state a).failures };

    ghost nothing = { λ a. takes_nothing (sink_state a) };

    ghost joined = { λ a b c. takes_joined (sink_state a) (sink_state b) (sink_state c) };

    fn write(&mut self, octets: &[u8]) -> Result<usize, Failed>
        requires { (sink_state self.old).failures < u64.MAX }
        ensures some { IfOk result (λ count. 0 < length octets.now → 0 < count) }

        // What it answers, and the state that it leaves, are determined, but for refused memory.
        ensures empty { length octets.now ≡ 0 → result ≡ Ok 0 }
        ensures ok { IfOk result (λ count.
            count ≡ count_taken (sink_state self.old) (length octets.now)) }
        ensures fail { next_upset (sink_state self.old) ≡ Some Fail →
            0 < length octets.now → IsErr result }
        ensures state { sink_state self.new
            ≡ after_write (sink_state self.old) octets.now result }
    {
        if octets.is_empty() {
            return Ok(0);
        }
        let most = match self.begin_call() {
            None => self.most.get(),
            Some(SinkUpset::Short(few)) => few.get().min(self.most.get()),
            Some(SinkUpset::Fail) => return Err(self.fail()),
        };
        let count = octets.len().min(most);
        self.keep(&octets[..count])
    }

    fn failures(&self) -> u64 {
        self.failures
    }
}
