//! A source in memory, which can be told to fail, to shorten or to end a call.

ghost use Rattle.std.specs.Prelude.{◌≡◌, ◌≢◌, ◌==◌, ◌+◌, ◌^◌, ◌<◌, ◌≤◌, [], length, min, take};
ghost use Rattle.std.specs.Prelude.{false, None, Some, IsTrue, IsFalse, IfOk, OnErr};
ghost use Rattle.std.specs.Int.NonZero.{non_zero_usize_get};
ghost use Rattle.mrt.specs.declared.mem_source.SourceUpset.TheVariants.{End};

use crate::failure::Failed;
use crate::source::Source;
use std::alloc::{Allocator, Global};
use std::num::NonZeroUsize;

/// What a source in memory does once in place of giving what it can.
#[derive(Clone, Copy, Debug, PartialEq, Eq)]
pub enum SourceUpset {
    /// The call fails.
    Fail,
    /// The call gives at most so many octets.
    Short(NonZeroUsize),
    /// The call answers the end, and so do all calls after it.
    End,
}

/// A source of octets in memory.
///
/// It gives as many as there is room for, unless it was told otherwise. Calls are counted from 0;
/// one that has no room gives nothing, and isn't counted.
#[derive(Drop)]
pub struct MemSource<A: Allocator = Global> {
    octets: Vec<u8, A>,
    given: usize,
    most: NonZeroUsize,
    upset: Option<SourceUpset>,
    calls_before: u64,
    failures: u64,
    has_ended: bool,
    ghost within: { given ≤ length octets.items },
    ghost below: { given < 2 ^ 63 },
    // Unless it is told to end early, it tells its end only where it has given all.
    ghost told: { IsTrue has_ended → upset ≢ Some End → given ≡ length octets.items },
}

impl<A: Allocator> MemSource<A> {
    ghost use Rattle.mrt.specs.MemSource.{source_state, fresh_source, failed_source};
    ghost use Rattle.mrt.specs.MemSource.{octets_left, next_upset, after_call};

    /// A source that gives these octets and then ends.
    pub fn new(octets: Vec<u8, A>) -> MemSource<A>
        ensures { source_state result ≡ fresh_source octets.items }
    {
        MemSource {
            octets,
            given: 0,
            most: NonZeroUsize::MAX,
            upset: None,
            calls_before: 0,
            failures: 0,
            has_ended: false,
        }
    }

    /// The same source, which gives at most so many octets in each call.
    pub fn in_pieces_of(mut self, most: NonZeroUsize) -> MemSource<A>
        ensures { source_state result
            ≡ record (source_state self) { most = non_zero_usize_get most } }
    {
        self.most = most;
        self
    }

    /// The same source, which does something else in the call of this number, counted from the
    /// next one, which is 0. It must not have told its end.
    pub fn upset_at(mut self, call: u64, upset: SourceUpset) -> MemSource<A>
        requires { IsFalse (source_state self).has_ended }
        ensures { source_state result
            ≡ record (source_state self) { calls_before = call; upset = Some upset } }
    {
        self.calls_before = call;
        self.upset = Some(upset);
        self
    }

    /// The octets that it holds, given or not.
    pub fn octets(&self) -> &[u8]
        ensures { result.now ≡ (source_state self.now).octets }
    {
        self.octets.as_slice()
    }

    /// How many octets it has given.
    pub fn given(&self) -> usize
        ensures { result ≡ (source_state self.now).given }
    {
        self.given
    }

    // Counts a call, and answers what else happens in it.
    fn begin_call(&mut self) -> Option<SourceUpset>
        ensures upset { result ≡ next_upset (source_state self.old) }
        ensures state { source_state self.new ≡ after_call (source_state self.old) }
    {
        if self.calls_before > 0 {
            self.calls_before -= 1;
            return None;
        }
        let upset = self.upset;
        if upset != Some(SourceUpset::End) {
            self.upset = None;
        }
        upset
    }

    // Gives octets at the front of a buffer with room, and answers how many.
    fn give(&mut self, most: usize, buffer: &mut [u8]) -> usize
        requires some { 0 < most }
        requires room { 0 < length buffer.old }
        ensures count { result
            ≡ min (min (length (octets_left (source_state self.old))) most) (length buffer.old) }
        ensures front { take result buffer.new ≡ take result (octets_left (source_state self.old)) }
        ensures state { source_state self.new ≡ record (source_state self.old) {
          given = (source_state self.old).given + result;
          has_ended = result == 0;
        } }
    {
        let left = self.octets.split_at(self.given).1;
        let count = left.len().min(most).min(buffer.len());
        buffer[..count].copy_from_slice(&left[..count]);
        self.given += count;
        self.has_ended = count == 0;
        count
    }

    // Counts a failure.
    fn fail(&mut self) -> Failed
        requires { (source_state self.old).failures < u64.MAX }
        ensures { source_state self.new ≡ failed_source (source_state self.old) }
    {
        self.failures += 1;
        self.has_ended = false;
        Failed
    }
}

impl<A: Allocator> Source for MemSource<A> {
    ghost use Rattle.mrt.specs.MemSource.{source_state, read_answer, after_read};
    ghost use Rattle.mrt.specs.MemGives.{Gives, gives_nothing, gives_joined};

    ghost gives = { λ a b. Gives (source_state a) (source_state b) };

    ghost given_count = { λ a. (source_state a).given };

    ghost failures = { λ a. (source_state a).failures };

    ghost has_ended = { λ a. (source_state a).has_ended };

    ghost nothing = { gives_nothing };

    ghost joined = { λ a b c. gives_joined (source_state a) (source_state b) (source_state c) };

    ghost counted = { λ a b xs given. given.count };

    ghost below = { λ a. a.below };

    fn read(&mut self, buffer: &mut [u8]) -> Result<usize, Failed>
        requires { (source_state self.old).failures < u64.MAX }
        ensures ok { IfOk result (λ count.
            Gives (source_state self.old) (source_state self.new) (take count buffer.new)) }
        ensures err { OnErr result (Gives (source_state self.old) (source_state self.new) []) }

        // What it answers, and the state that it leaves, are determined.
        ensures answer { result ≡ read_answer (source_state self.old) (length buffer.new) }
        ensures state { source_state self.new
            ≡ after_read (source_state self.old) (length buffer.new) }
    {
        if buffer.is_empty() {
            return Ok(0);
        }
        match self.begin_call() {
            None => Ok(self.give(self.most.get(), buffer)),
            Some(SourceUpset::Short(few)) => Ok(self.give(few.get().min(self.most.get()), buffer)),
            Some(SourceUpset::Fail) => Err(self.fail()),
            Some(SourceUpset::End) => {
                self.has_ended = true;
                Ok(0)
            }
        }
    }

    fn failures(&self) -> u64 {
        self.failures
    }
}
