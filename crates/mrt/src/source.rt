//! What gives octets: a file, a socket, octets in memory.

ghost use Rattle.std.specs.Prelude.{◌≡◌, ℕ, ◌+◌, ◌-◌, ◌^◌, ◌<◌, ◌≤◌, min, List, [], ◌++◌, length};
ghost use Rattle.std.specs.Prelude.{Bool, take, IsErr, IsOk, IfOk, OnErr};
ghost use Rattle.mrt.specs.Failures.{failures_after};
ghost use Rattle.mrt.specs.Source.{ended_after};

use crate::failure::Failed;
use std::io::{ErrorKind, Read};

/// What gives octets, and counts how often it failed.
///
/// The members say what a source tells of itself: octets in memory tell which octets they gave, a
/// file tells only how many.
pub trait Source {
    /// From the first state to the second it gave these octets, as far as it tells.
    ghost gives: { Self → Self → List ℕ → Type 0 };

    /// How many octets it has given.
    ghost given_count: { Self → ℕ };

    /// How often it has failed.
    ghost failures: { Self → ℕ };

    /// Whether the last read that had room told the end.
    ghost has_ended: { Self → Bool };

    /// Puts octets at the front of `buffer`, and answers how many. `Ok(0)`, where the buffer has
    /// room, is the end. At `Failed` it gave nothing, and has counted one failure more.
    ///
    /// What the buffer has behind those octets is left open, as is all of it after a failure.
    fn read(&mut self, buffer: &mut [u8]) -> Result<usize, Failed>
        requires { failures self.old < u64.MAX }
        ensures bound { IfOk result (λ count. count ≤ length buffer.new) }

        // It gave the octets that it answers, and at a failure none.
        ensures ok { IfOk result (λ count. gives self.old self.new (take count buffer.new)) }
        ensures err { OnErr result (gives self.old self.new []) }

        ensures end { has_ended self.new ≡ ended_after (has_ended self.old) buffer.new result }
        ensures failures { failures self.new ≡ failures_after (failures self.old) result };

    /// How often it has failed.
    fn failures(&self) -> u64
        ensures { result ≡ failures self.now };

    /// From a state to itself it gave nothing.
    ghost nothing: { (a : Self) → gives a a [] };

    /// What it gave, and then more, it gave in all.
    ghost joined: { (a b c : Self) (xs ys : List ℕ) →
        gives a b xs → gives b c ys → gives a c (xs ++ ys) };

    /// The count of octets given rises by as many as it gave.
    ghost counted: { (a b : Self) (xs : List ℕ) →
        gives a b xs → given_count b ≡ given_count a + length xs };

    /// The count of octets given stays below 2 to the 63rd.
    ghost below: { (a : Self) → given_count a < 2 ^ 63 };
}

/// The most octets that a [`FromRead`] gives.
const MOST_OCTETS: u64 = (1 << 63) - 1;

/// A source made of any reader.
///
/// Each error of the reader is a failure, also one that asks to try again. Where 2 to the 63rd
/// octets, less one, have been given, each read with room is a failure, and the reader isn't asked.
#[derive(Drop)]
pub struct FromRead<R> {
    reader: R,
    given: u64,
    failures: u64,
    has_ended: bool,
    last_error: Option<ErrorKind>,
    ghost below: { given < 2 ^ 63 },
}

impl<R: Read> FromRead<R> {
    ghost use Rattle.mrt.specs.FromRead.{reader_state, fresh_reader, failed_reader};

    /// A source that has given nothing yet.
    pub fn new(reader: R) -> FromRead<R>
        ensures { reader_state result ≡ fresh_reader reader }
    {
        FromRead {
            reader,
            given: 0,
            failures: 0,
            has_ended: false,
            last_error: None,
        }
    }

    /// How many octets it has given.
    pub fn given(&self) -> u64
        ensures { result ≡ (reader_state self.now).given }
    {
        self.given
    }

    /// The kind of the error by which the last failure came: `None` before the first, and where the
    /// reader wasn't asked.
    pub fn last_error(&self) -> Option<ErrorKind>
        ensures { result ≡ (reader_state self.now).last_error }
    {
        self.last_error
    }

    /// The reader, as the last read left it.
    pub fn get_ref(&self) -> &R
        ensures { result.now ≡ (reader_state self.now).reader }
    {
        &self.reader
    }

    /// The reader, as the last read left it.
    pub fn into_inner(self) -> R
        ensures { result ≡ (reader_state self).reader }
    {
        self.reader
    }

    // How much of so much room may still be filled.
    fn room(&self, wanted: usize) -> usize
        ensures { result ≡ min wanted (MOST_OCTETS - (reader_state self.now).given) }
    {
        let left = MOST_OCTETS - self.given;
        wanted.min(left as usize)
    }

    // Counts a failure, by an error of the reader if there was one.
    fn fail(&mut self, error: Option<ErrorKind>) -> Failed
        requires { (reader_state self.old).failures < u64.MAX }
        ensures { reader_state self.new ≡ failed_reader (reader_state self.old) error }
    {
        self.failures += 1;
        self.has_ended = false;
        self.last_error = error;
        Failed
    }
}

impl<R: Read> Source for FromRead<R> {
    ghost use Rattle.mrt.specs.FromRead.{reader_state, Gives, gives_nothing, gives_joined};

    ghost gives = { λ a b. Gives R.remaining (reader_state a) (reader_state b) };

    ghost given_count = { λ a. (reader_state a).given };

    ghost failures = { λ a. (reader_state a).failures };

    ghost has_ended = { λ a. (reader_state a).has_ended };

    ghost nothing = { λ a. gives_nothing R.remaining (reader_state a) };

    ghost joined = { λ a b c.
        gives_joined R.remaining (reader_state a) (reader_state b) (reader_state c) };

    ghost counted = { λ a b xs given. given.count };

    ghost below = { λ a. a.below };

    fn read(&mut self, buffer: &mut [u8]) -> Result<usize, Failed>
        requires { (reader_state self.old).failures < u64.MAX }
        ensures bound { IfOk result (λ count. count ≤ length buffer.new) }
        ensures ok { IfOk result (λ count. Gives R.remaining
            (reader_state self.old) (reader_state self.new) (take count buffer.new)) }
        ensures err { OnErr result
            (Gives R.remaining (reader_state self.old) (reader_state self.new) []) }
        ensures end { (reader_state self.new).has_ended
            ≡ ended_after (reader_state self.old).has_ended buffer.new result }
        ensures failures { (reader_state self.new).failures
            ≡ failures_after (reader_state self.old).failures result }

        // It fails where the count of octets given would reach 2 to the 63rd.
        ensures full { (reader_state self.old).given ≡ 2 ^ 63 - 1 →
            0 < length buffer.new → IsErr result }
        ensures last_error { IsOk result →
            (reader_state self.new).last_error ≡ (reader_state self.old).last_error }
    {
        if buffer.is_empty() {
            return Ok(0);
        }
        let room = self.room(buffer.len());
        if room == 0 {
            return Err(self.fail(None));
        }
        match self.reader.read(&mut buffer[..room]) {
            Ok(count) => {
                self.given += count as u64;
                self.has_ended = count == 0;
                Ok(count)
            }
            Err(error) => Err(self.fail(Some(error.kind()))),
        }
    }

    fn failures(&self) -> u64 {
        self.failures
    }
}
