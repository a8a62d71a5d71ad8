//! What takes octets: a file, a socket, a text in memory.

ghost use Rattle.std.specs.Prelude.{◌≡◌, ℕ, ◌<◌, ◌≤◌, ◌+◌, ◌-◌, ◌^◌, min};
ghost use Rattle.std.specs.Prelude.{List, [], ◌++◌, length, take, IsSome, IfOk, OnOk, OnErr};
ghost use Rattle.mrt.specs.Failures.{failures_after};
ghost use Rattle.mrt.specs.Sink.{TakesBeginning};

use crate::failure::Failed;
use std::io::{ErrorKind, Write};

/// What takes octets, and counts how often it failed.
///
/// The members say what a sink tells of itself: a text in memory tells which octets it took, a file
/// tells only how many.
pub trait Sink {
    /// From the first state to the second it took these octets, as far as it tells.
    ghost takes: { Self → Self → List ℕ → Type 0 };

    /// How often it has failed.
    ghost failures: { Self → ℕ };

    /// Takes octets at the front of `octets`, and answers how many: at least one, where there is
    /// one. At `Failed` it took nothing, and has counted one failure more.
    fn write(&mut self, octets: &[u8]) -> Result<usize, Failed>
        requires { failures self.old < u64.MAX }
        ensures bound { IfOk result (λ count. count ≤ length octets.now) }
        ensures some { IfOk result (λ count. 0 < length octets.now → 0 < count) }

        // It took the octets that it answers, and at a failure none.
        ensures ok { IfOk result (λ count. takes self.old self.new (take count octets.now)) }
        ensures err { OnErr result (takes self.old self.new []) }

        ensures failures { failures self.new ≡ failures_after (failures self.old) result };

    /// How often it has failed.
    fn failures(&self) -> u64
        ensures { result ≡ failures self.now };

    /// From a state to itself it took nothing.
    ghost nothing: { (a : Self) → takes a a [] };

    /// What it took, and then more, it took in all.
    ghost joined: { (a b c : Self) (xs ys : List ℕ) →
        takes a b xs → takes b c ys → takes a c (xs ++ ys) };
}

/// Writes all of these octets, in as many writes as the sink needs.
///
/// Fails where one of the writes fails; a beginning of the octets was taken then.
pub fn write_all<S: Sink>(sink: &mut S, octets: &[u8]) -> Result<(), Failed>
    requires { S.failures sink.old < u64.MAX }
    ensures ok { OnOk result (S.takes sink.old sink.new octets.now) }
    ensures err { OnErr result (TakesBeginning S.takes sink.old sink.new octets.now) }
    ensures failures { S.failures sink.new ≡ failures_after (S.failures sink.old) result }
{
    let mut rest = octets;
    while !rest.is_empty() {
        let count = sink.write(rest)?;
        rest = rest.split_at(count).1;
    }
    Ok(())
}

/// A sink made of any writer.
///
/// Each error of the writer is a failure, also one that asks to try again, and so is a write that
/// takes none of the octets that it is given.
#[derive(Drop)]
pub struct FromWrite<W> {
    writer: W,
    taken: u64,
    failures: u64,
    last_error: Option<ErrorKind>,
}

impl<W: Write> FromWrite<W> {
    ghost use Rattle.mrt.specs.FromWrite.{writer_state, fresh_writer, failed_writer};

    /// A sink that has taken nothing yet.
    pub fn new(writer: W) -> FromWrite<W>
        ensures { writer_state result ≡ fresh_writer writer }
    {
        FromWrite {
            writer,
            taken: 0,
            failures: 0,
            last_error: None,
        }
    }

    /// How many octets it has taken, 2 to the 64th, less one, at the most.
    pub fn taken(&self) -> u64
        ensures { result ≡ (writer_state self.now).taken }
    {
        self.taken
    }

    /// The kind of the error by which the last failure came: `WriteZero` where the writer took
    /// nothing, and `None` before the first.
    pub fn last_error(&self) -> Option<ErrorKind>
        ensures { result ≡ (writer_state self.now).last_error }
    {
        self.last_error
    }

    /// The writer, as the last write left it: not flushed.
    pub fn into_inner(self) -> W
        ensures { result ≡ (writer_state self).writer }
    {
        self.writer
    }

    // Counts a failure by such an error.
    fn fail(&mut self, error: ErrorKind) -> Failed
        requires { (writer_state self.old).failures < u64.MAX }
        ensures { writer_state self.new ≡ failed_writer (writer_state self.old) error }
    {
        self.failures += 1;
        self.last_error = Some(error);
        Failed
    }
}

impl<W: Write> Sink for FromWrite<W> {
    ghost use Rattle.mrt.specs.OverCalls.{appends_nothing, appends_joined};
    ghost use Rattle.mrt.specs.FromWrite.{writer_state, Takes};

    ghost takes = { λ a b. Takes W.contents (writer_state a) (writer_state b) };

    ghost failures = { λ a. (writer_state a).failures };

    ghost nothing = { λ a. appends_nothing (W.contents a.writer) };

    ghost joined = { λ a b c.
        appends_joined (W.contents a.writer) (W.contents b.writer) (W.contents c.writer) };

    fn write(&mut self, octets: &[u8]) -> Result<usize, Failed>
        requires { (writer_state self.old).failures < u64.MAX }
        ensures bound { IfOk result (λ count. count ≤ length octets.now) }
        ensures some { IfOk result (λ count. 0 < length octets.now → 0 < count) }
        ensures ok { IfOk result (λ count. Takes W.contents
            (writer_state self.old) (writer_state self.new) (take count octets.now)) }
        ensures err { OnErr result
            (Takes W.contents (writer_state self.old) (writer_state self.new) []) }
        ensures failures { (writer_state self.new).failures
            ≡ failures_after (writer_state self.old).failures result }

        // It counts what it took, and keeps the error by which it failed.
        ensures taken { IfOk result (λ count. (writer_state self.new).taken
            ≡ min ((writer_state self.old).taken + count) (2 ^ 64 - 1)) }
        ensures untaken { OnErr result
            ((writer_state self.new).taken ≡ (writer_state self.old).taken) }
        ensures last_error { OnErr result (IsSome (writer_state self.new).last_error) }
    {
        match self.writer.write(octets) {
            Ok(0) if !octets.is_empty() => Err(self.fail(ErrorKind::WriteZero)),
            Ok(count) => {
                self.taken = self.taken.saturating_add(count as u64);
                Ok(count)
            }
            Err(error) => Err(self.fail(error.kind())),
        }
    }

    fn failures(&self) -> u64 {
        self.failures
    }
}
