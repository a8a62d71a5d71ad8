//! Octets of a stream that stand one after another.

ghost use Rattle.std.specs.Prelude.{◌≡◌, ◌<◌, ◌+◌, ◌^◌, ◌++◌, ℕ, Some, None, cond, nat_lt, []};
ghost use Rattle.std.specs.Prelude.{◌↔◌, IsTrue, OnOk, length};
ghost use Rattle.std.specs.Option.{option_or};
ghost use Rattle.streams.specs.Given.{total, giver_at, known_at, piece_at, run_giver, AreCounted};

use crate::connection::{Run, Stream};
use crate::gathered::Giver;
use std::alloc::{AllocError, Allocator};

/// Octets that stand one after another, and who gave them first.
#[derive(Drop)]
pub struct Stretch<A: Allocator> {
    pub octets: Vec<u8, A>,
    pub runs: Vec<Run, A>,
}

/// Puts so many octets of one giver after the others.
fn add_run<A: Allocator>(
    runs: &mut Vec<Run, A>,
    count: usize,
    giver: Giver,
) -> Result<(), AllocError>
    requires fits { total runs.old.items + count < 2 ^ 64 }
    ensures total { OnOk result (total runs.new.items ≡ total runs.old.items + count) }
    ensures givers { OnOk result ((place : ℕ) → giver_at runs.new.items place
        ≡ option_or (giver_at runs.old.items place)
        (cond (nat_lt place (total runs.old.items + count)) (Some giver) None)) }
    ensures counted { OnOk result (AreCounted runs.old.items → AreCounted runs.new.items) }
{
    if count == 0 {
        return Ok(());
    }
    let mut count = count;
    if let Some(last) = runs.pop() {
        if is_of(&last, giver) {
            count += last.count;
        } else {
            runs.push(last)?;
        }
    }
    runs.push(run_of(count, giver))?;
    Ok(())
}

/// Whether this giver gave the octets of a run.
fn is_of(run: &Run, giver: Giver) -> bool
    ensures { IsTrue result ↔ (run_giver run.now ≡ giver) }
{
    run.packet == giver.packet && run.second == giver.second && run.micro == giver.micro
}

/// So many octets of one giver.
fn run_of(count: usize, giver: Giver) -> Run
    ensures { result ≡ record {
      count = count;
      packet = giver.packet;
      second = giver.second;
      micro = giver.micro;
    } }
{
    Run {
        count,
        packet: giver.packet,
        second: giver.second,
        micro: giver.micro,
    }
}

impl<A: Allocator + Copy> Stretch<A> {
    /// No octets. It takes no memory.
    pub fn new(alloc: A) -> Stretch<A>
        ensures octets { result.octets.items ≡ [] }
        ensures runs { result.runs.items ≡ [] }
    {
        Stretch {
            octets: Vec::new(alloc),
            runs: Vec::new(alloc),
        }
    }

    /// How many octets they are.
    pub fn count(&self) -> u64
        ensures count { result ≡ length self.now.octets.items }
        ensures bound { result < 2 ^ 63 }
    {
        self.octets.len() as u64
    }

    /// The octets, and who gave them.
    pub fn stream(&self) -> Stream<'_>
        ensures octets { result.octets.now ≡ self.entry.now.octets.items }
        ensures runs { result.runs.now ≡ self.entry.now.runs.items }
    {
        Stream {
            octets: &self.octets,
            runs: &self.runs,
        }
    }

    /// Puts octets of one giver after the others.
    pub fn append(&mut self, octets: &[u8], giver: Giver) -> Result<(), AllocError>
        requires covered { total self.old.runs.items ≡ length self.old.octets.items }
        ensures octets { OnOk result (length self.new.octets.items
            ≡ length self.old.octets.items + length octets.now) }
        ensures covered { OnOk result (total self.new.runs.items ≡ length self.new.octets.items) }
        ensures counted { OnOk result (AreCounted self.old.runs.items
            → AreCounted self.new.runs.items) }
        ensures known { OnOk result ((place : ℕ) →
            known_at self.new.octets.items self.new.runs.items place
            ≡ option_or (known_at self.old.octets.items self.old.runs.items place)
            (piece_at (length self.old.octets.items) octets.now giver place)) }
    {
        self.octets.extend_from_slice(octets)?;
        add_run(&mut self.runs, octets.len(), giver)?;
        Ok(())
    }

    /// Puts another stretch after this one.
    pub fn join(&mut self, other: &Stretch<A>) -> Result<(), AllocError>
        ensures octets { OnOk result (self.new.octets.items
            ≡ self.old.octets.items ++ other.now.octets.items) }
        ensures runs { OnOk result (self.new.runs.items
            ≡ self.old.runs.items ++ other.now.runs.items) }
    {
        self.octets.extend_from_slice(&other.octets)?;
        self.runs.extend_from_slice(&other.runs)?;
        Ok(())
    }
}
