//! The packets that gave the octets of a stream.

ghost use Rattle.std.specs.Prelude.{◌≡◌, ◌<◌, ◌≤◌, [], Some, IfSome, IfNone, IfOk, drop};
ghost use Rattle.std.specs.List.{AllByRecursion};
ghost use Rattle.bgp_recording.specs.First.{IsFirst};
ghost use Rattle.bgp_recording.specs.Givers.{giver, given_by, later_of, earlier_of};
ghost use Rattle.bgp_recording.specs.Moments.{moment_of};
ghost use Rattle.bgp_recording.specs.Givers.{AreLatest, AreEarliest, IsAt, IsNotEmpty};

use crate::pending::Moment;
use std::alloc::{AllocError, Allocator};
use streams::Run;

/// The packet of a run.
fn moment_of(run: &Run) -> Moment
    ensures { result ≡ moment_of run.now }
{
    Moment {
        packet: run.packet,
        second: run.second,
        micro: run.micro,
    }
}

/// The later packet of both, by number.
fn later(best: Option<Moment>, run: &Run) -> Moment
    ensures { result ≡ later_of best run.now }
{
    let moment = moment_of(run);
    match best {
        Some(best) if moment.packet < best.packet => best,
        _ => moment,
    }
}

/// The earlier packet of both, by number.
fn earlier(best: Option<Moment>, run: &Run) -> Moment
    ensures { result ≡ earlier_of best run.now }
{
    let moment = moment_of(run);
    match best {
        Some(best) if best.packet < moment.packet => best,
        _ => moment,
    }
}

/// The runs, each with the latest packet of its own and those before it.
pub(crate) fn latest<A: Allocator>(alloc: A, runs: &[Run]) -> Result<Vec<Run, A>, AllocError>
    requires { AllByRecursion IsNotEmpty runs.now }
    ensures latest { IfOk result (λ latest. AreLatest runs.now latest.items) }
    ensures count { IfOk result (λ latest. given_by latest.items ≡ given_by runs.now) }
{
    let mut out = Vec::new(alloc);
    let mut best = None;
    for run in runs {
        let moment = later(best, run);
        out.push(Run {
            count: run.count,
            packet: moment.packet,
            second: moment.second,
            micro: moment.micro,
        })?;
        best = Some(moment);
    }
    Ok(out)
}

/// The runs, each with the earliest packet of its own, those after it and the end.
pub(crate) fn earliest<A: Allocator>(
    alloc: A,
    runs: &[Run],
    end: Option<Moment>,
) -> Result<Vec<Run, A>, AllocError>
    requires { AllByRecursion IsNotEmpty runs.now }
    ensures earliest { IfOk result (λ earliest. AreEarliest runs.now end earliest.items) }
    ensures count { IfOk result (λ earliest. given_by earliest.items ≡ given_by runs.now) }
{
    let mut out = Vec::new(alloc);
    let mut best = end;
    let mut left = runs;
    while let Some((run, before)) = left.split_last() {
        let moment = earlier(best, run);
        out.push(Run {
            count: run.count,
            packet: moment.packet,
            second: moment.second,
            micro: moment.micro,
        })?;
        best = Some(moment);
        left = before;
    }
    out.reverse();
    Ok(out)
}

/// A place that goes on in a stream, and the run in which it stands.
#[derive(Drop)]
pub(crate) struct Cursor<'a> {
    runs: &'a [Run],
    index: usize,
    /// Where the run begins.
    base: usize,
}

impl<'a> Cursor<'a> {
    /// The beginning of a stream.
    pub(crate) fn new(runs: &'a [Run]) -> Cursor<'a>
        ensures at { IsAt runs.entry.now result }
        ensures base { result.base ≤ 0 }
    {
        Cursor {
            runs,
            index: 0,
            base: 0,
        }
    }

    /// The run in which it stands.
    fn run(&self) -> Option<&'a Run>
        ensures some { IfSome result (λ run.
            IsFirst (drop self.entry.now.index self.entry.now.runs.now) run.now) }
        ensures none { IfNone result (drop self.entry.now.index self.entry.now.runs.now ≡ []) }
    {
        self.runs.get(self.index)
    }

    /// Who gave the octet at a place, not before the last one that was asked for.
    pub(crate) fn giver(&mut self, place: usize) -> Option<Moment>
        requires at { IsAt self.old.runs.now self.old }
        requires base { self.old.base ≤ place }
        ensures gives { result ≡ giver self.old.runs.now place }
        ensures at { IsAt self.old.runs.now self.new }
        ensures base { self.new.base ≤ place }
    {
        while let Some(run) = self.run() {
            if place - self.base < run.count {
                return Some(moment_of(run));
            }
            self.base += run.count;
            self.index += 1;
        }
        None
    }

    /// Who gave the octet at a place where there is one, not before the last one that was asked
    /// for.
    pub(crate) fn moment(&mut self, place: usize) -> Moment
        requires at { IsAt self.old.runs.now self.old }
        requires base { self.old.base ≤ place }
        requires given { place < given_by self.old.runs.now }
        ensures gives { giver self.old.runs.now place ≡ Some result }
        ensures at { IsAt self.old.runs.now self.new }
        ensures base { self.new.base ≤ place }
    {
        self.giver(place).unwrap()
    }
}
