//! Runs of messages alike.

ghost use Rattle.std.specs.Prelude.{◌≡◌, ◌+◌, ◌-◌, ◌<◌, ℕ, drop, get_or, length, reverse, take};
ghost use Rattle.mrt.specs.Reader.{shown_of};
ghost use Rattle.bgp_recording.specs.declared.entry.Entry.{Entry as E};
ghost use Rattle.bgp_ladder.specs.Runs.{IsRun, are_alike, are_linked, is_apart, is_marked};
ghost use Rattle.bgp_ladder.specs.Runs.{is_received, is_sent, part_of, run_at, type_of};

use crate::rows::Ladder;
use bgp_recording::Entry;
use mrt::Record;

/// So many records of a run have a row each, at the most.
const MOST: usize = 40;

/// A run of messages alike, at one of them.
#[derive(Clone, Copy, Debug)]
pub(crate) struct Run {
    /// How many they are.
    pub(crate) length: usize,
    /// How many of them are behind that one.
    pub(crate) behind: usize,
}

/// How a record stands in a ladder.
#[derive(Clone, Copy, Debug, PartialEq, Eq)]
pub(crate) enum Part {
    /// It has a row of its own.
    Own,
    /// It has one, behind a row that sums up the records before it.
    Last,
    /// A row sums it up, with those behind it: so many.
    Sum(usize),
    /// The row of a record before it sums it up.
    Summed,
}

/// Returns the type of a message, or 0 if its octets don't reach to it.
pub(crate) fn type_of(octets: &[u8]) -> u8
    ensures { result ≡ type_of octets.now }
{
    if 18 < octets.len() { octets[18] } else { 0 }
}

/// Checks whether a record is a message of this type that was received.
fn is_received(number: u8, shown: &Record<'_>) -> bool
    ensures { result ≡ is_received number (shown_of shown.now) }
{
    match shown {
        Record::In(_, octets) => type_of(octets) == number,
        Record::Out(..) => false,
        Record::Change(..) => false,
    }
}

/// Checks whether a record is a message of this type that was sent.
fn is_sent(number: u8, shown: &Record<'_>) -> bool
    ensures { result ≡ is_sent number (shown_of shown.now) }
{
    match shown {
        Record::In(..) => false,
        Record::Out(_, octets) => type_of(octets) == number,
        Record::Change(..) => false,
    }
}

/// Checks whether both records are messages of one direction and of one type.
fn are_alike(shown: &Record<'_>, next: &Record<'_>) -> bool
    ensures { result ≡ are_alike (shown_of shown.now) (shown_of next.now) }
{
    match shown {
        Record::In(_, octets) => is_received(type_of(octets), next),
        Record::Out(_, octets) => is_sent(type_of(octets), next),
        Record::Change(..) => false,
    }
}

/// Checks whether the record with this number is the one at this place.
pub(crate) fn is_marked(place: Option<usize>, number: usize) -> bool
    ensures { result ≡ is_marked place number }
{
    match place {
        None => false,
        Some(place) => number == place,
    }
}

/// Checks whether the record with this number belongs to no run: it is that of the no, or the lines
/// are about it.
fn is_apart(ladder: &Ladder, number: usize) -> bool
    ensures { result ≡ is_apart ladder.now number }
{
    is_marked(ladder.impossible, number) || is_marked(ladder.asked, number)
}

/// Checks whether the record with this number and the next belong to one run.
fn are_linked(ladder: &Ladder, number: usize, shown: &Record<'_>, next: &Record<'_>) -> bool
    requires { number < u64.MAX }
    ensures { result ≡ are_linked ladder.now number (shown_of shown.now) (shown_of next.now) }
{
    if is_apart(ladder, number) || is_apart(ladder, number + 1) {
        false
    } else {
        are_alike(shown, next)
    }
}

/// Returns how many of the records behind the one with this number belong to its run.
fn run_behind(ladder: &Ladder, entries: &[Entry<'_>], number: usize) -> usize
    requires { number < length entries.now }
    ensures within { number + result < length entries.now }
    ensures run { result ≡ run_at ladder.now number (drop number entries.now) }
{
    let most = entries.len() - number - 1;
    for count in 0..most {
        let last = number + count;
        let next = &entries[last + 1];
        if !are_linked(ladder, last, &entries[last].record, &next.record) {
            return count;
        }
    }
    most
}

/// Returns the run of the record with this number, behind one of this run.
pub(crate) fn next_run(ladder: &Ladder, entries: &[Entry<'_>], number: usize, run: Run) -> Run
    requires within { number < length entries.now }
    requires run { IsRun ladder.now (reverse (take number entries.now)) (drop number entries.now)
        run }
    ensures { IsRun ladder.now (reverse (take (number + 1) entries.now))
        (drop (number + 1) entries.now) result }
{
    if 0 < run.behind {
        Run {
            length: run.length,
            behind: run.behind - 1,
        }
    } else {
        let behind = run_behind(ladder, entries, number);
        Run {
            length: behind + 1,
            behind,
        }
    }
}

/// Returns the last but one of a run, of which a record with this number is one; that record, if
/// none is behind it.
pub(crate) fn summed_last<'a, 'b>(
    entries: &'b [Entry<'a>],
    number: usize,
    run: Run,
) -> &'b Entry<'a>
    requires { number + run.behind < length entries.now }
    ensures { (d : E) → result.now ≡ get_or entries.now (number + (run.behind - 1)) d }
{
    &entries[number + run.behind.saturating_sub(1)]
}

/// Returns how a record of a run stands in a ladder.
pub(crate) fn part_of(run: Run) -> Part
    requires { run.behind < run.length }
    ensures { (before : ℕ) → run.length ≡ before + 1 + run.behind
        → result ≡ part_of before run.behind }
{
    let before = run.length - 1 - run.behind;
    if run.length <= MOST || before == 0 {
        Part::Own
    } else if run.behind == 0 {
        Part::Last
    } else if before == 1 {
        Part::Sum(run.behind)
    } else {
        Part::Summed
    }
}
