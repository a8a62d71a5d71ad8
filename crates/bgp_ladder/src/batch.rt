//! What the next records show, in words: of some at once, so that one buffer serves them all.

ghost use Rattle.std.specs.Prelude.{◌≡◌, ◌<◌, ◌≤◌, ◌+◌, ◌-◌, [], ◌↔◌, IfOk, IfSome, IsTrue, drop, length, take};
ghost use Rattle.bgp_lines.specs.Form.{Before as Messages};
ghost use Rattle.bgp_values.specs.Opens.{AreOpens};
ghost use Rattle.bgp_ladder.specs.Batch.{AreDeeds, ArePlain, HasWords, Holds, IsBatch, first_end};
ghost use Rattle.bgp_ladder.specs.Batch.{first_zero, zeros};

use crate::deed::deeds_of;
use crate::runs::Part;
use bgp_recording::{Entry, Framings};
use bgp_values::Opens;
use memchr::{memchr, memchr2, memchr3};
use mrt::Record;
use std::alloc::{AllocError, Allocator};

/// The words of so many octets of records are made at once, at the most, or those of one record:
/// mostly fewer than `Lines` holds, so that they come in one piece.
const AT_ONCE: usize = 1 << 15;

/// A record counts as so many octets, at the least.
const LEAST: usize = 64;

/// So many octets are searched at once for octets 0, which an octet counts.
const FEW: usize = 255;

/// What the next records show, in words.
#[derive(Drop)]
pub(crate) struct Batch<A: Allocator> {
    /// The words of each, with an octet 0 behind them.
    octets: Vec<u8, A>,
    /// Where those of the next begin.
    at: usize,
    /// Of how many records they are.
    left: usize,
    /// Whether it is known that HTML has all of them as they are.
    are_plain: bool,
    ghost within: { at ≤ length octets.items },
    ghost plain: { IsTrue are_plain → ArePlain octets.items },
}

/// Checks whether HTML has octets as they are.
fn are_plain(octets: &[u8]) -> bool
    ensures { IsTrue result → ArePlain octets.now }
{
    memchr3(b'&', b'<', b'>', octets).is_none() && memchr2(b'"', b'\'', octets).is_none()
}

/// Returns how many octets 0 there are of few: the processor compares some at once.
fn few_zeros(octets: &[u8]) -> u8
    requires { length octets.now ≤ 255 }
    ensures value { result ≡ zeros octets.now }
    ensures within { result ≤ length octets.now }
{
    let mut count = 0;
    for octet in octets {
        if *octet == 0 {
            count += 1;
        }
    }
    count
}

/// Returns how many octets 0 there are.
fn zeros_in(octets: &[u8]) -> usize
    ensures { result ≡ zeros octets.now }
{
    let mut count = 0;
    let mut rest = octets;
    while !rest.is_empty() {
        let (piece, behind) = rest.split_at(rest.len().min(FEW));
        count += few_zeros(piece) as usize;
        rest = behind;
    }
    count
}

/// Returns where the first octet 0 stands, or how many octets there are.
fn first_zero(octets: &[u8]) -> usize
    ensures value { result ≡ first_zero octets.now }
    ensures within { result ≤ length octets.now }
{
    match memchr(0, octets) {
        Some(place) => place,
        None => octets.len(),
    }
}

/// Returns where the words of the first of so many records end.
fn first_end(left: usize, octets: &[u8]) -> usize
    ensures value { result ≡ first_end left octets.now }
    ensures within { result ≤ length octets.now }
{
    match left {
        0 => 0,
        1 => octets.len().saturating_sub(1),
        _ => first_zero(octets),
    }
}

/// Returns as how many octets a record counts.
fn size_of(shown: &Record<'_>) -> usize {
    match shown {
        Record::In(_, octets) => octets.len().max(LEAST),
        Record::Out(_, octets) => octets.len().max(LEAST),
        Record::Change(..) => LEAST,
    }
}

/// Returns of how many of these the words are made at once.
fn count_of(entries: &[Entry<'_>]) -> usize
    requires { 0 < length entries.now }
    ensures some { 0 < result }
    ensures within { result ≤ length entries.now }
{
    let mut left = AT_ONCE;
    for place in 0..entries.len() {
        let size = size_of(&entries[place].record);
        if left < size {
            return place.max(1);
        }
        left -= size;
    }
    entries.len()
}

/// Checks whether a record has a row of its own.
fn has_words(part: Part) -> bool
    ensures { IsTrue result ↔ HasWords part }
{
    match part {
        Part::Own => true,
        Part::Last => true,
        Part::Sum(_) => false,
        Part::Summed => false,
    }
}

impl<A: Allocator> Batch<A> {
    /// Returns the words of no record.
    pub(crate) fn none(alloc: A) -> Batch<A>
        ensures empty { drop result.at result.octets.items ≡ [] }
        ensures left { result.left ≡ 0 }
    {
        Batch {
            octets: Vec::new(alloc),
            at: 0,
            left: 0,
            are_plain: false,
        }
    }

    /// Returns where the words of the next record end.
    pub(crate) fn end(&self) -> usize
        ensures value { result ≡ self.now.at
            + first_end self.now.left (drop self.now.at self.now.octets.items) }
        ensures within { result ≤ length self.now.octets.items }
    {
        self.at + first_end(self.left, &self.octets[self.at..])
    }

    /// Returns those words, which end there.
    pub(crate) fn words(&self, end: usize) -> &[u8]
        requires first { self.now.at ≤ end }
        requires last { end ≤ length self.now.octets.items }
        ensures { result.now ≡ take (end - self.now.at) (drop self.now.at self.now.octets.items) }
    {
        &self.octets[self.at..end]
    }

    /// Whether it is known that HTML has these words, and each part of them, as they are.
    pub(crate) fn are_plain(&self) -> bool
        ensures { IsTrue result → ArePlain self.now.octets.items }
    {
        self.are_plain
    }

    /// Passes over those words, which end there.
    pub(crate) fn pass(&mut self, end: usize)
        requires { end ≤ length self.old.octets.items }
        ensures octets { self.new.octets.items ≡ self.old.octets.items }
        ensures behind { drop self.new.at self.old.octets.items
            ≡ drop (end + 1) self.old.octets.items }
        ensures left { self.new.left ≡ self.old.left - 1 }
    {
        self.at = (end + 1).min(self.octets.len());
        self.left = self.left.saturating_sub(1);
    }
}

/// Returns these words, which are those of so many records.
fn batch_of<A: Allocator>(octets: Vec<u8, A>, left: usize) -> Batch<A>
    ensures octets { drop result.at result.octets.items ≡ octets.items }
    ensures left { result.left ≡ left }
{
    let are_plain = are_plain(octets.as_slice());
    Batch {
        octets,
        at: 0,
        left,
        are_plain,
    }
}

/// Returns the words of so many of these, if there is memory for them and an octet 0 behind each
/// and nowhere else.
fn words_of<A: Allocator>(
    alloc: A,
    opens: &Opens,
    framings: Framings,
    entries: &[Entry<'_>],
) -> Option<Vec<u8, A>>
    ensures deeds { IfSome result (λ octets. AreDeeds framings opens.now entries.now octets.items) }
    ensures parted { IfSome result (λ octets. zeros octets.items ≡ length entries.now) }
{
    match deeds_of(alloc, opens, framings, entries) {
        Ok(octets) => {
            if zeros_in(octets.as_slice()) == entries.len() {
                Some(octets)
            } else {
                None
            }
        }
        Err(AllocError) => None,
    }
}

/// Returns the words of the first of these. No words are known to hold an octet 0; if some do, or
/// if there is no memory for those of more, they are the first record's alone.
fn begun<A: Allocator + Copy>(
    alloc: A,
    opens: &Opens,
    framings: Framings,
    entries: &[Entry<'_>],
) -> Result<Batch<A>, AllocError>
    requires { 0 < length entries.now }
    ensures holds { IfOk result (λ batch. Holds framings opens.now entries.now batch.left
        (drop batch.at batch.octets.items)) }
    ensures some { IfOk result (λ batch. 0 < batch.left) }
{
    let count = count_of(entries);
    match words_of(alloc, opens, framings, entries.split_at(count).0) {
        Some(octets) => Ok(batch_of(octets, count)),
        None => {
            let octets = deeds_of(alloc, opens, framings, entries.split_at(1).0)?;
            Ok(batch_of(octets, 1))
        }
    }
}

/// Returns the words of the first of these, behind these OPENs, if it has a row of its own: they are
/// in that batch, or in a new one.
pub(crate) fn filled<A: Allocator + Copy>(
    alloc: A,
    batch: Batch<A>,
    opens: &Opens,
    framings: Framings,
    entries: &[Entry<'_>],
    part: Part,
) -> Result<Batch<A>, AllocError>
    requires { 0 < length entries.now }
    ensures holds { IfOk result (λ new. (before : Messages)
        → AreOpens before.received before.sent opens.now
        → IsBatch framings before entries.now batch.left (drop batch.at batch.octets.items)
        → IsBatch framings before entries.now new.left (drop new.at new.octets.items)) }
    ensures some { IfOk result (λ new. HasWords part → 0 < new.left) }
{
    if 0 < batch.left || !has_words(part) {
        return Ok(batch);
    }
    let new = begun(alloc, opens, framings, entries)?;
    Ok(new)
}
