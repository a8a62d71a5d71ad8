//! The octets of a stream that are given, in whatever order they come.

ghost use Rattle.std.specs.Prelude.{◌≡◌, ◌<◌, ◌≤◌, ◌+◌, ◌^◌, ℕ, Some, None, IsTrue, IsFalse};
ghost use Rattle.std.specs.Prelude.{OnOk, MatchOption, length, true};
ghost use Rattle.std.specs.Option.{option_or, option_map, is_some};
ghost use Rattle.streams.specs.Given.{total, given_at, piece_at, size, AreCounted};
ghost use Rattle.streams.specs.Given.{contradicts, first_conflict, first_new, first_after};
ghost use Rattle.streams.specs.Islands.{AreIslands, AreFrom, IsFree, IsFirstAfter, IsNoneAfter};
ghost use Rattle.streams.specs.Islands.{IsSound, IsTouching};

use crate::connection::Stream;
use crate::stretch::Stretch;
use std::alloc::{AllocError, Allocator};
use std::collections::BTreeMap;

/// The packet that gave an octet first.
#[derive(Clone, Copy, Debug, PartialEq, Eq)]
pub struct Giver {
    pub packet: u64,
    pub second: u32,
    pub micro: Option<u32>,
}

/// An octet, and who gave it first.
#[derive(Clone, Copy, Debug, PartialEq, Eq)]
pub struct Given {
    pub octet: u8,
    pub giver: Giver,
}

/// The octets of a stream that are given.
#[derive(Drop)]
pub struct Gathered<A: Allocator> {
    alloc: A,
    /// Those from the first on, as far as none is missing.
    known: Stretch<A>,
    /// Those after a hole, by the place right after their last one: no two of them overlap.
    islands: BTreeMap<u64, Stretch<A>, A>,
}

/// So many places: all of them are given, or none is.
#[derive(Clone, Copy)]
struct Part {
    is_given: bool,
    count: usize,
}

/// The lesser of two counts.
fn at_most(places: u64, count: usize) -> usize
    ensures within { result ≤ count }
    ensures few { result ≤ places }
    ensures some { 0 < places → 0 < count → 0 < result }
{
    if places < count as u64 {
        places as usize
    } else {
        count
    }
}

impl<A: Allocator + Copy> Gathered<A> {
    /// Nothing is given. It takes no memory.
    pub fn new(alloc: A) -> Gathered<A>
        ensures sound { IsSound result }
        ensures given { (place : ℕ) → given_at result place ≡ None }
        ensures size { size result ≡ 0 }
    {
        Gathered {
            alloc,
            known: Stretch::new(alloc),
            islands: BTreeMap::new(alloc),
        }
    }

    /// How many octets are known: given from the first on, none missing.
    pub fn known(&self) -> u64
        ensures count { result ≡ length self.now.known.octets.items }
        ensures bound { result < 2 ^ 63 }
    {
        self.known.count()
    }

    /// The octets known, and who gave them.
    pub fn stream(&self) -> Stream<'_>
        ensures octets { result.octets.now ≡ self.entry.now.known.octets.items }
        ensures runs { result.runs.now ≡ self.entry.now.known.runs.items }
    {
        self.known.stream()
    }

    /// The first island that ends after the place, and the place right after its last octet.
    fn island_after(&self, place: u64) -> Option<(u64, &Stretch<A>)>
        requires { place + 1 < 2 ^ 64 }
        ensures { MatchOption result (IsNoneAfter self.entry.now.islands place)
            (λ found. IsFirstAfter self.entry.now.islands place found.0 found.1.now) }
    {
        match self.islands.range(place + 1..).next() {
            Some((end, island)) => Some((*end, island)),
            None => None,
        }
    }

    /// How many of so many places, from this one on, are all given, or how many aren't.
    fn part_from(&self, place: u64, count: usize) -> Part
        requires sound { IsSound self.now }
        requires some { 0 < count }
        requires fits { place + count < 2 ^ 64 }
        ensures some { 0 < result.count }
        ensures within { result.count ≤ count }
        ensures given { IsTrue result.is_given → (at : ℕ) → place ≤ at →
            at < place + result.count → is_some (given_at self.now at) ≡ true }
        ensures free { IsFalse result.is_given →
            IsFree self.now place (place + result.count) }
    {
        let known = self.known();
        if place < known {
            return Part {
                is_given: true,
                count: at_most(known - place, count),
            };
        }
        let Some((end, island)) = self.island_after(place) else {
            return Part {
                is_given: false,
                count,
            };
        };
        let first = end - island.count();
        if first <= place {
            Part {
                is_given: true,
                count: at_most(end - place, count),
            }
        } else {
            Part {
                is_given: false,
                count: at_most(first - place, count),
            }
        }
    }

    /// Puts octets of one giver, none of which is given, after a hole: onto the end of the island
    /// that ends where they begin, or as an island of their own.
    fn hold(&mut self, place: u64, octets: &[u8], giver: Giver) -> Result<(), AllocError>
        requires sound { IsSound self.old }
        requires fits { place + length octets.now < 2 ^ 64 }
        requires some { 0 < length octets.now }
        requires free { IsFree self.old place (place + length octets.now) }
        requires apart { length self.old.known.octets.items < place }
        ensures sound { OnOk result (IsSound self.new) }
        ensures given { OnOk result ((at : ℕ) → given_at self.new at
            ≡ option_or (given_at self.old at) (piece_at place octets.now giver at)) }
        ensures size { OnOk result (size self.new ≤ size self.old + length octets.now) }
    {
        let mut island = match self.islands.remove(&place) {
            Some(island) => island,
            None => Stretch::new(self.alloc),
        };
        island.append(octets, giver)?;
        match self.islands.insert(place + octets.len() as u64, island) {
            Ok(_) => Ok(()),
            Err(_) => Err(AllocError),
        }
    }

    /// The place right after the island that begins right after what is known, if there is one.
    fn touching(&self) -> Option<u64>
        requires islands { AreIslands self.now.islands }
        requires from { AreFrom (length self.now.known.octets.items) self.now.islands }
        ensures { IsTouching self.now result }
    {
        let known = self.known();
        match self.island_after(known) {
            Some((end, island)) if end - island.count() == known => Some(end),
            _ => None,
        }
    }

    /// Puts after the octets known the islands that begin there.
    fn absorb(&mut self) -> Result<(), AllocError>
        requires covered { total self.old.known.runs.items ≡ length self.old.known.octets.items }
        requires counted { AreCounted self.old.known.runs.items }
        requires islands { AreIslands self.old.islands }
        requires from { AreFrom (length self.old.known.octets.items) self.old.islands }
        ensures sound { OnOk result (IsSound self.new) }
        ensures given { OnOk result ((at : ℕ) → given_at self.new at ≡ given_at self.old at) }
        ensures size { OnOk result (size self.new ≡ size self.old) }
    {
        while let Some(end) = self.touching() {
            let Some(island) = self.islands.remove(&end) else {
                unreachable!();
            };
            self.known.join(&island)?;
        }
        Ok(())
    }

    /// Puts octets of one giver, none of which is given.
    fn put_part(&mut self, place: u64, octets: &[u8], giver: Giver) -> Result<(), AllocError>
        requires sound { IsSound self.old }
        requires fits { place + length octets.now < 2 ^ 64 }
        requires some { 0 < length octets.now }
        requires free { IsFree self.old place (place + length octets.now) }
        ensures sound { OnOk result (IsSound self.new) }
        ensures given { OnOk result ((at : ℕ) → given_at self.new at
            ≡ option_or (given_at self.old at) (piece_at place octets.now giver at)) }
        ensures size { OnOk result (size self.new ≤ size self.old + length octets.now) }
    {
        if place > self.known() {
            return self.hold(place, octets, giver);
        }
        self.known.append(octets, giver)?;
        self.absorb()?;
        Ok(())
    }

    /// Puts octets of one giver: the first has this place, and an octet that is given already stays
    /// as it is. Refused for memory, some may be put.
    pub fn put(&mut self, place: u64, octets: &[u8], giver: Giver) -> Result<(), AllocError>
        requires sound { IsSound self.old }
        requires fits { place + length octets.now < 2 ^ 64 }
        ensures sound { OnOk result (IsSound self.new) }
        ensures given { OnOk result ((at : ℕ) → given_at self.new at
            ≡ option_or (given_at self.old at) (piece_at place octets.now giver at)) }
        ensures size { OnOk result (size self.new ≤ size self.old + length octets.now) }
    {
        let mut done = 0;
        while done < octets.len() {
            let at = place + done as u64;
            let part = self.part_from(at, octets.len() - done);
            let next = done + part.count;
            if !part.is_given {
                self.put_part(at, &octets[done..next], giver)?;
            }
            done = next;
        }
        Ok(())
    }

    /// The first place at which one of the octets contradicts what was given before, or stands at
    /// the place of the direction's FIN or after it.
    pub fn first_conflict(&self, place: u64, octets: &[u8], fin: Option<u64>) -> Option<u64>
        requires sound { IsSound self.now }
        requires fits { place + length octets.now < 2 ^ 64 }
        ensures { result ≡ first_conflict (given_at self.now) fin place octets.now }
    {
        if !octets.is_empty() && place >= self.known() && self.island_after(place).is_none() {
            return first_after(fin, place, octets.len());
        }
        self.first_contradicted(place, octets, fin)
    }

    /// The same, octet by octet.
    fn first_contradicted(&self, place: u64, octets: &[u8], fin: Option<u64>) -> Option<u64>
        requires sound { IsSound self.now }
        requires fits { place + length octets.now < 2 ^ 64 }
        ensures { result ≡ first_conflict (given_at self.now) fin place octets.now }
    {
        for (i, octet) in octets.iter().enumerate() {
            let at = place + i as u64;
            if contradicts(self.octet_at(at), fin, at, *octet) {
                return Some(at);
            }
        }
        None
    }

    /// The first place at which one of the octets stands that wasn't given before.
    pub fn first_new(&self, place: u64, octets: &[u8]) -> Option<u64>
        requires sound { IsSound self.now }
        requires fits { place + length octets.now < 2 ^ 64 }
        ensures { result ≡ first_new (given_at self.now) place octets.now }
    {
        for i in 0..octets.len() {
            let at = place + i as u64;
            if !self.is_given(at) {
                return Some(at);
            }
        }
        None
    }

    /// Whether the octet at the place is given.
    fn is_given(&self, place: u64) -> bool
        requires sound { IsSound self.now }
        requires fits { place + 1 < 2 ^ 64 }
        ensures { result ≡ is_some (given_at self.now place) }
    {
        self.octet_at(place).is_some()
    }

    /// The octet at the place, if it is given.
    fn octet_at(&self, place: u64) -> Option<u8>
        requires sound { IsSound self.now }
        requires fits { place + 1 < 2 ^ 64 }
        ensures { result ≡ option_map (λ given. given.octet) (given_at self.now place) }
    {
        if place < self.known() {
            return Some(self.known.octets[place as usize]);
        }
        let Some((end, island)) = self.island_after(place) else {
            return None;
        };
        let first = end - island.count();
        if place < first {
            return None;
        }
        Some(island.octets[(place - first) as usize])
    }
}

/// The first of so many places, from this one on, that is the FIN's or after it.
fn first_after(fin: Option<u64>, place: u64, count: usize) -> Option<u64>
    requires { place + count < 2 ^ 64 }
    ensures { result ≡ first_after fin place count }
{
    match fin {
        Some(fin) if fin.max(place) < place + count as u64 => Some(fin.max(place)),
        _ => None,
    }
}

/// Whether an octet contradicts the one that was given before, if one was, or stands at the place
/// of the direction's FIN or after it.
fn contradicts(before: Option<u8>, fin: Option<u64>, place: u64, octet: u8) -> bool
    ensures { result ≡ contradicts before fin place octet }
{
    before.is_some_and(|other| other != octet) || fin.is_some_and(|fin| fin <= place)
}
