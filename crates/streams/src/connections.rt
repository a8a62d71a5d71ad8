//! The connections of a recording.

ghost use Rattle.std.specs.Prelude.{◌≡◌, ◌∷◌, [], List, OnOk, All, length};
ghost use Rattle.streams.specs.Passed.{Segment, segment_of};
ghost use Rattle.std.specs.Prelude.{MatchResult, MatchOption, count_by};
ghost use Rattle.std.specs.Prelude.{None, IsSome, IfSome, ◌<◌};
ghost use Rattle.std.specs.Option.{option_copied};
ghost use Rattle.std.specs.List.{slice_get};
ghost use Rattle.streams.specs.Connections.{last_index, numbered};
ghost use Rattle.streams.specs.Held.{passes, holding, HoldsConnections, AllSound};
ghost use Rattle.streams.specs.Choice.{IsAnswered, IsRefused, IsNoNumber, OpensAs, numbered_one};

use crate::connection::{Connection, Opening};
use crate::fault::Fault;
use crate::gathering::Gathering;
use crate::passed::Passed;
use std::alloc::{AllocError, Allocator, Global};

/// How many octets a segment may have. No packet of IP has as many.
const TOO_LONG: usize = 1 << 32;

/// The connections between two systems: the segments of one pair of ports, up to the next SYN that
/// begins another. Its side has a SYN of another number in this one; or it has no ACK, and its side
/// has no SYN in this one, where a segment without a SYN passed before.
#[derive(Drop)]
pub struct Connections<A: Allocator = Global> {
    alloc: A,
    list: Vec<Gathering<A>, A>,
}

/// The last of some connections that goes between the segment's ports.
fn last_between<A: Allocator + Copy>(list: &[Gathering<A>], passed: &Passed<'_>) -> Option<usize>
    ensures index { result ≡ last_index (passes (segment_of passed.now)) list.now }
    ensures within { IfSome result (λ index. index < length list.now) }
{
    let mut left = list.len();
    while left > 0 {
        left -= 1;
        if list[left].has_ports(passed) {
            return Some(left);
        }
    }
    None
}

impl<A: Allocator + Copy> Connections<A> {
    /// No connections. It takes no memory.
    pub fn new(alloc: A) -> Connections<A>
        ensures sound { AllSound result }
        ensures holds { HoldsConnections [] result }
    {
        Connections {
            alloc,
            list: Vec::new(alloc),
        }
    }

    /// Takes a segment. They are taken in the order of their packets. Refused for memory, or for a
    /// segment of 4 GiB or more, the connections are of no more use.
    pub fn take(&mut self, passed: &Passed<'_>) -> Result<(), AllocError>
        requires sound { AllSound self.old }
        ensures sound { OnOk result (AllSound self.new) }
        ensures holds { OnOk result ((before : List Segment) → HoldsConnections before self.old
            → HoldsConnections (segment_of passed.now ∷ before) self.new) }
    {
        if passed.octets.len() >= TOO_LONG {
            return Err(AllocError);
        }
        if let Some(last) = last_between(&self.list, passed) {
            if !self.list[last].is_left_by(passed) {
                self.list[last].take(passed)?;
                return Ok(());
            }
        }
        let mut connection = Gathering::new(self.alloc, passed);
        connection.take(passed)?;
        self.list.push(connection)?;
        Ok(())
    }

    /// How many connections hold octets: a segment of theirs has data. They have the numbers from 1
    /// on, in the order of their first packets.
    pub fn count(&self) -> usize
        ensures { (segments : List Segment) → HoldsConnections segments self.now
            → result ≡ length (numbered segments) }
    {
        count_holding(&self.list)
    }

    /// What is known of the connection with this number, counted from 1, without its streams.
    pub fn opening(&self, number: usize) -> Option<Opening>
        ensures { (segments : List Segment) → HoldsConnections segments self.now
            → MatchOption result (IsNoNumber number (numbered segments))
            (λ opening. (opening.number ≡ number)
            × OpensAs (numbered_one (numbered segments) number) opening) }
    {
        if number == 0 {
            return None;
        }
        match nth_holding(&self.list, number - 1) {
            Some(one) => Some(one.opening(number)),
            None => None,
        }
    }

    /// The connection with this number, counted from 1, or the only one. The number of the
    /// recording's last packet, 0 of none, is where a connection is missed.
    pub fn choose(&self, number: Option<usize>, last_packet: u64) -> Result<Connection<'_>, Fault>
        ensures { (segments : List Segment) → HoldsConnections segments self.entry.now
            → MatchResult result
            (λ connection. IsAnswered number last_packet (numbered segments) connection)
            (λ fault. IsRefused number last_packet (numbered segments) fault) }
    {
        let none = Fault::NoConnection {
            packet: last_packet,
        };
        let wanted = number.unwrap_or(1);
        if wanted == 0 {
            return Err(none);
        }
        let Some(chosen) = nth_holding(&self.list, wanted - 1) else {
            return Err(none);
        };
        match second(&self.list, number) {
            Some(second) => Err(Fault::Several {
                packet: second.packet,
            }),
            None => match chosen.refusal() {
                Some(fault) => Err(fault),
                None => Ok(chosen.told(wanted)),
            },
        }
    }
}

/// The second of the connections that hold octets, where none is named.
fn second<A: Allocator>(list: &[Gathering<A>], number: Option<usize>) -> Option<&Gathering<A>>
    ensures unnamed { number ≡ None → option_copied result ≡ slice_get (holding list.entry.now) 1 }
    ensures named { IsSome result → number ≡ None }
{
    match number {
        Some(_) => None,
        None => nth_holding(list, 1),
    }
}

/// How many of the connections hold octets.
fn count_holding<A: Allocator>(list: &[Gathering<A>]) -> usize
    ensures { result ≡ count_by (λ it. it.has_octets) list.now }
{
    list.iter().filter(|it| it.has_octets).count()
}

/// Of the connections that hold octets the one at the index.
fn nth_holding<A: Allocator>(list: &[Gathering<A>], index: usize) -> Option<&Gathering<A>>
    ensures { option_copied result ≡ slice_get (holding list.entry.now) index }
{
    let mut left = index;
    for it in list {
        if it.has_octets {
            if left == 0 {
                return Some(it);
            }
            left -= 1;
        }
    }
    None
}
