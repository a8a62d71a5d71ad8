//! One direction of a connection.

ghost use Rattle.std.specs.Prelude.{◌≡◌, ◌<◌, ◌≤◌, ◌+◌, ◌-◌, ◌^◌, ◌||◌, ℕ, Some, None, true};
ghost use Rattle.std.specs.Prelude.{cond, max};
ghost use Rattle.std.specs.Prelude.{nat_lt, length, OnOk, [], List};
ghost use Rattle.std.specs.Option.{is_some, option_or, option_map};
ghost use Rattle.streams.specs.declared.passed.Side.{Side};
ghost use Rattle.streams.specs.Given.{given_at};
ghost use Rattle.streams.specs.Islands.{IsSound};
ghost use Rattle.streams.specs.Passed.{segment_of};
ghost use Rattle.streams.specs.Places.{after, shown_by_acknowledgment};
ghost use Rattle.streams.specs.History.{piece_in, end_in};
ghost use Rattle.streams.specs.Refusals.{other_fin, early_fin};
ghost use Rattle.streams.specs.Sent.{shown_by_piece};
ghost use Rattle.streams.specs.Directions.{piece_value, first_above, piece_faults, half_in};
ghost use Rattle.streams.specs.Directions.{missing_in};
ghost use Rattle.streams.specs.Directions.{Adds, Acknowledges, Holds};

use crate::fault::Fault;
use crate::gathered::{Gathered, Giver};
use crate::passed::Passed;
use crate::placing::{Piece, acknowledged, piece_in};
use std::alloc::{AllocError, Allocator};

/// A packet that showed that all octets below a place were sent.
#[derive(Clone, Copy, Debug, PartialEq, Eq)]
pub struct Shown {
    pub below: u64,
    pub packet: u64,
}

/// One direction of a connection.
#[derive(Drop)]
pub struct Direction<A: Allocator> {
    pub gathered: Gathered<A>,
    /// The place after the last octet given, 0 of none.
    end: u64,
    /// The place of the FIN.
    fin: Option<u64>,
    has_rst: bool,
    /// The packets that showed more than those before them.
    shown: Vec<Shown, A>,
    /// All below this place is acknowledged: a receiver drops what comes of it again.
    acknowledged: u64,
    /// The first packet of the other side that acknowledges what this one sent.
    acknowledged_by: Option<u64>,
}

/// All octets below this place were shown.
fn greatest(shown: &[Shown]) -> u64
    ensures { (place : ℕ) → place < result → is_some (first_above shown.now place) ≡ true }
{
    match shown.last() {
        Some(last) => last.below,
        None => 0,
    }
}

/// Notes that a packet showed that all octets below a place were sent.
fn note<A: Allocator>(shown: &mut Vec<Shown, A>, below: u64, packet: u64) -> Result<(), AllocError>
    ensures { OnOk result ((place : ℕ) → first_above shown.new.items place
        ≡ option_or (first_above shown.old.items place)
        (cond (nat_lt place below) (Some packet) None)) }
{
    if greatest(shown) < below {
        shown.push(Shown { below, packet })?;
    }
    Ok(())
}

/// The first packet that showed that the octet at the place was sent.
fn first_above(shown: &[Shown], place: u64) -> Option<u64>
    ensures { result ≡ first_above shown.now place }
{
    for it in shown {
        if place < it.below {
            return Some(it.packet);
        }
    }
    None
}

impl<A: Allocator + Copy> Direction<A> {
    /// A direction of which nothing is known. It takes no memory.
    pub fn new(alloc: A) -> Direction<A>
        ensures { (side : Side) → Holds side [] result }
    {
        Direction {
            gathered: Gathered::new(alloc),
            end: 0,
            fin: None,
            has_rst: false,
            shown: Vec::new(alloc),
            acknowledged: 0,
            acknowledged_by: None,
        }
    }

    /// The first refusal of a segment of this direction's side, after what was given before. The
    /// start is the sequence number of the side's SYN.
    pub fn find_fault(&self, passed: &Passed<'_>, start: Option<u32>) -> Option<Fault>
        requires sound { IsSound self.now.gathered }
        requires short { length passed.now.octets.now < 2 ^ 32 }
        ensures { result ≡ piece_faults (segment_of passed.now)
            (piece_in (segment_of passed.now) start (length self.now.gathered.known.octets.items)
            self.now.acknowledged) (given_at self.now.gathered) self.now.fin self.now.end
            self.now.has_rst }
    {
        let piece = piece_in(passed, start, self.gathered.known(), self.acknowledged);
        let conflict = self
            .gathered
            .first_conflict(piece.first, piece.octets, self.fin)
            .or(self.fin_conflict(passed.fin, &piece));
        if let Some(place) = conflict {
            return Some(Fault::Conflict {
                packet: passed.packet,
                from: passed.from,
                place,
            });
        }
        if !self.has_rst {
            return None;
        }
        match self.gathered.first_new(piece.first, piece.octets) {
            Some(place) => Some(Fault::AfterReset {
                packet: passed.packet,
                from: passed.from,
                place,
            }),
            None => None,
        }
    }

    /// The place of a FIN that a piece has, where it can't stand there.
    fn fin_conflict(&self, fin: bool, piece: &Piece<'_>) -> Option<u64>
        requires { piece.now.first + length piece.now.octets.now < 2 ^ 64 }
        ensures { result ≡ cond fin (option_or
            (other_fin (after (piece_value piece.now)) self.now.fin)
            (early_fin (after (piece_value piece.now))
            (max self.now.end (end_in (piece_value piece.now))))) None }
    {
        if !fin {
            return None;
        }
        let place = piece.after();
        match self.fin {
            Some(before) if before != place => Some(before.min(place)),
            _ if place < self.end_with(piece) => Some(place),
            _ => None,
        }
    }

    /// The place after the last octet given, once the piece is.
    fn end_with(&self, piece: &Piece<'_>) -> u64
        requires { piece.now.first + length piece.now.octets.now < 2 ^ 64 }
        ensures { result ≡ max self.now.end (end_in (piece_value piece.now)) }
    {
        if piece.octets.is_empty() {
            self.end
        } else {
            self.end.max(piece.after())
        }
    }

    /// Takes a segment of this direction's side. Refused for memory it is of no more use.
    pub fn add(&mut self, passed: &Passed<'_>, start: Option<u32>) -> Result<(), AllocError>
        requires sound { IsSound self.old.gathered }
        requires short { length passed.now.octets.now < 2 ^ 32 }
        ensures { OnOk result (Adds (segment_of passed.now)
            (piece_in (segment_of passed.now) start (length self.old.gathered.known.octets.items)
            self.old.acknowledged)
            self.old self.new) }
    {
        let given = piece_in(passed, start, self.gathered.known(), self.acknowledged);
        let giver = Giver {
            packet: passed.packet,
            second: passed.second,
            micro: passed.micro,
        };
        note(&mut self.shown, shown_by(passed.fin, &given), passed.packet)?;
        self.end = self.end_with(&given);
        if passed.fin && self.fin.is_none() {
            self.fin = Some(given.after());
        }
        self.has_rst |= passed.rst;
        self.gathered.put(given.first, given.octets, giver)?;
        Ok(())
    }

    /// Takes what a segment of the other side acknowledges. The start is the sequence number of
    /// this side's SYN.
    pub fn acknowledge(&mut self, passed: &Passed<'_>, start: Option<u32>) -> Result<(), AllocError>
        ensures { OnOk result (Acknowledges (segment_of passed.now)
            (shown_by_acknowledgment start (length self.old.gathered.known.octets.items)
            passed.now.acknowledgment passed.now.rst)
            self.old self.new) }
    {
        if passed.rst {
            return Ok(());
        }
        if let Some(number) = passed.acknowledgment {
            self.acknowledged_by = self.acknowledged_by.or(Some(passed.packet));
            if let Some(start) = start {
                let below = acknowledged(start, self.gathered.known(), number);
                note(&mut self.shown, below, passed.packet)?;
                self.acknowledged = self.acknowledged.max(below);
            }
        }
        Ok(())
    }

    /// The first packet that acknowledges what this side sent, where it has no SYN: the start is
    /// the sequence number of that.
    pub fn half(&self, start: Option<u32>) -> Option<u64>
        ensures { result ≡ half_in start self.now }
    {
        match start {
            Some(_) => None,
            None => self.acknowledged_by,
        }
    }

    /// The first packet that shows that an octet was sent which isn't given: the first such octet
    /// stands right after those known. The place of a FIN is that of no octet.
    pub fn missing(&self) -> Option<u64>
        ensures { result ≡ missing_in self.now }
    {
        let place = self.gathered.known();
        if self.fin == Some(place) {
            return first_above(&self.shown, place + 1);
        }
        first_above(&self.shown, place)
    }
}

/// All octets below this place were sent, as a segment's piece and its FIN show.
fn shown_by(fin: bool, piece: &Piece<'_>) -> u64
    requires { piece.now.first + length piece.now.octets.now < 2 ^ 64 }
    ensures { result ≡ cond (nat_lt 0 (length piece.now.octets.now) || fin)
        (shown_by_piece (piece_value piece.now) fin) 0 }
{
    if fin {
        piece.after()
    } else if piece.octets.is_empty() {
        0
    } else {
        piece.after() - 1
    }
}
