//! Where a segment's octets stand in its side's stream.

ghost use Rattle.std.specs.Prelude.{◌≡◌, ◌<◌, ◌≤◌, ◌+◌, ◌-◌, ◌^◌, length};
ghost use Rattle.streams.specs.Passed.{segment_of};
ghost use Rattle.streams.specs.Places.{raised_place, offset_of, lowered, after, acknowledged};
ghost use Rattle.streams.specs.Places.{kept_from};
ghost use Rattle.streams.specs.History.{piece_in};
ghost use Rattle.streams.specs.Directions.{piece_value};

use crate::passed::Passed;

/// How many sequence numbers there are (RFC 9293, 3.4), and half of them.
const RANGE: u64 = 1 << 32;

const HALF: u64 = 1 << 31;

/// Octets, and the place of the first in a stream.
#[derive(Clone, Copy, Debug, PartialEq, Eq)]
pub struct Piece<'a> {
    pub first: u64,
    pub octets: &'a [u8],
}

impl<'a> Piece<'a> {
    /// The place after it: that of its FIN.
    pub fn after(self) -> u64
        requires { self.first + length self.octets.now < 2 ^ 64 }
        ensures { result ≡ after (piece_value self.entry) }
    {
        self.first + self.octets.len() as u64
    }

    /// Its octets from a place on: those before are passed over, and the place after it stays.
    fn kept_from(self, bound: u64) -> Piece<'a>
        requires { self.first + length self.octets.now < 2 ^ 64 }
        ensures piece { piece_value result ≡ kept_from bound (piece_value self.entry) }
        ensures end { result.first + length result.octets.now
            ≡ self.entry.first + length self.entry.octets.now }
        ensures within { length result.octets.now ≤ length self.entry.octets.now }
    {
        if bound <= self.first {
            return self;
        }
        let below = (bound - self.first).min(self.octets.len() as u64);
        Piece {
            first: self.first + below,
            octets: self.octets.split_at(below as usize).1,
        }
    }
}

/// The place at this distance from the first octet, up to multiples of the range, that lies within
/// half the range of the next one. It is raised by half, since it may be below 0.
fn raised_place(next: u64, offset: u64) -> u64
    requires next { next < 2 ^ 63 }
    requires offset { offset < 2 ^ 34 }
    ensures place { result ≡ raised_place next offset }
    ensures bound { result < next + 2 ^ 32 }
{
    next + (offset + HALF + (RANGE - next % RANGE)) % RANGE
}

/// The sequence number's distance from the first octet after the SYN, up to multiples of the range.
fn offset_of(start: u32, sequence: u32) -> u64
    ensures offset { result ≡ offset_of start sequence }
    ensures bound { result < 2 ^ 33 }
{
    u64::from(sequence) + (RANGE - 1) - u64::from(start)
}

/// Octets from a place on that is raised by half the range, as far as they don't stand below 0.
fn lowered(raised: u64, octets: &[u8]) -> Piece<'_>
    requires { raised < 2 ^ 63 + 2 ^ 32 }
    ensures piece { piece_value result ≡ lowered raised octets.entry.now }
    ensures bound { result.first < 2 ^ 63 + 2 ^ 32 }
    ensures within { length result.octets.now ≤ length octets.entry.now }
{
    if raised >= HALF {
        return Piece {
            first: raised - HALF,
            octets,
        };
    }
    let below = ((HALF - raised) as usize).min(octets.len());
    Piece {
        first: 0,
        octets: octets.split_at(below).1,
    }
}

/// Where a segment's octets stand in its side's stream, of which so many are known. Those below the
/// bound are passed over. Without a SYN of that side it has none.
pub fn piece_in<'a>(passed: &Passed<'a>, start: Option<u32>, next: u64, bound: u64) -> Piece<'a>
    requires next { next < 2 ^ 63 }
    requires short { length passed.now.octets.now < 2 ^ 32 }
    ensures piece { piece_value result ≡ piece_in (segment_of passed.entry.now) start next bound }
    ensures bound { result.first + length result.octets.now < 2 ^ 64 }
    ensures within { length result.octets.now ≤ length passed.entry.now.octets.now }
{
    match start {
        Some(start) => {
            let offset = offset_of(start, passed.sequence) + u64::from(passed.syn);
            lowered(raised_place(next, offset), passed.octets).kept_from(bound)
        }
        None => Piece {
            first: 0,
            octets: &[],
        },
    }
}

/// The first place that an acknowledgment number doesn't acknowledge.
pub fn acknowledged(start: u32, next: u64, number: u32) -> u64
    requires { next < 2 ^ 63 }
    ensures { result ≡ acknowledged start next number }
{
    raised_place(next, offset_of(start, number)).saturating_sub(HALF)
}
