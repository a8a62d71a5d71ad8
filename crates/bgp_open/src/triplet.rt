//! Triplets of a code, a length and a value, as parameters (RFC 4271, 4.2) and capabilities
//! (RFC 5492, 4) have them.
//!
//! ```text
//!  0      1        2
//! +------+--------+----------------------+
//! | Code | Length | Value: Length octets |
//! +------+--------+----------------------+
//! ```

ghost use Rattle.std.specs.Prelude.{◌≡◌, ◌<◌, ◌++◌, ◌∷◌, [], IfSome, IfNone, length};
ghost use Rattle.bgp_open.specs.Triplet.{triplet_octets, triplets_of};
ghost use Rattle.bgp_open.specs.Capability.{triplet_of};

use std::marker::Model;

/// One triplet, its value borrowed.
#[derive(Clone, Copy)]
pub(crate) struct RawTriplet<'a> {
    pub(crate) code: u8,
    pub(crate) value: &'a [u8],
}

/// The triplet at the front of the octets and what stands behind it, if there is a whole one.
pub(crate) fn first_triplet<'a>(octets: &'a [u8]) -> Option<(RawTriplet<'a>, &'a [u8])>
    ensures some { IfSome result (λ r.
        triplets_of octets.entry.now ≡ triplet_of r.0 ∷ triplets_of r.1.now) }
    ensures front { IfSome result (λ r.
        octets.entry.now ≡ triplet_octets (triplet_of r.0) ++ r.1.now) }
    ensures shorter { IfSome result (λ r. length r.1.now < length octets.entry.now) }
    ensures none { IfNone result (triplets_of octets.entry.now ≡ []) }
{
    if octets.len() < 2 {
        return None;
    }
    let (value, rest) = octets
        .split_at(2)
        .1
        .split_at_checked(usize::from(octets[1]))?;
    Some((
        RawTriplet {
            code: octets[0],
            value,
        },
        rest,
    ))
}

/// The triplets in octets, one after another, before what is cut short. Contracts see it as the
/// list of what is left.
#[derive(Drop)]
pub(crate) struct Triplets<'a> {
    octets: &'a [u8],
}

impl<'a> Model for Triplets<'a> {
    ghost use Rattle.std.specs.Prelude.{List};
    ghost use Rattle.bgp_open.specs.Triplet.{Triplet, triplets_of};

    ghost Value = { List Triplet };

    ghost view = { λ s. triplets_of s.octets.now };
}

impl<'a> Triplets<'a> {
    pub(crate) fn new(octets: &'a [u8]) -> Triplets<'a>
        ensures { result ≡ triplets_of octets.entry.now }
    {
        Triplets { octets }
    }
}

impl<'a> Iterator for Triplets<'a> {
    ghost use Rattle.std.specs.Prelude.{length};
    ghost use Rattle.std.specs.Iterator.{YieldsFirstBy, at_most};
    ghost use Rattle.bgp_open.specs.Capability.{triplet_of};

    type Item = RawTriplet<'a>;

    ghost next_gives = { YieldsFirstBy triplet_of (λ s. s) };

    ghost remaining = { λ s. at_most (length s) };

    fn next(&mut self) -> Option<RawTriplet<'a>> {
        let (triplet, rest) = first_triplet(self.octets)?;
        self.octets = rest;
        Some(triplet)
    }
}
