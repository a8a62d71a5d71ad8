//! What a route leads to (RFC 4271, 1.1; RFC 7911).

ghost use Rattle.std.proofs.Common.{rules};
ghost use Rattle.std.specs.Prelude.{◌≡◌, ◌==◌};
ghost use Rattle.std.specs.Cmp.Rules.{comparing};
ghost use Rattle.std.specs.Cmp.{partial_order_from_own_ties};
ghost use Rattle.std.specs.Ordering.{as_partial_cmp, nat_cmp};
ghost use Rattle.bgp_update.specs.Plain.{plain};

use bgp_open::Prefix;
use byteorder::{BigEndian, ByteOrder};
use std::cmp::Ordering;
use std::marker::Model;

/// A path identifier: it tells several paths to one prefix apart (RFC 7911, 3).
///
/// Contracts see it as its number. It is kept as octets, so that it needs no alignment.
#[derive(Clone, Copy, Debug)]
pub struct PathId {
    /// The number, highest octet first.
    octets: [u8; 4],
}

/// A prefix and, if routes of its family are identified, which of the paths to it.
#[derive(Clone, Copy, Debug, PartialEq, Eq)]
pub struct Destination {
    /// The addresses that the route leads to.
    pub prefix: Prefix,
    /// The path's identifier: none if routes of the family aren't identified.
    pub path: Option<PathId>,
}

const _: () = prove!(size_of::<PathId>() == 4);

const _: () = prove!(size_of::<Destination>() == 23);

impl Model for PathId {
    ghost use Rattle.std.specs.Prelude.{◌≡◌, ℕ};
    ghost use Rattle.byteorder.specs.Endian.{big_bytes, big_number};

    ghost Value = { ℕ };

    ghost view = { λ id. big_number 4 id.octets };

    ghost invariant = { λ id. big_bytes 4 (big_number 4 id.octets) ≡ id.octets };

    ghost inverse = { λ number. record { octets = big_bytes 4 number } };

    ghost inverse_ok = { λ id kept i. record { octets = kept i } };
}

impl PathId {
    /// Returns the identifier with this number.
    pub fn new(number: u32) -> PathId
        ensures { result ≡ number }
    {
        let mut octets = [0; 4];
        BigEndian::write_u32(&mut octets, number);
        PathId { octets }
    }

    /// Returns the number that its four octets spell, the first octet highest.
    pub fn number(self) -> u32
        ensures { result ≡ self }
    {
        BigEndian::read_u32(&self.octets)
    }
}

impl PartialEq for PathId {
    ghost eq = { ◌==◌ };

    ghost laws = { Prim.search (comparing, rules) };

    fn eq(&self, other: &PathId) -> bool {
        self.number() == other.number()
    }
}

impl Eq for PathId {
    ghost laws = { Prim.search (comparing, rules) };
}

impl PartialOrd for PathId {
    ghost partial_cmp = { as_partial_cmp nat_cmp };

    ghost laws = { partial_order_from_own_ties
        (Prim.search (comparing, rules)) (Prim.search (comparing, rules)) };

    fn partial_cmp(&self, other: &PathId) -> Option<Ordering> {
        Some(self.cmp(other))
    }
}

impl Ord for PathId {
    ghost cmp = { nat_cmp };

    ghost total = { Prim.search (comparing, rules) };

    ghost matches_partial_cmp = { Prim.search (comparing, rules) };

    ghost matches_eq = { Prim.search (comparing, rules) };

    fn cmp(&self, other: &PathId) -> Ordering {
        self.number().cmp(&other.number())
    }
}

impl Destination {
    /// The prefix alone, as on a session without ADD-PATH.
    pub fn plain(prefix: Prefix) -> Destination
        ensures { result ≡ plain prefix }
    {
        Destination { prefix, path: None }
    }
}
