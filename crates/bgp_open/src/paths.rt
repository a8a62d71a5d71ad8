//! Which OPENs offer several paths to a prefix (ADD-PATH; RFC 7911, 4).
//!
//! ```text
//! the value of capability 69: an entry for each family
//!  0     2      3              4
//! +-----+------+--------------+
//! | AFI | SAFI | Send/Receive |  1 receives, 2 sends, 3 both
//! +-----+------+--------------+
//! ```

ghost use Rattle.std.specs.Prelude.{◌≡◌, ◌<◌, ◌∷◌, [], IfSome, IfNone, length};
ghost use Rattle.std.specs.List.{list_any, list_all};
ghost use Rattle.bgp_open.specs.Capability.{capability_of};
ghost use Rattle.bgp_open.specs.RouteOffer.{are_entries, has_mode, path_entries, mode_of};
ghost use Rattle.bgp_open.specs.RouteOffer.{is_paths, names_direction, offers_direction};
ghost use Rattle.bgp_open.specs.RouteOffer.{offers_paths};

use crate::capability::Capability;
use crate::entries::are_entries;
use crate::families::Families;
use crate::offer::{UNICAST, afi};
use crate::open::Open;
use bgp_prefix::Family;
use byteorder::{BigEndian, ByteOrder};
use std::marker::Model;

/// The Capability Code of several paths (RFC 7911, 4).
pub(crate) const ADD_PATH: u8 = 69;

/// The Send/Receive of an entry that offers to receive several paths.
pub(crate) const RECEIVE: u8 = 1;

/// That of one that offers to send them.
pub(crate) const SEND: u8 = 2;

/// That of one that offers both.
const BOTH: u8 = 3;

/// What a system can do with several paths to a prefix.
#[derive(Clone, Copy)]
pub(crate) enum Direction {
    Receives,
    Sends,
}

/// An entry of the capability's value.
#[derive(Clone, Copy)]
pub(crate) struct PathEntry {
    pub(crate) afi: u16,
    pub(crate) safi: u8,
    pub(crate) mode: u8,
}

/// Reads the entry at the front of the octets, and what stands behind it.
fn first_path_entry(octets: &[u8]) -> Option<(PathEntry, &[u8])>
    ensures some { IfSome result (λ r.
        path_entries octets.entry.now ≡ r.0 ∷ path_entries r.1.now) }
    ensures shorter { IfSome result (λ r. length r.1.now < length octets.entry.now) }
    ensures none { IfNone result (path_entries octets.entry.now ≡ []) }
{
    let (entry, others) = octets.split_first_chunk::<4>()?;
    Some((
        PathEntry {
            afi: BigEndian::read_u16(entry),
            safi: entry[2],
            mode: entry[3],
        },
        others,
    ))
}

/// The entries of a value. Contracts see it as the list of what is left.
#[derive(Drop)]
struct PathEntries<'a> {
    octets: &'a [u8],
}

impl<'a> Model for PathEntries<'a> {
    ghost use Rattle.std.specs.Prelude.{List};
    ghost use Rattle.bgp_open.specs.RouteOffer.{path_entries};
    ghost use Rattle.bgp_open.specs.declared.paths.PathEntry.{PathEntry};

    ghost Value = { List PathEntry };

    ghost view = { λ s. path_entries s.octets.now };
}

impl<'a> PathEntries<'a> {
    fn new(octets: &'a [u8]) -> PathEntries<'a>
        ensures { result ≡ path_entries octets.entry.now }
    {
        PathEntries { octets }
    }
}

impl<'a> Iterator for PathEntries<'a> {
    ghost use Rattle.std.specs.Prelude.{length};
    ghost use Rattle.std.specs.Iterator.{YieldsFirst, at_most};

    type Item = PathEntry;

    ghost next_gives = { YieldsFirst (λ s. s) };

    ghost remaining = { λ s. at_most (length s) };

    fn next(&mut self) -> Option<PathEntry> {
        let (entry, others) = first_path_entry(self.octets)?;
        self.octets = others;
        Some(entry)
    }
}

/// The Send/Receive of a direction alone.
fn mode(direction: Direction) -> u8
    ensures { result ≡ mode_of direction }
{
    match direction {
        Direction::Receives => RECEIVE,
        Direction::Sends => SEND,
    }
}

/// Whether Send/Receive is one of the three that are defined.
fn has_mode(entry: PathEntry) -> bool
    ensures { result ≡ has_mode entry }
{
    entry.mode == RECEIVE || entry.mode == SEND || entry.mode == BOTH
}

/// Whether the entry names the family as unicast, and the direction.
fn names_direction(entry: PathEntry, family: Family, direction: Direction) -> bool
    ensures { result ≡ names_direction family direction entry }
{
    entry.afi == afi(family)
        && entry.safi == UNICAST
        && (entry.mode == mode(direction) || entry.mode == BOTH)
}

/// Whether each entry of the value has a Send/Receive that is defined.
fn have_modes(value: &[u8]) -> bool
    ensures { result ≡ list_all has_mode (path_entries value.now) }
{
    PathEntries::new(value).all(has_mode)
}

/// Whether an entry of the value names the family and the direction.
fn has_direction(value: &[u8], family: Family, direction: Direction) -> bool
    ensures { result ≡ list_any (names_direction family direction) (path_entries value.now) }
{
    PathEntries::new(value).any(|entry| names_direction(entry, family, direction))
}

/// Whether the capability is understood: entries fill it, and each Send/Receive is defined. A wrong
/// entry spoils all of them, whatever family it names.
fn is_paths(capability: Capability<'_>) -> bool
    ensures { result ≡ is_paths (capability_of capability.entry) }
{
    capability.code == ADD_PATH && are_entries(capability.value, 4) && have_modes(capability.value)
}

/// Whether the capability offers the direction for the family.
fn offers_direction(capability: Capability<'_>, family: Family, direction: Direction) -> bool
    ensures { result ≡ offers_direction family direction (capability_of capability.entry) }
{
    is_paths(capability) && has_direction(capability.value, family, direction)
}

/// Whether a capability of the OPEN does.
fn offers_paths(message: &Open<'_>, family: Family, direction: Direction) -> bool
    ensures { result ≡ offers_paths family direction message.now.capabilities }
{
    message.caps().any(|capability| offers_direction(capability, family, direction))
}

/// The families for which the OPEN offers the direction.
pub(crate) fn families_with(message: &Open<'_>, direction: Direction) -> Families
    ensures { result ≡ record {
      v4 = offers_paths Family.V4 direction message.now.capabilities;
      v6 = offers_paths Family.V6 direction message.now.capabilities;
    } }
{
    Families {
        v4: offers_paths(message, Family::V4, direction),
        v6: offers_paths(message, Family::V6, direction),
    }
}
