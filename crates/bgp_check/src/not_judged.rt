//! Why an end of a session isn't judged.

ghost use Rattle.std.specs.Prelude.{◌≡◌, ◌↔◌, ◌⊎◌, IsTrue, IfSome, IfNone, Option, None, Some};
ghost use Rattle.std.specs.Prelude.{map, option_map};
ghost use Rattle.std.specs.Option.{option_or};
ghost use Rattle.bgp_open.specs.Open.{OpenFields, open_of};
ghost use Rattle.bgp_open.specs.OpenFault.{IsWellFormed};
ghost use Rattle.mrt.specs.Reader.{shown_of};
ghost use Rattle.bgp_check.specs.NotJudged.{HasExtendedLength, IsWhyNot, SendsSome, why_by_both};
ghost use Rattle.bgp_check.specs.NotJudged.{why_by_opens, why_by_paths, why_not, why_with};
ghost use Rattle.bgp_parts.specs.Opens.{HasOwnOpen, HasPeersOpen};
ghost use Rattle.bgp_check.specs.WidestOf.{AreTold, OffersNone};

use crate::dynamic::offers_dynamic;
use crate::offer::offer_of;
use crate::opens::whole_open;
use bgp_open::{Open, read_fields};
use bgp_parts::some_show_confederations;
use mrt::Record;

/// Why an end isn't judged.
#[derive(Clone, Copy, Debug, PartialEq, Eq)]
pub enum NotJudged {
    /// It sent no message.
    NothingSent,
    /// One of both OPENs has parameters with an extended length (RFC 9072).
    ExtendedParameters,
    /// Its OPEN offers neither IPv4 nor IPv6 unicast.
    NoFamily,
    /// Both OPENs offer dynamic capabilities: the session may have messages of type 6.
    DynamicCapabilities,
    /// An UPDATE has an AS_PATH with segments of a confederation (RFC 5065).
    Confederations,
}

/// Whether a message is sent.
pub fn sends_some(records: &[Record<'_>]) -> bool
    ensures { IsTrue result ↔ SendsSome (map shown_of records.now) }
{
    for record in records {
        match record {
            Record::Out(..) => return true,
            Record::In(..) | Record::Change(..) => {}
        }
    }
    false
}

/// Whether the parameters of an OPEN have an extended length: Optional Parameters Length isn't 0,
/// and the next octet is 255 (RFC 9072, 2).
fn has_extended_length(octets: Option<&[u8]>) -> bool
    ensures { IsTrue result ↔ HasExtendedLength (option_map (λ o. o.now) octets.entry) }
{
    match octets {
        Some(octets) => octets.len() > 29 && octets[28] != 0 && octets[29] == 255,
        None => false,
    }
}

/// Whether one of both has.
fn have_extended_length(one: Option<&[u8]>, other: Option<&[u8]>) -> bool
    ensures { IsTrue result ↔ (HasExtendedLength (option_map (λ o. o.now) one.entry)
        ⊎ HasExtendedLength (option_map (λ o. o.now) other.entry)) }
{
    has_extended_length(one) || has_extended_length(other)
}

/// What both OPENs offer that isn't known here.
fn why_by_both(own: &Open<'_>, peers: &Open<'_>) -> Option<NotJudged>
    ensures { result ≡ why_by_both own.now peers.now }
{
    if offers_dynamic(own) && offers_dynamic(peers) {
        Some(NotJudged::DynamicCapabilities)
    } else {
        None
    }
}

/// The same, where the peer's OPEN may be missing, or can't be told.
fn why_with(own: &Open<'_>, peers: Option<&[u8]>) -> Option<NotJudged>
    ensures { (told : Option OpenFields) → AreTold (option_map (λ o. o.now) peers.entry) told
        → result ≡ why_with own.now told }
{
    let Some(peers) = peers else {
        return None;
    };
    match read_fields(peers) {
        Some(peers) => why_by_both(own, &peers),
        None => None,
    }
}

/// Why both OPENs keep an end from being judged that sent this one.
fn why_by_opens(own: &[u8], peers: Option<&[u8]>) -> Option<NotJudged>
    requires { IsWellFormed own.now }
    ensures { (told : Option OpenFields) → AreTold (option_map (λ o. o.now) peers.entry) told
        → result ≡ why_by_opens (Some (open_of own.now)) told }
{
    let message = read_fields(own)?;
    let families = offer_of(&message).families;
    if families.v4 || families.v6 {
        why_with(&message, peers)
    } else {
        Some(NotJudged::NoFamily)
    }
}

/// That some UPDATE has segments of a confederation, if one has.
fn why_by_paths(confederated: bool) -> Option<NotJudged>
    ensures { result ≡ why_by_paths confederated }
{
    if confederated {
        Some(NotJudged::Confederations)
    } else {
        None
    }
}

/// The first reason of both OPENs and the UPDATEs.
fn why_by_messages(
    own: Option<&[u8]>,
    peers: Option<&[u8]>,
    confederated: bool,
) -> Option<NotJudged>
    requires { IfSome own (λ o. IsWellFormed o.now) }
    ensures { (told : Option OpenFields) → AreTold (option_map (λ o. o.now) peers.entry) told
        → result ≡ option_or
        (why_by_opens (option_map open_of (option_map (λ o. o.now) own.entry)) told)
        (why_by_paths confederated) }
{
    let Some(own) = own else {
        return why_by_paths(confederated);
    };
    why_by_opens(own, peers).or(why_by_paths(confederated))
}

/// The first reason that there is.
fn first_reason(
    sends: bool,
    extended: bool,
    own: Option<&[u8]>,
    peers: Option<&[u8]>,
    confederated: bool,
) -> Option<NotJudged>
    requires { IfSome own (λ o. IsWellFormed o.now) }
    ensures { (told : Option OpenFields) → AreTold (option_map (λ o. o.now) peers.entry) told
        → result ≡ why_not sends extended
        (option_map open_of (option_map (λ o. o.now) own.entry)) told confederated }
{
    if !sends {
        return Some(NotJudged::NothingSent);
    }
    if extended {
        return Some(NotJudged::ExtendedParameters);
    }
    why_by_messages(own, peers, confederated)
}

/// Why the local system of a stretch's records isn't judged that sent this OPEN, or none, and heard
/// this one, or none: the first reason that holds, in the order of [`NotJudged`].
pub(crate) fn why_with_opens(
    records: &[Record<'_>],
    own: Option<&[u8]>,
    peers: Option<&[u8]>,
) -> Option<NotJudged>
    requires own { HasOwnOpen (map shown_of records.now) (option_map (λ o. o.now) own) }
    requires form { IfSome own (λ o. IsWellFormed o.now) }
    requires peers { HasPeersOpen (map shown_of records.now)
        (option_map (λ o. o.now) peers) }
    ensures why { IsWhyNot (map shown_of records.now) result }
    ensures family { IfNone result (¬ OffersNone (option_map (λ o. o.now) own.entry)) }
{
    let extended = have_extended_length(peers, whole_open(records));
    let confederated = some_show_confederations(records);
    first_reason(sends_some(records), extended, own, peers, confederated)
}
