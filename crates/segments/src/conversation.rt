//! The packets between two addresses, one of whose ports is a certain one.

ghost use Rattle.std.specs.Prelude.{◌↔◌, IsTrue};
ghost use Rattle.segments.specs.Segment.{finding_of};
ghost use Rattle.segments.specs.Conversation.{AreBetween, AreEnds, IsSelected, answer_of};

use crate::fault::PacketFault;
use crate::found::{Ends, Found, Segment};
use bgp_prefix::Address;

/// Two addresses and a port: the segments between both addresses one of whose ports is the port.
#[derive(Clone, Copy, Debug, PartialEq, Eq)]
pub struct Conversation {
    pub local: Address,
    pub peer: Address,
    pub port: u16,
}

/// Whether a packet went from one of the two addresses to the other.
fn are_between(conversation: &Conversation, from: Address, to: Address) -> bool
    ensures { IsTrue result ↔ AreBetween conversation.now from to }
{
    (from == conversation.local && to == conversation.peer)
        || (from == conversation.peer && to == conversation.local)
}

/// Whether a segment between these ends is of the conversation.
fn are_ends(conversation: &Conversation, ends: &Ends) -> bool
    ensures { IsTrue result ↔ AreEnds conversation.now ends.now }
{
    are_between(conversation, ends.from.address, ends.to.address)
        && (ends.from.port == conversation.port || ends.to.port == conversation.port)
}

/// The segment that was found in a packet, if it is of the conversation.
///
/// A packet that may be of the conversation is refused where that can't be told or its segment
/// can't be read: 6 where its link is unknown, 7 where it is a fragment between both addresses, 8
/// where its ports or its header were not kept.
pub fn segment_between<'a>(
    found: Found<'a>,
    conversation: &Conversation,
) -> Result<Option<Segment<'a>>, PacketFault>
    ensures { IsSelected conversation.now (finding_of found.entry) (answer_of result) }
{
    match found {
        Found::Nothing => Ok(None),
        Found::UnknownLink(link_type) => Err(PacketFault::Link(link_type)),
        Found::Fragment(addresses) => {
            if are_between(conversation, addresses.from, addresses.to) {
                return Err(PacketFault::Fragment);
            }
            Ok(None)
        }
        Found::NoPorts(addresses) => {
            if are_between(conversation, addresses.from, addresses.to) {
                return Err(PacketFault::Cut);
            }
            Ok(None)
        }
        Found::CutHeader(ends) => {
            if are_ends(conversation, &ends) {
                return Err(PacketFault::Cut);
            }
            Ok(None)
        }
        Found::Segment(segment) => {
            if are_ends(conversation, &segment.ends) {
                return Ok(Some(segment));
            }
            Ok(None)
        }
    }
}
