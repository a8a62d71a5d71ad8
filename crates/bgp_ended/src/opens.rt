//! The OPEN among messages.

ghost use Rattle.std.specs.Prelude.{◌≡◌, IfNone, IfSome, option_map};
ghost use Rattle.bgp_open.specs.OpenFault.{IsWellFormed};
ghost use Rattle.bgp_ended.specs.FirstOpen.{FirstOpen};

use bgp_open::read_open;
use bgp_recording::Message;

/// The octets of a message, if it is a whole and well-formed OPEN.
fn open_in<'a>(message: &Message<'a>) -> Option<&'a [u8]>
    ensures some { IfSome result (λ octets. octets.now ≡ message.now.octets.now) }
    ensures well_formed { IfSome result (λ octets. IsWellFormed octets.now) }
    ensures none { IfNone result (¬ IsWellFormed message.now.octets.now) }
{
    if read_open(message.octets).is_ok() {
        Some(message.octets)
    } else {
        None
    }
}

/// The first of these messages that is a whole and well-formed OPEN.
pub(crate) fn first_open<'a>(messages: &[Message<'a>]) -> Option<&'a [u8]>
    ensures first { FirstOpen messages.now (option_map (λ octets. octets.now) result) }
    ensures well_formed { IfSome result (λ octets. IsWellFormed octets.now) }
{
    for message in messages {
        match open_in(message) {
            Some(octets) => return Some(octets),
            None => {}
        }
    }
    None
}
