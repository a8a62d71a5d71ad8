//! The settings that an OPEN tells, and the widest ones otherwise.

ghost use Rattle.std.specs.Prelude.{◌≡◌, ◌↔◌, ◌==◌, ◌||◌, IsTrue, false};
ghost use Rattle.bgp_wire.specs.AsNumber.{needs_four_octets};
ghost use Rattle.bgp_open.specs.Open.{open_of};
ghost use Rattle.bgp_open.specs.OpenFault.{IsWellFormed};
ghost use Rattle.bgp_check.specs.Configurations.{as_to, own_faults};
ghost use Rattle.bgp_check.specs.WidestOf.{free_settings, is_odd_as, other_than, own_as, own_hold};
ghost use Rattle.bgp_check.specs.WidestOf.{own_settings, some_id};

use crate::offer::{as_number, offer_of};
use crate::own_fault::OwnFault;
use bgp_open::{ConfigParts, Families, Open, RouteOffer, read_fields};
use bgp_prefix::{Seconds, Session};
use bgp_wire::two_octet_as;

/// The Hold Time that stands in place of one that no configuration has.
const HOLD: u16 = 90; // RFC 4271, 10

/// For how many seconds the peer's OPEN is waited for: the fewest that a configuration has.
const LARGE_HOLD: Seconds = 1;

/// The number in place of an AS number or an identifier that no configuration has.
const SOME: u32 = 1;

/// The least AS number or BGP Identifier but this one.
pub(crate) fn other_than(number: u32) -> u32
    ensures { result ≡ other_than number }
{
    if number == 1 { 2 } else { 1 }
}

/// The AS number that an OPEN says, to one who sends the capability of four-octet AS numbers, and
/// to one who doesn't (RFC 6793, 4.1).
pub(crate) fn as_to(message: &Open<'_>, as4: bool) -> u32
    ensures says { result ≡ as_to as4 message.now }
    ensures two_octets { as4 ≡ false → ¬ IsTrue (needs_four_octets result) }
{
    let my_as = u32::from(message.my_as());
    if as4 {
        as_number(message).unwrap_or(my_as)
    } else {
        my_as
    }
}

/// Whether the AS number is 0, or My Autonomous System isn't what stands for it.
fn is_odd_as(message: &Open<'_>) -> bool
    ensures { result ≡ is_odd_as message.now }
{
    let as_number = as_to(message, true);
    as_number == 0 || message.my_as() != two_octet_as(as_number)
}

fn is_bad_hold(hold: u16) -> bool
    ensures { result ≡ (hold == 1) || (hold == 2) }
{
    hold == 1 || hold == 2
}

/// The AS number, where a configuration can have it.
pub(crate) fn own_as(message: &Open<'_>) -> u32
    ensures { result ≡ own_as message.now }
{
    if is_odd_as(message) {
        SOME
    } else {
        as_to(message, true)
    }
}

/// The BGP Identifier, where a configuration can have it.
pub(crate) fn some_id(message: &Open<'_>) -> u32
    ensures { result ≡ some_id message.now }
{
    if message.id() == 0 {
        SOME
    } else {
        message.id()
    }
}

/// The Hold Time, where a configuration can have it.
fn own_hold(message: &Open<'_>) -> u16
    ensures { result ≡ own_hold message.now }
{
    if is_bad_hold(message.hold()) {
        HOLD
    } else {
        message.hold()
    }
}

/// Whether a well-formed OPEN, as [`own_open`](crate::own_open) answers one, has this own fault:
/// for each there is no configuration under which it is the local system's own.
pub fn has_own_fault(own: &[u8], fault: OwnFault) -> bool
    requires { IsWellFormed own.now }
    ensures { IsTrue result ↔ own_faults (open_of own.now) fault }
{
    let Some(message) = read_fields(own) else {
        return false;
    };
    match fault {
        OwnFault::AsNumber => is_odd_as(&message),
        OwnFault::Identifier => message.id() == 0,
        OwnFault::Hold => is_bad_hold(message.hold()),
    }
}

/// The widest settings of the end whose OPEN this is, where the peer has to have this AS number.
pub(crate) fn own_settings(session: &Session, message: &Open<'_>, peer_as: u32) -> ConfigParts
    ensures { result ≡ own_settings session.now message.now peer_as }
{
    let offer = offer_of(message);
    ConfigParts {
        local_as: own_as(message),
        peer_as,
        local_id: some_id(message),
        hold: own_hold(message),
        families: offer.families,
        as4: offer.as4,
        delay_open: true,
        large_hold: LARGE_HOLD,
        session: Session {
            extended: offer.extended,
            ..*session
        },
        offers: offer.routes,
    }
}

/// The widest settings of an end that sent no OPEN.
pub(crate) fn free_settings(
    session: &Session,
    local_as: u32,
    peer_as: u32,
    local_id: u32,
    as4: bool,
) -> ConfigParts
    ensures { result ≡ free_settings session.now local_as peer_as local_id as4 }
{
    ConfigParts {
        local_as,
        peer_as,
        local_id,
        hold: HOLD,
        families: Families::V4,
        as4,
        delay_open: true,
        large_hold: LARGE_HOLD,
        session: Session {
            extended: false,
            ..*session
        },
        offers: RouteOffer::NOTHING,
    }
}
