//! What the OPENs of a session settle about how its UPDATEs are read.
//!
//! ```text
//! let mut opens = Opens::new();
//! for (direction, octets) in messages {
//!     put_named(&mut lines, opens.reading(as2, direction), octets);
//!     opens.take(direction, octets);
//! }
//! ```

ghost use Rattle.std.specs.Prelude.{◌≡◌, ◌++◌, ◌∷◌, [], ℕ, List};
ghost use Rattle.std.specs.List.{list_any};
ghost use Rattle.bgp_open.specs.Capability.{capability_of};
ghost use Rattle.bgp_open.specs.Offer.{is_as4};
ghost use Rattle.bgp_values.specs.Opens.{AreOpens, IsLastOffer, form_by, may_have_as4, offered_by};
ghost use Rattle.bgp_values.specs.Opens.{reading_by, received_with, sent_with};

use bgp_open::{Capability, Open, RouteForm, RouteOffer, read_open};

/// The Capability Code of AS numbers of four octets (RFC 6793, 3).
const FOUR_OCTET_AS: u8 = 65;

/// Which way a message went.
#[derive(Clone, Copy, Debug, PartialEq, Eq)]
pub enum Direction {
    /// To the local system.
    Received,
    /// From it.
    Sent,
}

/// What an OPEN offers about how UPDATEs are spelled.
#[derive(Clone, Copy, Debug, PartialEq, Eq)]
pub struct Offered {
    /// How routes are spelled.
    pub routes: RouteOffer,
    /// AS numbers of four octets.
    pub as4: bool,
}

/// How the UPDATEs that go one way are read.
#[derive(Clone, Copy, Debug, PartialEq, Eq)]
pub struct Reading {
    /// How routes are spelled.
    pub form: RouteForm,
    /// AS numbers in AS_PATH and AGGREGATOR have four octets; otherwise two.
    pub as4: bool,
}

/// What the last OPEN of each direction offers. It is small, and allocates nothing.
#[derive(Clone, Copy, Debug, PartialEq, Eq)]
pub struct Opens {
    /// What the last OPEN that was received offers.
    pub received: Option<Offered>,
    /// What the last one that was sent offers.
    pub sent: Option<Offered>,
}

/// Checks whether the capability has an AS number of four octets.
fn is_as4(capability: Capability<'_>) -> bool
    ensures { result ≡ is_as4 (capability_of capability.entry) }
{
    capability.code == FOUR_OCTET_AS && capability.value.len() == 4
}

/// Checks whether an OPEN offers AS numbers of four octets.
fn has_as4(message: &Open<'_>) -> bool
    ensures { result ≡ list_any is_as4 message.now.capabilities }
{
    message.caps().any(is_as4)
}

/// Returns what an OPEN offers.
fn offered_by(message: &Open<'_>) -> Offered
    ensures { result ≡ offered_by message.now }
{
    Offered {
        routes: RouteOffer::in_open(message),
        as4: has_as4(message),
    }
}

/// Returns what the last OPEN offers after one message more: this one, if it is a well-formed OPEN.
fn last_offer(so_far: Option<Offered>, octets: &[u8]) -> Option<Offered>
    ensures { (messages : List (List ℕ)) → IsLastOffer messages so_far
        → IsLastOffer (messages ++ octets.now ∷ []) result }
{
    match read_open(octets) {
        Ok(message) => Some(offered_by(&message)),
        Err(_) => so_far,
    }
}

/// Checks whether AS numbers may have four octets, as far as this OPEN goes.
fn may_have_as4(offered: Option<Offered>) -> bool
    ensures { result ≡ may_have_as4 offered }
{
    match offered {
        None => true,
        Some(offered) => offered.as4,
    }
}

/// Returns how routes are spelled that go this way.
fn form_by(received: Option<Offered>, sent: Option<Offered>, direction: Direction) -> RouteForm
    ensures { result ≡ form_by received sent direction }
{
    let Some(received) = received else {
        return RouteForm::PLAIN;
    };
    let Some(sent) = sent else {
        return RouteForm::PLAIN;
    };
    match direction {
        Direction::Received => sent.routes.received_from(received.routes),
        Direction::Sent => sent.routes.sent_to(received.routes),
    }
}

impl Opens {
    /// Starts before the first message.
    pub fn new() -> Opens
        ensures { AreOpens [] [] result }
    {
        Opens {
            received: None,
            sent: None,
        }
    }

    /// Takes a message that went this way. Only a well-formed OPEN counts.
    pub fn take(&mut self, direction: Direction, octets: &[u8])
        ensures { (received sent : List (List ℕ)) → AreOpens received sent self.old
            → AreOpens (received_with direction octets.now received)
            (sent_with direction octets.now sent) self.new }
    {
        match direction {
            Direction::Received => self.received = last_offer(self.received, octets),
            Direction::Sent => self.sent = last_offer(self.sent, octets),
        }
    }

    /// Returns how the next message is read, if it goes this way. With `as2` AS numbers have two
    /// octets, whatever the OPENs offer.
    pub fn reading(&self, as2: bool, direction: Direction) -> Reading
        ensures { result ≡ reading_by as2 direction self.now }
    {
        Reading {
            form: form_by(self.received, self.sent, direction),
            as4: !as2 && may_have_as4(self.received) && may_have_as4(self.sent),
        }
    }
}
