//! Which messages meet a want (RFC 4271, 6; RFC 6608, 3; RFC 9687, 5).

ghost use Rattle.std.specs.Prelude.{◌≡◌, ◌↔◌, ◌⊎◌, IsTrue};
ghost use Rattle.bgp_wire.specs.Message.{IsMessage};
ghost use Rattle.bgp_open.specs.declared.config.Config.{Config as TheConfig};
ghost use Rattle.bgp_machine.specs.Want.{Meets, Fulfils, Tells, NamesFault, subcode_of};
ghost use Rattle.bgp_machine.specs.Want.{limit_on as limit_by};
ghost use Rattle.bgp_machine.specs.declared.want.Want.TheVariants as wants;

use crate::want::{FaultSet, Unexpected, Want};
use bgp_open::{Config, Link, is_own_open, read_notification};
use bgp_rib::is_clean;
use bgp_wire::{ErrorCode, Limit, MessageType, is_frame, message_body};

/// How long a sent message may be: on a link as the peer offered (RFC 8654, 4), whatever the local
/// system offers, and before there is one 4096 octets.
fn limit_on(link: Option<Link>) -> Limit
    ensures { result ≡ limit_by link }
{
    match link {
        Some(link) => Limit::with_extended(link.extended),
        None => Limit::Plain,
    }
}

fn is_keepalive(octets: &[u8]) -> bool
    ensures { IsTrue result ↔ IsMessage 4 octets.now }
{
    message_body(MessageType::Keepalive, octets).is_some()
}

fn is_cease(octets: &[u8]) -> bool
    ensures { IsTrue result ↔ Tells octets.now (λ code subcode detail. code ≡ 6) }
{
    let Some(notification) = read_notification(octets) else {
        return false;
    };
    notification.code == ErrorCode::Cease.code()
}

fn is_hold_expired(octets: &[u8]) -> bool
    ensures { IsTrue result ↔ Tells octets.now (λ code subcode detail. (code ≡ 4) × (subcode ≡ 0)) }
{
    let Some(notification) = read_notification(octets) else {
        return false;
    };
    notification.code == ErrorCode::HoldTimerExpired.code() && notification.subcode == 0
}

fn is_send_hold_expired(octets: &[u8]) -> bool
    ensures { IsTrue result ↔ Tells octets.now (λ code subcode detail. (code ≡ 8) × (subcode ≡ 0)) }
{
    let Some(notification) = read_notification(octets) else {
        return false;
    };
    notification.code == ErrorCode::SendHoldTimerExpired.code() && notification.subcode == 0
}

fn is_machine_error(state: Unexpected, octets: &[u8]) -> bool
    ensures { IsTrue result ↔ Tells octets.now (λ code subcode detail.
        (code ≡ 5) × ((subcode ≡ 0) ⊎ (subcode ≡ subcode_of state))) }
{
    let Some(notification) = read_notification(octets) else {
        return false;
    };
    let names_state = notification.subcode == state.subcode();
    notification.code == ErrorCode::FiniteStateMachine.code()
        && (notification.subcode == 0 || names_state)
}

impl FaultSet {
    /// Checks whether a NOTIFICATION with this code, this subcode and these data names a fault of
    /// the set.
    pub fn contains(self, code: u8, subcode: u8, detail: &[u8]) -> bool
        ensures { IsTrue result ↔ NamesFault self code subcode detail.now }
    {
        match self {
            FaultSet::Header(faults) => {
                code == ErrorCode::MessageHeader.code() && faults.contains(subcode, detail)
            }
            FaultSet::Open(subcodes) => {
                code == ErrorCode::OpenMessage.code() && subcodes.contains(subcode, detail)
            }
            FaultSet::Update(subcodes) => {
                code == ErrorCode::UpdateMessage.code() && subcodes.contains(subcode)
            }
        }
    }
}

fn tells_fault(faults: FaultSet, octets: &[u8]) -> bool
    ensures { IsTrue result ↔ Tells octets.now (NamesFault faults) }
{
    let Some(notification) = read_notification(octets) else {
        return false;
    };
    faults.contains(notification.code, notification.subcode, notification.detail)
}

fn is_clean_on(link: Option<Link>, octets: &[u8]) -> bool
    ensures { (config : TheConfig)
        → (IsTrue result ↔ Fulfils config link wants.CleanUpdate octets.now) }
{
    match link {
        Some(link) => is_clean(&link, octets),
        None => false,
    }
}

/// Whether a message says what is wanted.
fn fulfils(config: &Config, link: Option<Link>, want: Want, octets: &[u8]) -> bool
    ensures { IsTrue result ↔ Fulfils config.now link want octets.now }
{
    match want {
        Want::OwnOpen => is_own_open(config, octets),
        Want::KeepAlive => is_keepalive(octets),
        Want::CleanUpdate => is_clean_on(link, octets),
        Want::Cease => is_cease(octets),
        Want::HoldExpired => is_hold_expired(octets),
        Want::SendHoldExpired => is_send_hold_expired(octets),
        Want::MachineError(state) => is_machine_error(state, octets),
        Want::Faults(faults) => tells_fault(faults, octets),
    }
}

/// Checks whether a message meets a want, on the link before the step: it is one whole message, and
/// what is wanted. It takes no memory.
pub fn meets(config: &Config, link: Option<Link>, want: Want, octets: &[u8]) -> bool
    ensures { IsTrue result ↔ Meets config.now link want octets.now }
{
    if !is_frame(limit_on(link), octets) {
        return false;
    }
    fulfils(config, link, want, octets)
}
