//! What may follow, item by item.

ghost use Rattle.std.specs.Prelude.{◌≡◌, ◌||◌, ◌∷◌, [], ℕ, is_some};
ghost use Rattle.bgp_machine.specs.State.{number_of};
ghost use Rattle.bgp_text.specs.Lines.{Writes};
ghost use Rattle.bgp_why.specs.Items.{has_header_error, has_open_error};
ghost use Rattle.bgp_why.specs.Items.{has_update_error, has_fsm_error, has_sent};
ghost use Rattle.bgp_why.specs.Items.{expiry_item, all_items, from_text, change_text, end_text};
ghost use Rattle.bgp_why.specs.Items.{other_text, same_text};
ghost use Rattle.bgp_why.specs.Items.{due_text, item_text, way_text};
ghost use Rattle.bgp_why.specs.declared.items.Item.TheVariants.{HoldTimerExpired, Change};

use crate::errors::{put_fsm_errors, put_header_errors, put_open_errors, put_update_errors};
use bgp_clock::put_short;
use bgp_machine::Fsm;
use bgp_open::OpenSubcodes;
use bgp_prefix::Seconds;
use bgp_text::Lines;
use bgp_update::Subcodes;
use bgp_why_parts::{FsmErrors, Possible, put_code, put_state_name};
use bgp_wire::HeaderFaults;
use mrt::Sink;

/// How many items there are.
pub const ITEMS: usize = 17;

/// One of those that may follow.
#[derive(Clone, Copy)]
pub enum Item {
    /// A message is received.
    ReceivedMessage,
    /// The local system's OPEN is sent.
    SentOpen,
    /// A KEEPALIVE is sent.
    SentKeepalive,
    /// An UPDATE is sent.
    SentUpdate,
    /// A NOTIFICATION is sent: Message Header Error with one of these.
    HeaderErrors(HeaderFaults),
    /// OPEN Message Error with one of these.
    OpenErrors(OpenSubcodes),
    /// UPDATE Message Error with one of these.
    UpdateErrors(Subcodes),
    /// Hold Timer Expired, from this second on.
    HoldTimerExpired(Seconds),
    /// Send Hold Timer Expired.
    SendHoldTimerExpired,
    /// Finite State Machine Error with one of these.
    StateErrors(FsmErrors),
    /// Cease.
    Cease,
    /// The state changes from one to another, or is recorded once more as it is.
    Change(Fsm, Fsm),
}

pub(crate) fn has_header_error(errors: &HeaderFaults) -> bool
    ensures { result ≡ has_header_error errors.now }
{
    errors.marker || errors.length.is_some() || errors.kind.is_some()
}

pub(crate) fn has_open_error(errors: &OpenSubcodes) -> bool
    ensures { result ≡ has_open_error errors.now }
{
    errors.unspecific
        || errors.version
        || errors.peer_as
        || errors.identifier
        || errors.parameter
        || errors.hold
        || errors.capability
        || errors.role
}

pub(crate) fn has_update_error(errors: &Subcodes) -> bool
    ensures { result ≡ has_update_error errors.now }
{
    errors.malformed_attribute_list
        || errors.unrecognized_well_known
        || errors.missing_well_known
        || errors.attribute_flags
        || errors.attribute_length
        || errors.invalid_origin
        || errors.as_routing_loop
        || errors.invalid_next_hop
        || errors.optional_attribute
        || errors.invalid_network_field
        || errors.malformed_as_path
}

pub(crate) fn has_fsm_error(errors: &FsmErrors) -> bool
    ensures { result ≡ has_fsm_error errors.now }
{
    errors.unspecified || errors.open_sent || errors.open_confirm || errors.established
}

/// Whether some message may be sent.
pub(crate) fn has_sent(possible: &Possible) -> bool
    ensures { result ≡ has_sent possible.now }
{
    possible.own_open
        || possible.keepalive
        || possible.update
        || has_header_error(&possible.header_errors)
        || has_open_error(&possible.open_errors)
        || has_update_error(&possible.update_errors)
        || possible.hold_timer_expired.is_some()
        || possible.send_hold_timer_expired
        || has_fsm_error(&possible.fsm_errors)
        || possible.cease
}

/// Hold Timer Expired, from a second on.
fn expiry(from: Option<Seconds>) -> Option<Item>
    ensures { result ≡ expiry_item from }
{
    match from {
        None => None,
        Some(second) => Some(Item::HoldTimerExpired(second)),
    }
}

/// Each item, in the order of its line, or `None` where it isn't possible.
pub(crate) fn items_of(possible: &Possible) -> [Option<Item>; ITEMS]
    ensures { result ≡ all_items possible.now }
{
    let Possible { state, changes, .. } = *possible;
    let header_errors = possible.header_errors;
    let open_errors = possible.open_errors;
    let update_errors = possible.update_errors;
    let fsm_errors = possible.fsm_errors;
    [
        possible.message.then_some(Item::ReceivedMessage),
        possible.own_open.then_some(Item::SentOpen),
        possible.keepalive.then_some(Item::SentKeepalive),
        possible.update.then_some(Item::SentUpdate),
        has_header_error(&header_errors).then_some(Item::HeaderErrors(header_errors)),
        has_open_error(&open_errors).then_some(Item::OpenErrors(open_errors)),
        has_update_error(&update_errors).then_some(Item::UpdateErrors(update_errors)),
        expiry(possible.hold_timer_expired),
        possible
            .send_hold_timer_expired
            .then_some(Item::SendHoldTimerExpired),
        has_fsm_error(&fsm_errors).then_some(Item::StateErrors(fsm_errors)),
        possible.cease.then_some(Item::Cease),
        changes.idle.then_some(Item::Change(state, Fsm::Idle)),
        changes.connect.then_some(Item::Change(state, Fsm::Connect)),
        changes.active.then_some(Item::Change(state, Fsm::Active)),
        changes
            .open_sent
            .then_some(Item::Change(state, Fsm::OpenSent)),
        changes
            .open_confirm
            .then_some(Item::Change(state, Fsm::OpenConfirm)),
        changes
            .established
            .then_some(Item::Change(state, Fsm::Established)),
    ]
}

/// Puts the message that is to be sent; of the other items nothing.
pub(crate) fn put_due<W: Sink>(lines: &mut Lines<'_, W>, item: &Item)
    ensures { Writes lines.old lines.new (due_text item.now) }
{
    match item {
        Item::ReceivedMessage => lines.put(b""),
        Item::SentOpen => lines.put(b"OPEN"),
        Item::SentKeepalive => lines.put(b"KEEPALIVE"),
        Item::SentUpdate => lines.put(b"UPDATE without fault"),
        Item::HeaderErrors(errors) => {
            lines.put(b"NOTIFICATION ");
            put_header_errors(lines, errors);
        }
        Item::OpenErrors(errors) => {
            lines.put(b"NOTIFICATION ");
            put_open_errors(lines, errors);
        }
        Item::UpdateErrors(errors) => {
            lines.put(b"NOTIFICATION ");
            put_update_errors(lines, errors);
        }
        Item::HoldTimerExpired(_) => {
            lines.put(b"NOTIFICATION ");
            put_code(lines, 4, 0);
        }
        Item::SendHoldTimerExpired => {
            lines.put(b"NOTIFICATION ");
            put_code(lines, 8, 0);
        }
        Item::StateErrors(errors) => {
            lines.put(b"NOTIFICATION ");
            put_fsm_errors(lines, errors);
        }
        Item::Cease => lines.put(b"NOTIFICATION 6 (Cease)"),
        Item::Change(_, _) => lines.put(b""),
    }
}

/// The second from which something is possible, unless it is 0.
fn put_from<W: Sink>(lines: &mut Lines<'_, W>, first: Seconds, from: Seconds)
    ensures { Writes lines.old lines.new (from_text first from) }
{
    if from == 0 {
        lines.put(b"");
    } else {
        lines.put(b" at ");
        put_short(lines, first, from, None);
        lines.put(b" or later");
    }
}

/// The session ends, from a state with this number.
fn put_session_end<W: Sink>(lines: &mut Lines<'_, W>, old: u16)
    ensures { Writes lines.old lines.new (end_text old) }
{
    lines.put(b"the session ends, ");
    put_state_name(lines, old);
    lines.put(b" to Idle [RFC 4271 8.2.2]");
}

/// Another change to another state.
fn put_other_change<W: Sink>(lines: &mut Lines<'_, W>, old: u16, new: u16)
    ensures { Writes lines.old lines.new (other_text old new) }
{
    lines.put(b"change of state, ");
    put_state_name(lines, old);
    lines.put(b" to ");
    put_state_name(lines, new);
    lines.put(b" [RFC 4271 8.2.2]");
}

/// A state that is recorded once more as it was.
fn put_same_state<W: Sink>(lines: &mut Lines<'_, W>, state: u16)
    ensures { Writes lines.old lines.new (same_text state) }
{
    lines.put(b"the same state once more, ");
    put_state_name(lines, state);
}

/// A change of state.
fn put_change<W: Sink>(lines: &mut Lines<'_, W>, old: u16, new: u16)
    ensures { Writes lines.old lines.new (change_text old new) }
{
    if old == new {
        put_same_state(lines, old);
    } else if new == 1 {
        put_session_end(lines, old);
    } else {
        put_other_change(lines, old, new);
    }
}

/// Puts what follows the message that is to be sent, where times of the day of `first` have no
/// date; of the other items the whole text.
pub(crate) fn put_way<W: Sink>(lines: &mut Lines<'_, W>, first: Seconds, item: &Item)
    ensures { Writes lines.old lines.new (way_text first item.now) }
{
    match item {
        Item::ReceivedMessage => lines.put(b"any message received"),
        Item::SentOpen => lines.put(b" sent [RFC 4271 4.2]"),
        Item::SentKeepalive => lines.put(b" sent [RFC 4271 4.4]"),
        Item::SentUpdate => lines.put(b" sent [RFC 4271 4.3]"),
        Item::HeaderErrors(_) => lines.put(b" sent [RFC 4271 6.1]"),
        Item::OpenErrors(_) => lines.put(b" sent [RFC 4271 6.2]"),
        Item::UpdateErrors(_) => lines.put(b" sent [RFC 4271 6.3]"),
        Item::HoldTimerExpired(from) => {
            lines.put(b" sent");
            put_from(lines, first, *from);
            lines.put(b" [RFC 4271 6.5]");
        }
        Item::SendHoldTimerExpired => lines.put(b" sent [RFC 9687 4]"),
        Item::StateErrors(_) => lines.put(b" sent [RFC 4271 6.6]"),
        Item::Cease => lines.put(b" sent, any subcode [RFC 4271 6.7]"),
        Item::Change(old, new) => put_change(lines, old.number(), new.number()),
    }
}

/// Puts the text of an item.
pub fn put_item<W: Sink>(lines: &mut Lines<'_, W>, first: Seconds, item: &Item)
    ensures { Writes lines.old lines.new (item_text first item.now) }
{
    put_due(lines, item);
    put_way(lines, first, item);
}
