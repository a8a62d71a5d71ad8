//! What could have been sent in a place, by asking about one message of each kind.

ghost use Rattle.std.specs.Prelude.{◌≡◌, ◌≤◌, ◌↔◌, [], IfNone, IfOk, IfSome, IsTrue, length};
ghost use Rattle.byteorder.specs.Endian.{big_bytes};
ghost use Rattle.bgp_wire.specs.ErrorCode.{error_code};
ghost use Rattle.bgp_wire.specs.Header.{length_of, type_of};
ghost use Rattle.bgp_wire.specs.Message.{message_octets};
ghost use Rattle.bgp_open.specs.OwnOpen.{own_fields};
ghost use Rattle.bgp_open.specs.Written.{notification_octets, open_octets};
ghost use Rattle.bgp_update.specs.Laws.{empty_update};
ghost use Rattle.bgp_recording.specs.Told.{IsTold};
ghost use Rattle.bgp_orders.specs.SentPlaces.{CouldBeSent};
ghost use Rattle.bgp_instead.specs.Places.{Could, PlaceOf, last_octets};
ghost use Rattle.bgp_instead.specs.Sendable.{AreFsmErrors, AreHeaderErrors, AreOpenErrors};
ghost use Rattle.bgp_instead.specs.Sendable.{AreSendable, AreUpdateErrors, CouldNotify};

use crate::sendable::Sendable;
use bgp_open::{
    Config, Notification, NotificationWriteFault, OpenSubcodes, write_notification, write_own_open,
};
use bgp_orders::{SentPlace, place_of_sent};
use bgp_reason::FsmErrors;
use bgp_recording::{Exchange, Message};
use bgp_update::Subcodes;
use bgp_wire::{
    ErrorCode, HeaderFaults, MessageType, header_at, put_header, put_keepalive, put_u16, read_type,
};
use byteorder::{BigEndian, ByteOrder};
use std::alloc::{AllocError, Allocator};

/// How many nodes are asked at most about what could have been sent.
pub const MOST_ASKED: usize = 32_768;

/// How many octets an UPDATE without contents has: header 19, and the two lengths 2 each.
const EMPTY_UPDATE_LEN: u16 = 23;

/// The version of BGP that is spoken, as the data of Unsupported Version Number (RFC 4271, 6.2).
const SPOKEN_VERSION: [u8; 2] = [0, 4];

/// Returns a NOTIFICATION with data that fit.
fn notification<A: Allocator + Copy>(
    alloc: A,
    code: ErrorCode,
    subcode: u8,
    detail: &[u8],
) -> Result<Vec<u8, A>, AllocError>
    requires { length detail.now ≤ 2 }
    ensures { IfOk result (λ octets. octets.items
        ≡ notification_octets (error_code code) subcode detail.now) }
{
    let mut octets = Vec::new(alloc);
    let notification = Notification {
        code: code.code(),
        subcode,
        detail,
    };
    match write_notification(&notification, &mut octets) {
        Ok(()) => Ok(octets),
        Err(NotificationWriteFault::Memory) => Err(AllocError),
        Err(NotificationWriteFault::TooLarge) => unreachable!(),
    }
}

/// Checks whether these octets could have been sent in the place.
fn could_send<A: Allocator + Copy>(
    place: &SentPlace<'_, '_, A>,
    octets: &[u8],
) -> Result<bool, AllocError>
    ensures { (of : PlaceOf place.now)
        → IfOk result (λ could. IsTrue could ↔ Could of octets.now) }
{
    place.could_be_sent(octets)
}

/// Checks whether this NOTIFICATION could have been sent in the place.
fn could_notify<A: Allocator + Copy>(
    alloc: A,
    place: &SentPlace<'_, '_, A>,
    code: ErrorCode,
    subcode: u8,
    detail: &[u8],
) -> Result<bool, AllocError>
    requires { length detail.now ≤ 2 }
    ensures { (of : PlaceOf place.now) → IfOk result (λ could. IsTrue could
        ↔ CouldNotify (Could of) (error_code code) subcode detail.now) }
{
    let octets = notification(alloc, code, subcode, detail)?;
    could_send(place, octets.as_slice())
}

/// Checks whether the local system's OPEN could have been sent in the place.
fn could_open<A: Allocator + Copy>(
    alloc: A,
    place: &SentPlace<'_, '_, A>,
    config: &Config,
) -> Result<bool, AllocError>
    ensures { (of : PlaceOf place.now) → IfOk result (λ could. IsTrue could
        ↔ Could of (open_octets (own_fields config.now))) }
{
    let mut octets = Vec::new(alloc);
    write_own_open(config, &mut octets)?;
    could_send(place, octets.as_slice())
}

/// Checks whether a KEEPALIVE could have been sent in the place.
fn could_keep_alive<A: Allocator + Copy>(
    alloc: A,
    place: &SentPlace<'_, '_, A>,
) -> Result<bool, AllocError>
    ensures { (of : PlaceOf place.now)
        → IfOk result (λ could. IsTrue could ↔ Could of (message_octets 4 [])) }
{
    let mut octets = Vec::new(alloc);
    put_keepalive(&mut octets)?;
    could_send(place, octets.as_slice())
}

/// Puts an UPDATE whose three fields are empty.
#[tactic(auto, using(crate::proofs::Asks::empty_written))]
fn put_empty_update<A: Allocator>(out: &mut Vec<u8, A>) -> Result<(), AllocError>
    requires { out.old.items ≡ [] }
    ensures { IfOk result (λ done. out.new.items ≡ empty_update) }
{
    out.reserve(EMPTY_UPDATE_LEN as usize)?;
    put_header(out, MessageType::Update, EMPTY_UPDATE_LEN);
    put_u16(out, 0);
    put_u16(out, 0);
    Ok(())
}

/// Checks whether an UPDATE that is clean could have been sent in the place.
fn could_update<A: Allocator + Copy>(
    alloc: A,
    place: &SentPlace<'_, '_, A>,
) -> Result<bool, AllocError>
    ensures { (of : PlaceOf place.now)
        → IfOk result (λ could. IsTrue could ↔ Could of empty_update) }
{
    let mut octets = Vec::new(alloc);
    put_empty_update(&mut octets)?;
    could_send(place, octets.as_slice())
}

/// Returns the Length field of a header at the front of the octets.
#[tactic(auto, unfolding(bgp_wire::specs::Header::length_of))]
fn length_field(header: &[u8; 19]) -> u16
    ensures { result ≡ length_of header.now }
{
    BigEndian::read_u16(&header[16..])
}

/// Returns the Length of this header, if Bad Message Length with it could have been sent.
fn bad_length<A: Allocator + Copy>(
    alloc: A,
    place: &SentPlace<'_, '_, A>,
    header: &[u8; 19],
) -> Result<Option<u16>, AllocError>
    ensures some { IfOk result (λ errors. IfSome errors (λ count. count ≡ length_of header.now)) }
    ensures could { (of : PlaceOf place.now) → IfOk result (λ errors.
        IfSome errors (λ count. CouldNotify (Could of) 1 2 (big_bytes 2 count))) }
    ensures none { (of : PlaceOf place.now) → IfOk result (λ errors.
        IfNone errors (¬ CouldNotify (Could of) 1 2 (big_bytes 2 (length_of header.now)))) }
{
    let count = length_field(header);
    let mut octets = [0; 2];
    BigEndian::write_u16(&mut octets, count);
    let could = could_notify(alloc, place, ErrorCode::MessageHeader, 2, &octets)?;
    Ok(could.then_some(count))
}

/// Returns the Type of this header, if Bad Message Type with it could have been sent.
fn bad_type<A: Allocator + Copy>(
    alloc: A,
    place: &SentPlace<'_, '_, A>,
    header: &[u8; 19],
) -> Result<Option<u8>, AllocError>
    ensures some { IfOk result (λ errors. IfSome errors (λ kind. kind ≡ type_of header.now)) }
    ensures could { (of : PlaceOf place.now) → IfOk result (λ errors.
        IfSome errors (λ kind. CouldNotify (Could of) 1 3 (big_bytes 1 kind))) }
    ensures none { (of : PlaceOf place.now) → IfOk result (λ errors.
        IfNone errors (¬ CouldNotify (Could of) 1 3 (big_bytes 1 (type_of header.now)))) }
{
    let kind = read_type(header);
    let could = could_notify(alloc, place, ErrorCode::MessageHeader, 3, &[kind])?;
    Ok(could.then_some(kind))
}

/// Returns which of Message Header Error could have been sent, of the message that was received
/// last.
fn header_errors<A: Allocator + Copy>(
    alloc: A,
    place: &SentPlace<'_, '_, A>,
    last: &[u8],
) -> Result<HeaderFaults, AllocError>
    ensures { (of : PlaceOf place.now) → IfOk result (AreHeaderErrors (Could of) last.now) }
{
    let marker = could_notify(alloc, place, ErrorCode::MessageHeader, 1, &[])?;
    let Some(header) = header_at(last) else {
        return Ok(HeaderFaults {
            marker,
            length: None,
            kind: None,
        });
    };
    Ok(HeaderFaults {
        marker,
        length: bad_length(alloc, place, header)?,
        kind: bad_type(alloc, place, header)?,
    })
}

/// Returns which of OPEN Message Error could have been sent.
fn open_errors<A: Allocator + Copy>(
    alloc: A,
    place: &SentPlace<'_, '_, A>,
) -> Result<OpenSubcodes, AllocError>
    ensures { (of : PlaceOf place.now) → IfOk result (AreOpenErrors (Could of)) }
{
    Ok(OpenSubcodes {
        unspecific: could_notify(alloc, place, ErrorCode::OpenMessage, 0, &[])?,
        version: could_notify(alloc, place, ErrorCode::OpenMessage, 1, &SPOKEN_VERSION)?,
        peer_as: could_notify(alloc, place, ErrorCode::OpenMessage, 2, &[])?,
        identifier: could_notify(alloc, place, ErrorCode::OpenMessage, 3, &[])?,
        parameter: could_notify(alloc, place, ErrorCode::OpenMessage, 4, &[])?,
        hold: could_notify(alloc, place, ErrorCode::OpenMessage, 6, &[])?,
        capability: could_notify(alloc, place, ErrorCode::OpenMessage, 7, &[])?,
        role: could_notify(alloc, place, ErrorCode::OpenMessage, 11, &[])?,
    })
}

/// Returns which of UPDATE Message Error could have been sent.
fn update_errors<A: Allocator + Copy>(
    alloc: A,
    place: &SentPlace<'_, '_, A>,
) -> Result<Subcodes, AllocError>
    ensures { (of : PlaceOf place.now) → IfOk result (AreUpdateErrors (Could of)) }
{
    let code = ErrorCode::UpdateMessage;
    Ok(Subcodes {
        malformed_attribute_list: could_notify(alloc, place, code, 1, &[])?,
        unrecognized_well_known: could_notify(alloc, place, code, 2, &[])?,
        missing_well_known: could_notify(alloc, place, code, 3, &[])?,
        attribute_flags: could_notify(alloc, place, code, 4, &[])?,
        attribute_length: could_notify(alloc, place, code, 5, &[])?,
        invalid_origin: could_notify(alloc, place, code, 6, &[])?,
        as_routing_loop: could_notify(alloc, place, code, 7, &[])?,
        invalid_next_hop: could_notify(alloc, place, code, 8, &[])?,
        optional_attribute: could_notify(alloc, place, code, 9, &[])?,
        invalid_network_field: could_notify(alloc, place, code, 10, &[])?,
        malformed_as_path: could_notify(alloc, place, code, 11, &[])?,
    })
}

/// Returns which of Finite State Machine Error could have been sent.
fn fsm_errors<A: Allocator + Copy>(
    alloc: A,
    place: &SentPlace<'_, '_, A>,
) -> Result<FsmErrors, AllocError>
    ensures { (of : PlaceOf place.now) → IfOk result (AreFsmErrors (Could of)) }
{
    let code = ErrorCode::FiniteStateMachine;
    Ok(FsmErrors {
        unspecified: could_notify(alloc, place, code, 0, &[])?,
        open_sent: could_notify(alloc, place, code, 1, &[])?,
        open_confirm: could_notify(alloc, place, code, 2, &[])?,
        established: could_notify(alloc, place, code, 3, &[])?,
    })
}

/// Returns which messages could have been sent in the place, if `last` is the message that was
/// received last.
fn sendable_in<A: Allocator + Copy>(
    alloc: A,
    place: &SentPlace<'_, '_, A>,
    config: &Config,
    last: &[u8],
) -> Result<Sendable, AllocError>
    ensures { (of : PlaceOf place.now)
        → IfOk result (AreSendable (Could of) config.now last.now) }
{
    Ok(Sendable {
        own_open: could_open(alloc, place, config)?,
        keepalive: could_keep_alive(alloc, place)?,
        update: could_update(alloc, place)?,
        header_errors: header_errors(alloc, place, last)?,
        open_errors: open_errors(alloc, place)?,
        update_errors: update_errors(alloc, place)?,
        hold_timer_expired: could_notify(alloc, place, ErrorCode::HoldTimerExpired, 0, &[])?,
        send_hold_timer_expired: could_notify(
            alloc,
            place,
            ErrorCode::SendHoldTimerExpired,
            0,
            &[],
        )?,
        fsm_errors: fsm_errors(alloc, place)?,
        cease: could_notify(alloc, place, ErrorCode::Cease, 0, &[])?,
    })
}

/// Returns the octets of the last message, or none if there is none.
fn last_octets<'a>(messages: &[Message<'a>]) -> &'a [u8]
    ensures { result.now ≡ last_octets messages.now }
{
    match messages.last() {
        Some(message) => message.octets,
        None => &[],
    }
}

/// Returns which messages could have been sent in place of the sent message behind so many, at its
/// second, if each received message is handled within so many seconds after it came: those that,
/// in some order that the packets allow, begin a run of the session machine with all that was sent
/// before.
///
/// Takes the time and memory of [`explained_count`](bgp_orders::explained_count), and asks each node
/// before the message of some 32 messages. Returns `None` if there are more nodes than
/// [`MOST_NODES`](bgp_orders::MOST_NODES), or more than [`MOST_ASKED`] before the message, and
/// `AllocError` if memory is refused.
pub fn sendable_instead<A: Allocator + Copy>(
    alloc: A,
    config: &Config,
    exchange: &Exchange<'_, '_>,
    within: u16,
    before: usize,
) -> Result<Option<Sendable>, AllocError>
    ensures { IfOk result (λ found. IfSome found (λ sendable. IsTold exchange.now
        → AreSendable (CouldBeSent config.now within exchange.now before) config.now
        (last_octets exchange.now.received.now) sendable)) }
{
    let Some(place) = place_of_sent(alloc, config, exchange, within, before)? else {
        return Ok(None);
    };
    if place.node_count() > MOST_ASKED {
        return Ok(None);
    }
    let sendable = sendable_in(alloc, &place, config, last_octets(exchange.received))?;
    Ok(Some(sendable))
}
