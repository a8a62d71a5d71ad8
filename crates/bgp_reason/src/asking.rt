//! What may follow, by asking a tracker of one record of each kind.

ghost use Rattle.std.specs.Prelude.{◌≡◌, ◌≤◌, ◌<◌, ◌↔◌, ◌^◌, ◌++◌};
ghost use Rattle.std.specs.Prelude.{List, [], IsTrue, IfOk, IfSome, IfNone};
ghost use Rattle.std.specs.Prelude.{length};
ghost use Rattle.byteorder.specs.Endian.{big_bytes};
ghost use Rattle.bgp_prefix.specs.Shown.{ShownRecord, Received, Sent, Changed};
ghost use Rattle.bgp_wire.specs.ErrorCode.{error_code};
ghost use Rattle.bgp_wire.specs.Header.{header_of, length_of, type_of};
ghost use Rattle.bgp_wire.specs.Message.{message_octets};
ghost use Rattle.bgp_open.specs.declared.config.Config.{Config as TheConfig};
ghost use Rattle.bgp_open.specs.OwnOpen.{own_fields};
ghost use Rattle.bgp_open.specs.Written.{notification_octets, open_octets};
ghost use Rattle.bgp_machine.specs.Laws.{empty_update};
ghost use Rattle.bgp_machine.specs.State.{number_of};
ghost use Rattle.bgp_judge.specs.Told.{told};
ghost use Rattle.bgp_reason.specs.Asked.{AreAsked, AreChanges, AreFsmErrors, AreHeaderErrors};
ghost use Rattle.bgp_reason.specs.Asked.{AreOpenErrors, AreUpdateErrors, IsLeastSecond, MayExpire};
ghost use Rattle.bgp_reason.specs.Asked.{MayNotify};
ghost use Rattle.bgp_reason.specs.Following.{MayFollow};
ghost use Rattle.bgp_reason.specs.Possible.{ArePossible};
ghost use Rattle.bgp_reason.specs.Told.{last_message};

use crate::kinds::{FsmErrors, Possible, States};
use crate::laws::{hold_timer_expires_from_then_on, one_record_of_each_kind_tells_all};
use bgp_judge::{Record, Tracker};
use bgp_machine::{Fsm, Subcodes};
use bgp_open::{
    Config, Notification, NotificationWriteFault, OpenSubcodes, write_notification, write_own_open,
};
use bgp_prefix::Seconds;
use bgp_wire::{
    ErrorCode, HeaderFaults, MessageType, header_at, put_header, put_keepalive, put_u16, read_type,
};
use byteorder::{BigEndian, ByteOrder};
use std::alloc::{AllocError, Allocator};

/// How many octets an UPDATE without contents has: header 19, and the two lengths 2 each.
const EMPTY_UPDATE_LEN: u16 = 23;

/// The version of BGP that is spoken, as the data of Unsupported Version Number (RFC 4271, 6.2).
const SPOKEN_VERSION: [u8; 2] = [0, 4];

/// Whether these octets may be sent at this second.
fn may_send<A: Allocator + Copy, T: Tracker<A>>(
    tracker: &T,
    second: Seconds,
    octets: &[u8],
) -> Result<bool, AllocError>
    ensures { (config : TheConfig) (records : List ShownRecord)
        → T.stands_for tracker.now config records
        → IfOk result (λ may. IsTrue may ↔ MayFollow config records (Sent second octets.now)) }
{
    tracker.may_take(&Record::Out(second, octets))
}

/// A NOTIFICATION with data that fit.
fn notification<A: Allocator + Copy>(
    alloc: A,
    code: ErrorCode,
    subcode: u8,
    detail: &[u8],
) -> Result<Vec<u8, A>, AllocError>
    requires { length detail.now ≤ 2 }
    ensures { IfOk result (λ octets. octets.items
        ≡ notification_octets (error_code code) subcode detail.now) }
{
    let mut octets = Vec::new(alloc);
    let notification = Notification {
        code: code.code(),
        subcode,
        detail,
    };
    match write_notification(&notification, &mut octets) {
        Ok(()) => Ok(octets),
        Err(NotificationWriteFault::Memory) => Err(AllocError),
        Err(NotificationWriteFault::TooLarge) => unreachable!(),
    }
}

/// Whether this NOTIFICATION may be sent at any second.
fn may_notify<A: Allocator + Copy, T: Tracker<A>>(
    alloc: A,
    tracker: &T,
    code: ErrorCode,
    subcode: u8,
    detail: &[u8],
) -> Result<bool, AllocError>
    requires { length detail.now ≤ 2 }
    ensures { (config : TheConfig) (records : List ShownRecord)
        → T.stands_for tracker.now config records
        → IfOk result (λ may. IsTrue may
        ↔ MayNotify config records (error_code code) subcode detail.now) }
{
    let octets = notification(alloc, code, subcode, detail)?;
    may_send(tracker, 0, octets.as_slice())
}

/// Whether a message may be received.
fn may_receive<A: Allocator + Copy, T: Tracker<A>>(
    alloc: A,
    tracker: &T,
) -> Result<bool, AllocError>
    ensures { (config : TheConfig) (records : List ShownRecord)
        → T.stands_for tracker.now config records
        → IfOk result (λ may. IsTrue may
        ↔ MayFollow config records (Received 0 (message_octets 4 []))) }
{
    let mut octets = Vec::new(alloc);
    put_keepalive(&mut octets)?;
    tracker.may_take(&Record::In(0, octets.as_slice()))
}

/// Whether the local system's OPEN may be sent.
fn may_open<A: Allocator + Copy, T: Tracker<A>>(
    alloc: A,
    tracker: &T,
    config: &Config,
) -> Result<bool, AllocError>
    ensures { (records : List ShownRecord) → T.stands_for tracker.now config.now records
        → IfOk result (λ may. IsTrue may
        ↔ MayFollow config.now records (Sent 0 (open_octets (own_fields config.now)))) }
{
    let mut octets = Vec::new(alloc);
    write_own_open(config, &mut octets)?;
    may_send(tracker, 0, octets.as_slice())
}

/// Whether a KEEPALIVE may be sent.
fn may_keep_alive<A: Allocator + Copy, T: Tracker<A>>(
    alloc: A,
    tracker: &T,
) -> Result<bool, AllocError>
    ensures { (config : TheConfig) (records : List ShownRecord)
        → T.stands_for tracker.now config records
        → IfOk result (λ may. IsTrue may
        ↔ MayFollow config records (Sent 0 (message_octets 4 []))) }
{
    let mut octets = Vec::new(alloc);
    put_keepalive(&mut octets)?;
    may_send(tracker, 0, octets.as_slice())
}

/// An UPDATE whose three fields are empty.
#[tactic(auto, using(crate::proofs::Asks::empty_written))]
fn put_empty_update<A: Allocator>(out: &mut Vec<u8, A>) -> Result<(), AllocError>
    requires { out.old.items ≡ [] }
    ensures { IfOk result (λ done. out.new.items ≡ empty_update) }
{
    out.reserve(EMPTY_UPDATE_LEN as usize)?;
    put_header(out, MessageType::Update, EMPTY_UPDATE_LEN);
    put_u16(out, 0);
    put_u16(out, 0);
    Ok(())
}

/// Whether an UPDATE may be sent that is clean.
fn may_update<A: Allocator + Copy, T: Tracker<A>>(alloc: A, tracker: &T) -> Result<bool, AllocError>
    ensures { (config : TheConfig) (records : List ShownRecord)
        → T.stands_for tracker.now config records
        → IfOk result (λ may. IsTrue may ↔ MayFollow config records (Sent 0 empty_update)) }
{
    let mut octets = Vec::new(alloc);
    put_empty_update(&mut octets)?;
    may_send(tracker, 0, octets.as_slice())
}

/// The Length field of a header at the front of the octets.
#[tactic(auto, unfolding(bgp_wire::specs::Header::length_of))]
fn length_field(header: &[u8; 19]) -> u16
    ensures { result ≡ length_of header.now }
{
    BigEndian::read_u16(&header[16..])
}

/// Whether Bad Message Length may be sent, and with which Length: that of the last message.
fn bad_length<A: Allocator + Copy, T: Tracker<A>>(
    alloc: A,
    tracker: &T,
    header: &[u8; 19],
) -> Result<Option<u16>, AllocError>
    ensures some { IfOk result (λ errors. IfSome errors (λ count. count ≡ length_of header.now)) }
    ensures may { (config : TheConfig) (records : List ShownRecord)
        → T.stands_for tracker.now config records
        → IfOk result (λ errors.
        IfSome errors (λ count. MayNotify config records 1 2 (big_bytes 2 count))) }
    ensures none { (config : TheConfig) (records : List ShownRecord)
        → T.stands_for tracker.now config records
        → IfOk result (λ errors.
        IfNone errors (¬ MayNotify config records 1 2 (big_bytes 2 (length_of header.now)))) }
{
    let count = length_field(header);
    let mut octets = [0; 2];
    BigEndian::write_u16(&mut octets, count);
    let may = may_notify(alloc, tracker, ErrorCode::MessageHeader, 2, &octets)?;
    Ok(may.then_some(count))
}

/// Whether Bad Message Type may be sent, and with which Type: that of the last message.
fn bad_type<A: Allocator + Copy, T: Tracker<A>>(
    alloc: A,
    tracker: &T,
    header: &[u8; 19],
) -> Result<Option<u8>, AllocError>
    ensures some { IfOk result (λ errors. IfSome errors (λ kind. kind ≡ type_of header.now)) }
    ensures may { (config : TheConfig) (records : List ShownRecord)
        → T.stands_for tracker.now config records
        → IfOk result (λ errors.
        IfSome errors (λ kind. MayNotify config records 1 3 (big_bytes 1 kind))) }
    ensures none { (config : TheConfig) (records : List ShownRecord)
        → T.stands_for tracker.now config records
        → IfOk result (λ errors.
        IfNone errors (¬ MayNotify config records 1 3 (big_bytes 1 (type_of header.now)))) }
{
    let kind = read_type(header);
    let may = may_notify(alloc, tracker, ErrorCode::MessageHeader, 3, &[kind])?;
    Ok(may.then_some(kind))
}

/// Message Header Error: which of these may be sent after this message, the last received.
fn header_errors<A: Allocator + Copy, T: Tracker<A>>(
    alloc: A,
    tracker: &T,
    last: &[u8],
) -> Result<HeaderFaults, AllocError>
    ensures { (config : TheConfig) (records : List ShownRecord)
        → T.stands_for tracker.now config records → last.now ≡ last_message records
        → IfOk result (AreHeaderErrors config records) }
{
    let marker = may_notify(alloc, tracker, ErrorCode::MessageHeader, 1, &[])?;
    let Some(header) = header_at(last) else {
        return Ok(HeaderFaults {
            marker,
            length: None,
            kind: None,
        });
    };
    Ok(HeaderFaults {
        marker,
        length: bad_length(alloc, tracker, header)?,
        kind: bad_type(alloc, tracker, header)?,
    })
}

/// OPEN Message Error: which of these may be sent.
fn open_errors<A: Allocator + Copy, T: Tracker<A>>(
    alloc: A,
    tracker: &T,
) -> Result<OpenSubcodes, AllocError>
    ensures { (config : TheConfig) (records : List ShownRecord)
        → T.stands_for tracker.now config records
        → IfOk result (AreOpenErrors config records) }
{
    Ok(OpenSubcodes {
        unspecific: may_notify(alloc, tracker, ErrorCode::OpenMessage, 0, &[])?,
        version: may_notify(alloc, tracker, ErrorCode::OpenMessage, 1, &SPOKEN_VERSION)?,
        peer_as: may_notify(alloc, tracker, ErrorCode::OpenMessage, 2, &[])?,
        identifier: may_notify(alloc, tracker, ErrorCode::OpenMessage, 3, &[])?,
        parameter: may_notify(alloc, tracker, ErrorCode::OpenMessage, 4, &[])?,
        hold: may_notify(alloc, tracker, ErrorCode::OpenMessage, 6, &[])?,
        capability: may_notify(alloc, tracker, ErrorCode::OpenMessage, 7, &[])?,
        role: may_notify(alloc, tracker, ErrorCode::OpenMessage, 11, &[])?,
    })
}

/// UPDATE Message Error: which of these may be sent.
fn update_errors<A: Allocator + Copy, T: Tracker<A>>(
    alloc: A,
    tracker: &T,
) -> Result<Subcodes, AllocError>
    ensures { (config : TheConfig) (records : List ShownRecord)
        → T.stands_for tracker.now config records
        → IfOk result (AreUpdateErrors config records) }
{
    Ok(Subcodes {
        malformed_attribute_list: may_notify(alloc, tracker, ErrorCode::UpdateMessage, 1, &[])?,
        unrecognized_well_known: may_notify(alloc, tracker, ErrorCode::UpdateMessage, 2, &[])?,
        missing_well_known: may_notify(alloc, tracker, ErrorCode::UpdateMessage, 3, &[])?,
        attribute_flags: may_notify(alloc, tracker, ErrorCode::UpdateMessage, 4, &[])?,
        attribute_length: may_notify(alloc, tracker, ErrorCode::UpdateMessage, 5, &[])?,
        invalid_origin: may_notify(alloc, tracker, ErrorCode::UpdateMessage, 6, &[])?,
        as_routing_loop: may_notify(alloc, tracker, ErrorCode::UpdateMessage, 7, &[])?,
        invalid_next_hop: may_notify(alloc, tracker, ErrorCode::UpdateMessage, 8, &[])?,
        optional_attribute: may_notify(alloc, tracker, ErrorCode::UpdateMessage, 9, &[])?,
        invalid_network_field: may_notify(alloc, tracker, ErrorCode::UpdateMessage, 10, &[])?,
        malformed_as_path: may_notify(alloc, tracker, ErrorCode::UpdateMessage, 11, &[])?,
    })
}

/// Finite State Machine Error: which of these may be sent.
fn fsm_errors<A: Allocator + Copy, T: Tracker<A>>(
    alloc: A,
    tracker: &T,
) -> Result<FsmErrors, AllocError>
    ensures { (config : TheConfig) (records : List ShownRecord)
        → T.stands_for tracker.now config records
        → IfOk result (AreFsmErrors config records) }
{
    Ok(FsmErrors {
        unspecified: may_notify(alloc, tracker, ErrorCode::FiniteStateMachine, 0, &[])?,
        open_sent: may_notify(alloc, tracker, ErrorCode::FiniteStateMachine, 1, &[])?,
        open_confirm: may_notify(alloc, tracker, ErrorCode::FiniteStateMachine, 2, &[])?,
        established: may_notify(alloc, tracker, ErrorCode::FiniteStateMachine, 3, &[])?,
    })
}

/// Whether the change from one state to another may be told.
fn may_change<A: Allocator + Copy, T: Tracker<A>>(
    tracker: &T,
    from: Fsm,
    to: Fsm,
) -> Result<bool, AllocError>
    ensures { (config : TheConfig) (records : List ShownRecord)
        → T.stands_for tracker.now config records
        → IfOk result (λ may. IsTrue may
        ↔ MayFollow config records (Changed 0 (number_of from) (number_of to))) }
{
    tracker.may_take(&Record::Change(0, from.number(), to.number()))
}

/// The states that may be told next.
fn changes<A: Allocator + Copy, T: Tracker<A>>(
    tracker: &T,
    state: Fsm,
) -> Result<States, AllocError>
    ensures { (config : TheConfig) (records : List ShownRecord)
        → T.stands_for tracker.now config records → state ≡ (told records).fsm
        → IfOk result (AreChanges config records) }
{
    Ok(States {
        idle: may_change(tracker, state, Fsm::Idle)?,
        connect: may_change(tracker, state, Fsm::Connect)?,
        active: may_change(tracker, state, Fsm::Active)?,
        open_sent: may_change(tracker, state, Fsm::OpenSent)?,
        open_confirm: may_change(tracker, state, Fsm::OpenConfirm)?,
        established: may_change(tracker, state, Fsm::Established)?,
    })
}

/// The second from which Hold Timer Expired may be sent, if there is one: it may be from then on.
fn least_expiry<A: Allocator + Copy, T: Tracker<A>>(
    alloc: A,
    tracker: &T,
) -> Result<Option<Seconds>, AllocError>
    ensures { (config : TheConfig) (records : List ShownRecord)
        → T.stands_for tracker.now config records
        → IfOk result (IsLeastSecond config records) }
{
    hold_timer_expires_from_then_on();
    let octets = notification(alloc, ErrorCode::HoldTimerExpired, 0, &[])?;
    if !may_send(tracker, Seconds::MAX, octets.as_slice())? {
        return Ok(None);
    }
    let mut low: Seconds = 0;
    let mut high = Seconds::MAX;
    while low < high {
        let middle = low + (high - low) / 2;
        if may_send(tracker, middle, octets.as_slice())? {
            high = middle;
        } else {
            low = middle + 1;
        }
    }
    Ok(Some(high))
}

/// What may follow the records that a tracker stands for: all of it, and nothing else. `state` is
/// the state that they tell, and `last` the message that was received last, empty where none was.
///
/// The tracker is asked of one record of each kind, some 40, and of Hold Timer Expired at 33
/// seconds at the most. It takes memory for the record that it asks of, one at a time, and what
/// `may_take` takes.
pub fn possible<A: Allocator + Copy, T: Tracker<A>>(
    alloc: A,
    tracker: &T,
    config: &Config,
    state: Fsm,
    last: &[u8],
) -> Result<Possible, AllocError>
    ensures exact { (records : List ShownRecord) → T.stands_for tracker.now config.now records
        → state ≡ (told records).fsm → last.now ≡ last_message records
        → IfOk result (ArePossible config.now records) }

    // Each field by itself, also where no record is of its kind: no link is settled for an UPDATE,
    // or no change may follow.
    ensures each { (records : List ShownRecord) → T.stands_for tracker.now config.now records
        → state ≡ (told records).fsm → last.now ≡ last_message records
        → IfOk result (AreAsked config.now records) }
{
    one_record_of_each_kind_tells_all();
    Ok(Possible {
        state,
        message: may_receive(alloc, tracker)?,
        own_open: may_open(alloc, tracker, config)?,
        keepalive: may_keep_alive(alloc, tracker)?,
        update: may_update(alloc, tracker)?,
        header_errors: header_errors(alloc, tracker, last)?,
        open_errors: open_errors(alloc, tracker)?,
        update_errors: update_errors(alloc, tracker)?,
        hold_timer_expired: least_expiry(alloc, tracker)?,
        send_hold_timer_expired: may_notify(
            alloc,
            tracker,
            ErrorCode::SendHoldTimerExpired,
            0,
            &[],
        )?,
        fsm_errors: fsm_errors(alloc, tracker)?,
        cease: may_notify(alloc, tracker, ErrorCode::Cease, 0, &[])?,
        changes: changes(tracker, state)?,
    })
}
