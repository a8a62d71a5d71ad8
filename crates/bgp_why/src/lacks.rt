//! What the impossible record lacks of an item that it resembles.

ghost use Rattle.std.specs.Prelude.{◌≡◌, ◌↔◌, IsTrue, IfOk};
ghost use Rattle.mrt.specs.Reader.{shown_of};
ghost use Rattle.bgp_wire.specs.Verdict.{type_code};
ghost use Rattle.bgp_machine.specs.Want.{limit_on};
ghost use Rattle.bgp_text.specs.Lines.{Writes};
ghost use Rattle.bgp_why.specs.Lacks.{IsWholeOf, AreNotificationLacks, AreSentLacks};
ghost use Rattle.bgp_why.specs.Lacks.{AreLacks, is_open, is_update, is_notification};
ghost use Rattle.bgp_why.specs.Lacks.{but_text, open_lacks, lacks_text, resembles};
ghost use Rattle.bgp_why.specs.Lacks.{is_code_possible, is_resembled};

use crate::items::{Item, has_fsm_error, has_header_error, has_open_error, has_update_error};
use crate::whole::sent_limit;
use bgp_open::{Config, Link, read_notification};
use bgp_prefix::Seconds;
use bgp_text::Lines;
use bgp_why_parts::{
    NotificationParts, OwnFaults, OwnOpenParts, Parts, Possible, UpdatePart, notification_parts,
    own_open_parts, put_own_faults, put_parts, update_parts,
};
use bgp_wire::{HeaderVerdict, MessageType, check_header, header_at};
use mrt::{Record, Sink};
use std::alloc::{AllocError, Allocator, Global};

/// What a record lacks of the item that it resembles.
#[derive(Drop)]
pub enum Lacks<'a, A: Allocator = Global> {
    /// It resembles none.
    Nothing,
    /// An OPEN that was sent, of the local system's own.
    Open(OwnOpenParts),
    /// An UPDATE that was sent, of a clean one.
    Update(Vec<UpdatePart<'a>, A>),
    /// A NOTIFICATION of this code that was sent, of those that are possible.
    Notification(u8, NotificationParts<'a>),
}

/// Whether octets are a whole message of this type that can be sent on a link.
fn is_whole(link: Option<Link>, octets: &[u8], kind: MessageType) -> bool
    ensures { IsTrue result ↔ IsWholeOf (limit_on link) (type_code kind) octets.now }
{
    let Some(header) = header_at(octets) else {
        return false;
    };
    match check_header(header, sent_limit(link)) {
        HeaderVerdict::Whole(count, found) => {
            let is_as_long = octets.len() == usize::from(count);
            let is_of_type = found.code() == kind.code();
            is_as_long && is_of_type
        }
        HeaderVerdict::Faulty(_) => false,
    }
}

/// What a NOTIFICATION lacks, if octets are one of a code that is possible.
fn notification_lacks<'a, A: Allocator>(
    possible: &Possible,
    second: Seconds,
    octets: &'a [u8],
) -> Lacks<'a, A>
    ensures { AreNotificationLacks possible.now second octets.entry.now result }
{
    let Some(notification) = read_notification(octets) else {
        return Lacks::Nothing;
    };
    match notification_parts(possible, second, octets) {
        Some(parts) => Lacks::Notification(notification.code, parts),
        None => Lacks::Nothing,
    }
}

/// What a message that was sent lacks.
fn sent_lacks<'a, A: Allocator + Copy>(
    alloc: A,
    config: &Config,
    link: Option<Link>,
    possible: &Possible,
    second: Seconds,
    octets: &'a [u8],
) -> Result<Lacks<'a, A>, AllocError>
    ensures { IfOk result (AreSentLacks config.now link possible.now second octets.entry.now) }
{
    if is_whole(link, octets, MessageType::Open) {
        return Ok(Lacks::Open(own_open_parts(config, octets)));
    }
    let Some(settled) = link else {
        return Ok(notification_lacks(possible, second, octets));
    };
    if is_whole(link, octets, MessageType::Update) {
        let parts = update_parts(alloc, &settled, settled.sent, octets)?;
        return Ok(Lacks::Update(parts));
    }
    Ok(notification_lacks(possible, second, octets))
}

impl<'a, A: Allocator + Copy> Lacks<'a, A> {
    /// What a record lacks: an OPEN of the local system's own, an UPDATE of a clean one on the
    /// link, a NOTIFICATION of those of its code that are possible. It takes memory for what an
    /// UPDATE lacks.
    pub fn of(
        alloc: A,
        config: &Config,
        link: Option<Link>,
        possible: &Possible,
        shown: &Record<'a>,
    ) -> Result<Lacks<'a, A>, AllocError>
        ensures { IfOk result (AreLacks config.now link possible.now (shown_of shown.now)) }
    {
        match *shown {
            Record::In(_, _) => Ok(Lacks::Nothing),
            Record::Out(second, octets) => {
                sent_lacks(alloc, config, link, possible, second, octets)
            }
            Record::Change(_, _, _) => Ok(Lacks::Nothing),
        }
    }
}

fn is_open(item: &Item) -> bool
    ensures { result ≡ is_open item.now }
{
    matches!(*item, Item::SentOpen)
}

fn is_update(item: &Item) -> bool
    ensures { result ≡ is_update item.now }
{
    matches!(*item, Item::SentUpdate)
}

/// Whether an item is NOTIFICATIONs of this code.
fn is_notification(code: u8, item: &Item) -> bool
    ensures { result ≡ is_notification code item.now }
{
    match item {
        Item::HeaderErrors(_) => code == 1,
        Item::OpenErrors(_) => code == 2,
        Item::UpdateErrors(_) => code == 3,
        Item::HoldTimerExpired(_) => code == 4,
        Item::SendHoldTimerExpired => code == 8,
        Item::StateErrors(_) => code == 5,
        Item::Cease => code == 6,
        _ => false,
    }
}

/// Whether an item is what a record resembles, of which it lacks this.
pub(crate) fn resembles<A: Allocator>(lacks: &Lacks<'_, A>, item: &Item) -> bool
    ensures { result ≡ resembles lacks.now item.now }
{
    match lacks {
        Lacks::Nothing => false,
        Lacks::Open(_) => is_open(item),
        Lacks::Update(_) => is_update(item),
        Lacks::Notification(code, _) => is_notification(*code, item),
    }
}

/// Whether a NOTIFICATION of this code may come.
fn is_code_possible(possible: &Possible, code: u8) -> bool
    ensures { result ≡ is_code_possible possible.now code }
{
    match code {
        1 => has_header_error(&possible.header_errors),
        2 => has_open_error(&possible.open_errors),
        3 => has_update_error(&possible.update_errors),
        4 => possible.hold_timer_expired.is_some(),
        5 => has_fsm_error(&possible.fsm_errors),
        6 => possible.cease,
        8 => possible.send_hold_timer_expired,
        _ => false,
    }
}

/// Whether an item that a record resembles may come.
pub(crate) fn is_resembled<A: Allocator>(possible: &Possible, lacks: &Lacks<'_, A>) -> bool
    ensures { result ≡ is_resembled possible.now lacks.now }
{
    match lacks {
        Lacks::Nothing => false,
        Lacks::Open(_) => possible.own_open,
        Lacks::Update(_) => possible.update,
        Lacks::Notification(code, _) => is_code_possible(possible, *code),
    }
}

/// The parts of an OPEN after one text, or its own faults after the other, if they are given.
fn put_open_lacks<W: Sink>(
    lines: &mut Lines<'_, W>,
    before: &'static [u8],
    own: &'static [u8],
    own_faults: Option<OwnFaults>,
    parts: &OwnOpenParts,
)
    ensures { Writes lines.old lines.new (open_lacks before.now own.now own_faults parts.now) }
{
    match own_faults {
        None => put_parts(lines, before, Parts::Open(parts)),
        Some(faults) => put_own_faults(lines, own, &faults),
    }
}

/// Puts what a record lacks, after one text or, if those are own faults, after the other.
pub(crate) fn put_lacks<W: Sink, A: Allocator>(
    lines: &mut Lines<'_, W>,
    before: &'static [u8],
    own: &'static [u8],
    own_faults: Option<OwnFaults>,
    lacks: &Lacks<'_, A>,
)
    ensures { Writes lines.old lines.new (lacks_text before.now own.now own_faults lacks.now) }
{
    match lacks {
        Lacks::Nothing => lines.put(b""),
        Lacks::Open(parts) => put_open_lacks(lines, before, own, own_faults, parts),
        Lacks::Update(parts) => put_parts(lines, before, Parts::Update(true, parts.as_slice())),
        Lacks::Notification(code, parts) => {
            put_parts(lines, before, Parts::Notification(*code, parts));
        }
    }
}

/// Puts what a record lacks of an item, if it resembles this one.
pub fn put_but<W: Sink, A: Allocator>(
    lines: &mut Lines<'_, W>,
    own_faults: Option<OwnFaults>,
    item: &Item,
    lacks: &Lacks<'_, A>,
)
    ensures { Writes lines.old lines.new (but_text own_faults lacks.now item.now) }
{
    if resembles(lacks, item) {
        put_lacks(
            lines,
            b"; this one: ",
            b"; none may have ",
            own_faults,
            lacks,
        );
    } else {
        lines.put(b"");
    }
}
