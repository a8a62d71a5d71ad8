//! The made order (one of those that are allowed), and the records that tell the session in it.

ghost use Rattle.std.specs.Prelude.{◌≡◌, IfOk, OnOk, false, map};
ghost use Rattle.std.specs.List.{AllByRecursion};
ghost use Rattle.bgp_recording.specs.Changes.{awaits_keepalive, just_sent, opened_state};
ghost use Rattle.bgp_recording.specs.Told.{IsTold, IsMade};
ghost use Rattle.bgp_recording.specs.Tells.{HasSecond, numbered_of};
ghost use Rattle.bgp_recording.specs.Moments.{opening_moment};
ghost use Rattle.bgp_recording.specs.MadeOrder.{first_waits, first_is_answered, after_next};
ghost use Rattle.bgp_recording.specs.Steps.{ShowsReceived, ShowsSent, ShowsEnd, Begins};
ghost use Rattle.bgp_recording.specs.Steps.{Shows, StepsOrEnds};
ghost use Rattle.bgp_recording.specs.Steps.{answering_after, course_of, order_of};

use crate::entry::Entry;
use crate::message::Message;
use crate::pending::{Moment, Pending, Place, Turn};
use crate::putting::{Shown, put_change, put_message};
use crate::standing::{Before, Standing, led_by_end, led_by_left};
use crate::state::State;
use crate::waiting::Foresight;
use bgp_prefix::Seconds;
use mrt::Record;
use std::alloc::{AllocError, Allocator};
use std::marker::Model;
use streams::{End, Side};

/// What packets tell of a session.
#[derive(Clone, Copy, Debug, PartialEq, Eq)]
pub struct Exchange<'l, 'a> {
    /// Who opened the connection.
    pub opened_by: Side,
    /// The connection's first packet, counted from 1.
    pub packet: u64,
    /// The second of that packet.
    pub second: Seconds,
    /// The microseconds of that second's fraction, where the recording has one.
    pub micro: Option<u32>,
    /// The messages that the local system received, in their order.
    pub received: &'l [Message<'a>],
    /// Those that it sent.
    pub sent: &'l [Message<'a>],
    /// The end of the connection, where there is one.
    pub end: Option<End>,
}

impl Exchange<'_, '_> {
    /// Returns the connection's first packet.
    pub fn first_packet(&self) -> Moment
        ensures { result ≡ opening_moment self.now }
    {
        Moment {
            packet: self.packet,
            second: self.second,
            micro: self.micro,
        }
    }
}

/// An order while it is made.
#[derive(Drop)]
struct Making<'l, 'a, A: Allocator> {
    entries: Vec<Entry<'a>, A>,
    /// What isn't in it yet.
    pending: Pending<'l, 'a>,
    standing: Standing,
    /// The second of the last record.
    last: Seconds,
}

impl<'l, 'a, A: Allocator> Model for Making<'l, 'a, A> {
    ghost use Rattle.bgp_recording.specs.Leads.{pending_of};
    ghost use Rattle.std.specs.Prelude.{map};
    ghost use Rattle.bgp_recording.specs.Steps.{Making as TheMaking};
    ghost use Rattle.bgp_recording.specs.Tells.{numbered_of};

    ghost Value = { TheMaking };

    ghost view = { λ f. record {
      pending = pending_of f.pending;
      place = f.pending.place;
      last = f.last;
      state = f.standing.state;
      is_answering = f.standing.is_answering;
      before = f.standing.before;
      numbered = map numbered_of f.entries.items;
    } };
}

impl<'l, 'a, A: Allocator> Making<'l, 'a, A> {
    /// Whether the next received message waits.
    fn waits(&self, foresight: &Foresight) -> bool
        ensures { result ≡ first_waits foresight.now (course_of self.now)
            (course_of self.now).received }
    {
        let Some(message) = self.pending.next_received() else {
            return false;
        };
        let next = self.pending.next_sent();
        let why = foresight.reason(self.standing, self.pending.place, message, next);
        foresight.waits(why, self.pending.place, next)
    }

    /// Whether the answer to the next received message is the next one that is sent.
    fn is_answered(&self, foresight: &Foresight) -> bool
        ensures { result ≡ first_is_answered foresight.now (course_of self.now)
            (course_of self.now).received }
    {
        let Some(message) = self.pending.next_received() else {
            return false;
        };
        let next = self.pending.next_sent();
        foresight.is_answered(self.standing.state, self.pending.place, message.kind, next)
    }

    /// Appends a received message, whose answer is the next one sent or not.
    fn put_received(&mut self, message: Message<'a>, is_answered: bool) -> Result<(), AllocError>
        ensures ok { OnOk result (ShowsReceived self.old message.entry self.new) }
        ensures pending { self.new.pending ≡ self.old.pending }
        ensures place { self.new.place ≡ self.old.place }
        ensures answering { self.new.is_answering ≡ is_answered }
    {
        let second = message.second.max(self.last);
        let old = self.standing;
        let is_answer_next = self.pending.is_answered_before_open(message.kind);
        let led = old.led_by_received(message.kind, is_answer_next);
        self.standing = old.after_received(&message, led, is_answered);
        self.last = second;
        let entry = Entry::new(message.moment(), Record::In(second, message.octets));
        put_message(&mut self.entries, entry, second, old.state, led)?;
        Ok(())
    }

    /// Appends a sent message.
    fn put_sent(&mut self, message: Message<'a>) -> Result<(), AllocError>
        ensures ok { OnOk result (ShowsSent self.old message.entry self.new) }
        ensures pending { self.new.pending ≡ self.old.pending }
        ensures place { self.new.place ≡ self.old.place }
        ensures answering { self.new.is_answering
            ≡ awaits_keepalive (just_sent self.old.state message.entry.kind self.old.before) }
    {
        let second = message.second;
        let old = self.standing;
        let led = old.led_by_sent(message.kind);
        self.standing = old.after_sent(message.kind, led);
        self.last = second;
        let entry = Entry::new(message.moment(), Record::Out(second, message.octets));
        put_message(&mut self.entries, entry, second, old.state, led)?;
        Ok(())
    }

    /// Appends the changes to which the end leads.
    fn put_end(&mut self, end: End) -> Result<(), AllocError>
        ensures ok { OnOk result (ShowsEnd self.old end self.new) }
        ensures pending { self.new.pending ≡ self.old.pending }
        ensures place { self.new.place ≡ self.old.place }
        ensures answering { self.new.is_answering ≡ false }
    {
        let shown = Shown {
            moment: Moment::of_end(end),
            second: end.second.max(self.last),
        };
        let old = self.standing;
        let led = led_by_end(old.state);
        let ended = old.after_end(led);
        let left = led_by_left(old.state, self.pending.are_left());
        self.standing = ended.after_end(left);
        self.last = shown.second;
        put_change(&mut self.entries, shown, old.state, led)?;
        put_change(&mut self.entries, shown, ended.state, left)?;
        Ok(())
    }

    /// Appends what is shown of a turn; of a received message, whose answer is the next one sent or
    /// not.
    fn put(&mut self, turn: Turn<'a>, is_answered: bool) -> Result<(), AllocError>
        ensures ok { OnOk result (Shows self.old turn.entry self.new) }
        ensures pending { self.new.pending ≡ self.old.pending }
        ensures place { self.new.place ≡ self.old.place }
        ensures answering { self.new.is_answering
            ≡ answering_after self.old turn.entry is_answered }
    {
        match turn {
            Turn::Received(message) => self.put_received(message, is_answered),
            Turn::Sent(message) => self.put_sent(message),
            Turn::End(end) => self.put_end(end),
        }
    }

    /// Appends what stands next, and tells whether anything did.
    fn step(&mut self, foresight: &Foresight, within: u16) -> Result<bool, AllocError>
        ensures steps { IfOk result (λ more. StepsOrEnds within self.old more self.new) }
        ensures next { OnOk result
            (course_of self.new ≡ after_next foresight.now within (course_of self.old)) }
    {
        let waits = self.waits(foresight);
        let is_answered = self.is_answered(foresight);
        let Some(turn) = self.pending.next(within, waits) else {
            return Ok(false);
        };
        self.put(turn, is_answered)?;
        Ok(true)
    }
}

/// The state before the own OPEN: the local system connects, or awaits its peer.
fn opening_state(opened_by: Side) -> State
    ensures { result ≡ opened_state opened_by }
{
    match opened_by {
        Side::Local => State::Connect,
        Side::Peer => State::Active,
    }
}

/// Begins with the change from Idle to what comes before the own OPEN.
fn begun<'l, 'a, A: Allocator>(
    alloc: A,
    exchange: Exchange<'l, 'a>,
) -> Result<Making<'l, 'a, A>, AllocError>
    ensures { IfOk result (λ making. Begins exchange.entry making) }
{
    let state = opening_state(exchange.opened_by);
    let mut entries = Vec::new(alloc);
    let shown = Shown {
        moment: exchange.first_packet(),
        second: exchange.second,
    };
    put_change(&mut entries, shown, State::Idle, Some(state))?;
    Ok(Making {
        entries,
        pending: Pending {
            received: exchange.received,
            sent: exchange.sent,
            end: exchange.end,
            place: Place {
                received: 0,
                sent: 0,
            },
        },
        standing: Standing {
            state,
            is_answering: false,
            before: Before::Other,
        },
        last: exchange.second,
    })
}

/// The records of the made order: one that is allowed where a received message is handled within so
/// many seconds after it came, if what packets tell goes by a clock. The session begins in Idle,
/// and the changes of state are those to which the order leads.
pub fn made_entries<'a, A: Allocator>(
    alloc: A,
    exchange: Exchange<'_, 'a>,
    within: u16,
) -> Result<Vec<Entry<'a>, A>, AllocError>
    ensures told { IfOk result (λ entries. IsTold exchange.entry
        → IsMade within exchange.entry entries.items) }
    ensures seconds { IfOk result (λ entries. AllByRecursion HasSecond entries.items) }
    ensures order { IfOk result (λ entries.
        map numbered_of entries.items ≡ order_of within exchange.entry) }
{
    let foresight = Foresight::new(exchange.received, exchange.sent);
    let mut making = begun(alloc, exchange)?;
    while making.step(&foresight, within)? {}
    Ok(making.entries)
}
