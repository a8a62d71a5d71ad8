//! What there is to tell of a capture that was made of a recording.

ghost use Rattle.std.specs.Prelude.{◌≡◌};
ghost use Rattle.bgp_import.specs.Notes.{left_note, notes_in_order, passed_note};

use crate::refusal::direction;
use bgp_recording::{Rest, Unshown};
use std::fmt;
use streams::Side;

/// What there is to tell of a capture that was made of a recording.
#[derive(Clone, Copy, Debug, PartialEq, Eq)]
pub struct Notes {
    /// What of the stream that was received is in no record.
    pub received: Unshown,
    /// What of the stream that was sent.
    pub sent: Unshown,
    /// How many received messages stand after a sent one that was made by a packet after the one by
    /// which they came.
    pub put_off: usize,
}

impl Notes {
    /// The notes, one sentence each, in the order in which they are told.
    pub fn in_order(&self) -> [Option<Note>; 5]
        ensures { result ≡ notes_in_order self.now }
    {
        [
            passed_note(Side::Peer, self.received),
            passed_note(Side::Local, self.sent),
            left_note(Side::Peer, self.received),
            left_note(Side::Local, self.sent),
            (self.put_off > 0).then_some(Note::PutOff(self.put_off)),
        ]
    }
}

/// The note on the messages that are passed over in the stream that this system sends, where any
/// are.
fn passed_note(from: Side, unshown: Unshown) -> Option<Note>
    ensures { result ≡ passed_note from unshown }
{
    let count = unshown.passed_over;
    (count > 0).then_some(Note::PassedOver(from, count))
}

/// The note on what is left of the stream that this system sends, where anything is.
fn left_note(from: Side, unshown: Unshown) -> Option<Note>
    ensures { result ≡ left_note from unshown }
{
    let (Rest::Short { count } | Rest::BehindFault { count, .. }) = unshown.rest;
    (count > 0).then_some(Note::Left(from, unshown.rest))
}

/// One sentence on a capture that was made of a recording.
#[derive(Clone, Copy, Debug, PartialEq, Eq)]
pub enum Note {
    /// So many ROUTE-REFRESH messages that this system sends are passed over.
    PassedOver(Side, usize),
    /// Octets of the stream that this system sends are in no record.
    Left(Side, Rest),
    /// So many received messages stand after a sent one that was made by a packet after the one by
    /// which they came.
    PutOff(usize),
}

impl fmt::Display for Note {
    fn fmt<W: fmt::Write>(&self, f: &mut fmt::Formatter<W>) -> fmt::Result {
        match *self {
            Note::PassedOver(from, count) => write!(
                f,
                "{} ROUTE-REFRESH messages passed over: {count}",
                direction(from)
            ),
            Note::Left(from, rest) => write_left(f, from, rest),
            Note::PutOff(count) => write!(f, "received messages put off: {count}"),
        }
    }
}

/// Writes what is left of the stream that this system sends.
fn write_left<W: fmt::Write>(f: &mut fmt::Formatter<W>, from: Side, rest: Rest) -> fmt::Result {
    let way = direction(from);
    match rest {
        Rest::Short { count } => write!(f, "{way}: the last {count} octets are no whole message"),
        Rest::BehindFault {
            place,
            count,
            is_refresh: false,
        } => write!(
            f,
            "{way}: {count} octets behind the faulty header at octet {place} are not read"
        ),
        Rest::BehindFault {
            place,
            count,
            is_refresh: true,
        } => write!(
            f,
            "{way}: {count} octets behind the ROUTE-REFRESH at octet {place} are not read: \
             --skip-refresh passes over it"
        ),
    }
}
