//! How many records a session has in a file.

ghost use Rattle.std.specs.Prelude.{◌≡◌, ◌<◌, map};
ghost use Rattle.mrt_sessions.specs.Counts.{counts_in, direction_of, one_more};
ghost use Rattle.mrt_sessions.specs.Located.{located};

use crate::named::NamedRecord;
use mrt::types::{
    MESSAGE, MESSAGE_ADDPATH, MESSAGE_AS4, MESSAGE_AS4_ADDPATH, MESSAGE_AS4_LOCAL,
    MESSAGE_AS4_LOCAL_ADDPATH, MESSAGE_LOCAL, MESSAGE_LOCAL_ADDPATH, STATE_CHANGE,
    STATE_CHANGE_AS4,
};

/// In which direction a message goes, or that there is none.
#[derive(Clone, Copy, Debug, PartialEq, Eq)]
pub enum Direction {
    /// The local system received it.
    Received,
    /// It sent it.
    Sent,
    /// There is none: its state changes.
    Change,
}

/// How many records of each direction a session has in a file, faulty or not.
#[derive(Clone, Copy, Debug, PartialEq, Eq)]
pub struct Counts {
    /// The messages that the local system received.
    pub received: u64,
    /// Those that it sent.
    pub sent: u64,
    /// The changes of its state.
    pub changes: u64,
}

/// The direction of a record of this subtype, with ADD-PATH or without (RFC 6396, 4.4; RFC 8050,
/// 3).
fn direction_of(subtype: u16) -> Option<Direction>
    ensures { result ≡ direction_of subtype }
{
    match subtype {
        MESSAGE | MESSAGE_AS4 | MESSAGE_ADDPATH | MESSAGE_AS4_ADDPATH => Some(Direction::Received),
        MESSAGE_LOCAL | MESSAGE_AS4_LOCAL | MESSAGE_LOCAL_ADDPATH | MESSAGE_AS4_LOCAL_ADDPATH =>
            Some(Direction::Sent),
        STATE_CHANGE | STATE_CHANGE_AS4 => Some(Direction::Change),
        _ => None,
    }
}

impl Counts {
    /// With one record more.
    fn with(self, direction: Option<Direction>) -> Counts
        requires received { self.received < u64.MAX }
        requires sent { self.sent < u64.MAX }
        requires changes { self.changes < u64.MAX }
        ensures { result ≡ one_more self direction }
    {
        let mut counts = self;
        match direction {
            Some(Direction::Received) => counts.received += 1,
            Some(Direction::Sent) => counts.sent += 1,
            Some(Direction::Change) => counts.changes += 1,
            None => {}
        }
        counts
    }

    /// Of these records.
    pub fn of(records: &[NamedRecord<'_>]) -> Counts
        ensures { result ≡ counts_in (map located records.now) }
    {
        let mut counts = Counts {
            received: 0,
            sent: 0,
            changes: 0,
        };
        for named in records {
            counts = counts.with(direction_of(named.header().subtype));
        }
        counts
    }
}
