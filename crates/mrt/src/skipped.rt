//! Records that a reader of captures skips: why each is, and how many are.

ghost use Rattle.std.specs.Prelude.{◌≡◌, ◌<◌};
ghost use Rattle.mrt.specs.Skipped.{none_skipped, one_more};

use crate::record::Endpoints;

/// Why a record is skipped.
#[derive(Clone, Copy, Debug, PartialEq, Eq)]
pub enum Skip {
    /// Its type or subtype is none that is read.
    OtherKind,
    /// It is of another session, between these addresses.
    OtherSession(Endpoints),
    /// It is a ROUTE-REFRESH that the local system received, and is passed over.
    RefreshReceived,
    /// It is a ROUTE-REFRESH that the local system sent, and is passed over.
    RefreshSent,
}

/// How many records of a capture were skipped, by why.
#[derive(Clone, Copy, Debug, PartialEq, Eq)]
pub struct SkippedRecords {
    /// Those of a type or subtype that isn't read.
    pub other_kinds: u64,
    /// Those of other sessions.
    pub other_sessions: u64,
    /// The ROUTE-REFRESH messages (RFC 2918) that the local system received, and that were passed
    /// over.
    pub received_refreshes: u64,
    /// Those that it sent.
    pub sent_refreshes: u64,
}

impl SkippedRecords {
    /// None so far.
    pub(crate) fn none() -> SkippedRecords
        ensures { result ≡ none_skipped }
    {
        SkippedRecords {
            other_kinds: 0,
            other_sessions: 0,
            received_refreshes: 0,
            sent_refreshes: 0,
        }
    }

    /// Counts one more.
    pub(crate) fn count(&mut self, skip: Skip)
        requires kinds { self.old.other_kinds < u64.MAX }
        requires sessions { self.old.other_sessions < u64.MAX }
        requires received { self.old.received_refreshes < u64.MAX }
        requires sent { self.old.sent_refreshes < u64.MAX }
        ensures { self.new ≡ one_more self.old skip }
    {
        match skip {
            Skip::OtherKind => self.other_kinds += 1,
            Skip::OtherSession(_) => self.other_sessions += 1,
            Skip::RefreshReceived => self.received_refreshes += 1,
            Skip::RefreshSent => self.sent_refreshes += 1,
        }
    }
}
