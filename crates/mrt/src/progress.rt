//! How far a reader of a capture is.

ghost use Rattle.std.specs.Prelude.{◌≡◌, ◌<◌, ◌≤◌, ◌+◌, ◌^◌};

use crate::fault::{CaptureFault, FaultKind};
use crate::others::{MOST_OTHERS, add_pair};
use crate::record::Endpoints;
use crate::skipped::{Skip, SkippedRecords};
use arrayvec::ArrayVec;
use bgp_prefix::Seconds;

/// How far a reader is.
#[derive(Drop)]
pub(crate) struct Progress {
    /// How many octets the records have that it answered or skipped.
    pub(crate) passed: u64,
    /// The second of the session's last record.
    pub(crate) last: Option<Seconds>,
    /// The fraction of that, in microseconds, if it has one.
    pub(crate) micro: Option<u32>,
    /// Where what it last answered begins.
    pub(crate) place: u64,
    /// Whether it told the end.
    pub(crate) is_ended: bool,
    /// The fault that it found.
    pub(crate) fault: Option<CaptureFault>,
    /// The first different pairs of addresses for which it skipped a record.
    pub(crate) others: ArrayVec<Endpoints, MOST_OTHERS>,
    /// How many records it skipped.
    pub(crate) skipped: SkippedRecords,

    // Each has an octet at least.
    ghost bounded: { skipped.other_kinds + skipped.other_sessions + skipped.received_refreshes
        + skipped.sent_refreshes ≤ passed },
}

impl Progress {
    ghost use Rattle.mrt.specs.Reader.{at_end, at_fault, fresh_reader};
    ghost use Rattle.mrt.specs.Progress.{state_of, after_skipped, after_record, fault_at};

    pub(crate) fn new() -> Progress
        ensures { state_of result ≡ fresh_reader }
    {
        Progress {
            passed: 0,
            last: None,
            micro: None,
            place: 0,
            is_ended: false,
            fault: None,
            others: ArrayVec::new(),
            skipped: SkippedRecords::none(),
        }
    }

    /// Passes a record of so many octets that is skipped.
    pub(crate) fn skip(&mut self, skip: Skip, count: u64)
        requires some { 0 < count }
        requires room { self.old.passed + count < 2 ^ 64 }
        ensures { state_of self.new ≡ after_skipped (state_of self.old) skip count }
    {
        self.passed += count;
        self.skipped.count(skip);
        if let Skip::OtherSession(ends) = skip {
            add_pair(&mut self.others, ends);
        }
    }

    /// Passes a record of the session, to answer it.
    pub(crate) fn answer(&mut self, second: Seconds, micro: Option<u32>, count: u64)
        requires { self.old.passed + count < 2 ^ 64 }
        ensures { state_of self.new ≡ after_record (state_of self.old) second micro count }
    {
        self.place = self.passed;
        self.passed += count;
        self.last = Some(second);
        self.micro = micro;
    }

    /// Ends.
    pub(crate) fn end(&mut self)
        ensures { state_of self.new ≡ at_end (state_of self.old) }
    {
        self.place = self.passed;
        self.is_ended = true;
    }

    /// Keeps a fault in the record that would be next.
    pub(crate) fn refuse(&mut self, kind: FaultKind) -> CaptureFault
        ensures fault { result ≡ fault_at (state_of self.old) kind }
        ensures state { state_of self.new ≡ at_fault (state_of self.old) result }
    {
        let fault = CaptureFault {
            kind,
            offset: self.passed,
        };
        self.place = self.passed;
        self.fault = Some(fault);
        fault
    }
}
