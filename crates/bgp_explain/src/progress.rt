//! A session's records are judged one after another, and what they tell is kept.

ghost use Rattle.std.specs.Prelude.{◌↔◌, ◌≢◌, ◌≡◌, ◌<◌, ◌≤◌, ◌+◌, ◌++◌, ◌∷◌, [], ℕ, List, Option};
ghost use Rattle.std.specs.Prelude.{◌^◌, IsTrue, IfOk, IfSome, OnErr, length};
ghost use Rattle.bgp_prefix.specs.Shown.{ShownRecord};
ghost use Rattle.bgp_judge.specs.Verdict.{IsVerdict};
ghost use Rattle.bgp_open.specs.declared.config.Config.{Config as TheConfig};
ghost use Rattle.bgp_machine.specs.Run.{Begins};
ghost use Rattle.mrt.specs.Reader.{shown_of};
ghost use Rattle.bgp_reason.specs.Told.{last_from};
ghost use Rattle.bgp_explain.specs.Fractions.{AreNamesAfter, found_number, names_by, no_names};
ghost use Rattle.bgp_explain.specs.Fractions.{progress_names, reason_names};
ghost use Rattle.bgp_explain.specs.Progress.{AreSaidBy, IsAt, IsFound, IsNamed, IsToldOf};
ghost use Rattle.bgp_explain.specs.Reason.{AreSummed, HasReason, IsReasonAt};

use crate::explained::{Impossible, Reason};
use crate::kept::KeptRecord;
use crate::moments::Moments;
use crate::sending::Sending;
use crate::so_far::{Found, Progress, Stop};
use crate::tally::Tally;
use bgp_judge::{Tracker, Verdict, verdict_of};
use bgp_open::Config;
use bgp_reason::{Possible, Told, possible, records_tell_one_by_one};
use bgp_tool::Seen;
use mrt::Record;
use std::alloc::{AllocError, Allocator};

/// No effect: it says that the second from which Hold Timer Expired may be sent has 32 bits.
fn expires_in_time(possible: &Possible)
    ensures { IfSome possible.now.hold_timer_expired (λ from. from < 2 ^ 32) }
{
    if let Some(from) = possible.hold_timer_expired {
        let _from = from;
    }
}

/// The message that was received last, after one record more, as far as there is memory for it.
fn message_after<A: Allocator + Copy>(
    alloc: A,
    before: Option<Vec<u8, A>>,
    shown: &Record<'_>,
) -> Option<Vec<u8, A>>
    ensures { (octets : List ℕ) → IfSome before (λ message. message.items ≡ octets)
        → IfSome result (λ message. message.items ≡ last_from octets (shown_of shown.now ∷ [])) }
{
    let Record::In(_, octets) = *shown else {
        return before;
    };
    let mut message = match before {
        Some(message) => message,
        None => Vec::new(alloc),
    };
    message.clear();
    match message.extend_from_slice(octets) {
        Ok(()) => Some(message),
        Err(_) => None,
    }
}

/// Why records stop being those of a run, as far as there was memory for it.
fn stopped<A: Allocator>(
    config: &Config,
    told: Told,
    moments: Moments,
    sending: Sending,
    last_message: Option<Vec<u8, A>>,
    found: Option<Found<A>>,
) -> Option<Reason<A>>
    ensures is { (before : List ShownRecord) (shown : ShownRecord)
        → AreSaidBy config.now before told moments sending last_message
        → IfSome found (IsFound config.now before shown)
        → IfSome result (λ reason. IsReasonAt config.now before reason
        × IsNamed before shown reason.impossible) }
    ensures names { IfSome result (λ reason. reason_names reason
        ≡ names_by told moments (found_number found)) }
{
    let Some(last_message) = last_message else {
        return None;
    };
    let Some(
        Found {
            impossible,
            possible,
        },
    ) = found
    else {
        return None;
    };
    Some(Reason {
        told,
        moments,
        link: sending.link,
        left_out: sending.offers.left_out(config),
        last_message,
        impossible: Some(impossible),
        possible,
    })
}

/// Why records that begin a run are unfinished, as far as there is memory for it.
fn unfinished<A: Allocator + Copy, T: Tracker<A>>(
    alloc: A,
    tracker: &T,
    config: &Config,
    told: Told,
    moments: Moments,
    sending: Sending,
    last_message: Option<Vec<u8, A>>,
) -> Option<Reason<A>>
    ensures is { (records : List ShownRecord) → T.stands_for tracker.now config.now records
        → AreSaidBy config.now records told moments sending last_message
        → IfSome result (λ reason. IsReasonAt config.now records reason
        × (reason.impossible ≡ None)) }
    ensures names { IfSome result (λ reason. reason_names reason ≡ names_by told moments None) }
{
    records_tell_one_by_one();
    let Some(last_message) = last_message else {
        return None;
    };
    let last = last_message.as_slice();
    let Ok(possible) = possible(alloc, tracker, config, told.state, last) else {
        return None;
    };
    expires_in_time(&possible);
    Some(Reason {
        told,
        moments,
        link: sending.link,
        left_out: sending.offers.left_out(config),
        last_message,
        impossible: None,
        possible,
    })
}

impl<A: Allocator + Copy> Progress<A> {
    /// Before the first record.
    pub(crate) fn new(alloc: A) -> Progress<A>
        ensures told { (config : TheConfig) → IsToldOf config [] result }
        ensures none { result.stop ≡ None }
        ensures names { progress_names result ≡ no_names }
    {
        Progress {
            count: 0,
            told: Told::nothing(),
            moments: Moments::nothing(),
            sending: Sending::nothing(),
            tally: Tally::nothing(),
            seen: Seen::nothing(),
            last_message: Some(Vec::new(alloc)),
            stop: None,
        }
    }

    /// Keeps what one record more tells, where all begin a run.
    fn keep(&mut self, alloc: A, config: &Config, shown: &Record<'_>)
        requires { self.old.count < u64.MAX }
        ensures told { (records : List ShownRecord) → IsToldOf config.now records self.old
            → Begins config.now (records ++ shown_of shown.now ∷ [])
            → IsToldOf config.now (records ++ shown_of shown.now ∷ []) self.new }
        ensures same { self.new.stop ≡ self.old.stop }
        ensures count { self.new.count ≤ self.old.count + 1 }
        ensures names { AreNamesAfter (self.old.count + 1) (progress_names self.old)
            (progress_names self.new) }
    {
        records_tell_one_by_one();
        let state = self.told.state;
        self.count += 1;
        self.tally = self.tally.with(state, shown);
        self.seen = self.seen.with(shown);
        self.told = self.told.with(self.count, shown);
        let link = self.sending.link;
        self.moments = self.moments.with(self.count, link, self.told, shown);
        self.sending = self.sending.with(config, state, self.told.state, shown);
        self.last_message = message_after(alloc, self.last_message.take(), shown);
    }

    /// The first impossible record, and what could have stood in its place, as far as there is
    /// memory for it.
    fn find<T: Tracker<A>>(
        &self,
        alloc: A,
        tracker: &T,
        config: &Config,
        shown: &Record<'_>,
    ) -> Option<Found<A>>
        requires { self.now.count < u64.MAX }
        ensures found { (records : List ShownRecord) → T.stands_for tracker.now config.now records
            → IsToldOf config.now records self.now
            → IfSome result (IsFound config.now records (shown_of shown.now)) }
        ensures number { IfSome result (λ found. found.impossible.number ≡ self.now.count + 1) }
    {
        records_tell_one_by_one();
        let Some(last) = &self.last_message else {
            return None;
        };
        let Ok(possible) = possible(alloc, tracker, config, self.told.state, last.as_slice()) else {
            return None;
        };
        expires_in_time(&possible);
        let Ok(record) = KeptRecord::copy_of(alloc, shown) else {
            return None;
        };
        Some(Found {
            impossible: Impossible {
                number: self.count + 1,
                record,
            },
            possible,
        })
    }

    /// Lets the tracker take one record more, if none of them is impossible. Of the first that is,
    /// it is kept what could have stood in its place, as far as there is memory for it: memory is
    /// refused where the tracker lacks it, and there alone.
    pub(crate) fn advance<T: Tracker<A>>(
        &mut self,
        alloc: A,
        tracker: &mut T,
        config: &Config,
        shown: &Record<'_>,
    ) -> Result<(), AllocError>
        requires count { self.old.count < u64.MAX }
        ensures next { (records : List ShownRecord)
            → IsAt (T.stands_for tracker.old) config.now records self.old
            → IfOk result (λ done. IsAt (T.stands_for tracker.new) config.now
            (records ++ shown_of shown.now ∷ []) self.new) }
        ensures names { (records : List ShownRecord)
            → IsAt (T.stands_for tracker.old) config.now records self.old
            → AreNamesAfter (length records + 1) (progress_names self.old)
            (progress_names self.new) }
        ensures err { OnErr result (self.old.stop ≡ None) }
        ensures memory { (records : List ShownRecord)
            → IsAt (T.stands_for tracker.old) config.now records self.old
            → OnErr result (T.may_lack config.now records (shown_of shown.now)) }
        ensures count { self.new.count ≤ self.old.count + 1 }
    {
        if self.stop.is_some() {
            return Ok(());
        }
        if !tracker.take(shown)? {
            let found = self.find(alloc, tracker, config, shown);
            self.stop = Some(Stop { found });
            return Ok(());
        }
        self.keep(alloc, config, shown);
        Ok(())
    }

    /// The verdict on all records, and its reason, as far as there is memory for it. Memory is
    /// refused where the tracker lacks it for the ends, and there alone.
    pub(crate) fn conclude<T: Tracker<A>>(
        self,
        alloc: A,
        tracker: &T,
        config: &Config,
    ) -> Result<(Verdict<A>, Option<Reason<A>>), AllocError>
        ensures is { (records : List ShownRecord)
            → IsAt (T.stands_for tracker.now) config.now records self
            → IfOk result (λ answer. IsVerdict config.now records answer.0
            × HasReason config.now records answer.0 answer.1
            × AreSummed records answer.0 self.tally self.seen) }
        ensures names { IfOk result (λ answer. IfSome answer.1 (λ reason.
            reason_names reason ≡ progress_names self)) }
        ensures err { (records : List ShownRecord)
            → IsAt (T.stands_for tracker.now) config.now records self
            → OnErr result (Begins config.now records) }
    {
        let Progress {
            count,
            told,
            moments,
            sending,
            last_message,
            stop,
            ..
        } = self;
        if let Some(Stop { found }) = stop {
            let reason = stopped(config, told, moments, sending, last_message, found);
            return Ok((Verdict::No(count), reason));
        }
        match verdict_of(tracker)? {
            Verdict::Unfinished => {
                let reason = unfinished(
                    alloc,
                    tracker,
                    config,
                    told,
                    moments,
                    sending,
                    last_message,
                );
                Ok((Verdict::Unfinished, reason))
            }
            verdict => Ok((verdict, None)),
        }
    }
}
