//! The verdict on a list of records, and the front that is watched while they are judged.

ghost use Rattle.std.specs.Prelude.{◌≡◌, ◌↔◌, ◌<◌, ◌++◌, ◌∷◌, [], List, IfOk, OnErr, IsTrue};
ghost use Rattle.std.specs.Prelude.{length, map, option_map};
ghost use Rattle.bgp_prefix.specs.Shown.{ShownRecord};
ghost use Rattle.bgp_open.specs.declared.config.Config.{Config as TheConfig};
ghost use Rattle.mrt.specs.Reader.{shown_of};
ghost use Rattle.bgp_judge.specs.Ends.{end_value};
ghost use Rattle.bgp_judge.specs.Memory.{LacksMemoryFor};
ghost use Rattle.bgp_judge.specs.Verdict.{IsVerdict};
ghost use Rattle.bgp_watch.specs.Front.{IsWatched, StartsEstablished, front_value};
ghost use Rattle.bgp_watch.specs.LastTold.{IsLastTold, TellsEstablished};

use crate::front::Front;
use crate::telling::last_told;
use bgp_judge::{End, Tracker, Verdict, records_tell_the_state, verdict_of};
use bgp_machine::Fsm;
use bgp_open::Config;
use bgp_wire::{MessageType, message_body};
use mrt::Record;
use std::alloc::{AllocError, Allocator, Global};

/// A verdict on a session's records, and the front that was watched.
#[derive(Drop)]
pub struct Watched<A: Allocator = Global> {
    /// The verdict.
    pub verdict: Verdict<A>,
    /// The longest front of the records that has an end in Established, if it is known.
    pub before: Option<Front<A>>,
}

/// Which fronts of the records are looked at for ends in Established.
#[derive(Clone, Copy)]
struct Fronts {
    /// How many records the shortest of them has.
    shortest: usize,
    /// How many the longest front has after which Established is told.
    last: usize,
}

/// Whether the octets are a NOTIFICATION.
fn is_notification(octets: &[u8]) -> bool {
    message_body(MessageType::Notification, octets).is_some()
}

/// Whether the last of the records is a received message.
fn ends_received(records: &[Record<'_>]) -> bool {
    matches!(records.last(), Some(Record::In(..)))
}

/// Returns how many of these records the step may show that leaves Established behind them: a
/// NOTIFICATION, and if that was sent, what it may answer. It is a guess, which decides what is
/// looked at and nothing else.
fn leaving_records(records: &[Record<'_>]) -> usize {
    let Some((last, others)) = records.split_last() else {
        return 0;
    };
    match *last {
        Record::In(_, octets) if is_notification(octets) => 1,
        Record::Out(_, octets) if is_notification(octets) => {
            if ends_received(others) { 2 } else { 1 }
        }
        _ => 0,
    }
}

/// Returns which fronts of the records are looked at: none if Established is told behind all of
/// them.
fn fronts_of(records: &[Record<'_>]) -> Fronts
    ensures { IsLastTold (map shown_of records.now) result.last }
{
    let last = last_told(records);
    let shortest = if last < records.len() {
        last.saturating_sub(leaving_records(&records[..last]))
    } else {
        usize::MAX
    };
    Fronts { shortest, last }
}

/// Whether the state is Established.
fn is_established(state: Fsm) -> bool
    ensures { IsTrue result ↔ (state ≡ Fsm.Established) }
{
    matches!(state, Fsm::Established)
}

/// Whether there are ends and the first is in Established: then all are, since the records tell in
/// which state they end.
fn starts_established<A: Allocator>(ends: &[End<A>]) -> bool
    ensures { IsTrue result ↔ StartsEstablished (map end_value ends.now) }
{
    match ends.first() {
        Some(end) => is_established(end.fsm),
        None => false,
    }
}

/// Returns the longest front that has an end in Established, if it is known, of so many records
/// that the tracker stands for; this one was known before the last of them. If memory is refused
/// for the ends, none is known.
fn with_front<A: Allocator + Copy, T: Tracker<A>>(
    tracker: &T,
    fronts: Fronts,
    count: usize,
    before: Option<Front<A>>,
) -> Option<Front<A>>
    ensures { (config : TheConfig) (records : List ShownRecord) (shown : ShownRecord)
        → T.stands_for tracker.now config (records ++ shown ∷ [])
        → length (records ++ shown ∷ []) ≡ count
        → (fronts.last < count → ¬ TellsEstablished (records ++ shown ∷ []))
        → IsWatched config records (option_map front_value before)
        → IsWatched config (records ++ shown ∷ []) (option_map front_value result) }
{
    records_tell_the_state();
    if count < fronts.shortest {
        return None;
    }
    if fronts.last < count {
        return before;
    }
    let Ok(ends) = tracker.ends() else {
        return None;
    };
    if starts_established(ends.as_slice()) {
        Some(Front { count, ends })
    } else {
        before
    }
}

/// Judges the records as [`judge_records`](bgp_judge::judge_records) does, and watches on the way
/// for the longest front of them that has an end in Established. Returns `AllocError` only where
/// that does; if memory is refused for the front's ends, it isn't known.
///
/// It is also not known of a no, and if Established is told behind all records, where no possible
/// end is in a lower state.
pub fn watch_records<A: Allocator + Copy, T: Tracker<A>>(
    alloc: A,
    config: &Config,
    records: &[Record<'_>],
) -> Result<Watched<A>, AllocError>
    ensures verdict { IfOk result (λ watched.
        IsVerdict config.now (map shown_of records.now) watched.verdict) }
    ensures before { IfOk result (λ watched. IsWatched config.now (map shown_of records.now)
        (option_map front_value watched.before)) }
    ensures memory { OnErr result (LacksMemoryFor T.may_lack_at_start T.may_lack config.now
        (map shown_of records.now)) }
{
    let fronts = fronts_of(records);
    let mut tracker = T::start(alloc, config)?;
    let mut before = None;
    for (count, shown) in records.iter().enumerate() {
        if !tracker.take(shown)? {
            return Ok(Watched {
                verdict: Verdict::No(count as u64),
                before: None,
            });
        }
        before = with_front(&tracker, fronts, count + 1, before);
    }
    let verdict = verdict_of(&tracker)?;
    Ok(Watched { verdict, before })
}
