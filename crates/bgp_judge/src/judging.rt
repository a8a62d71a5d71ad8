//! The verdict on a list of records, and on the records that a tracker stands for.

ghost use Rattle.std.specs.Prelude.{◌↔◌, ◌≢◌, ◌≡◌, ◌++◌, ◌∷◌, [], List, IfOk, OnErr, IsTrue, None};
ghost use Rattle.std.specs.Prelude.{length, map};
ghost use Rattle.bgp_prefix.specs.Shown.{ShownRecord};
ghost use Rattle.bgp_open.specs.declared.config.Config.{Config as TheConfig};
ghost use Rattle.bgp_machine.specs.Run.{Begins};
ghost use Rattle.mrt.specs.Reader.{shown_of};
ghost use Rattle.bgp_judge.specs.Judging.{IsAt};
ghost use Rattle.bgp_judge.specs.Memory.{LacksMemoryFor};
ghost use Rattle.bgp_judge.specs.Verdict.{IsVerdict};

use crate::end::End;
use crate::tracker::Tracker;
use crate::verdict::Verdict;
use bgp_open::Config;
use mrt::Record;
use std::alloc::{AllocError, Allocator};

/// Checks whether there is an end.
fn is_some<A: Allocator>(ends: &[End<A>]) -> bool
    ensures { IsTrue result ↔ (ends.now ≢ []) }
{
    !ends.is_empty()
}

/// Returns the verdict on the records that the tracker stands for, if they begin a run: yes with
/// every possible end, or unfinished. It is the only verdict that holds
/// ([law](crate::records_have_just_one_verdict)). Returns `AllocError` and no verdict if memory is
/// refused for the ends.
pub fn verdict_of<A: Allocator + Copy, T: Tracker<A>>(tracker: &T) -> Result<Verdict<A>, AllocError>
    ensures { (config : TheConfig) (records : List ShownRecord)
        → T.stands_for tracker.now config records → Begins config records
        → IfOk result (IsVerdict config records) }
{
    let ends = tracker.ends()?;
    if is_some(ends.as_slice()) {
        Ok(Verdict::Yes(ends))
    } else {
        Ok(Verdict::Unfinished)
    }
}

/// Gives the tracker one more record, after `count` others, if none of those was impossible.
/// Returns how many records stand before the first impossible one. Memory is refused only where the
/// tracker may lack it.
pub fn advance<A: Allocator + Copy, T: Tracker<A>>(
    tracker: &mut T,
    impossible: Option<u64>,
    count: u64,
    shown: &Record<'_>,
) -> Result<Option<u64>, AllocError>
    ensures next { (config : TheConfig) (records : List ShownRecord) → length records ≡ count
        → IsAt (T.stands_for tracker.old) config records impossible
        → IfOk result (IsAt (T.stands_for tracker.new) config
        (records ++ shown_of shown.now ∷ [])) }
    ensures err { OnErr result (impossible ≡ None) }
    ensures memory { (config : TheConfig) (records : List ShownRecord)
        → IsAt (T.stands_for tracker.old) config records impossible
        → OnErr result (T.may_lack config records (shown_of shown.now)) }
{
    if impossible.is_some() {
        return Ok(impossible);
    }
    if tracker.take(shown)? {
        Ok(None)
    } else {
        Ok(Some(count))
    }
}

/// Judges these records of a session: yes with every possible end, no, or unfinished. Returns
/// `AllocError` and no verdict if the tracker is refused memory: before the first record or at one
/// of them, where it may lack it, or behind them all. The tracker takes no record after an
/// impossible one, so a no is answered whatever is refused behind that one
/// ([law](crate::memory_is_lacked_behind_no_impossible_record)).
///
/// The verdict is the same with every tracker.
pub fn judge_records<A: Allocator + Copy, T: Tracker<A>>(
    alloc: A,
    config: &Config,
    records: &[Record<'_>],
) -> Result<Verdict<A>, AllocError>
    ensures verdict { IfOk result (IsVerdict config.now (map shown_of records.now)) }
    ensures memory { OnErr result (LacksMemoryFor T.may_lack_at_start T.may_lack config.now
        (map shown_of records.now)) }
{
    let mut tracker = T::start(alloc, config)?;
    for (count, shown) in records.iter().enumerate() {
        if !tracker.take(shown)? {
            return Ok(Verdict::No(count as u64));
        }
    }
    verdict_of(&tracker)
}
