//! How far a session came before its end.

ghost use Rattle.std.specs.Prelude.{◌≡◌, ◌≢◌, ◌≤◌, ◌++◌, [], IfNone, IfOk, IfSome, IsTrue, OnErr};
ghost use Rattle.std.specs.Prelude.{OnOk, List, length, map, nat_lt, option_map, take};
ghost use Rattle.std.specs.List.{filter};
ghost use Rattle.bgp_prefix.specs.Shown.{ShownRecord};
ghost use Rattle.mrt.specs.Reader.{shown_of};
ghost use Rattle.bgp_judge.specs.Ends.{end_value};
ghost use Rattle.bgp_judge.specs.Verdict.{Yes, verdict_value};
ghost use Rattle.bgp_check.specs.Answered.{answer_value};
ghost use Rattle.bgp_check_text.specs.Reached.{AreBefore, AreBeforeIf, AreBeforeOf};
ghost use Rattle.bgp_check_text.specs.Reached.{AreBeforeRefusal, AreBeforeTo, AreOfLongestFront};
ghost use Rattle.bgp_check_text.specs.Reached.{IsKnown, IsKnownFor, IsLowerTo, IsLowerYes};
ghost use Rattle.bgp_check_text.specs.Reached.{IsNoYes, IsReached, counts_of, has_lower};
ghost use Rattle.bgp_check_text.specs.Reached.{reached_value, with_count};
ghost use Rattle.bgp_open.specs.declared.config.Config.{Config as TheConfig};
ghost use Rattle.bgp_watch.specs.Front.{front_value};

use crate::highest::highest_state;
use crate::refused::up_to_refusal;
use bgp_check::Answer;
use bgp_judge::{End, Tracker, Verdict, judge_records, records_tell_the_state};
use bgp_open::Config;
use bgp_watch::{Front, last_told};
use mrt::Record;
use std::alloc::{AllocError, Allocator, Global};

/// Established's number (RFC 6396, 4.4.1).
const ESTABLISHED: u16 = 6;

/// How far a session came before its end.
#[derive(Drop)]
pub struct Reached<A: Allocator = Global> {
    /// The number of the highest state that its records tell (RFC 6396, 4.4.1).
    pub highest: u16,
    /// If it may have ended in a lower state than Established: the ends of the longest front of
    /// its records that has one in Established, without an UPDATE that was refused.
    pub before: Vec<End<A>, A>,
    /// How many routes these have, each number once, ascending.
    pub counts: Vec<usize, A>,
}

/// Returns the possible ends, of a yes.
fn ends_of<A: Allocator>(verdict: Verdict<A>) -> Option<Vec<End<A>, A>>
    ensures some { IfSome result (λ ends.
        verdict_value verdict ≡ Yes (map end_value ends.items)) }
    ensures none { IfNone result (IsNoYes (verdict_value verdict)) }
{
    match verdict {
        Verdict::Yes(ends) => Some(ends),
        Verdict::No(_) => None,
        Verdict::Unfinished => None,
    }
}

/// Returns the ends of a front that is known, if it has so many records at the most.
fn known_ends<A: Allocator>(most: usize, known: Option<Front<A>>) -> Option<Vec<End<A>, A>>
    ensures { (config : TheConfig) (records : List ShownRecord) → most ≤ length records
        → IsKnown config records (option_map front_value known)
        → IfSome result (λ ends. AreOfLongestFront config (take most records)
        (map end_value ends.items)) }
{
    let Front { count, ends } = known?;
    if count <= most { Some(ends) } else { None }
}

/// Returns the ends of the longest front of the records that has one in Established, if one has, of
/// records that weren't watched while they were judged.
///
/// A front is judged only if Established is told after it. A step that leaves Established shows
/// three records at most, and the front before it has such an end: so three fronts are judged at
/// most if these records are those of a run.
fn ends_before<A: Allocator + Copy, T: Tracker<A>>(
    alloc: A,
    config: &Config,
    records: &[Record<'_>],
) -> Result<Vec<End<A>, A>, AllocError>
    ensures { IfOk result (λ ends.
        AreBefore config.now (map shown_of records.now) (map end_value ends.items)) }
{
    records_tell_the_state();
    let mut left = last_told(records);
    while 0 < left {
        let verdict = judge_records::<A, T>(alloc, config, &records[..left])?;
        if let Some(ends) = ends_of(verdict) {
            return Ok(ends);
        }
        left = last_told(&records[..left - 1]);
    }
    Ok(Vec::new(alloc))
}

/// Checks whether a possible end is in a lower state than Established.
fn has_lower<A: Allocator>(endings: &[End<A>]) -> bool
    ensures { result ≡ has_lower (map end_value endings.now) }
{
    for ending in endings {
        if ending.fsm.number() != ESTABLISHED {
            return true;
        }
    }
    false
}

/// Returns the ends of the longest front that has one in Established, of the records before the
/// UPDATE that the local system refused, if it refused one. Nothing is judged if that front is the
/// one that is known.
fn ends_before_refusal<A: Allocator + Copy, T: Tracker<A>>(
    alloc: A,
    config: &Config,
    records: &[Record<'_>],
    known: Option<Front<A>>,
) -> Result<Vec<End<A>, A>, AllocError>
    requires { IsKnown config.now (map shown_of records.now) (option_map front_value known) }
    ensures { IfOk result (λ ends. AreBeforeRefusal config.now (map shown_of records.now)
        (map end_value ends.items)) }
{
    let left = up_to_refusal(records);
    match known_ends(left, known) {
        Some(ends) => Ok(ends),
        None => ends_before::<A, T>(alloc, config, &records[..left]),
    }
}

/// Returns the ends before, if one of these possible ends is in a lower state.
fn before_ends<A: Allocator + Copy, T: Tracker<A>>(
    alloc: A,
    config: &Config,
    records: &[Record<'_>],
    endings: &[End<A>],
    known: Option<Front<A>>,
) -> Result<Vec<End<A>, A>, AllocError>
    requires { IsKnown config.now (map shown_of records.now) (option_map front_value known) }
    ensures before { IfOk result (λ ends. AreBeforeIf (has_lower (map end_value endings.now))
        config.now (map shown_of records.now) (map end_value ends.items)) }
    ensures memory { OnErr result (IsTrue (has_lower (map end_value endings.now))) }
{
    if has_lower(endings) {
        ends_before_refusal::<A, T>(alloc, config, records, known)
    } else {
        Ok(Vec::new(alloc))
    }
}

/// Returns the ends before, of a verdict under this configuration.
fn before_of<A: Allocator + Copy, T: Tracker<A>>(
    alloc: A,
    config: &Config,
    records: &[Record<'_>],
    verdict: &Verdict<A>,
    known: Option<Front<A>>,
) -> Result<Vec<End<A>, A>, AllocError>
    requires { IsKnown config.now (map shown_of records.now) (option_map front_value known) }
    ensures before { IfOk result (λ ends. AreBeforeOf config.now (map shown_of records.now)
        (verdict_value verdict.now) (map end_value ends.items)) }
    ensures memory { OnErr result (IsLowerYes (verdict_value verdict.now)) }
{
    match verdict {
        Verdict::Yes(endings) => {
            before_ends::<A, T>(alloc, config, records, endings.as_slice(), known)
        }
        Verdict::No(_) | Verdict::Unfinished => Ok(Vec::new(alloc)),
    }
}

/// Returns the ends before, of what is answered of the records.
fn before_to<A: Allocator + Copy, T: Tracker<A>>(
    alloc: A,
    records: &[Record<'_>],
    answer: &Answer<A>,
    known: Option<Front<A>>,
) -> Result<Vec<End<A>, A>, AllocError>
    requires { IsKnownFor (map shown_of records.now) (answer_value answer.now)
        (option_map front_value known) }
    ensures before { IfOk result (λ ends. AreBeforeTo (map shown_of records.now)
        (answer_value answer.now) (map end_value ends.items)) }
    ensures memory { OnErr result (IsLowerTo (answer_value answer.now)) }
{
    match answer {
        Answer::NotJudged(_) => Ok(Vec::new(alloc)),
        Answer::Judged(judged) => {
            before_of::<A, T>(alloc, &judged.under, records, &judged.verdict, known)
        }
    }
}

/// Appends the counts that are below this one.
fn add_below<A: Allocator>(
    counts: &mut Vec<usize, A>,
    count: usize,
    others: &[usize],
) -> Result<(), AllocError>
    ensures { OnOk result (counts.new.items
        ≡ counts.old.items ++ filter (λ other. nat_lt other count) others.now) }
{
    for other in others {
        if *other < count {
            counts.push(*other)?;
        }
    }
    Ok(())
}

/// Appends those that are above it.
fn add_above<A: Allocator>(
    counts: &mut Vec<usize, A>,
    count: usize,
    others: &[usize],
) -> Result<(), AllocError>
    ensures { OnOk result (counts.new.items
        ≡ counts.old.items ++ filter (λ other. nat_lt count other) others.now) }
{
    for other in others {
        if count < *other {
            counts.push(*other)?;
        }
    }
    Ok(())
}

/// Returns a count among others that ascend.
fn with_count<A: Allocator + Copy>(
    alloc: A,
    count: usize,
    others: &[usize],
) -> Result<Vec<usize, A>, AllocError>
    ensures { IfOk result (λ counts. counts.items ≡ with_count count others.now) }
{
    let mut counts = Vec::new(alloc);
    add_below(&mut counts, count, others)?;
    counts.push(count)?;
    add_above(&mut counts, count, others)?;
    Ok(counts)
}

/// Returns how many routes the ends have, each number once, ascending.
fn counts_of<A: Allocator + Copy>(alloc: A, endings: &[End<A>]) -> Result<Vec<usize, A>, AllocError>
    ensures counts { IfOk result (λ counts.
        counts.items ≡ counts_of (map end_value endings.now)) }
    ensures memory { OnErr result (map end_value endings.now ≢ []) }
{
    let mut counts = Vec::new(alloc);
    let mut index = endings.len();
    while 0 < index {
        index -= 1;
        counts = with_count(alloc, endings[index].rib.len(), &counts)?;
    }
    Ok(counts)
}

/// Returns how far the session came of whose records this is answered. If the local system refused
/// an UPDATE, the routes are those before that UPDATE, since nothing of it was applied (RFC 4271,
/// 6.3).
///
/// If the session may have ended in a lower state after Established, and the front is not known that
/// has the last end there, records are judged once more.
///
/// Returns `AllocError` if memory is refused: only if it may have ended in a lower state.
pub fn reached_by<A: Allocator + Copy, T: Tracker<A>>(
    alloc: A,
    records: &[Record<'_>],
    answer: &Answer<A>,
    known: Option<Front<A>>,
) -> Result<Reached<A>, AllocError>
    requires { IsKnownFor (map shown_of records.now) (answer_value answer.now)
        (option_map front_value known) }
    ensures reached { IfOk result (λ reached. IsReached (map shown_of records.now)
        (answer_value answer.now) (reached_value reached)) }
    ensures memory { OnErr result (IsLowerTo (answer_value answer.now)) }
{
    let before = before_to::<A, T>(alloc, records, answer, known)?;
    let counts = counts_of(alloc, &before)?;
    Ok(Reached {
        highest: highest_state(records),
        before,
        counts,
    })
}
