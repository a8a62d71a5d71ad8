//! The verdict on an end's records over all configurations under which its OPEN is its own.

ghost use Rattle.std.specs.Prelude.{◌≡◌, ◌↔◌, IfOk, OnErr, IsTrue, map, option_map};
ghost use Rattle.mrt.specs.Reader.{shown_of};
ghost use Rattle.bgp_judge.specs.Verdict.{verdict_value};
ghost use Rattle.bgp_check.specs.Checked.{IsTold, IsUnder, IsYes, tells_other};
ghost use Rattle.bgp_check.specs.Memory.{LacksMemoryOver};
ghost use Rattle.bgp_watch.specs.Front.{IsWatched, front_value};

use crate::widest::Widest;
use bgp_judge::{Tracker, Verdict};
use bgp_open::Config;
use bgp_watch::{Front, Watched, watch_records};
use mrt::Record;
use std::alloc::{AllocError, Allocator, Global};

/// What is answered of an end's records.
#[derive(Drop)]
pub struct Checked<A: Allocator = Global> {
    /// The verdict over all configurations under which the end's OPEN is its own.
    pub verdict: Verdict<A>,
    /// Whether it is told under the configuration that wants the AS number of the peer's OPEN, or
    /// else under the other one.
    pub wants_peers: bool,
    /// That configuration.
    pub under: Config,
    /// Under it the longest front of the records that has an end in Established, if it is known.
    pub before: Option<Front<A>>,
}

fn is_yes<A: Allocator>(verdict: &Verdict<A>) -> bool
    ensures { IsTrue result ↔ IsYes (verdict_value verdict.now) }
{
    matches!(verdict, Verdict::Yes(_))
}

/// Whether the other one of two verdicts is told.
fn tells_other<A: Allocator>(one: &Verdict<A>, other: &Verdict<A>) -> bool
    ensures { result ≡ tells_other (verdict_value one.now) (verdict_value other.now) }
{
    match (one, other) {
        (Verdict::Yes(_), _) => false,
        (_, Verdict::Yes(_)) => true,
        (Verdict::Unfinished, _) => false,
        (_, Verdict::Unfinished) => true,
        (Verdict::No(count), Verdict::No(later)) => count < later,
    }
}

/// The verdict on the records of a stretch, over all configurations of the end of which these are
/// the widest. The second one is judged only where the first isn't yes. `AllocError` is answered
/// where the tracker was refused memory under a configuration that is judged, and then no verdict;
/// as of [`watch_records`], never for what stands behind the impossible record of a no.
pub fn check_records<A: Allocator + Copy, T: Tracker<A>>(
    alloc: A,
    widest: &Widest,
    records: &[Record<'_>],
) -> Result<Checked<A>, AllocError>
    ensures told { IfOk result (λ checked. IsTold widest.now (map shown_of records.now)
        checked.wants_peers (verdict_value checked.verdict)) }
    ensures under { IfOk result (λ checked.
        IsUnder widest.now checked.wants_peers checked.under) }
    ensures before { IfOk result (λ checked. IsWatched checked.under (map shown_of records.now)
        (option_map front_value checked.before)) }
    ensures memory { OnErr result (LacksMemoryOver T.may_lack_at_start T.may_lack widest.now
        (map shown_of records.now)) }
{
    let Some(wanting) = widest.wanting else {
        let Watched { verdict, before } = watch_records::<A, T>(alloc, &widest.another, records)?;
        return Ok(Checked {
            verdict,
            wants_peers: false,
            under: widest.another,
            before,
        });
    };
    let first = watch_records::<A, T>(alloc, &wanting, records)?;
    if is_yes(&first.verdict) {
        return Ok(Checked {
            verdict: first.verdict,
            wants_peers: true,
            under: wanting,
            before: first.before,
        });
    }
    let second = watch_records::<A, T>(alloc, &widest.another, records)?;
    if tells_other(&first.verdict, &second.verdict) {
        Ok(Checked {
            verdict: second.verdict,
            wants_peers: false,
            under: widest.another,
            before: second.before,
        })
    } else {
        Ok(Checked {
            verdict: first.verdict,
            wants_peers: true,
            under: wanting,
            before: first.before,
        })
    }
}
