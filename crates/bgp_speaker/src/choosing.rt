//! The step that a core takes about a message.

ghost use Rattle.std.specs.Prelude.{◌≢◌, ◌≤◌, ℕ, List, IfOk, length};
ghost use Rattle.bgp_machine.specs.Listed.{changes_of, no_changes};
ghost use Rattle.bgp_machine.specs.Heard.{Hears};
ghost use Rattle.bgp_machine.specs.Rows.{AreOutcomes, HeardShown, NeedsOutcomes, NoStep};
ghost use Rattle.bgp_machine.specs.Rows.{UpdateShown};
ghost use Rattle.bgp_machine.specs.declared.hearing.Heard.TheVariants as hearings;
ghost use Rattle.bgp_machine.specs.declared.state.Head.TheVariants as heads;
ghost use Rattle.bgp_machine.specs.declared.state.HoldTimer.{HoldTimer as TheTimer};
ghost use Rattle.bgp_open.specs.declared.config.Config.{Config as TheConfig};
ghost use Rattle.bgp_open.specs.declared.link.Link.{Link as TheLink};
ghost use Rattle.bgp_update.specs.Laws.{HasAnOutcome};
ghost use Rattle.bgp_speaker.specs.Core.{IsConnected};
ghost use Rattle.bgp_speaker.specs.Drafts.{IsChosen};
ghost use Rattle.bgp_speaker.specs.Picks.{PicksOn};

use crate::speaker::Speaker;
use bgp_machine::{Head, Heard, HoldTimer, ReceivedRow, Step, hear, heard_step, update_step};
use bgp_open::Link;
use bgp_prefix::Seconds;
use bgp_update::{Changes, Outcomes, read_update, some_outcome};
use std::alloc::{AllocError, Allocator, Global};

/// A step, and the changes of its message.
#[derive(Drop)]
pub(crate) struct Chosen<A: Allocator = Global> {
    pub(crate) step: Step,
    pub(crate) changes: Option<Changes<A>>,
}

/// The row of OpenSent about a message.
fn picked_in_open_sent(heard: Heard) -> ReceivedRow
    requires { heard ≢ hearings.TooShort }
    ensures picks { (timer : TheTimer) (octets : List ℕ)
        → PicksOn (heads.OpenSent timer) octets heard result }
    ensures may { (timer : TheTimer) (t : ℕ) (octets : List ℕ)
        → ¬ NoStep (HeardShown (heads.OpenSent timer) t octets heard result) }
{
    match heard {
        Heard::ValidOpen(_, _) => ReceivedRow::Accepts,
        Heard::FaultyHeader(_) => ReceivedRow::NamesFault,
        Heard::InvalidOpen(_) => ReceivedRow::NamesFault,
        Heard::BadVersion => ReceivedRow::Drops,
        Heard::Notification => ReceivedRow::ReportsError,
        Heard::Keepalive => ReceivedRow::ReportsError,
        Heard::Update => ReceivedRow::ReportsError,
        Heard::TooShort => unreachable!(),
    }
}

/// The row of OpenConfirm about a message.
fn picked_in_open_confirm(heard: Heard) -> ReceivedRow
    requires { heard ≢ hearings.TooShort }
    ensures picks { (own : TheLink) (timer : TheTimer) (octets : List ℕ)
        → PicksOn (heads.OpenConfirm own timer) octets heard result }
    ensures may { (own : TheLink) (timer : TheTimer) (t : ℕ) (octets : List ℕ)
        → ¬ NoStep (HeardShown (heads.OpenConfirm own timer) t octets heard result) }
{
    match heard {
        Heard::ValidOpen(_, _) => ReceivedRow::Overlooks,
        Heard::FaultyHeader(_) => ReceivedRow::NamesFault,
        Heard::InvalidOpen(_) => ReceivedRow::NamesFault,
        Heard::BadVersion => ReceivedRow::Drops,
        Heard::Notification => ReceivedRow::Drops,
        Heard::Keepalive => ReceivedRow::Establishes,
        Heard::Update => ReceivedRow::ReportsError,
        Heard::TooShort => unreachable!(),
    }
}

/// The row of Established about a message other than an UPDATE.
fn picked_in_established(heard: Heard) -> ReceivedRow
    requires long { heard ≢ hearings.TooShort }
    requires other { heard ≢ hearings.Update }
    ensures picks { (own : TheLink) (timer : TheTimer) (octets : List ℕ)
        → PicksOn (heads.Established own timer) octets heard result }
    ensures may { (own : TheLink) (timer : TheTimer) (t : ℕ) (octets : List ℕ)
        → ¬ NoStep (HeardShown (heads.Established own timer) t octets heard result) }
{
    match heard {
        Heard::ValidOpen(_, _) => ReceivedRow::Overlooks,
        Heard::FaultyHeader(_) => ReceivedRow::NamesFault,
        Heard::InvalidOpen(_) => ReceivedRow::NamesFault,
        Heard::BadVersion => ReceivedRow::Drops,
        Heard::Notification => ReceivedRow::Drops,
        Heard::Keepalive => ReceivedRow::Renews,
        Heard::Update => unreachable!(),
        Heard::TooShort => unreachable!(),
    }
}

/// The row about a message; an UPDATE in Established needs its outcomes.
fn picked_on(head: Head, heard: Heard) -> ReceivedRow
    requires connected { IsConnected head }
    requires long { heard ≢ hearings.TooShort }
    requires plain { ¬ NeedsOutcomes head heard }
    ensures picks { (octets : List ℕ) → PicksOn head octets heard result }
    ensures may { (t : ℕ) (octets : List ℕ) → ¬ NoStep (HeardShown head t octets heard result) }
{
    match head {
        Head::OpenSent(_) => picked_in_open_sent(heard),
        Head::OpenConfirm(_, _) => picked_in_open_confirm(heard),
        Head::Established(_, _) => picked_in_established(heard),
        Head::Idle | Head::Connect(_) | Head::Active(_) => unreachable!(),
    }
}

/// The step about a message other than an UPDATE in Established.
fn plain_step(head: Head, t: Seconds, heard: Heard) -> Step
    requires connected { IsConnected head }
    requires long { heard ≢ hearings.TooShort }
    requires plain { ¬ NeedsOutcomes head heard }
    ensures { (config : TheConfig) (octets : List ℕ) → Hears config octets heard
        → IsChosen config head t octets result no_changes }
{
    let row = picked_on(head, heard);
    let Some(step) = heard_step(head, t, heard, row) else {
        unreachable!();
    };
    step
}

/// The row about an UPDATE with these outcomes: it is applied where it may be, and no family is
/// disabled that need not be; else the session is reset.
fn picked_on_update<A: Allocator>(outcomes: &Outcomes<A>) -> ReceivedRow
    ensures picks { (own : TheLink) (timer : TheTimer) (octets : List ℕ)
        → AreOutcomes own octets outcomes.now
        → PicksOn (heads.Established own timer) octets hearings.Update result }
    ensures may { (own : TheLink) (timer : TheTimer) (t : ℕ) (octets : List ℕ)
        → AreOutcomes own octets outcomes.now → HasAnOutcome own octets
        → ¬ NoStep (UpdateShown own timer t octets result) }
{
    if outcomes.changes.is_none() {
        return ReceivedRow::NamesFault;
    }
    ReceivedRow::Applies(outcomes.certain)
}

/// The step about an UPDATE in Established.
fn step_on_update<A: Allocator + Copy>(
    alloc: A,
    own: Link,
    timer: HoldTimer,
    t: Seconds,
    octets: &[u8],
) -> Result<Chosen<A>, AllocError>
    ensures { (config : TheConfig) → Hears config octets.now hearings.Update
        → IfOk result (λ chosen. IsChosen config (heads.Established own timer) t octets.now
        chosen.step (changes_of chosen.changes)) }
{
    some_outcome(&own, octets);
    let outcomes = read_update(alloc, &own, octets)?;
    let row = picked_on_update(&outcomes);
    let Some(step) = update_step(own, timer, t, &outcomes, row) else {
        unreachable!();
    };
    Ok(Chosen {
        step,
        changes: outcomes.changes,
    })
}

/// The step that is chosen about a message.
pub(crate) fn step_on<A: Allocator + Copy>(
    alloc: A,
    speaker: &Speaker,
    head: Head,
    t: Seconds,
    octets: &[u8],
) -> Result<Chosen<A>, AllocError>
    requires connected { IsConnected head }
    requires long { 19 ≤ length octets.now }
    ensures { IfOk result (λ chosen. IsChosen speaker.now.config head t octets.now chosen.step
        (changes_of chosen.changes)) }
{
    let heard = hear(&speaker.config, octets);
    if let (Head::Established(own, timer), Heard::Update) = (head, heard) {
        return step_on_update(alloc, own, timer, t, octets);
    }
    let step = plain_step(head, t, heard);
    Ok(Chosen {
        step,
        changes: None,
    })
}
