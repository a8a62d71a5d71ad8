//! Which row of the session machine a core takes by itself.

ghost use Rattle.std.specs.Prelude.{◌↔◌, ◌≢◌, ℕ, Bool, IsTrue, Some};
ghost use Rattle.bgp_machine.specs.declared.rows.HiddenRow.TheVariants.{Announces};
ghost use Rattle.bgp_open.specs.declared.config.Config.{Config as TheConfig};
ghost use Rattle.bgp_open.specs.declared.link.Link.{Link as TheLink};
ghost use Rattle.bgp_speaker.specs.Drafts.{cue_value};
ghost use Rattle.bgp_speaker.specs.Picks.{CanTake, IsKeepaliveDue, Picks, PicksInTime};
ghost use Rattle.bgp_machine.specs.declared.state.Head.TheVariants as heads;

use crate::input::Cue;
use bgp_machine::{Head, HiddenRow, HoldTimer};
use bgp_prefix::Seconds;

/// Whether the HoldTimer runs, and a third of it has passed since the last message was sent.
fn is_keepalive_due(timer: HoldTimer, sent_at: Seconds, t: Seconds) -> bool
    ensures { IsTrue result ↔ IsKeepaliveDue timer sent_at t }
{
    timer.is_running() && u64::from(sent_at) + u64::from(timer.span / 3) <= u64::from(t)
}

/// What time asks for: the HoldTimer first, and then a KEEPALIVE that is due.
fn picked_in_time(timer: HoldTimer, sent_at: Seconds, t: Seconds) -> Option<HiddenRow>
    ensures picks { PicksInTime timer sent_at t result }
    ensures may_confirm { (config : TheConfig) (link : TheLink)
        → CanTake config (heads.OpenConfirm link timer) t result }
    ensures may_established { (config : TheConfig) (link : TheLink)
        → CanTake config (heads.Established link timer) t result }
{
    if timer.is_expired(t) {
        return Some(HiddenRow::HoldExpires);
    }
    if is_keepalive_due(timer, sent_at, t) {
        return Some(HiddenRow::KeepaliveExpires);
    }
    None
}

/// What is picked in Connect and in Active.
fn picked_unconnected(cue: Cue) -> Option<HiddenRow>
    ensures connect { (delay : Bool) (sent_at t : ℕ)
        → Picks (heads.Connect delay) (cue_value cue) sent_at t result }
    ensures active { (delay : Bool) (sent_at t : ℕ)
        → Picks (heads.Active delay) (cue_value cue) sent_at t result }
    ensures may_connect { (config : TheConfig) (delay : Bool) (t : ℕ)
        → CanTake config (heads.Connect delay) t result }
    ensures may_active { (config : TheConfig) (delay : Bool) (t : ℕ)
        → CanTake config (heads.Active delay) t result }
    ensures quiet { result ≢ Some Announces }
{
    match cue {
        Cue::Stop => Some(HiddenRow::Stops),
        Cue::Connected => Some(HiddenRow::ConnectionOpens),
        Cue::Failed => Some(HiddenRow::ConnectionFails),
        _ => None,
    }
}

/// What is picked in OpenSent.
fn picked_in_open_sent(
    cue: Cue,
    timer: HoldTimer,
    sent_at: Seconds,
    t: Seconds,
) -> Option<HiddenRow>
    ensures picks { Picks (heads.OpenSent timer) (cue_value cue) sent_at t result }
    ensures may { (config : TheConfig) → CanTake config (heads.OpenSent timer) t result }
{
    match cue {
        Cue::Stop => Some(HiddenRow::Ceases),
        Cue::Failed => Some(HiddenRow::ConnectionFails),
        Cue::Tick if timer.is_expired(t) => Some(HiddenRow::HoldExpires),
        _ => None,
    }
}

/// What is picked in OpenConfirm and in Established.
fn picked_with_link(cue: Cue, timer: HoldTimer, sent_at: Seconds, t: Seconds) -> Option<HiddenRow>
    ensures confirm { (link : TheLink)
        → Picks (heads.OpenConfirm link timer) (cue_value cue) sent_at t result }
    ensures established { (link : TheLink)
        → Picks (heads.Established link timer) (cue_value cue) sent_at t result }
    ensures may_confirm { (config : TheConfig) (link : TheLink)
        → CanTake config (heads.OpenConfirm link timer) t result }
    ensures may_established { (config : TheConfig) (link : TheLink)
        → CanTake config (heads.Established link timer) t result }
    ensures quiet { result ≢ Some Announces }
{
    match cue {
        Cue::Stop => Some(HiddenRow::Ceases),
        Cue::Failed => Some(HiddenRow::ConnectionFails),
        Cue::Tick => picked_in_time(timer, sent_at, t),
        _ => None,
    }
}

/// The row that a state takes by itself on an input, which it may take then; `None` where it does
/// nothing.
pub(crate) fn picked(head: Head, cue: Cue, sent_at: Seconds, t: Seconds) -> Option<HiddenRow>
    ensures picks { Picks head (cue_value cue) sent_at t result }
    ensures may { (config : TheConfig) → CanTake config head t result }
    ensures quiet { result ≢ Some Announces }
{
    match head {
        Head::Idle => match cue {
            Cue::Start => Some(HiddenRow::Starts),
            Cue::Passive => Some(HiddenRow::Listens),
            _ => None,
        },
        Head::Connect(_) => picked_unconnected(cue),
        Head::Active(_) => picked_unconnected(cue),
        Head::OpenSent(timer) => picked_in_open_sent(cue, timer, sent_at, t),
        Head::OpenConfirm(_, timer) => picked_with_link(cue, timer, sent_at, t),
        Head::Established(_, timer) => picked_with_link(cue, timer, sent_at, t),
    }
}
