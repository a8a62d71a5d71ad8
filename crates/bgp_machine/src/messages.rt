//! What a state does about octets that it receives.

ghost use Rattle.std.specs.Prelude.{◌≡◌, ◌↔◌, ℕ, List, [], IfOk, IsErr, IsSome, OnErr};
ghost use Rattle.bgp_open.specs.declared.config.Config.{Config as TheConfig};
ghost use Rattle.bgp_rib.specs.Outcome.{IsOnlyReset};
ghost use Rattle.bgp_machine.specs.Heard.{Hears};
ghost use Rattle.bgp_machine.specs.Listed.{ListsReceived, MakesChanges, TakesMemory, changes_of};
ghost use Rattle.bgp_machine.specs.Lists.{Has};
ghost use Rattle.bgp_machine.specs.Rows.{NeedsOutcomes};
ghost use Rattle.bgp_machine.specs.declared.hearing.Heard.TheVariants as hearings;
ghost use Rattle.bgp_machine.specs.declared.state.Head.TheVariants as heads;

use crate::hearing::{Heard, hear};
use crate::listing::MOST_STEPS;
use crate::received::heard_steps;
use crate::state::{Head, HoldTimer};
use crate::step::Step;
use crate::updates::update_steps;
use arrayvec::ArrayVec;
use bgp_open::{Config, Link, Seconds};
use bgp_rib::{Changes, read_update};
use std::alloc::{AllocError, Allocator};

/// Lists the steps about a message whose outcomes needn't be known, and answers that no changes
/// stand beside them.
fn plain_steps<A: Allocator>(
    head: Head,
    t: Seconds,
    heard: Heard,
    steps: &mut ArrayVec<Step, MOST_STEPS>,
) -> Option<Changes<A>>
    requires plain { ¬ NeedsOutcomes head heard }
    requires none { steps.old.items ≡ [] }
    ensures exact { (config : TheConfig) (octets : List ℕ) → Hears config octets heard
        → ListsReceived config head t octets (changes_of result) steps.new.items }
    ensures given { IsSome result ↔ Has MakesChanges steps.new.items }
{
    heard_steps(head, t, heard, steps);
    None
}

/// Lists the steps about an UPDATE in Established, and answers the changes beside them.
fn established_steps<A: Allocator + Copy>(
    alloc: A,
    own: Link,
    timer: HoldTimer,
    t: Seconds,
    octets: &[u8],
    steps: &mut ArrayVec<Step, MOST_STEPS>,
) -> Result<Option<Changes<A>>, AllocError>
    requires { steps.old.items ≡ [] }
    ensures memory { IsErr result → ¬ IsOnlyReset own octets.now }
    ensures exact { (config : TheConfig) → Hears config octets.now hearings.Update
        → IfOk result (λ changes. ListsReceived config (heads.Established own timer) t octets.now
        (changes_of changes) steps.new.items) }
    ensures given { IfOk result (λ changes. IsSome changes ↔ Has MakesChanges steps.new.items) }
    ensures err { OnErr result (steps.new ≡ steps.old) }
{
    let outcomes = read_update(alloc, &own, octets)?;
    update_steps(own, timer, t, &outcomes, steps);
    Ok(outcomes.changes)
}

/// Lists the steps about an UPDATE, and answers the changes beside them.
fn steps_on_update<A: Allocator + Copy>(
    alloc: A,
    head: Head,
    t: Seconds,
    octets: &[u8],
    steps: &mut ArrayVec<Step, MOST_STEPS>,
) -> Result<Option<Changes<A>>, AllocError>
    requires { steps.old.items ≡ [] }
    ensures exact { (config : TheConfig) → Hears config octets.now hearings.Update
        → IfOk result (λ changes. ListsReceived config head t octets.now
        (changes_of changes) steps.new.items) }
    ensures given { IfOk result (λ changes. IsSome changes ↔ Has MakesChanges steps.new.items) }
    ensures memory { IsErr result → TakesMemory head octets.now }
    ensures err { OnErr result (steps.new ≡ steps.old) }
{
    match head {
        Head::Established(own, timer) => established_steps(alloc, own, timer, t, octets, steps),
        _ => Ok(plain_steps(head, t, Heard::Update, steps)),
    }
}

/// Lists the steps that a session may take about octets which it receives at a second: exactly
/// those that the table's rows allow, each once, whatever the octets are. Returns the changes of
/// the UPDATE, which each step makes whose routes are [given](crate::Routes::Given): there are some
/// exactly if one of the steps makes them.
///
/// It needs an empty list. Only an UPDATE in Established that may be applied takes memory; if that
/// runs out the list stays empty.
pub fn list_message_steps<A: Allocator + Copy>(
    alloc: A,
    config: &Config,
    head: Head,
    t: Seconds,
    octets: &[u8],
    steps: &mut ArrayVec<Step, MOST_STEPS>,
) -> Result<Option<Changes<A>>, AllocError>
    requires { steps.old.items ≡ [] }
    ensures exact { IfOk result (λ changes. ListsReceived config.now head t octets.now
        (changes_of changes) steps.new.items) }
    ensures given { IfOk result (λ changes. IsSome changes ↔ Has MakesChanges steps.new.items) }
    ensures memory { IsErr result → TakesMemory head octets.now }
    ensures err { OnErr result (steps.new ≡ steps.old) }
{
    match hear(config, octets) {
        Heard::Update => steps_on_update(alloc, head, t, octets, steps),
        heard => Ok(plain_steps(head, t, heard, steps)),
    }
}
