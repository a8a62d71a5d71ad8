//! What Established does about an UPDATE (RFC 4271, 8.2.2, events 27 and 28; RFC 7606).

ghost use Rattle.std.specs.Prelude.{◌≡◌, ◌↔◌, ◌⊎◌, ◌≤◌, ◌<◌, ◌+◌, ◌++◌, List, [], ◌∷◌, ℕ, IsTrue};
ghost use Rattle.arrayvec.specs.ArrayVec.{array_vec_len};
ghost use Rattle.bgp_open.specs.Families.{contains};
ghost use Rattle.bgp_rib.specs.Disabled.{IsDisabled};
ghost use Rattle.bgp_machine.specs.Rows.{AreOutcomes, ListsRows, MakesUpdate, UpdateShown};
ghost use Rattle.bgp_machine.specs.Listed.{changes_of};
ghost use Rattle.bgp_machine.specs.Rows.{update_rows};
ghost use Rattle.bgp_machine.specs.declared.rows.ReceivedRow.TheVariants as the_rows;
ghost use Rattle.bgp_machine.specs.declared.rows.ReceivedRow.{ReceivedRow as TheRow};

use crate::effects::{naming, renewed};
use crate::listing::{MOST_STEPS, add};
use crate::rows::ReceivedRow;
use crate::state::{Head, HoldTimer};
use crate::step::{After, Routes, Step};
use crate::want::{FaultSet, Wants};
use arrayvec::ArrayVec;
use bgp_open::{Families, Link, Seconds};
use bgp_rib::{Outcomes, subcodes_are_sets};
use std::alloc::Allocator;

/// Whether a family is disabled where it has to be, and only where it may be.
fn is_disabled_so(certain: bool, optional: bool, disabled: bool) -> bool
    ensures { IsTrue result ↔ ((IsTrue certain → IsTrue disabled)
        × (IsTrue disabled → IsTrue certain ⊎ IsTrue optional)) }
{
    if certain {
        return disabled;
    }
    optional || !disabled
}

/// Whether just these families may be disabled.
fn are_disabled_so(certain: Families, optional: Families, disabled: Families) -> bool
    ensures { IsTrue result ↔ IsDisabled (λ f. IsTrue (contains certain f))
        (λ f. IsTrue (contains optional f)) disabled }
{
    if !is_disabled_so(certain.v4, optional.v4, disabled.v4) {
        return false;
    }
    is_disabled_so(certain.v6, optional.v6, disabled.v6)
}

/// The UPDATE is applied, and these families are disabled.
fn applying<A: Allocator>(
    own: Link,
    timer: HoldTimer,
    t: Seconds,
    outcomes: &Outcomes<A>,
    families: Families,
) -> Option<Step>
    ensures { (octets : List ℕ) → AreOutcomes own octets outcomes.now
        → MakesUpdate own timer t octets outcomes.now (the_rows.Applies families) result }
{
    if outcomes.changes.is_none() {
        return None;
    }
    if !are_disabled_so(outcomes.certain, outcomes.optional, families) {
        return None;
    }
    Some(Step {
        wants: Wants::Nothing,
        change: None,
        after: After {
            head: Head::Established(own, renewed(timer, t)),
            routes: Routes::Given(families),
        },
    })
}

/// The UPDATE is refused.
fn refusing<A: Allocator>(own: Link, timer: HoldTimer, outcomes: &Outcomes<A>) -> Option<Step>
    ensures { (octets : List ℕ) (t : ℕ) → AreOutcomes own octets outcomes.now
        → MakesUpdate own timer t octets outcomes.now the_rows.NamesFault result }
{
    if outcomes.reset.is_empty() {
        return None;
    }
    subcodes_are_sets();
    let head = Head::Established(own, timer);
    Some(naming(head, FaultSet::Update(outcomes.reset)))
}

/// Returns the step that one row of the table makes at a second in Established about an UPDATE with
/// these outcomes (RFC 4271, 6.3 and 8.2.2, events 27 and 28; RFC 7606): `Applies` makes one if it
/// may be applied with just these families disabled, `NamesFault` if the session may be reset, and
/// any other row makes none. `own` and `timer` are the link and the HoldTimer of the state.
///
/// The outcomes are those that [`read_update`](bgp_rib::read_update) returns on this link.
pub fn update_step<A: Allocator>(
    own: Link,
    timer: HoldTimer,
    t: Seconds,
    outcomes: &Outcomes<A>,
    row: ReceivedRow,
) -> Option<Step>
    ensures { (octets : List ℕ) → AreOutcomes own octets outcomes.now
        → MakesUpdate own timer t octets outcomes.now row result }
{
    match row {
        ReceivedRow::NamesFault => refusing(own, timer, outcomes),
        ReceivedRow::Applies(families) => applying(own, timer, t, outcomes, families),
        _ => None,
    }
}

/// Adds what a row makes.
fn add_update<A: Allocator>(
    own: Link,
    timer: HoldTimer,
    t: Seconds,
    outcomes: &Outcomes<A>,
    row: ReceivedRow,
    steps: &mut ArrayVec<Step, MOST_STEPS>,
)
    requires { array_vec_len steps.old < 8 }
    ensures listed { (octets : List ℕ) (rows : List TheRow) → AreOutcomes own octets outcomes.now
        → ListsRows (UpdateShown own timer t octets) (changes_of outcomes.now.changes) rows
        steps.old.items
        → ListsRows (UpdateShown own timer t octets) (changes_of outcomes.now.changes)
        (rows ++ row ∷ []) steps.new.items }
    ensures count { array_vec_len steps.new ≤ array_vec_len steps.old + 1 }
{
    let Some(step) = update_step(own, timer, t, outcomes, row) else {
        return;
    };
    add(steps, step);
}

/// Lists the steps that Established takes about an UPDATE with these outcomes.
pub(crate) fn update_steps<A: Allocator>(
    own: Link,
    timer: HoldTimer,
    t: Seconds,
    outcomes: &Outcomes<A>,
    steps: &mut ArrayVec<Step, MOST_STEPS>,
)
    requires { steps.old.items ≡ [] }
    ensures { (octets : List ℕ) → AreOutcomes own octets outcomes.now
        → ListsRows (UpdateShown own timer t octets) (changes_of outcomes.now.changes) update_rows
        steps.new.items }
{
    let rows = [
        ReceivedRow::NamesFault,
        ReceivedRow::Applies(Families {
            v4: false,
            v6: false,
        }),
        ReceivedRow::Applies(Families {
            v4: true,
            v6: false,
        }),
        ReceivedRow::Applies(Families {
            v4: false,
            v6: true,
        }),
        ReceivedRow::Applies(Families { v4: true, v6: true }),
    ];
    for row in &rows {
        add_update(own, timer, t, outcomes, *row, steps);
    }
}
