//! The members whose last step begins with the record.

ghost use Rattle.std.specs.Prelude.{◌≡◌, ◌↔◌, ◌⊎◌, IsTrue};
ghost use Rattle.bgp_open.specs.declared.families.Families.{Families as TheFamilies};
ghost use Rattle.bgp_open.specs.declared.config.Config.{Config as TheConfig};
ghost use Rattle.bgp_prefix.specs.Shown.{ShownRecord};
ghost use Rattle.bgp_update.specs.Changes.{RouteChanges};
ghost use Rattle.bgp_machine.specs.Going.{undelayed};
ghost use Rattle.bgp_machine.specs.Lists.{Each, Has};
ghost use Rattle.bgp_machine.specs.Run.{is_delayed};
ghost use Rattle.bgp_rib.specs.Routes.{Routes, AreRoutes, routes_after};
ghost use Rattle.bgp_compact.specs.Disabled.{holds, shifted_by};
ghost use Rattle.bgp_compact.specs.Parts.{disabled_of};
ghost use Rattle.bgp_compact.specs.Steps.{AreBehind, AreFresh, Fits, FromStep, Gains, HasSome};
ghost use Rattle.bgp_compact.specs.Steps.{IsOpen};

use crate::base::Base;
use crate::falls::Fall;
use crate::words::Words;
use bgp_machine::{Head, Routes as RoutesOfStep, Step};
use bgp_open::Families;

/// Whether the OPEN is delayed.
fn is_delayed(head: Head) -> bool
    ensures { result ≡ is_delayed head }
{
    match head {
        Head::Connect(delay) => delay,
        Head::Active(delay) => delay,
        _ => false,
    }
}

/// The families that a step disables.
fn disabled_by(routes: RoutesOfStep) -> Families
    ensures { result ≡ disabled_of routes }
{
    match routes {
        RoutesOfStep::Given(families) => families,
        _ => Families {
            v4: false,
            v6: false,
        },
    }
}

/// Adds what a step makes of the members of the base that goes on.
fn with_front(base: Base, step: Step, words: Words) -> Words
    ensures rest { result ≡ record words {
      head = step.after.head;
      wants = step.wants;
      sets = result.sets;
    } }
    ensures sets { (d : TheFamilies) → IsTrue (holds result.sets d)
        ↔ (IsTrue (holds words.sets d)
        ⊎ IsTrue (holds (shifted_by (disabled_of step.after.routes) base.sets) d)) }
{
    let sets = base.sets.shifted(disabled_by(step.after.routes));
    Words {
        head: step.after.head,
        wants: step.wants,
        sets: words.sets.union(sets),
        ..words
    }
}

/// Adds what a step makes of the members of the base. One that ends with the OPEN delayed isn't
/// added: the same is there without a delay, and silence leads on from it.
fn with_step(base: Base, step: Step, words: Words) -> Words
    ensures behind { (config : TheConfig) (shown : ShownRecord) (changes : RouteChanges)
        → IsOpen config base.head shown changes step
        → AreBehind config (undelayed base.head) shown words
        → AreBehind config (undelayed base.head) shown result }
    ensures gains { (config : TheConfig) (shown : ShownRecord) (changes : RouteChanges)
        (table : Routes) → IsOpen config base.head shown changes step
        → AreBehind config (undelayed base.head) shown words → HasSome base → AreRoutes table
        → AreFresh base table → Fits changes table step
        → Gains words result (routes_after changes table) (FromStep base changes table step) }
{
    match step.after.head {
        Head::Idle => Words {
            falls: words.falls.with(Fall::of(step.wants)),
            ..words
        },
        head => {
            if is_delayed(head) {
                words
            } else {
                with_front(base, step, words)
            }
        }
    }
}

/// Adds what the steps make of the members of the base.
pub(crate) fn with_steps(base: Base, steps: &[Step], words: Words) -> Words
    ensures behind { (config : TheConfig) (shown : ShownRecord) (changes : RouteChanges)
        → Each (IsOpen config base.head shown changes) steps.now
        → AreBehind config (undelayed base.head) shown words
        → AreBehind config (undelayed base.head) shown result }
    ensures gains { (config : TheConfig) (shown : ShownRecord) (changes : RouteChanges)
        (table : Routes) → Each (IsOpen config base.head shown changes) steps.now
        → AreBehind config (undelayed base.head) shown words → HasSome base → AreRoutes table
        → AreFresh base table → Each (Fits changes table) steps.now
        → Gains words result (routes_after changes table)
        (λ m. Has (λ x. FromStep base changes table x m) steps.now) }
{
    let mut next = words;
    for step in steps {
        next = with_step(base, *step, next);
    }
    next
}
