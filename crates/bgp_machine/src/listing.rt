//! Lists of steps.

ghost use Rattle.std.specs.Prelude.{◌≡◌, ◌↔◌, ◌<◌, ◌≤◌, ◌+◌, IsTrue};
ghost use Rattle.arrayvec.specs.ArrayVec.{array_vec_len};
ghost use Rattle.bgp_machine.specs.Rows.{AddsOne};
ghost use Rattle.bgp_machine.specs.Lists.{Has};

use crate::sameness::same_step;
use crate::step::Step;
use arrayvec::ArrayVec;

/// The most steps that one head takes by itself, or about one message.
pub const MOST_STEPS: usize = 8;

/// Whether the step is among them.
fn is_listed(steps: &[Step], step: Step) -> bool
    ensures { IsTrue result ↔ Has (λ x. x ≡ step) steps.now }
{
    for x in steps {
        if same_step(*x, step) {
            return true;
        }
    }
    false
}

/// Adds a step that isn't there yet.
pub(crate) fn add(steps: &mut ArrayVec<Step, MOST_STEPS>, step: Step)
    requires { array_vec_len steps.old < 8 }
    ensures added { AddsOne step steps.old.items steps.new.items }
    ensures count { array_vec_len steps.new ≤ array_vec_len steps.old + 1 }
{
    if is_listed(steps.as_slice(), step) {
        return;
    }
    steps.push(step);
}
