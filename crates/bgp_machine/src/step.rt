//! A step of the session machine: what it sends and shows, and what it leaves.

use crate::fsm::Fsm;
use crate::state::Head;
use crate::want::Wants;
use bgp_open::Families;

/// What becomes of the routes. An UPDATE's changes stand once beside a list of steps.
#[derive(Clone, Copy, Debug, PartialEq, Eq)]
pub enum Routes {
    /// They stay.
    Kept,
    /// None is left, and no family is disabled.
    Cleared,
    /// The message's changes are made, and then these families disabled.
    Given(Families),
}

/// What a step leaves.
#[derive(Clone, Copy, Debug, PartialEq, Eq)]
pub struct After {
    /// What the next step's rows look at.
    pub head: Head,
    /// What becomes of the routes.
    pub routes: Routes,
}

/// A step.
#[derive(Clone, Copy, Debug, PartialEq, Eq)]
pub struct Step {
    /// What it sends, in order.
    pub wants: Wants,
    /// The change of state that it shows: the old state and the new one.
    pub change: Option<(Fsm, Fsm)>,
    /// What it leaves.
    pub after: After,
}

impl Default for Step {
    fn default() -> Step {
        Step {
            wants: Wants::Nothing,
            change: None,
            after: After {
                head: Head::Idle,
                routes: Routes::Kept,
            },
        }
    }
}
