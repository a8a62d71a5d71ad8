//! Moving a state by what a step leaves.

ghost use Rattle.std.specs.Prelude.{◌≡◌, OnOk, OnErr, IsErr, option_copied};
ghost use Rattle.bgp_open.specs.declared.families.Families.{Families as TheFamilies};
ghost use Rattle.bgp_rib.specs.Routes.{routes_after, routes_without};
ghost use Rattle.bgp_machine.specs.Listed.{changes_of, turn_of};
ghost use Rattle.bgp_machine.specs.State.{moved, state_value};
ghost use Rattle.bgp_machine.specs.declared.step.Routes.TheVariants as turns;

use crate::state::State;
use crate::step::{After, Routes};
use bgp_open::{Families, Family};
use bgp_rib::{Changes, RibIn};
use std::alloc::{AllocError, Allocator};

impl<A: Allocator + Copy> State<A> {
    /// Moves the state by what a step leaves. `changes` are those of the step's message, which
    /// stand beside the list of steps.
    ///
    /// It takes memory only if routes are given. If memory runs out it leaves everything as it was,
    /// and called again it does what it would have done.
    pub fn take(&mut self, after: After, changes: Option<&Changes<A>>) -> Result<(), AllocError>
        ensures ok { let given = changes_of (option_copied changes.entry) in
            OnOk result (state_value self.new
            ≡ moved (state_value self.old) (turn_of given after)) }
        ensures err { OnErr result (state_value self.new ≡ state_value self.old) }
        ensures memory { IsErr result
            → (families : TheFamilies) × (after.routes ≡ turns.Given families) }
    {
        match after.routes {
            Routes::Kept => {}
            Routes::Cleared => self.rib.clear(),
            Routes::Given(families) => give(&mut self.rib, changes, families)?,
        }
        self.head = after.head;
        Ok(())
    }
}

/// Makes changes, and then disables families.
fn give<A: Allocator + Copy>(
    rib: &mut RibIn<A>,
    changes: Option<&Changes<A>>,
    families: Families,
) -> Result<(), AllocError>
    ensures ok { let given = changes_of (option_copied changes.entry) in
        OnOk result (rib.new ≡ routes_without families (routes_after given rib.old)) }
    ensures err { OnErr result (rib.new ≡ rib.old) }
{
    if let Some(changes) = changes {
        rib.apply(changes)?;
    }
    disable(rib, families);
    Ok(())
}

/// Disables families.
fn disable<A: Allocator>(rib: &mut RibIn<A>, families: Families)
    ensures { rib.new ≡ routes_without families rib.old }
{
    if families.v4 {
        rib.disable(Family::V4);
    }
    if families.v6 {
        rib.disable(Family::V6);
    }
}
