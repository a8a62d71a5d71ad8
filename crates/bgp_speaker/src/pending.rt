//! What becomes of the routes on an input, which is done when the input is taken and not before: so
//! nothing has to be undone where memory is refused in between, and the routes aren't copied.

ghost use Rattle.std.specs.Prelude.{◌≡◌, false, [], OnErr, OnOk};
ghost use Rattle.bgp_machine.specs.Listed.{changes_of, routes_turn};
ghost use Rattle.bgp_machine.specs.State.{routes_by};
ghost use Rattle.bgp_rib.specs.Routes.{Routes as TheRoutes};
ghost use Rattle.bgp_update.specs.Allowed.{changes_value};
ghost use Rattle.bgp_speaker.specs.Pending.{routes_pending};

use bgp_machine::Routes;
use bgp_rib::{Applied, RibIn};
use bgp_update::Changes;
use std::alloc::{AllocError, Allocator, Global};

/// What becomes of the routes.
#[derive(Drop)]
pub(crate) struct Pending<A: Allocator = Global> {
    pub(crate) alloc: A,
    /// First all of them go, since the session has ended.
    pub(crate) is_cleared: bool,
    /// Then these are applied in order.
    pub(crate) updates: Vec<Applied<A>, A>,
}

impl<A: Allocator + Copy> Pending<A> {
    /// The routes stay as they are.
    pub(crate) fn new(alloc: A) -> Pending<A>
        ensures { (routes : TheRoutes) → routes_pending result routes ≡ routes }
    {
        Pending {
            alloc,
            is_cleared: false,
            updates: Vec::new(alloc),
        }
    }

    /// Notes what a step does, whose message has these changes.
    pub(crate) fn note(
        &mut self,
        after: Routes,
        changes: Option<Changes<A>>,
    ) -> Result<(), AllocError>
        ensures { OnOk result ((routes : TheRoutes) → routes_pending self.new routes
            ≡ routes_by (routes_turn (changes_of changes) after)
            (routes_pending self.old routes)) }
    {
        match after {
            Routes::Kept => Ok(()),
            Routes::Cleared => {
                self.is_cleared = true;
                self.updates = Vec::new(self.alloc);
                Ok(())
            }
            Routes::Given(disabled) => {
                let changes = self.given(changes);
                self.updates.push(Applied { changes, disabled })?;
                Ok(())
            }
        }
    }

    /// Does to the routes what is noted. Refused for memory it leaves them as they were.
    pub(crate) fn settle(&self, rib: &mut RibIn<A>) -> Result<(), AllocError>
        ensures ok { OnOk result (rib.new ≡ routes_pending self.now rib.old) }
        ensures err { OnErr result (rib.new ≡ rib.old) }
    {
        if !self.is_cleared {
            return rib.apply_each(&self.updates);
        }
        let mut others = RibIn::new(self.alloc);
        others.apply_each(&self.updates)?;
        *rib = others;
        Ok(())
    }

    /// The changes; none where there is no UPDATE.
    fn given(&self, changes: Option<Changes<A>>) -> Changes<A>
        ensures { changes_value result ≡ changes_of changes }
    {
        match changes {
            Some(changes) => changes,
            None => Changes {
                remove: Vec::new(self.alloc),
                nlri: None,
                mp_reach_nlri: None,
            },
        }
    }
}
