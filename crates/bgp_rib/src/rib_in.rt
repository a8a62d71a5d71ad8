//! The routes that a peer has announced: its Adj-RIB-In (RFC 4271, 3.2).

ghost use Rattle.std.specs.Prelude.{◌≡◌, length, map, None, IfOk, IsOk, OnOk, OnErr};
ghost use Rattle.bgp_update.specs.Allowed.{changes_value};
ghost use Rattle.bgp_rib.specs.Routes.{
  AreRoutes,
  no_routes,
  routes_after,
  routes_without,
  only,
};
ghost use Rattle.bgp_rib.specs.Updates.{applied_value, after_updates};

use crate::applying::apply_changes;
use crate::families::only;
use crate::route_iter::RouteIter;
use crate::table::Table;
use crate::updates::{Applied, apply_updates};
use crate::writing::{Log, drop_families, have_same_routes};
use bgp_path::Path;
use bgp_prefix::Family;
use bgp_update::{Changes, Families};
use std::alloc::{AllocError, Allocator, Global};
use std::marker::Model;

/// The routes of a peer, at most one to a destination, and the families that are disabled (RFC 7606,
/// 2): those have no routes and take none.
///
/// A route is a destination and a [`Path`], which is shared with the changes that it came in.
#[derive(Drop)]
pub struct RibIn<A: Allocator = Global> {
    alloc: A,
    disabled: Families,
    table: Table<Path<A>, A>,
    /// Empty between calls. It keeps its room, so that changes seldom take memory for it.
    log: Log<Path<A>, A>,
}

impl<A: Allocator> Model for RibIn<A> {
    ghost use Rattle.bgp_rib.specs.DestinationOrder.{destination_cmp};
    ghost use Rattle.std.specs.Prelude.{◌≡◌, []};
    ghost use Rattle.std.specs.Map.{keys_of};
    ghost use Rattle.bgp_rib.specs.Rooms.{routes_in, HasNoRoom};
    ghost use Rattle.bgp_rib.specs.Routes.{Routes, AreOutside};

    ghost Value = { Routes };

    ghost view = { λ r. record { entries = routes_in r.table; disabled = r.disabled } };

    ghost invariant = { λ r. HasNoRoom destination_cmp r.table
        × AreOutside r.disabled (keys_of (routes_in r.table)) × (r.log.items ≡ []) };
}

impl<A: Allocator> RibIn<A> {
    /// No routes, and nothing disabled. It takes no memory.
    pub fn new(alloc: A) -> RibIn<A>
    where
        A: Copy,
        ensures routes { result ≡ no_routes }
    {
        RibIn {
            alloc,
            disabled: Families::NONE,
            table: Table::new(alloc),
            log: Vec::new(alloc),
        }
    }

    /// Removes destinations, and then puts routes. What the changes say of a disabled family is
    /// ignored.
    ///
    /// Refused for memory it leaves everything as it was, and called again it does what it would
    /// have done. Changes that only remove take no memory.
    pub fn apply(&mut self, changes: &Changes<A>) -> Result<(), AllocError>
    where
        A: Copy,
        ensures ok { OnOk result (self.new ≡ routes_after (changes_value changes.now) self.old) }
        ensures err { OnErr result (self.new ≡ self.old) }
        ensures memory { changes.now.nlri ≡ None → changes.now.mp_reach_nlri ≡ None
            → IsOk result }
    {
        apply_changes(&mut self.table, &mut self.log, self.disabled, changes)
    }

    /// Applies UPDATEs one after another: makes the changes of each as `apply` does, and then
    /// disables its families.
    ///
    /// Refused for memory it leaves everything as it was before the first, and called again it does
    /// what it would have done. It looks at the destinations that the changes name, and at all
    /// routes only where it disables a family that wasn't disabled, or is refused.
    pub fn apply_each(&mut self, updates: &[Applied<A>]) -> Result<(), AllocError>
    where
        A: Copy,
        ensures ok { OnOk result
            (self.new ≡ after_updates (map applied_value updates.now) self.old) }
        ensures err { OnErr result (self.new ≡ self.old) }
    {
        self.disabled = apply_updates(&mut self.table, &mut self.log, self.disabled, updates)?;
        Ok(())
    }

    /// Disables a family: its routes go, and it takes none from now on. It takes no memory, and
    /// where the family is disabled already it doesn't look at the routes.
    pub fn disable(&mut self, family: Family)
        ensures routes { self.new ≡ routes_without (only family) self.old }
    {
        if self.disabled.contains(family) {
            return;
        }
        let gone = only(family);
        self.disabled = self.disabled.union(gone);
        drop_families(&mut self.table, gone);
    }

    /// Forgets all routes, and enables every family. It takes no memory.
    pub fn clear(&mut self)
        ensures routes { self.new ≡ no_routes }
    {
        self.disabled = Families::NONE;
        self.table.clear();
        self.log.shrink_to_fit();
    }

    /// The families that are disabled.
    pub fn disabled(&self) -> Families
        ensures families { result ≡ self.now.disabled }
    {
        self.disabled
    }

    /// How many routes there are.
    pub fn len(&self) -> usize
        ensures count { result ≡ length self.now.entries }
    {
        self.table.len()
    }

    /// The routes in the order of their destinations: IPv4 before IPv6, of a family those without a
    /// path identifier before those with one, then by address, length and identifier.
    pub fn routes(&self) -> RouteIter<'_, A>
        ensures rest { result ≡ self.now.entries }
        ensures are { AreRoutes self.now }
    {
        RouteIter::new(&self.table, Families::NONE)
    }

    /// The routes but those of some families, in the same order.
    pub fn routes_without(&self, families: Families) -> RouteIter<'_, A>
        ensures rest { result ≡ (routes_without families self.now).entries }
        ensures are { AreRoutes self.now }
    {
        RouteIter::new(&self.table, families)
    }

    /// An equal copy, whose routes share their paths with these.
    pub fn copy(&self) -> Result<RibIn<A>, AllocError>
    where
        A: Copy,
        ensures copy { IfOk result (λ copy. copy ≡ self.now) }
    {
        Ok(RibIn {
            alloc: self.alloc,
            disabled: self.disabled,
            table: self.table.copy()?,
            log: Vec::new(self.alloc),
        })
    }
}

impl<A: Allocator> PartialEq for RibIn<A> {
    ghost use Rattle.bgp_rib.specs.SameRoutes.{same_routes, same_routes_per};

    ghost eq = { same_routes };

    ghost laws = { same_routes_per };

    fn eq(&self, other: &RibIn<A>) -> bool {
        self.disabled == other.disabled && have_same_routes(&self.table, &other.table)
    }
}

impl<A: Allocator> Eq for RibIn<A> {
    ghost use Rattle.bgp_rib.specs.SameRoutes.{same_routes_equiv};

    ghost laws = { same_routes_equiv };
}
