//! Routes, one after another.

ghost use Rattle.std.specs.Prelude.{◌≡◌};
ghost use Rattle.bgp_rib.specs.Rooms.{AreInOrder, routes_in};
ghost use Rattle.bgp_rib.specs.Routes.{entries_outside};

use crate::table::{Table, TableIter};
use bgp_path::Path;
use bgp_update::{Destination, Families};
use std::alloc::{Allocator, Global};
use std::marker::Model;

/// Lends routes in the order of their destinations. It is seen as the list of those that are left.
#[derive(Drop)]
pub struct RouteIter<'a, A: Allocator = Global> {
    entries: TableIter<'a, Path<A>>,
    hidden: Families,
}

impl<'a, A: Allocator> Model for RouteIter<'a, A> {
    ghost use Rattle.std.specs.Prelude.{List};
    ghost use Rattle.bgp_update.specs.declared.destination.Destination.{Destination};
    ghost use Rattle.bgp_path.specs.Path.{PathValue};
    ghost use Rattle.bgp_rib.specs.Rooms.{routes_in};
    ghost use Rattle.bgp_rib.specs.Routes.{entries_outside};

    ghost Value = { List (Destination × PathValue) };

    ghost view = { λ s. entries_outside s.hidden (routes_in s.entries) };
}

impl<'a, A: Allocator> RouteIter<'a, A> {
    /// The routes of a table but those of some families.
    pub(crate) fn new(table: &'a Table<Path<A>, A>, hidden: Families) -> RouteIter<'a, A>
        ensures rest { result ≡ entries_outside hidden (routes_in table.now) }
        ensures ordered { AreInOrder table.now }
    {
        RouteIter {
            entries: table.iter(),
            hidden,
        }
    }
}

impl<'a, A: Allocator> Iterator for RouteIter<'a, A> {
    type Item = (Destination, &'a Path<A>);

    ghost use Rattle.std.specs.Prelude.{length};
    ghost use Rattle.std.specs.Iterator.{at_most};
    ghost use Rattle.std.specs.Map.Iter.{TakesFirst};

    ghost next_gives = { TakesFirst (λ p. (p.0, p.1.now)) };

    ghost remaining = { λ s. at_most (length s) };

    fn next(&mut self) -> Option<(Destination, &'a Path<A>)> {
        while let Some((destination, route)) = self.entries.next() {
            if let Some(path) = route
                && !self.hidden.contains(destination.prefix.family())
            {
                return Some((destination, path));
            }
        }
        None
    }
}
