//! Writes to a table of routes. What a change writes is noted first, so that it can be undone: a
//! destination whose route is taken away keeps its entry, as room without a route that no reader
//! sees.

ghost use Rattle.std.specs.Prelude.{◌≡◌, ◌⊎◌, ◌&&◌, ◌∷◌, [], OnOk, OnErr, All, IsSome, IsTrue};
ghost use Rattle.std.specs.BTreeMap.{insert_entry, is_at};
ghost use Rattle.std.specs.Cmp.Lexicographic.{pointwise};
ghost use Rattle.std.specs.Map.{lookup};
ghost use Rattle.std.specs.Set.{is_member};
ghost use Rattle.bgp_update.specs.declared.destination.Destination.{Destination};
ghost use Rattle.bgp_rib.specs.DestinationOrder.{destination_cmp, destination_eq};
ghost use Rattle.bgp_rib.specs.Rooms.{
  AreInOrder,
  routes_in,
  route_to,
  undone,
  HasRoom,
  HasNoRoom,
  HasEach,
  LeadsBack,
};
ghost use Rattle.bgp_rib.specs.Routes.{entries_without, entries_outside};

use crate::table::Table;
use bgp_update::{Destination, Families};
use std::alloc::{AllocError, Allocator};

/// What destinations had before they were written: the first write comes first.
pub type Log<V, A> = Vec<(Destination, Option<V>), A>;

/// Writes back what the log has, the last write first, and then takes away all room that is left.
pub fn undo<V: Drop, A: Allocator + Clone>(table: &mut Table<V, A>, log: &mut Log<V, A>)
    requires noted { HasEach log.old.items table.old }
    ensures back { (q : Destination) → route_to table.new q
        ≡ undone log.old.items (route_to table.old) q }
    ensures empty { log.new.items ≡ [] }
    ensures full { HasNoRoom destination_cmp table.new }
    ensures ordered { AreInOrder table.new }
{
    while let Some(note) = log.pop() {
        let (destination, route) = note;
        overwrite(table, &destination, route);
    }
    clear_room(table);
}

/// Takes all room away that has no route.
fn clear_room<V: Drop, A: Allocator>(table: &mut Table<V, A>)
    ensures same { routes_in table.new ≡ routes_in table.old }
    ensures full { HasNoRoom destination_cmp table.new }
    ensures ordered { AreInOrder table.new }
    ensures was_ordered { AreInOrder table.old }
{
    table.clear_room();
}

/// Removes the routes of some families. It takes no memory.
pub fn drop_families<V: Drop, A: Allocator>(table: &mut Table<V, A>, families: Families)
    requires full { HasNoRoom destination_cmp table.old }
    ensures routes { routes_in table.new
        ≡ entries_outside families (routes_in table.old) }
    ensures full { HasNoRoom destination_cmp table.new }
{
    table.clear_families(families);
}

/// Whether two tables have the same routes.
pub fn have_same_routes<V: PartialEq, A: Allocator>(
    table: &Table<V, A>,
    other: &Table<V, A>,
) -> bool
    requires full { HasNoRoom destination_cmp table.now }
    requires other_full { HasNoRoom destination_cmp other.now }
    ensures { result ≡ pointwise (λ p q. destination_eq p.0 q.0 && V.eq p.1 q.1)
        (routes_in table.now) (routes_in other.now) }
{
    table.len() == other.len() && table.is_same(other)
}

/// Removes the routes to the destinations. It takes no memory.
pub fn remove_all<V: Drop, A: Allocator>(table: &mut Table<V, A>, destinations: &[Destination])
    ensures routes { routes_in table.new
        ≡ entries_without destinations.now (routes_in table.old) }
    ensures rooms { (q : Destination) → HasRoom destination_cmp table.new q
        → HasRoom destination_cmp table.old q }
{
    for destination in destinations {
        remove(table, destination);
    }
}

/// Removes the route to a destination.
fn remove<V: Drop, A: Allocator>(table: &mut Table<V, A>, destination: &Destination)
    ensures routes { routes_in table.new
        ≡ entries_without (destination.now ∷ []) (routes_in table.old) }
    ensures rooms { (q : Destination) → HasRoom destination_cmp table.new q
        → HasRoom destination_cmp table.old q }
{
    let _ = table.len(); // For the proof: it says that destinations ascend.
    table.remove(destination);
}

/// Takes the routes to the destinations away, and leaves the room that they had.
pub fn hide_all<V: Drop, A: Allocator + Clone>(
    table: &mut Table<V, A>,
    log: &mut Log<V, A>,
    destinations: &[Destination],
) -> Result<(), AllocError>
    ensures hidden { OnOk result (routes_in table.new
        ≡ entries_without destinations.now (routes_in table.old)) }
    ensures rooms { (q : Destination) → HasRoom destination_cmp table.new q
        → HasRoom destination_cmp table.old q ⊎ IsTrue (is_member destination_eq destinations.now q) }
    ensures back { LeadsBack log.new.items table.new log.old.items table.old }
    ensures noted { HasEach log.old.items table.old
        → HasEach log.new.items table.new }
{
    for destination in destinations {
        hide(table, log, destination)?;
    }
    Ok(())
}

/// Takes the route to a destination away, and leaves the room that it had.
fn hide<V: Drop, A: Allocator + Clone>(
    table: &mut Table<V, A>,
    log: &mut Log<V, A>,
    destination: &Destination,
) -> Result<(), AllocError>
    ensures hidden { OnOk result (routes_in table.new
        ≡ entries_without (destination.now ∷ []) (routes_in table.old)) }
    ensures rooms { (q : Destination) → HasRoom destination_cmp table.new q
        → HasRoom destination_cmp table.old q ⊎ IsTrue (destination_eq q destination.now) }
    ensures back { LeadsBack log.new.items table.new log.old.items table.old }
    ensures noted { HasEach log.old.items table.old
        → HasEach log.new.items table.new }
{
    if !table.contains(destination) {
        return Ok(());
    }
    write(table, log, destination, None)
}

/// Writes a route, or its absence, and notes in the log what the destination had.
pub fn write<V: Drop, A: Allocator + Clone>(
    table: &mut Table<V, A>,
    log: &mut Log<V, A>,
    destination: &Destination,
    route: Option<V>,
) -> Result<(), AllocError>
    ensures entries { OnOk result (table.new
        ≡ insert_entry destination_cmp table.old destination.now route) }
    ensures ordered { OnOk result (AreInOrder table.old) }
    ensures err { OnErr result (table.new ≡ table.old) }
    ensures back { LeadsBack log.new.items table.new log.old.items table.old }
    ensures noted { HasEach log.old.items table.old
        → HasEach log.new.items table.new }
{
    log.reserve(1)?;
    let had = table.insert(destination, route)?;
    if log.push((*destination, had.flatten())).is_err() {
        unreachable!();
    }
    Ok(())
}

/// Takes the room of the destinations away that have no route.
pub fn sweep_all<V: Drop, A: Allocator + Clone>(
    table: &mut Table<V, A>,
    destinations: &[Destination],
)
    ensures same { routes_in table.new ≡ routes_in table.old }
    ensures rooms { (q : Destination) → HasRoom destination_cmp table.new q
        → HasRoom destination_cmp table.old q }
    ensures swept { All (λ p. HasRoom destination_cmp table.new p → ⊥) destinations.now }
{
    for destination in destinations {
        sweep(table, destination);
    }
}

/// Takes the room of a destination away that has no route.
fn sweep<V: Drop, A: Allocator + Clone>(table: &mut Table<V, A>, destination: &Destination)
    ensures same { routes_in table.new ≡ routes_in table.old }
    ensures rooms { (q : Destination) → HasRoom destination_cmp table.new q
        → HasRoom destination_cmp table.old q }
    ensures swept { HasRoom destination_cmp table.new destination.now → ⊥ }
{
    let _ = table.len(); // For the proof: it says that destinations ascend.
    if let Some(None) = table.get(destination) {
        table.remove(destination);
    }
}

/// Writes a route, or its absence, where there is room.
fn overwrite<V: Drop, A: Allocator + Clone>(
    table: &mut Table<V, A>,
    destination: &Destination,
    route: Option<V>,
)
    requires room { IsSome (lookup (is_at (destination_cmp destination.now)) table.old) }
    ensures entries { table.new ≡ insert_entry destination_cmp table.old destination.now route }
    ensures ordered { AreInOrder table.old }
{
    if table.insert(destination, route).is_err() {
        unreachable!();
    }
}
