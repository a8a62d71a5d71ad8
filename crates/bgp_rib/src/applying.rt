//! How the changes of an UPDATE are made to a table: whole, or not at all.

ghost use Rattle.std.specs.Prelude.{◌≡◌, ◌⊎◌, ◌∷◌, [], None, OnOk, OnErr, IsOk, IsTrue, map};
ghost use Rattle.std.specs.Set.{is_member};
ghost use Rattle.bgp_update.specs.declared.destination.Destination.{Destination};
ghost use Rattle.bgp_rib.specs.DestinationOrder.{destination_cmp, destination_eq};
ghost use Rattle.bgp_update.specs.Allowed.{changes_value, group_routes, put_routes};
ghost use Rattle.bgp_rib.specs.Rooms.{routes_in, HasRoom, HasNoRoom, HasEach, LeadsBack};
ghost use Rattle.bgp_rib.specs.Routes.{
  entry_of,
  entries_without,
  entries_outside,
  entries_with,
};

use crate::table::Table;
use crate::writing::{Log, hide_all, remove_all, sweep_all, undo, write};
use bgp_path::Path;
use bgp_update::{Changes, Destination, Families, Put};
use std::alloc::{AllocError, Allocator};

/// Removes the routes to some destinations, and then puts the others, but those of disabled
/// families. Where a growth is refused what was written is written back, so the routes stay.
pub fn apply_changes<A: Allocator + Clone>(
    table: &mut Table<Path<A>, A>,
    log: &mut Log<Path<A>, A>,
    disabled: Families,
    changes: &Changes<A>,
) -> Result<(), AllocError>
    requires full { HasNoRoom destination_cmp table.old }
    requires unwritten { log.old.items ≡ [] }
    ensures ok { OnOk result (routes_in table.new
        ≡ entries_with
        (entries_outside disabled (map entry_of (changes_value changes.now).put))
        (entries_without (changes_value changes.now).remove (routes_in table.old))) }
    ensures err { OnErr result (routes_in table.new ≡ routes_in table.old) }
    ensures memory { changes.now.nlri ≡ None → changes.now.mp_reach_nlri ≡ None → IsOk result }
    ensures full { HasNoRoom destination_cmp table.new }
    ensures unwritten { log.new.items ≡ [] }
{
    let _ = table.len(); // For the proof: it says that destinations ascend.
    if changes.nlri.is_none() && changes.mp_reach_nlri.is_none() {
        remove_all(table, &changes.remove); // Nothing grows, so nothing has to be noted.
        return Ok(());
    }
    if write_all(table, log, disabled, changes).is_err() {
        undo(table, log);
        return Err(AllocError);
    }
    log.clear();
    sweep_all(table, &changes.remove);
    Ok(())
}

/// Removes the routes to some destinations, whose room stays, and then puts the others.
pub fn write_all<A: Allocator + Clone>(
    table: &mut Table<Path<A>, A>,
    log: &mut Log<Path<A>, A>,
    disabled: Families,
    changes: &Changes<A>,
) -> Result<(), AllocError>
    ensures routes { OnOk result (routes_in table.new
        ≡ entries_with
        (entries_outside disabled (map entry_of (changes_value changes.now).put))
        (entries_without (changes_value changes.now).remove (routes_in table.old))) }
    ensures rooms { (q : Destination) → HasRoom destination_cmp table.new q
        → HasRoom destination_cmp table.old q
        ⊎ IsTrue (is_member destination_eq (changes_value changes.now).remove q) }
    ensures back { LeadsBack log.new.items table.new log.old.items table.old }
    ensures noted { HasEach log.old.items table.old
        → HasEach log.new.items table.new }
{
    hide_all(table, log, &changes.remove)?;
    put_all(table, log, disabled, changes)
}

/// Puts the routes of both groups, but those of disabled families.
fn put_all<A: Allocator + Clone>(
    table: &mut Table<Path<A>, A>,
    log: &mut Log<Path<A>, A>,
    disabled: Families,
    changes: &Changes<A>,
) -> Result<(), AllocError>
    ensures routes { OnOk result (routes_in table.new
        ≡ entries_with
        (entries_outside disabled (map entry_of (changes_value changes.now).put))
        (routes_in table.old)) }
    ensures rooms { (q : Destination) → HasRoom destination_cmp table.new q
        → HasRoom destination_cmp table.old q }
    ensures back { LeadsBack log.new.items table.new log.old.items table.old }
    ensures noted { HasEach log.old.items table.old
        → HasEach log.new.items table.new }
{
    put_group_if(table, log, disabled, &changes.nlri)?;
    put_group_if(table, log, disabled, &changes.mp_reach_nlri)?;
    Ok(())
}

/// Puts the routes of a group, where there is one, but those of disabled families.
fn put_group_if<A: Allocator + Clone>(
    table: &mut Table<Path<A>, A>,
    log: &mut Log<Path<A>, A>,
    disabled: Families,
    group: &Option<Put<A>>,
) -> Result<(), AllocError>
    ensures routes { OnOk result (routes_in table.new
        ≡ entries_with (entries_outside disabled (map entry_of (group_routes group.now)))
        (routes_in table.old)) }
    ensures rooms { (q : Destination) → HasRoom destination_cmp table.new q
        → HasRoom destination_cmp table.old q }
    ensures back { LeadsBack log.new.items table.new log.old.items table.old }
    ensures noted { HasEach log.old.items table.old
        → HasEach log.new.items table.new }
{
    match group {
        Some(group) => put_group(table, log, disabled, group),
        None => Ok(()),
    }
}

/// Puts the routes of a group, but those of disabled families.
fn put_group<A: Allocator + Clone>(
    table: &mut Table<Path<A>, A>,
    log: &mut Log<Path<A>, A>,
    disabled: Families,
    group: &Put<A>,
) -> Result<(), AllocError>
    ensures routes { OnOk result (routes_in table.new
        ≡ entries_with (entries_outside disabled (map entry_of (put_routes group.now)))
        (routes_in table.old)) }
    ensures rooms { (q : Destination) → HasRoom destination_cmp table.new q
        → HasRoom destination_cmp table.old q }
    ensures back { LeadsBack log.new.items table.new log.old.items table.old }
    ensures noted { HasEach log.old.items table.old
        → HasEach log.new.items table.new }
{
    for destination in &group.destinations {
        put_route(table, log, disabled, destination, &group.path)?;
    }
    Ok(())
}

/// Puts a route, unless its family is disabled.
fn put_route<A: Allocator + Clone>(
    table: &mut Table<Path<A>, A>,
    log: &mut Log<Path<A>, A>,
    disabled: Families,
    destination: &Destination,
    path: &Path<A>,
) -> Result<(), AllocError>
    ensures routes { OnOk result (routes_in table.new
        ≡ entries_with (entries_outside disabled ((destination.now, path.now) ∷ []))
        (routes_in table.old)) }
    ensures rooms { (q : Destination) → HasRoom destination_cmp table.new q
        → HasRoom destination_cmp table.old q }
    ensures back { LeadsBack log.new.items table.new log.old.items table.old }
    ensures noted { HasEach log.old.items table.old
        → HasEach log.new.items table.new }
{
    if disabled.contains(destination.prefix.family()) {
        return Ok(());
    }
    write(table, log, destination, Some(path.clone()?))
}
