//! How several UPDATEs are applied to a table: all of them, or none.

ghost use Rattle.std.specs.Prelude.{◌≡◌, ◌⊎◌, [], All, IfOk, OnOk, OnErr, IsTrue, map};
ghost use Rattle.std.specs.Map.{keys_of};
ghost use Rattle.std.specs.Set.{is_member};
ghost use Rattle.bgp_update.specs.declared.destination.Destination.{Destination};
ghost use Rattle.bgp_rib.specs.DestinationOrder.{destination_cmp, destination_eq};
ghost use Rattle.bgp_rib.specs.Rooms.{routes_in, HasRoom, HasNoRoom, HasEach, LeadsBack};
ghost use Rattle.bgp_rib.specs.Routes.{entries_outside, AreOutside};
ghost use Rattle.bgp_rib.specs.Updates.{
  applied_value,
  after_updates,
  removed_by,
  seen_in,
  enabled_in,
};

use crate::applying::write_all;
use crate::table::Table;
use crate::writing::{Log, drop_families, sweep_all, undo};
use bgp_path::Path;
use bgp_update::{Changes, Families};
use std::alloc::{AllocError, Allocator, Global};

/// What an UPDATE asks for where it is applied (RFC 7606, 2): its changes are made, and then
/// families disabled.
#[derive(Drop)]
#[derive_where(Debug)]
pub struct Applied<A: Allocator = Global> {
    /// The changes.
    pub changes: Changes<A>,
    /// The families that are disabled once the changes are made.
    pub disabled: Families,
}

/// Applies UPDATEs one after another, and answers the families that are disabled then. Where a
/// growth is refused what was written is written back, so the routes stay.
pub fn apply_updates<A: Allocator + Clone>(
    table: &mut Table<Path<A>, A>,
    log: &mut Log<Path<A>, A>,
    disabled: Families,
    updates: &[Applied<A>],
) -> Result<Families, AllocError>
    requires full { HasNoRoom destination_cmp table.old }
    requires unwritten { log.old.items ≡ [] }
    requires outside { AreOutside disabled (keys_of (routes_in table.old)) }
    ensures ok { IfOk result (λ after. seen_in after table.new
        ≡ after_updates (map applied_value updates.now) (seen_in disabled table.old)) }
    ensures outside { IfOk result
        (λ after. AreOutside after (keys_of (routes_in table.new))) }
    ensures err { OnErr result (routes_in table.new ≡ routes_in table.old) }
    ensures full { HasNoRoom destination_cmp table.new }
    ensures unwritten { log.new.items ≡ [] }
{
    let _ = table.len(); // For the proof: it says that destinations ascend.
    let Ok(after) = write_each(table, log, disabled, updates) else {
        undo(table, log);
        return Err(AllocError);
    };
    log.clear();
    sweep_each(table, updates);
    drop_disabled(table, disabled, after);
    Ok(after)
}

/// Makes the changes of each, and answers the families that are disabled then. It puts no route of
/// a family that is disabled by then; the routes that such a family has stay, and so does the room
/// of destinations that are removed.
fn write_each<A: Allocator + Clone>(
    table: &mut Table<Path<A>, A>,
    log: &mut Log<Path<A>, A>,
    disabled: Families,
    updates: &[Applied<A>],
) -> Result<Families, AllocError>
    ensures routes { IfOk result (λ after. enabled_in after table.new
        ≡ after_updates (map applied_value updates.now) (enabled_in disabled table.old)) }
    ensures outside { OnOk result (AreOutside disabled (keys_of (routes_in table.old))
        → AreOutside disabled (keys_of (routes_in table.new))) }
    ensures rooms { OnOk result ((q : Destination) → HasRoom destination_cmp table.new q
        → HasRoom destination_cmp table.old q
        ⊎ IsTrue (is_member destination_eq (removed_by (map applied_value updates.now)) q)) }
    ensures back { LeadsBack log.new.items table.new log.old.items table.old }
    ensures noted { HasEach log.old.items table.old
        → HasEach log.new.items table.new }
{
    let mut after = disabled;
    for update in updates {
        let _ = table.len(); // For the proof: it says that destinations ascend.
        write_all(table, log, after, &update.changes)?;
        after = after.union(update.disabled);
    }
    Ok(after)
}

/// Takes the room of the destinations away that any of them removes.
fn sweep_each<A: Allocator + Clone>(table: &mut Table<Path<A>, A>, updates: &[Applied<A>])
    ensures same { routes_in table.new ≡ routes_in table.old }
    ensures rooms { (q : Destination) → HasRoom destination_cmp table.new q
        → HasRoom destination_cmp table.old q }
    ensures swept { All (λ p. HasRoom destination_cmp table.new p → ⊥)
        (removed_by (map applied_value updates.now)) }
{
    for update in updates {
        sweep_all(table, &update.changes.remove);
    }
}

/// Removes the routes of the families that are disabled after UPDATEs. Those that were disabled
/// before have none, and where there are no others it doesn't look at the routes.
fn drop_disabled<A: Allocator>(table: &mut Table<Path<A>, A>, before: Families, after: Families)
    requires full { HasNoRoom destination_cmp table.old }
    requires outside { AreOutside before (keys_of (routes_in table.old)) }
    ensures routes { routes_in table.new
        ≡ entries_outside after (routes_in table.old) }
    ensures full { HasNoRoom destination_cmp table.new }
{
    if after != before {
        drop_families(table, after);
    }
}
