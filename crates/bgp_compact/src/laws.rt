//! Laws: contracts of functions that do nothing.

ghost use Rattle.std.specs.Prelude.{◌≡◌, ◌≤◌, ◌+◌, length};
ghost use Rattle.std.specs.Mem.{type_size};
ghost use Rattle.std.specs.contracts.alloc.Global.{the_row as global_row};
ghost use Rattle.bgp_open.specs.contracts.config.Config.{the_row as config_row};
ghost use Rattle.bgp_rib.specs.contracts.rib_in.RibIn.{the_row as table_row};
ghost use Rattle.bgp_compact.specs.contracts.compact.CompactTracker.{the_row as tracker_row};
ghost use Rattle.bgp_compact.specs.contracts.words.Words.{the_row as words_row};
ghost use Rattle.bgp_compact.specs.Memory.{IsNeverImpossible};
ghost use Rattle.bgp_compact.specs.Table.{EachRunEndsWithTheTable, RecordsMakeOneTable};

use crate::compact::CompactTracker;
use bgp_judge::impossible_only_where_owed;
use bgp_open::{Config, Link};
use std::alloc::{Allocator, Global};

/// Law: a tracker over the program's own allocator takes at most 352 octets, whatever it took: its
/// configuration, at most 128 octets, its words, at most 84, its one table, at most 128, and the 12
/// octets that its alignment asks for, in which nothing is ([`trackers_hold_their_parts_alone`]).
///
/// Words and configuration are `Copy`, so that nothing of them lies elsewhere. What does is the
/// table's own: its routes, and room to note what one UPDATE writes, which stays until the session
/// ends.
pub fn trackers_have_a_fixed_size()
    ensures tracker { type_size (tracker_row global_row ⟦<Global as Allocator>⟧) ≤ 352 }
    ensures config { type_size config_row ≤ 128 }
    ensures words { type_size words_row ≤ 84 }
    ensures table { type_size (table_row global_row ⟦<Global as Allocator>⟧) ≤ 128 }
    ensures alone { type_size (tracker_row global_row ⟦<Global as Allocator>⟧)
        ≡ type_size config_row + type_size words_row
        + type_size (table_row global_row ⟦<Global as Allocator>⟧) + 12 }
{}

/// Law: trackers that have the same allocator, configuration, words and table are the same. So a
/// tracker holds nothing beside these, as a link to a second table or to a copy of its records.
pub fn trackers_hold_their_parts_alone<A: Allocator>(
    tracker: &CompactTracker<A>,
    other: &CompactTracker<A>,
)
    ensures { tracker.now.alloc ≡ other.now.alloc → tracker.now.config ≡ other.now.config
        → tracker.now.words ≡ other.now.words → tracker.now.table ≡ other.now.table
        → tracker.now ≡ other.now }
{}

/// Law: a session's records make at most one table (`specs/Table`). So the table of a tracker that
/// stands for them is the one that they make.
pub fn records_make_one_table()
    ensures { RecordsMakeOneTable }
{}

/// Law: where a run shows a session's records, the routes that it ends with are those of the table
/// that they make, but for the routes of the families that it has disabled.
pub fn each_run_ends_with_the_table()
    ensures { EachRunEndsWithTheTable }
{}

/// Law: a tracker lacks memory at no record at which the verdict is no. So no body of it can answer
/// that memory was refused in a no's place. From a header's length on, on the link that the records
/// tell.
pub fn memory_is_lacked_at_no_impossible_record<A: Allocator + Copy>(
    alloc: A,
    config: &Config,
    link: &Link,
    octets: &[u8],
)
    ensures { 19 ≤ length octets.now → IsNeverImpossible config.now link.now octets.now }
{
    impossible_only_where_owed(alloc, config, link, octets);
}
