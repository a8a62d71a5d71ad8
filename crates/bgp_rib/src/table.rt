//! A table of destinations, which ascend. A map for each family, with path identifiers and without,
//! keeps the keys small: those of a session without identifiers have no room for one.

ghost use Rattle.std.specs.Prelude.{◌≡◌, ◌≤◌, [], None, not, is_some, filter, length};
ghost use Rattle.std.specs.Prelude.{if◌then◌else◌};
ghost use Rattle.std.specs.Prelude.{◌+◌, ◌<◌, ◌^◌, IfOk, OnOk, OnErr, IsTrue, IsFalse};
ghost use Rattle.std.specs.BTreeMap.{insert_entry, is_at, IsOrdered};
ghost use Rattle.std.specs.Map.{lookup, remove_entry};
ghost use Rattle.std.specs.Option.{option_copied};
ghost use Rattle.bgp_update.specs.Families.{contains};
ghost use Rattle.bgp_rib.specs.DestinationOrder.{destination_cmp};
ghost use Rattle.bgp_rib.specs.Keys.{with_id};
ghost use Rattle.bgp_rib.specs.Rooms.{AreInOrder};

use crate::keys::{Identified, V4Key, V6Key};
use bgp_path::Path;
use bgp_prefix::{Address, Prefix};
use bgp_update::{Destination, Families, PathId};
use std::alloc::{AllocError, Allocator};
use std::collections::{BTreeMap, btree_map};
use std::marker::Model;

/// Destinations and their routes, or `None` where there is room for one.
///
/// It is seen as the list of its entries, in the order of the destinations.
#[derive(Drop)]
pub struct Table<V, A: Allocator> {
    plain_v4: BTreeMap<V4Key, Option<V>, A>,
    identified_v4: BTreeMap<Identified<V4Key>, Option<V>, A>,
    plain_v6: BTreeMap<V6Key, Option<V>, A>,
    identified_v6: BTreeMap<Identified<V6Key>, Option<V>, A>,
}

impl<V, A: Allocator> Model for Table<V, A> {
    ghost use Rattle.std.specs.Prelude.{List, Option, ◌+◌, ◌<◌, ◌^◌, length};
    ghost use Rattle.bgp_update.specs.declared.destination.Destination.{Destination};
    ghost use Rattle.bgp_rib.specs.Keys.{joined};

    ghost Value = { List (Destination × Option V) };

    ghost view = { λ t. joined t.plain_v4.entries t.identified_v4.entries t.plain_v6.entries
        t.identified_v6.entries };

    ghost invariant = { λ t. length t.plain_v4.entries + length t.identified_v4.entries
        + length t.plain_v6.entries + length t.identified_v6.entries < 2 ^ 64 };
}

/// A destination as the key of its map.
enum Key {
    PlainV4(V4Key),
    IdentifiedV4(Identified<V4Key>),
    PlainV6(V6Key),
    IdentifiedV6(Identified<V6Key>),
}

impl Key {
    ghost use Rattle.bgp_rib.specs.Keyed.{destination_of};

    fn of(destination: &Destination) -> Key
        ensures { destination_of result ≡ destination.now }
    {
        let length = destination.prefix.length();
        match destination.prefix.address() {
            Address::V4(address) => {
                let prefix = V4Key::new(address, length);
                match destination.path {
                    None => Key::PlainV4(prefix),
                    Some(id) => Key::IdentifiedV4(Identified { prefix, id }),
                }
            }
            Address::V6(address) => {
                let prefix = V6Key::new(address, length);
                match destination.path {
                    None => Key::PlainV6(prefix),
                    Some(id) => Key::IdentifiedV6(Identified { prefix, id }),
                }
            }
        }
    }
}

impl<V, A: Allocator> Table<V, A> {
    /// A table without entries. It takes no memory.
    pub fn new(alloc: A) -> Table<V, A>
    where
        A: Copy,
        ensures { result ≡ [] }
    {
        Table {
            plain_v4: BTreeMap::new(alloc),
            identified_v4: BTreeMap::new(alloc),
            plain_v6: BTreeMap::new(alloc),
            identified_v6: BTreeMap::new(alloc),
        }
    }

    /// Counts the entries.
    pub fn len(&self) -> usize
        ensures len { result ≡ length self.now }
        ensures ordered { AreInOrder self.now }
    {
        self.plain_v4.len()
            + self.identified_v4.len()
            + self.plain_v6.len()
            + self.identified_v6.len()
    }

    /// Returns what the destination has, if it has an entry.
    pub fn get(&self, destination: &Destination) -> Option<&Option<V>>
        ensures { option_copied result ≡ lookup (is_at (destination_cmp destination.now)) self.now }
    {
        match Key::of(destination) {
            Key::PlainV4(key) => self.plain_v4.get(&key),
            Key::IdentifiedV4(key) => self.identified_v4.get(&key),
            Key::PlainV6(key) => self.plain_v6.get(&key),
            Key::IdentifiedV6(key) => self.identified_v6.get(&key),
        }
    }

    /// Checks whether the destination has an entry.
    pub fn contains(&self, destination: &Destination) -> bool
        ensures { result ≡ is_some (lookup (is_at (destination_cmp destination.now)) self.now) }
    {
        self.get(destination).is_some()
    }

    /// Checks whether an entry of the destination would be one too many to count, which no memory
    /// holds.
    fn is_too_full(&self, destination: &Destination) -> bool
        ensures full { IsTrue result
            → lookup (is_at (destination_cmp destination.now)) self.now ≡ None }
        ensures space { IsFalse result
            → lookup (is_at (destination_cmp destination.now)) self.now ≡ None
            → length self.now + 1 < 2 ^ 64 }
        ensures ordered { AreInOrder self.now }
    {
        self.len() == usize::MAX && !self.contains(destination)
    }

    /// Writes what the destination has, and returns what it had. Only a new entry takes memory.
    pub fn insert(
        &mut self,
        destination: &Destination,
        route: Option<V>,
    ) -> Result<Option<Option<V>>, AllocError>
    where
        V: Drop,
        A: Clone,
        ensures old { IfOk result
            (λ old. old ≡ lookup (is_at (destination_cmp destination.now)) self.old) }
        ensures entries { OnOk result
            (self.new ≡ insert_entry destination_cmp self.old destination.now route) }
        ensures absent { OnErr result
            (lookup (is_at (destination_cmp destination.now)) self.old ≡ None) }
        ensures err { OnErr result (self.new ≡ self.old) }
        ensures was_ordered { AreInOrder self.old }
    {
        if self.is_too_full(destination) {
            return Err(AllocError);
        }
        match Key::of(destination) {
            Key::PlainV4(key) => Ok(self.plain_v4.insert(key, route)?),
            Key::IdentifiedV4(key) => Ok(self.identified_v4.insert(key, route)?),
            Key::PlainV6(key) => Ok(self.plain_v6.insert(key, route)?),
            Key::IdentifiedV6(key) => Ok(self.identified_v6.insert(key, route)?),
        }
    }

    /// Removes the entry of the destination.
    pub fn remove(&mut self, destination: &Destination)
    where
        V: Drop,
        ensures { self.new ≡ remove_entry (is_at (destination_cmp destination.now)) self.old }
    {
        match Key::of(destination) {
            Key::PlainV4(key) => remove_from(&mut self.plain_v4, &key),
            Key::IdentifiedV4(key) => remove_from(&mut self.identified_v4, &key),
            Key::PlainV6(key) => remove_from(&mut self.plain_v6, &key),
            Key::IdentifiedV6(key) => remove_from(&mut self.identified_v6, &key),
        }
    }

    /// Removes all entries.
    pub fn clear(&mut self)
    where
        V: Drop,
        ensures { self.new ≡ [] }
    {
        self.plain_v4.clear();
        self.identified_v4.clear();
        self.plain_v6.clear();
        self.identified_v6.clear();
    }

    /// Removes the entries of these families.
    pub fn clear_families(&mut self, families: Families)
    where
        V: Drop,
        ensures { self.new ≡ filter (λ e. not (contains families e.0.prefix.family)) self.old }
    {
        clear_if(&mut self.plain_v4, families.v4);
        clear_if(&mut self.identified_v4, families.v4);
        clear_if(&mut self.plain_v6, families.v6);
        clear_if(&mut self.identified_v6, families.v6);
    }

    /// Removes the entries without a route.
    pub fn clear_room(&mut self)
    where
        V: Drop,
        ensures entries { self.new ≡ filter (λ e. is_some e.1) self.old }
        ensures ordered { AreInOrder self.new }
        ensures was_ordered { AreInOrder self.old }
    {
        keep_routes(&mut self.plain_v4);
        keep_routes(&mut self.identified_v4);
        keep_routes(&mut self.plain_v6);
        keep_routes(&mut self.identified_v6);
    }

    /// Lends the entries in the order of the destinations.
    pub fn iter(&self) -> TableIter<'_, V>
        ensures rest { result ≡ self.now }
        ensures ordered { AreInOrder self.now }
    {
        TableIter {
            plain_v4: self.plain_v4.iter(),
            identified_v4: self.identified_v4.iter(),
            plain_v6: self.plain_v6.iter(),
            identified_v6: self.identified_v6.iter(),
        }
    }
}

/// Removes the entry of the key.
fn remove_from<K: Ord + Drop, V: Drop, A: Allocator>(map: &mut BTreeMap<K, V, A>, key: &K)
    ensures entries { map.new.entries ≡ remove_entry (is_at (K.cmp key.now)) map.old.entries }
    ensures bound { length map.new.entries ≤ length map.old.entries }
{
    let _ = map.remove(key);
}

/// Removes all entries where the flag is set.
fn clear_if<K: Ord + Drop, V: Drop, A: Allocator>(map: &mut BTreeMap<K, V, A>, gone: bool)
    ensures entries { map.new.entries ≡ if gone then [] else map.old.entries }
    ensures bound { length map.new.entries ≤ length map.old.entries }
{
    if gone {
        map.clear();
    }
}

/// Removes the entries without a route.
fn keep_routes<K: Ord + Drop, V: Drop, A: Allocator>(map: &mut BTreeMap<K, Option<V>, A>)
    ensures entries { map.new.entries ≡ filter (λ e. is_some e.1) map.old.entries }
    ensures bound { length map.new.entries ≤ length map.old.entries }
    ensures ordered { IsOrdered K.cmp map.new }
    ensures was_ordered { IsOrdered K.cmp map.old }
{
    map.retain(|_, route| route.is_some());
}

impl<A: Allocator + Copy> Table<Path<A>, A> {
    /// Returns an equal copy, which shares its paths with this table.
    pub fn copy(&self) -> Result<Table<Path<A>, A>, AllocError>
        ensures { IfOk result (λ copy. copy ≡ self.now) }
    {
        Ok(Table {
            plain_v4: self.plain_v4.clone()?,
            identified_v4: self.identified_v4.clone()?,
            plain_v6: self.plain_v6.clone()?,
            identified_v6: self.identified_v6.clone()?,
        })
    }
}

impl<V: PartialEq, A: Allocator> Table<V, A> {
    ghost use Rattle.std.specs.Prelude.{◌≡◌, ◌&&◌};
    ghost use Rattle.std.specs.Cmp.Lexicographic.{pointwise};
    ghost use Rattle.std.specs.Option.{option_eq};
    ghost use Rattle.bgp_rib.specs.DestinationOrder.{destination_eq};

    /// Checks whether both have the same entries.
    pub fn is_same(&self, other: &Table<V, A>) -> bool
        ensures { result ≡ pointwise (λ p q. destination_eq p.0 q.0 && option_eq V.eq p.1 q.1)
            self.now other.now }
    {
        self.plain_v4 == other.plain_v4
            && self.identified_v4 == other.identified_v4
            && self.plain_v6 == other.plain_v6
            && self.identified_v6 == other.identified_v6
    }
}

/// Lends the entries of a table in the order of their destinations.
///
/// It is seen as the list of those that are left.
#[derive(Drop)]
pub struct TableIter<'a, V> {
    plain_v4: btree_map::Iter<'a, V4Key, Option<V>>,
    identified_v4: btree_map::Iter<'a, Identified<V4Key>, Option<V>>,
    plain_v6: btree_map::Iter<'a, V6Key, Option<V>>,
    identified_v6: btree_map::Iter<'a, Identified<V6Key>, Option<V>>,
}

impl<'a, V> Model for TableIter<'a, V> {
    ghost use Rattle.std.specs.Prelude.{List, Option};
    ghost use Rattle.bgp_update.specs.declared.destination.Destination.{Destination};
    ghost use Rattle.bgp_rib.specs.Keys.{joined};

    ghost Value = { List (Destination × Option V) };

    ghost view = { λ t. joined t.plain_v4 t.identified_v4 t.plain_v6 t.identified_v6 };
}

impl<'a, V> Iterator for TableIter<'a, V> {
    type Item = (Destination, &'a Option<V>);

    ghost use Rattle.std.specs.Prelude.{length};
    ghost use Rattle.std.specs.Iterator.{at_most};
    ghost use Rattle.std.specs.Map.Iter.{TakesFirst};

    ghost next_gives = { TakesFirst (λ p. (p.0, p.1.now)) };

    ghost remaining = { λ s. at_most (length s) };

    fn next(&mut self) -> Option<(Destination, &'a Option<V>)> {
        if let Some((key, route)) = self.plain_v4.next() {
            return Some((Destination::plain(key.prefix()), route));
        }
        if let Some((key, route)) = self.identified_v4.next() {
            return Some((with_id(key.prefix.prefix(), key.id), route));
        }
        if let Some((key, route)) = self.plain_v6.next() {
            return Some((Destination::plain(key.prefix()), route));
        }
        if let Some((key, route)) = self.identified_v6.next() {
            return Some((with_id(key.prefix.prefix(), key.id), route));
        }
        None
    }
}

/// The destination of a prefix and an identifier.
fn with_id(prefix: Prefix, id: PathId) -> Destination
    ensures { result ≡ with_id prefix id }
{
    Destination {
        prefix,
        path: Some(id),
    }
}
