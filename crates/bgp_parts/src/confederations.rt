//! Confederations (RFC 5065): which records of a session show an UPDATE that goes between member
//! systems of one, so that its AS_PATH begins with segments that aren't judged here.

ghost use Rattle.std.specs.Prelude.{◌≡◌, ◌↔◌, IsTrue, map, option_map};
ghost use Rattle.mrt.specs.Reader.{shown_of};
ghost use Rattle.bgp_attr.specs.Field.{attribute_of};
ghost use Rattle.bgp_parts.specs.Confederations.{HasConfederation, ShowsConfederation};
ghost use Rattle.bgp_parts.specs.Confederations.{SomeShowConfederations, begins_in_one};
ghost use Rattle.bgp_parts.specs.Confederations.{is_path_in_one};

use bgp_attr::{Attr, AttrType, first_of};
use bgp_update::split_update;
use mrt::Record;

/// The Segment Type of a sequence of member systems of a confederation (RFC 5065, 3).
const CONFEDERATION_SEQUENCE: u8 = 3;

/// That of a set of them.
const CONFEDERATION_SET: u8 = 4;

/// Whether the value of an AS_PATH begins with a segment of a confederation.
fn begins_in_one(path: &[u8]) -> bool
    ensures { result ≡ begins_in_one path.now }
{
    match path {
        [kind, ..] => matches!(*kind, CONFEDERATION_SEQUENCE | CONFEDERATION_SET),
        [] => false,
    }
}

/// Whether an AS_PATH does, if there is one.
fn is_path_in_one(path: Option<Attr<'_>>) -> bool
    ensures { result ≡ is_path_in_one (option_map attribute_of path.entry) }
{
    match path {
        Some(path) => begins_in_one(path.value),
        None => false,
    }
}

/// Whether the octets are a whole UPDATE whose first AS_PATH begins with a segment of a
/// confederation. Its path attributes are gone through as far as they are whole.
pub fn has_confederation(octets: &[u8]) -> bool
    ensures { IsTrue result ↔ HasConfederation octets.now }
{
    match split_update(octets) {
        Some(fields) => {
            is_path_in_one(first_of(fields.attributes, AttrType::AsPath.row().number))
        }
        None => false,
    }
}

/// Whether a record shows a message, received or sent, that is a whole UPDATE whose first AS_PATH
/// begins with a segment of a confederation.
pub fn shows_confederation(shown: &Record<'_>) -> bool
    ensures { IsTrue result ↔ ShowsConfederation (shown_of shown.now) }
{
    match *shown {
        Record::In(_, octets) | Record::Out(_, octets) => has_confederation(octets),
        Record::Change(..) => false,
    }
}

/// Whether one of the records does.
pub fn some_show_confederations(records: &[Record<'_>]) -> bool
    ensures { IsTrue result ↔ SomeShowConfederations (map shown_of records.now) }
{
    for record in records {
        if shows_confederation(record) {
            return true;
        }
    }
    false
}
