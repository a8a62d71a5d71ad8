//! The highest state that records tell.

ghost use Rattle.std.specs.Prelude.{◌≡◌, map};
ghost use Rattle.mrt.specs.Reader.{shown_of};
ghost use Rattle.bgp_check_text.specs.Highest.{highest_state, new_state};

use mrt::Record;

/// The number of the state to which a record changes: 0 where it is no change.
fn new_state(told: &Record<'_>) -> u16
    ensures { result ≡ new_state (shown_of told.now) }
{
    match *told {
        Record::Change(_, _, new) => new,
        Record::In(..) | Record::Out(..) => 0,
    }
}

/// The number of the highest state to which one of these records changes (RFC 6396, 4.4.1): 0 where
/// none does.
pub(crate) fn highest_state(records: &[Record<'_>]) -> u16
    ensures { result ≡ highest_state (map shown_of records.now) }
{
    let mut highest = 0;
    for record in records {
        highest = highest.max(new_state(record));
    }
    highest
}
