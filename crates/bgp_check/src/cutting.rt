//! Where a session is cut.

ghost use Rattle.std.specs.Prelude.{◌≡◌, ◌↔◌, IsTrue, map};
ghost use Rattle.mrt.specs.Reader.{shown_of};
ghost use Rattle.bgp_check.specs.Stretch.{LeavesIdle};
ghost use Rattle.bgp_check.specs.BeforeLeaving.{IsBeforeLeaving};

use mrt::Record;

/// The number of Idle (RFC 6396, 4.4.1).
const IDLE: u16 = 1;

/// Whether the record is a change from Idle to another state.
pub fn leaves_idle(shown: &Record<'_>) -> bool
    ensures { IsTrue result ↔ LeavesIdle (shown_of shown.now) }
{
    match *shown {
        Record::Change(_, old, new) => old == IDLE && new != IDLE,
        Record::In(..) | Record::Out(..) => false,
    }
}

/// How many records stand before the first that leaves Idle: all, if none does.
pub fn before_leaving(records: &[Record<'_>]) -> usize
    ensures { IsBeforeLeaving (map shown_of records.now) result }
{
    let mut count = 0;
    for shown in records {
        if leaves_idle(shown) {
            return count;
        }
        count += 1;
    }
    count
}
