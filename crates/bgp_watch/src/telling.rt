//! After which records Established is told last.

ghost use Rattle.std.specs.Prelude.{◌≡◌, map};
ghost use Rattle.mrt.specs.Reader.{shown_of};
ghost use Rattle.bgp_watch.specs.LastTold.{IsLastTold, last_with};

use bgp_machine::Fsm;
use bgp_reason::{Told, records_tell_one_by_one};
use mrt::Record;

/// Returns the length of the longest front of records that tells Established, if after so many
/// records this state is told and this length was the longest before.
fn last_with(last: usize, count: usize, state: Fsm) -> usize
    ensures { result ≡ last_with last count state }
{
    match state {
        Fsm::Established => count,
        Fsm::Idle | Fsm::Connect | Fsm::Active | Fsm::OpenSent | Fsm::OpenConfirm => last,
    }
}

/// Returns the length of the longest front of the records after which Established is told: 0 if
/// there is none. No longer one has an end in Established.
pub fn last_told(records: &[Record<'_>]) -> usize
    ensures { IsLastTold (map shown_of records.now) result }
{
    records_tell_one_by_one();
    let mut told = Told::nothing();
    let mut last = 0;
    let mut count = 0;
    for shown in records {
        count += 1;
        told = told.with(count as u64, shown);
        last = last_with(last, count, told.state);
    }
    last
}
