//! Pairs of addresses for which a reader skipped records.

ghost use Rattle.std.specs.Prelude.{◌≡◌, slice_get};
ghost use Rattle.mrt.specs.Progress.{with_pair};
ghost use Rattle.mrt.specs.Reader.{places_of};

use crate::record::Endpoints;
use arrayvec::ArrayVec;

/// How many different pairs of addresses are kept.
pub const MOST_OTHERS: usize = 9;

/// Adds a pair of addresses, unless it is there or there is no room for it.
pub(crate) fn add_pair(others: &mut ArrayVec<Endpoints, MOST_OTHERS>, ends: Endpoints)
    ensures { others.new.items ≡ with_pair others.old.items ends }
{
    if !others.is_full() && !others.as_slice().contains(&ends) {
        others.push(ends);
    }
}

/// Returns the pair at an index, if there is one.
pub(crate) fn pair_at(others: &[Endpoints], index: usize) -> Option<Endpoints>
    ensures { result ≡ slice_get others.now index }
{
    others.get(index).copied()
}

/// Returns the pairs, and `None` in each place that is left.
pub(crate) fn in_places(others: &[Endpoints]) -> [Option<Endpoints>; MOST_OTHERS]
    ensures { result ≡ places_of others.now }
{
    [
        pair_at(others, 0),
        pair_at(others, 1),
        pair_at(others, 2),
        pair_at(others, 3),
        pair_at(others, 4),
        pair_at(others, 5),
        pair_at(others, 6),
        pair_at(others, 7),
        pair_at(others, 8),
    ]
}
