//! Large communities (RFC 8092).

ghost use Rattle.std.specs.Prelude.{◌↔◌, IsTrue, Some};
ghost use Rattle.std.specs.List.{IsDistinct};
ghost use Rattle.bgp_path.specs.LargeCommunities.{large_community_text, same_large_community};

use std::fmt;
use std::fmt::Display;

/// A large community (RFC 8092, 3): three numbers of four octets each.
#[derive(Clone, Copy, Debug, PartialEq, Eq)]
pub struct LargeCommunity {
    /// Global Administrator: the AS number of whoever says what the two other numbers mean.
    pub global_administrator: u32,
    /// Local Data Part 1.
    pub local_data_part_1: u32,
    /// Local Data Part 2.
    pub local_data_part_2: u32,
}

/// Its numbers in decimal with colons between them (RFC 8092, 5).
impl Display for LargeCommunity {
    ghost output = { λ community. Some (large_community_text community) };

    fn fmt<W: fmt::Write>(&self, f: &mut fmt::Formatter<W>) -> fmt::Result {
        let global_administrator = self.global_administrator;
        let local_data_part_1 = self.local_data_part_1;
        let local_data_part_2 = self.local_data_part_2;
        write!(
            f,
            "{global_administrator}:{local_data_part_1}:{local_data_part_2}"
        )
    }
}

/// Whether no two of them are equal: a repeat isn't to be sent (RFC 8092, 3).
pub fn are_distinct(communities: &[LargeCommunity]) -> bool
    ensures { IsTrue result ↔ IsDistinct same_large_community communities.now }
{
    let mut rest = communities;
    while let Some((first, others)) = rest.split_first() {
        if others.contains(first) {
            return false;
        }
        rest = others;
    }
    true
}
