//! The order of prefixes: by family, IPv4 before IPv6, then by address, then by length.

ghost use Rattle.std.proofs.Common.{rules};
ghost use Rattle.std.specs.Prelude.{◌≡◌, ◌++◌, true};
ghost use Rattle.std.specs.Cmp.Rules.{comparing, hashing};
ghost use Rattle.std.specs.Cmp.{partial_order_from_own_ties};
ghost use Rattle.std.specs.Ordering.{as_partial_cmp};
ghost use Rattle.std.specs.Hash as fed;
ghost use Rattle.bgp_prefix.specs.Prefix.{PrefixBits, prefix_length};
ghost use Rattle.bgp_prefix.specs.PrefixOrder.{prefix_cmp, prefix_eq, family_rank, prefix_number};

use crate::prefix::Prefix;
use std::cmp::Ordering;
use std::hash::{Hash, Hasher};

impl PartialEq for Prefix {
    ghost eq = { prefix_eq };

    ghost laws = { Prim.search (comparing, rules) };

    fn eq(&self, other: &Prefix) -> bool {
        self.family() == other.family()
            && self.number() == other.number()
            && self.length() == other.length()
    }
}

impl Eq for Prefix {
    ghost laws = { Prim.search (comparing, rules) };
}

impl PartialOrd for Prefix {
    ghost partial_cmp = { as_partial_cmp prefix_cmp };

    ghost laws = { partial_order_from_own_ties
        (Prim.search (comparing, rules)) (Prim.search (comparing, rules)) };

    fn partial_cmp(&self, other: &Prefix) -> Option<Ordering> {
        Some(self.cmp(other))
    }
}

impl Ord for Prefix {
    ghost cmp = { prefix_cmp };

    ghost total = { Prim.search (comparing, rules) };

    ghost matches_partial_cmp = { Prim.search (comparing, rules) };

    ghost matches_eq = { Prim.search (comparing, rules) };

    #[tactic(auto, using(crate::proofs::OrderByHalves::by_numbers))]
    fn cmp(&self, other: &Prefix) -> Ordering {
        if self.family() != other.family() {
            return self.family().cmp(&other.family());
        }
        let (front, others) = (self.front(), other.front());
        if front != others {
            return front.cmp(&others); // Seldom does an order need more.
        }
        let by_back = self.back().cmp(&other.back());
        by_back.then(self.length().cmp(&other.length()))
    }
}

impl Hash for Prefix {
    ghost hash_input = { λ prefix. fed.u8 (family_rank prefix)
        ++ fed.u128 (prefix_number prefix) ++ fed.u8 (prefix_length prefix) };

    ghost respects_eq = { Prim.search (hashing, rules) };

    fn hash<H: Hasher>(&self, state: &mut H) {
        (self.family() as u8).hash(state);
        self.number().hash(state);
        self.length().hash(state);
    }
}
