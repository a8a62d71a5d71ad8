//! Sets of sets of disabled families.

ghost use Rattle.std.specs.Prelude.{◌≡◌, ◌↔◌, ◌⊎◌, ◌||◌, IsTrue};
ghost use Rattle.bgp_open.specs.declared.families.Families.{Families as TheFamilies};
ghost use Rattle.bgp_compact.specs.Disabled.{holds, no_sets, only_none, shifted_by};

use bgp_open::Families;

/// Sets of families that members have disabled, a flag for each of the four sets.
#[derive(Clone, Copy)]
pub(crate) struct DisabledSets {
    /// No family is disabled.
    pub none: bool,
    /// IPv4 alone is.
    pub v4: bool,
    /// IPv6 alone is.
    pub v6: bool,
    /// Both are.
    pub both: bool,
}

/// One or the other.
pub(crate) fn or(a: bool, b: bool) -> bool
    ensures { result ≡ a || b }
{
    a || b
}

impl DisabledSets {
    /// No set.
    pub(crate) fn empty() -> DisabledSets
        ensures { result ≡ no_sets }
    {
        DisabledSets {
            none: false,
            v4: false,
            v6: false,
            both: false,
        }
    }

    /// The set without a family alone.
    pub(crate) fn only_none() -> DisabledSets
        ensures { result ≡ only_none }
    {
        DisabledSets {
            none: true,
            v4: false,
            v6: false,
            both: false,
        }
    }

    /// Whether there is none.
    pub(crate) fn is_empty(self) -> bool
        ensures yes { IsTrue result → (d : TheFamilies) → ¬ IsTrue (holds self d) }
        ensures no { ¬ IsTrue result → (d : TheFamilies) × IsTrue (holds self d) }
    {
        if self.none {
            return false;
        }
        if self.v4 {
            return false;
        }
        if self.v6 {
            return false;
        }
        !self.both
    }

    /// The sets of both.
    pub(crate) fn union(self, others: DisabledSets) -> DisabledSets
        ensures { (d : TheFamilies)
            → IsTrue (holds result d) ↔ (IsTrue (holds self d) ⊎ IsTrue (holds others d)) }
    {
        DisabledSets {
            none: or(self.none, others.none),
            v4: or(self.v4, others.v4),
            v6: or(self.v6, others.v6),
            both: or(self.both, others.both),
        }
    }

    /// Each set, with these families besides.
    pub(crate) fn shifted(self, families: Families) -> DisabledSets
        ensures { result ≡ shifted_by families self }
    {
        match (families.v4, families.v6) {
            (false, false) => self,
            (true, false) => DisabledSets {
                none: false,
                v4: or(self.none, self.v4),
                v6: false,
                both: or(self.v6, self.both),
            },
            (false, true) => DisabledSets {
                none: false,
                v4: false,
                v6: or(self.none, self.v6),
                both: or(self.v4, self.both),
            },
            (true, true) => DisabledSets {
                none: false,
                v4: false,
                v6: false,
                both: or(or(self.none, self.v4), or(self.v6, self.both)),
            },
        }
    }
}
