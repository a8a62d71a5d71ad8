//! Reading an UPDATE.

ghost use Rattle.std.specs.Prelude.{◌≡◌, ◌↔◌, None, IfOk, IfSome, IfNone, IsOk};
ghost use Rattle.bgp_update.specs.Allowed.{Allows, AreApart};
ghost use Rattle.bgp_update.specs.Groups.{AreGroups, groups_of};
ghost use Rattle.bgp_open.specs.Families.{no_families};
ghost use Rattle.bgp_update.specs.Outcome.{Outcome, IsOutcome, IsOnlyReset};

use crate::changes::changes_of;
use crate::fields::split_update;
use crate::outcomes::Outcomes;
use crate::subcodes::Subcodes;
use crate::survey::survey_of;
use bgp_attr::FirstAttrs;
use bgp_open::{Families, Link};
use std::alloc::{AllocError, Allocator};

/// Reads an UPDATE that was received over this link, and returns the outcomes that are allowed.
/// Octets that are no whole UPDATE have the one of bad lengths: a reset as Malformed Attribute
/// List.
///
/// MP_REACH_NLRI of IPv4 has a next hop of 4 octets, or of 16 or 32, too, if the link's received
/// form has IPv6 next hops (RFC 8950, 3). Prefixes of the families that this form identifies stand
/// behind path identifiers, and no others do (RFC 7911, 3).
///
/// The attributes are walked over and none is copied. If the session has to be reset, no memory is
/// taken.
pub fn read_update<A: Allocator + Copy>(
    alloc: A,
    link: &Link,
    octets: &[u8],
) -> Result<Outcomes<A>, AllocError>
    ensures exact { IfOk result (λ outcomes. (x : Outcome)
        → Allows outcomes x ↔ IsOutcome link.now octets.now x) }

    // The value has nothing twice: no family is named twice, none where nothing is applied. The
    // routes of the NLRI field are a group and those of MP_REACH_NLRI another; no group is empty.
    ensures apart { IfOk result (λ outcomes. AreApart outcomes.certain outcomes.optional) }
    ensures certain { IfOk result (λ outcomes. IfNone outcomes.changes
        (outcomes.certain ≡ no_families)) }
    ensures optional { IfOk result (λ outcomes. IfNone outcomes.changes
        (outcomes.optional ≡ no_families)) }
    ensures groups { IfOk result (λ outcomes. IfSome outcomes.changes
        (λ changes. AreGroups link.now octets.now (groups_of changes))) }

    // It never runs out of memory if the only outcome is a reset.
    ensures memory { IsOnlyReset link.now octets.now → IsOk result }
{
    let Some(fields) = split_update(octets) else {
        return Ok(only_reset(Subcodes::MALFORMED_ATTRIBUTE_LIST)); // Rule "bad lengths".
    };
    let mut first = FirstAttrs::none();
    let found = survey_of(link, link.received, &fields, &mut first);
    let resets = found.reset_subcodes();
    let mere = found.mere_subcodes();
    if !resets.is_empty() {
        return Ok(only_reset(resets.union(mere)));
    }
    let changes = changes_of(alloc, link, &found, &first)?;
    Ok(Outcomes {
        changes: Some(changes),
        certain: found.certain_families(),
        optional: found.optional_families(),
        reset: mere,
    })
}

/// Returns that the session has to be reset, with one of these subcodes.
fn only_reset<A: Allocator>(reset: Subcodes) -> Outcomes<A>
    ensures changes { result.changes ≡ None }
    ensures certain { result.certain ≡ no_families }
    ensures optional { result.optional ≡ no_families }
    ensures reset { result.reset ≡ reset }
{
    Outcomes {
        changes: None,
        certain: Families::NONE,
        optional: Families::NONE,
        reset,
    }
}
