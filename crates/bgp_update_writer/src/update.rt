//! What an UPDATE is to say, and writing it.

ghost use Rattle.std.specs.Prelude.{◌≡◌, ◌++◌, ◌+◌, ◌↔◌, ◌<◌, IsTrue, OnOk, OnErr, Err, All};
ghost use Rattle.std.specs.Prelude.{length, drop, vec_len, vec_capacity};
ghost use Rattle.bgp_wire.specs.Header.{limit_with};
ghost use Rattle.bgp_wire.specs.Framing.{IsFrame};
ghost use Rattle.bgp_update.specs.Clean.{IsClean};
ghost use Rattle.bgp_update_writer.specs.Update.{family_of_update, update_value};
ghost use Rattle.bgp_update_writer.specs.Written.{update_octets};
ghost use Rattle.bgp_update_writer.specs.Refusals.{IsFamilyUsed, IsHopOf, IsSendable, IsTooLarge};
ghost use Rattle.bgp_update_writer.specs.Refusals.{IsTakenAsMeant, update_number};
ghost use Rattle.bgp_update_writer.specs.Applied.{IsJustApplied, changes_of_update};

use crate::lengths::measured;
use crate::writing::put_update;
use bgp_attr::is_for_peer;
use bgp_open::Link;
use bgp_path::{NextHop, Path};
use bgp_prefix::{Family, Prefix};
use bgp_update::side;
use std::alloc::{Allocator, Global};
use thiserror::Error;

/// What an UPDATE is to say: prefixes of one family are reachable by a path, or no more. No prefix
/// at all is allowed.
#[derive(Clone, Copy)]
pub enum Update<'a, A: Allocator = Global> {
    /// The prefixes are reachable by this path.
    Announce {
        /// The family of the prefixes.
        family: Family,
        /// What is reachable.
        prefixes: &'a [Prefix],
        /// By which path.
        path: &'a Path<A>,
    },
    /// The prefixes are reachable no more.
    Withdraw {
        /// The family of the prefixes.
        family: Family,
        /// What is not reachable.
        prefixes: &'a [Prefix],
    },
}

/// Why an UPDATE isn't written.
#[derive(Clone, Copy, Debug, PartialEq, Eq, Error)]
pub enum UpdateFault {
    /// The message would have more octets than one may have that is sent to this peer: 65535 where
    /// it offers extended messages (RFC 8654, 4), else 4096 (RFC 4271, 4.1).
    #[error("the UPDATE would have more octets than a message may have")]
    TooLarge = 1,
    /// The session doesn't exchange routes of the family.
    #[error("the session exchanges no routes of this family")]
    FamilyNotInUse = 2,
    /// A prefix or the next hop isn't of the family, the peer would discard an attribute, a large
    /// community stands twice (RFC 8092, 3), or the peer expects path identifiers before prefixes
    /// of the family (RFC 7911, 3), which aren't written yet.
    #[error("the peer would not take the UPDATE as it is meant")]
    NotClean = 3,
    /// There was no memory for it.
    #[error("out of memory")]
    Memory = 4,
}

impl UpdateFault {
    /// Returns the fault's number: 1 for too many octets, 2 for the family, 3 for what isn't clean,
    /// 4 for memory.
    pub fn number(self) -> u8
        ensures { result ≡ update_number self }
    {
        self as u8
    }
}

impl<'a, A: Allocator> Update<'a, A> {
    /// Returns the family that it names.
    pub fn family(&self) -> Family
        ensures { result ≡ family_of_update (update_value self.now) }
    {
        match self {
            Update::Announce { family, .. } => *family,
            Update::Withdraw { family, .. } => *family,
        }
    }
}

/// Checks whether each prefix is of the family.
fn are_of_family(family: Family, prefixes: &[Prefix]) -> bool
    ensures { IsTrue result ↔ All (λ prefix. prefix.family ≡ family) prefixes.now }
{
    prefixes.iter().all(|prefix| prefix.family() == family)
}

/// Checks whether a next hop can stand in an announcement of the family (RFC 4271, 5.1.3; RFC 2545,
/// 3). An IPv6 next hop of IPv4 routes (RFC 8950) can't: those are written in the NLRI field.
fn is_hop_of(family: Family, hop: NextHop) -> bool
    ensures { IsTrue result ↔ IsHopOf family hop }
{
    match (family, hop) {
        (Family::V4, NextHop::V4(_)) => true,
        (Family::V6, NextHop::V6(_)) => true,
        (Family::V6, NextHop::V6WithLinkLocal(..)) => true,
        _ => false,
    }
}

/// Checks whether the update may be sent: the peer expects no path identifiers, and takes it as it
/// is meant.
fn is_sendable<A: Allocator>(link: &Link, update: &Update<'_, A>) -> bool
    ensures { IsTrue result ↔ IsSendable link.now (update_value update.now) }
{
    !link.sent.identified.contains(update.family()) && is_taken_as_meant(link, update)
}

/// Checks whether the peer takes the update as it is meant.
fn is_taken_as_meant<A: Allocator>(link: &Link, update: &Update<'_, A>) -> bool
    ensures { IsTrue result ↔ IsTakenAsMeant link.now (update_value update.now) }
{
    match update {
        Update::Announce {
            family,
            prefixes,
            path,
        } => {
            are_of_family(*family, prefixes)
                && is_hop_of(*family, path.parts().next_hop)
                && is_for_peer(side(link), path)
        }
        Update::Withdraw { family, prefixes } => are_of_family(*family, prefixes),
    }
}

/// Appends the UPDATE that says this, in one message: IPv4 in the base fields, IPv6 in an MP
/// attribute, which comes first. After a fault the vector is as before.
///
/// The faults are looked for in this order: the family, what isn't clean, too many octets, memory.
pub fn write_update<A: Allocator, B: Allocator>(
    link: &Link,
    update: &Update<'_, B>,
    out: &mut Vec<u8, A>,
) -> Result<(), UpdateFault>
    ensures ok { OnOk result (out.new.items
        ≡ out.old.items ++ update_octets link.now (update_value update.now)) }

    // What was appended is a whole frame and a clean UPDATE, whose one outcome, wherever it is
    // received, is that it is applied as it is meant.
    ensures frame { OnOk result
        (IsFrame (limit_with link.now.extended) (drop (length out.old.items) out.new.items)) }
    ensures clean { OnOk result (IsClean link.now (drop (length out.old.items) out.new.items)) }
    ensures outcome { OnOk result (IsJustApplied link.now
        (drop (length out.old.items) out.new.items) (changes_of_update (update_value update.now))) }

    ensures err { OnErr result (out.new.items ≡ out.old.items) }
    ensures family { (result ≡ Err UpdateFault.FamilyNotInUse)
        ↔ (¬ IsFamilyUsed link.now (update_value update.now)) }
    ensures not_clean { (result ≡ Err UpdateFault.NotClean)
        ↔ (IsFamilyUsed link.now (update_value update.now)
        × (¬ IsSendable link.now (update_value update.now))) }
    ensures too_large { (result ≡ Err UpdateFault.TooLarge)
        ↔ (IsFamilyUsed link.now (update_value update.now)
        × IsSendable link.now (update_value update.now)
        × IsTooLarge link.now (update_value update.now)) }
    ensures memory { result ≡ Err UpdateFault.Memory → vec_capacity out.old
        < vec_len out.old + length (update_octets link.now (update_value update.now)) }
{
    if !link.families.contains(update.family()) {
        return Err(UpdateFault::FamilyNotInUse);
    }
    if !is_sendable(link, update) {
        return Err(UpdateFault::NotClean);
    }
    let Some(lengths) = measured(link, update) else {
        return Err(UpdateFault::TooLarge);
    };
    if let Err(_) = out.reserve(usize::from(lengths.message())) {
        return Err(UpdateFault::Memory);
    }
    put_update(out, link, update, lengths);
    Ok(())
}
