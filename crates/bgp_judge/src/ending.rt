//! The ends of members.

ghost use Rattle.std.specs.Prelude.{◌≡◌, ◌↔◌, ◌+◌, OnOk, IfOk, IsTrue, map};
ghost use Rattle.bgp_machine.specs.Lists.{Has};
ghost use Rattle.bgp_judge.specs.Ends.{end_value, place_of};
ghost use Rattle.bgp_judge.specs.Plain.{AddsEnd, ListsEndsBelow, end_of_member, member_value};

use crate::end::End;
use crate::member::{PlainMember, same_routes};
use bgp_open::Families;
use std::alloc::{AllocError, Allocator};

/// Returns the set of these families.
fn families(v4: bool, v6: bool) -> Families
    ensures { result ≡ record { v4 = v4; v6 = v6 } }
{
    Families { v4, v6 }
}

/// Checks whether both sets have the same families.
fn are_same(families: Families, others: Families) -> bool
    ensures { IsTrue result ↔ (families ≡ others) }
{
    families == others
}

/// Checks whether this is the end of the member's state.
fn ends_so<A: Allocator>(member: &PlainMember<A>, end: &End<A>) -> bool
    ensures { IsTrue result ↔ (end_value end.now ≡ end_of_member member.now) }
{
    if member.state.head.fsm() != end.fsm {
        return false;
    }
    same_routes(&end.rib, &member.state.rib)
}

/// Checks whether the member's end is in the list.
fn has_end<A: Allocator>(ends: &[End<A>], member: &PlainMember<A>) -> bool
    ensures { IsTrue result ↔ Has (λ x. x ≡ end_of_member member.now) (map end_value ends.now) }
{
    for end in ends {
        if ends_so(member, end) {
            return true;
        }
    }
    false
}

/// Adds the member's end, if the member has nothing left to show, just these families are disabled,
/// and the end isn't in the list yet.
fn add_end<A: Allocator + Copy>(
    member: &PlainMember<A>,
    families: Families,
    ends: &mut Vec<End<A>, A>,
) -> Result<(), AllocError>
    ensures { OnOk result (AddsEnd families (member_value member.now)
        (map end_value ends.old.items) (map end_value ends.new.items)) }
{
    if !member.is_free() {
        return Ok(());
    }
    if !are_same(member.state.rib.disabled(), families) {
        return Ok(());
    }
    if has_end(ends.as_slice(), member) {
        return Ok(());
    }
    ends.push(End {
        fsm: member.state.head.fsm(),
        rib: member.state.rib.copy()?,
    })?;
    Ok(())
}

/// Adds the ends of the members with just these families disabled.
fn add_ends<A: Allocator + Copy>(
    members: &[PlainMember<A>],
    families: Families,
    ends: &mut Vec<End<A>, A>,
) -> Result<(), AllocError>
    requires { ListsEndsBelow (place_of families) members.now (map end_value ends.old.items) }
    ensures { OnOk result (ListsEndsBelow (place_of families + 1) members.now
        (map end_value ends.new.items)) }
{
    for member in members {
        add_end(member, families, ends)?;
    }
    Ok(())
}

/// Lists the ends of the members that have nothing left to show, each once, in the order of their
/// disabled families.
pub(crate) fn ends_of<A: Allocator + Copy>(
    alloc: A,
    members: &[PlainMember<A>],
) -> Result<Vec<End<A>, A>, AllocError>
    ensures { IfOk result (λ ends. ListsEndsBelow 4 members.now (map end_value ends.items)) }
{
    let mut ends = Vec::new(alloc);
    add_ends(members, families(false, false), &mut ends)?;
    add_ends(members, families(true, false), &mut ends)?;
    add_ends(members, families(false, true), &mut ends)?;
    add_ends(members, families(true, true), &mut ends)?;
    Ok(ends)
}
