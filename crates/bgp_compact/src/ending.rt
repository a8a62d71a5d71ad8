//! The ends of members.

ghost use Rattle.std.specs.Prelude.{◌≡◌, ◌++◌, [], OnOk, IfOk, map};
ghost use Rattle.bgp_open.specs.declared.families.Families.{Families as TheFamilies};
ghost use Rattle.bgp_rib.specs.Routes.{routes_without};
ghost use Rattle.bgp_judge.specs.Ends.{end_value};
ghost use Rattle.bgp_compact.specs.Parts.{end_at, ends_in, kept};

use crate::base::Base;
use bgp_judge::End;
use bgp_open::Families;
use bgp_prefix::Family;
use bgp_rib::RibIn;
use std::alloc::{AllocError, Allocator};

/// Disables families.
fn disable<A: Allocator>(rib: &mut RibIn<A>, families: Families)
    ensures { rib.new ≡ routes_without families rib.old }
{
    if families.v4 {
        rib.disable(Family::V4);
    }
    if families.v6 {
        rib.disable(Family::V6);
    }
}

/// The routes without those of some families, which are disabled.
fn routes_of<A: Allocator + Copy>(
    table: &RibIn<A>,
    disabled: Families,
) -> Result<RibIn<A>, AllocError>
    ensures { IfOk result (λ rib. rib ≡ routes_without disabled table.now) }
{
    let mut rib = table.copy()?;
    disable(&mut rib, disabled);
    Ok(rib)
}

/// Adds the end of the members of the base that have these families disabled, if there are any.
fn push_end<A: Allocator + Copy>(
    is_there: bool,
    base: Base,
    table: &RibIn<A>,
    disabled: Families,
    ends: &mut Vec<End<A>, A>,
) -> Result<(), AllocError>
    ensures { OnOk result (map end_value ends.new.items
        ≡ map end_value ends.old.items ++ kept is_there (end_at base table.now disabled) []) }
{
    if !is_there {
        return Ok(());
    }
    ends.push(End {
        fsm: base.head.fsm(),
        rib: routes_of(table, disabled)?,
    })?;
    Ok(())
}

fn families(v4: bool, v6: bool) -> Families
    ensures { result ≡ record { v4 = v4; v6 = v6 } }
{
    Families { v4, v6 }
}

/// The ends of the members of the base, in the order of their disabled families.
#[tactic(auto, using(crate::proofs::FourEnds::four_ends))]
pub(crate) fn ends_of<A: Allocator + Copy>(
    alloc: A,
    base: Base,
    table: &RibIn<A>,
) -> Result<Vec<End<A>, A>, AllocError>
    ensures { IfOk result (λ ends. map end_value ends.items ≡ ends_in base table.now) }
{
    let mut ends = Vec::new(alloc);
    push_end(
        base.sets.none,
        base,
        table,
        families(false, false),
        &mut ends,
    )?;
    push_end(base.sets.v4, base, table, families(true, false), &mut ends)?;
    push_end(base.sets.v6, base, table, families(false, true), &mut ends)?;
    push_end(base.sets.both, base, table, families(true, true), &mut ends)?;
    Ok(ends)
}
