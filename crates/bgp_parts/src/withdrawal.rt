//! Where the routes that an UPDATE announces are withdrawn in its place (RFC 7606, 2).

ghost use Rattle.std.specs.Prelude.{◌≡◌, ◌↔◌, ℕ, List, IsTrue, map};
ghost use Rattle.std.specs.List.{list_any};
ghost use Rattle.bgp_attr.specs.declared.classes.AttrVerdict.TheVariants.{Withdraw};
ghost use Rattle.bgp_attr.specs.Class.{class_of};
ghost use Rattle.bgp_attr.specs.Field.{attribute_of};
ghost use Rattle.bgp_attr.specs.Types.{type_of};
ghost use Rattle.bgp_parts.specs.UpdateParts.{AreUpdateParts, shown_part};
ghost use Rattle.bgp_parts.specs.Withdrawal.{fault_withdraws, is_flags, is_mild, is_mild_mp};
ghost use Rattle.bgp_parts.specs.Withdrawal.{IsWithdrawal, is_repeat, withdraws};
ghost use Rattle.bgp_update.specs.Found.{is_class, side_of};

use crate::attribute::{AttributeFault, state_fault};
use crate::laws::parts_tell_withdrawals;
use crate::update::UpdatePart;
use bgp_attr::{Attr, AttrType, AttrVerdict, class};
use bgp_open::Link;
use bgp_update::side;

fn is_repeat(fault: AttributeFault) -> bool
    ensures { result ≡ is_repeat fault }
{
    matches!(fault, AttributeFault::Repeated)
}

fn is_flags(fault: AttributeFault) -> bool
    ensures { result ≡ is_flags fault }
{
    matches!(fault, AttributeFault::Flags)
}

/// Whether nothing but its bits is wrong of an MP attribute in such a state, or that its family
/// isn't in use.
fn is_mild(fault: Option<AttributeFault>) -> bool
    ensures { result ≡ is_mild fault }
{
    match fault {
        None | Some(AttributeFault::NotInUse(_)) => true,
        Some(_) => false,
    }
}

/// Whether the attribute is such an MP attribute.
fn is_mild_mp(link: &Link, attr: &Attr<'_>) -> bool
    ensures { result ≡ is_mild_mp link.now.families link.now.received (type_of attr.now.kind)
        (attribute_of attr.now) }
{
    let Some(attr_type) = AttrType::of(attr.kind) else {
        return false;
    };
    let fault = state_fault(link.families, link.received, attr_type, attr);
    attr_type.is_multiprotocol() && is_mild(fault)
}

/// Whether the attribute's class is Withdraw.
fn is_withdrawn(link: &Link, attr: &Attr<'_>) -> bool
    ensures { result ≡ is_class Withdraw (class_of (side_of link.now) (attribute_of attr.now)) }
{
    matches!(class(side(link), attr), Some(AttrVerdict::Withdraw))
}

/// Whether a fault of an attribute asks for it.
fn fault_withdraws(link: &Link, attr: &Attr<'_>, fault: AttributeFault) -> bool
    ensures { result ≡ fault_withdraws link.now (attribute_of attr.now) fault }
{
    !is_repeat(fault) && (is_withdrawn(link, attr) || (is_flags(fault) && is_mild_mp(link, attr)))
}

/// Whether a part asks for it.
fn withdraws(link: &Link, part: &UpdatePart<'_>) -> bool
    ensures { result ≡ withdraws link.now (shown_part part.now) }
{
    match part {
        UpdatePart::Faulty(attr, fault) => fault_withdraws(link, attr, *fault),
        UpdatePart::AttributesCut | UpdatePart::Missing(_) => true,
        UpdatePart::Overrun(kind) => *kind != 14 && *kind != 15,
        UpdatePart::LengthsRunOver
        | UpdatePart::WithdrawnMalformed
        | UpdatePart::NlriMalformed
        | UpdatePart::BaseNotInUse => false,
    }
}

/// Whether one of the parts asks for it.
fn some_withdraws(link: &Link, parts: &[UpdatePart<'_>]) -> bool
    ensures { result ≡ list_any (λ part. withdraws link.now (shown_part part)) parts.now }
{
    parts.iter().any(|part| withdraws(link, part))
}

/// Whether an UPDATE with these parts, in the link's received form, has a fault for which its routes
/// are withdrawn where it is applied, in place of being announced (RFC 7606, 2).
pub fn is_withdrawal(link: &Link, parts: &[UpdatePart<'_>]) -> bool
    ensures { (octets : List ℕ)
        → AreUpdateParts link.now link.now.received octets (map shown_part parts.now)
        → IsTrue result ↔ IsWithdrawal link.now octets }
{
    parts_tell_withdrawals();
    some_withdraws(link, parts)
}
