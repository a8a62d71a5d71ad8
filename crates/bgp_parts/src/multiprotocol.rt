//! Whether the values of MP_REACH_NLRI and MP_UNREACH_NLRI are right (RFC 4760, 3 and 4; RFC 8950,
//! 4), and lists of destinations.

ghost use Rattle.std.specs.Prelude.{◌≡◌, ◌≤◌, is_some, length};
ghost use Rattle.bgp_update.specs.Destinations.{destinations_of, is_identified};
ghost use Rattle.bgp_parts.specs.AttributeFaults.{mp_contents};

use bgp_attr::AttrType;
use bgp_open::RouteForm;
use bgp_prefix::Family;
use bgp_update::{DestinationField, reach_contents, unreach_contents};

/// The Attribute Type Code of MP_REACH_NLRI.
const MP_REACH_NLRI: u8 = 14;

/// Whether the value of an MP attribute of this type and family is right, where routes are spelled
/// in this form.
pub(crate) fn has_contents(
    form: RouteForm,
    attr_type: AttrType,
    family: Family,
    value: &[u8],
) -> bool
    requires { 3 ≤ length value.now }
    ensures { result ≡ is_some (mp_contents form attr_type family value.now) }
{
    if attr_type.row().number == MP_REACH_NLRI {
        reach_contents(form, family, value).is_some()
    } else {
        unreach_contents(form, family, value).is_some()
    }
}

/// Checks whether a field is a list of destinations of the family, where routes are spelled in this
/// form.
pub(crate) fn are_destinations(form: RouteForm, family: Family, field: &[u8]) -> bool
    ensures { result ≡ is_some (destinations_of (is_identified form family) family field.now) }
{
    DestinationField::new(form, family, field).count().is_some()
}
