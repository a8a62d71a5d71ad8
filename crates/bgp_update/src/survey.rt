//! What an UPDATE comes to, before it is decided what to do about it.

ghost use Rattle.std.specs.Prelude.{◌≡◌, None};
ghost use Rattle.bgp_attr.specs.First.{first_at, first_by_type, has_repeats};
ghost use Rattle.bgp_attr.specs.Split.{attributes_of};
ghost use Rattle.bgp_attr.specs.declared.types.AttrType.{AttrType};
ghost use Rattle.bgp_update.specs.Fields.{sections_of};
ghost use Rattle.bgp_update.specs.Found.{found_by_form, is_repeated, mp_found};
ghost use Rattle.bgp_update.specs.MpShown.{contents_read, type_of_mp};
ghost use Rattle.bgp_update.specs.Surveyed.{found_by, mp_found_by};

use crate::destinations::DestinationField;
use crate::fields::Fields;
use crate::link_side::side;
use crate::mp::{MpState, MpType, has_other_bits, mp_state};
use crate::pass::{Pass, is_repeated, pass_over};
use bgp_attr::{FirstAttrs, Tail};
use bgp_open::{Family, Link, RouteForm};

/// An MP attribute, by its first occurrence.
#[derive(Clone, Copy)]
pub(crate) struct MpSurvey<'a> {
    pub(crate) state: MpState<'a>,
    /// Its bits are in conflict with its type.
    pub(crate) other_bits: bool,
    /// Its type stands more than once.
    pub(crate) is_repeated: bool,
}

/// The facts that the rules speak of. It borrows all octets, and takes no memory.
#[derive(Clone, Copy)]
pub(crate) struct Survey<'a> {
    /// The Withdrawn Routes field.
    pub(crate) withdrawn: DestinationField<'a>,
    /// The NLRI field.
    pub(crate) nlri: DestinationField<'a>,
    /// MP_REACH_NLRI.
    pub(crate) reach: MpSurvey<'a>,
    /// MP_UNREACH_NLRI.
    pub(crate) unreach: MpSurvey<'a>,
    /// The attributes, walked over once.
    pub(crate) pass: Pass,
    /// What stands after the last whole attribute.
    pub(crate) tail: Option<Tail>,
}

/// Surveys an UPDATE whose routes are spelled in this form, and notes the first attribute of each
/// type.
///
/// Those have many octets, so the caller lends the room for them.
pub(crate) fn survey_of<'a>(
    link: &Link,
    form: RouteForm,
    fields: &Fields<'a>,
    first: &mut FirstAttrs<'a>,
) -> Survey<'a>
    requires none { (t : AttrType) → first_at first.old t ≡ None }
    ensures found { found_by result ≡ found_by_form link.now form (sections_of fields.now) }
    ensures first { first_at first.new
        ≡ first_by_type (attributes_of (sections_of fields.now).attributes) }
{
    let field = fields.attributes;
    let (pass, tail) = pass_over(side(link), field, first);
    Survey {
        withdrawn: DestinationField::new(form, Family::V4, fields.withdrawn),
        nlri: DestinationField::new(form, Family::V4, fields.nlri),
        reach: mp_survey(
            link,
            form,
            MpType::Reach,
            field,
            first,
            pass.types.has_repeats,
        ),
        unreach: mp_survey(
            link,
            form,
            MpType::Unreach,
            field,
            first,
            pass.types.has_repeats,
        ),
        pass,
        tail,
    }
}

/// Surveys an MP attribute.
fn mp_survey<'a>(
    link: &Link,
    form: RouteForm,
    mp_type: MpType,
    field: &'a [u8],
    first: &FirstAttrs<'a>,
    repeats: bool,
) -> MpSurvey<'a>
    requires repeats { repeats ≡ has_repeats (attributes_of field.now) }
    requires first { first_at first.now ≡ first_by_type (attributes_of field.now) }
    ensures { mp_found_by result
        ≡ mp_found link.now (contents_read form mp_type) (type_of_mp mp_type)
        (attributes_of field.entry.now) }
{
    let attr_type = mp_type.attr_type();
    let attr = first.get(attr_type);
    MpSurvey {
        state: mp_state(link.families, form, mp_type, attr),
        other_bits: has_other_bits(mp_type, attr),
        is_repeated: repeats_in(field, attr_type.row().number, repeats),
    }
}

/// Checks whether a type stands more than once, which it can only if some type does.
#[tactic(auto, using(crate::proofs::Seen::single))]
fn repeats_in(field: &[u8], kind: u8, repeats: bool) -> bool
    requires { repeats ≡ has_repeats (attributes_of field.now) }
    ensures { result ≡ is_repeated kind (attributes_of field.now) }
{
    if !repeats {
        return false;
    }
    is_repeated(field, kind)
}
