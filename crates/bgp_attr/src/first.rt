//! The first attribute of each type, which alone counts: what repeats a type is discarded unread
//! (RFC 7606, 3 g).

ghost use Rattle.std.specs.Prelude.{◌≡◌, option_map};
ghost use Rattle.bgp_attr.specs.Field.{attribute_of};
ghost use Rattle.bgp_attr.specs.First.{first_of};
ghost use Rattle.bgp_attr.specs.Split.{attributes_of};

use crate::classes::{AttrVerdict, Side, class_as};
use crate::field::{Attr, Attrs};
use crate::types::AttrType;
use std::marker::Model;

/// The first attribute of a type: none where the field has none.
pub fn first_of(field: &[u8], kind: u8) -> Option<Attr<'_>>
    ensures first { option_map attribute_of result ≡ first_of kind (attributes_of field.entry.now) }
{
    for attr in Attrs::new(field) {
        if attr.kind == kind {
            return Some(attr);
        }
    }
    None
}

/// One more than the greatest number of a type of the table.
const PLACES: usize = 33;

/// The first attribute of each type of the table, borrowed from a field and found by one walk over
/// it. Several paths can be read from it.
#[derive(Debug, Drop)]
pub struct FirstAttrs<'a> {
    /// At the number of each type.
    places: [Option<Attr<'a>>; PLACES],
}

impl<'a> Model for FirstAttrs<'a> {
    ghost use Rattle.std.specs.Prelude.{◌≡◌, ℕ, List, Option, None, IfSome, get_or, length};
    ghost use Rattle.bgp_attr.specs.declared.field.Attr as attr;

    ghost Value = { List (Option attr.Attr) };

    ghost view = { λ f. f.places };

    ghost invariant = { λ f. (length f.places ≡ 33)
        × ((k : ℕ) → IfSome (get_or f.places k None) (λ a. a.kind ≡ k)) };
}

impl<'a> FirstAttrs<'a> {
    ghost use Rattle.std.specs.Prelude.{IfSome, None};
    ghost use Rattle.bgp_attr.specs.declared.classes.AttrVerdict.TheVariants.{Good};
    ghost use Rattle.bgp_attr.specs.Class.{strongest, value_rows};
    ghost use Rattle.bgp_attr.specs.First.{first_at, first_by_type, value_by_type, with_next};
    ghost use Rattle.bgp_attr.specs.declared.types.AttrType.{AttrType};
    ghost use Rattle.bgp_attr.specs.Types.{type_number};

    /// Of no attribute yet.
    pub fn none() -> FirstAttrs<'a>
        ensures none { (t : AttrType) → first_at result t ≡ None }
    {
        FirstAttrs {
            places: [None; PLACES],
        }
    }

    /// Those of this field.
    pub fn new(field: &'a [u8]) -> FirstAttrs<'a>
        ensures first { first_at result ≡ first_by_type (attributes_of field.entry.now) }
    {
        let mut first = FirstAttrs::none();
        for attr in Attrs::new(field) {
            first.note(attr);
        }
        first
    }

    /// Notes the next attribute of the field: it counts where none of its type was noted before.
    pub fn note(&mut self, attr: Attr<'a>)
        ensures next { (t : AttrType)
            → first_at self.new t ≡ with_next (first_at self.old) (attribute_of attr.entry) t }
    {
        let place = usize::from(attr.kind);
        if place < PLACES && self.places[place].is_none() {
            self.places[place] = Some(attr);
        }
    }

    /// The first attribute of this type.
    pub fn get(&self, attr_type: AttrType) -> Option<Attr<'a>>
        ensures first { option_map attribute_of result ≡ first_at self.now attr_type }
        ensures kind { IfSome result (λ a. a.kind ≡ type_number attr_type) }
    {
        self.places[usize::from(attr_type.row().number)]
    }

    /// The first attribute of this type, if it is of class Good: its value counts.
    #[inline(always)]
    #[tactic(auto, using(crate::proofs::GoodRows::class_is))]
    pub fn good(&self, side: Side, attr_type: AttrType) -> Option<Attr<'a>>
        ensures value { option_map (λ a. a.value.now) result
            ≡ value_by_type side (first_at self.now) attr_type }
        ensures rows { IfSome result
            (λ a. strongest (value_rows side attr_type a.value.now) ≡ Good) }
    {
        let attr = self.get(attr_type)?;
        if class_as(side, attr_type, &attr) != Some(AttrVerdict::Good) {
            return None;
        }
        Some(attr)
    }
}
