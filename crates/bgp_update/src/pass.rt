//! One walk over the attributes of an UPDATE: what the first of each type is, and which are there.

ghost use Rattle.std.specs.Prelude.{◌≡◌, ◌<◌};
ghost use Rattle.std.specs.Option.{option_or};
ghost use Rattle.bgp_attr.specs.Field.{attribute_of};
ghost use Rattle.bgp_attr.specs.First.{first_at, first_by_type, firsts};
ghost use Rattle.bgp_attr.specs.Split.{attributes_of, rest_of, tail_at};
ghost use Rattle.bgp_attr.specs.declared.types.AttrType.{AttrType};
ghost use Rattle.bgp_update.specs.Found.{classes_found, types_found, is_repeated};
ghost use Rattle.bgp_update.specs.Noted.{classes_of, noted_with, types_of};

use bgp_attr::{Attr, AttrVerdict, Attrs, FirstAttrs, Side, Tail, class};

/// The classes that some first attribute of a type has. Types 14 and 15 are judged apart.
#[derive(Clone, Copy)]
pub(crate) struct Classes {
    pub(crate) reset: bool,
    pub(crate) withdraw: bool,
    /// Its type is neither ATOMIC_AGGREGATE nor AGGREGATOR.
    pub(crate) plain_withdraw: bool,
    pub(crate) discard: bool,
}

/// Which attributes are there.
#[derive(Clone, Copy)]
pub(crate) struct Types {
    pub(crate) origin: bool,
    pub(crate) as_path: bool,
    pub(crate) next_hop: bool,
    /// One of another type than MP_UNREACH_NLRI.
    pub(crate) other: bool,
    /// Some type more than once.
    pub(crate) has_repeats: bool,
}

/// What a walk over the attributes finds.
#[derive(Clone, Copy)]
pub(crate) struct Pass {
    pub(crate) classes: Classes,
    pub(crate) types: Types,
}

impl Classes {
    /// Returns what is found of no attribute.
    const NONE: Classes = Classes {
        reset: false,
        withdraw: false,
        plain_withdraw: false,
        discard: false,
    };

    /// Returns what is found with one attribute more.
    fn noted(self, side: Side, attr: &Attr<'_>) -> Classes
        ensures { classes_of result ≡ noted_with side (classes_of self) (attribute_of attr.now) }
    {
        let verdict = class(side, attr);
        if verdict == Some(AttrVerdict::Good) {
            return self;
        }
        let is_withdrawn = verdict == Some(AttrVerdict::Withdraw);
        Classes {
            reset: self.reset | (verdict == Some(AttrVerdict::Reset)),
            withdraw: self.withdraw | is_withdrawn,
            plain_withdraw: self.plain_withdraw
                | (is_withdrawn & (attr.kind != 6) & (attr.kind != 7)),
            discard: self.discard | (verdict == Some(AttrVerdict::Discard)),
        }
    }
}

/// Returns the index of an attribute type.
fn index_of(kind: u8) -> usize
    ensures same { result ≡ kind }
    ensures below { result < 256 }
{
    usize::from(kind)
}

/// Walks over the attributes of a field, and notes the first of each type. Returns also what stands
/// after the last of them. It takes no memory.
pub(crate) fn pass_over<'a>(
    side: Side,
    field: &'a [u8],
    first: &mut FirstAttrs<'a>,
) -> (Pass, Option<Tail>)
    ensures classes { classes_of result.0.classes
        ≡ classes_found side (firsts (attributes_of field.entry.now)) }
    ensures types { types_of result.0.types ≡ types_found (attributes_of field.entry.now) }
    ensures tail { result.1 ≡ tail_at (rest_of field.entry.now) }
    ensures first { (t : AttrType) → first_at first.new t
        ≡ option_or (first_at first.old t) (first_by_type (attributes_of field.entry.now) t) }
{
    let mut seen = [false; 256];
    let mut classes = Classes::NONE;
    let mut other = false;
    let mut has_repeats = false;
    let mut attrs = Attrs::new(field);
    while let Some(attr) = attrs.next() {
        first.note(attr);
        let index = index_of(attr.kind);
        other |= attr.kind != 15;
        if seen[index] {
            has_repeats = true; // Repeated attributes are discarded unread (RFC 7606, 3 g).
        } else {
            seen[index] = true;
            classes = classes.noted(side, &attr);
        }
    }
    let types = Types {
        origin: seen[1],
        as_path: seen[2],
        next_hop: seen[3],
        other,
        has_repeats,
    };
    (Pass { classes, types }, attrs.tail())
}

/// Checks whether a type stands more than once.
pub(crate) fn is_repeated(field: &[u8], kind: u8) -> bool
    ensures { result ≡ is_repeated kind (attributes_of field.now) }
{
    let mut is_there = false;
    for attr in Attrs::new(field) {
        if attr.kind == kind {
            if is_there {
                return true;
            }
            is_there = true;
        }
    }
    false
}
