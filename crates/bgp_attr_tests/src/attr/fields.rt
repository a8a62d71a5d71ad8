//! The attribute field (RFC 4271, 4.3). (Real ones are split by the program `real_captures`.)

use super::*;

/// A field, its attributes as flags, type and value, and its tail.
struct Field {
    octets: &'static [u8],
    attributes: &'static [(u8, u8, &'static [u8])],
    tail: Option<Tail>,
}

static FIELDS: [Field; 8] = [
    Field {
        octets: &[],
        attributes: &[],
        tail: None,
    },
    Field {
        octets: &[0x40, 1, 1, 0],
        attributes: &[(0x40, 1, &[0])],
        tail: None,
    },
    Field {
        octets: &[0x40, 1, 1, 0, 0x80],
        attributes: &[(0x40, 1, &[0])],
        tail: Some(Tail::ShortHeader),
    },
    Field {
        octets: &[0x40, 1],
        attributes: &[],
        tail: Some(Tail::ShortHeader),
    },
    Field {
        octets: &[0x40, 1, 1, 0, 0x40, 3, 4, 192, 0, 2],
        attributes: &[(0x40, 1, &[0])],
        tail: Some(Tail::Overrun(3)),
    },
    // With Extended Length a header has four octets.
    Field {
        octets: &[0x50, 1, 0],
        attributes: &[],
        tail: Some(Tail::ShortHeader),
    },
    Field {
        octets: &[0x50, 1, 0, 1, 0],
        attributes: &[(0x50, 1, &[0])],
        tail: None,
    },
    Field {
        octets: &[0x50, 1, 1, 0, 0],
        attributes: &[],
        tail: Some(Tail::Overrun(1)),
    },
];

/// Whether the field has just these attributes, and this tail before and after they are taken.
fn splits(field: &Field) -> bool {
    let mut attrs = Attrs::new(field.octets);
    let mut is_same = attrs.tail() == field.tail;
    for (flags, kind, value) in field.attributes {
        let attr = Attr {
            flags: *flags,
            kind: *kind,
            value,
        };
        is_same = is_same && attrs.next() == Some(attr);
    }
    is_same && attrs.next().is_none() && attrs.tail() == field.tail
}

#[test]
fn a_field_is_whole_attributes_and_a_tail(rt: HostRuntime) {
    for field in &FIELDS {
        assert!(rt; splits(field));
    }
}
