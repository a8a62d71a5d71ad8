//! Sets of errors that a NOTIFICATION may report (RFC 4271, 4.5).

ghost use Rattle.std.specs.Prelude.{◌≡◌, ◌&&◌, Option, is_some, codes};
ghost use Rattle.std.specs.Bool.{then_some};
ghost use Rattle.bgp_text.specs.Lines.{Writes};
ghost use Rattle.bgp_why.specs.Errors.{data_text, error_text, errors_in, errors_text, any_of};
ghost use Rattle.bgp_why.specs.Errors.{error_if, length_error, type_error, header_errors};
ghost use Rattle.bgp_why.specs.Errors.{header_faults, open_errors, update_errors, fsm_errors};
ghost use Rattle.bgp_why.specs.Errors.{has_all, update_errors_text, version_error};
ghost use Rattle.bgp_why.specs.declared.errors.FixedData.TheVariants as variants;
ghost use Rattle.bgp_why.specs.Waiting.{last_text, passed, with};

use bgp_open::OpenSubcodes;
use bgp_text::Lines;
use bgp_update::Subcodes;
use bgp_why_parts::{FsmErrors, put_code};
use bgp_wire::HeaderFaults;
use byteorder::{BigEndian, ByteOrder};
use mrt::Sink;

/// The data that a NOTIFICATION has to have.
#[derive(Clone, Copy)]
pub(crate) enum FixedData {
    /// They are free.
    Free,
    /// This octet.
    Octet(u8),
    /// A field of two octets.
    Field(u16),
}

/// An error code and a subcode, and the data that a NOTIFICATION has to have with them.
#[derive(Clone, Copy)]
pub(crate) struct ErrorCode {
    pub(crate) code: u8,
    pub(crate) subcode: u8,
    pub(crate) fixed: FixedData,
}

/// The last error of those so far, which waits until it is known whether another follows.
#[derive(Clone, Copy)]
pub(crate) struct Waiting {
    /// Nothing was put before it.
    pub(crate) is_first: bool,
    pub(crate) error: Option<ErrorCode>,
}

/// The two octets of a field as data.
fn put_field<W: Sink>(lines: &mut Lines<'_, W>, field: u16)
    ensures { Writes lines.old lines.new (data_text (variants.Field field)) }
{
    let mut octets = [0; 2];
    BigEndian::write_u16(&mut octets, field);
    lines.put(b" with data ");
    lines.put_digits(&octets);
}

/// The data that a NOTIFICATION has to have.
fn put_data<W: Sink>(lines: &mut Lines<'_, W>, fixed: FixedData)
    ensures { Writes lines.old lines.new (data_text fixed) }
{
    match fixed {
        FixedData::Free => lines.put(b""),
        FixedData::Octet(octet) => {
            lines.put(b" with data ");
            lines.put_digits(&[octet]);
        }
        FixedData::Field(field) => put_field(lines, field),
    }
}

/// An error with its names and data.
fn put_error<W: Sink>(lines: &mut Lines<'_, W>, error: ErrorCode)
    ensures { Writes lines.old lines.new (error_text error) }
{
    put_code(lines, error.code, error.subcode);
    put_data(lines, error.fixed);
}

/// The error that waits, after this text unless it is the first.
fn put_after<W: Sink>(lines: &mut Lines<'_, W>, text: &'static [u8], waiting: Waiting)
    ensures { Writes lines.old lines.new (last_text text.now waiting) }
{
    let Some(error) = waiting.error else {
        return;
    };
    if waiting.is_first {
        put_error(lines, error);
    } else {
        lines.put(text);
        put_error(lines, error);
    }
}

/// What waits once this error follows, if it does.
fn with(waiting: Waiting, error: Option<ErrorCode>) -> Waiting
    ensures { result ≡ with waiting error }
{
    match error {
        None => waiting,
        Some(_) => Waiting {
            is_first: waiting.is_first && waiting.error.is_none(),
            error,
        },
    }
}

/// The error that waits, if this one follows it.
fn put_passed<W: Sink>(lines: &mut Lines<'_, W>, waiting: Waiting, error: Option<ErrorCode>)
    ensures { Writes lines.old lines.new (passed waiting error) }
{
    match error {
        None => lines.put(b""),
        Some(_) => put_after(lines, b", ", waiting),
    }
}

/// The errors that there are, with this word before the last and a comma before each other.
pub(crate) fn put_errors<W: Sink>(
    lines: &mut Lines<'_, W>,
    word: &'static [u8],
    errors: &[Option<ErrorCode>],
)
    ensures { Writes lines.old lines.new (errors_text word.now (errors_in errors.now)) }
{
    let mut waiting = Waiting {
        is_first: true,
        error: None,
    };
    for error in errors {
        put_passed(lines, waiting, *error);
        waiting = with(waiting, *error);
    }
    put_after(lines, word, waiting);
}

/// Alternatives.
fn put_any<W: Sink>(lines: &mut Lines<'_, W>, errors: &[Option<ErrorCode>])
    ensures { Writes lines.old lines.new (any_of errors.now) }
{
    put_errors(lines, b" or ", errors);
}

/// An error whose data are free, if it is in a set.
fn error_if(is_in: bool, code: u8, subcode: u8) -> Option<ErrorCode>
    ensures { result ≡ error_if is_in code subcode }
{
    is_in.then_some(ErrorCode {
        code,
        subcode,
        fixed: FixedData::Free,
    })
}

/// Bad Message Length with its data, the Length field.
fn length_error(field: Option<u16>) -> Option<ErrorCode>
    ensures { result ≡ length_error field }
{
    match field {
        None => None,
        Some(field) => Some(ErrorCode {
            code: 1,
            subcode: 2,
            fixed: FixedData::Field(field),
        }),
    }
}

/// Bad Message Type with its data, the Type field.
fn type_error(field: Option<u8>) -> Option<ErrorCode>
    ensures { result ≡ type_error field }
{
    match field {
        None => None,
        Some(field) => Some(ErrorCode {
            code: 1,
            subcode: 3,
            fixed: FixedData::Octet(field),
        }),
    }
}

/// The faults of a header, without data.
pub(crate) fn header_faults(errors: &HeaderFaults) -> [Option<ErrorCode>; 3]
    ensures { result ≡ header_faults errors.now }
{
    [
        error_if(errors.marker, 1, 1),
        error_if(errors.length.is_some(), 1, 2),
        error_if(errors.kind.is_some(), 1, 3),
    ]
}

/// Puts the subcodes of Message Header Error.
pub(crate) fn put_header_errors<W: Sink>(lines: &mut Lines<'_, W>, errors: &HeaderFaults)
    ensures { Writes lines.old lines.new (any_of (header_errors errors.now)) }
{
    let found = [
        error_if(errors.marker, 1, 1),
        length_error(errors.length),
        type_error(errors.kind),
    ];
    put_any(lines, &found);
}

/// Unsupported Version Number with its data, if it is in a set.
fn version_error(is_in: bool) -> Option<ErrorCode>
    ensures { result ≡ then_some is_in version_error }
{
    is_in.then_some(ErrorCode {
        code: 2,
        subcode: 1,
        fixed: FixedData::Field(4),
    })
}

/// Puts the subcodes of OPEN Message Error.
pub(crate) fn put_open_errors<W: Sink>(lines: &mut Lines<'_, W>, errors: &OpenSubcodes)
    ensures { Writes lines.old lines.new (any_of (open_errors errors.now)) }
{
    let found = [
        error_if(errors.unspecific, 2, 0),
        version_error(errors.version),
        error_if(errors.peer_as, 2, 2),
        error_if(errors.identifier, 2, 3),
        error_if(errors.parameter, 2, 4),
        error_if(errors.hold, 2, 6),
        error_if(errors.capability, 2, 7),
        error_if(errors.role, 2, 11),
    ];
    put_any(lines, &found);
}

/// The subcodes of UPDATE Message Error.
fn update_errors(errors: &Subcodes) -> [Option<ErrorCode>; 11]
    ensures { result ≡ update_errors errors.now }
{
    [
        error_if(errors.malformed_attribute_list, 3, 1),
        error_if(errors.unrecognized_well_known, 3, 2),
        error_if(errors.missing_well_known, 3, 3),
        error_if(errors.attribute_flags, 3, 4),
        error_if(errors.attribute_length, 3, 5),
        error_if(errors.invalid_origin, 3, 6),
        error_if(errors.as_routing_loop, 3, 7),
        error_if(errors.invalid_next_hop, 3, 8),
        error_if(errors.optional_attribute, 3, 9),
        error_if(errors.invalid_network_field, 3, 10),
        error_if(errors.malformed_as_path, 3, 11),
    ]
}

/// Whether each subcode of UPDATE Message Error is in the set.
fn has_all(errors: &Subcodes) -> bool
    ensures { result ≡ has_all errors.now }
{
    errors.malformed_attribute_list
        && errors.unrecognized_well_known
        && errors.missing_well_known
        && errors.attribute_flags
        && errors.attribute_length
        && errors.invalid_origin
        && errors.as_routing_loop
        && errors.invalid_next_hop
        && errors.optional_attribute
        && errors.invalid_network_field
        && errors.malformed_as_path
}

/// Puts the subcodes of UPDATE Message Error, if they are all of it, the first and the last.
pub(crate) fn put_update_errors<W: Sink>(lines: &mut Lines<'_, W>, errors: &Subcodes)
    ensures { Writes lines.old lines.new (update_errors_text errors.now) }
{
    if has_all(errors) {
        lines.put(b"3/1 to 3/11 (UPDATE Message Error)");
    } else {
        put_any(lines, &update_errors(errors));
    }
}

/// Puts the subcodes of Finite State Machine Error.
pub(crate) fn put_fsm_errors<W: Sink>(lines: &mut Lines<'_, W>, errors: &FsmErrors)
    ensures { Writes lines.old lines.new (any_of (fsm_errors errors.now)) }
{
    let found = [
        error_if(errors.unspecified, 5, 0),
        error_if(errors.open_sent, 5, 1),
        error_if(errors.open_confirm, 5, 2),
        error_if(errors.established, 5, 3),
    ];
    put_any(lines, &found);
}
