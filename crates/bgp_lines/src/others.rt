//! The lines of what is no message, in words: a header with faults, a rest, a change of state.

ghost use Rattle.std.specs.Prelude.{◌≡◌, ◌≤◌, codes, length};
ghost use Rattle.bgp_wire.specs.Header.{length_of};
ghost use Rattle.bgp_text.specs.Lines.{Writes};
ghost use Rattle.bgp_lines.specs.Joined.{each_behind};
ghost use Rattle.bgp_lines.specs.Others.{fault_subcodes, fault_text, faults_text, header_text};
ghost use Rattle.bgp_lines.specs.Others.{named_change, named_fault, named_rest};
ghost use Rattle.bgp_lines.specs.Others.{named_stream_fault};

use bgp_names::{put_state_name, put_subcode_name, put_type_text};
use bgp_text::Lines;
use bgp_wire::{ErrorCode, HEADER_LEN, HeaderFaults, header_at, read_type};
use byteorder::{BigEndian, ByteOrder};
use mrt::Sink;

/// Returns the subcodes of a header's faults, ascending.
fn fault_subcodes(faults: HeaderFaults) -> &'static [u8]
    ensures { result.now ≡ fault_subcodes faults }
{
    match (
        faults.marker,
        faults.length.is_some(),
        faults.kind.is_some(),
    ) {
        (false, false, false) => &[],
        (false, false, true) => &[3],
        (false, true, false) => &[2],
        (false, true, true) => &[2, 3],
        (true, false, false) => &[1],
        (true, false, true) => &[1, 3],
        (true, true, false) => &[1, 2],
        (true, true, true) => &[1, 2, 3],
    }
}

/// Puts a fault in numbers and in words, as in `1/2 Bad Message Length`.
fn put_fault<W: Sink>(lines: &mut Lines<'_, W>, subcode: u8)
    ensures { Writes lines.old lines.new (fault_text subcode) }
{
    lines.put(b"1/");
    lines.put_decimal(subcode);
    lines.put(b" ");
    put_subcode_name(lines, ErrorCode::MessageHeader.code(), subcode);
}

/// Puts the faults of these subcodes, each behind a comma.
fn put_more_faults<W: Sink>(lines: &mut Lines<'_, W>, subcodes: &[u8])
    ensures { Writes lines.old lines.new (each_behind (codes ", ") fault_text subcodes.now) }
{
    for subcode in subcodes {
        lines.put(b", ");
        put_fault(lines, *subcode);
    }
}

/// Puts the faults of these subcodes with commas between them.
fn put_faults<W: Sink>(lines: &mut Lines<'_, W>, subcodes: &[u8])
    ensures { Writes lines.old lines.new (faults_text subcodes.now) }
{
    let Some((first, others)) = subcodes.split_first() else {
        return lines.put(b"");
    };
    put_fault(lines, *first);
    put_more_faults(lines, others);
}

/// Returns the Length field of a header.
#[tactic(auto, unfolding(bgp_wire::specs::Header::length_of))]
fn read_length(header: &[u8; HEADER_LEN]) -> u16
    ensures { result ≡ length_of header.now }
{
    BigEndian::read_u16(&header[16..])
}

/// Puts what stands in a header, and octets.
fn put_header<W: Sink>(lines: &mut Lines<'_, W>, header: &[u8; HEADER_LEN], octets: &[u8])
    ensures { Writes lines.old lines.new (header_text header.now octets.now) }
{
    lines.put(b": type ");
    put_type_text(lines, read_type(header));
    lines.put(b", length ");
    lines.put_decimal(read_length(header));
    lines.put(b", octets ");
    lines.put_digits(octets);
}

/// Puts the line of a record whose message has a header with faults, without its place and its
/// end.
pub fn put_named_fault<W: Sink>(lines: &mut Lines<'_, W>, faults: HeaderFaults, octets: &[u8])
    requires { 19 ≤ length octets.now }
    ensures { Writes lines.old lines.new (named_fault faults octets.now) }
{
    let Some(header) = header_at(octets) else {
        unreachable!();
    };
    lines.put(b"fault ");
    put_faults(lines, fault_subcodes(faults));
    put_header(lines, header, octets);
}

/// Puts the line of a header with faults, which stands at this offset of a stream, without its end.
pub fn put_named_stream_fault<W: Sink>(
    lines: &mut Lines<'_, W>,
    offset: u64,
    faults: HeaderFaults,
    header: &[u8; HEADER_LEN],
)
    ensures { Writes lines.old lines.new (named_stream_fault offset faults header.now) }
{
    lines.put(b"fault at ");
    lines.put_decimal(offset);
    lines.put(b" ");
    put_faults(lines, fault_subcodes(faults));
    put_header(lines, header, header);
}

/// Puts the line of what a stream has behind its last whole message, without its end.
pub fn put_named_rest<W: Sink>(lines: &mut Lines<'_, W>, octets: &[u8])
    ensures { Writes lines.old lines.new (named_rest octets.now) }
{
    lines.put(b"rest ");
    lines.put_decimal(octets.len());
    lines.put(b": ");
    lines.put_digits(octets);
}

/// Puts the line of a change from one state to another, without its place and its end.
pub fn put_named_change<W: Sink>(lines: &mut Lines<'_, W>, old: u16, new: u16)
    ensures { Writes lines.old lines.new (named_change old new) }
{
    lines.put(b"change ");
    put_state_name(lines, old);
    lines.put(b" to ");
    put_state_name(lines, new);
}
