//! The value of an AS_PATH or AS4_PATH attribute (RFC 4271, 4.3 b; RFC 6793, 3): path segments.
//!
//! ```text
//!  0      1       2                                       2 + width * count
//! +------+-------+-------------+-------------+-- .. -----+
//! | type | count | AS number 1 | AS number 2 |           |
//! +------+-------+-------------+-------------+-- .. -----+
//!
//! type    1 AS_SET, 2 AS_SEQUENCE; in AS4_PATH also 3 AS_CONFED_SEQUENCE, 4 AS_CONFED_SET
//! count   how many AS numbers follow, 1 to 255
//! number  of `width` octets: 2, or 4 in AS4_PATH and where both sides sent the capability
//! ```

ghost use Rattle.std.specs.Prelude.{◌≡◌, ℕ, ◌+◌, ◌*◌, ◌^◌, ◌≤◌, ◌++◌, [], true, false};
ghost use Rattle.std.specs.Prelude.{length, drop};
ghost use Rattle.std.specs.Prelude.{IfSome, IfNone, IfOk, OnOk, vec_len, vec_capacity};
ghost use Rattle.std.specs.List.{cons_option, flat_map, list_any};
ghost use Rattle.bgp_attr.specs.Numbers.{items_in};
ghost use Rattle.bgp_attr.specs.PathIn.{path_in, path_segment, segment_at, segment_kind};
ghost use Rattle.bgp_attr.specs.Segments.{are_segments, has_segment, number_width, segment_len};
ghost use Rattle.bgp_attr.specs.Segments.{segment_octets};
ghost use Rattle.bgp_wire.specs.AsNumber.{needs_four_octets};
ghost use Rattle.bgp_attr.specs.Values.{as_octets, as_path_octets, wire_segment};
ghost use Rattle.bgp_attr.specs.Writing.{has_large};

use crate::numbers::{u16_numbers, u32_numbers};
use bgp_path::{AsPath, Numbers, Segment, SegmentKind};
use bgp_wire::{needs_four_octets, put_u8, put_u16, put_u32, two_octet_as};
use std::alloc::{AllocError, Allocator};

/// AS_SEQUENCE, the last of the segment types in an AS_PATH.
pub(crate) const AS_SEQUENCE: u8 = 2;
/// AS_CONFED_SET, the last of the segment types that are defined (RFC 5065, 3).
pub(crate) const AS_CONFED_SET: u8 = 4;

/// What follows the segment at the front: none where no whole segment of a type 1 to `most`
/// stands there, with at least one AS number of `width` octets.
#[tactic(auto, unfolding(crate::specs::Segments::has_segment))]
fn after_segment(most: u8, width: usize, octets: &[u8]) -> Option<&[u8]>
    requires { width ≤ 4 }
    ensures some { IfSome result (λ _. has_segment most width octets.now ≡ true) }
    ensures rest { IfSome result
        (λ rest. rest.now ≡ drop (segment_len width octets.now) octets.now) }
    ensures none { IfNone result (has_segment most width octets.now ≡ false) }
{
    if octets.len() < 2 {
        return None;
    }
    let (kind, count) = (octets[0], octets[1]);
    let len = 2 + width * usize::from(count);
    if kind < 1 || kind > most || count < 1 || octets.len() < len {
        return None;
    }
    Some(octets.split_at(len).1)
}

/// Whether the value is whole segments of types 1 to `most`, each with at least one AS number of
/// `width` octets.
pub(crate) fn are_segments(most: u8, width: usize, value: &[u8]) -> bool
    requires { width ≤ 4 }
    ensures { result ≡ are_segments most width value.now }
{
    let mut rest = value;
    while !rest.is_empty() {
        let Some(after) = after_segment(most, width, rest) else {
            return false;
        };
        rest = after;
    }
    true
}

/// The kind of a segment type: none for those of a confederation.
fn kind_of(segment_type: u8) -> Option<SegmentKind>
    ensures { result ≡ segment_kind segment_type }
{
    match segment_type {
        1 => Some(SegmentKind::Set),
        2 => Some(SegmentKind::Sequence),
        _ => None,
    }
}

/// The octets of the first segment's numbers, and what follows them.
fn split_segment(as4: bool, octets: &[u8]) -> (&[u8], &[u8])
    requires { has_segment 4 (number_width as4) octets.now ≡ true }
    ensures numbers { result.0.now ≡ (segment_at (number_width as4) octets.entry.now).numbers }
    ensures rest { result.1.now
        ≡ drop (segment_len (number_width as4) octets.entry.now) octets.entry.now }
{
    let len = number_len(as4) * usize::from(octets[1]);
    octets.split_at(2).1.split_at(len)
}

/// AS numbers of two octets each, or of four.
fn read_as_numbers<A: Allocator>(
    alloc: A,
    as4: bool,
    octets: &[u8],
) -> Result<Numbers<A>, AllocError>
    ensures { IfOk result (λ numbers. numbers ≡ items_in (number_width as4) octets.now) }
{
    if as4 {
        return u32_numbers(alloc, octets);
    }
    u16_numbers(alloc, octets)
}

/// The first segment: none where it is one of a confederation.
fn read_segment<A: Allocator + Copy>(
    alloc: A,
    as4: bool,
    octets: &[u8],
) -> Result<Option<Segment<A>>, AllocError>
    requires { has_segment 4 (number_width as4) octets.now ≡ true }
    ensures { IfOk result (λ segment. segment
        ≡ path_segment (number_width as4) (segment_at (number_width as4) octets.now)) }
{
    let Some(kind) = kind_of(octets[0]) else {
        return Ok(None);
    };
    let numbers = read_as_numbers(alloc, as4, split_segment(as4, octets).0)?;
    Ok(Segment::of(kind, numbers))
}

/// Appends a segment, where there is one.
fn push_segment<A: Allocator>(
    path: &mut AsPath<A>,
    segment: Option<Segment<A>>,
) -> Result<(), AllocError>
    ensures { OnOk result (path.new ≡ path.old ++ cons_option segment []) }
{
    match segment {
        Some(segment) => path.push(segment),
        None => Ok(()),
    }
}

/// The path that the value of AS_PATH, or of AS4_PATH, holds; segments of a confederation are left
/// out (RFC 6793, 6).
#[inline(always)]
pub(crate) fn read_as_path<A: Allocator + Copy>(
    alloc: A,
    as4: bool,
    value: &[u8],
) -> Result<AsPath<A>, AllocError>
    requires { are_segments 4 (number_width as4) value.now ≡ true }
    ensures path { IfOk result (λ path. path ≡ path_in (number_width as4) value.now) }
{
    // Most paths have one segment.
    let mut path = AsPath::with_capacity(alloc, value.len().min(1))?;
    let mut rest = value;
    while !rest.is_empty() {
        push_segment(&mut path, read_segment(alloc, as4, rest)?)?;
        rest = split_segment(as4, rest).1;
    }
    Ok(path)
}

/// Appends the value of AS_PATH or AS4_PATH.
pub(crate) fn put_as_path<A: Allocator, B: Allocator>(
    out: &mut Vec<u8, A>,
    as4: bool,
    segments: &[Segment<B>],
)
    requires { vec_len out.old + length (as_path_octets as4 segments.now) ≤ vec_capacity out.old }
    ensures items { out.new.items ≡ out.old.items ++ as_path_octets as4 segments.now }
    ensures len { vec_len out.new ≡ vec_len out.old + length (as_path_octets as4 segments.now) }
    ensures capacity { vec_capacity out.old ≤ vec_capacity out.new }
{
    for segment in segments {
        put_segment(out, as4, segment);
    }
}

/// Appends a path segment.
fn put_segment<A: Allocator, B: Allocator>(out: &mut Vec<u8, A>, as4: bool, segment: &Segment<B>)
    requires { vec_len out.old + length (segment_octets (wire_segment as4 segment.now))
        ≤ vec_capacity out.old }
    ensures items { out.new.items
        ≡ out.old.items ++ segment_octets (wire_segment as4 segment.now) }
    ensures len { vec_len out.new
        ≡ vec_len out.old + length (segment_octets (wire_segment as4 segment.now)) }
    ensures capacity { vec_capacity out.old ≤ vec_capacity out.new }
{
    let numbers = segment.numbers();
    put_u8(out, segment.kind() as u8);
    put_u8(out, numbers.len() as u8);
    put_as_numbers(out, as4, numbers);
}

/// Appends AS numbers.
fn put_as_numbers<A: Allocator>(out: &mut Vec<u8, A>, as4: bool, numbers: &[u32])
    requires { vec_len out.old + length (flat_map (as_octets as4) numbers.now)
        ≤ vec_capacity out.old }
    ensures items { out.new.items ≡ out.old.items ++ flat_map (as_octets as4) numbers.now }
    ensures len { vec_len out.new
        ≡ vec_len out.old + length (flat_map (as_octets as4) numbers.now) }
    ensures capacity { vec_capacity out.old ≤ vec_capacity out.new }
{
    for number in numbers {
        put_as_number(out, as4, *number);
    }
}

/// Appends an AS number in four octets, or in two.
pub(crate) fn put_as_number<A: Allocator>(out: &mut Vec<u8, A>, as4: bool, number: u32)
    requires { vec_len out.old + length (as_octets as4 number) ≤ vec_capacity out.old }
    ensures items { out.new.items ≡ out.old.items ++ as_octets as4 number }
    ensures len { vec_len out.new ≡ vec_len out.old + length (as_octets as4 number) }
    ensures capacity { vec_capacity out.old ≤ vec_capacity out.new }
{
    if as4 {
        put_u32(out, number);
    } else {
        // AS_TRANS stands for a number that two octets can't hold (RFC 6793, 4.2.2).
        put_u16(out, two_octet_as(number));
    }
}

/// How many octets the value of AS_PATH or AS4_PATH has.
pub(crate) fn as_path_len<A: Allocator>(as4: bool, segments: &[Segment<A>]) -> u128
    ensures len { result ≡ length (as_path_octets as4 segments.now) }
    ensures bound { result ≤ 1022 * 2 ^ 64 }
{
    let mut len = 0;
    for segment in segments {
        len += wire_len(as4, segment) as u128;
    }
    len
}

/// How many octets a path segment takes.
fn wire_len<A: Allocator>(as4: bool, segment: &Segment<A>) -> usize
    ensures len { result ≡ length (segment_octets (wire_segment as4 segment.now)) }
    ensures bound { result ≤ 1022 }
{
    2 + number_len(as4) * segment.numbers().len()
}

/// How many octets an AS number takes.
pub(crate) fn number_len(as4: bool) -> usize
    ensures each { (n : ℕ) → length (as_octets as4 n) ≡ result }
    ensures width { result ≡ number_width as4 }
    ensures bound { result ≤ 4 }
{
    if as4 { 4 } else { 2 }
}

/// Whether some AS number of the path needs four octets.
pub(crate) fn has_large<A: Allocator>(segments: &[Segment<A>]) -> bool
    ensures { result ≡ has_large segments.now }
{
    segments.iter().any(|segment| segment_has_large(segment))
}

/// Whether some AS number of the segment needs four octets.
fn segment_has_large<A: Allocator>(segment: &Segment<A>) -> bool
    ensures { result ≡ list_any needs_four_octets segment.now.numbers }
{
    segment
        .numbers()
        .iter()
        .any(|number| needs_four_octets(*number))
}
