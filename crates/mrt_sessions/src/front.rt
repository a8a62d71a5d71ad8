//! What stands at a place of a file, whichever session is asked for.

ghost use Rattle.std.specs.Prelude.{◌≡◌, ◌<◌, ◌≤◌, ◌↔◌, ◌⊎◌, ◌++◌, IsTrue, None, length};
ghost use Rattle.mrt.specs.Found.{header_value};
ghost use Rattle.mrt.specs.Layout.{IsBgp4mp, IsRecord, form_of, header_of};
ghost use Rattle.mrt_sessions.specs.Front.{IsFront};

use mrt::{
    FaultKind, HEADER, LONGEST_BODY, PLAIN_BODY, RecordHeader, form_of, is_bgp4mp, read_fields,
    read_header,
};

/// What stands where some octets of a file are left.
#[derive(Clone, Copy)]
pub(crate) enum Front<'a> {
    /// No record: the end, or what the file is refused for.
    Stop(Option<FaultKind>),
    /// A record that is skipped for its type or subtype, and what follows it.
    Other(&'a [u8], &'a [u8]),
    /// A record of a session, and what follows it.
    Named(&'a [u8], &'a [u8]),
}

/// The header at the front of the octets.
pub(crate) fn header_of(octets: &[u8]) -> RecordHeader
    requires { 12 ≤ length octets.now }
    ensures { header_value result ≡ header_of octets.now }
{
    match octets.first_chunk::<HEADER>() {
        Some(front) => read_header(front),
        None => unreachable!(),
    }
}

/// Whether a record with this header has a longer body than is read where the local system offers
/// no extended messages.
pub(crate) fn has_extended_body(header: &RecordHeader) -> bool
    ensures { IsTrue result ↔ (IsBgp4mp header.now.kind × (8192 < header.now.count)) }
{
    is_bgp4mp(header.kind) && header.count as usize > PLAIN_BODY
}

/// Whether a record with this header has a longer body than any that is read.
fn has_long_body(header: &RecordHeader) -> bool
    ensures { IsTrue result ↔ (IsBgp4mp header.now.kind × (65583 < header.now.count)) }
{
    is_bgp4mp(header.kind) && header.count as usize > LONGEST_BODY
}

/// Whether a record with this header is skipped for its type or subtype.
fn is_other_kind(header: &RecordHeader) -> bool
    ensures { IsTrue result
        ↔ ((¬ IsBgp4mp header.now.kind) ⊎ (form_of header.now.subtype ≡ None)) }
{
    !is_bgp4mp(header.kind) || form_of(header.subtype).is_none()
}

/// What a whole record is, with this header and before this rest.
fn whole_front<'a>(header: &RecordHeader, whole: &'a [u8], rest: &'a [u8]) -> Front<'a>
    requires whole { IsRecord whole.now }
    requires header { header_value header.now ≡ header_of whole.now }
    requires fits { ¬ (IsBgp4mp header.now.kind × (65583 < header.now.count)) }
    ensures { IsFront (whole.entry.now ++ rest.entry.now) result }
{
    if is_other_kind(header) {
        return Front::Other(whole, rest);
    }
    match read_fields(header, whole.split_at(HEADER).1) {
        Some(_) => Front::Named(whole, rest),
        None => Front::Stop(Some(FaultKind::Body)),
    }
}

/// What stands where these octets are left.
pub(crate) fn front_of(octets: &[u8]) -> Front<'_>
    ensures { IsFront octets.entry.now result }
{
    let Some(first) = octets.first_chunk::<HEADER>() else {
        return if octets.is_empty() {
            Front::Stop(None)
        } else {
            Front::Stop(Some(FaultKind::Truncated))
        };
    };
    let header = read_header(first);
    if has_long_body(&header) {
        return Front::Stop(Some(FaultKind::TooLong));
    }
    match octets.split_at_checked(HEADER + header.count as usize) {
        Some((whole, rest)) => whole_front(&header, whole, rest),
        None => Front::Stop(Some(FaultKind::Truncated)),
    }
}
