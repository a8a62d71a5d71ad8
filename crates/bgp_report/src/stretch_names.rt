//! The words of a ladder that name a stretch of a session in an MRT file, and its ends.

ghost use Rattle.std.specs.Prelude.{◌≡◌, IfOk};
ghost use Rattle.std.specs.String.{string_bytes};
ghost use Rattle.bgp_prefix.specs.Text.{address_text};
ghost use Rattle.bgp_why.specs.Endpoint.{endpoint_by};
ghost use Rattle.bgp_check_text.specs.End.{as_text, end_text, part_by};
ghost use Rattle.bgp_check_capture_tool.specs.Marks.{mark_value};
ghost use Rattle.bgp_report.specs.Stretches.{stretch_words};

use crate::names::port_words;
use bgp_check_capture_tool::StretchMark;
use bgp_check_text::EndName;
use bgp_prefix::Address;
use bgp_why::Endpoint;
use std::alloc::{AllocError, Allocator};

/// Returns an end by its address, and its port if that is known.
fn endpoint_words<A: Allocator>(alloc: A, end: Endpoint) -> Result<String<A>, AllocError>
    ensures { IfOk result (λ text. string_bytes text ≡ endpoint_by end.address end.port) }
{
    let address = end.address;
    match end.port {
        None => format!(in alloc; "{address}"),
        Some(port) => port_words(alloc, address, port),
    }
}

/// Returns the AS number of an end.
fn as_words<A: Allocator>(alloc: A, number: Option<u32>) -> Result<String<A>, AllocError>
    ensures { IfOk result (λ text. string_bytes text ≡ as_text number) }
{
    match number {
        None => "AS unknown".to_string(alloc),
        Some(number) => format!(in alloc; "AS {number}"),
    }
}

/// Returns which records these are, if that is said.
#[tactic(auto, unfolding(bgp_check_text::specs::End::part_text))]
fn part_words<A: Allocator>(alloc: A, part: Option<(u64, u64)>) -> Result<String<A>, AllocError>
    ensures { IfOk result (λ text. string_bytes text ≡ part_by part) }
{
    match part {
        None => "".to_string(alloc),
        Some((first, last)) => format!(in alloc; ", records {first} to {last}"),
    }
}

/// Returns the name of an end.
#[tactic(auto, unfolding(bgp_check_text::specs::End::end_text))]
fn end_words<A: Allocator + Copy>(alloc: A, name: &EndName) -> Result<String<A>, AllocError>
    ensures { IfOk result (λ text. string_bytes text ≡ end_text name.now) }
{
    let end = endpoint_words(alloc, name.end)?;
    let number = as_words(alloc, name.as_number)?;
    let part = part_words(alloc, name.part)?;
    format!(in alloc; "{end} ({number}{part})")
}

/// Returns which records a ladder has.
pub(crate) fn words_of<A: Allocator + Copy>(
    alloc: A,
    mark: &StretchMark<'_, A>,
) -> Result<Vec<u8, A>, AllocError>
    ensures { IfOk result (λ text. text.items ≡ stretch_words (mark_value mark.now)) }
{
    let local = mark.addresses.local;
    let peer = mark.addresses.peer;
    let end = end_words(alloc, &mark.name)?;
    let text = format!(in alloc; "session {local} with peer {peer}: records of {end}")?;
    Ok(text.into_bytes())
}

/// Returns the text of an address.
pub(crate) fn text_of<A: Allocator>(alloc: A, address: Address) -> Result<Vec<u8, A>, AllocError>
    ensures { IfOk result (λ text. text.items ≡ address_text address) }
{
    let text = format!(in alloc; "{address}")?;
    Ok(text.into_bytes())
}
