//! A case is decoded from sources that give it whole or octet by octet, fail or end early.

use crate::case::{Case, read_case};
use bgp_tool::decode_capture;
use mrt::{MemSink, MemSource, Reader, SourceUpset};
use std::alloc::{AllocError, Global};
use std::io;
use std::num::NonZeroUsize;

/// The longest capture that is read by sources that stop early, since one is read for each octet.
const MOST_STOPS: usize = 1000;

/// What decoding wrote and answered, and how many octets it was given.
#[derive(Drop)]
struct Answer {
    text: Vec<u8>,
    status: u8,
    given: usize,
}

/// Whether a case is decoded as it says. Where `stops` says it, it is also read by a source that
/// fails at each of its octets in turn, and by one that ends there.
pub(crate) fn is_decoded(alloc: Global, block: &str, stops: bool) -> io::Result<bool> {
    let case = read_case(alloc, block)?;
    match is_whole(alloc, &case)? {
        Some(answer) if stops => Ok(stops_anywhere(alloc, &case, answer.given)?),
        Some(_) => Ok(true),
        None => Ok(false),
    }
}

/// Decodes a case from a source that gives at most so many octets a call and is upset at one call.
fn decode(
    alloc: Global,
    case: &Case,
    most: NonZeroUsize,
    upset: Option<(u64, SourceUpset)>,
) -> Result<Answer, AllocError> {
    let mut capture = Vec::new(alloc);
    for piece in case.pieces.as_slice() {
        capture.extend_from_slice(piece.octets.as_slice())?;
    }
    let mut source = MemSource::new(capture).in_pieces_of(most);
    if let Some((call, upset)) = upset {
        source = source.upset_at(call, upset);
    }
    let mut sink = MemSink::new(alloc);
    let mut reader = Reader::new(alloc);
    let status = decode_capture(alloc, &mut reader, &case.options, &mut source, &mut sink);
    let given = source.given();
    Ok(Answer {
        text: sink.into_octets(),
        status,
        given,
    })
}

/// Decodes a case from a source that gives all at once and from one that gives octet by octet.
/// Answers what the second did, if both answers are right.
fn is_whole(alloc: Global, case: &Case) -> Result<Option<Answer>, AllocError> {
    let mut text = String::new(alloc);
    for piece in case.pieces.as_slice() {
        text.push_str(piece.text.as_str())?;
    }
    let whole = decode(alloc, case, NonZeroUsize::MAX, None)?;
    let slow = decode(alloc, case, NonZeroUsize::MIN, None)?;
    let is_right = is_answer(&whole, text.as_str(), case.status)
        && is_answer(&slow, text.as_str(), case.status);
    Ok(is_right.then_some(slow))
}

/// Whether this was written and answered.
fn is_answer(answer: &Answer, text: &str, status: u8) -> bool {
    answer.text.as_slice() == text.as_bytes() && answer.status == status
}

/// Whether a case is answered right by sources that fail or end at each octet in turn, of so many
/// that are asked for, and that fail behind them.
fn stops_anywhere(alloc: Global, case: &Case, given: usize) -> Result<bool, AllocError> {
    if given > MOST_STOPS {
        return Ok(true);
    }
    for octet in 0..given {
        if !fails_at(alloc, case, octet)? || !ends_at(alloc, case, octet)? {
            return Ok(false);
        }
    }
    // A capture that is refused is asked for no more; another one is asked for its end.
    if case.status == 0 {
        return fails_at(alloc, case, given);
    }
    Ok(true)
}

/// Whether a source that fails at an octet is told so, at the record in which it stands.
fn fails_at(alloc: Global, case: &Case, octet: usize) -> Result<bool, AllocError> {
    let upset = Some((octet as u64, SourceUpset::Fail));
    let answer = decode(alloc, case, NonZeroUsize::MIN, upset)?;
    let (mut text, offset) = lines_before(alloc, case, octet)?;
    let last = format!(in alloc; "capture refused: 9 Device at {offset}\n")?;
    text.push_str(last.as_str())?;
    Ok(is_answer(&answer, text.as_str(), 5))
}

/// Whether a source that ends at an octet is a capture that ends there, or is cut there.
fn ends_at(alloc: Global, case: &Case, octet: usize) -> Result<bool, AllocError> {
    let upset = Some((octet as u64, SourceUpset::End));
    let answer = decode(alloc, case, NonZeroUsize::MIN, upset)?;
    let (mut text, offset) = lines_before(alloc, case, octet)?;
    if offset == octet {
        return Ok(is_answer(&answer, text.as_str(), 0));
    }
    let last = format!(in alloc; "capture refused: 1 Truncated at {offset}\n")?;
    text.push_str(last.as_str())?;
    Ok(is_answer(&answer, text.as_str(), 3))
}

/// The lines of the records that end before an octet, and where the record begins in which it
/// stands.
fn lines_before(alloc: Global, case: &Case, octet: usize) -> Result<(String, usize), AllocError> {
    let mut text = String::new(alloc);
    let mut offset = 0usize;
    for piece in case.pieces.as_slice() {
        let end = offset.saturating_add(piece.octets.len());
        if octet < end {
            break;
        }
        text.push_str(piece.text.as_str())?;
        offset = end;
    }
    Ok((text, offset))
}
