//! Streams of one direction, and the lines that are printed of them.

use crate::case::{Piece, malformed, read_case};
use bgp_tool::{SessionOptions, StreamOptions, decode_raw, text_and_status};
use bgp_wire::Limit;
use mrt::{MemSink, MemSource};
use std::alloc::{AllocError, Global};
use std::io;
use std::num::NonZeroUsize;

/// The longest pieces in which streams are read, apart from whole: as long as one with a message of
/// each type.
const LONGEST_PIECE: usize = 134;

/// Whether a stream has its lines and its status: where a source gives it and a sink takes them at
/// once, where both do so octet by octet or in longer pieces, and in memory.
pub(crate) fn is_stream(alloc: Global, block: &str) -> io::Result<bool> {
    let case = read_case(alloc, block)?;
    let [stream] = case.pieces.as_slice() else {
        return Err(malformed());
    };
    Ok(are_lines(alloc, stream_options(&case.options), stream, case.status)?)
}

/// The same options for a stream.
pub(crate) fn stream_options(options: &SessionOptions) -> StreamOptions {
    StreamOptions {
        limit: Limit::with_extended(options.session.extended),
        form: options.form,
    }
}

/// Whether these are the lines, and the status, of a stream.
fn are_lines(
    alloc: Global,
    options: StreamOptions,
    stream: &Piece,
    status: u8,
) -> Result<bool, AllocError> {
    Ok(
        is_decoded(alloc, options, stream, status, NonZeroUsize::MAX)?
            && is_decoded_in_pieces(alloc, options, stream, status)?
            && is_decoded_in_memory(alloc, options, stream, status)?,
    )
}

/// Whether a stream is decoded so in pieces of one octet, of two, and so on.
fn is_decoded_in_pieces(
    alloc: Global,
    options: StreamOptions,
    stream: &Piece,
    status: u8,
) -> Result<bool, AllocError> {
    let mut all = true;
    for most in 1..=stream.octets.len().min(LONGEST_PIECE) {
        let most = NonZeroUsize::new(most).unwrap_or(NonZeroUsize::MIN);
        all &= is_decoded(alloc, options, stream, status, most)?;
    }
    Ok(all)
}

/// Whether a stream is decoded so from a source and into a sink that give and take at most so many
/// octets a call.
fn is_decoded(
    alloc: Global,
    options: StreamOptions,
    stream: &Piece,
    status: u8,
    most: NonZeroUsize,
) -> Result<bool, AllocError> {
    let octets = Vec::from_slice(alloc, stream.octets.as_slice())?;
    let mut source = MemSource::new(octets).in_pieces_of(most);
    let mut sink = MemSink::new(alloc).in_pieces_of(most);
    let answered = decode_raw(options, alloc, &mut source, &mut sink);
    Ok(sink.octets() == stream.text.as_bytes() && answered == status)
}

/// Whether a stream in memory is decoded so.
fn is_decoded_in_memory(
    alloc: Global,
    options: StreamOptions,
    stream: &Piece,
    status: u8,
) -> Result<bool, AllocError> {
    let octets = Vec::from_slice(alloc, stream.octets.as_slice())?;
    let (text, answered) = text_and_status(options, alloc, octets);
    Ok(text.as_slice() == stream.text.as_bytes() && answered == status)
}
