//! Streams, and how they split into frames. (That a stream is read alike wherever it is cut is
//! compared by the program `real_captures`.)

use super::*;

/// Whether a message that is fed octet by octet comes with its last.
fn comes_whole(frames: &mut Frames, kind: MessageType, message: &[u8]) -> Result<bool, AllocError> {
    let mut is_awaited = true;
    for (place, octet) in message.iter().enumerate() {
        is_awaited &= waits(frames, place);
        frames.feed(&[*octet])?;
    }
    Ok(is_awaited && gives(frames, kind, message))
}

/// Whether each message of [`STREAM`] does.
fn come_whole(frames: &mut Frames) -> bool {
    let mut come_whole = true;
    for (kind, message) in &STREAM {
        come_whole &= matches!(comes_whole(frames, *kind, message), Ok(true));
    }
    come_whole
}

#[test]
fn octet_by_octet_a_frame_comes_with_its_last_octet(rt: HostRuntime) {
    assert!(rt; come_whole(&mut Frames::new(rt.alloc(), Limit::Plain)));
}

/// Whether a splitter answers the fault of a KEEPALIVE of 18 octets.
fn is_faulty(frames: &mut Frames) -> bool {
    frames.next() == Next::Fault(bad_length(18), &KEEPALIVE_OF_18)
}

/// Whether a fault after a frame is answered for good.
fn answers_for_good(frames: &mut Frames) -> Result<bool, AllocError> {
    frames.feed(&KEEPALIVE)?;
    frames.feed(&KEEPALIVE_OF_18)?;
    let mut is_answered = gives(frames, MessageType::Keepalive, &KEEPALIVE);
    for _ in 0..3 {
        is_answered &= is_faulty(frames);
        frames.feed(&KEEPALIVE)?;
        is_answered &= frames.len() == 19;
    }
    Ok(is_answered)
}

#[test]
fn a_fault_is_answered_for_good(rt: HostRuntime) {
    let mut frames = Frames::new(rt.alloc(), Limit::Plain);
    assert!(rt; matches!(answers_for_good(&mut frames), Ok(true)));
}

/// Whether a piece is the longest messages, one after another.
fn gives_longest(frames: &mut Frames, piece: &[u8]) -> Result<bool, AllocError> {
    frames.feed(piece)?;
    let mut are_given = piece.len() == PIECE_LEN && frames.len() == PIECE_LEN;
    for message in piece.chunks(4096) {
        are_given &= gives(frames, MessageType::Update, message);
    }
    Ok(are_given && waits(frames, 0))
}

/// The same of [`longest_messages`].
fn are_longest_given(alloc: Global) -> Result<bool, AllocError> {
    let piece = longest_messages(alloc)?;
    gives_longest(&mut Frames::new(alloc, Limit::Plain), &piece)
}

#[test]
fn a_piece_of_65536_octets_is_16_of_the_longest_messages(rt: HostRuntime) {
    assert!(rt; matches!(are_longest_given(rt.alloc()), Ok(true)));
}
