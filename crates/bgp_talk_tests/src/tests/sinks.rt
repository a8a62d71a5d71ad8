//! Captures that can't be written.

use super::*;

/// Whether a sink that fails at its first write is told before the wire is asked to connect: it
/// would count that nobody is there.
fn is_told_at_once(alloc: Global, whole: &Came) -> bool {
    let talk = Talk {
        is_refused: true,
        sink: (NonZeroUsize::MAX, 0),
        ..whole_talk()
    };
    match came_of(alloc, alloc, &talk) {
        Some(came) => is_cut(&came, SpeakFault::Capture, whole) && came.capture.is_empty(),
        None => false,
    }
}

/// Whether the octet that a sink fails at is told, with the octets before it written, and all comes
/// where there is none.
fn is_told_at(alloc: Global, octet: usize, whole: &Came) -> bool {
    let talk = Talk {
        sink: (NonZeroUsize::MIN, octet as u64),
        ..whole_talk()
    };
    let Some(came) = came_of(alloc, alloc, &talk) else {
        return false;
    };
    if octet == whole.capture.len() {
        is_whole(&came, whole)
    } else {
        is_cut(&came, SpeakFault::Capture, whole) && came.capture.len() == octet
    }
}

/// Whether each octet is told that a sink fails at.
fn are_told(alloc: Global) -> Option<bool> {
    let whole = came_of(alloc, alloc, &whole_talk())?;
    for octet in 0..=whole.capture.len() {
        if !is_told_at(alloc, octet, &whole) {
            return Some(false);
        }
    }
    Some(is_told_at_once(alloc, &whole) && whole.capture.len() == 653)
}

#[test]
fn a_sink_that_fails_has_a_beginning_of_the_capture(rt: HostRuntime) {
    assert!(rt; are_told(rt.alloc()) == Some(true));
}

#[test]
fn faults_have_their_numbers(rt: HostRuntime) {
    assert!(rt; SpeakFault::Capture as u8 == 1 && SpeakFault::Memory as u8 == 2);
}
