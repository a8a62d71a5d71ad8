//! What to say of a file in which a command found nothing that it reads.

ghost use Rattle.std.specs.Prelude.{◌≡◌};
ghost use Rattle.bgp_tool.specs.Front.{no_capture as no_capture_by, no_recording as no_recording_by};
ghost use Rattle.bgp_tool.specs.NothingFound.{is_of_system, without_packets_by, without_records_by};

use crate::front::{no_capture, no_recording};
use crate::note::{CaptureCommand, Note};
use mrt::{CaptureFault, FaultKind};

/// Returns what to say of a file that was read as a capture and in which no record of a session was
/// found, by its first octets and by why it isn't read to its end, if it isn't: what it is, if it is
/// no capture; else, if it was read to its end, that no record of a session is in it. Nothing if a
/// device or memory failed, or if it is a capture that is refused: the refusal says more then.
pub fn without_records<'a>(
    command: CaptureCommand,
    file: &'a str,
    front: &[u8],
    refused: Option<CaptureFault>,
) -> Option<Note<'a>>
    ensures { result ≡ without_records_by command file.entry (no_capture_by front.now) refused }
{
    let Some(fault) = refused else {
        return match no_capture(front) {
            Some(form) => Some(Note::NoCapture {
                file,
                form,
                command,
            }),
            None => Some(Note::NoSessions { file }),
        };
    };
    if is_of_system(fault.kind) {
        return None;
    }
    no_capture(front).map(|form| Note::NoCapture {
        file,
        form,
        command,
    })
}

/// Returns what to say of a file that is refused before its first packet, by its first octets: what
/// it is, if it is no recording of packets.
pub fn without_packets<'a>(command: CaptureCommand, file: &'a str, front: &[u8]) -> Option<Note<'a>>
    ensures { result ≡ without_packets_by command file.entry (no_recording_by front.now) }
{
    no_recording(front).map(|form| Note::NoCapture {
        file,
        form,
        command,
    })
}

/// Checks whether a device or memory failed, whatever the file is.
fn is_of_system(kind: FaultKind) -> bool
    ensures { result ≡ is_of_system kind }
{
    match kind {
        FaultKind::Device | FaultKind::Memory => true,
        FaultKind::Truncated
        | FaultKind::TooLong
        | FaultKind::Body
        | FaultKind::BadState
        | FaultKind::NotAMessage
        | FaultKind::TimeBack
        | FaultKind::RouteRefresh
        | FaultKind::AddPath => false,
    }
}
