//! What is said of a file in which nothing was found, by its first octets, which other programs
//! made. (Of more kinds of file it is compared by `real_captures` and `real_recordings`.)

use super::*;
use mrt::{CaptureFault, FaultKind};

/// What `gzip` made of `hello`.
const GZIP: [u8; 25] = [
    0x1f, 0x8b, 0x08, 0x00, 0x00, 0x00, 0x00, 0x00, 0x00, 0x03, 0xcb, 0x48, 0xcd, 0xc9, 0xc9, 0x07,
    0x00, 0x86, 0xa6, 0x10, 0x36, 0x05, 0x00, 0x00, 0x00,
];

/// The header of a record of TABLE_DUMP_V2 (RFC 6396, 2 and 4.3).
const TABLE: [u8; 12] = [
    0x65, 0x53, 0xf1, 0x00, 0x00, 0x0d, 0x00, 0x01, 0x00, 0x00, 0x00, 0x00,
];

/// That the first record is cut short.
const TRUNCATED: CaptureFault = CaptureFault {
    kind: FaultKind::Truncated,
    offset: 0,
};

/// That a read failed.
const DEVICE: CaptureFault = CaptureFault {
    kind: FaultKind::Device,
    offset: 0,
};

/// The note that a file is of this form, for a command.
fn of_form(command: CaptureCommand, form: Form) -> Option<Note<'static>> {
    Some(Note::NoCapture {
        file: "a",
        form,
        command,
    })
}

#[test]
fn a_file_without_records_is_named(rt: HostRuntime) {
    let check = CaptureCommand::Check;
    let gzip = without_records(check, "a", &GZIP, Some(TRUNCATED));
    assert!(rt; gzip == of_form(check, Form::Gzip));
    let empty = without_records(check, "a", &[], None);
    assert!(rt; empty == of_form(check, Form::Empty));
}

#[test]
fn a_capture_without_a_session_is_said_to_be_one(rt: HostRuntime) {
    let list = CaptureCommand::List;
    let note = without_records(list, "a", &TABLE, None);
    assert!(rt; note == Some(Note::NoSessions { file: "a" }));
    assert!(rt; without_records(list, "a", &TABLE, Some(TRUNCATED)).is_none());
}

#[test]
fn what_is_not_read_is_not_named(rt: HostRuntime) {
    let list = CaptureCommand::List;
    assert!(rt; without_records(list, "a", &[], Some(DEVICE)).is_none());
    assert!(rt; without_records(list, "a", &GZIP, Some(DEVICE)).is_none());
}

#[test]
fn a_file_without_packets_is_named(rt: HostRuntime) {
    let import = CaptureCommand::Import;
    assert!(rt; without_packets(import, "a", &GZIP) == of_form(import, Form::Gzip));
    assert!(rt; without_packets(import, "a", &TABLE) == of_form(import, Form::Mrt));
    assert!(rt; without_packets(import, "a", &[0xa1, 0xb2, 0xc3, 0xd4]).is_none());
}
