//! The words of what `real_captures` can't bring about, and the number of each status.

use super::*;
use bgp_open::{Families, RouteOffer};
use mrt::{CaptureFault, FaultKind};
use std::fmt;
use std::io::ErrorKind;

/// Each status, and its number.
static CODES: [(Status, u8); 7] = [
    (Status::Done, 0),
    (Status::No, 1),
    (Status::Unfinished, 2),
    (Status::Refused, 3),
    (Status::Memory, 4),
    (Status::Device, 5),
    (Status::Usage, 64),
];

#[test]
fn each_status_has_its_number(rt: HostRuntime) {
    for (status, code) in &CODES {
        assert!(rt; status.code() == *code);
    }
}

/// What is told, and its words.
fn notes() -> [(Note<'static>, &'static str); 16] {
    [
        (
            Note::NothingDone {
                file: "-",
                seen: Seen {
                    left_idle: false,
                    sent: true,
                },
            },
            "standard input: no change of state that leaves Idle is in the capture: neither yes \
         nor no says anything of the router then, since that takes what it sent, what it \
         received and its changes of state, from Idle on",
        ),
        (
            Note::Unopened {
                file: "a\n\u{1b}[2J",
                error: ErrorKind::NotFound,
            },
            "\"a\\n\\u{1b}[2J\": No such file or directory",
        ),
        (
            Note::Unread {
                file: "-",
                octet: 9223372036854775807,
                error: None,
            },
            "standard input: too long, read up to octet 9223372036854775807",
        ),
        (
            Note::Unwritten {
                octet: 0,
                error: None,
            },
            "standard output: write failed at octet 0",
        ),
        (
            Note::OutOfMemory {
                file: "-",
                octet: 65536,
            },
            "standard input: memory was refused at octet 65536",
        ),
        (
            Note::Refused {
                file: "a.mrt",
                fault: CaptureFault {
                    kind: FaultKind::AddPath,
                    offset: 18446744073709551615,
                },
                unmet: None,
            },
            "a.mrt: the record at octet 18446744073709551615 has additional paths (RFC 8050), \
         which aren't read: make a capture of the session without them (RFC 7911)",
        ),
        (
            Note::Refused {
                file: "a.mrt",
                fault: CaptureFault {
                    kind: FaultKind::Device,
                    offset: 36,
                },
                unmet: None,
            },
            "a.mrt: the capture can't be read at octet 36",
        ),
        (
            Note::Refused {
                file: "a.mrt",
                fault: CaptureFault {
                    kind: FaultKind::Memory,
                    offset: 36,
                },
                unmet: None,
            },
            "a.mrt: memory was refused at octet 36",
        ),
        (
            Note::NoSessions { file: "rib.mrt" },
            "rib.mrt: no record of a session is in the file: the entries of a table aren't judged",
        ),
        (
            Note::NoCapture {
                file: "a.pcap.xz",
                form: Form::Xz,
                command: CaptureCommand::Import,
            },
            "a.pcap.xz is compressed by xz: `xzcat a.pcap.xz | bgp import .. - OUT`",
        ),
        (
            Note::NoCapture {
                file: "a.zip",
                form: Form::Zip,
                command: CaptureCommand::Check,
            },
            "a.zip is an archive of zip: `unzip -p a.zip NAME | bgp check -` reads a file that \
         `unzip -l a.zip` lists",
        ),
        (
            Note::Pair {
                file: "-",
                fault: PairFault::Capture(PairEnd::Left, Some(ErrorKind::PermissionDenied)),
            },
            "-: Permission denied",
        ),
        (
            Note::Pair {
                file: "-",
                fault: PairFault::Capture(PairEnd::Right, Some(ErrorKind::StorageFull)),
            },
            "-.right: No space left on device",
        ),
        (
            Note::Pair {
                file: "-",
                fault: PairFault::Connection(ErrorKind::ConnectionReset),
            },
            "the connection on 127.0.0.1: Connection reset by peer",
        ),
        (
            Note::Without {
                offer: RouteOffer {
                    sends: Families { v4: true, v6: true },
                    receives: Families { v4: true, v6: true },
                    next_hops: true,
                },
            },
            "judged without what both OPENs offer: --offers \
         send-v4,send-v6,receive-v4,receive-v6,next-hops",
        ),
        (
            Note::Pair {
                file: "-",
                fault: PairFault::Memory,
            },
            "memory was refused",
        ),
    ]
}

/// Whether what is told has these words.
fn has_words<T: fmt::Display>(alloc: Global, told: &T, words: &str) -> bool {
    match format!(in alloc; "{told}") {
        Ok(text) => text.as_str() == words,
        Err(_) => false,
    }
}

#[test]
fn each_note_has_its_words(rt: HostRuntime) {
    let notes = notes();
    for (note, words) in &notes {
        assert!(rt; has_words(rt.alloc(), note, words));
    }
}
