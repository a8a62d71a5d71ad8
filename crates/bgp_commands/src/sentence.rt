//! What the program says on standard error, one sentence a line.

use bgp_import::{self as import, CutShort, Help, NotLookedInto, Refusal};
use bgp_list::NothingListed;
use bgp_recording_tool::Remark;
use bgp_tool::{ErrorWords, Note};
use std::fmt;
use std::io::ErrorKind;

/// One sentence on standard error, without the program's name before it.
#[derive(Clone, Copy, Debug)]
pub enum Sentence<'a> {
    /// What a command over octets or an MRT file has to say.
    Note(Note<'a>),
    /// A pcap file is cut short.
    CutShort(CutShort),
    /// What there is to say about a connection in a pcap file.
    Remark(Remark),
    /// Why no MRT file is made of a pcap file.
    Refused(Refusal),
    /// What helps against a refusal.
    Help(Help),
    /// How an MRT file was made of a pcap file.
    Made(import::Note),
    /// What stands at this octet of an MRT file is no record, or a longer one than is read.
    NoRecord {
        /// The file's name, or `-` for standard input.
        file: &'a str,
        /// The octet.
        offset: u64,
    },
    /// A pcap file has no connection to list.
    NothingListed(NothingListed),
    /// Packets are wrapped in something that isn't read.
    NotLookedInto(NotLookedInto),
    /// No end in a pcap file is judged.
    NoEndOfRecording(bgp_report::NoRecordingJudged),
    /// No end in an MRT file is judged.
    NoEndOfCapture(bgp_report::NoCaptureJudged),
    /// `import` names one file twice.
    OneName {
        /// The name.
        file: &'a str,
    },
    /// A write to a file failed.
    Unwritten {
        /// The file's name.
        file: &'a str,
        /// How many octets were written before.
        octet: u64,
        /// Why.
        error: Option<ErrorKind>,
    },
    /// `speak` waits for its peer.
    Waiting {
        /// The port.
        port: u16,
    },
    /// `speak` can't listen at its port.
    NotListening {
        /// The port.
        port: u16,
        /// Why.
        error: ErrorKind,
    },
    /// `speak` came to no connection.
    NoConnection {
        /// The port.
        port: u16,
        /// Why.
        error: ErrorKind,
    },
    /// `speak` ran out of memory.
    NoMemory,
}

impl fmt::Display for Sentence<'_> {
    fn fmt<W: fmt::Write>(&self, f: &mut fmt::Formatter<W>) -> fmt::Result {
        match *self {
            Sentence::Note(note) => write!(f, "{note}"),
            Sentence::CutShort(cut_short) => write!(f, "{cut_short}"),
            Sentence::Remark(remark) => write!(f, "{remark}"),
            Sentence::Refused(refusal) => write!(f, "{refusal}"),
            Sentence::Help(help) => write!(f, "{help}"),
            Sentence::Made(note) => write!(f, "{note}"),
            Sentence::NoRecord { file, offset } => write!(
                f,
                "{file:?}: the record at octet {offset} is longer than any that is read, or none begins there"
            ),
            Sentence::NothingListed(nothing) => write!(f, "{nothing}"),
            Sentence::NotLookedInto(wrapped) => write!(f, "{wrapped}"),
            Sentence::NoEndOfRecording(nothing) => write!(f, "{nothing}"),
            Sentence::NoEndOfCapture(nothing) => write!(f, "{nothing}"),
            Sentence::OneName { file } => {
                write!(f, "{file:?} is FILE and OUT: give the capture another name")
            }
            Sentence::Unwritten { file, octet, error } => put_unwritten(f, file, octet, error),
            Sentence::Waiting { port } => write!(f, "waiting for a peer at 127.0.0.1:{port}"),
            Sentence::NotListening { port, error } => {
                write!(f, "can't listen at 127.0.0.1:{port}: {}", ErrorWords(error))
            }
            Sentence::NoConnection { port, error } => {
                write!(
                    f,
                    "no connection at 127.0.0.1:{port}: {}",
                    ErrorWords(error)
                )
            }
            Sentence::NoMemory => f.write_str("memory was refused"),
        }
    }
}

/// Writes the sentence on a write to a file that failed.
fn put_unwritten<W: fmt::Write>(
    f: &mut fmt::Formatter<W>,
    file: &str,
    octet: u64,
    error: Option<ErrorKind>,
) -> fmt::Result {
    match error {
        Some(error) => {
            let words = ErrorWords(error);
            write!(f, "{file:?}: write failed at octet {octet}: {words}")
        }
        None => write!(f, "{file:?}: write failed at octet {octet}"),
    }
}
