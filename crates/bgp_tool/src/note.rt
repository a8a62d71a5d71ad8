//! What the program says on standard error.

use crate::error_words::ErrorWords;
use crate::front::Form;
use crate::front_note::{Word, put_form};
use crate::offer_note::OfferWords;
use crate::pair_fault::{PairEnd, PairFault};
use crate::refusal_note::put_refusal;
use crate::seen::Seen;
use bgp_open::RouteOffer;
use mrt::{CaptureFault, Endpoints, MOST_OTHERS};
use std::fmt;
use std::io::ErrorKind;

/// A command that reads a capture or a recording of packets.
#[derive(Clone, Copy, Debug, PartialEq, Eq)]
pub enum CaptureCommand {
    /// `bgp decode --mrt`.
    Decode,
    /// `bgp judge`.
    Judge,
    /// `bgp import`.
    Import,
    /// `bgp list`.
    List,
    /// `bgp check`.
    Check,
}

/// That no record of a session was met.
#[derive(Clone, Copy, Debug, PartialEq, Eq)]
pub struct Unmet {
    /// The different pairs of addresses of the records of other sessions, in the order of their
    /// first records: the first nine. If there are fewer, `None` follows them.
    pub others: [Option<Endpoints>; MOST_OTHERS],
}

/// What there is to tell of a command's end, besides its exit status: one sentence.
#[derive(Clone, Copy, Debug, PartialEq, Eq)]
pub enum Note<'a> {
    /// The file can't be opened.
    Unopened {
        /// Its name.
        file: &'a str,
        /// Why.
        error: ErrorKind,
    },
    /// A read of the file failed.
    Unread {
        /// Its name, or `-` for standard input.
        file: &'a str,
        /// How many of its octets were read before.
        octet: u64,
        /// Why: `None` where the file is too long to be counted.
        error: Option<ErrorKind>,
    },
    /// A write of the output failed.
    Unwritten {
        /// How many octets were written before.
        octet: u64,
        /// Why: `None` where the writer didn't tell.
        error: Option<ErrorKind>,
    },
    /// Memory was refused.
    OutOfMemory {
        /// The file that was read, or `-` for standard input.
        file: &'a str,
        /// How many of its octets were read.
        octet: u64,
    },
    /// No record of the session is in the capture.
    NoSession {
        /// Its name, or `-` for standard input.
        file: &'a str,
        /// The different pairs of addresses of the records of other sessions, as in [`Unmet`].
        others: [Option<Endpoints>; MOST_OTHERS],
    },
    /// No record of any session is in the capture, which was read to its end.
    NoSessions {
        /// Its name, or `-` for standard input.
        file: &'a str,
    },
    /// The file is no raw stream.
    NoStream {
        /// Its name, or `-` for standard input.
        file: &'a str,
        /// What it is.
        form: Form,
    },
    /// The file is no capture, or no recording of packets.
    NoCapture {
        /// Its name, or `-` for standard input.
        file: &'a str,
        /// What it is.
        form: Form,
        /// What read it.
        command: CaptureCommand,
    },
    /// The capture is refused.
    Refused {
        /// Its name, or `-` for standard input.
        file: &'a str,
        /// Why, and where.
        fault: CaptureFault,
        /// Whether no record of the session was met, neither before nor at that place.
        unmet: Option<Unmet>,
    },
    /// The capture is judged yes, and doesn't show that the router did anything.
    NothingDone {
        /// Its name, or `-` for standard input.
        file: &'a str,
        /// What it shows: no change that leaves Idle, or no message that was sent.
        seen: Seen,
    },
    /// ROUTE-REFRESH messages that the local system received were passed over.
    ReceivedPassedOver {
        /// How many, which isn't 0.
        count: u64,
    },
    /// ROUTE-REFRESH messages that it sent were.
    SentPassedOver {
        /// How many, which isn't 0.
        count: u64,
    },
    /// An UPDATE of a confederation is among the records that were judged.
    Confederation,
    /// Nothing is configured to be offered about routes, though both OPENs offer several paths to
    /// a prefix (RFC 7911) or IPv6 next hops of IPv4 routes (RFC 8950).
    Without {
        /// What the OPEN offers that was sent.
        offer: RouteOffer,
    },
    /// A pair of ends gave up.
    Pair {
        /// The name of the left end's capture.
        file: &'a str,
        /// Why.
        fault: PairFault,
    },
}

/// What is read as it is told: a file's name, or standard input for `-`.
#[derive(Clone, Copy)]
pub(crate) struct Told<'a>(pub(crate) &'a str);

impl fmt::Display for Told<'_> {
    fn fmt<W: fmt::Write>(&self, f: &mut fmt::Formatter<W>) -> fmt::Result {
        if self.0 == "-" {
            f.write_str("standard input")
        } else {
            write!(f, "{}", Name(self.0))
        }
    }
}

/// A file's name as it is told: quoted where it is empty or has control characters, which could
/// make a terminal say something else.
#[derive(Clone, Copy)]
struct Name<'a>(&'a str);

impl fmt::Display for Name<'_> {
    fn fmt<W: fmt::Write>(&self, f: &mut fmt::Formatter<W>) -> fmt::Result {
        let name = self.0;
        if name.is_empty() || name.contains(char::is_control) {
            write!(f, "{name:?}")
        } else {
            f.write_str(name)
        }
    }
}

impl fmt::Display for Note<'_> {
    fn fmt<W: fmt::Write>(&self, f: &mut fmt::Formatter<W>) -> fmt::Result {
        match *self {
            Note::Unopened { file, error } => write!(f, "{}: {}", Told(file), ErrorWords(error)),
            Note::Unread { file, octet, error } => put_unread(f, file, octet, error),
            Note::Unwritten { octet, error } => put_unwritten(f, octet, error),
            Note::OutOfMemory { file, octet } => {
                write!(f, "{}: memory was refused at octet {octet}", Told(file))
            }
            Note::NoSession { file, others } => put_no_session(f, file, Unmet { others }),
            Note::NoSessions { file } => write!(
                f,
                "{}: no record of a session is in the file: the entries of a table aren't judged",
                Told(file)
            ),
            Note::NoStream { file, form } => put_form(f, file, form, "bgp decode -"),
            Note::NoCapture {
                file,
                form,
                command,
            } => put_form(f, file, form, typed(command)),
            Note::Refused { file, fault, unmet } => put_refusal(f, file, fault, unmet),
            Note::NothingDone { file, seen } => put_nothing_done(f, file, seen),
            Note::ReceivedPassedOver { count } => {
                write!(f, "received ROUTE-REFRESH messages passed over: {count}")
            }
            Note::SentPassedOver { count } => {
                write!(f, "sent ROUTE-REFRESH messages passed over: {count}")
            }
            Note::Confederation => f.write_str(
                "an AS_PATH has confederation segments (RFC 5065), which are not judged",
            ),
            Note::Without { offer } => write!(
                f,
                "judged without what both OPENs offer: --offers {}",
                OfferWords(offer)
            ),
            Note::Pair { file, fault } => put_pair(f, file, fault),
        }
    }
}

/// A command that reads standard input, as it is typed, with two dots for its options.
fn typed(command: CaptureCommand) -> &'static str {
    match command {
        CaptureCommand::Decode => "bgp decode --mrt .. -",
        CaptureCommand::Judge => "bgp judge .. -",
        CaptureCommand::Import => "bgp import .. - OUT",
        CaptureCommand::List => "bgp list -",
        CaptureCommand::Check => "bgp check -",
    }
}

/// The sentence on a read that failed, or on a file that is too long to be counted.
fn put_unread<W: fmt::Write>(
    f: &mut fmt::Formatter<W>,
    file: &str,
    octet: u64,
    error: Option<ErrorKind>,
) -> fmt::Result {
    let file = Told(file);
    match error {
        Some(error) => {
            let words = ErrorWords(error);
            write!(f, "{file}: read failed at octet {octet}: {words}")
        }
        None => write!(f, "{file}: too long, read up to octet {octet}"),
    }
}

/// The sentence on a write that failed.
fn put_unwritten<W: fmt::Write>(
    f: &mut fmt::Formatter<W>,
    octet: u64,
    error: Option<ErrorKind>,
) -> fmt::Result {
    match error {
        Some(error) => {
            let words = ErrorWords(error);
            write!(f, "standard output: write failed at octet {octet}: {words}")
        }
        None => write!(f, "standard output: write failed at octet {octet}"),
    }
}

/// The sentence on a capture of which no record of the session was read.
fn put_no_session<W: fmt::Write>(
    f: &mut fmt::Formatter<W>,
    file: &str,
    unmet: Unmet,
) -> fmt::Result {
    write!(f, "{}: ", Told(file))?;
    put_unmet(f, file, unmet)
}

/// How many pairs of addresses are named.
const MOST_NAMED: usize = MOST_OTHERS - 1;

/// Writes the pairs of addresses, eight at the most, and whether there are others.
fn put_others<W: fmt::Write>(
    f: &mut fmt::Formatter<W>,
    first: Endpoints,
    others: &[Option<Endpoints>; MOST_OTHERS],
) -> fmt::Result {
    let verb = if others[1].is_some() {
        "other sessions have"
    } else {
        "another session has"
    };
    let Endpoints { peer, local } = first;
    write!(f, "; {verb} the peer {peer} and the local address {local}")?;
    for other in &others[1..MOST_NAMED] {
        if let Some(Endpoints { peer, local }) = other {
            write!(f, ", the peer {peer} and the local address {local}")?;
        }
    }
    if others[MOST_NAMED].is_some() {
        f.write_str(", and others")?;
    }
    Ok(())
}

/// That no record of the session was read, between which addresses those of other sessions are, and
/// what prints the addresses of each.
pub(crate) fn put_unmet<W: fmt::Write>(
    f: &mut fmt::Formatter<W>,
    file: &str,
    unmet: Unmet,
) -> fmt::Result {
    f.write_str("no record of this session was read")?;
    let Some(first) = unmet.others[0] else {
        return Ok(());
    };
    put_others(f, first, &unmet.others)?;
    write!(
        f,
        ": `bgp list {}` prints the addresses of each session",
        Word(file)
    )
}

/// The sentence on a capture that is judged yes and shows nothing that the router did.
fn put_nothing_done<W: fmt::Write>(
    f: &mut fmt::Formatter<W>,
    file: &str,
    seen: Seen,
) -> fmt::Result {
    let lacks = match (seen.left_idle, seen.sent) {
        (true, _) => "no message that was sent",
        (false, true) => "no change of state that leaves Idle",
        (false, false) => "no change of state that leaves Idle and no message that was sent",
    };
    write!(
        f,
        "{}: {lacks} is in the capture: neither yes nor no says anything of the router then, since \
         that takes what it sent, what it received and its changes of state, from Idle on",
        Told(file)
    )
}

/// The sentence on a pair of ends that gave up.
fn put_pair<W: fmt::Write>(f: &mut fmt::Formatter<W>, file: &str, fault: PairFault) -> fmt::Result {
    let (end, error) = match fault {
        PairFault::Capture(end, error) => (end, error),
        PairFault::Connection(error) => {
            return write!(f, "the connection on 127.0.0.1: {}", ErrorWords(error));
        }
        PairFault::Memory => return f.write_str("memory was refused"),
    };
    write!(f, "{}", Name(file))?;
    if end == PairEnd::Right {
        f.write_str(".right")?;
    }
    match error {
        Some(error) => write!(f, ": {}", ErrorWords(error)),
        None => f.write_str(": too long"),
    }
}
