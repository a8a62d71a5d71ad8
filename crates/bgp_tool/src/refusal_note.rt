//! What is told of a capture that is refused: what is wrong, where, and what helps.

use crate::front_note::Word;
use crate::note::{Told, Unmet, put_unmet};
use mrt::{CaptureFault, FaultKind};
use std::fmt;

/// The sentence on a capture that is refused.
pub(crate) fn put_refusal<W: fmt::Write>(
    f: &mut fmt::Formatter<W>,
    file: &str,
    fault: CaptureFault,
    unmet: Option<Unmet>,
) -> fmt::Result {
    let CaptureFault { kind, offset } = fault;
    let (front, rest) = words_of(kind);
    write!(f, "{}: {front} at octet {offset}{rest}", Told(file))?;
    if kind == FaultKind::Truncated && offset > 0 {
        write!(
            f,
            "; `head -c {offset} {}` is what comes before",
            Word(file)
        )?;
    }
    match unmet {
        Some(unmet) => {
            f.write_str("; ")?;
            put_unmet(f, file, unmet)
        }
        None => Ok(()),
    }
}

/// What is wrong and what helps: the words before and after the octet.
fn words_of(kind: FaultKind) -> (&'static str, &'static str) {
    match kind {
        FaultKind::Truncated => (
            "the capture ends inside the record",
            ": it was cut short, or is still being written",
        ),
        FaultKind::TooLong => (
            "the record",
            " is longer than any that is read: --extended reads messages of up to 65535 octets \
             (RFC 8654), or no record begins there",
        ),
        FaultKind::Body => (
            "the record",
            " doesn't have the fields of its subtype (RFC 6396, 4.4): what wrote or copied the \
             file broke it there",
        ),
        FaultKind::BadState => (
            "the change of state",
            " names a state that RFC 6396, 4.4.1, doesn't have, as FRR does with 7 and 8: leave \
             such changes out",
        ),
        FaultKind::NotAMessage => (
            "the record",
            " doesn't hold just one whole message: give each message a record of its own, with \
             all of its octets",
        ),
        FaultKind::TimeBack => (
            "the record",
            " has an earlier second than the session's record before it: give the records in the \
             order in which the router handled them",
        ),
        FaultKind::RouteRefresh => (
            "the record",
            " holds a ROUTE-REFRESH (RFC 2918), which isn't judged: --skip-refresh passes over it if \
             nothing else is wrong in its header; --no-refresh says that the router doesn't offer it",
        ),
        FaultKind::AddPath => (
            "the record",
            " has additional paths (RFC 8050), which aren't read: make a capture of the session \
             without them (RFC 7911)",
        ),
        FaultKind::Device => ("the capture can't be read", ""),
        FaultKind::Memory => ("memory was refused", ""),
    }
}
