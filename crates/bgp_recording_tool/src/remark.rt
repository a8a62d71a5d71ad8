//! What there is to tell of a recording, besides what is answered.

ghost use Rattle.std.specs.Prelude.{◌≡◌, ◌++◌, OnOk, OnErr};
ghost use Rattle.bgp_recording_tool.specs.Remarks.{AddsTold, IsHelp, refused_remark, some_of};

use bgp_import::{Help, Note, Refusal};
use bgp_open::RouteOffer;
use bgp_tool::Note as ToolNote;
use std::alloc::{AllocError, Allocator};
use std::fmt;

/// What there is to tell of a recording or of one of its connections, besides what is answered: one
/// sentence.
#[derive(Clone, Copy, Debug, PartialEq, Eq)]
pub struct Remark {
    /// The number of the connection that it is about, counted from 1, where several are told of.
    pub connection: Option<usize>,
    /// What is told.
    pub kind: RemarkKind,
}

/// What a remark tells.
#[derive(Clone, Copy, Debug, PartialEq, Eq)]
pub enum RemarkKind {
    /// How the capture of a connection was made.
    Made(Note),
    /// A connection is answered yes, and the local system sent nothing.
    NothingSent,
    /// An UPDATE of a confederation (RFC 5065) is among the records that were judged.
    Confederation,
    /// Nothing is configured to be offered about routes, though both OPENs offer several paths for
    /// a prefix (RFC 7911) or IPv6 next hops of IPv4 routes (RFC 8950): what the OPEN offers that
    /// was sent.
    Without(RouteOffer),
    /// A connection is answered no, in one order of its messages that the packets allow.
    No {
        /// How many records come before the first impossible one.
        before: u64,
        /// The number of the packet that shows that one, counted from 1.
        packet: u64,
        /// How many seconds after it came a received message is handled at the latest.
        within: u16,
    },
    /// A connection is answered unfinished, in one order of its messages that the packets allow.
    OneOrder {
        /// How many seconds after it came a received message is handled at the latest.
        within: u16,
    },
    /// A connection is answered no, over all orders of its messages that the packets allow.
    NoOrder {
        /// How many sent messages come before the first that none explains.
        before: usize,
        /// The number of the packet that shows that one, counted from 1.
        packet: u64,
        /// How many seconds after it came a received message is handled at the latest.
        within: u16,
    },
    /// A connection is answered yes, and the order that is made isn't one: another order of its
    /// messages that the packets allow is.
    AnotherOrder,
    /// A connection is answered unfinished, over all orders of its messages that the packets allow,
    /// and the order that is made is a no.
    AllOrders,
    /// The recording or a connection is refused: what helps.
    Refused(Help),
    /// The session's addresses are of two families, between which no packet goes.
    TwoFamilies,
    /// The session has one address on both sides, and the local system's port isn't named.
    OneAddress,
}

impl fmt::Display for Remark {
    fn fmt<W: fmt::Write>(&self, f: &mut fmt::Formatter<W>) -> fmt::Result {
        match self.connection {
            Some(number) => write!(f, "connection {number}: {}", self.kind),
            None => write!(f, "{}", self.kind),
        }
    }
}

impl fmt::Display for RemarkKind {
    fn fmt<W: fmt::Write>(&self, f: &mut fmt::Formatter<W>) -> fmt::Result {
        match *self {
            RemarkKind::Made(note) => write!(f, "{note}"),
            RemarkKind::NothingSent => {
                f.write_str("no message was sent: nothing of the local system was judged")
            }
            RemarkKind::Confederation => write!(f, "{}", ToolNote::Confederation),
            RemarkKind::Without(offer) => write!(f, "{}", ToolNote::Without { offer }),
            RemarkKind::No {
                before,
                packet,
                within,
            } => write!(
                f,
                "no at record {}: packet {packet} shows it; this is about one order of the \
                 messages that these packets allow if each is handled within {within} s (--within)",
                u128::from(before) + 1
            ),
            RemarkKind::OneOrder { within } => write!(
                f,
                "unfinished: this is about one order of the messages that these packets allow if \
                 each is handled within {within} s (--within)"
            ),
            RemarkKind::NoOrder {
                before,
                packet,
                within,
            } => write!(
                f,
                "no at packet {packet}: it shows sent message {}; no order that these packets \
                 allow within {within} s explains it",
                before as u128 + 1
            ),
            RemarkKind::AnotherOrder => f.write_str(
                "the order that bgp import makes isn't a yes: another that these packets allow is",
            ),
            RemarkKind::AllOrders => f.write_str(
                "the order that bgp import makes is a no: over all that these packets allow it is \
                 unfinished",
            ),
            RemarkKind::Refused(help) => write!(f, "{help}"),
            RemarkKind::TwoFamilies => f.write_str(
                "--local and --peer are addresses of two families, and a recording has no session \
                 between them",
            ),
            RemarkKind::OneAddress => f.write_str(
                "where --local and --peer are one address, a recording wants --local-port",
            ),
        }
    }
}

/// What helps where the recording, or the connection of this number, is refused, if anything does.
pub(crate) fn refused_remark(connection: Option<usize>, refusal: Refusal) -> Option<Remark>
    ensures { result ≡ refused_remark connection refusal }
{
    let help = refusal.help()?;
    Some(Remark {
        connection,
        kind: RemarkKind::Refused(help),
    })
}

/// Adds what helps, if anything does and there is memory for it.
pub(crate) fn add_help<A: Allocator + Copy>(
    remarks: &mut Vec<Remark, A>,
    connection: Option<usize>,
    refusal: Refusal,
)
    ensures { AddsTold remarks.old.items remarks.new.items (IsHelp connection refusal) }
{
    // Without memory the refusal is told alone.
    let _ = add_remarks(remarks, &[refused_remark(connection, refusal)]);
}

/// Adds those that there are, or none where a growth is refused.
pub(crate) fn add_remarks<A: Allocator + Copy>(
    remarks: &mut Vec<Remark, A>,
    more: &[Option<Remark>],
) -> Result<(), AllocError>
    ensures ok { OnOk result (remarks.new.items ≡ remarks.old.items ++ some_of more.now) }
    ensures err { OnErr result (remarks.new.items ≡ remarks.old.items) }
{
    let count = remarks.len();
    for remark in more {
        if let Some(remark) = *remark {
            if remarks.push(remark).is_err() {
                remarks.truncate(count);
                return Err(AllocError);
            }
        }
    }
    Ok(())
}
