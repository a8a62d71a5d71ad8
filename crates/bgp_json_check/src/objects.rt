//! The objects of lines, but for those of routes.

use crate::member::JudgedEnd;
use bgp_json_verdicts::At;
use bgp_list::PeerAs;
use bgp_machine::Fsm;
use bgp_open::Families;
use bgp_values::Direction;
use bgp_why::Place;

/// What is answered of an end.
#[derive(Clone, Copy)]
pub enum CheckVerdict<'a> {
    /// A yes: the AS number that its peer has, or hasn't; the number of the highest state that its
    /// records tell (RFC 6396, 4.4.1); how many routes the ends before had, if there were some; and
    /// whether routes are asked for.
    Yes(JudgedEnd, PeerAs, u16, &'a [usize], bool),
    /// A no: where it stands, and what was done there, if that can be said. The number of the record
    /// is 0, if it has none.
    No(Place, JudgedEnd, &'a [u8]),
    /// An unfinished: where the last record stands.
    Unfinished(Place, JudgedEnd),
    /// It isn't judged: whether its line leaves out its AS number, and why.
    NotJudged(JudgedEnd, bool, &'static str),
}

/// What is said beside a verdict.
#[derive(Clone, Copy)]
pub enum CheckDetail<'a> {
    /// A possible end of a yes: its number among them, its state, the families that are disabled,
    /// and how many routes it has.
    End(u64, Fsm, Families, u64),
    /// An end before: its number among them, the families that are disabled, and how many routes it
    /// has.
    EndBefore(u64, Families, u64),
    /// So many ROUTE-REFRESH messages (RFC 2918) of a direction aren't judged.
    RefreshNotJudged(Direction, u64),
    /// So many octets of a direction are of an incomplete last message.
    Incomplete(Direction, u64),
    /// Octets of a direction aren't read: behind what, at which octet that stands, and how many.
    NotRead(Direction, &'static str, u64, u64),
    /// Where the impossible record stands in the order that `bgp import` makes, and what it shows
    /// was done.
    InMadeOrder(At, &'a [u8]),
    /// One order is judged, of those that the packets may allow: in it so many messages are delayed.
    OneOrder(u64),
    /// A yes is that of another order than `bgp import` makes.
    AnotherOrder,
    /// What is unfinished is so over all orders, where the one that `bgp import` makes is a no.
    AllOrders,
    /// A router that handles a message later than within so many seconds may do this: with more
    /// patience this is the answer.
    Late(u16, &'static str),
    /// The `bgp judge` command that reproduces a verdict.
    Repeat(&'a [u8]),
    /// The session is open at the end of the file.
    Open,
}

/// How many ends there are of each verdict, and how many refusals.
#[derive(Clone, Copy, Debug, PartialEq, Eq)]
pub struct Summary {
    /// All ends.
    pub ends: u64,
    /// Those of a yes.
    pub yes: u64,
    /// Those of a no.
    pub no: u64,
    /// Those that are unfinished.
    pub unfinished: u64,
    /// Those that aren't judged.
    pub not_judged: u64,
    /// What is refused.
    pub refused: u64,
}

/// What is said of a whole file.
#[derive(Clone, Copy)]
pub enum CheckTotal {
    /// The recording is cut short in this packet.
    CutShort(u64),
    /// No connection at this port holds octets.
    NothingAt(u16),
    /// There is no record of a session.
    Nothing,
    /// How many ends there are of each verdict.
    Summary(Summary),
}
