//! What is answered of a capture that is explained.

use crate::fractions::Fractions;
use crate::kept::KeptRecord;
use crate::left_out::LeftOut;
use crate::moments::Moments;
use crate::skipped::Skipped;
use crate::tally::Tally;
use bgp_judge::Verdict;
use bgp_open::Link;
use bgp_reason::{Possible, Told};
use bgp_tool::Seen;
use mrt::CaptureFault;
use std::alloc::{Allocator, Global};

/// The first impossible record of a session, which is kept.
#[derive(Drop)]
pub struct Impossible<A: Allocator = Global> {
    /// Its number among the records that are judged, from 1.
    pub number: u64,
    /// The record.
    pub record: KeptRecord<A>,
}

/// Why a verdict is a no or unfinished: what the records tell, and all that may follow them. Of a
/// no it is those before the first impossible record.
#[derive(Drop)]
pub struct Reason<A: Allocator = Global> {
    /// What the records tell.
    pub told: Told,
    /// When those were that tell it, and the NOTIFICATION that was sent already.
    pub moments: Moments,
    /// The link on which a message is sent that follows them.
    pub link: Option<Link>,
    /// What judging leaves out of what both OPENs offer: the first one that was sent, and the one
    /// that settles the link.
    pub left_out: LeftOut,
    /// The message that was received last; empty where none was.
    pub last_message: Vec<u8, A>,
    /// The first impossible record, where the verdict is a no.
    pub impossible: Option<Impossible<A>>,
    /// What may follow the records: all of it, and nothing else.
    pub possible: Possible,
}

/// What a capture holds that was read to its end. What its records show is told of all of them
/// where they are judged yes.
#[derive(Clone, Copy, Debug, PartialEq, Eq)]
pub struct Totals {
    /// How many octets it has.
    pub octets: u64,
    /// How many records of the session.
    pub tally: Tally,
    /// What these show of what the local system did.
    pub seen: Seen,
    /// Whether these show an UPDATE of a confederation, also after the first impossible one.
    pub confederation: bool,
    /// What judging leaves out of what both OPENs offer, by the records up to the first impossible
    /// one.
    pub left_out: LeftOut,
    /// What it holds beside the records of the session.
    pub skipped: Skipped,
    /// The fractions of the seconds of those records that the reason names.
    pub fractions: Fractions,
}

/// What judging a capture answers, and why.
#[derive(Drop)]
pub struct Explained<A: Allocator = Global> {
    /// The verdict, or the fault for which there is none, as
    /// [`judge_with`](bgp_judge::judge_with) answers it.
    pub answer: Result<Verdict<A>, CaptureFault>,
    /// Why the verdict is a no or unfinished; none where memory was refused for it. A yes has its
    /// ends, and a fault its place.
    pub reason: Option<Reason<A>>,
    /// What the capture holds, where there is a verdict.
    pub totals: Totals,
}
