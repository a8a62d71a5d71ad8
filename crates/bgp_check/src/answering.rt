//! What is answered of an end of a session.

ghost use Rattle.std.specs.Prelude.{◌≡◌, IfOk, OnErr, IfSome, None, Option, map, option_map};
ghost use Rattle.bgp_open.specs.Open.{OpenFields};
ghost use Rattle.bgp_open.specs.OpenFault.{IsWellFormed};
ghost use Rattle.mrt.specs.Reader.{shown_of};
ghost use Rattle.bgp_check.specs.Answered.{IsAnswerTo, answer_value, heard_as, number_of};
ghost use Rattle.bgp_check.specs.Answered.{peer_as_by};
ghost use Rattle.bgp_check.specs.Memory.{LacksMemoryAtEnd};
ghost use Rattle.bgp_check.specs.NotJudged.{IsWhyNot};
ghost use Rattle.bgp_check.specs.WatchedEnd.{IsWatchedFor};
ghost use Rattle.bgp_parts.specs.Opens.{HasOwnOpen, HasPeersOpen};
ghost use Rattle.bgp_check.specs.WidestOf.{AreTold, OffersNone};
ghost use Rattle.bgp_watch.specs.Front.{front_value};

use crate::checking::check_records;
use crate::laws::{an_own_fault_is_a_no, what_is_told_holds_over_all, widest_settings_are_widest};
use crate::not_judged::{NotJudged, why_with_opens};
use crate::opens::{own_open, peers_open};
use crate::peer_as::PeerAs;
use crate::settings::as_to;
use crate::widest::{Widest, widest_of};
use bgp_judge::{Tracker, Verdict};
use bgp_open::{Config, read_fields};
use bgp_prefix::Session;
use bgp_watch::Front;
use mrt::Record;
use std::alloc::{AllocError, Allocator, Global};

/// The verdict on an end of a session, and for which settings it is told.
#[derive(Drop)]
pub struct Judged<A: Allocator = Global> {
    /// The AS number that its OPEN tells, if it sent one.
    pub as_number: Option<u32>,
    /// The AS number that its peer has to have.
    pub peer_as: PeerAs,
    /// The configuration under which the records have the verdict.
    pub under: Config,
    /// The verdict over all configurations under which the OPEN that it sent is its own.
    pub verdict: Verdict<A>,
}

/// What is answered of an end of a session.
#[derive(Drop)]
pub enum Answer<A: Allocator = Global> {
    /// It isn't judged.
    NotJudged(NotJudged),
    /// It is.
    Judged(Judged<A>),
}

/// What is answered of an end of a session, and where that stood before it was left.
#[derive(Drop)]
pub struct WatchedEnd<A: Allocator = Global> {
    /// What is answered.
    pub answer: Answer<A>,
    /// Under the configuration of the verdict the longest front of the records that has an end in
    /// Established, if it is known.
    pub before: Option<Front<A>>,
}

/// The AS number that an OPEN tells.
fn number_of(own: Option<&[u8]>) -> Option<u32>
    requires { IfSome own (λ o. IsWellFormed o.now) }
    ensures { result ≡ number_of (option_map (λ o. o.now) own.entry) }
{
    match own {
        Some(own) => Some(as_to(&read_fields(own)?, true)),
        None => None,
    }
}

/// The AS number that is wanted of the peer: 0 where its OPEN says 0, which no configuration wants.
/// It plays no part where the OPEN's fields can't be told.
fn heard_as(widest: &Widest) -> u32
    ensures { result ≡ heard_as widest.now.wanting }
{
    match widest.wanting {
        Some(wanting) => wanting.parts.peer_as,
        None => 0,
    }
}

/// Whether the fields of the peer's OPEN can be told, and for which AS number then.
fn peer_as(wants_peers: bool, peers: Option<&[u8]>, number: u32) -> PeerAs
    ensures { (told : Option OpenFields) → AreTold (option_map (λ o. o.now) peers.entry) told
        → result ≡ peer_as_by wants_peers told number }
{
    let Some(peers) = peers else {
        return PeerAs::Any;
    };
    match read_fields(peers) {
        Some(_) if wants_peers => PeerAs::Is(number),
        Some(_) => PeerAs::OtherThan(number),
        None => PeerAs::Any,
    }
}

/// Judges the records of an end that sent this OPEN, or none, and heard this one, or none.
fn judge_end<A: Allocator + Copy, T: Tracker<A>>(
    alloc: A,
    session: &Session,
    own: Option<&[u8]>,
    peers: Option<&[u8]>,
    records: &[Record<'_>],
) -> Result<WatchedEnd<A>, AllocError>
    requires own { HasOwnOpen (map shown_of records.now) (option_map (λ o. o.now) own) }
    requires form { IfSome own (λ o. IsWellFormed o.now) }
    requires peers { HasPeersOpen (map shown_of records.now)
        (option_map (λ o. o.now) peers) }
    requires none { IsWhyNot (map shown_of records.now) None }
    requires family { ¬ OffersNone (option_map (λ o. o.now) own) }
    ensures judged { IfOk result (λ watched.
        IsAnswerTo session.now (map shown_of records.now) (answer_value watched.answer)) }
    ensures before { IfOk result (λ watched. IsWatchedFor (map shown_of records.now)
        (answer_value watched.answer) (option_map front_value watched.before)) }
    ensures memory { OnErr result (LacksMemoryAtEnd T.may_lack_at_start T.may_lack session.now
        (map shown_of records.now)) }
{
    widest_settings_are_widest();
    what_is_told_holds_over_all();
    an_own_fault_is_a_no();
    let Some(widest) = widest_of(session, own, peers) else {
        unreachable!();
    };
    let checked = check_records::<A, T>(alloc, &widest, records)?;
    let judged = Judged {
        as_number: number_of(own),
        peer_as: peer_as(checked.wants_peers, peers, heard_as(&widest)),
        under: checked.under,
        verdict: checked.verdict,
    };
    Ok(WatchedEnd {
        answer: Answer::Judged(judged),
        before: checked.before,
    })
}

/// Answers as [`check_end`] does, and tells the longest front of the records that has an end in
/// Established, under the configuration of the verdict. Nothing is judged for it: what is judged is
/// watched ([`watch_records`](bgp_watch::watch_records)), which says when it is known.
pub fn watch_end<A: Allocator + Copy, T: Tracker<A>>(
    alloc: A,
    session: &Session,
    records: &[Record<'_>],
) -> Result<WatchedEnd<A>, AllocError>
    ensures answer { IfOk result (λ watched.
        IsAnswerTo session.now (map shown_of records.now) (answer_value watched.answer)) }
    ensures before { IfOk result (λ watched. IsWatchedFor (map shown_of records.now)
        (answer_value watched.answer) (option_map front_value watched.before)) }
    ensures memory { OnErr result (LacksMemoryAtEnd T.may_lack_at_start T.may_lack session.now
        (map shown_of records.now)) }
{
    let own = own_open(records);
    let peers = peers_open(records);
    match why_with_opens(records, own, peers) {
        Some(why) => Ok(WatchedEnd {
            answer: Answer::NotJudged(why),
            before: None,
        }),
        None => judge_end::<A, T>(alloc, session, own, peers, records),
    }
}

/// What is answered of the local system of a session, by the records of a stretch of it: why it
/// isn't judged; or the verdict over all configurations under which the OPEN that it sent is its
/// own, and it is a no where that OPEN has an own fault. Of the session it takes the two addresses.
///
/// `AllocError` is answered where the tracker was refused memory, and then nothing else: only of an
/// end that is judged, under a configuration that [`check_records`](crate::check_records) judges.
pub fn check_end<A: Allocator + Copy, T: Tracker<A>>(
    alloc: A,
    session: &Session,
    records: &[Record<'_>],
) -> Result<Answer<A>, AllocError>
    ensures answer { IfOk result (λ answer.
        IsAnswerTo session.now (map shown_of records.now) (answer_value answer)) }
    ensures memory { OnErr result (LacksMemoryAtEnd T.may_lack_at_start T.may_lack session.now
        (map shown_of records.now)) }
{
    let watched = watch_end::<A, T>(alloc, session, records)?;
    Ok(watched.answer)
}
