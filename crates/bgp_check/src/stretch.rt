//! What is told of a stretch of a session.

ghost use Rattle.std.specs.Prelude.{◌≡◌, IfOk, length, map, option_map};
ghost use Rattle.mrt.specs.Reader.{shown_of};
ghost use Rattle.bgp_check.specs.Answered.{answer_value};
ghost use Rattle.bgp_check.specs.StretchTold.{IsStretchTold, answer_by, place_of, told_value};
ghost use Rattle.bgp_check.specs.StretchTold.{with_leaving, with_place};
ghost use Rattle.bgp_check.specs.WatchedEnd.{IsWatchedFor};
ghost use Rattle.bgp_watch.specs.Front.{front_value};

use crate::answering::{Answer, WatchedEnd, watch_end};
use crate::leaving::left_answer;
use crate::opens::{heard_open, own_open};
use crate::passing::{Kept, RefreshOffers, keep};
use crate::session_offers::{extended_in, refresh_in};
use bgp_judge::{Tracker, Verdict};
use bgp_prefix::Session;
use bgp_watch::Front;
use mrt::Record;
use std::alloc::{AllocError, Allocator, Global};

/// What is told of a stretch.
#[derive(Drop)]
pub struct StretchTold<'a, A: Allocator = Global> {
    /// What is answered of the records that are judged.
    pub answer: Answer<A>,
    /// Of these records, under the configuration of the verdict, the longest front that has an end
    /// in Established, if it is known.
    pub before: Option<Front<A>>,
    /// How many records of the stretch stand before the first impossible one, of a no: all, where
    /// that is the one that leaves it.
    pub impossible: Option<usize>,
    /// The records that are judged: those that aren't passed over, and the one that leaves the
    /// stretch, if one does.
    pub records: Vec<Record<'a>, A>,
    /// How many records of the stretch stand before each of them.
    pub places: Vec<usize, A>,
    /// How many ROUTE-REFRESH messages (RFC 2918) are passed over that the local system received.
    pub received: usize,
    /// And that it sent.
    pub sent: usize,
    /// Whether the OPEN that it received offers extended messages (RFC 8654): how long a message
    /// may be that it sent.
    pub extended: bool,
}

/// How many records of the stretch stand before the first impossible one.
fn place_of<A: Allocator>(answer: &Answer<A>, places: &[usize], all: usize) -> Option<usize>
    ensures { result ≡ place_of (answer_value answer.now) places.now all }
{
    let Answer::Judged(judged) = answer else {
        return None;
    };
    match &judged.verdict {
        Verdict::No(count) => match places.get(*count as usize) {
            Some(place) => Some(*place),
            None => Some(all),
        },
        Verdict::Yes(_) | Verdict::Unfinished => None,
    }
}

/// The records with the one that leaves them, if one does.
fn with_leaving<'a, A: Allocator + Copy>(
    mut records: Vec<Record<'a>, A>,
    leaving: Option<Record<'a>>,
) -> Result<Vec<Record<'a>, A>, AllocError>
    ensures { IfOk result (λ all. map shown_of all.items
        ≡ with_leaving (map shown_of records.entry.items) (option_map shown_of leaving.entry)) }
{
    match leaving {
        Some(leaving) => {
            records.push(leaving)?;
            Ok(records)
        }
        None => Ok(records),
    }
}

/// Their places, where this one leaves them, if one does.
fn with_place<A: Allocator + Copy>(
    mut places: Vec<usize, A>,
    leaving: Option<Record<'_>>,
    all: usize,
) -> Result<Vec<usize, A>, AllocError>
    ensures { IfOk result (λ with. with.items
        ≡ with_place places.items (option_map shown_of leaving.entry) all) }
{
    match leaving {
        Some(_) => {
            places.push(all)?;
            Ok(places)
        }
        None => Ok(places),
    }
}

/// The answer of a stretch, of that of its records and the one that leaves it.
fn answer_by<A: Allocator + Copy>(
    alloc: A,
    leaving: Option<Record<'_>>,
    answer: Answer<A>,
) -> Result<Answer<A>, AllocError>
    ensures { IfOk result (λ told. answer_value told
        ≡ answer_by (option_map shown_of leaving.entry) (answer_value answer)) }
{
    match leaving {
        Some(_) => left_answer(alloc, answer),
        None => Ok(answer),
    }
}

/// What is told of a stretch of the session, with the record that leaves it, if one does: with that
/// it is judged, and where both begin a run, the stretch ended in Idle. ROUTE-REFRESH messages are
/// passed over that their receiver offered.
///
/// `AllocError` is answered where memory was refused, and then nothing else.
pub fn check_stretch<'a, A: Allocator + Copy, T: Tracker<A>>(
    alloc: A,
    session: &Session,
    stretch: &[Record<'a>],
    leaving: Option<Record<'a>>,
) -> Result<StretchTold<'a, A>, AllocError>
    ensures told { IfOk result (λ told. IsStretchTold session.now (map shown_of stretch.now)
        (length stretch.now) (option_map shown_of leaving.entry) (told_value told)) }
    ensures before { IfOk result (λ told. IsWatchedFor (map shown_of told.records.items)
        (answer_value told.answer) (option_map front_value told.before)) }
{
    let heard = heard_open(stretch);
    let offers = RefreshOffers {
        received: refresh_in(own_open(stretch)),
        sent: refresh_in(heard),
    };
    let Kept {
        records,
        places,
        received,
        sent,
    } = keep(alloc, offers, stretch)?;
    let records = with_leaving(records, leaving)?;
    let WatchedEnd { answer, before } = watch_end::<A, T>(alloc, session, &records)?;
    let impossible = place_of(&answer, &places, stretch.len());
    Ok(StretchTold {
        answer: answer_by(alloc, leaving, answer)?,
        before,
        impossible,
        records,
        places: with_place(places, leaving, stretch.len())?,
        received,
        sent,
        extended: extended_in(heard),
    })
}
