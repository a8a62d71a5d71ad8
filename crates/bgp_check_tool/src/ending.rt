//! What is told of one of a connection's two ends.

ghost use Rattle.std.specs.Prelude.{◌≡◌, true, false, ℕ, List, Option, None, Some, IfOk};
ghost use Rattle.std.specs.Prelude.{map, option_map};
ghost use Rattle.mrt.specs.Reader.{shown_of};
ghost use Rattle.bgp_check.specs.Answered.{AnswerValue, IsAnswerTo, IsWidestFor, JudgedAs};
ghost use Rattle.bgp_check.specs.Answered.{answer_value, number_of};
ghost use Rattle.bgp_check.specs.WatchedEnd.{IsWatchedFor};
ghost use Rattle.bgp_judge.specs.Verdict.{HasVerdict, Unfinished, verdict_value};
ghost use Rattle.bgp_orders.specs.WholeWays.{AreOfAWayOver};
ghost use Rattle.bgp_parts.specs.Opens.{HasOwnOpen};
ghost use Rattle.bgp_check_lines.specs.AsNumber.{HasAsNumber};
ghost use Rattle.bgp_check_lines.specs.CheckTextReason.{IsReasonTo, deed_text, lines_text};
ghost use Rattle.bgp_check_lines.specs.Places.{shown_places};
ghost use Rattle.bgp_import.specs.Captures.{put_off};
ghost use Rattle.bgp_recording.specs.Captured.{records_of};
ghost use Rattle.bgp_recording.specs.Gathered.{IsClocked, IsCovered};
ghost use Rattle.bgp_recording.specs.Recorded.{IsRecordedInOrder};
ghost use Rattle.bgp_recording.specs.declared.entry.Entry.{Entry as TheEntry};
ghost use Rattle.bgp_recording.specs.declared.framing.Unshown.{Unshown as NotShown};
ghost use Rattle.bgp_check_lines.specs.Reached.{IsReached, reached_value};
ghost use Rattle.bgp_check_tool.specs.declared.another.Order.TheVariants.{All as OfAll};
ghost use Rattle.bgp_check_tool.specs.declared.another.Order.TheVariants.{Another as OfAnother};
ghost use Rattle.bgp_check_tool.specs.declared.another.Order.TheVariants.{Made as OfMade};
ghost use Rattle.bgp_check_tool.specs.About.{IsNoOf, judged_value};
ghost use Rattle.bgp_check_tool.specs.Another.{IsNo, IsNoYes, IsYes, number_in};
ghost use Rattle.bgp_check_tool.specs.Elsewhere.{IsOther, in_made, no_count, octets_if};
ghost use Rattle.bgp_check_tool.specs.Judging.{AreOptionsTo};
ghost use Rattle.bgp_check_tool.specs.Made.{IsMade};
ghost use Rattle.bgp_check_tool.specs.Orders.{AreKnown, IsKnown, IsUnexplained, IsUnfinished};
ghost use Rattle.bgp_check_tool.specs.Place.{second_at};
ghost use Rattle.bgp_check_tool.specs.Told.{HasCause, IsTold, peer_end, place_of, told_value};
ghost use Rattle.bgp_watch.specs.Front.{front_value};

use crate::about::no_under;
use crate::another::{AnotherOrder, Order, Searched, search_orders};
use crate::elsewhere::{count_in, in_made, no_count, no_place, other_deed};
use crate::instead::instead_of;
use crate::judging::{options_for, options_to};
use crate::late::{Late, Later, late_of};
use crate::making::Made;
use crate::options::CheckOptions;
use crate::orders::{NoOrder, TooLong, Under};
use crate::place::{last_place, place_at, second_at, sent_place};
use bgp_check::{Answer, Judged, WatchedEnd, watch_end};
use bgp_check_lines::{
    Asked, JudgeOptions, Places, Reached, Reason, reached_by, reason_of, reason_under,
    sent_as_number,
};
use bgp_import::notes_on;
use bgp_judge::{Tracker, Verdict};
use bgp_prefix::{Seconds, Session};
use bgp_recording::{Entry, Framings, Recording, Unshown};
use bgp_watch::Front;
use bgp_why::{Endpoint as PeerEnd, OtherOrders, Place};
use segments::Endpoint;
use std::alloc::{AllocError, Allocator};
use streams::Connection;

/// An end of a connection, and how it is checked.
#[derive(Clone, Copy)]
pub(crate) struct Viewed<'a> {
    /// Its address and port.
    pub(crate) end: Endpoint,
    /// Its session: it is the local system.
    pub(crate) session: Session,
    /// The connection, as it has that.
    pub(crate) connection: Connection<'a>,
    /// How `bgp judge` is asked for the connection.
    pub(crate) asked: Asked,
    pub(crate) options: CheckOptions,
}

/// What is told of an end.
#[derive(Drop)]
pub(crate) struct Told<'a, A: Allocator> {
    /// Its address and port.
    pub(crate) end: Endpoint,
    /// The AS number in its OPEN, if it sent one.
    pub(crate) as_number: Option<u32>,
    /// What is answered of its records.
    pub(crate) answer: Answer<A>,
    /// In which order that is so.
    pub(crate) order: Order,
    /// Whether it is known to be unfinished over all orders.
    pub(crate) over_all: bool,
    /// Whether memory is refused for the search over all orders.
    pub(crate) lacks_memory: bool,
    /// The first sent message that no order explains, of a no, if one is known.
    pub(crate) found: Option<NoOrder<'a>>,
    /// Where a no stands: at that message, or else at the impossible record. Of another verdict
    /// where the last record stands.
    pub(crate) place: Place,
    /// Where the no of the made order stands, if that isn't told so.
    pub(crate) in_made: Option<Place>,
    /// What that message shows was done, if the no of the made order stands elsewhere.
    pub(crate) other: Option<Vec<u8, A>>,
    /// The second of the first record.
    pub(crate) first: Seconds,
    /// How many received messages are put off in the order that is judged.
    pub(crate) put_off: usize,
    /// Within how many seconds a message is handled in that order.
    pub(crate) within: u16,
    /// What a no or an unfinished becomes, where it may be handled as late as it can be said.
    pub(crate) late: Option<Late>,
    /// Whether memory is refused for the search over all orders by which that is known.
    pub(crate) lacks_memory_later: bool,
    /// How far the session came before its end.
    pub(crate) reached: Reached<A>,
    /// Why the verdict is a no or unfinished, where it is.
    pub(crate) reason: Reason<A>,
    /// After how many records of the made order the no stands that this is about, if it is one.
    pub(crate) asked_at: Option<u64>,
    /// What of the octets that it received is in no record, and of those that it sent.
    pub(crate) received: Unshown,
    pub(crate) sent: Unshown,
    /// How `bgp judge` gives the verdict, where it does and that is told.
    pub(crate) judge: Option<JudgeOptions>,
}

/// Returns where a no stands, of which this is the first sent message that no order explains, if
/// one is known; and of another answer where the last record stands.
fn place_of<A: Allocator>(
    answer: &Answer<A>,
    found: &Option<NoOrder<'_>>,
    entries: &[Entry<'_>],
) -> Place
    ensures { result ≡ place_of (answer_value answer.now) found.now entries.now }
{
    let Answer::Judged(judged) = answer else {
        return last_place(entries);
    };
    match (&judged.verdict, found) {
        (Verdict::No(_), Some(found)) => sent_place(found),
        (Verdict::No(count), None) => place_at(entries, *count as usize),
        (Verdict::Yes(_) | Verdict::Unfinished, _) => last_place(entries),
    }
}

/// What is told beside an answer.
#[derive(Drop)]
struct Beside<'a, A: Allocator> {
    order: Order,
    over_all: bool,
    lacks_memory: bool,
    found: Option<NoOrder<'a>>,
    in_made: Option<Place>,
    other: Option<Vec<u8, A>>,
    later: Later,
    asked_at: Option<u64>,
    judge: Option<JudgeOptions>,
}

impl<'a, A: Allocator + Copy> Beside<'a, A> {
    /// Beside a yes of another order than the made one, which isn't.
    fn of_another() -> Beside<'a, A>
        ensures order { result.order ≡ OfAnother }
        ensures over_all { result.over_all ≡ false }
        ensures lacks_memory { result.lacks_memory ≡ false }
        ensures found { result.found ≡ None }
        ensures in_made { result.in_made ≡ None }
        ensures other { octets_if result.other ≡ None }
        ensures late { result.later.late ≡ None }
        ensures lacks_later { result.later.lacks_memory ≡ false }
        ensures asked_at { result.asked_at ≡ None }
        ensures judge { result.judge ≡ None }
    {
        Beside {
            order: Order::Another,
            over_all: false,
            lacks_memory: false,
            found: None,
            in_made: None,
            other: None,
            later: Later::unasked(),
            asked_at: None,
            judge: None,
        }
    }

    /// Beside what is unfinished over all orders, with where the no of the made one stands, after
    /// how many records that is, and what the answer becomes.
    fn of_all(in_made: Option<Place>, asked_at: Option<u64>, later: Later) -> Beside<'a, A>
        ensures order { result.order ≡ OfAll }
        ensures over_all { result.over_all ≡ true }
        ensures lacks_memory { result.lacks_memory ≡ false }
        ensures found { result.found ≡ None }
        ensures in_made { result.in_made ≡ in_made }
        ensures other { octets_if result.other ≡ None }
        ensures later { result.later ≡ later }
        ensures asked_at { result.asked_at ≡ asked_at }
        ensures judge { result.judge ≡ None }
    {
        Beside {
            order: Order::All,
            over_all: true,
            lacks_memory: false,
            found: None,
            in_made,
            other: None,
            later,
            asked_at,
            judge: None,
        }
    }

    /// Beside this answer on the made order, and whether it is known to be unfinished over all, or
    /// memory is refused for that search; and what the answer becomes.
    fn of_made(
        alloc: A,
        viewed: &Viewed<'_>,
        made: &Made<'_, A>,
        answer: &Answer<A>,
        over_all: bool,
        lacks_memory: bool,
        later: Later,
    ) -> Result<Beside<'a, A>, AllocError>
        requires received { IsCovered viewed.now.connection.received }
        requires sent { IsCovered viewed.now.connection.sent }
        requires records { map shown_of made.now.recording.records.items
            ≡ records_of made.now.recording.entries.items }
        ensures order { IfOk result (λ beside. beside.order ≡ OfMade) }
        ensures over_all { IfOk result (λ beside. beside.over_all ≡ over_all) }
        ensures lacks_memory { IfOk result (λ beside. beside.lacks_memory ≡ lacks_memory) }
        ensures found { IfOk result (λ beside. beside.found ≡ None) }
        ensures in_made { IfOk result (λ beside. beside.in_made ≡ None) }
        ensures other { IfOk result (λ beside. octets_if beside.other ≡ None) }
        ensures later { IfOk result (λ beside. beside.later ≡ later) }
        ensures asked_at { IfOk result (λ beside.
            beside.asked_at ≡ no_count (answer_value answer.now)) }
        ensures judge { IfOk result (λ beside. IsClocked viewed.now.connection
            → IsRecordedInOrder made.now.framings viewed.now.options.within
            viewed.now.connection made.now.recording.entries.items made.now.recording.received
            made.now.recording.sent
            → AreOptionsTo viewed.now.options.within viewed.now.asked viewed.now.connection
            made.now.recording.entries.items made.now.recording.received made.now.recording.sent
            viewed.now.options.settings (answer_value answer.now) beside.judge) }
    {
        Ok(Beside {
            order: Order::Made,
            over_all,
            lacks_memory,
            found: None,
            in_made: None,
            other: None,
            later,
            asked_at: no_count(answer),
            judge: options_to(alloc, viewed, made, answer)?,
        })
    }

    /// Beside an answer on the made order, where no order explains a sent message, and the reason is
    /// about that verdict; and what the answer becomes.
    fn of_no_order(
        alloc: A,
        viewed: &Viewed<'_>,
        made: &Made<'_, A>,
        about: &Judged<A>,
        found: NoOrder<'a>,
        later: Later,
    ) -> Result<Beside<'a, A>, AllocError>
        requires received { IsCovered viewed.now.connection.received }
        requires sent { IsCovered viewed.now.connection.sent }
        requires records { map shown_of made.now.recording.records.items
            ≡ records_of made.now.recording.entries.items }
        ensures order { IfOk result (λ beside. beside.order ≡ OfMade) }
        ensures over_all { IfOk result (λ beside. beside.over_all ≡ false) }
        ensures lacks_memory { IfOk result (λ beside. beside.lacks_memory ≡ false) }
        ensures found { IfOk result (λ beside. beside.found ≡ Some found.entry) }
        ensures in_made { IfOk result (λ beside. beside.in_made ≡ in_made
            made.now.recording.entries.items (Some found.entry) (judged_value about.now)) }
        ensures other { IfOk result (λ beside. IsOther viewed.now.session
            made.now.framings.sent.limit (peer_end viewed.now.session viewed.now.connection)
            (records_of made.now.recording.entries.items) (Some found.entry) beside.in_made
            (octets_if beside.other)) }
        ensures later { IfOk result (λ beside. beside.later ≡ later) }
        ensures asked_at { IfOk result (λ beside.
            beside.asked_at ≡ no_count (judged_value about.now)) }
        ensures judge { IfOk result (λ beside. IsClocked viewed.now.connection
            → IsRecordedInOrder made.now.framings viewed.now.options.within
            viewed.now.connection made.now.recording.entries.items made.now.recording.received
            made.now.recording.sent
            → AreOptionsTo viewed.now.options.within viewed.now.asked viewed.now.connection
            made.now.recording.entries.items made.now.recording.received made.now.recording.sent
            viewed.now.options.settings (judged_value about.now) beside.judge) }
    {
        let entries = made.recording.entries.as_slice();
        let in_made = in_made(entries, &found, about);
        let other = other_deed(alloc, viewed, made, &found, in_made)?;
        Ok(Beside {
            order: Order::Made,
            over_all: false,
            lacks_memory: false,
            found: Some(found),
            in_made,
            other,
            later,
            asked_at: count_in(&about.verdict),
            judge: options_for(alloc, viewed, made, about)?,
        })
    }
}

/// Returns the peer of an end, with its port.
pub(crate) fn peer_end(session: &Session, connection: &Connection<'_>) -> PeerEnd
    ensures { result ≡ peer_end session.now connection.now }
{
    PeerEnd {
        address: session.peer,
        port: Some(connection.peer_port),
    }
}

/// Why this is answered of these records, with this of other orders.
fn reason_on<A: Allocator + Copy, T: Tracker<A>>(
    alloc: A,
    viewed: &Viewed<'_>,
    framings: Framings,
    recording: &Recording<'_, A>,
    instead: OtherOrders,
    answer: &Answer<A>,
) -> Result<Reason<A>, AllocError>
    requires records { map shown_of recording.now.records.items
        ≡ records_of recording.now.entries.items }
    requires answers { IsAnswerTo viewed.now.session (records_of recording.now.entries.items)
        (answer_value answer.now) }
    ensures { IfOk result (λ reason. IsReasonTo viewed.now.session framings.sent.limit
        (second_at recording.now.entries.items 0) true
        (peer_end viewed.now.session viewed.now.connection)
        (shown_places recording.now.entries.items) instead
        (records_of recording.now.entries.items) (answer_value answer.now) (deed_text reason)
        (lines_text reason)) }
{
    let _viewed = *viewed;
    let records = recording.records.as_slice();
    let entries = recording.entries.as_slice();
    let first = second_at(entries, 0);
    let places = Places::Shown(entries);
    let peer = peer_end(&viewed.session, &viewed.connection);
    let sent = framings.sent.limit;
    let reason = reason_of::<A, T>(alloc, sent, first, &peer, places, instead, records, answer)?;
    Ok(reason)
}

/// Why these records have this verdict under its configuration, with this of other orders.
fn reason_about<A: Allocator + Copy, T: Tracker<A>>(
    alloc: A,
    viewed: &Viewed<'_>,
    framings: Framings,
    recording: &Recording<'_, A>,
    instead: OtherOrders,
    about: &Judged<A>,
) -> Result<Reason<A>, AllocError>
    requires records { map shown_of recording.now.records.items
        ≡ records_of recording.now.entries.items }
    requires number { (own : Option (List ℕ))
        → HasOwnOpen (records_of recording.now.entries.items) own
        → about.now.as_number ≡ number_of own }
    requires holds { HasVerdict about.now.under (records_of recording.now.entries.items)
        (verdict_value about.now.verdict) }
    ensures { IsWidestFor viewed.now.session (records_of recording.now.entries.items)
        about.now.peer_as about.now.under
        → IfOk result (λ reason. IsReasonTo viewed.now.session framings.sent.limit
        (second_at recording.now.entries.items 0) true
        (peer_end viewed.now.session viewed.now.connection)
        (shown_places recording.now.entries.items) instead
        (records_of recording.now.entries.items) (judged_value about.now) (deed_text reason)
        (lines_text reason)) }
{
    let _viewed = *viewed;
    let records = recording.records.as_slice();
    let entries = recording.entries.as_slice();
    let first = second_at(entries, 0);
    let places = Places::Shown(entries);
    let peer = peer_end(&viewed.session, &viewed.connection);
    let sent = framings.sent.limit;
    let reason = reason_under::<A, T>(alloc, sent, first, &peer, places, instead, records, about)?;
    Ok(reason)
}

/// What is told of an end with this answer, of these records, for this reason; its session came so
/// far.
fn told_of<'a, A: Allocator + Copy>(
    viewed: &Viewed<'_>,
    recording: &Recording<'_, A>,
    answer: Answer<A>,
    reached: Reached<A>,
    reason: Reason<A>,
    beside: Beside<'a, A>,
) -> Told<'a, A>
    requires records { map shown_of recording.now.records.items
        ≡ records_of recording.now.entries.items }
    ensures end { result.end ≡ viewed.now.end }
    ensures as_number { HasAsNumber (records_of recording.now.entries.items) result.as_number }
    ensures answer { answer_value result.answer ≡ answer_value answer }
    ensures place { result.place
        ≡ place_of (answer_value answer) beside.entry.found recording.now.entries.items }
    ensures first { result.first ≡ second_at recording.now.entries.items 0 }
    ensures put_off { result.put_off ≡ put_off 0 recording.now.entries.items }
    ensures within { result.within ≡ viewed.now.options.within }
    ensures reached { reached_value result.reached ≡ reached_value reached }
    ensures reason { (deed_text result.reason ≡ deed_text reason)
        × (lines_text result.reason ≡ lines_text reason) }
    ensures asked_at { result.asked_at ≡ beside.entry.asked_at }
    ensures lacks_later { result.lacks_memory_later ≡ beside.entry.later.lacks_memory }
    ensures unshown { (result.received ≡ recording.now.received)
        × (result.sent ≡ recording.now.sent) }
    ensures over_all { (result.over_all ≡ beside.entry.over_all)
        × (result.lacks_memory ≡ beside.entry.lacks_memory) }
    ensures beside { (result.order ≡ beside.entry.order) × (result.found ≡ beside.entry.found)
        × (result.in_made ≡ beside.entry.in_made)
        × (octets_if result.other ≡ octets_if beside.entry.other)
        × (result.late ≡ beside.entry.later.late) × (result.judge ≡ beside.entry.judge) }
{
    Told {
        end: viewed.end,
        as_number: sent_as_number(&recording.records),
        place: place_of(&answer, &beside.found, &recording.entries),
        answer,
        order: beside.order,
        over_all: beside.over_all,
        lacks_memory: beside.lacks_memory,
        found: beside.found,
        in_made: beside.in_made,
        other: beside.other,
        first: second_at(&recording.entries, 0),
        put_off: notes_on(recording).put_off,
        within: viewed.options.within,
        late: beside.later.late,
        lacks_memory_later: beside.later.lacks_memory,
        reached,
        reason,
        asked_at: beside.asked_at,
        received: recording.received,
        sent: recording.sent,
        judge: beside.judge,
    }
}

/// The AS number that its OPEN tells, if it is judged and sent one.
pub(crate) fn number_in<A: Allocator>(answer: &Answer<A>) -> Option<u32>
    ensures { result ≡ number_in (answer_value answer.now) }
{
    match answer {
        Answer::NotJudged(_) => None,
        Answer::Judged(judged) => judged.as_number,
    }
}

/// How far the session came of whose records this is answered, and of which this is the longest
/// front with an end in Established, if it is known.
fn reached_on<A: Allocator + Copy, T: Tracker<A>>(
    alloc: A,
    recording: &Recording<'_, A>,
    answer: &Answer<A>,
    before: Option<Front<A>>,
) -> Result<Reached<A>, AllocError>
    requires records { map shown_of recording.now.records.items
        ≡ records_of recording.now.entries.items }
    requires watched { IsWatchedFor (records_of recording.now.entries.items)
        (answer_value answer.now) (option_map front_value before) }
    ensures { IfOk result (λ reached. IsReached (records_of recording.now.entries.items)
        (answer_value answer.now) (reached_value reached)) }
{
    reached_by::<A, T>(alloc, recording.records.as_slice(), answer, before)
}

/// That an end with this AS number is unfinished, under this configuration.
pub(crate) fn unfinished<A: Allocator>(as_number: Option<u32>, its: Under) -> Answer<A>
    ensures { answer_value result ≡ JudgedAs as_number its.peer_as its.under Unfinished }
{
    Answer::Judged(Judged {
        as_number,
        peer_as: its.peer_as,
        under: its.under,
        verdict: Verdict::Unfinished,
    })
}

/// What is told of an end in the made order, of which this is answered, and whether it is known to
/// be unfinished over all orders, or memory is refused for the search over them. It is known to be
/// too long under these configurations.
fn told_as_made<'a, A: Allocator + Copy, T: Tracker<A>>(
    alloc: A,
    viewed: &Viewed<'a>,
    made: &Made<'_, A>,
    watched: WatchedEnd<A>,
    over_all: bool,
    lacks_memory: bool,
    known: TooLong,
) -> Result<Told<'a, A>, AllocError>
    requires received { IsCovered viewed.now.connection.received }
    requires sent { IsCovered viewed.now.connection.sent }
    requires records { map shown_of made.now.recording.records.items
        ≡ records_of made.now.recording.entries.items }
    requires answers { IsAnswerTo viewed.now.session
        (records_of made.now.recording.entries.items) (answer_value watched.answer) }
    requires before { IsWatchedFor (records_of made.now.recording.entries.items)
        (answer_value watched.answer) (option_map front_value watched.before) }
    ensures { IfOk result (λ told. IsClocked viewed.now.connection
        → IsMade viewed.now.options.within viewed.now.connection made.now.framings
        made.now.recording.entries.items made.now.recording.received made.now.recording.sent
        → AreKnown viewed.now.session viewed.now.options.within made.now.framings
        viewed.now.connection known
        → IsKnown viewed.now.session viewed.now.options.within made.now.framings
        viewed.now.connection over_all
        → HasCause viewed.now.session viewed.now.options.within made.now.framings
        viewed.now.connection (answer_value watched.answer) over_all lacks_memory
        → IsTold viewed.now.options viewed.now.asked viewed.now.end viewed.now.session
        viewed.now.connection (told_value told)) }
{
    let (framings, recording) = (made.framings, &made.recording);
    let WatchedEnd { answer, before } = watched;
    let instead = OtherOrders::Unasked;
    let reached = reached_on::<A, T>(alloc, recording, &answer, before)?;
    let reason = reason_on::<A, T>(alloc, viewed, framings, recording, instead, &answer)?;
    let later = late_of::<A, T>(alloc, viewed, &answer, known)?;
    let beside = Beside::of_made(alloc, viewed, made, &answer, over_all, lacks_memory, later)?;
    Ok(told_of(viewed, recording, answer, reached, reason, beside))
}

/// What is told of an end of which this no is answered in the made order, and a sent message is
/// found that no order explains. The reason is about this no of the made order under the
/// configuration under which that message comes last.
fn told_of_no_order<'a, A: Allocator + Copy, T: Tracker<A>>(
    alloc: A,
    viewed: &Viewed<'a>,
    made: &Made<'_, A>,
    watched: WatchedEnd<A>,
    about: &Judged<A>,
    found: NoOrder<'a>,
) -> Result<Told<'a, A>, AllocError>
    requires received { IsCovered viewed.now.connection.received }
    requires sent { IsCovered viewed.now.connection.sent }
    requires records { map shown_of made.now.recording.records.items
        ≡ records_of made.now.recording.entries.items }
    requires answers { IsAnswerTo viewed.now.session
        (records_of made.now.recording.entries.items) (answer_value watched.answer) }
    requires before { IsWatchedFor (records_of made.now.recording.entries.items)
        (answer_value watched.answer) (option_map front_value watched.before) }
    requires no { IsNo (answer_value watched.answer) }
    requires about { IsNoOf (records_of made.now.recording.entries.items)
        (number_in (answer_value watched.answer)) found (judged_value about.now) }
    ensures { IfOk result (λ told. IsClocked viewed.now.connection
        → IsMade viewed.now.options.within viewed.now.connection made.now.framings
        made.now.recording.entries.items made.now.recording.received made.now.recording.sent
        → IsUnexplained viewed.now.session viewed.now.options.within made.now.framings
        viewed.now.connection found.entry
        → IsTold viewed.now.options viewed.now.asked viewed.now.end viewed.now.session
        viewed.now.connection (told_value told)) }
{
    let (framings, recording) = (made.framings, &made.recording);
    let WatchedEnd { answer, before } = watched;
    let instead = instead_of(alloc, viewed, made, about, &found);
    let reached = reached_on::<A, T>(alloc, recording, &answer, before)?;
    let reason = reason_about::<A, T>(alloc, viewed, framings, recording, instead, about)?;
    let later = late_of::<A, T>(alloc, viewed, &answer, TooLong::unknown())?;
    let beside = Beside::of_no_order(alloc, viewed, made, about, found, later)?;
    Ok(told_of(viewed, recording, answer, reached, reason, beside))
}

/// The same. The records of the made order have such a no.
fn told_of_found<'a, A: Allocator + Copy, T: Tracker<A>>(
    alloc: A,
    viewed: &Viewed<'a>,
    made: &Made<'_, A>,
    watched: WatchedEnd<A>,
    found: NoOrder<'a>,
) -> Result<Told<'a, A>, AllocError>
    requires received { IsCovered viewed.now.connection.received }
    requires sent { IsCovered viewed.now.connection.sent }
    requires records { map shown_of made.now.recording.records.items
        ≡ records_of made.now.recording.entries.items }
    requires answers { IsAnswerTo viewed.now.session
        (records_of made.now.recording.entries.items) (answer_value watched.answer) }
    requires before { IsWatchedFor (records_of made.now.recording.entries.items)
        (answer_value watched.answer) (option_map front_value watched.before) }
    requires no { IsNo (answer_value watched.answer) }
    ensures { IfOk result (λ told. IsClocked viewed.now.connection
        → IsMade viewed.now.options.within viewed.now.connection made.now.framings
        made.now.recording.entries.items made.now.recording.received made.now.recording.sent
        → IsUnexplained viewed.now.session viewed.now.options.within made.now.framings
        viewed.now.connection found.entry
        → IsTold viewed.now.options viewed.now.asked viewed.now.end viewed.now.session
        viewed.now.connection (told_value told)) }
{
    let number = number_in(&watched.answer);
    match no_under::<A, T>(alloc, &made.recording, number, &found)? {
        Some(about) => { told_of_no_order::<A, T>(alloc, viewed, made, watched, &about, found) }
        None => {
            let unknown = TooLong::unknown();
            told_as_made::<A, T>(alloc, viewed, made, watched, false, false, unknown)
        }
    }
}

/// What is told of an end of which this no is answered in the made order, where some order explains
/// all that it sent, under this configuration, and none is whole.
fn told_over_all<'a, A: Allocator + Copy, T: Tracker<A>>(
    alloc: A,
    viewed: &Viewed<'a>,
    made: &Made<'_, A>,
    answer: &Answer<A>,
    its: Under,
) -> Result<Told<'a, A>, AllocError>
    requires received { IsCovered viewed.now.connection.received }
    requires sent { IsCovered viewed.now.connection.sent }
    requires records { map shown_of made.now.recording.records.items
        ≡ records_of made.now.recording.entries.items }
    requires answers { IsAnswerTo viewed.now.session
        (records_of made.now.recording.entries.items) (answer_value answer.now) }
    requires no { IsNo (answer_value answer.now) }
    ensures { IfOk result (λ told. IsClocked viewed.now.connection
        → IsMade viewed.now.options.within viewed.now.connection made.now.framings
        made.now.recording.entries.items made.now.recording.received made.now.recording.sent
        → IsUnfinished viewed.now.session viewed.now.options.within made.now.framings
        viewed.now.connection its.peer_as its.under
        → IsTold viewed.now.options viewed.now.asked viewed.now.end viewed.now.session
        viewed.now.connection (told_value told)) }
{
    let (framings, recording) = (made.framings, &made.recording);
    let instead = OtherOrders::Unasked;
    let reason = reason_on::<A, T>(alloc, viewed, framings, recording, instead, answer)?;
    let in_made = no_place(recording.entries.as_slice(), answer);
    let asked_at = no_count(answer);
    let answer = unfinished(number_in(answer), its);
    let reached = reached_on::<A, T>(alloc, recording, &answer, None)?;
    let later = late_of::<A, T>(alloc, viewed, &answer, TooLong::unknown())?;
    let beside = Beside::of_all(in_made, asked_at, later);
    Ok(told_of(viewed, recording, answer, reached, reason, beside))
}

/// What is told of an end of which this is answered in another order, if that is a yes, and the
/// made one isn't.
fn told_of_another<'a, A: Allocator + Copy, T: Tracker<A>>(
    alloc: A,
    viewed: &Viewed<'a>,
    framings: Framings,
    another: AnotherOrder<'a, A>,
) -> Result<Told<'a, A>, AllocError>
    requires records { map shown_of another.recording.records.items
        ≡ records_of another.recording.entries.items }
    requires answers { IsAnswerTo viewed.now.session
        (records_of another.recording.entries.items) (answer_value another.answer) }
    requires yes { IsYes (answer_value another.answer) }
    ensures { IfOk result (λ told. (made_entries : List TheEntry)
        (made_received made_sent : NotShown) (made_answer : AnswerValue)
        → IsMade viewed.now.options.within viewed.now.connection framings made_entries
        made_received made_sent
        → IsAnswerTo viewed.now.session (records_of made_entries) made_answer
        → IsNoYes made_answer
        → AreOfAWayOver framings viewed.now.options.within viewed.now.connection
        another.entry.recording.entries.items another.entry.recording.received
        another.entry.recording.sent
        → IsTold viewed.now.options viewed.now.asked viewed.now.end viewed.now.session
        viewed.now.connection (told_value told)) }
{
    let AnotherOrder { recording, answer } = another;
    let instead = OtherOrders::Unasked;
    let reached = reached_on::<A, T>(alloc, &recording, &answer, None)?;
    let reason = reason_on::<A, T>(alloc, viewed, framings, &recording, instead, &answer)?;
    Ok(told_of(
        viewed,
        &recording,
        answer,
        reached,
        reason,
        Beside::of_another(),
    ))
}

/// What is told of an end of whose connection these records were made: of another order that the
/// packets allow, if that is a yes and the made one isn't; that it is unfinished over all orders, if
/// the made one is a no; else of the made one.
pub(crate) fn told_by<'a, A: Allocator + Copy, T: Tracker<A>>(
    alloc: A,
    viewed: &Viewed<'a>,
    made: &Made<'_, A>,
) -> Result<Told<'a, A>, AllocError>
    requires received { IsCovered viewed.now.connection.received }
    requires sent { IsCovered viewed.now.connection.sent }
    requires records { map shown_of made.now.recording.records.items
        ≡ records_of made.now.recording.entries.items }
    ensures { IfOk result (λ told. IsClocked viewed.now.connection
        → IsMade viewed.now.options.within viewed.now.connection made.now.framings
        made.now.recording.entries.items made.now.recording.received made.now.recording.sent
        → IsTold viewed.now.options viewed.now.asked viewed.now.end viewed.now.session
        viewed.now.connection (told_value told)) }
{
    let records = made.recording.records.as_slice();
    let watched = watch_end::<A, T>(alloc, &viewed.session, records)?;
    let unknown = TooLong::unknown();
    match search_orders::<A, T>(alloc, viewed, made.framings, &watched.answer, unknown) {
        Searched::Nothing => {
            told_as_made::<A, T>(alloc, viewed, made, watched, false, false, unknown)
        }
        Searched::NoMemory => {
            told_as_made::<A, T>(alloc, viewed, made, watched, false, true, unknown)
        }
        Searched::TooLong(known) => {
            told_as_made::<A, T>(alloc, viewed, made, watched, false, false, known)
        }
        Searched::AsMade(_) => {
            told_as_made::<A, T>(alloc, viewed, made, watched, true, false, unknown)
        }
        Searched::NoOrder(found) => { told_of_found::<A, T>(alloc, viewed, made, watched, found) }
        Searched::Unfinished(its) => {
            told_over_all::<A, T>(alloc, viewed, made, &watched.answer, its)
        }
        Searched::Another(another) => {
            told_of_another::<A, T>(alloc, viewed, made.framings, another)
        }
    }
}
