//! Why a verdict on an end is a no or unfinished, as it is told.

ghost use Rattle.std.specs.Prelude.{◌≡◌, ◌<◌, [], ℕ, List, Option, IfOk, OnErr, OnOk, length, map};
ghost use Rattle.mrt.specs.Reader.{shown_of};
ghost use Rattle.bgp_prefix.specs.declared.session.Session.{Session as TheSession};
ghost use Rattle.bgp_judge.specs.Verdict.{HasVerdict, verdict_value};
ghost use Rattle.bgp_check.specs.Answered.{IsAnswerTo, IsWidestFor, answer_value, number_of};
ghost use Rattle.bgp_parts.specs.Opens.{HasOwnOpen};
ghost use Rattle.bgp_explain.specs.KeptLines.{IsOfLines};
ghost use Rattle.bgp_explain.specs.Places.{places_of};
ghost use Rattle.bgp_text.specs.Lines.{Writes};
ghost use Rattle.bgp_explain.specs.LinesPut.{PutsLines};
ghost use Rattle.bgp_check_text.specs.Reason.{AreFaultsAt, IsReasonOf, IsReasonTo, IsToldAs};
ghost use Rattle.bgp_check_text.specs.Reason.{another_of, are_shown, deed_text, is_of_another};
ghost use Rattle.bgp_check_text.specs.Reason.{lines_text, style_of};

use crate::explained::{Telling, said_of};
use crate::own_faults::own_faults_of;
use bgp_check::{Answer, Judged, PeerAs, a_verdict_holds_under_its_configuration, own_open};
use bgp_explain::{KeptLines, Places, VerdictLines};
use bgp_judge::{Tracker, Verdict};
use bgp_prefix::Seconds;
use bgp_text::Lines;
use bgp_why::{Endpoint, OtherOrders, OwnFaults, Style};
use bgp_wire::Limit;
use mrt::{Record, Sink};
use std::alloc::{AllocError, Allocator, Global};

/// Why a verdict on an end is a no or unfinished; nothing after a yes.
#[derive(Drop)]
pub struct Reason<A: Allocator = Global> {
    /// What the impossible record of a no shows was done, and what is wrong with it.
    pub(crate) deed: Vec<u8, A>,
    /// The lines after that, if there is a reason.
    pub(crate) lines: Option<KeptLines<A>>,
}

impl<A: Allocator + Copy> Reason<A> {
    /// Returns no reason.
    pub(crate) fn nothing(alloc: A) -> Reason<A>
        ensures deed { deed_text result ≡ [] }
        ensures lines { lines_text result ≡ [] }
    {
        Reason {
            deed: Vec::new(alloc),
            lines: None,
        }
    }
}

impl<A: Allocator> Reason<A> {
    /// Returns what the impossible record of a no shows was done, and what is wrong with it: `sent
    /// UPDATE to 192.0.2.1:179, not allowed here`.
    pub fn deed(&self) -> &[u8]
        ensures { result.now ≡ deed_text self.now }
    {
        self.deed.as_slice()
    }
}

impl<A: Allocator + Copy> Reason<A> {
    /// Returns the lines after that.
    pub fn lines(&self) -> &[u8]
        ensures { result.now ≡ lines_text self.now }
    {
        match &self.lines {
            None => b"",
            Some(kept) => kept.text(),
        }
    }

    /// Puts these lines in the form of what they are put into. It takes memory: if that runs out, it
    /// returns `AllocError`, and puts nothing.
    pub fn put_lines<W: Sink>(
        &self,
        lines: &mut VerdictLines<'_, A, W>,
        alloc: A,
    ) -> Result<(), AllocError>
        ensures ok { OnOk result (PutsLines lines.old lines.new (lines_text self.now)) }
        ensures err { OnErr result (IsOfLines (lines_text self.now)) }
    {
        match &self.lines {
            None => Ok(()),
            Some(kept) => kept.put(lines, alloc),
        }
    }
}

/// Checks whether a peer has to have another AS number than its OPEN says.
fn is_of_another(peer: PeerAs) -> bool
    ensures { result ≡ is_of_another peer }
{
    matches!(peer, PeerAs::OtherThan(_))
}

/// Returns the AS number that a peer doesn't have, if it has any other one.
fn another_of(peer: PeerAs) -> Option<u32>
    ensures { result ≡ another_of peer }
{
    match peer {
        PeerAs::OtherThan(number) => Some(number),
        PeerAs::Any | PeerAs::Is(_) => None,
    }
}

/// Checks whether packets show the records.
fn are_shown(places: Places<'_>) -> bool
    ensures { result ≡ are_shown places.entry }
{
    matches!(places, Places::Shown(_))
}

/// Returns the style in which a reason is told of an end with such a peer, and with these own
/// faults, if it has some; and this is said of other orders.
fn style_of(
    first: Seconds,
    is_recording: bool,
    peer: PeerAs,
    own_faults: Option<OwnFaults>,
    other_orders: OtherOrders,
) -> Style
    ensures { result ≡ style_of first is_recording peer own_faults other_orders }
{
    Style {
        first,
        is_recording,
        peer_as_is_free: is_of_another(peer),
        own_faults,
        other_orders,
    }
}

/// How an end's reason is told, but for what the verdict says.
#[derive(Clone, Copy)]
struct Asking<'a> {
    /// The limit of messages that were sent.
    sent: Limit,
    /// The second of the session's first record.
    first: Seconds,
    /// The peer.
    peer: Endpoint,
    /// Where the records stand.
    places: Places<'a>,
    /// What is said of other orders.
    instead: OtherOrders,
}

/// The own faults of the first OPEN that these records show as sent, up to the one after so many.
/// The end tells this AS number by its OPEN.
fn own_faults_at(records: &[Record<'_>], number: Option<u32>, count: u64) -> Option<OwnFaults>
    requires within { count < length records.now }
    requires number { (own : Option (List ℕ)) → HasOwnOpen (map shown_of records.now) own
        → number ≡ number_of own }
    ensures { AreFaultsAt (map shown_of records.now) count result }
{
    let own = own_open(&records[..count as usize + 1])?;
    own_faults_of(own, number?)
}

/// Explains a verdict that isn't yes.
fn explained<A: Allocator + Copy, T: Tracker<A>>(
    alloc: A,
    asking: &Asking<'_>,
    records: &[Record<'_>],
    judged: &Judged<A>,
    own_faults: Option<OwnFaults>,
) -> Result<Reason<A>, AllocError>
    ensures { (session : TheSession) → IfOk result (λ reason. IsToldAs session asking.now.sent
        asking.now.first (are_shown asking.now.places) asking.now.peer
        (places_of asking.now.places) asking.now.instead (map shown_of records.now)
        judged.now.peer_as
        judged.now.under own_faults (deed_text reason) (lines_text reason)) }
{
    let (first, places) = (asking.first, asking.places);
    let telling = Telling {
        style: style_of(
            first,
            are_shown(places),
            judged.peer_as,
            own_faults,
            asking.instead,
        ),
        sent: asking.sent,
        peer: asking.peer,
        another: another_of(judged.peer_as),
        places,
    };
    Ok(said_of::<A, T>(alloc, &judged.under, &telling, records)?)
}

/// Explains the verdict on an end's records under a configuration, unless it is yes.
fn reason_for<A: Allocator + Copy, T: Tracker<A>>(
    alloc: A,
    asking: &Asking<'_>,
    records: &[Record<'_>],
    judged: &Judged<A>,
) -> Result<Reason<A>, AllocError>
    requires number { (own : Option (List ℕ)) → HasOwnOpen (map shown_of records.now) own
        → judged.now.as_number ≡ number_of own }
    requires holds { HasVerdict judged.now.under (map shown_of records.now)
        (verdict_value judged.now.verdict) }
    ensures { (session : TheSession) → IsWidestFor session (map shown_of records.now)
        judged.now.peer_as judged.now.under
        → IfOk result (λ reason. IsReasonOf session asking.now.sent asking.now.first
        (are_shown asking.now.places) asking.now.peer (places_of asking.now.places)
        asking.now.instead (map shown_of records.now) judged.now.peer_as judged.now.under
        (verdict_value judged.now.verdict) (deed_text reason) (lines_text reason)) }
{
    match &judged.verdict {
        Verdict::Yes(_) => Ok(Reason::nothing(alloc)),
        Verdict::No(count) => {
            let faults = own_faults_at(records, judged.as_number, *count);
            explained::<A, T>(alloc, asking, records, judged, faults)
        }
        Verdict::Unfinished => explained::<A, T>(alloc, asking, records, judged, None),
    }
}

/// Returns why the verdict that an end's records have under a configuration is a no or unfinished:
/// what `bgp judge --explain` says of them under it, each with its place. It needn't be the one
/// under which [`check_end`](bgp_check::check_end) reports the verdict. The text of a message that
/// was sent goes by the limit of its receiver. The session's first record has that second, and this
/// is said of other orders. After a yes it is nothing.
///
/// `AllocError` is answered if memory runs out.
pub fn reason_under<A: Allocator + Copy, T: Tracker<A>>(
    alloc: A,
    sent: Limit,
    first: Seconds,
    peer: &Endpoint,
    places: Places<'_>,
    instead: OtherOrders,
    records: &[Record<'_>],
    judged: &Judged<A>,
) -> Result<Reason<A>, AllocError>
    requires number { (own : Option (List ℕ)) → HasOwnOpen (map shown_of records.now) own
        → judged.now.as_number ≡ number_of own }
    requires holds { HasVerdict judged.now.under (map shown_of records.now)
        (verdict_value judged.now.verdict) }
    ensures { (session : TheSession) → IsWidestFor session (map shown_of records.now)
        judged.now.peer_as judged.now.under
        → IfOk result (λ reason. IsReasonOf session sent first (are_shown places.entry) peer.now
        (places_of places.entry) instead (map shown_of records.now) judged.now.peer_as
        judged.now.under (verdict_value judged.now.verdict) (deed_text reason)
        (lines_text reason)) }
{
    let asking = Asking {
        sent,
        first,
        peer: *peer,
        places,
        instead,
    };
    reason_for::<A, T>(alloc, &asking, records, judged)
}

/// Returns why the verdict on an end's records is a no or unfinished: what `bgp judge --explain`
/// says of them under the configuration under which the verdict is told, each with its place. The
/// text of a message that was sent goes by the limit of its receiver. The session's first record
/// has that second, and this is said of other orders. After a yes, and of an end that isn't judged,
/// it is nothing.
///
/// `AllocError` is answered if memory runs out.
pub fn reason_of<A: Allocator + Copy, T: Tracker<A>>(
    alloc: A,
    sent: Limit,
    first: Seconds,
    peer: &Endpoint,
    places: Places<'_>,
    instead: OtherOrders,
    records: &[Record<'_>],
    answer: &Answer<A>,
) -> Result<Reason<A>, AllocError>
    requires { (session : TheSession)
        × IsAnswerTo session (map shown_of records.now) (answer_value answer.now) }
    ensures { (session : TheSession)
        → IsAnswerTo session (map shown_of records.now) (answer_value answer.now)
        → IfOk result (λ reason. IsReasonTo session sent first (are_shown places.entry) peer.now
        (places_of places.entry) instead (map shown_of records.now) (answer_value answer.now)
        (deed_text reason) (lines_text reason)) }
{
    a_verdict_holds_under_its_configuration();
    match answer {
        Answer::NotJudged(_) => Ok(Reason::nothing(alloc)),
        Answer::Judged(judged) => {
            reason_under::<A, T>(alloc, sent, first, peer, places, instead, records, judged)
        }
    }
}

/// Puts what the impossible record of a no shows was done, and what is wrong with it.
pub fn put_deed<W: Sink, A: Allocator>(lines: &mut Lines<'_, W>, reason: &Reason<A>)
    ensures { Writes lines.old lines.new (deed_text reason.now) }
{
    lines.put(reason.deed.as_slice());
}

/// Puts the lines after that.
pub fn put_reason<W: Sink, A: Allocator + Copy>(lines: &mut Lines<'_, W>, reason: &Reason<A>)
    ensures { Writes lines.old lines.new (lines_text reason.now) }
{
    lines.put(reason.lines());
}
