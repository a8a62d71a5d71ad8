//! What the verdict on an end is, where each message may be handled as late as it can be said.

ghost use Rattle.std.specs.Prelude.{◌≡◌, false, None, IfOk};
ghost use Rattle.bgp_check.specs.Answered.{answer_value};
ghost use Rattle.bgp_judge.specs.Verdict.{verdict_value};
ghost use Rattle.bgp_recording.specs.Gathered.{IsClocked, IsCovered};
ghost use Rattle.bgp_check_lines.specs.Lines.{PutsLines};
ghost use Rattle.bgp_check_tool.specs.Another.{IsOfAnOrder};
ghost use Rattle.bgp_check_tool.specs.Late.{AreKnownFor, IsAnsweredLater, IsAnsweredOver, IsLate};
ghost use Rattle.bgp_check_tool.specs.Late.{IsLateFor, IsLateOf, late_by, late_over, late_text};
ghost use Rattle.bgp_check_tool.specs.Orders.{AreKnown};

use crate::another::{Searched, search_orders};
use crate::ending::{Viewed, number_in, unfinished};
use crate::making::made_of;
use crate::options::CheckOptions;
use crate::orders::TooLong;
use bgp_check::{Answer, check_end};
use bgp_check_lines::{CheckLines, put_late as put_later};
use bgp_judge::{Tracker, Verdict};
use bgp_recording::Framings;
use bgp_way_ends::more_patience_reaches_no_fewer_nodes;
use mrt::Sink;
use std::alloc::{AllocError, Allocator};

/// The greatest number of seconds after which a message can be handled at the latest.
const GREATEST: u16 = u16::MAX;

/// A verdict that is no no.
#[derive(Clone, Copy, Debug, PartialEq, Eq)]
pub(crate) enum Late {
    /// A yes.
    Yes,
    /// An unfinished.
    Unfinished,
}

/// What a verdict that isn't a yes becomes, where this is the one on later records: a yes, or of a
/// no unfinished.
fn late_over<A: Allocator>(verdict: &Verdict<A>, later: &Verdict<A>) -> Option<Late>
    ensures { result ≡ late_over (verdict_value verdict.now) (verdict_value later.now) }
{
    match (verdict, later) {
        (Verdict::Yes(_), _) => None,
        (Verdict::No(_) | Verdict::Unfinished, Verdict::Yes(_)) => Some(Late::Yes),
        (Verdict::No(_), Verdict::Unfinished) => Some(Late::Unfinished),
        (Verdict::No(_), Verdict::No(_)) => None,
        (Verdict::Unfinished, Verdict::Unfinished | Verdict::No(_)) => None,
    }
}

/// The same, where an end may not be judged.
fn late_by<A: Allocator>(verdict: &Verdict<A>, later: &Answer<A>) -> Option<Late>
    ensures { result ≡ late_by (verdict_value verdict.now) (answer_value later.now) }
{
    match later {
        Answer::NotJudged(_) => None,
        Answer::Judged(judged) => late_over(verdict, &judged.verdict),
    }
}

/// What is answered where each message may be handled as late as it can be said.
#[derive(Drop)]
struct AnsweredLater<A: Allocator> {
    answer: Answer<A>,
    /// Whether memory is refused for the search over all orders: it is answered of the made one then.
    lacks_memory: bool,
}

impl<A: Allocator> AnsweredLater<A> {
    /// Returns that this is answered, and no memory is refused.
    fn with_memory(answer: Answer<A>) -> AnsweredLater<A>
        ensures answer { answer_value result.answer ≡ answer_value answer }
        ensures lacks_memory { result.lacks_memory ≡ false }
    {
        AnsweredLater {
            answer,
            lacks_memory: false,
        }
    }
}

/// What a verdict becomes, where each message may be handled as late as it can be said.
#[derive(Clone, Copy)]
pub(crate) struct Later {
    /// Another, or none.
    pub(crate) late: Option<Late>,
    /// Whether memory is refused for the search over all orders, so that the made one alone is judged.
    pub(crate) lacks_memory: bool,
}

impl Later {
    /// Returns that it isn't asked.
    pub(crate) fn unasked() -> Later
        ensures late { result.late ≡ None }
        ensures lacks_memory { result.lacks_memory ≡ false }
    {
        Later {
            late: None,
            lacks_memory: false,
        }
    }
}

/// Returns what is answered over all orders, framed so, where each message may be handled as late as
/// it can be said, if this is answered of the made one: a yes of another, if the made one isn't a
/// yes; that it is unfinished over all, if the made one is a no. Else what is answered of that. The
/// search is known to be too long under these configurations.
fn over_orders<A: Allocator + Copy, T: Tracker<A>>(
    alloc: A,
    viewed: &Viewed<'_>,
    framings: Framings,
    answer: Answer<A>,
    known: TooLong,
) -> AnsweredLater<A>
    requires received { IsCovered viewed.now.connection.received }
    requires sent { IsCovered viewed.now.connection.sent }
    ensures { IsClocked viewed.now.connection
        → IsOfAnOrder viewed.now.session 65535 framings viewed.now.connection (answer_value answer)
        → AreKnown viewed.now.session 65535 framings viewed.now.connection known
        → IsAnsweredOver viewed.now.session viewed.now.connection framings (answer_value answer)
        result.lacks_memory (answer_value result.answer) }
{
    let options = CheckOptions {
        within: GREATEST,
        ..viewed.options
    };
    let later = Viewed { options, ..*viewed };
    match search_orders::<A, T>(alloc, &later, framings, &answer, known) {
        Searched::Another(another) => AnsweredLater::with_memory(another.answer),
        Searched::Unfinished(its) => {
            AnsweredLater::with_memory(unfinished(number_in(&answer), its))
        }
        Searched::Nothing => AnsweredLater::with_memory(answer),
        Searched::TooLong(_) => AnsweredLater::with_memory(answer),
        Searched::NoOrder(_) => AnsweredLater::with_memory(answer),
        Searched::AsMade(_) => AnsweredLater::with_memory(answer),
        Searched::NoMemory => AnsweredLater {
            answer,
            lacks_memory: true,
        },
    }
}

/// What is answered of an end whose connection is recorded so, where each message may be handled as
/// late as it can be said. With less patience the search is known to be too long under these
/// configurations, and so it is then.
fn answered_later<A: Allocator + Copy, T: Tracker<A>>(
    alloc: A,
    viewed: &Viewed<'_>,
    known: TooLong,
) -> Result<AnsweredLater<A>, AllocError>
    requires received { IsCovered viewed.now.connection.received }
    requires sent { IsCovered viewed.now.connection.sent }
    ensures { IfOk result (λ later. IsClocked viewed.now.connection
        → AreKnownFor viewed.now.session viewed.now.connection viewed.now.options.within known
        → IsAnsweredLater viewed.now.session viewed.now.connection later.lacks_memory
        (answer_value later.answer)) }
{
    more_patience_reaches_no_fewer_nodes();
    // Read here, so that its range is known: it is at most the greatest.
    let _within = viewed.options.within;
    let made = made_of(alloc, &viewed.connection, GREATEST)?;
    let records = made.recording.records.as_slice();
    let answer = check_end::<A, T>(alloc, &viewed.session, records)?;
    Ok(over_orders::<A, T>(alloc, viewed, made.framings, answer, known))
}

/// What this verdict that isn't a yes becomes, where each message may be handled as late as it can
/// be said.
fn late_again<A: Allocator + Copy, T: Tracker<A>>(
    alloc: A,
    viewed: &Viewed<'_>,
    verdict: &Verdict<A>,
    known: TooLong,
) -> Result<Later, AllocError>
    requires received { IsCovered viewed.now.connection.received }
    requires sent { IsCovered viewed.now.connection.sent }
    ensures { IfOk result (λ later. IsClocked viewed.now.connection
        → AreKnownFor viewed.now.session viewed.now.connection viewed.now.options.within known
        → IsLateOf viewed.now.session viewed.now.connection (verdict_value verdict.now) later.late
        later.lacks_memory) }
{
    let later = answered_later::<A, T>(alloc, viewed, known)?;
    Ok(Later {
        late: late_by(verdict, &later.answer),
        lacks_memory: later.lacks_memory,
    })
}

/// The same of any verdict: a yes is judged once.
fn late_for<A: Allocator + Copy, T: Tracker<A>>(
    alloc: A,
    viewed: &Viewed<'_>,
    verdict: &Verdict<A>,
    known: TooLong,
) -> Result<Later, AllocError>
    requires received { IsCovered viewed.now.connection.received }
    requires sent { IsCovered viewed.now.connection.sent }
    ensures { IfOk result (λ later. IsClocked viewed.now.connection
        → AreKnownFor viewed.now.session viewed.now.connection viewed.now.options.within known
        → IsLateFor viewed.now.session viewed.now.connection (verdict_value verdict.now) later.late
        later.lacks_memory) }
{
    match verdict {
        Verdict::Yes(_) => Ok(Later::unasked()),
        Verdict::No(_) => late_again::<A, T>(alloc, viewed, verdict, known),
        Verdict::Unfinished => late_again::<A, T>(alloc, viewed, verdict, known),
    }
}

/// What the verdict in an answer becomes, if it isn't a yes, where each message may be handled as
/// late as it can be said: judged once more, of records that are made so, and over all orders. The
/// search over these is known to be too long under these configurations, so that it isn't made
/// again under them.
pub(crate) fn late_of<A: Allocator + Copy, T: Tracker<A>>(
    alloc: A,
    viewed: &Viewed<'_>,
    answer: &Answer<A>,
    known: TooLong,
) -> Result<Later, AllocError>
    requires received { IsCovered viewed.now.connection.received }
    requires sent { IsCovered viewed.now.connection.sent }
    ensures { IfOk result (λ later. IsClocked viewed.now.connection
        → AreKnownFor viewed.now.session viewed.now.connection viewed.now.options.within known
        → IsLate viewed.now.session viewed.now.connection (answer_value answer.now) later.late
        later.lacks_memory) }
{
    match answer {
        Answer::NotJudged(_) => Ok(Later::unasked()),
        Answer::Judged(judged) => late_for::<A, T>(alloc, viewed, &judged.verdict, known),
    }
}

/// Puts that, where the verdict becomes another.
pub(crate) fn put_late<A: Allocator + Copy, W: Sink>(
    lines: &mut CheckLines<'_, A, W>,
    within: u16,
    late: Option<Late>,
)
    ensures { PutsLines lines.old lines.new (late_text within late) }
{
    match late {
        Some(late) => put_later(lines, within, late == Late::Yes),
        None => {}
    }
}
