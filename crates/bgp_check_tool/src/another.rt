//! A yes of an end in another order than the made one, which the packets allow, too.

ghost use Rattle.std.specs.Prelude.{◌≡◌, ◌↔◌, IfNone, IfOk, IfSome, IsTrue};
ghost use Rattle.bgp_recording.specs.Captured.{records_of};
ghost use Rattle.bgp_recording.specs.Gathered.{IsClocked, IsCovered};
ghost use Rattle.bgp_recording.specs.declared.framing.Framings.{Framings as TheFramings};
ghost use Rattle.bgp_open.specs.declared.config.Config.{Config as TheConfig};
ghost use Rattle.bgp_check.specs.Answered.{AnswerValue, IsAnswerTo, answer_value};
ghost use Rattle.bgp_check_tool.specs.Another.{IsFound, IsNo, IsNoYes, IsOfAnOrder, IsSought};
ghost use Rattle.bgp_check_tool.specs.Another.{IsYes};
ghost use Rattle.bgp_check_tool.specs.Orders.{AreShown, IsWholeOver};

use crate::ending::Viewed;
use crate::laws::no_order_has_a_run;
use crate::orders::{NoOrder, Said, TooLong, Under, search_end};
use bgp_check::{Answer, check_end};
use bgp_judge::{Tracker, Verdict};
use bgp_recording::{Framings, Recording};
use std::alloc::{AllocError, Allocator};

/// In which order of an end's messages what is told of it is so.
#[derive(Clone, Copy, Debug, PartialEq, Eq)]
pub enum Order {
    /// In the made one.
    Made,
    /// In another one, that is a yes. The made one isn't.
    Another,
    /// Over all of them it is unfinished. The made one is a no.
    All,
}

/// The records of another order than the made one, which are a yes.
#[derive(Drop)]
pub(crate) struct AnotherOrder<'a, A: Allocator> {
    pub(crate) recording: Recording<'a, A>,
    /// What is answered of them.
    pub(crate) answer: Answer<A>,
}

/// What the search over all orders finds that is told in place of the answer on the made one.
#[derive(Drop)]
pub(crate) enum Searched<'a, A: Allocator> {
    /// Nothing is asked of them: that answer is a yes, or no judgement.
    Nothing,
    /// Nothing: memory is refused for the search.
    NoMemory,
    /// Nothing: the search is too long, and is known to be under these configurations.
    TooLong(TooLong),
    /// No order explains this sent message.
    NoOrder(NoOrder<'a>),
    /// Some order explains all that was sent, and none is a yes. The made one is a no.
    Unfinished(Under),
    /// So it is, and the made one is unfinished, too.
    AsMade(Under),
    /// Another order is a yes.
    Another(AnotherOrder<'a, A>),
}

/// Whether the end is judged with a yes.
fn is_yes<A: Allocator>(answer: &Answer<A>) -> bool
    ensures { IsTrue result ↔ IsYes (answer_value answer.now) }
{
    match answer {
        Answer::NotJudged(_) => false,
        Answer::Judged(judged) => match &judged.verdict {
            Verdict::Yes(_) => true,
            Verdict::No(_) | Verdict::Unfinished => false,
        },
    }
}

/// Whether it is judged with a no.
fn is_no<A: Allocator>(answer: &Answer<A>) -> bool
    ensures { IsTrue result ↔ IsNo (answer_value answer.now) }
{
    match answer {
        Answer::NotJudged(_) => false,
        Answer::Judged(judged) => match &judged.verdict {
            Verdict::No(_) => true,
            Verdict::Yes(_) | Verdict::Unfinished => false,
        },
    }
}

/// Whether it is judged, and that is no yes.
fn is_no_yes<A: Allocator>(answer: &Answer<A>) -> bool
    ensures { IsTrue result ↔ IsNoYes (answer_value answer.now) }
{
    match answer {
        Answer::NotJudged(_) => false,
        Answer::Judged(judged) => match &judged.verdict {
            Verdict::No(_) | Verdict::Unfinished => true,
            Verdict::Yes(_) => false,
        },
    }
}

/// Returns what is answered of these records of an order that is whole, if that is a yes. It is if
/// they are those under one of the end's widest configurations, and another order is judged.
fn another_yes<'a, A: Allocator + Copy, T: Tracker<A>>(
    alloc: A,
    viewed: &Viewed<'a>,
    recording: Recording<'a, A>,
) -> Result<Option<AnotherOrder<'a, A>>, AllocError>
    requires { AreShown recording }
    ensures recording { IfOk result (λ found. IfSome found (λ another.
        another.recording ≡ recording.entry)) }
    ensures answers { IfOk result (λ found. IfSome found (λ another. IsAnswerTo viewed.now.session
        (records_of another.recording.entries.items) (answer_value another.answer))) }
    ensures yes { IfOk result (λ found. IfSome found (λ another.
        IsYes (answer_value another.answer))) }
    ensures none { IfOk result (λ found. IfNone found ((framings : TheFramings)
        (config : TheConfig) (answer : AnswerValue) → IsClocked viewed.now.connection
        → IsWholeOver viewed.now.session viewed.now.options.within framings
        viewed.now.connection config recording.entry
        → IsOfAnOrder viewed.now.session viewed.now.options.within framings
        viewed.now.connection answer → ¬ IsNoYes answer)) }
{
    let answer = check_end::<A, T>(alloc, &viewed.session, &recording.records)?;
    if !is_yes(&answer) {
        return Ok(None);
    }
    Ok(Some(AnotherOrder { recording, answer }))
}

/// Returns what is found over all orders of the end's messages, if this is answered of the made one:
/// a yes of another, if the answer isn't a yes; of a no the first sent message that no order
/// explains, or that some order explains all of them and none is whole; that of an unfinished, too.
/// Nothing is found only if the answer is a yes or no judgement; if memory is refused for the
/// search; or if that is too long, as is known under these configurations or is found, and no order
/// is whole under another.
pub(crate) fn search_orders<'a, A: Allocator + Copy, T: Tracker<A>>(
    alloc: A,
    viewed: &Viewed<'a>,
    framings: Framings,
    answer: &Answer<A>,
    known: TooLong,
) -> Searched<'a, A>
    requires received { IsCovered viewed.now.connection.received }
    requires sent { IsCovered viewed.now.connection.sent }
    ensures sought { IsSought viewed.now.session (answer_value answer.now) result }
    ensures found { IsClocked viewed.now.connection → IsOfAnOrder viewed.now.session
        viewed.now.options.within framings viewed.now.connection (answer_value answer.now)
        → IsFound viewed.now.session viewed.now.options.within framings viewed.now.connection known
        (answer_value answer.now) result }
{
    no_order_has_a_run();
    if !is_no_yes(answer) {
        return Searched::Nothing;
    }
    match search_end(alloc, viewed, framings, known) {
        Ok(Said::Whole(_, recording)) => match another_yes::<A, T>(alloc, viewed, recording) {
            Ok(Some(another)) => Searched::Another(another),
            Ok(None) => Searched::Nothing,
            Err(_) => Searched::NoMemory,
        },
        Ok(Said::NoOrder(found)) => {
            if is_no(answer) {
                Searched::NoOrder(found)
            } else {
                Searched::Nothing
            }
        }
        Ok(Said::Unfinished(its)) => {
            if is_no(answer) {
                Searched::Unfinished(its)
            } else {
                Searched::AsMade(its)
            }
        }
        Ok(Said::TooLong(its)) => Searched::TooLong(its),
        Ok(Said::Neither) => Searched::Nothing,
        Err(_) => Searched::NoMemory,
    }
}
