//! What is told of a stretch of a session.

ghost use Rattle.std.specs.Prelude.{◌≡◌, ◌<◌, ◌+◌, IfOk, length, map, option_map};
ghost use Rattle.std.specs.List.{AllByRecursion};
ghost use Rattle.mrt.specs.Reader.{shown_of};
ghost use Rattle.mrt_sessions.specs.Located.{located};
ghost use Rattle.bgp_check.specs.Answered.{IsAnswerTo, answer_value};
ghost use Rattle.bgp_check.specs.StretchTold.{told_value};
ghost use Rattle.bgp_check_lines.specs.CheckTextReason.{deed_text, lines_text};
ghost use Rattle.bgp_check_capture_tool.specs.Judging.{IsToldOfSome};
ghost use Rattle.bgp_check_capture_tool.specs.StretchEnd.{IsReasonFor, IsStretchEnd, deed_in};
ghost use Rattle.bgp_check_capture_tool.specs.StretchEnd.{lines_in, own_records, stretch_value};
ghost use Rattle.bgp_check_capture_tool.specs.StretchEnd.{view_value};

use crate::judging::options_of;
use crate::naming::{endpoint_of, name_of};
use crate::part::Part;
use crate::places::{numbers_of, place_in};
use crate::telling::Telling;
use crate::told_end::{ToldEnd, told_end};
use bgp_check::{Answer, StretchTold, check_stretch};
use bgp_check_lines::{
    EndName, JudgeOptions, Places, Reached, Reason, first_second, is_no_yes, reached_by, reason_of,
};
use bgp_judge::Tracker;
use bgp_prefix::Session;
use bgp_why::{OtherOrders, Place};
use bgp_wire::Limit;
use mrt::Record;
use mrt_sessions::NamedRecord;
use std::alloc::{AllocError, Allocator};

/// A session of a file, and what is told of it besides its verdicts.
#[derive(Clone, Copy)]
pub(crate) struct View<'a> {
    pub(crate) telling: Telling,
    /// How it is judged, whatever its OPENs offer.
    pub(crate) session: Session,
    /// Its records in the file.
    pub(crate) named: &'a [NamedRecord<'a>],
}

/// What is told of a stretch.
#[derive(Drop)]
pub(crate) struct StretchEnd<'a, A: Allocator> {
    /// Which records of the session it is.
    pub(crate) part: Part,
    /// How its lines name the local system.
    pub(crate) name: EndName,
    /// What is answered of it.
    pub(crate) told: StretchTold<'a, A>,
    /// How far the session came in it before its end.
    pub(crate) reached: Reached<A>,
    /// How it ended, if it did.
    pub(crate) ended: Option<ToldEnd<'a>>,
    /// The record at which a no stands, or after which it is unfinished.
    pub(crate) place: Place,
    /// Why it is a no or unfinished, where it is.
    pub(crate) reason: Option<Reason<A>>,
    /// How `bgp judge` gives the verdict, where it does and that is told.
    pub(crate) judge: Option<JudgeOptions>,
}

/// Why a verdict on a stretch that isn't yes is so.
fn explained<A: Allocator + Copy, T: Tracker<A>>(
    alloc: A,
    view: &View<'_>,
    before: usize,
    told: &StretchTold<'_, A>,
) -> Result<Reason<A>, AllocError>
    requires places { AllByRecursion (λ place. before + place < usize.MAX)
        told.now.places.items }
    requires answer { IsAnswerTo view.now.session (map shown_of told.now.records.items)
        (answer_value told.now.answer) }
    ensures { IfOk result (λ reason. IsReasonFor (view_value view.now) before
        (told_value told.now) (deed_text reason) (lines_text reason)) }
{
    let numbers = numbers_of(alloc, view.named, before, &told.places)?;
    let places = Places::Numbered(&numbers);
    let sent = Limit::with_extended(told.extended);
    let first = first_second(view.named);
    let peer = endpoint_of(view.session.peer);
    reason_of::<A, T>(
        alloc,
        sent,
        first,
        &peer,
        places,
        OtherOrders::Unasked,
        &told.records,
        &told.answer,
    )
}

/// Why a verdict on a stretch is a no or unfinished, where it is.
fn reason_for<A: Allocator + Copy, T: Tracker<A>>(
    alloc: A,
    view: &View<'_>,
    before: usize,
    told: &StretchTold<'_, A>,
) -> Result<Option<Reason<A>>, AllocError>
    requires places { AllByRecursion (λ place. before + place < usize.MAX)
        told.now.places.items }
    requires told { IsToldOfSome view.now.session (told_value told.now) }
    ensures { IfOk result (λ reason. IsReasonFor (view_value view.now) before
        (told_value told.now) (deed_in reason) (lines_in reason)) }
{
    match &told.answer {
        Answer::Judged(judged) if is_no_yes(&judged.verdict) => {
            Ok(Some(explained::<A, T>(alloc, view, before, told)?))
        }
        Answer::Judged(_) | Answer::NotJudged(_) => Ok(None),
    }
}

/// Returns a stretch's own records, of those that are judged: all but the one that leaves it.
fn own_records<'a, 'b>(judged: &'b [Record<'a>], leaving: Option<Record<'a>>) -> &'b [Record<'a>]
    ensures { map shown_of result.now
        ≡ own_records (map shown_of judged.now) (option_map shown_of leaving.entry) }
{
    match leaving {
        Some(_) => &judged[..judged.len().saturating_sub(1)],
        None => judged,
    }
}

/// What is told of a stretch of a session, before which so many records stand, and which this one
/// leaves, if one does. `AllocError` is answered where memory is refused, and then nothing else.
pub(crate) fn end_of<'a, A: Allocator + Copy, T: Tracker<A>>(
    alloc: A,
    view: &View<'_>,
    before: usize,
    stretch: &[Record<'a>],
    leaving: Option<Record<'a>>,
) -> Result<StretchEnd<'a, A>, AllocError>
    requires few { before + length stretch.now < usize.MAX }
    ensures { IfOk result (λ end. IsStretchEnd (view_value view.now) before
        (map shown_of stretch.now) (option_map shown_of leaving.entry) (stretch_value end)) }
{
    let mut told = check_stretch::<A, T>(alloc, &view.session, stretch, leaving)?;
    let before_end = told.before.take();
    let own = own_records(&told.records, leaving);
    let reached = reached_by::<A, T>(alloc, own, &told.answer, before_end)?;
    let reason = reason_for::<A, T>(alloc, view, before, &told)?;
    let judge = options_of(view, before, leaving, &told);
    let place = place_in(view.named, before, &told);
    let ended = told_end(&view.session, view.named, before, stretch);
    Ok(StretchEnd {
        part: Part {
            before,
            count: stretch.len(),
        },
        name: name_of(view.session.local, before, stretch, leaving),
        told,
        reached,
        ended,
        place,
        reason,
        judge,
    })
}
