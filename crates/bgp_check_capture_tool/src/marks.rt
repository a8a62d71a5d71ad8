//! What is known of the stretches that are judged and whose answers are printed: their records, and
//! where a no stands.

ghost use Rattle.std.specs.Prelude.{◌≡◌, ◌+◌, ◌<◌, ◌∷◌, [], IfOk, IsFalse, IsTrue, map};
ghost use Rattle.std.specs.List.{AllByRecursion};
ghost use Rattle.mrt_sessions.specs.Located.{located};
ghost use Rattle.bgp_check.specs.Answered.{answer_value};
ghost use Rattle.bgp_judge.specs.Verdict.{verdict_value};
ghost use Rattle.bgp_check_capture_tool.specs.Ends.{Stretch, addresses_of};
ghost use Rattle.bgp_check_capture_tool.specs.Marks.{AddsMarks, end_marks, is_marked, mark_of};
ghost use Rattle.bgp_check_capture_tool.specs.Marks.{mark_value, no_by, no_in};
ghost use Rattle.bgp_check_capture_tool.specs.StretchEnd.{stretch_value};

use crate::ends::addresses_of;
use crate::places::{micro_after, numbers_of};
use crate::stretch_end::{StretchEnd, View};
use bgp_check::{Answer, StretchTold};
use bgp_check_lines::{EndName, NumberedRecord, first_second, is_left_out};
use bgp_judge::Verdict;
use bgp_prefix::Seconds;
use mrt::Record;
use mrt_sessions::Addresses;
use std::alloc::{AllocError, Allocator};

/// What is known of a stretch that is judged.
#[derive(Drop)]
pub struct StretchMark<'a, A: Allocator> {
    /// Between which addresses its session is.
    pub addresses: Addresses,
    /// How its lines name the local system.
    pub name: EndName,
    /// The second of the session's first record in the file.
    pub first: Seconds,
    /// The fraction of that second in microseconds, if the record has one.
    pub micro: Option<u32>,
    /// The records that are judged, in their order: those of the stretch that aren't passed over,
    /// and the one that leaves it, if one does.
    pub records: Vec<Record<'a>, A>,
    /// The number of each of these in its session, counted from 1, and the fraction of its second.
    pub numbers: Vec<NumberedRecord, A>,
    /// Whether a message that the local system sent may be an extended one (RFC 8654): the OPEN
    /// that it received in the stretch offers these.
    pub extended: bool,
    /// How many of the records stand before that of its no, if it has one.
    pub no: Option<u64>,
}

/// What is known of all stretches in a capture that are judged and whose answers are printed, in
/// the order in which these are.
#[derive(Drop)]
pub struct StretchMarks<'a, A: Allocator> {
    /// Each of them.
    pub stretches: Vec<StretchMark<'a, A>, A>,
    /// Whether some are missing: memory was refused for one, or none are kept. Then none is added.
    pub are_missing: bool,
}

/// Returns how many of the judged records stand before that of a no, if the verdict is one.
fn no_by<A: Allocator>(verdict: &Verdict<A>) -> Option<u64>
    ensures { result ≡ no_by (verdict_value verdict.now) }
{
    match verdict {
        Verdict::No(count) => Some(*count),
        Verdict::Yes(_) | Verdict::Unfinished => None,
    }
}

/// Returns how many of the judged records stand before that of a no, if the answer is one.
fn no_in<A: Allocator>(answer: &Answer<A>) -> Option<u64>
    ensures { result ≡ no_in (answer_value answer.now) }
{
    match answer {
        Answer::NotJudged(_) => None,
        Answer::Judged(judged) => no_by(&judged.verdict),
    }
}

/// Checks whether a stretch with this answer is judged, and isn't left out.
fn is_marked<A: Allocator>(quiet: bool, answer: &Answer<A>) -> bool
    ensures { result ≡ is_marked quiet (answer_value answer.now) }
{
    match answer {
        Answer::NotJudged(_) => false,
        Answer::Judged(_) => !is_left_out(quiet, answer),
    }
}

/// Returns what is known of a stretch of which this is told. The records that are judged are moved
/// into it.
fn mark_of<'a, A: Allocator + Copy>(
    alloc: A,
    view: &View<'_>,
    end: StretchEnd<'a, A>,
) -> Result<StretchMark<'a, A>, AllocError>
    requires { AllByRecursion (λ place. end.part.before + place < usize.MAX)
        end.told.places.items }
    ensures { IfOk result (λ mark. mark_value mark ≡ mark_of (addresses_of view.now.session)
        (map located view.now.named.now) (stretch_value end.entry)) }
{
    let StretchEnd {
        part,
        name,
        told,
        ..
    } = end;
    let numbers = numbers_of(alloc, view.named, part.before, &told.places)?;
    let no = no_in(&told.answer);
    let StretchTold {
        records,
        extended,
        ..
    } = told;
    Ok(StretchMark {
        addresses: addresses_of(&view.session),
        name,
        first: first_second(view.named),
        micro: micro_after(view.named, 0),
        records,
        numbers,
        extended,
        no,
    })
}

impl<'a, A: Allocator + Copy> StretchMarks<'a, A> {
    /// Makes a list of none, to which each is added.
    pub fn new(alloc: A) -> StretchMarks<'a, A>
        ensures stretches { result.stretches.items ≡ [] }
        ensures none { IsFalse result.are_missing }
    {
        StretchMarks {
            stretches: Vec::new(alloc),
            are_missing: false,
        }
    }

    /// Makes a list to which none is added: all are missing.
    pub(crate) fn unkept(alloc: A) -> StretchMarks<'a, A>
        ensures { IsTrue result.are_missing }
    {
        StretchMarks {
            stretches: Vec::new(alloc),
            are_missing: true,
        }
    }

    /// Adds what is known of a stretch.
    fn add(&mut self, mark: StretchMark<'a, A>)
        ensures { AddsMarks self.old self.new (mark_value mark.entry ∷ []) }
    {
        match self.stretches.push(mark) {
            Ok(()) => {}
            Err(_) => self.are_missing = true,
        }
    }

    /// Adds what is known of a stretch of which this is told, if it is judged and isn't left out.
    pub(crate) fn add_end(&mut self, alloc: A, view: &View<'_>, end: StretchEnd<'a, A>)
        requires { AllByRecursion (λ place. end.part.before + place < usize.MAX)
            end.told.places.items }
        ensures { AddsMarks self.old self.new (end_marks view.now.telling.printing.quiet
            (addresses_of view.now.session) (map located view.now.named.now)
            (Stretch (stretch_value end.entry))) }
    {
        if self.are_missing {
            return;
        }
        if is_marked(view.telling.printing.quiet, &end.told.answer) {
            match mark_of(alloc, view, end) {
                Ok(mark) => self.add(mark),
                Err(AllocError) => self.are_missing = true,
            }
        }
    }
}
