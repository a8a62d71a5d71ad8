//! What is known of the ends whose answers are printed: where a no stands.

ghost use Rattle.std.specs.Prelude.{◌≡◌, ◌∷◌, [], IsFalse};
ghost use Rattle.bgp_check_tool.specs.Blocks.{block_of};
ghost use Rattle.bgp_check_tool.specs.Marks.{AddsMarks, block_marks, end_mark, mark_by, no_at};
ghost use Rattle.bgp_check_tool.specs.Told.{told_value};
ghost use Rattle.bgp_judge.specs.Verdict.{verdict_value};

use crate::another::Order;
use crate::connection::{BothTold, EndsTold};
use crate::ending::Told;
use crate::orders::NoOrder;
use bgp_check::Answer;
use bgp_check_lines::{Printing, is_left_out};
use bgp_import::Refusal;
use bgp_judge::Verdict;
use bgp_prefix::Session;
use std::alloc::Allocator;
use streams::Opening;

/// Where the no of an end stands.
#[derive(Clone, Copy, Debug, PartialEq, Eq)]
pub enum NoAt {
    /// Nowhere: what is answered is no no.
    Nowhere,
    /// At the record behind so many of the made order.
    Record(u64),
    /// At the message behind so many that the end sent: no order explains it.
    Message(usize),
}

/// What is known of an end that is judged.
#[derive(Clone, Copy, Debug, PartialEq, Eq)]
pub struct EndMark {
    /// In which order of its messages that is so.
    pub order: Order,
    /// Where its no stands, if it has one.
    pub no: NoAt,
    /// How many records of the made order stand before the one that the reason's lines are about,
    /// which say what could have come there. They are about the no of the made order, also where
    /// the end's no stands elsewhere: of a no over all orders, about the one that the made order
    /// has under the configuration under which that message comes last. `None` if the made order
    /// has no no: the reason has no lines, or they are about what may follow all records.
    pub asked: Option<u64>,
    /// Whether memory was refused for the search over all orders. If not, a no or an unfinished is
    /// about one order alone only if that search was too long.
    pub lacks_memory: bool,
    /// Whether memory was refused for the same search where a message may be handled as late as it
    /// can be said. If not, a no or an unfinished that has no note on a late router stays what it is,
    /// or that search was too long.
    pub lacks_memory_later: bool,
}

/// What is known of both ends of a connection.
#[derive(Clone, Copy, Debug)]
pub struct BothMarks {
    /// Its addresses.
    pub session: Session,
    /// How it was opened.
    pub opening: Opening,
    /// The end that opened it, if it is judged and its answer is printed.
    pub opener: Option<EndMark>,
    /// The other one.
    pub other: Option<EndMark>,
}

/// What is known of the ends of all connections of a recording, in the order in which they are
/// printed.
#[derive(Drop)]
pub struct Marks<A: Allocator> {
    /// Both ends of each connection that isn't refused and has two ends.
    pub both: Vec<BothMarks, A>,
    /// Whether memory was refused for some of them, so that they are missing.
    pub are_missing: bool,
}

/// Returns where a no stands, of which this is the first sent message that no order explains, if
/// one is known.
fn no_at<A: Allocator>(verdict: &Verdict<A>, found: &Option<NoOrder<'_>>) -> NoAt
    ensures { result ≡ no_at (verdict_value verdict.now) found.now }
{
    match (verdict, found) {
        (Verdict::No(_), Some(found)) => NoAt::Message(found.unexplained.before),
        (Verdict::No(count), None) => NoAt::Record(*count),
        (Verdict::Yes(_) | Verdict::Unfinished, _) => NoAt::Nowhere,
    }
}

/// Returns what is known of an end of which this is told, with this verdict.
fn mark_by<A: Allocator>(verdict: &Verdict<A>, told: &Told<'_, A>) -> EndMark
    ensures { result ≡ mark_by (verdict_value verdict.now) (told_value told.now) }
{
    EndMark {
        order: told.order,
        no: no_at(verdict, &told.found),
        asked: told.asked_at,
        lacks_memory: told.lacks_memory,
        lacks_memory_later: told.lacks_memory_later,
    }
}

/// Returns what is known of an end, if it is judged and isn't left out.
fn end_mark<A: Allocator>(printing: Printing, told: &Told<'_, A>) -> Option<EndMark>
    ensures { result ≡ end_mark printing (told_value told.now) }
{
    if is_left_out(printing.quiet, &told.answer) {
        return None;
    }
    match &told.answer {
        Answer::NotJudged(_) => None,
        Answer::Judged(judged) => Some(mark_by(&judged.verdict, told)),
    }
}

impl<A: Allocator> Marks<A> {
    /// Nothing yet.
    pub fn new(alloc: A) -> Marks<A>
        ensures both { result.both.items ≡ [] }
        ensures none { IsFalse result.are_missing }
    {
        Marks {
            both: Vec::new(alloc),
            are_missing: false,
        }
    }

    /// Adds both ends of a connection.
    fn add(&mut self, both: BothMarks)
        ensures { AddsMarks self.old self.new (both ∷ []) }
    {
        match self.both.push(both) {
            Ok(()) => {}
            Err(_) => self.are_missing = true,
        }
    }

    /// Adds both ends of a connection of which this is told.
    fn add_both(
        &mut self,
        session: &Session,
        opening: Opening,
        printing: Printing,
        both: &BothTold<'_, A>,
    )
        ensures { AddsMarks self.old self.new (record {
          session = session.now;
          opening = opening;
          opener = end_mark printing (told_value both.now.opener);
          other = end_mark printing (told_value both.now.other);
        } ∷ []) }
    {
        self.add(BothMarks {
            session: *session,
            opening,
            opener: end_mark(printing, &both.opener),
            other: end_mark(printing, &both.other),
        });
    }

    /// Adds the ends of a connection, if this is told of two.
    pub(crate) fn add_connection(
        &mut self,
        session: &Session,
        opening: Opening,
        printing: Printing,
        told: &Result<EndsTold<'_, A>, Refusal>,
    )
        ensures { AddsMarks self.old self.new
            (block_marks printing (block_of session.now opening told.now)) }
    {
        match told {
            Ok(EndsTold::Both(both)) => self.add_both(session, opening, printing, both),
            Ok(EndsTold::One(..)) | Err(_) => {}
        }
    }
}
