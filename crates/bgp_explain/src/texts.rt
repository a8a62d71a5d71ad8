//! The text of what is explained: the verdict's own, and then why it is a no or unfinished.

ghost use Rattle.std.specs.Prelude.{◌≡◌, ℕ, List, is_some};
ghost use Rattle.bgp_tool.specs.Answer.{answer_status};
ghost use Rattle.bgp_tool.specs.Status.{code_of};
ghost use Rattle.bgp_verdict_lines.specs.Lines.{PutsLines};
ghost use Rattle.bgp_explain.specs.Details.{AreDetails, AreDetailsOf, next_in};
ghost use Rattle.bgp_explain.specs.Places.{places_of};
ghost use Rattle.bgp_explain.specs.Text.{CanBePut, CanBePutOf, IsExplainedText, IsMoreBy};
ghost use Rattle.bgp_explain.specs.Text.{IsMoreOf, IsReasonText, first_by, first_in};
ghost use Rattle.bgp_explain.specs.Text.{no_memory_line};

use crate::deed::put_first_line;
use crate::details::Details;
use crate::explained::{Explained, Impossible, Reason, Totals};
use crate::moments::second_in;
use crate::places::Places;
use crate::tally::put_yes_lines;
use crate::why::put_lines;
use bgp_judge::Verdict;
use bgp_open::Config;
use bgp_prefix::{Seconds, Session};
use bgp_tool::Status;
use bgp_verdict_lines::{VerdictLines, put_answer, put_note};
use bgp_why::Style;
use mrt::Sink;
use std::alloc::Allocator;

/// Puts why a verdict is a no or unfinished, with the details of the reason: the line of the first
/// impossible record, if there is one, and its message in words; the state that the records before
/// tell; the message that was received last; a line for each kind of record that could have stood
/// in its place, or may follow, with what the impossible one lacks of it; and notes.
///
/// The lines are in this style and name the records by where they stand, and the impossible one's
/// is put as of a capture of this session. If a link is settled, its routes are put by it.
pub fn put_reason<W: Sink, A: Allocator + Copy>(
    lines: &mut VerdictLines<'_, A, W>,
    config: &Config,
    style: &Style,
    session: &Session,
    places: Places<'_>,
    reason: &Reason<A>,
    details: &Details<'_, A>,
)
    requires can { CanBePut session.now reason.now.impossible }
    requires details { AreDetails config.now reason.now details.now }
    ensures { (text : List ℕ) × IsReasonText config.now style.now session.now
        (places_of places.entry) reason.now text × PutsLines lines.old lines.new text }
{
    put_first_line(lines, style, session, places, reason, &details.lacks);
    put_lines(lines, config, style, session, None, places, reason, details);
}

/// Puts that memory was refused for a reason.
fn put_no_memory<W: Sink, A: Allocator + Copy>(lines: &mut VerdictLines<'_, A, W>)
    ensures { PutsLines lines.old lines.new no_memory_line }
{
    put_note(lines, b"out of memory for the reason");
}

/// Puts a reason with its details, where there are both, or that memory was refused for it.
pub(crate) fn put_any_reason<W: Sink, A: Allocator + Copy>(
    lines: &mut VerdictLines<'_, A, W>,
    config: &Config,
    style: &Style,
    session: &Session,
    places: Places<'_>,
    reason: &Option<Reason<A>>,
    details: &Option<Details<'_, A>>,
)
    requires can { CanBePutOf session.now reason.now }
    requires details { AreDetailsOf config.now reason.now details.now }
    ensures { (more : List ℕ)
        × IsMoreBy config.now style.now session.now (places_of places.entry) reason.now
        (is_some details.now) more
        × PutsLines lines.old lines.new more }
{
    match reason {
        None => put_no_memory(lines),
        Some(reason) => match details {
            None => put_no_memory(lines),
            Some(details) => {
                put_reason(lines, config, style, session, places, reason, details);
            }
        },
    }
}

/// Returns the second of the first record: of the impossible one if it is the first.
fn first_by<A: Allocator + Copy>(
    first: Option<Seconds>,
    impossible: &Option<Impossible<A>>,
) -> Seconds
    ensures { result ≡ first_by first (next_in impossible.now) }
{
    if let Some(second) = first {
        return second;
    }
    match impossible {
        None => 0,
        Some(impossible) => second_in(&impossible.record.as_record()),
    }
}

/// Returns the second of the first record, as far as a reason shows it.
fn first_in<A: Allocator + Copy>(reason: &Option<Reason<A>>) -> Seconds
    ensures { result ≡ first_in reason.now }
{
    match reason {
        None => 0,
        Some(reason) => first_by(reason.moments.first, &reason.impossible),
    }
}

/// Puts what stands after the verdict's own text: after a yes what its records are, and else why it
/// is so, with the details of the reason. After a fault there is nothing.
fn put_more<W: Sink, A: Allocator + Copy>(
    lines: &mut VerdictLines<'_, A, W>,
    config: &Config,
    explained: &Explained<A>,
    details: &Option<Details<'_, A>>,
)
    requires can { CanBePutOf config.now.parts.session explained.now.reason }
    requires details { AreDetailsOf config.now explained.now.reason details.now }
    ensures { (more : List ℕ) × IsMoreOf config.now explained.now.answer explained.now.reason
        (is_some details.now) explained.now.totals more × PutsLines lines.old lines.new more }
{
    let (places, reason) = (
        Places::Counted(&explained.totals.fractions),
        &explained.reason,
    );
    let (style, session) = (
        &Style::plain(first_in(reason), false),
        &config.parts.session,
    );
    match &explained.answer {
        Ok(Verdict::Yes(_)) => {
            let Totals {
                tally,
                seen,
                skipped,
                ..
            } = &explained.totals;
            put_yes_lines(lines, tally, Some(*skipped), seen.left_idle);
        }
        Ok(Verdict::No(_)) => {
            put_any_reason(lines, config, style, session, places, reason, details);
        }
        Ok(Verdict::Unfinished) => {
            put_any_reason(lines, config, style, session, places, reason, details);
        }
        Err(_) => {}
    }
}

/// Puts the text of what is explained, with the details of its reason, or that memory was refused
/// for it where there are none, and answers its exit status, that of the verdict.
pub fn put_explained<W: Sink, A: Allocator + Copy>(
    lines: &mut VerdictLines<'_, A, W>,
    config: &Config,
    explained: &Explained<A>,
    details: &Option<Details<'_, A>>,
) -> Status
    requires can { CanBePutOf config.now.parts.session explained.now.reason }
    requires details { AreDetailsOf config.now explained.now.reason details.now }
    ensures writes { (text : List ℕ)
        × IsExplainedText config.now explained.now (is_some details.now) text
        × PutsLines lines.old lines.new text }
    ensures status { code_of result ≡ answer_status explained.now.answer }
{
    let status = put_answer(lines, &explained.answer);
    put_more(lines, config, explained, details);
    status
}
