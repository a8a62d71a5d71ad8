//! What explaining a capture promises.

ghost use Rattle.std.specs.Prelude.{◌<◌, ◌≤◌, ◌^◌, ℕ, Bool, List};
ghost use Rattle.bgp_tool.specs.Answer.{answer_status};
ghost use Rattle.bgp_verdict_lines.specs.Printed.{IsWrittenIn};
ghost use Rattle.bgp_explain.specs.Capture.{ExplainedAsJudged, ExplainsCapture};
ghost use Rattle.bgp_explain.specs.Text.{CanBePutOf, IsExplainedText};

use crate::capture::explain_with;
use crate::details::details_of;
use crate::explained::Explained;
use crate::texts::put_explained;
use bgp_judge::Tracker;
use bgp_open::Config;
use bgp_tool::each_capture_has_one_verdict;
use bgp_verdict_lines::{VerdictForm, VerdictLines};
use mrt::{Reader, Sink, Source};
use std::alloc::Allocator;

/// Writes what is explained in this form, with the details of its reason, as far as there is memory
/// for them, and answers its exit status, or that of memory if it is refused for an object, or that
/// of a device if the sink failed.
pub(crate) fn write_explained<W: Sink, A: Allocator + Copy>(
    sink: &mut W,
    alloc: A,
    config: &Config,
    form: VerdictForm,
    explained: &Explained<A>,
) -> u8
    requires failures { W.failures sink.old < 2 ^ 63 }
    requires can { CanBePutOf config.now.parts.session explained.now.reason }
    ensures writes { (text : List ℕ) × (detailed : Bool)
        × IsExplainedText config.now explained.now detailed text
        × IsWrittenIn form W.takes W.failures text (answer_status explained.now.answer)
        sink.old sink.new result }
    ensures statuses { result ≤ 5 }
{
    let details = details_of(alloc, config, &explained.reason);
    let mut lines = VerdictLines::new(form, alloc, sink);
    let status = put_explained(&mut lines, config, explained, &details);
    let status = lines.finish(status);
    // No effect: it ends the loan of the sink.
    lines.into_sink();
    status.code()
}

/// Judges the capture that a source gives, as [`judge_capture`](bgp_tool::judge_capture) does, and
/// explains a no and an unfinished.
///
/// It writes exactly the text of the one verdict on the records that the octets spell, answers its
/// exit status, and then writes:
///
/// * after a no the line of the first impossible record, with what is wrong with it; its message in
///   words, if it was sent; the state that the records before it tell; the message received last,
///   and what it asks for; each kind of record that could have stood in its place, and no other,
///   with what the record lacks of it; and each note whose condition holds. What both OPENs offer
///   is told of the first OPEN that was sent and of the one that settles the link: that nothing is
///   configured to be offered, though both offer several paths of a family or IPv6 next hops of
///   IPv4 routes. The other conditions stand in `specs/Notes` of bgp_why, and that of the
///   NOTIFICATION that was sent already in `specs/Why`.
/// * after an unfinished the same, of what may follow all records.
/// * after a yes how many records there are, and of which kinds; and how many were skipped, since
///   they are of another session, with the addresses of the first of these, or of another kind.
///
/// Each record that is named has its time: its second, and the fraction that its octets tell, if they
/// tell one.
///
/// After a refusal it writes nothing more. Where the sink failed, a beginning of that text is
/// written, and the status is 5. Where memory was refused for the reason, `note: out of memory for the
/// reason` stands in its place, and the verdict and the status are told all the same: so memory is
/// refused in a verdict's place only where [`judge_capture`](bgp_tool::judge_capture) may lack it.
///
/// In JSON it writes the objects of lines that have just this text, a line each
/// (`specs/Printed` of bgp_verdict_lines). If memory is refused for one, those before it are
/// written, and the status is 4.
///
/// It rests on the contract of [`Tracker`] alone, and so holds with every tracker.
pub fn explain_capture<A: Allocator + Copy, T: Tracker<A>, R: Source, W: Sink>(
    alloc: A,
    config: &Config,
    form: VerdictForm,
    source: &mut R,
    sink: &mut W,
) -> u8
    requires source { R.failures source.old < 2 ^ 63 }
    requires sink { W.failures sink.old < 2 ^ 63 }
    ensures { ExplainsCapture form R.gives R.has_ended W.takes R.failures W.failures config.now
        source.old source.new T.may_lack sink.old sink.new result }
{
    let mut reader = Reader::new(alloc);
    let explained = explain_with::<A, T, R>(&mut reader, alloc, config, source);
    write_explained(sink, alloc, config, form, &explained)
}

/// Law: what is explained is judged. The text of what is explained, or told without its reason,
/// begins with that of the one verdict which judging the capture tells, and the exit status is the
/// same.
pub fn explained_as_judged()
    ensures { ExplainedAsJudged }
{
    each_capture_has_one_verdict();
}
