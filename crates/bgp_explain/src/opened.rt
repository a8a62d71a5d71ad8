//! A capture over any reader and any writer, judged: what stands between a file and the verdict.

ghost use Rattle.std.specs.Prelude.{◌≡◌, ◌≤◌, ◌<◌, ◌^◌, false, IfOk, IfErr};
ghost use Rattle.std.specs.IoError.{error_kind};
ghost use Rattle.mrt.specs.FromWrite.{writer_state};
ghost use Rattle.bgp_judge.specs.Judging.{fault_in};
ghost use Rattle.bgp_tool.specs.Answer.{answer_status, answer_text};
ghost use Rattle.bgp_tool.specs.Opened.{IsUnopened};
ghost use Rattle.bgp_verdict_lines.specs.Printed.{IsWrittenIn};
ghost use Rattle.bgp_explain.specs.LeftOut.{nothing_left_out};
ghost use Rattle.bgp_explain.specs.Opened.{ReportsOpened, confederation_in, left_out_in};
ghost use Rattle.bgp_explain.specs.Text.{CanBePutOf};
ghost use Rattle.bgp_explain.specs.Written.{WritesReport};

use crate::capture::explain_with;
use crate::explained::Explained;
use crate::headline::write_explained;
use crate::left_out::LeftOut;
use crate::report::Report;
use bgp_judge::{Tracker, Verdict};
use bgp_open::Config;
use bgp_tool::{CaptureCommand, Outcome, WithFront, note_of, unopened, unwritten};
use bgp_verdict_lines::{VerdictForm, VerdictLines, put_answer};
use mrt::{CaptureFault, FromRead, FromWrite, Reader, Sink};
use std::alloc::Allocator;
use std::io;
use std::io::{Read, Write};

/// How judging a capture ended.
#[derive(Clone, Copy, Debug, PartialEq, Eq)]
pub struct JudgedCapture<'a> {
    /// The exit status, what was skipped, and what went wrong, if anything did.
    pub outcome: Outcome<'a>,
    /// Whether there is a verdict, and an UPDATE of a confederation (RFC 5065) among the records,
    /// which isn't judged.
    pub confederation: bool,
    /// What judging left out of what both OPENs offer, where there is a verdict.
    pub left_out: LeftOut,
}

/// Judges a capture that a reader gives, if it could be opened: writes the verdict, as
/// [`judge_capture`](bgp_tool::judge_capture) does, or the verdict with its reason, as
/// [`explain_capture`](crate::explain_capture) does; in JSON the objects of lines that have just
/// this text. Says what went wrong, if anything did: why the
/// capture is refused; that no record was the session's, or what the file is, where it is no
/// capture; that a capture which is judged yes shows nothing that the local system did
/// (`specs/Opened.antt`). A closed pipe is status 5 and not told; where the reader failed, too, the
/// writer's failure is told.
///
/// The reader is asked for few octets at a time: put a buffer before a file.
pub fn judge_opened<'a, A: Allocator + Copy, T: Tracker<A>, R: Read + Drop, W: Write>(
    alloc: A,
    config: &Config,
    report: Report,
    form: VerdictForm,
    file: &'a str,
    opened: io::Result<R>,
    sink: &mut FromWrite<W>,
) -> JudgedCapture<'a>
    requires { (writer_state sink.old).failures < 2 ^ 63 }
    ensures reported { IfOk opened (λ reader. ReportsOpened form R.remaining W.contents config.now
        T.may_lack file.entry reader (writer_state sink.old) (writer_state sink.new)
        result report) }
    ensures unopened { IfErr opened (λ error. IsUnopened file.entry (error_kind error)
        result.outcome × (result.confederation ≡ false)
        × (result.left_out ≡ nothing_left_out) × (writer_state sink.new ≡ writer_state sink.old)) }
    ensures statuses { result.outcome.status ≤ 5 }
{
    match opened {
        Ok(reader) => judge_reader::<A, T, R, W>(alloc, config, report, form, file, reader, sink),
        Err(error) => JudgedCapture {
            outcome: unopened(file, error.kind()),
            confederation: false,
            left_out: LeftOut::nothing(),
        },
    }
}

/// Judges what a reader gives.
fn judge_reader<'a, A: Allocator + Copy, T: Tracker<A>, R: Read + Drop, W: Write>(
    alloc: A,
    config: &Config,
    report: Report,
    form: VerdictForm,
    file: &'a str,
    reader: R,
    sink: &mut FromWrite<W>,
) -> JudgedCapture<'a>
    requires { (writer_state sink.old).failures < 2 ^ 63 }
    ensures reported { ReportsOpened form R.remaining W.contents config.now T.may_lack file.entry
        reader (writer_state sink.old) (writer_state sink.new) result report }
    ensures statuses { result.outcome.status ≤ 5 }
{
    let mut source = WithFront::new(FromRead::new(reader));
    let mut records = Reader::new(alloc);
    let failures = sink.failures();
    let explained = explain_with::<A, T, WithFront<FromRead<R>>>(
        &mut records,
        alloc,
        config,
        &mut source,
    );
    let refused = refused_by(&explained.answer);
    let confederation = is_of_confederation(&explained);
    let left_out = left_out_of(&explained);
    let status = write_report(sink, alloc, config, report, form, &explained);
    let skipped = records.skipped();
    let note = if sink.failures() > failures {
        unwritten(sink)
    } else {
        let command = CaptureCommand::Judge;
        let lacking = explained.totals.seen.lacking(status);
        note_of(command, status, file, &source, &records, refused, lacking)
    };
    JudgedCapture {
        outcome: Outcome {
            status,
            skipped: Some(skipped),
            note,
        },
        confederation,
        left_out,
    }
}

/// Writes what is answered of a capture in this form, and answers its exit status, or that of memory
/// if it is refused for an object, or that of a device if the sink failed.
fn write_verdict<W: Sink, A: Allocator + Copy>(
    sink: &mut W,
    alloc: A,
    form: VerdictForm,
    answer: &Result<Verdict<A>, CaptureFault>,
) -> u8
    requires failures { W.failures sink.old < 2 ^ 63 }
    ensures writes { IsWrittenIn form W.takes W.failures (answer_text answer.now)
        (answer_status answer.now) sink.old sink.new result }
    ensures statuses { result ≤ 5 }
{
    let mut lines = VerdictLines::new(form, alloc, sink);
    let status = put_answer(&mut lines, answer);
    let status = lines.finish(status);
    // No effect: it ends the loan of the sink.
    lines.into_sink();
    status.code()
}

/// Writes the verdict in this form, and its reason if it is wanted.
fn write_report<W: Sink, A: Allocator + Copy>(
    sink: &mut W,
    alloc: A,
    config: &Config,
    report: Report,
    form: VerdictForm,
    explained: &Explained<A>,
) -> u8
    requires failures { W.failures sink.old < 2 ^ 63 }
    requires can { CanBePutOf config.now.parts.session explained.now.reason }
    ensures writes { WritesReport form W.takes W.failures config.now explained.now sink.old sink.new
        result report }
    ensures statuses { result ≤ 5 }
{
    match report {
        Report::VerdictAlone => write_verdict(sink, alloc, form, &explained.answer),
        Report::WithReason => write_explained(sink, alloc, config, form, explained),
    }
}

/// Whether there is a verdict, and the records show an UPDATE of a confederation.
fn is_of_confederation<A: Allocator>(explained: &Explained<A>) -> bool
    ensures { result ≡ confederation_in explained.now.answer explained.now.totals }
{
    explained.answer.is_ok() && explained.totals.confederation
}

/// What judging left out of what both OPENs offer, where there is a verdict.
fn left_out_of<A: Allocator>(explained: &Explained<A>) -> LeftOut
    ensures { result ≡ left_out_in explained.now.answer explained.now.totals }
{
    match &explained.answer {
        Ok(_) => explained.totals.left_out,
        Err(_) => LeftOut::nothing(),
    }
}

/// Why a capture is refused, if it is.
fn refused_by<X>(answer: &Result<X, CaptureFault>) -> Option<CaptureFault>
    ensures { result ≡ fault_in answer.now }
{
    match answer {
        Ok(_) => None,
        Err(fault) => Some(*fault),
    }
}
