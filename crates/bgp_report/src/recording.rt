//! A report on a recording.

ghost use Rattle.std.specs.Prelude.{◌≡◌, ◌<◌, ◌^◌, [], List, None, ℕ};
ghost use Rattle.bgp_check_tool.specs.Printed.{NoesAreTrue, PrintsTrue};
ghost use Rattle.bgp_check_tool.specs.Printed.{UnfinishedAreTrue, YesesAreTrue};
ghost use Rattle.bgp_html.specs.Noted.{nothing_noted};
ghost use Rattle.bgp_html.specs.Notes.{noted_by};
ghost use Rattle.bgp_verdict_lines.specs.declared.form.VerdictForm.TheVariants.{Text};
ghost use Rattle.bgp_report.specs.Report.{Beside, ChecksWithLadders, PutsReport, Reports};
ghost use Rattle.bgp_report.specs.Report.{TakesText};
ghost use Rattle.bgp_report.specs.Report.{never_fails, recording_options};

use crate::handing::handed_over;
use crate::ladders::put_ladders;
use bgp_check_capture_tool::{Printing, Settings};
use bgp_check_tool::{CheckOptions, CheckedRecording, Marks, check_marking};
use bgp_html::Report;
use bgp_import::Talks;
use bgp_judge::Tracker;
use bgp_text::Lines;
use bgp_verdict_lines::VerdictForm;
use mrt::{Sink, Source};
use std::alloc::Allocator;

/// Returns how a recording is checked of which a report is made: as text, with routes and with the
/// options of `bgp judge`.
fn recording_options(options: &CheckOptions) -> CheckOptions
    ensures { result ≡ recording_options options.now }
{
    CheckOptions {
        port: options.port,
        within: options.within,
        printing: Printing {
            routes: true,
            quiet: options.printing.quiet,
        },
        settings: Settings::Always,
        form: VerdictForm::Text,
    }
}

/// Puts a report on a recording, whose lines it returns: the head, what is printed, and the ladders.
fn put_report<'a, A: Allocator + Copy, T: Tracker<A>, R: Source, W: Sink>(
    alloc: A,
    options: &CheckOptions,
    name: &str,
    source: &mut R,
    report: Report<'a, A, W>,
) -> (CheckedRecording, Lines<'a, W>)
    requires source { R.failures source.old < 2 ^ 63 }
    requires form { options.now.form ≡ Text }
    requires element { report.element ≡ None }
    requires front { report.front.items ≡ [] }
    requires noted { noted_by report.notes ≡ nothing_noted }
    ensures no { PutsReport name.now (Beside (λ (text : List ℕ) (code : ℕ).
        PrintsTrue NoesAreTrue R.gives R.has_ended TakesText never_fails options.now
        source.old source.new [] text code result.0.cut_short)) result.0.status
        report.entry.lines result.1 }
    ensures yes { PutsReport name.now (Beside (λ (text : List ℕ) (code : ℕ).
        PrintsTrue YesesAreTrue R.gives R.has_ended TakesText never_fails options.now
        source.old source.new [] text code result.0.cut_short)) result.0.status
        report.entry.lines result.1 }
    ensures unfinished { PutsReport name.now (Beside (λ (text : List ℕ) (code : ℕ).
        PrintsTrue UnfinishedAreTrue R.gives R.has_ended TakesText never_fails options.now
        source.old source.new [] text code result.0.cut_short)) result.0.status
        report.entry.lines result.1 }
    ensures all { PutsReport name.now (ChecksWithLadders R.gives R.has_ended R.failures
        options.now source.old source.new result.0.cut_short result.0.refusals.items
        result.0.refusal result.0.nothing) result.0.status report.entry.lines result.1 }
{
    let mut report = report;
    report.put_head(name.as_bytes());
    let mut talks = Talks::new(alloc, options.port);
    let mut marks = Marks::new(alloc);
    let checked = check_marking::<A, T, R, _>(
        alloc,
        options,
        source,
        &mut report,
        &mut talks,
        &mut marks,
    );
    report.end();
    let (mut lines, notes) = report.into_parts();
    put_ladders(alloc, &mut lines, options, &talks, &notes, &marks);
    (checked, lines)
}

/// Checks both ends of each connection in a recording, as [`check_recording`] does, and writes a
/// report of what is printed with `--routes` and `--settings`, under this name of the file. After
/// the text stand the records of each end that is judged and isn't left out, as a ladder: in the
/// order of `bgp import`, with the record of its no marked. The lines of its answer that say what
/// could have come, or had to, stand there once more: behind that record, or behind all if there is
/// no no. If memory is refused for a ladder or for these lines, the report says so, and the status
/// stays.
///
/// The status is that of what is printed, or 5 if the sink failed.
///
/// [`check_recording`]: bgp_check_tool::check_recording
pub fn report_recording<A: Allocator + Copy, T: Tracker<A>, R: Source, W: Sink>(
    alloc: A,
    options: &CheckOptions,
    name: &str,
    source: &mut R,
    sink: &mut W,
) -> CheckedRecording
    requires source { R.failures source.old < 2 ^ 63 }
    requires sink { W.failures sink.old < 2 ^ 63 }
    ensures no { Reports W.takes W.failures name.now (Beside (λ (text : List ℕ) (code : ℕ).
        PrintsTrue NoesAreTrue R.gives R.has_ended TakesText never_fails
        (recording_options options.now) source.old source.new [] text code result.cut_short))
        sink.old sink.new result.status }
    ensures yes { Reports W.takes W.failures name.now (Beside (λ (text : List ℕ) (code : ℕ).
        PrintsTrue YesesAreTrue R.gives R.has_ended TakesText never_fails
        (recording_options options.now) source.old source.new [] text code result.cut_short))
        sink.old sink.new result.status }
    ensures unfinished { Reports W.takes W.failures name.now (Beside (λ (text : List ℕ)
        (code : ℕ). PrintsTrue UnfinishedAreTrue R.gives R.has_ended TakesText never_fails
        (recording_options options.now) source.old source.new [] text code result.cut_short))
        sink.old sink.new result.status }
    ensures all { Reports W.takes W.failures name.now (ChecksWithLadders R.gives R.has_ended
        R.failures (recording_options options.now) source.old source.new result.cut_short
        result.refusals.items result.refusal result.nothing) sink.old sink.new result.status }
{
    let options = recording_options(options);
    let report = Report::new(alloc, sink);
    let (mut checked, mut lines) = put_report::<A, T, R, W>(alloc, &options, name, source, report);
    checked.status = handed_over(&mut lines, checked.status);
    // No effect: it ends the loan of the sink.
    lines.into_sink();
    checked
}
