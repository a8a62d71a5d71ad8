//! A report on a capture.

ghost use Rattle.std.specs.Prelude.{◌≡◌, ◌<◌, [], List, None, ℕ};
ghost use Rattle.bgp_check_capture_tool.specs.Printed.{PrintsTrueNoes, WritesTrueNoes};
ghost use Rattle.bgp_html.specs.Noted.{nothing_noted};
ghost use Rattle.bgp_html.specs.Notes.{noted_by};
ghost use Rattle.bgp_verdict_lines.specs.declared.form.VerdictForm.TheVariants.{Text};
ghost use Rattle.bgp_report.specs.Report.{Beside, ChecksHeldWithStretches, ChecksWithStretches};
ghost use Rattle.bgp_report.specs.Report.{PutsReport, Reports, TakesText, capture_options};
ghost use Rattle.bgp_report.specs.Report.{never_fails};

use crate::handing::handed_over;
use crate::stretches::put_stretches;
use bgp_check_capture_tool::{
    CaptureOptions, CheckedCapture, Printing, Settings, StretchMarks, check_capture_marking,
};
use bgp_html::Report;
use bgp_judge::Tracker;
use bgp_text::Lines;
use bgp_verdict_lines::VerdictForm;
use mrt::{Sink, Source};
use mrt_sessions::{Held, hold};
use std::alloc::Allocator;

/// Returns how a capture is checked of which a report is made: as text, with routes and with the
/// options of `bgp judge`.
fn capture_options(options: &CaptureOptions) -> CaptureOptions
    ensures { result ≡ capture_options options.now }
{
    CaptureOptions {
        printing: Printing {
            routes: true,
            quiet: options.printing.quiet,
        },
        settings: Settings::Always,
        form: VerdictForm::Text,
    }
}

/// Puts a report on a capture that is held, whose lines it returns: the head, what is printed, and
/// the ladders.
fn put_report<'a, A: Allocator + Copy, T: Tracker<A>, W: Sink>(
    alloc: A,
    options: &CaptureOptions,
    name: &str,
    held: &Held<A>,
    report: Report<'a, A, W>,
) -> (CheckedCapture, Lines<'a, W>)
    requires form { options.now.form ≡ Text }
    requires element { report.element ≡ None }
    requires front { report.front.items ≡ [] }
    requires noted { noted_by report.notes ≡ nothing_noted }
    ensures no { PutsReport name.now (Beside (λ (text : List ℕ) (code : ℕ).
        WritesTrueNoes TakesText never_fails options.now held.now.octets.items [] text code
        result.0.fault)) result.0.status report.entry.lines result.1 }
    ensures all { PutsReport name.now (ChecksHeldWithStretches options.now held.now.octets.items
        held.now.ending result.0.refusals.items result.0.sessions result.0.fault
        result.0.nothing) result.0.status report.entry.lines result.1 }
{
    let mut report = report;
    report.put_head(name.as_bytes());
    let mut marks = StretchMarks::new(alloc);
    let checked = check_capture_marking::<A, T, _>(alloc, options, held, &mut report, &mut marks);
    report.end();
    let (mut lines, notes) = report.into_parts();
    put_stretches(alloc, &mut lines, &notes, &marks);
    (checked, lines)
}

/// Checks the local system of each session in a capture, as [`check_capture`] does, and writes a
/// report of what is printed with `--routes` and `--settings`, under this name of the file. After
/// the text stand the records of each stretch that is judged and isn't left out, as a ladder: in
/// the order of the file, with the record of its no marked. The lines of its answer that say what
/// could have come, or had to, stand there once more: behind that record, or behind all if there is
/// no no. If memory is refused for a ladder or for these lines, the report says so, and the status
/// stays.
///
/// The status is that of what is printed, or 5 if the sink failed.
///
/// [`check_capture`]: bgp_check_capture_tool::check_capture
pub fn report_capture<A: Allocator + Copy, T: Tracker<A>, R: Source, W: Sink>(
    alloc: A,
    options: &CaptureOptions,
    name: &str,
    source: &mut R,
    sink: &mut W,
) -> CheckedCapture
    requires source { R.failures source.old < u64.MAX }
    requires sink { W.failures sink.old < u64.MAX }
    ensures no { Reports W.takes W.failures name.now (Beside (λ (text : List ℕ) (code : ℕ).
        PrintsTrueNoes R.gives R.has_ended TakesText never_fails (capture_options options.now)
        source.old source.new [] text code result.fault)) sink.old sink.new result.status }
    ensures all { Reports W.takes W.failures name.now (ChecksWithStretches R.gives R.has_ended
        R.failures (capture_options options.now) source.old source.new result.refusals.items
        result.sessions result.fault result.nothing) sink.old sink.new result.status }
{
    let options = capture_options(options);
    let held = hold(alloc, source);
    let report = Report::new(alloc, sink);
    let (mut checked, mut lines) = put_report::<A, T, W>(alloc, &options, name, &held, report);
    checked.status = handed_over(&mut lines, checked.status);
    // No effect: it ends the loan of the sink.
    lines.into_sink();
    checked
}
