//! `bgp check` over any reader and any writer.

ghost use Rattle.std.specs.Prelude.{◌≡◌, ◌<◌, ◌^◌};
ghost use Rattle.mrt.specs.FromWrite.{writer_state};
ghost use Rattle.bgp_commands.specs.Answers.{ChecksFile, ChecksPackets, ChecksRecords};
ghost use Rattle.bgp_commands.specs.Answers as specs;

use crate::answer::Answer;
use crate::ends::Ends;
use bgp_judge::Tracker;
use bgp_recording_tool::Peeked;
use bgp_report::{
    CaptureOptions, CheckOptions, CheckedCapture, CheckedRecording, Printing, Settings,
    check_capture, check_recording,
};
use bgp_tool::WithFront;
use bgp_verdict_lines::VerdictForm;
use bgp_words::{CheckForm, Checking};
use mrt::{FromRead, FromWrite, Sink};
use std::alloc::Allocator;
use std::io::{Read, Write};

/// Returns whether the options of `bgp judge` are printed after the verdicts.
fn settings_with(settings: bool) -> Settings
    ensures { result ≡ specs.settings_with settings }
{
    if settings {
        Settings::Always
    } else {
        Settings::Never
    }
}

/// Returns the form in which the lines are put: a report is made of text.
fn form_in(form: CheckForm) -> VerdictForm
    ensures { result ≡ specs.form_in form }
{
    match form {
        CheckForm::Text | CheckForm::Html => VerdictForm::Text,
        CheckForm::Json => VerdictForm::Json,
    }
}

/// Returns how a pcap file is checked.
pub(crate) fn check_options(checking: &Checking) -> CheckOptions
    ensures { result ≡ specs.check_options checking.now }
{
    CheckOptions {
        port: checking.port,
        within: checking.within,
        printing: Printing {
            routes: checking.routes,
            quiet: checking.quiet,
        },
        settings: settings_with(checking.settings),
        form: form_in(checking.form),
    }
}

/// Returns how an MRT file is checked.
pub(crate) fn capture_options(options: &CheckOptions) -> CaptureOptions
    ensures { result ≡ specs.capture_options options.now }
{
    let CheckOptions {
        printing,
        settings,
        form,
        ..
    } = *options;
    CaptureOptions {
        printing,
        settings,
        form,
    }
}

/// Checks both ends of each connection in a pcap file, or the local system of each session in an
/// MRT file. The first four octets say which it is.
pub(crate) fn check<'a, A: Allocator + Copy, T: Tracker<A>, R: Read + Drop, W: Write>(
    alloc: A,
    options: &CheckOptions,
    file: &'a str,
    reader: R,
    sink: &mut FromWrite<W>,
) -> Answer<'a, A>
    requires { (writer_state sink.old).failures < 2 ^ 63 }
    ensures { ChecksFile R.remaining W.contents file.entry reader sink.old sink.new result
        options.now }
{
    let peeked = Peeked::new(reader);
    if peeked.is_recording() {
        let (checked, ends) = check_packets::<A, T, _, W>(alloc, options, file, peeked, sink);
        Answer::CheckedRecording(checked, ends)
    } else {
        let options = capture_options(options);
        let (checked, ends) = check_records::<A, T, _, W>(alloc, &options, file, peeked, sink);
        Answer::CheckedCapture(checked, ends)
    }
}

/// Checks both ends of each connection in a pcap file.
fn check_packets<'a, A: Allocator + Copy, T: Tracker<A>, R: Read + Drop, W: Write>(
    alloc: A,
    options: &CheckOptions,
    file: &'a str,
    reader: R,
    sink: &mut FromWrite<W>,
) -> (CheckedRecording, Ends<'a>)
    requires { (writer_state sink.old).failures < 2 ^ 63 }
    ensures { ChecksPackets R.remaining W.contents file.entry reader sink.old sink.new options.now
        result.0 result.1 }
{
    let mut source = FromRead::new(reader);
    let failures = sink.failures();
    let checked = check_recording::<A, T, _, _>(alloc, options, &mut source, sink);
    let ends = Ends::of(file, &source, sink, failures, None);
    (checked, ends)
}

/// Checks the local system of each session in an MRT file.
fn check_records<'a, A: Allocator + Copy, T: Tracker<A>, R: Read + Drop, W: Write>(
    alloc: A,
    options: &CaptureOptions,
    file: &'a str,
    reader: R,
    sink: &mut FromWrite<W>,
) -> (CheckedCapture, Ends<'a>)
    requires { (writer_state sink.old).failures < 2 ^ 63 }
    ensures { ChecksRecords R.remaining W.contents file.entry reader sink.old sink.new options.now
        result.0 result.1 }
{
    let mut source = WithFront::new(FromRead::new(reader));
    let failures = sink.failures();
    let checked = check_capture::<A, T, _, _>(alloc, options, &mut source, sink);
    let note = checked.file_note(file, source.front());
    let ends = Ends::of(file, source.source(), sink, failures, note);
    (checked, ends)
}
