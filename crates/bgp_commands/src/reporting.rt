//! `bgp check --html` over any reader and any writer.

ghost use Rattle.std.specs.Prelude.{◌≡◌, ◌<◌, ◌^◌};
ghost use Rattle.mrt.specs.FromWrite.{writer_state};
ghost use Rattle.bgp_commands.specs.Answers.{ChecksIn, ReportsFile, ReportsPackets, ReportsRecords};
ghost use Rattle.bgp_commands.specs.Reported.{IsReported};
ghost use Rattle.bgp_commands.specs.Reported as specs;

use crate::answer::Answer;
use crate::checking::{capture_options, check, check_options};
use crate::ends::Ends;
use crate::voice::Voice;
use bgp_judge::Tracker;
use bgp_recording_tool::Peeked;
use bgp_report::{
    CaptureOptions, CheckOptions, CheckedCapture, CheckedRecording, report_capture,
    report_recording,
};
use bgp_tool::WithFront;
use bgp_words::{CheckForm, Checking};
use mrt::{FromRead, FromWrite, Sink};
use std::alloc::Allocator;
use std::io::{Read, Write};

/// Returns what `check --html` is asked for with this port, so many seconds, and no other option.
fn html_checking(port: u16, within: u16) -> Checking
    ensures { result ≡ specs.html_checking port within }
{
    Checking {
        port,
        within,
        routes: false,
        settings: false,
        quiet: false,
        form: CheckForm::Html,
    }
}

/// Writes the report of `bgp check --html` on what a reader gives, under this name of the file,
/// with this port and so many seconds. Says all that there is to say of it, and returns the exit
/// status.
///
/// This is the command, without its words, for whoever has a file's octets in memory. The reader is
/// asked for few octets at a time: put a buffer before a file.
pub fn report_over<A: Allocator + Copy, T: Tracker<A>, R: Read + Drop, W: Write, V: Voice>(
    alloc: A,
    port: u16,
    within: u16,
    file: &str,
    reader: R,
    sink: &mut FromWrite<W>,
    voice: &mut V,
) -> u8
    requires { (writer_state sink.old).failures < 2 ^ 63 }
    ensures { IsReported A R.remaining W.contents V.says port within file.entry reader sink.old
        sink.new voice.old voice.new result }
{
    let options = check_options(&html_checking(port, within));
    let answer = report::<A, T, R, W>(alloc, &options, file, reader, sink);
    answer.say(voice);
    answer.status()
}

/// Checks a file, and prints what is found in this form.
pub(crate) fn check_in<'a, A: Allocator + Copy, T: Tracker<A>, R: Read + Drop, W: Write>(
    alloc: A,
    form: CheckForm,
    options: &CheckOptions,
    file: &'a str,
    reader: R,
    sink: &mut FromWrite<W>,
) -> Answer<'a, A>
    requires { (writer_state sink.old).failures < 2 ^ 63 }
    ensures { ChecksIn R.remaining W.contents file.entry reader sink.old sink.new result form
        options.now }
{
    match form {
        CheckForm::Text | CheckForm::Json => {
            check::<A, T, R, W>(alloc, options, file, reader, sink)
        }
        CheckForm::Html => report::<A, T, R, W>(alloc, options, file, reader, sink),
    }
}

/// Writes a report on both ends of each connection in a pcap file, or on the local system of each
/// session in an MRT file. The first four octets say which it is.
fn report<'a, A: Allocator + Copy, T: Tracker<A>, R: Read + Drop, W: Write>(
    alloc: A,
    options: &CheckOptions,
    file: &'a str,
    reader: R,
    sink: &mut FromWrite<W>,
) -> Answer<'a, A>
    requires { (writer_state sink.old).failures < 2 ^ 63 }
    ensures { ReportsFile R.remaining W.contents file.entry reader sink.old sink.new result
        options.now }
{
    let peeked = Peeked::new(reader);
    if peeked.is_recording() {
        let (checked, ends) = report_packets::<A, T, _, W>(alloc, options, file, peeked, sink);
        Answer::CheckedRecording(checked, ends)
    } else {
        let options = capture_options(options);
        let (checked, ends) = report_records::<A, T, _, W>(alloc, &options, file, peeked, sink);
        Answer::CheckedCapture(checked, ends)
    }
}

/// Writes a report on both ends of each connection in a pcap file.
fn report_packets<'a, A: Allocator + Copy, T: Tracker<A>, R: Read + Drop, W: Write>(
    alloc: A,
    options: &CheckOptions,
    file: &'a str,
    reader: R,
    sink: &mut FromWrite<W>,
) -> (CheckedRecording, Ends<'a>)
    requires { (writer_state sink.old).failures < 2 ^ 63 }
    ensures { ReportsPackets R.remaining W.contents file.entry reader sink.old sink.new options.now
        result.0 result.1 }
{
    let mut source = FromRead::new(reader);
    let failures = sink.failures();
    let checked = report_recording::<A, T, _, _>(alloc, options, file, &mut source, sink);
    let ends = Ends::of(file, &source, sink, failures, None);
    (checked, ends)
}

/// Writes a report on the local system of each session in an MRT file.
fn report_records<'a, A: Allocator + Copy, T: Tracker<A>, R: Read + Drop, W: Write>(
    alloc: A,
    options: &CaptureOptions,
    file: &'a str,
    reader: R,
    sink: &mut FromWrite<W>,
) -> (CheckedCapture, Ends<'a>)
    requires { (writer_state sink.old).failures < 2 ^ 63 }
    ensures { ReportsRecords R.remaining W.contents file.entry reader sink.old sink.new options.now
        result.0 result.1 }
{
    let mut source = WithFront::new(FromRead::new(reader));
    let failures = sink.failures();
    let checked = report_capture::<A, T, _, _>(alloc, options, file, &mut source, sink);
    let note = checked.file_note(file, source.front());
    let ends = Ends::of(file, source.source(), sink, failures, note);
    (checked, ends)
}
