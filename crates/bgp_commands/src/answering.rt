//! The commands that read a file, over any reader and any writer.

ghost use Rattle.std.specs.Prelude.{◌≡◌, ◌<◌, ◌^◌, ◌↔◌, IsTrue};
ghost use Rattle.mrt.specs.FromWrite.{writer_state};
ghost use Rattle.bgp_tool.specs.Opened.{DecodesReader};
ghost use Rattle.bgp_recording_tool.specs.Files.{DecodesFile, JudgesFile};
ghost use Rattle.bgp_words.specs.Import.{CanImport};
ghost use Rattle.bgp_commands.specs.Answers.{Answers, AnswersTo, IsOneName, form_with, report_with};
ghost use Rattle.bgp_commands.specs.Answers.{session_options, stream_options};
ghost use Rattle.bgp_commands.specs.Answers as specs;
ghost use Rattle.bgp_commands.specs.Sentences.{sentences_of, status_of};
ghost use Rattle.bgp_commands.specs.declared.answer.Answer.{Answer as Given};

use crate::answer::Answer;
use crate::checking::check_options;
use crate::importing::import;
use crate::listing::{list, list_form};
use crate::reporting::check_in;
use crate::voice::Voice;
use bgp_explain::Report;
use bgp_import::RecordingOptions;
use bgp_json::OutputForm;
use bgp_judge::Tracker;
use bgp_open::Config;
use bgp_prefix::Session;
use bgp_recording_tool::{FileOutcome, decode_file, judge_file};
use bgp_tool::{Outcome, Ready, SessionOptions, StreamOptions, decode_opened, unopened};
use bgp_verdict_lines::VerdictForm;
use bgp_wire::Limit;
use bgp_words::{Command, Reporting};
use mrt::FromWrite;
use std::alloc::Allocator;
use std::io;
use std::io::{Read, Write};

/// Returns the name of the file that a command reads, or of the one that it writes if it reads
/// none.
pub fn file_of<'a>(command: &Command<'a>) -> &'a str
    ensures { result ≡ specs.file_of command.now }
{
    match *command {
        Command::Decode { file, .. }
        | Command::Capture { file, .. }
        | Command::Judge { file, .. }
        | Command::Import { file, .. }
        | Command::List { file, .. }
        | Command::Check { file, .. }
        | Command::Speak { file, .. }
        | Command::Pair { file } => file,
    }
}

/// Checks whether a command reads a file.
pub fn reads_file(command: &Command<'_>) -> bool
    ensures { result ≡ specs.reads_file command.now }
{
    match command {
        Command::Decode { .. }
        | Command::Capture { .. }
        | Command::Judge { .. }
        | Command::Import { .. }
        | Command::List { .. }
        | Command::Check { .. } => true,
        Command::Speak { .. } | Command::Pair { .. } => false,
    }
}

/// Checks whether a command is an import of a file to itself. Both names are `-` for standard input
/// and standard output.
fn is_one_name(command: &Command<'_>) -> bool
    ensures { IsTrue result ↔ IsOneName command.now }
{
    match *command {
        Command::Import { file, out, .. } => file == out && file != "-",
        _ => false,
    }
}

/// Answers a command that reads a file: a reader gives the file's octets, if it could be opened,
/// and a sink takes what the command prints, or the MRT file that `import` makes.
///
/// Each command is one call, with just the options that it names (`specs/Answers.antt`). The reader
/// is asked for few octets at a time: put a buffer before a file.
pub fn answer_to<'a, A: Allocator + Copy, T: Tracker<A>, R: Read + Ready + Drop, W: Write>(
    alloc: A,
    command: &Command<'a>,
    opened: io::Result<R>,
    sink: &mut FromWrite<W>,
) -> Answer<'a, A>
    requires reads { IsTrue (specs.reads_file command.now) }
    requires importable { CanImport command.now }
    requires sink { (writer_state sink.old).failures < 2 ^ 63 }
    ensures { AnswersTo T.may_lack R.remaining W.contents opened sink.old sink.new command.now
        result }
{
    if is_one_name(command) {
        return Answer::OneName(file_of(command));
    }
    match opened {
        Ok(reader) => answer_from::<A, T, R, W>(alloc, command, reader, sink),
        Err(error) => Answer::Ended(unopened(file_of(command), error.kind())),
    }
}

/// Answers a command that reads a file, as [`answer_to`] does, says all that there is to say of the
/// answer, and returns its exit status.
pub fn run_over<A: Allocator + Copy, T: Tracker<A>, R: Read + Ready + Drop, W: Write, V: Voice>(
    alloc: A,
    command: &Command<'_>,
    opened: io::Result<R>,
    sink: &mut FromWrite<W>,
    voice: &mut V,
) -> u8
    requires reads { IsTrue (specs.reads_file command.now) }
    requires importable { CanImport command.now }
    requires sink { (writer_state sink.old).failures < 2 ^ 63 }
    ensures { (answer : Given A) × (AnswersTo T.may_lack R.remaining W.contents opened sink.old
        sink.new command.now answer × V.says voice.old voice.new (sentences_of answer)
        × (result ≡ status_of answer)) }
{
    let answer = answer_to::<A, T, R, W>(alloc, command, opened, sink);
    answer.say(voice);
    answer.status()
}

/// Answers a command that reads a file, which could be opened.
fn answer_from<'a, A: Allocator + Copy, T: Tracker<A>, R: Read + Ready + Drop, W: Write>(
    alloc: A,
    command: &Command<'a>,
    reader: R,
    sink: &mut FromWrite<W>,
) -> Answer<'a, A>
    requires reads { IsTrue (specs.reads_file command.now) }
    requires importable { CanImport command.now }
    requires sink { (writer_state sink.old).failures < 2 ^ 63 }
    ensures { Answers T.may_lack R.remaining W.contents reader sink.old sink.new result
        command.now }
{
    match *command {
        Command::Decode {
            form,
            extended,
            file,
        } => Answer::Ended(decode(alloc, form, extended, file, reader, sink)),
        Command::Capture {
            form,
            session,
            recording,
            file,
        } => Answer::Read(decode_session(alloc, form, session, &recording, file, reader, sink)),
        Command::Judge {
            config,
            recording,
            reporting,
            file,
        } => Answer::Read(judge::<A, T, R, W>(
            alloc, &config, &recording, reporting, file, reader, sink,
        )),
        Command::Import {
            session,
            recording,
            file,
            out,
        } => import(alloc, &session, &recording, file, out, reader, sink),
        Command::List { port, json, file } => {
            list(alloc, port, list_form(json), file, reader, sink)
        }
        Command::Check { checking, file } => {
            let options = check_options(&checking);
            check_in::<A, T, R, W>(alloc, checking.form, &options, file, reader, sink)
        }
        Command::Speak { .. } | Command::Pair { .. } => unreachable!(),
    }
}

/// Decodes a stream, whose messages may be extended ones or not, in a form.
fn decode<'a, A: Allocator + Copy, R: Read + Drop, W: Write>(
    alloc: A,
    form: OutputForm,
    extended: bool,
    file: &'a str,
    reader: R,
    sink: &mut FromWrite<W>,
) -> Outcome<'a>
    requires { (writer_state sink.old).failures < 2 ^ 63 }
    ensures { DecodesReader (stream_options form extended) R.remaining W.contents file.entry reader
        (writer_state sink.old) (writer_state sink.new) result }
{
    let options = StreamOptions {
        limit: Limit::with_extended(extended),
        form,
    };
    decode_opened(options, alloc, file, Ok(reader), sink)
}

/// Decodes the records of one session, in a form.
fn decode_session<'a, A: Allocator + Copy, R: Read + Ready + Drop, W: Write>(
    alloc: A,
    form: OutputForm,
    session: Session,
    recording: &RecordingOptions,
    file: &'a str,
    reader: R,
    sink: &mut FromWrite<W>,
) -> FileOutcome<'a, A>
    requires { (writer_state sink.old).failures < 2 ^ 63 }
    ensures { DecodesFile R.remaining W.contents recording.now file.entry reader sink.old sink.new
        result (session_options form session) }
{
    let options = SessionOptions { session, form };
    decode_file(alloc, &options, recording, file, Ok(reader), sink)
}

/// Judges one session, with the reason or without, as text or in JSON.
fn judge<'a, A: Allocator + Copy, T: Tracker<A>, R: Read + Drop, W: Write>(
    alloc: A,
    config: &Config,
    recording: &RecordingOptions,
    reporting: Reporting,
    file: &'a str,
    reader: R,
    sink: &mut FromWrite<W>,
) -> FileOutcome<'a, A>
    requires { (writer_state sink.old).failures < 2 ^ 63 }
    ensures { JudgesFile R.remaining W.contents recording.now file.entry reader sink.old sink.new
        result config.now (report_with reporting.explain) (form_with reporting.json) T.may_lack }
{
    let report = report_with(reporting.explain);
    let form = form_with(reporting.json);
    judge_file::<A, T, R, W>(
        alloc,
        config,
        report,
        form,
        recording,
        file,
        Ok(reader),
        sink,
    )
}

/// Returns what is reported, with the reason or without.
fn report_with(explain: bool) -> Report
    ensures { result ≡ report_with explain }
{
    if explain {
        Report::WithReason
    } else {
        Report::VerdictAlone
    }
}

/// Returns the form in which verdicts are told.
fn form_with(json: bool) -> VerdictForm
    ensures { result ≡ form_with json }
{
    if json {
        VerdictForm::Json
    } else {
        VerdictForm::Text
    }
}
