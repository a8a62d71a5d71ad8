//! The words of the command line, as a command.

ghost use Rattle.std.specs.Prelude.{◌≡◌, ◌≢◌, ◌∷◌, ℕ, Bool, List, All, map, IfOk, IfErr, IsErr};
ghost use Rattle.std.specs.Prelude.{true, false};
ghost use Rattle.clap.specs.Words.{App, app_of, kind_of, subcommand_rows_of, with_subcommand};
ghost use Rattle.clap.specs.Words.{IsAmong};
ghost use Rattle.clap.specs.declared.builder.command.Command.TheViews.{out-Command as fields_of};
ghost use Rattle.clap.specs.Words.{FailsBy, HasMatchesOf, fault_of, is_simple_and_free};
ghost use Rattle.bgp_json.specs.declared.output_form.OutputForm.{OutputForm as Form};
ghost use Rattle.bgp_open.specs.declared.config.Config.{Config as Configured};
ghost use Rattle.bgp_words.specs.declared.judge.Reporting.{Reporting as Reported};
ghost use Rattle.bgp_words.specs.Words.{program_words, with_readers, with_speakers};
ghost use Rattle.bgp_words.specs.Decode.{IsDecode};
ghost use Rattle.bgp_words.specs.Judge.{IsJudgeLine};
ghost use Rattle.bgp_words.specs.Import.{CanImport};
ghost use Rattle.bgp_words.specs.Speak.{CanSpeak};
ghost use Rattle.bgp_words.specs.Spelled.{Names, NamesDecode, NamesJudge, Spells, word_faults};
ghost use Rattle.bgp_words.specs.Spelled.{IsDecodeOrMemory, IsJudgeOrMemory, IsFault};
ghost use Rattle.bgp_words.specs.Spelled.{fault_rows, value_rows};
ghost use Rattle.bgp_import.specs.declared.options.RecordingOptions.{RecordingOptions as Told};

use crate::check::{Checking, check_of, check_words};
use crate::decode::{decode_of, decode_words};
use crate::import::{import_of, import_words};
use crate::judge::{Reporting, judge_of, judge_words};
use crate::list::{list_of, list_words};
use crate::misfit::Misfit;
use crate::options::new_command;
use crate::pair::{pair_of, pair_words};
use crate::speak::{speak_of, speak_words};
use crate::usage::{error_of, plain};
use bgp_import::RecordingOptions;
use bgp_json::OutputForm;
use bgp_open::Config;
use bgp_prefix::Session;
use bgp_talk::Speaking;
use clap::error::ErrorKind;
use clap::{ArgMatches, Error};
use std::alloc::{AllocError, Global};
use std::convert::AsStr;

/// What the user wants done.
#[derive(Clone, Copy, Debug, PartialEq, Eq)]
pub enum Command<'a> {
    /// Print a raw stream, one line a message.
    Decode {
        /// How the messages are printed.
        form: OutputForm,
        /// Whether UPDATE and NOTIFICATION messages may be extended ones (RFC 8654).
        extended: bool,
        /// The file's path, or `-` for standard input.
        file: &'a str,
    },
    /// Print the records of one session, one a line: those in a capture, or those that are made of
    /// one connection in a recording.
    Capture {
        /// How the messages are printed.
        form: OutputForm,
        /// The session's ends, and whether the local system offers extended messages; it has no
        /// route refresh, or its messages are passed over.
        session: Session,
        /// What is told of the recording, if the file is one.
        recording: RecordingOptions,
        /// The file's path, or `-` for standard input.
        file: &'a str,
    },
    /// Judge one session in a capture, or its connections in a recording.
    Judge {
        /// What the local system is configured to do, and the session's ends.
        config: Config,
        /// What is told of the recording, if the file is one.
        recording: RecordingOptions,
        /// Whether the reason of the verdict is wanted too, and in which form.
        reporting: Reporting,
        /// The file's path, or `-` for standard input.
        file: &'a str,
    },
    /// Make a capture of one connection in a recording.
    Import {
        /// The session's ends, and whether the local system offers extended messages; it has no
        /// route refresh, or its messages are passed over. The addresses are of one family.
        session: Session,
        /// What is told of the recording. The local port is, where both addresses are one.
        recording: RecordingOptions,
        /// The recording's path, or `-` for standard input.
        file: &'a str,
        /// The path of the capture to write, or `-` for standard output.
        out: &'a str,
    },
    /// Print the connections in a recording, or the sessions in a capture, one a line.
    List {
        /// The port of the connections, which isn't 0.
        port: u16,
        /// Whether each line is a JSON object.
        json: bool,
        /// The file's path, or `-` for standard input.
        file: &'a str,
    },
    /// Check both ends of each connection in a recording, or of each session in a capture, whose
    /// settings aren't known.
    Check {
        /// How they are checked, and what is printed.
        checking: Checking,
        /// The file's path, or `-` for standard input.
        file: &'a str,
    },
    /// Speak with a peer over TCP, and write down the session as a capture.
    Speak {
        /// What the local system is configured to do, and the session's ends: their addresses are
        /// of one family, and the local system has no route refresh.
        config: Config,
        /// How the connection comes to be, what is announced, and how long it lasts.
        speaking: Speaking,
        /// The path of the capture to write; `-` is a file of that name.
        file: &'a str,
    },
    /// Let two ends speak with one another over loopback, and judge what each did.
    Pair {
        /// The path of the left end's capture to write; the right end's has `.right` after it. `-`
        /// is a file of that name.
        file: &'a str,
    },
}

/// What help says after the commands: the statuses.
const STATUSES: &str = "\
Exit status:
  0   all octets were whole messages, or the file was read to its end, or the verdict is yes, or
      speak went to its end; or help or the version was asked for
  1   the verdict is no, or the two of a pair don't come to a session
  2   the stream ends inside a message, or the verdict is unfinished
  3   the stream stops being BGP, or the file or a connection is refused
  4   memory was refused
  5   a file or a port can't be opened, a file can't be read, or output can't be written
  64  the command line is none that the program knows

bgp COMMAND --help says what a command prints, with examples.
The manual is docs/bgp.1.md, at the top of the repository.";

/// What the program's words may be.
pub(crate) fn program<'a>(alloc: Global) -> Result<clap::Command<'a>, AllocError>
    ensures { IfOk result (λ program. app_of program ≡ program_words) }
{
    let program = new_command(
        alloc,
        "bgp",
        "Reads BGP-4 messages, MRT files and pcap files, judges sessions, and speaks in one",
        STATUSES,
    )
    .version("0.4.0")
    .subcommand_required(true);
    // Whatever its file is named.
    let program = program.bin_name("bgp")?;
    let program = with_readers(alloc, program)?;
    with_speakers(alloc, program)
}

/// The program with the commands that read a file.
fn with_readers<'a>(
    alloc: Global,
    program: clap::Command<'a>,
) -> Result<clap::Command<'a>, AllocError>
    ensures { IfOk result (λ it. app_of it ≡ with_readers (app_of program.entry)) }
{
    let program = with_command(program, decode_words(alloc))?;
    let program = with_command(program, judge_words(alloc))?;
    let program = with_command(program, import_words(alloc))?;
    let program = with_command(program, list_words(alloc))?;
    with_command(program, check_words(alloc))
}

/// The program with the commands that speak.
fn with_speakers<'a>(
    alloc: Global,
    program: clap::Command<'a>,
) -> Result<clap::Command<'a>, AllocError>
    ensures { IfOk result (λ it. app_of it ≡ with_speakers (app_of program.entry)) }
{
    let program = with_command(program, speak_words(alloc))?;
    with_command(program, pair_words(alloc))
}

/// The program with a command, if there was memory for it.
fn with_command<'a>(
    program: clap::Command<'a>,
    command: Result<clap::Command<'a>, AllocError>,
) -> Result<clap::Command<'a>, AllocError>
    ensures { (words : App) → IfOk command.entry (λ it. app_of it ≡ words)
        → IfOk command.entry (λ it. (fields_of it).has_globals ≡ false)
        → IfOk result (λ it. app_of it ≡ with_subcommand (app_of program.entry) words.top) }
{
    match command {
        Ok(command) => program.subcommand(command),
        Err(error) => Err(error),
    }
}

/// The command that the words spell, the program's own name first.
///
/// An `Err` is a usage fault, or a request for help or the version, and its kind tells which; or
/// memory was refused.
pub fn command_line<'a, S: AsStr>(alloc: Global, words: &'a [S]) -> Result<Command<'a>, Error>
    ensures ok { IfOk result (Spells (map S.text words.entry.now)) }
    ensures err { IfErr result (λ error. kind_of error ≢ ErrorKind.OutOfMemory →
        IsAmong (kind_of error) (word_faults (map S.text words.entry.now))) }
    ensures none { IfErr result (λ error. kind_of error ≢ ErrorKind.OutOfMemory →
        (command : Command) → Spells (map S.text words.entry.now) command → ⊥) }
    ensures decode { (file : List ℕ) → IsDecode (map S.text words.entry.now) file →
        IsDecodeOrMemory file result }
    ensures judge { (config : Configured) (file : List ℕ) →
        IsJudgeLine (map S.text words.entry.now) config.parts file →
        IsJudgeOrMemory (map S.text words.entry.now) result }
    ensures speakable { IfOk result CanSpeak }
    ensures importable { IfOk result CanImport }
    ensures rows { (name : List ℕ) → All (λ row. map S.text words.entry.now ≡ name ∷ row.0 →
        IsFault row.1 result) fault_rows }
    ensures values { (name : List ℕ) → All (λ row. map S.text words.entry.now ≡ name ∷ row →
        IsFault ErrorKind.ValueValidation result) value_rows }
{
    let matches = matches_of(alloc, words)?;
    match named(&matches) {
        Ok(command) => Ok(command),
        Err(misfit) => Err(usage(alloc, &matches, misfit)?),
    }
}

/// What a parse of the words finds. An `Err` says in a sentence what is wrong with them.
fn matches_of<'a, S: AsStr>(alloc: Global, words: &'a [S]) -> Result<ArgMatches<'a>, Error>
    ensures matches { IfOk result (HasMatchesOf program_words (map S.text words.entry.now)) }
    ensures kinds { FailsBy (fault_of program_words (map S.text words.entry.now)) result }
{
    let program = program(alloc)?;
    matches_by(alloc, program, words)
}

/// The same by a program whose words they may be.
fn matches_by<'a, S: AsStr>(
    alloc: Global,
    program: clap::Command<'a>,
    words: &'a [S],
) -> Result<ArgMatches<'a>, Error>
    ensures matches { IfOk result (HasMatchesOf (app_of program.entry) (map S.text words.entry.now)) }
    ensures kinds { is_simple_and_free (app_of program.entry) ≡ true
        → FailsBy (fault_of (app_of program.entry) (map S.text words.entry.now)) result }
{
    match program.try_get_matches_from(words) {
        Ok(matches) => Ok(matches),
        Err(error) => Err(plain(alloc, words, error)?),
    }
}

/// The command that was named.
fn named<'a>(matches: &ArgMatches<'a>) -> Result<Command<'a>, Misfit<'a>>
    ensures ok { IfOk result (Names (subcommand_rows_of matches.now)) }
    ensures no_stream { IsErr result → (form : Form) (extended : Bool) (file : List ℕ) →
        NamesDecode form extended file (subcommand_rows_of matches.now) → ⊥ }
    ensures no_judge { IsErr result →
        (config : Configured) (recording : Told) (reporting : Reported) (file : List ℕ) →
        NamesJudge config recording reporting file (subcommand_rows_of matches.now) → ⊥ }
    ensures none { IsErr result → (command : Command) →
        Names (subcommand_rows_of matches.now) command → ⊥ }
{
    if let Some(decode) = matches.subcommand_matches("decode") {
        return decode_of(decode);
    }
    if let Some(judge) = matches.subcommand_matches("judge") {
        return judge_of(judge);
    }
    if let Some(import) = matches.subcommand_matches("import") {
        return import_of(import);
    }
    if let Some(list) = matches.subcommand_matches("list") {
        return list_of(list);
    }
    if let Some(check) = matches.subcommand_matches("check") {
        return check_of(check);
    }
    if let Some(speak) = matches.subcommand_matches("speak") {
        return speak_of(speak);
    }
    match matches.subcommand_matches("pair") {
        Some(pair) => pair_of(pair),
        None => Err(Misfit::NO_COMMAND),
    }
}

/// Says why the words of the command that was named are none.
fn usage(alloc: Global, matches: &ArgMatches<'_>, misfit: Misfit<'_>) -> Result<Error, AllocError>
    ensures { IfOk result (λ error. kind_of error ≡ ErrorKind.ValueValidation) }
{
    error_of(
        alloc,
        matches.subcommand_name(),
        misfit,
        ErrorKind::ValueValidation,
    )
}

/// What the words of the command of this name may be, or the program's if there is none.
pub(crate) fn words_named<'a>(
    alloc: Global,
    name: Option<&str>,
) -> Result<clap::Command<'a>, AllocError> {
    match name {
        Some(name) => reader_named(alloc, name),
        None => program(alloc),
    }
}

/// The same of a command that reads a file, or of another one.
fn reader_named<'a>(alloc: Global, name: &str) -> Result<clap::Command<'a>, AllocError> {
    match name {
        "decode" => with_bin_name(decode_words(alloc), "bgp decode"),
        "judge" => with_bin_name(judge_words(alloc), "bgp judge"),
        "import" => with_bin_name(import_words(alloc), "bgp import"),
        "list" => with_bin_name(list_words(alloc), "bgp list"),
        "check" => with_bin_name(check_words(alloc), "bgp check"),
        _ => speaker_named(alloc, name),
    }
}

/// The same of a command that speaks, or of no command.
fn speaker_named<'a>(alloc: Global, name: &str) -> Result<clap::Command<'a>, AllocError> {
    match name {
        "speak" => with_bin_name(speak_words(alloc), "bgp speak"),
        "pair" => with_bin_name(pair_words(alloc), "bgp pair"),
        _ => program(alloc),
    }
}

/// A command as its usage names it, if there was memory for it.
fn with_bin_name<'a>(
    command: Result<clap::Command<'a>, AllocError>,
    name: &str,
) -> Result<clap::Command<'a>, AllocError> {
    match command {
        Ok(command) => command.bin_name(name),
        Err(error) => Err(error),
    }
}
