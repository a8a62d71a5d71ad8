//! `bgp speak` and `bgp pair`: files and sockets as the wires and sinks of bgp_speak_tool's calls.

ghost use Rattle.std.specs.Prelude.{◌≡◌, ◌<◌, ◌^◌, IfOk};
ghost use Rattle.bgp_prefix.specs.Address.{family_of};
ghost use Rattle.bgp_talk.specs.declared.wire.Connection.TheVariants.{NotAsked};
ghost use Rattle.bgp_commands.specs.Speaking.{end_sentence, no_connection_sentence};
ghost use Rattle.bgp_commands.specs.Speaking.{waiting_sentence};

use crate::answer::Answer;
use crate::ends::{Output, output_of};
use crate::sentence::Sentence;
use crate::sentences::unwritten_sentence;
use crate::voice::{StandardError, Voice, say_each, say_some};
use bgp_compact::CompactTracker;
use bgp_open::Config;
use bgp_speak_tool::{Watched, announce_note, pair_session, speak_as};
use bgp_talk::{SocketWire, Speaking, Start};
use bgp_tool::{Note, Status};
use mrt::FromWrite;
use std::alloc::Global;
use std::io::{ErrorKind, Write};
use std::net::Net;
use std::rt::{Clock, Files};
use std::{fs, io};

/// Runs `speak`: speaks with a peer over TCP, and answers the exit status. The file of the capture
/// is made, or emptied, once there is a port. Each record is printed on standard error when it is
/// written, unless that is to be quiet.
pub fn speak<R: Files + Net + Clock + Print + Eprint + AllocGlobal, E: Print>(
    rt: &R,
    errors: &E,
    config: &Config,
    speaking: &Speaking,
    file: &str,
) -> u8
    requires families { family_of config.now.parts.session.peer
        ≡ family_of config.now.parts.session.local }
    requires turns { speaking.now.turns < 2 ^ 63 }
{
    let _held = (null_device(rt), null_device(rt), null_device(rt));
    // A note calls a file `-` standard input.
    let file = if file == "-" { "./-" } else { file };
    // A port that can't be had leaves the file as it is.
    let wire = match wire_for(rt, speaking.start) {
        Ok(wire) => wire,
        Err(error) => return unheard(rt, speaking.start, error.kind()),
    };
    match fs::create(rt, file) {
        Ok(opened) => {
            tell_prefix(rt, config, speaking);
            say_some(&mut StandardError(rt), waiting_sentence(speaking));
            speak_over(rt, errors, config, speaking, file, opened, wire)
        }
        Err(error) => unmade(rt, file, error.kind()),
    }
}

/// Speaks over a wire, writes the capture to its file, and says what went wrong, if anything did.
fn speak_over<R: Net + Clock + Print + Eprint + AllocGlobal, E: Print, F: Write + Drop>(
    rt: &R,
    errors: &E,
    config: &Config,
    speaking: &Speaking,
    file: &str,
    opened: F,
    mut wire: SocketWire<'_, R>,
) -> u8
    requires families { family_of config.now.parts.session.peer
        ≡ family_of config.now.parts.session.local }
    requires turns { speaking.now.turns < 2 ^ 63 }
    requires fresh { wire.connection ≡ NotAsked }
    requires failures { wire.failures ≡ 0 }
{
    let session = &config.parts.session;
    let written = FromWrite::new(opened);
    let mut capture = Watched::new(rt.alloc(), written, session, errors, speaking.quiet);
    let mut output = FromWrite::new(io::writer(rt));
    let status = speak_as(
        rt.alloc(),
        config,
        speaking,
        &mut wire,
        &mut capture,
        &mut output,
    );
    let no_connection = no_connection_sentence(wire.port(), wire.refusal());
    let capture = output_of(&capture.into_inner(), 0);
    let end = end_sentence(status, file, capture, output_of(&output, 0));
    say_each(&mut StandardError(rt), &[no_connection, end]);
    status
}

/// Runs `pair`: lets two ends speak with one another over TCP and judges what each did, and answers
/// the exit status.
pub fn pair<R: Files + Net + Print + Eprint + AllocGlobal>(rt: &R, file: &str) -> u8 {
    let _held = (null_device(rt), null_device(rt), null_device(rt));
    let mut sink = FromWrite::new(io::writer(rt));
    let outcome = pair_session::<Global, CompactTracker<Global>, _, _>(
        rt.alloc(),
        rt,
        file,
        &mut sink,
    );
    let answer: Answer = Answer::Ended(outcome);
    answer.say(&mut StandardError(rt));
    answer.status()
}

/// The null device, if it can be opened. Three of them take the numbers of all standard streams
/// that are closed: otherwise a capture or a socket could get one, and with it what is printed.
fn null_device<R: Files>(rt: &R) -> Option<R::File> {
    fs::open(rt, "/dev/null").ok()
}

/// The wire of a start. One that is to listen does so from now on.
fn wire_for<R: Net + Clock>(rt: &R, start: Start) -> io::Result<SocketWire<'_, R>>
    ensures fresh { IfOk result (λ wire. wire.connection ≡ NotAsked) }
    ensures failures { IfOk result (λ wire. wire.failures ≡ 0) }
{
    match start {
        Start::Connect(port) => Ok(SocketWire::connecting(rt, port)),
        Start::Listen(port) => SocketWire::listening(rt, port),
    }
}

/// The port of a start.
fn port_of(start: Start) -> u16 {
    match start {
        Start::Connect(port) | Start::Listen(port) => port,
    }
}

/// Tells that the prefix isn't announced, or not as it was given, if that is so.
fn tell_prefix<R: Eprint>(rt: &R, config: &Config, speaking: &Speaking) {
    if let Some(note) = announce_note(config.parts.families, speaking) {
        let _ = eprintln!(rt; "bgp: {note}");
    }
}

/// Returns where a peer is waited for, if one is and it isn't to be quiet.
fn waiting_sentence<'a>(speaking: &Speaking) -> Option<Sentence<'a>>
    ensures { result ≡ waiting_sentence speaking.now.start speaking.now.quiet }
{
    match (speaking.start, speaking.quiet) {
        (Start::Listen(port), false) => Some(Sentence::Waiting { port }),
        (Start::Listen(_), true) | (Start::Connect(_), _) => None,
    }
}

/// Returns why there was no connection, if there was none.
fn no_connection_sentence<'a>(port: u16, refusal: Option<ErrorKind>) -> Option<Sentence<'a>>
    ensures { result ≡ no_connection_sentence port refusal }
{
    let error = refusal?;
    Some(Sentence::NoConnection { port, error })
}

/// Returns that memory was refused, or which device failed, if so. A pipe that was closed isn't a
/// failure.
fn end_sentence<'a>(
    status: u8,
    file: &'a str,
    capture: Output,
    output: Output,
) -> Option<Sentence<'a>>
    ensures { result ≡ end_sentence status file.entry capture output }
{
    if status == Status::Memory.code() {
        return Some(Sentence::NoMemory);
    }
    match capture {
        Output::Whole => unwritten_sentence(output),
        Output::Closed { octet } => {
            let error = Some(ErrorKind::BrokenPipe);
            Some(Sentence::Unwritten { file, octet, error })
        }
        Output::Failed { octet, error } => Some(Sentence::Unwritten { file, octet, error }),
    }
}

/// Says that the capture's file can't be made, and answers the exit status.
fn unmade<R: Eprint>(rt: &R, file: &str, error: ErrorKind) -> u8
    ensures { result ≡ 5 }
{
    StandardError(rt).say(Sentence::Note(Note::Unopened { file, error }));
    Status::Device.code()
}

/// Says that a port can't be listened on, and answers the exit status.
fn unheard<R: Eprint>(rt: &R, start: Start, error: ErrorKind) -> u8
    ensures { result ≡ 5 }
{
    let port = port_of(start);
    StandardError(rt).say(Sentence::NotListening { port, error });
    Status::Device.code()
}
