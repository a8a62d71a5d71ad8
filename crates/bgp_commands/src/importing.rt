//! `bgp import` over any reader and any writer.

ghost use Rattle.std.specs.Prelude.{◌≡◌, ◌<◌, ◌^◌};
ghost use Rattle.mrt.specs.FromWrite.{writer_state};
ghost use Rattle.bgp_prefix.specs.Address.{family_of};
ghost use Rattle.bgp_import.specs.declared.importing.Imported.{Imported as Ended};
ghost use Rattle.bgp_commands.specs.Answers.{ImportsFile, IsDestination, IsImportNote};
ghost use Rattle.bgp_commands.specs.declared.answer.Answer.TheVariants as answers;
ghost use Rattle.bgp_commands.specs.declared.answer.Destination.{Destination as Place};
ghost use Rattle.bgp_commands.specs.declared.ends.Ends.{Ends as Reached};

use crate::answer::{Answer, Destination};
use crate::ends::Ends;
use bgp_import::{Cause, Imported, Notes, RecordingOptions, Stopped, import_recording};
use bgp_prefix::Session;
use bgp_recording_tool::import_of;
use bgp_tool::{CaptureCommand, Note, WithFront, without_packets};
use mrt::{FromRead, FromWrite, Sink, Source};
use std::alloc::Allocator;
use std::io::{Read, Write};

/// Returns where the MRT file of this name is written: `-` is standard output.
fn destination_of(out: &str) -> Destination<'_>
    ensures { IsDestination out.entry result }
{
    if out == "-" {
        Destination::StandardOutput
    } else {
        Destination::File(out)
    }
}

/// The most octets by which it is known what a file is.
const FRONT: usize = 262;

/// Returns what a file is that isn't imported, if it is no pcap file. A file is refused by its first
/// four octets, so more of it is asked for once.
fn no_recording<'a, R: Read>(
    file: &'a str,
    source: &mut WithFront<FromRead<R>>,
    ended: Result<Notes, Stopped>,
) -> Option<Note<'a>>
    ensures { IsImportNote R.remaining file.entry source.old source.new ended result }
{
    let Err(Stopped::Refused(refusal)) = ended else {
        return None;
    };
    match refusal.cause() {
        Cause::Memory | Cause::Device => None,
        Cause::Recording => {
            if source.failures() == 0 {
                let mut octets = [0; FRONT];
                let _ = source.read(&mut octets);
            }
            without_packets(CaptureCommand::Import, file, source.front())
        }
    }
}

/// Makes an MRT file of one connection in a pcap file.
pub(crate) fn import<'a, A: Allocator + Copy, R: Read + Drop, W: Write>(
    alloc: A,
    session: &Session,
    recording: &RecordingOptions,
    file: &'a str,
    out: &'a str,
    reader: R,
    sink: &mut FromWrite<W>,
) -> Answer<'a, A>
    requires families { family_of session.now.peer ≡ family_of session.now.local }
    requires sink { (writer_state sink.old).failures < 2 ^ 63 }
    ensures { (imported : Ended) × ((to : Place) × ((ends : Reached)
        × ((result ≡ answers.Imported imported to ends) × IsDestination out.entry to
        × ImportsFile R.remaining W.contents file.entry reader sink.old sink.new session.now
        recording.now imported ends))) }
{
    let to = destination_of(out);
    let (imported, ends) = import_packets(alloc, session, recording, file, reader, sink);
    Answer::Imported(imported, to, ends)
}

/// Makes an MRT file of one connection in a pcap file, and returns how that ended.
fn import_packets<'a, A: Allocator + Copy, R: Read + Drop, W: Write>(
    alloc: A,
    session: &Session,
    recording: &RecordingOptions,
    file: &'a str,
    reader: R,
    sink: &mut FromWrite<W>,
) -> (Imported, Ends<'a>)
    requires families { family_of session.now.peer ≡ family_of session.now.local }
    requires sink { (writer_state sink.old).failures < 2 ^ 63 }
    ensures { ImportsFile R.remaining W.contents file.entry reader sink.old sink.new session.now
        recording.now result.0 result.1 }
{
    let import = import_of(session, recording);
    let mut source = WithFront::new(FromRead::new(reader));
    let failures = sink.failures();
    let imported = import_recording(alloc, &import, &mut source, sink);
    let ends = Ends::of(file, source.source(), sink, failures, None);
    let note = no_recording(file, &mut source, imported.ended);
    let ends = Ends { note, ..ends };
    (imported, ends)
}
