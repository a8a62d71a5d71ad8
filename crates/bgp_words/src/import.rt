//! The words of `import`.

ghost use Rattle.std.specs.Prelude.{◌≡◌, ◌↔◌, ℕ, List, IfOk, IsErr, IsTrue, false, codes};
ghost use Rattle.clap.specs.Words.{app_of, found_of, rows_of};
ghost use Rattle.clap.specs.declared.builder.command.Command.TheViews.{out-Command as fields_of};
ghost use Rattle.bgp_words.specs.Words.{import_words};
ghost use Rattle.bgp_words.specs.Import.{AreApart, IsImport};
ghost use Rattle.bgp_words.specs.Spelled.{NamesBy};
ghost use Rattle.bgp_import.specs.declared.options.RecordingOptions.{RecordingOptions as Told};

use crate::misfit::Misfit;
use crate::options::{READ, Word, new_command, with_words};
use crate::recording::{recording_of, refresh_of, with_recording};
use crate::settings::{is_of_one_family, session_of};
use crate::values::value_of;
use crate::words::Command;
use bgp_prefix::Session;
use clap::ArgMatches;
use std::alloc::{AllocError, Global};

/// What help says after the words of `import`: what it does, what it says, an example and the
/// statuses.
const IMPORTED: &str = "\
import makes an MRT file of one connection in a pcap file. FILE is a pcap file, as tcpdump -w writes
it (pcap or pcapng); the connection is one between --local and --peer at --port. OUT becomes the MRT
file, with the messages in one order in which the local system may have handled them. No message
stands before its packet came, and none waits longer than --within seconds. If the connection is
refused, nothing is written.

On standard error it says what isn't in the MRT file:
  bgp: recording refused: 14 Missing at packet 7 received octet 49
                        no MRT file can be made: the reason's number and name, the packet's number
                        from 1, and the octet's place in the stream from 0
  bgp: received ROUTE-REFRESH messages passed over: 3
                        with --skip-refresh: so many are in no record
  bgp: received: the last 10 octets are no whole message
  bgp: sent: 30 octets behind the faulty header at octet 112 are not read
  bgp: sent: 30 octets behind the ROUTE-REFRESH at octet 112 are not read: --skip-refresh ..
                        octets that are in no record
  bgp: received messages put off: 3
                        how many stand after a message that was sent when they had come

Example: make an MRT file of the second connection between two addresses.
  bgp import --local 192.0.2.1 --peer 192.0.2.2 --connection 2 session.pcap session.mrt

Exit status:
  0   the MRT file is written; or help was asked for
  3   the pcap file or the connection is refused
  4   memory was refused
  5   a file can't be opened or read, or the MRT file can't be written
  64  the command line is none that the program knows

The manual is docs/bgp.1.md, at the top of the repository.";

/// The words after `import`, but those that are for recordings alone.
static WORDS: [Word<'static>; 5] = [
    READ,
    Word::File("OUT", "The MRT file to write; - is standard output"),
    Word::Required("local", "The local system's address"),
    Word::Required("peer", "The peer's address"),
    Word::Flag(
        "extended",
        "UPDATE and NOTIFICATION may have 65535 octets, not only 4096",
    ),
];

/// What the words of `import` may be.
pub(crate) fn import_words<'a>(alloc: Global) -> Result<clap::Command<'a>, AllocError>
    ensures words { IfOk result (λ import. app_of import ≡ import_words) }
    ensures local { IfOk result (λ import. (fields_of import).has_globals ≡ false) }
{
    let import = new_command(
        alloc,
        "import",
        "Makes an MRT file of a connection in a pcap file",
        IMPORTED,
    );
    let import = with_words(alloc, import, &WORDS)?;
    with_recording(alloc, import)
}

/// The command that the values of `import` are.
pub(crate) fn import_of<'a>(import: &ArgMatches<'a>) -> Result<Command<'a>, Misfit<'a>>
    ensures ok { IfOk result (NamesBy (codes "import") (rows_of (found_of import.now))) }
    ensures err { IsErr result → (session : Session) (recording : Told) (file out : List ℕ) →
        IsImport session recording file out (rows_of (found_of import.now)) → ⊥ }
{
    let refresh = refresh_of(import, false);
    let session = session_of(import, refresh)?;
    if !is_of_one_family(&session) {
        return Err(Misfit::TWO_FAMILIES);
    }
    let recording = recording_of(import)?;
    if !are_apart(&session, recording.local_port) {
        return Err(Misfit::ONE_ADDRESS);
    }
    let file = value_of(import, "FILE")?;
    let out = value_of(import, "OUT")?;
    Ok(Command::Import {
        session,
        recording,
        file,
        out,
    })
}

/// Whether the two ends of a session can be told apart in a recording.
fn are_apart(session: &Session, local_port: Option<u16>) -> bool
    ensures { IsTrue result ↔ AreApart session.now local_port }
{
    session.peer != session.local || local_port.is_some()
}
