//! The words of `decode`.

ghost use Rattle.std.specs.Prelude.{◌≡◌, ◌↔◌, ℕ, Bool, List, IfOk, IsErr, IsOkAnd, codes};
ghost use Rattle.std.specs.Prelude.{true, false};
ghost use Rattle.clap.specs.Words.{app_of, found_of, rows_of};
ghost use Rattle.clap.specs.declared.builder.command.Command.TheViews.{out-Command as fields_of};
ghost use Rattle.bgp_words.specs.Words.{decode_words};
ghost use Rattle.bgp_json.specs.declared.output_form.OutputForm.{OutputForm as Form};
ghost use Rattle.bgp_words.specs.Decode.{IsForm, IsStream, IsCapture};
ghost use Rattle.bgp_words.specs.Spelled.{NamesBy};
ghost use Rattle.bgp_words.specs.Values.{is_given};
ghost use Rattle.bgp_import.specs.declared.options.RecordingOptions.{RecordingOptions as Told};

use crate::misfit::Misfit;
use crate::options::{READ, Word, new_command, with_words};
use crate::recording::{recording_of, refresh_of, with_recording};
use crate::values::{address_of, has_flag, has_value, value_of};
use crate::words::Command;
use bgp_json::OutputForm;
use bgp_lines::LineForm;
use bgp_prefix::Session;
use clap::ArgMatches;
use std::alloc::{AllocError, Global};

/// What help says after the words of `decode`: the statuses, and the lines with an example each.
const LINES: &str = "\
Exit status:
  0   all octets were whole messages, or the file was read to its end; or help was asked for
  2   the stream ends inside a message
  3   the stream stops being BGP, or the MRT or pcap file is refused
  4   memory was refused
  5   a file can't be opened or read, or output can't be written
  64  the command line is none that the program knows

decode prints one line a message:
  open as 65002 hold 90 id 192.0.2.2 caps 1:00010001 65:0000fdea
                        AS number, hold time, BGP identifier, capabilities CODE:HEX
  open malformed 1      an OPEN whose form is wrong: 1 its version, 4 a parameter that is no
                        capability, 0 a length or a parameter that doesn't fit
  update 10.2.0.0/16 | 64.1:00 | -
                        withdrawn prefixes, attributes FLAGS.TYPE:HEX, announced prefixes
  update malformed      an UPDATE in which a length, a prefix or the last attribute doesn't fit
  notification 6/2 -    error code, subcode, data in hexadecimal
  keepalive
and last, if the stream doesn't end with a message:
  rest 10               the stream ends 10 octets into a message
  fault at 19 1/2       the header at octet 19 is wrong: 1/1 its marker, 1/2 its length,
                        1/3 its type
decode --names prints the same in words, with bars between the parts of a line:
  open as 65002 hold 90 id 192.0.2.2 | Multiprotocol IPv4 unicast | Four-octet AS 65002
                        the capabilities by their names, with what each says
  update withdrawn 10.2.0.0/16 | announced 10.3.0.0/16 | origin IGP | path 65002 | via 192.0.2.2
                        prefixes, and the attributes by the words of a route's line, in their order;
                        flags N follows one whose flags aren't those of its type
  update End-of-RIB IPv4 unicast
                        all routes of this family have been sent
  notification 6/2 Cease, Administrative Shutdown: \"bye\"
                        error code, subcode, their names, and what the data says
  rest 3: ffffff        the octets of the unfinished message
What doesn't have its form is in hexadecimal after the word octets, what has no name after its
number. With --names and with --json, AS numbers have four octets unless an OPEN before them lacks
capability 65. A stream has one direction, so it shows only one side's OPEN: give --as2 if that of
the other side lacks the capability. Do the same if an MRT file lacks that OPEN.
decode --json prints each line as a JSON object, whose type says which line it is:
  {\"type\":\"keepalive\",\"at\":89}
                        at: the octet of the stream where the message begins
  {\"type\":\"keepalive\",\"record\":4,\"second\":1500000000,\"direction\":\"received\"}
                        with --mrt: the number of the record in the session, from 1
The object of a message has octets, in hexadecimal, if its other members leave some open.
decode --mrt prints one line a record of the session:
  @1500000000 received keepalive
  @1500000000 sent notification 6/2 -
  @1500000000 received fault 1/2
                        the second, and a message as above or the fault of its header
  @1500000000 change 5 6
                        the states before and after: 1 Idle, 2 Connect, 3 Active, 4 OpenSent,
                        5 OpenConfirm, 6 Established
and last, where it stops:
  capture refused: 1 Truncated at 36
                        the reason's number and name, and the offset of the record
FILE of decode --mrt may also be a pcap file, as tcpdump -w writes it (pcap or pcapng): then the
lines are those of the MRT file that bgp import makes of it, or
  recording refused: 14 Missing at packet 7 received octet 49
                        the reason's number and name, the packet's number from 1, and the octet's
                        place in the stream from 0
decode --mrt --names prints the records in words, and for a pcap file the packets that show them:
  @1500000000 sent notification 6/2 Cease, Administrative Shutdown: \"bye\"
  @1500000000 packet 16 change Established to Idle
  @1500000000 received update announced 10.3.0.0/16#1 | origin IGP | path 65002 | via 192.0.2.2
                        after # the path identifier of a prefix, if both OPENs offer them
With --skip-refresh whole ROUTE-REFRESH messages have no line; standard error says how many there
are. A dash stands for nothing.

The manual is docs/bgp.1.md, at the top of the repository.";

/// The words after `decode`.
static WORDS: [Word<'static>; 8] = [
    READ,
    Word::Flag("names", "Prints the messages in words"),
    Word::Flag("json", "Prints each line as a JSON object"),
    Word::Flag(
        "as2",
        "AS numbers in AS_PATH and AGGREGATOR have two octets, with --names or --json",
    ),
    Word::Flag(
        "mrt",
        "Prints the records of one session: FILE is an MRT or pcap file",
    ),
    Word::Option("peer", "The address of the session's peer, with --mrt"),
    Word::Option(
        "local",
        "The address of the system that recorded the session, with --mrt",
    ),
    Word::Flag(
        "extended",
        "UPDATE and NOTIFICATION may have 65535 octets, not only 4096",
    ),
];

/// What the words of `decode` may be.
pub(crate) fn decode_words<'a>(alloc: Global) -> Result<clap::Command<'a>, AllocError>
    ensures words { IfOk result (λ decode. app_of decode ≡ decode_words) }
    ensures local { IfOk result (λ decode. (fields_of decode).has_globals ≡ false) }
{
    let decode = new_command(
        alloc,
        "decode",
        "Prints the BGP messages of a raw stream, an MRT file or a pcap file, one a line",
        LINES,
    );
    let decode = with_words(alloc, decode, &WORDS)?;
    with_recording(alloc, decode)
}

/// The command that the values of `decode` are. The flag and both addresses are given, or none.
pub(crate) fn decode_of<'a>(decode: &ArgMatches<'a>) -> Result<Command<'a>, Misfit<'a>>
    ensures ok { IfOk result (NamesBy (codes "decode") (rows_of (found_of decode.now))) }
    ensures no_stream { IsErr result → (form : Form) (extended : Bool) (file : List ℕ) →
        IsStream form extended file (rows_of (found_of decode.now)) → ⊥ }
    ensures no_capture { IsErr result →
        (form : Form) (session : Session) (recording : Told) (file : List ℕ) →
        IsCapture form session recording file (rows_of (found_of decode.now)) → ⊥ }
{
    if has_flag(decode, "mrt") {
        capture_of(decode)
    } else {
        stream_of(decode)
    }
}

/// The command that the values of `decode --mrt` are.
fn capture_of<'a>(decode: &ArgMatches<'a>) -> Result<Command<'a>, Misfit<'a>>
    requires { is_given (codes "mrt") (rows_of (found_of decode.now)) ≡ true }
    ensures ok { IfOk result (NamesBy (codes "decode") (rows_of (found_of decode.now))) }
    ensures err { IsErr result →
        (form : Form) (session : Session) (recording : Told) (file : List ℕ) →
        IsCapture form session recording file (rows_of (found_of decode.now)) → ⊥ }
{
    let form = form_of(decode)?;
    let file = value_of(decode, "FILE")?;
    let peer = address_of(decode, "peer")?;
    let local = address_of(decode, "local")?;
    let session = Session {
        peer,
        local,
        refresh: refresh_of(decode, false),
        extended: has_flag(decode, "extended"),
    };
    let recording = recording_of(decode)?;
    Ok(Command::Capture {
        form,
        session,
        recording,
        file,
    })
}

/// The command that the values of `decode` are without `--mrt`.
fn stream_of<'a>(decode: &ArgMatches<'a>) -> Result<Command<'a>, Misfit<'a>>
    requires { is_given (codes "mrt") (rows_of (found_of decode.now)) ≡ false }
    ensures ok { IfOk result (NamesBy (codes "decode") (rows_of (found_of decode.now))) }
    ensures err { IsErr result → (form : Form) (extended : Bool) (file : List ℕ) →
        IsStream form extended file (rows_of (found_of decode.now)) → ⊥ }
{
    let form = form_of(decode)?;
    let file = value_of(decode, "FILE")?;
    let extended = has_flag(decode, "extended");
    if has_value(decode, "peer") || has_value(decode, "local") {
        return Err(Misfit::Missing { name: "mrt" });
    }
    if has_flag(decode, "skip-refresh") {
        return Err(Misfit::SKIPS_IN_STREAM);
    }
    Ok(Command::Decode {
        form,
        extended,
        file,
    })
}

/// The form of what is printed. Only words and JSON depend on how many octets an AS number has.
fn form_of<'a>(decode: &ArgMatches<'a>) -> Result<OutputForm, Misfit<'a>>
    ensures { (form : Form) → IsOkAnd result (λ it. it ≡ form)
        ↔ IsForm form (rows_of (found_of decode.now)) }
{
    let as2 = has_flag(decode, "as2");
    let names = has_flag(decode, "names");
    if has_flag(decode, "json") {
        if names {
            return Err(Misfit::TWO_FORMS);
        }
        return Ok(OutputForm::Json { as2 });
    }
    if names {
        return Ok(OutputForm::Text(LineForm::Names { as2 }));
    }
    if as2 {
        return Err(Misfit::AS2_ALONE);
    }
    Ok(OutputForm::Text(LineForm::Plain))
}
