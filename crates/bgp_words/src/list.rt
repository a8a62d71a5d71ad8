//! The words of `list`.

ghost use Rattle.std.specs.Prelude.{◌≡◌, ℕ, Bool, List, IfOk, IsErr, false, codes};
ghost use Rattle.clap.specs.Words.{app_of, found_of, rows_of};
ghost use Rattle.clap.specs.declared.builder.command.Command.TheViews.{out-Command as fields_of};
ghost use Rattle.bgp_words.specs.Words.{list_words};
ghost use Rattle.bgp_words.specs.Import.{IsListing};
ghost use Rattle.bgp_words.specs.Spelled.{NamesBy};

use crate::misfit::Misfit;
use crate::options::{READ, Word, new_command, with_words};
use crate::recording::PORT;
use crate::values::{has_flag, port_of, value_of};
use crate::words::Command;
use clap::ArgMatches;
use std::alloc::{AllocError, Global};

/// What help says after the words of `list`: what it prints, and the statuses.
const LISTED: &str = "\
list prints the connections at --port in a pcap file, or the sessions in an MRT file, for whoever
doesn't know the addresses. A pcap file is one that tcpdump -w writes (pcap or pcapng). For a pcap
file each line is one of these, in the order of first packets:
  connection 1: 192.0.2.2:40000 (AS 65002) to 192.0.2.1:179 (AS 65001) at 2017-07-14 02:40:00 ..
                        its number between its two addresses, which --connection of judge, decode
                        and import takes; who opened it, from which port; to whom, at which port;
                        the AS numbers of their OPENs; time and number of its first packet; how many
                        octets each of both sent
    ended at packet 17, 02:41:02.133606, by 192.0.2.1:179: NOTIFICATION 6/2 (Cease, ..
                        how it ended: by which NOTIFICATION, or by a FIN or RST, or not at all
  connection 2: 192.0.2.2:40001 to 192.0.2.1:179 at 2017-07-14 02:41:00.133606 UTC, packet 10
  refused at packet 17: 14 Missing, octets are missing before it
                        its octets aren't whole: the packet's number from 1, the reason's number and
                        name, and the cause
  refused at packet 4, between 192.0.2.1 and 192.0.2.2: 7 Fragment, a fragment of an IP packet
                        a packet between two addresses can't be read: a fragment, or 8 Cut if not
                        all of its headers were kept. It may be of any of their connections, so none
                        of these is listed
and last, if the file can't be read on:
  refused at packet 9: 4 Block, a block's lengths do not agree, or a packet has no time
For an MRT file, in the order of first records:
  session: 192.0.2.1 with peer 192.0.2.2, 2017-07-14 02:40:00 to 02:41:00 UTC, records 9: ..
                        the addresses, which --local and --peer of judge and decode take; the times
                        of its first and last record; how many messages and changes of state
and last, if the file can't be read on:
  refused at octet 36: 1 Truncated, the file ends inside a record
                        the offset of the record, the reason's number and name, and the cause
list --json prints the same as JSON objects, one a line: for a connection with its end, a session,
or a refusal.

Exit status:
  0   the file was read to its end; or help was asked for
  3   the file is refused
  4   memory was refused
  5   a file can't be opened or read, or output can't be written
  64  the command line is none that the program knows

The manual is docs/bgp.1.md, at the top of the repository.";

/// The words after `list`.
static WORDS: [Word<'static>; 3] = [
    READ,
    PORT,
    Word::Flag("json", "Prints each line as a JSON object"),
];

/// What the words of `list` may be.
pub(crate) fn list_words<'a>(alloc: Global) -> Result<clap::Command<'a>, AllocError>
    ensures words { IfOk result (λ list. app_of list ≡ list_words) }
    ensures local { IfOk result (λ list. (fields_of list).has_globals ≡ false) }
{
    let list = new_command(
        alloc,
        "list",
        "Lists the connections in a pcap file, or the sessions in an MRT file",
        LISTED,
    );
    with_words(alloc, list, &WORDS)
}

/// The command that the values of `list` are.
pub(crate) fn list_of<'a>(list: &ArgMatches<'a>) -> Result<Command<'a>, Misfit<'a>>
    ensures ok { IfOk result (NamesBy (codes "list") (rows_of (found_of list.now))) }
    ensures err { IsErr result → (port : ℕ) (json : Bool) (file : List ℕ) →
        IsListing port json file (rows_of (found_of list.now)) → ⊥ }
{
    let port = port_of(list, "port")?;
    let file = value_of(list, "FILE")?;
    Ok(Command::List {
        port,
        json: has_flag(list, "json"),
        file,
    })
}
