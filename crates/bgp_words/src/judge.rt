//! The words of `judge`.

ghost use Rattle.std.specs.Prelude.{◌≡◌, ℕ, List, IfOk, IsErr, false, codes};
ghost use Rattle.clap.specs.Words.{app_of, found_of, rows_of};
ghost use Rattle.clap.specs.declared.builder.command.Command.TheViews.{out-Command as fields_of};
ghost use Rattle.bgp_open.specs.declared.config.Config.{Config as Configured};
ghost use Rattle.bgp_words.specs.Words.{judge_words};
ghost use Rattle.bgp_words.specs.Judge.{IsJudge};
ghost use Rattle.bgp_words.specs.Spelled.{NamesBy};
ghost use Rattle.bgp_words.specs.declared.judge.Reporting.{Reporting as Reported};
ghost use Rattle.bgp_import.specs.declared.options.RecordingOptions.{RecordingOptions as Told};

use crate::misfit::Misfit;
use crate::options::{READ, Word, new_command, with_word};
use crate::recording::{recording_of, refresh_of, with_recording};
use crate::settings::{config_of, with_settings};
use crate::values::{has_flag, value_of};
use crate::words::Command;
use clap::ArgMatches;
use std::alloc::{AllocError, Global};

/// The usage line of `judge`, which would be wider than a terminal with each word in full.
const USAGE: &str = "bgp judge [OPTIONS] --local-as <N> --peer-as <N> --local-id <A> --local <A> \
                     --peer <A> <FILE>";

/// What help says after the words of `judge`: the verdicts with an example each, why a capture is
/// refused, when to believe an answer, and the statuses.
const VERDICTS: &str = "\
judge says whether a router that keeps to the standard (RFC 4271 with RFC 7606, and the choices that
docs/SESSION-MACHINE.md names) can have done what FILE shows. FILE is an MRT file that the router at
--local wrote, or a pcap file, as tcpdump -w writes it (pcap or pcapng), recorded at either end or
between. Its first octets say which. The answer is one of:
  yes                   a router that keeps to the standard can have done this; each end is a state
                        in which it may now be, with the families that it ignores:
  end Established disabled -
                        the families are -, v4, v6 or v4,v6
  route 10.2.0.0/16 via 192.0.2.2 path 65002 origin 0
                        each route that it has from the peer in that state
  no at record 6        it can have done what the first 5 records show, and not the 6th
  unfinished            it can so far, but still owes something
  capture refused: 1 Truncated at 36
                        the MRT file can't be judged: the reason's number and name, and the
                        offset of the record; standard error says what helps

--offers names what the OPEN of the router at --local offers about routes, each word once, with
commas between them:
  send-v4, send-v6, receive-v4, receive-v6
                        several paths to a prefix (ADD-PATH, RFC 7911), of a family and direction;
                        if one OPEN offers to send them and the other to receive them, # and the
                        path identifier follow each prefix
  next-hops             IPv6 next hops of IPv4 routes (RFC 8950), as in unnumbered sessions
Without --offers the OPEN may offer any of these, and none takes effect; standard error says if both
OPENs agree on one.

With --explain the reason follows a no and an unfinished, in lines of its own: the record, the state
before it, the message received last, and exactly the records that could have stood there.

judge --json prints the same as JSON objects, one a line: for a verdict, an end, a route, a line of
the reason, or a refusal.

With --skip-refresh whole ROUTE-REFRESH messages are left out; standard error says how many.

An MRT file is refused for one of these reasons:
  1 Truncated           it ends inside a record, or is compressed: zcat FILE.gz | bgp judge .. -
  2 TooLong             a record's body has more than 8192 octets, or than 65583 with --extended
  3 Body                a record lacks fields, or its addresses are of no known family
  4 BadState            a change of state names one that RFC 6396 doesn't have; FRR writes 7 and 8
  5 NotAMessage         a record doesn't hold one whole message
  6 TimeBack            a record's second is below that of the session's record before it
  7 RouteRefresh        a ROUTE-REFRESH isn't judged; --skip-refresh passes over a whole one;
                        --no-refresh if the router didn't offer it
  8 AddPath             a record has additional paths (RFC 8050), which aren't read
  9 Device              a read failed; standard error says why
  10 Memory             memory was refused

In a pcap file, each connection between --local and --peer at --port is judged. Packets don't show
when the router read a message, so its messages are put into one order in which it may have handled
them, as bgp import does. If that order isn't a yes, all orders that the packets allow are tried:
  no at packet 8        in none of them can the router have sent a message that this packet shows,
                        if it handles each message within --within seconds
  yes                   another order is a yes, as standard error says then
  unfinished            some order explains all that it sent, and in none has it done all that it
                        had to, as standard error says then
If there are too many orders to try them all, the answer is about the first one, as standard error
says then. If there are several connections, and --connection names none, a line before each answer
names its connection, and the status is the first of 5, 4, 1, 3, 2, 0 that one of them has:
  connection 2 from 192.0.2.2 40001 to 192.0.2.1 179 at 1500000060
                        who opened it, to whom, and the second of its first packet
  recording refused: 14 Missing at packet 7 received octet 49
                        it can't be judged: the reason's number and name, the packet's number from
                        1, and the octet's place in the stream from 0
--port, --local-port, --connection and --within are for pcap files alone.

Exit status:
  0   yes; or help was asked for
  1   no
  2   unfinished
  3   the file or a connection is refused
  4   memory was refused
  5   a file can't be opened or read, or output can't be written
  64  the command line is none that the program knows

Check FILE and the options before you believe an answer. FILE must hold the messages of both
directions from the start of the session, and an MRT file in the order in which the router handled
them. The options must be the router's settings. With received messages alone, neither yes nor no
says anything about the router.

The manual is docs/bgp.1.md, at the top of the repository.";

/// What its OPEN offers about routes, which `speak` doesn't know.
const OFFERS: Word<'static> = Word::Option(
    "offers",
    "What it offers about routes: words of the list below, with commas",
);

/// The flag that asks for the reason.
const EXPLAIN: Word<'static> = Word::Flag(
    "explain",
    "Says why it is a no or unfinished, in lines of their own",
);

/// The flag that asks for JSON.
const JSON: Word<'static> = Word::Flag("json", "Prints each line as a JSON object");

/// What is reported on a session that is judged.
#[derive(Clone, Copy, Debug, PartialEq, Eq)]
pub struct Reporting {
    /// Whether the reason of the verdict is wanted too.
    pub explain: bool,
    /// Whether each line is a JSON object.
    pub json: bool,
}

/// What the words of `judge` may be.
pub(crate) fn judge_words<'a>(alloc: Global) -> Result<clap::Command<'a>, AllocError>
    ensures words { IfOk result (λ judge. app_of judge ≡ judge_words) }
    ensures local { IfOk result (λ judge. (fields_of judge).has_globals ≡ false) }
{
    let judge = new_command(
        alloc,
        "judge",
        "Says whether a router that keeps to the standard can have done what FILE shows",
        VERDICTS,
    )
    .override_usage(USAGE);
    let judge = with_word(alloc, judge, READ)?;
    let judge = with_settings(alloc, judge)?;
    let judge = with_word(alloc, judge, OFFERS)?;
    let judge = with_recording(alloc, judge)?;
    let judge = with_word(alloc, judge, EXPLAIN)?;
    with_word(alloc, judge, JSON)
}

/// The command that the values of `judge` are.
pub(crate) fn judge_of<'a>(judge: &ArgMatches<'a>) -> Result<Command<'a>, Misfit<'a>>
    ensures ok { IfOk result (NamesBy (codes "judge") (rows_of (found_of judge.now))) }
    ensures err { IsErr result →
        (config : Configured) (recording : Told) (reporting : Reported) (file : List ℕ) →
        IsJudge config recording reporting file (rows_of (found_of judge.now)) → ⊥ }
{
    let refresh = refresh_of(judge, !has_flag(judge, "no-refresh"));
    let config = config_of(judge, refresh)?;
    let recording = recording_of(judge)?;
    let explain = has_flag(judge, "explain");
    let json = has_flag(judge, "json");
    let file = value_of(judge, "FILE")?;
    Ok(Command::Judge {
        config,
        recording,
        reporting: Reporting { explain, json },
        file,
    })
}
