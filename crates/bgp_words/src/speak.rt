//! The words of `speak`.

ghost use Rattle.std.specs.Prelude.{◌≡◌, ◌↔◌, ℕ, List, IfOk, IsErr, IsOkAnd, false, codes};
ghost use Rattle.clap.specs.Words.{app_of, found_of, rows_of};
ghost use Rattle.clap.specs.declared.builder.command.Command.TheViews.{out-Command as fields_of};
ghost use Rattle.bgp_open.specs.declared.config.Config.{Config as Configured};
ghost use Rattle.bgp_words.specs.Words.{speak_words, with_speaking};
ghost use Rattle.bgp_words.specs.Speak.{AreOptions, IsSpeak, IsStart};
ghost use Rattle.bgp_words.specs.Spelled.{NamesBy};
ghost use Rattle.bgp_talk.specs.declared.options.Speaking.{Speaking as Spoken};
ghost use Rattle.bgp_talk.specs.declared.options.Start.{Start as Started};

use crate::misfit::Misfit;
use crate::options::{Word, new_command, with_word, with_words};
use crate::settings::{config_of, is_of_one_family, with_settings};
use crate::values::{
    has_flag, has_value, is_cleared, next_hop4_of, next_hop6_of, port_of, prefix_of, turns_of,
    value_of,
};
use crate::words::Command;
use bgp_prefix::RouteRefresh;
use bgp_talk::{Speaking, Start};
use clap::ArgMatches;
use std::alloc::{AllocError, Global};

/// The usage line of `speak`, in two lines.
const USAGE: &str = "\
bgp speak [OPTIONS] --local-as <N> --peer-as <N> --local-id <A> --local <A> --peer <A>
                 --next-hop <A> --next-hop6 <A> (--connect <N> | --listen <N>) <FILE>";

/// What help says after the words of `speak`: what it does, what it prints, an example and the
/// statuses.
const SPOKEN: &str = "\
speak is one end of a session over TCP on 127.0.0.1: it connects to a port where the peer listens,
or listens at a port and takes the first connection. FILE becomes an MRT file of what it did, with
the addresses of --local and --peer; bgp judge --no-refresh judges it, by the same options up to
--large-hold. A turn is one read of the connection, or a second in which nothing comes. After the
last turn it ends the session with a Cease. While it speaks, standard error has a line for each
message and each change of its state. At the end it prints:
  turns 12              how many turns it took
  route 10.2.0.0/16 via 192.0.2.2 path 65002 origin 0
                        each route that it had from the peer after the last turn

It never offers route refresh and never delays its OPEN: --no-refresh and --delay-open may be given,
and change nothing of what it does.

Example: connect to a peer of AS 65002 that listens at port 1179, and announce a prefix.
  bgp speak --local-as 65001 --peer-as 65002 --local-id 192.0.2.1 --local 192.0.2.1 \\
    --peer 192.0.2.2 --connect 1179 --next-hop 192.0.2.1 --next-hop6 2001:db8::1 \\
    --announce 10.1.0.0/16 session.mrt

Exit status:
  0   the talk went to its end, which doesn't say that there was a session: the peer may have
      refused the connection, as the MRT file shows; or help was asked for
  4   memory was refused
  5   the MRT file or the port can't be opened, or the MRT file or output can't be written
  64  the command line is none that the program knows

The manual is docs/bgp.1.md, at the top of the repository.";

/// The file of `speak`.
const CAPTURE: Word<'static> = Word::File(
    "FILE",
    "The MRT file to write; - is a file of that name",
);

/// The words of `speak` that `judge` hasn't.
static WORDS: [Word<'static>; 7] = [
    Word::Option(
        "connect",
        "Connects to this port of 127.0.0.1: 1 to 65535; or --listen",
    ),
    Word::Option(
        "listen",
        "Listens at this port of 127.0.0.1, and takes the first connection",
    ),
    Word::Required(
        "next-hop",
        "The next hop of an announced IPv4 prefix, as 192.0.2.1",
    ),
    Word::Required(
        "next-hop6",
        "The next hop of an announced IPv6 prefix, as 2001:db8::1",
    ),
    Word::Option(
        "announce",
        "A prefix to announce, as 10.1.0.0/16 or 2001:db8:1::/48",
    ),
    Word::Default(
        "turns",
        "100",
        "Turns it takes at most: fewer than 2 to the 63rd",
    ),
    Word::Flag("quiet", "Says nothing on standard error while it speaks"),
];

/// What the words of `speak` may be.
pub(crate) fn speak_words<'a>(alloc: Global) -> Result<clap::Command<'a>, AllocError>
    ensures words { IfOk result (λ speak. app_of speak ≡ speak_words) }
    ensures local { IfOk result (λ speak. (fields_of speak).has_globals ≡ false) }
{
    let speak = new_command(
        alloc,
        "speak",
        "Speaks with a peer over TCP, and writes down the session as an MRT file",
        SPOKEN,
    )
    .override_usage(USAGE);
    let speak = with_word(alloc, speak, CAPTURE)?;
    let speak = with_settings(alloc, speak)?;
    with_speaking(alloc, speak)
}

/// The command with the words that `judge` hasn't after its own.
fn with_speaking<'a>(
    alloc: Global,
    speak: clap::Command<'a>,
) -> Result<clap::Command<'a>, AllocError>
    ensures words { IfOk result (λ it. app_of it ≡ with_speaking (app_of speak.entry)) }
    ensures local { (fields_of speak.entry).has_globals ≡ false →
        IfOk result (λ it. (fields_of it).has_globals ≡ false) }
{
    with_words(alloc, speak, &WORDS)
}

/// The command that the values of `speak` are.
pub(crate) fn speak_of<'a>(speak: &ArgMatches<'a>) -> Result<Command<'a>, Misfit<'a>>
    ensures ok { IfOk result (NamesBy (codes "speak") (rows_of (found_of speak.now))) }
    ensures err { IsErr result → (config : Configured) (speaking : Spoken) (file : List ℕ) →
        IsSpeak config speaking file (rows_of (found_of speak.now)) → ⊥ }
{
    let config = config_of(speak, RouteRefresh::NotOffered)?;
    if !is_of_one_family(&config.parts.session) {
        return Err(Misfit::TWO_FAMILIES);
    }
    let speaking = speaking_of(speak)?;
    let file = value_of(speak, "FILE")?;
    Ok(Command::Speak {
        config,
        speaking,
        file,
    })
}

/// What the values of the options are that `judge` hasn't.
fn speaking_of<'a>(speak: &ArgMatches<'a>) -> Result<Speaking, Misfit<'a>>
    ensures { (speaking : Spoken) → IsOkAnd result (λ it. it ≡ speaking)
        ↔ AreOptions speaking (rows_of (found_of speak.now)) }
{
    Ok(Speaking {
        start: start_of(speak)?,
        next_hop4: next_hop4_of(speak, "next-hop")?,
        next_hop6: next_hop6_of(speak, "next-hop6")?,
        announce: prefix_of(speak, "announce")?,
        cleared: is_cleared(speak, "announce"),
        turns: turns_of(speak, "turns")?,
        quiet: has_flag(speak, "quiet"),
    })
}

/// How the values of `speak` want the connection to come to be: one of both ways is given.
fn start_of<'a>(speak: &ArgMatches<'a>) -> Result<Start, Misfit<'a>>
    ensures { (start : Started) → IsOkAnd result (λ it. it ≡ start)
        ↔ IsStart start (rows_of (found_of speak.now)) }
{
    if has_value(speak, "connect") {
        if has_value(speak, "listen") {
            return Err(Misfit::TWO_STARTS);
        }
        return Ok(Start::Connect(port_of(speak, "connect")?));
    }
    if has_value(speak, "listen") {
        return Ok(Start::Listen(port_of(speak, "listen")?));
    }
    Err(Misfit::NO_START)
}
