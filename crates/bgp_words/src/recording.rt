//! What the commands that read one session are told of it: most is of recordings of packets alone.

ghost use Rattle.std.specs.Prelude.{◌≡◌, ◌↔◌, IfOk, IsOkAnd, false};
ghost use Rattle.clap.specs.Words.{app_of, found_of, rows_of};
ghost use Rattle.clap.specs.declared.builder.command.Command.TheViews.{out-Command as fields_of};
ghost use Rattle.bgp_words.specs.Words.{with_recording};
ghost use Rattle.bgp_words.specs.Recording.{AreRecordingOptions, refresh_told};
ghost use Rattle.bgp_import.specs.declared.options.RecordingOptions.{RecordingOptions as Told};

use crate::misfit::Misfit;
use crate::options::{Word, with_words};
use crate::values::{connection_of, has_flag, optional_port_of, port_of, seconds_of};
use bgp_import::RecordingOptions;
use bgp_prefix::RouteRefresh;
use clap::ArgMatches;
use std::alloc::{AllocError, Global};

/// The port of a session in a recording.
pub(crate) const PORT: Word<'static> = Word::Default(
    "port",
    "179",
    "The session's TCP port in a pcap file: 1 to 65535",
);

/// For how long a message of a recording may wait.
pub(crate) const WITHIN: Word<'static> = Word::Default(
    "within",
    "10",
    "Seconds a message in a pcap file may wait: 0 to 65535",
);

/// The words of a session that is read: four that are for recordings alone, and one that isn't.
static WORDS: [Word<'static>; 5] = [
    PORT,
    Word::Option(
        "local-port",
        "The local system's port in a pcap file: only connections there",
    ),
    Word::Option(
        "connection",
        "The connection in a pcap file, by its number in bgp list",
    ),
    WITHIN,
    Word::Flag(
        "skip-refresh",
        "ROUTE-REFRESH messages are passed over: neither printed nor judged",
    ),
];

/// The command with the words of a session that is read after its own.
pub(crate) fn with_recording<'a>(
    alloc: Global,
    command: clap::Command<'a>,
) -> Result<clap::Command<'a>, AllocError>
    ensures words { IfOk result (λ it. app_of it ≡ with_recording (app_of command.entry)) }
    ensures local { (fields_of command.entry).has_globals ≡ false →
        IfOk result (λ it. (fields_of it).has_globals ≡ false) }
{
    with_words(alloc, command, &WORDS)
}

/// What the values of a command tell of a recording.
pub(crate) fn recording_of<'a>(matches: &ArgMatches<'a>) -> Result<RecordingOptions, Misfit<'a>>
    ensures { (recording : Told) → IsOkAnd result (λ it. it ≡ recording)
        ↔ AreRecordingOptions recording (rows_of (found_of matches.now)) }
{
    Ok(RecordingOptions {
        port: port_of(matches, "port")?,
        local_port: optional_port_of(matches, "local-port")?,
        connection: connection_of(matches, "connection")?,
        within: seconds_of(matches, "within")?,
    })
}

/// What becomes of the ROUTE-REFRESH messages of a session that is read, where its local system may
/// have offered route refresh or not: `--skip-refresh` passes over them either way.
pub(crate) fn refresh_of(matches: &ArgMatches<'_>, offered: bool) -> RouteRefresh
    ensures { result ≡ refresh_told offered (rows_of (found_of matches.now)) }
{
    if has_flag(matches, "skip-refresh") {
        RouteRefresh::PassedOver
    } else {
        RouteRefresh::with_offer(offered)
    }
}
