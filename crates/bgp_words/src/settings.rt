//! What `judge` and `speak` are told of a session and of its local system.

ghost use Rattle.std.specs.Prelude.{◌≡◌, ◌↔◌, IfOk, IsOkAnd, IsTrue, false};
ghost use Rattle.clap.specs.Words.{app_of, found_of, rows_of};
ghost use Rattle.clap.specs.declared.builder.command.Command.TheViews.{out-Command as fields_of};
ghost use Rattle.bgp_prefix.specs.declared.session.Session.{Session as Ends};
ghost use Rattle.bgp_open.specs.declared.config.Config.{Config as Configured};
ghost use Rattle.bgp_open.specs.declared.config.ConfigParts.{ConfigParts as Parts};
ghost use Rattle.bgp_words.specs.Words.{with_choices, with_needs, with_settings};
ghost use Rattle.bgp_words.specs.Settings.{IsSession, AreParts, IsOfOneFamily};

use crate::misfit::Misfit;
use crate::options::{Word, with_words};
use crate::values::{
    address_of, families_of, has_flag, hold_of, identifier_of, offers_of, positive_of,
};
use bgp_open::{Config, ConfigParts};
use bgp_prefix::{RouteRefresh, Session};
use clap::ArgMatches;
use std::alloc::{AllocError, Global};

/// The words of a session that have to be given.
static NEEDS: [Word<'static>; 5] = [
    Word::Required(
        "local-as",
        "The AS number of the local system: 1 to 4294967295",
    ),
    Word::Required("peer-as", "The peer's AS number: 1 to 4294967295"),
    Word::Required(
        "local-id",
        "The local system's BGP Identifier, as 192.0.2.1",
    ),
    Word::Required("local", "The local system's address"),
    Word::Required("peer", "The peer's address"),
];

/// The words of a session that may be given.
static CHOICES: [Word<'static>; 7] = [
    Word::Default(
        "hold",
        "90",
        "Hold Time that it offers: 0, or 3 to 65535 seconds",
    ),
    Word::Default(
        "families",
        "v4",
        "The families that it offers: v4, v6 or both",
    ),
    Word::Flag("as2", "It doesn't offer four-octet AS numbers"),
    Word::Flag("delay-open", "It may delay its OPEN (DelayOpen)"),
    Word::Flag("no-refresh", "It doesn't offer route refresh"),
    Word::Flag(
        "extended",
        "It offers extended messages, of 65535 octets (RFC 8654)",
    ),
    Word::Default(
        "large-hold",
        "240",
        "Seconds to wait for the peer's OPEN: 1 to 4294967295",
    ),
];

/// The command with the words of a session after its own.
pub(crate) fn with_settings<'a>(
    alloc: Global,
    command: clap::Command<'a>,
) -> Result<clap::Command<'a>, AllocError>
    ensures words { IfOk result (λ it. app_of it ≡ with_settings (app_of command.entry)) }
    ensures local { (fields_of command.entry).has_globals ≡ false →
        IfOk result (λ it. (fields_of it).has_globals ≡ false) }
{
    let command = with_needs(alloc, command)?;
    with_words(alloc, command, &CHOICES)
}

/// The command with those words of a session that have to be given.
fn with_needs<'a>(
    alloc: Global,
    command: clap::Command<'a>,
) -> Result<clap::Command<'a>, AllocError>
    ensures words { IfOk result (λ it. app_of it ≡ with_needs (app_of command.entry)) }
    ensures local { (fields_of command.entry).has_globals ≡ false →
        IfOk result (λ it. (fields_of it).has_globals ≡ false) }
{
    with_words(alloc, command, &NEEDS)
}

/// The configuration that the values of a command are, where the local system offers route refresh
/// so or not.
pub(crate) fn config_of<'a>(
    matches: &ArgMatches<'a>,
    refresh: RouteRefresh,
) -> Result<Config, Misfit<'a>>
    ensures { (config : Configured) → IsOkAnd result (λ it. it.parts ≡ config.parts)
        ↔ AreParts config.parts refresh (rows_of (found_of matches.now)) }
{
    let parts = parts_of(matches, refresh)?;
    // Each part is one that a configuration may have, so what is left is an AS number above 65535.
    Config::new(parts).ok_or(Misfit::FOUR_OCTETS)
}

/// The parts of a configuration that the values of a command are.
fn parts_of<'a>(matches: &ArgMatches<'a>, refresh: RouteRefresh) -> Result<ConfigParts, Misfit<'a>>
    ensures { (parts : Parts) → IsOkAnd result (λ it. it ≡ parts)
        ↔ AreParts parts refresh (rows_of (found_of matches.now)) }
{
    Ok(ConfigParts {
        local_as: positive_of(matches, "local-as")?,
        peer_as: positive_of(matches, "peer-as")?,
        local_id: identifier_of(matches, "local-id")?,
        hold: hold_of(matches, "hold")?,
        families: families_of(matches, "families")?,
        as4: !has_flag(matches, "as2"),
        delay_open: has_flag(matches, "delay-open"),
        large_hold: positive_of(matches, "large-hold")?,
        session: session_of(matches, refresh)?,
        // `speak` has no such option, and so offers nothing.
        offers: offers_of(matches, "offers")?,
    })
}

/// The session that the values of a command name, where the local system offers route refresh so or
/// not.
pub(crate) fn session_of<'a>(
    matches: &ArgMatches<'a>,
    refresh: RouteRefresh,
) -> Result<Session, Misfit<'a>>
    ensures { (session : Ends) → IsOkAnd result (λ it. it ≡ session)
        ↔ IsSession session refresh (rows_of (found_of matches.now)) }
{
    Ok(Session {
        peer: address_of(matches, "peer")?,
        local: address_of(matches, "local")?,
        refresh,
        extended: has_flag(matches, "extended"),
    })
}

/// Whether both addresses of a session are of one family.
pub(crate) fn is_of_one_family(session: &Session) -> bool
    ensures { IsTrue result ↔ IsOfOneFamily session.now }
{
    session.peer.family() == session.local.family()
}
