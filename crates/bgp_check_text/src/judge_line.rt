//! The line with the `bgp judge` command that reproduces a verdict.

ghost use Rattle.std.specs.Prelude.{◌≡◌, option_map};
ghost use Rattle.bgp_text.specs.Lines.{Writes};
ghost use Rattle.bgp_check_text.specs.JudgeLine.{addresses_text, asked_text, choices_text};
ghost use Rattle.bgp_check_text.specs.JudgeLine.{command_text};
ghost use Rattle.bgp_check_text.specs.JudgeLine.{families_word, flag_text, hold_text, judge_line};
ghost use Rattle.bgp_check_text.specs.JudgeLine.{needs_text, number_text, offers_option};
ghost use Rattle.bgp_check_text.specs.JudgeLine.{refresh_text};

use crate::options::{Asked, JudgeOptions};
use bgp_open::{Config, Families, RouteOffer};
use bgp_prefix::Session;
use bgp_text::{Lines, put_address};
use bgp_why_parts::put_offer;
use itoa::Integer;
use mrt::Sink;

/// The Hold Time that `bgp judge` takes where none is given.
const HOLD: u16 = 90;

/// Puts an option with a number, where there is one.
fn put_number<W: Sink, I: Integer>(lines: &mut Lines<'_, W>, option: &[u8], number: Option<I>)
    ensures { Writes lines.old lines.new (number_text option.now (option_map I.text number)) }
{
    match number {
        Some(number) => {
            lines.put(option);
            lines.put_decimal(number);
        }
        None => lines.put(b""),
    }
}

/// Puts an option without a value, where it is given.
fn put_flag<W: Sink>(lines: &mut Lines<'_, W>, option: &[u8], is_given: bool)
    ensures { Writes lines.old lines.new (flag_text option.now is_given) }
{
    if is_given {
        lines.put(option);
    } else {
        lines.put(b"");
    }
}

/// The word of these families.
fn families_word(families: Families) -> &'static [u8]
    ensures { result.now ≡ families_word families }
{
    match (families.v4, families.v6) {
        (true, true) => b"both",
        (true, false) => b"v4",
        (false, _) => b"v6",
    }
}

/// Puts both AS numbers and the BGP Identifier.
fn put_needs<W: Sink>(lines: &mut Lines<'_, W>, config: &Config)
    ensures { Writes lines.old lines.new (needs_text config.now) }
{
    lines.put(b" --local-as ");
    lines.put_decimal(config.parts.local_as);
    lines.put(b" --peer-as ");
    lines.put_decimal(config.parts.peer_as);
    lines.put(b" --local-id ");
    lines.put_ipv4(config.parts.local_id);
}

/// Puts both addresses.
fn put_addresses<W: Sink>(lines: &mut Lines<'_, W>, session: &Session)
    ensures { Writes lines.old lines.new (addresses_text session.now) }
{
    lines.put(b" --local ");
    put_address(lines, session.local);
    lines.put(b" --peer ");
    put_address(lines, session.peer);
}

/// Puts the Hold Time, where it isn't the one that is taken where none is given.
fn put_hold<W: Sink>(lines: &mut Lines<'_, W>, hold: u16)
    ensures { Writes lines.old lines.new (hold_text hold) }
{
    if hold == HOLD {
        lines.put(b"");
    } else {
        lines.put(b" --hold ");
        lines.put_decimal(hold);
    }
}

/// Puts what is offered about how routes are spelled, if something is.
fn put_offers<W: Sink>(lines: &mut Lines<'_, W>, offers: RouteOffer)
    ensures { Writes lines.old lines.new (offers_option offers) }
{
    if offers.is_nothing() {
        lines.put(b"");
    } else {
        lines.put(b" --offers ");
        put_offer(lines, offers);
    }
}

/// Puts what else is configured.
fn put_choices<W: Sink>(lines: &mut Lines<'_, W>, config: &Config)
    ensures { Writes lines.old lines.new (choices_text config.now) }
{
    let parts = &config.parts;
    put_hold(lines, parts.hold);
    lines.put(b" --families ");
    lines.put(families_word(parts.families));
    put_flag(lines, b" --as2", !parts.as4);
    put_flag(lines, b" --extended", parts.session.extended);
    put_offers(lines, parts.offers);
    put_flag(lines, b" --delay-open", parts.delay_open);
    lines.put(b" --large-hold ");
    lines.put_decimal(parts.large_hold);
}

/// Puts what becomes of a ROUTE-REFRESH.
fn put_refresh<W: Sink>(lines: &mut Lines<'_, W>, options: &JudgeOptions)
    ensures { Writes lines.old lines.new (refresh_text options.now) }
{
    put_flag(lines, b" --skip-refresh", options.skips_refresh);
    put_flag(lines, b" --no-refresh", options.no_refresh);
}

/// Puts which connection of a recording is meant.
fn put_asked<W: Sink>(lines: &mut Lines<'_, W>, asked: &Asked)
    ensures { Writes lines.old lines.new (asked_text asked.now) }
{
    put_number(lines, b" --port ", asked.port);
    put_number(lines, b" --local-port ", asked.local_port);
    put_number(lines, b" --connection ", asked.connection);
    put_number(lines, b" --within ", asked.within);
}

/// Puts the command that reproduces a verdict, without the file's name: `bgp judge OPTIONS`.
pub fn put_command<W: Sink>(lines: &mut Lines<'_, W>, options: &JudgeOptions)
    ensures { Writes lines.old lines.new (command_text options.now) }
{
    lines.put(b"bgp judge");
    put_needs(lines, &options.config);
    put_addresses(lines, &options.config.parts.session);
    put_choices(lines, &options.config);
    put_refresh(lines, options);
    put_asked(lines, &options.asked);
}

/// Puts the line of the command that reproduces a verdict: `repeat: bgp judge OPTIONS FILE`, with
/// `FILE` for the file's name.
pub fn put_judge_line<W: Sink>(lines: &mut Lines<'_, W>, options: &JudgeOptions)
    ensures { Writes lines.old lines.new (judge_line options.now) }
{
    lines.put(b"  repeat: bgp judge");
    put_needs(lines, &options.config);
    put_addresses(lines, &options.config.parts.session);
    put_choices(lines, &options.config);
    put_refresh(lines, options);
    put_asked(lines, &options.asked);
    lines.put(b" FILE\n");
}
