//! The text of a second, with a fraction if there is one.

ghost use Rattle.std.specs.Prelude.{◌≡◌, ◌+◌, ◌%◌};
ghost use Rattle.bgp_text.specs.Lines.{Writes};
ghost use Rattle.bgp_clock.specs.When.{clock_text, date_text, fraction_text, micro_text};
ghost use Rattle.bgp_clock.specs.When.{short_text, time_text, when_text};
ghost use Rattle.bgp_clock.specs.When.{two_digits, four_digits, six_digits};

use crate::civil::{month_of, year_of};
use bgp_prefix::Seconds;
use bgp_text::{Lines, Sink};

/// How many seconds a day has.
const DAY: u32 = 86400;

/// Returns the octet of the last digit of a number.
fn last_digit(number: u32) -> u8
    ensures { result ≡ 48 + number % 10 }
{
    b'0' + (number % 10) as u8
}

/// Puts the last two digits of a number.
fn put_two<W: Sink>(lines: &mut Lines<'_, W>, number: u32)
    ensures { Writes lines.old lines.new (two_digits number) }
{
    lines.put(&[last_digit(number / 10), last_digit(number)]);
}

/// Puts the last four digits of a number.
fn put_four<W: Sink>(lines: &mut Lines<'_, W>, number: u32)
    ensures { Writes lines.old lines.new (four_digits number) }
{
    lines.put(&[
        last_digit(number / 1000),
        last_digit(number / 100),
        last_digit(number / 10),
        last_digit(number),
    ]);
}

/// Puts the last six digits of a number.
fn put_six<W: Sink>(lines: &mut Lines<'_, W>, number: u32)
    ensures { Writes lines.old lines.new (six_digits number) }
{
    lines.put(&[
        last_digit(number / 100_000),
        last_digit(number / 10_000),
        last_digit(number / 1000),
        last_digit(number / 100),
        last_digit(number / 10),
        last_digit(number),
    ]);
}

/// Puts the date of a second: `2026-11-22`.
fn put_date<W: Sink>(lines: &mut Lines<'_, W>, second: Seconds)
    ensures { Writes lines.old lines.new (date_text second) }
{
    let (year, days) = year_of(second / DAY);
    let (month, passed) = month_of(year, days);
    put_four(lines, year);
    lines.put(b"-");
    put_two(lines, month);
    lines.put(b"-");
    put_two(lines, passed + 1);
}

/// Puts the time of day of a second: `06:38:45`.
fn put_time<W: Sink>(lines: &mut Lines<'_, W>, second: Seconds)
    ensures { Writes lines.old lines.new (time_text second) }
{
    put_two(lines, second / 3600 % 24);
    lines.put(b":");
    put_two(lines, second / 60 % 60);
    lines.put(b":");
    put_two(lines, second % 60);
}

/// Puts microseconds as a fraction of a second: `.133606`. What isn't below 1,000,000 is no
/// fraction.
fn put_micro<W: Sink>(lines: &mut Lines<'_, W>, micro: u32)
    ensures { Writes lines.old lines.new (micro_text micro) }
{
    if micro < 1_000_000 {
        lines.put(b".");
        put_six(lines, micro);
    } else {
        lines.put(b"");
    }
}

/// Puts a fraction of a second, if there is one.
fn put_fraction<W: Sink>(lines: &mut Lines<'_, W>, micro: Option<u32>)
    ensures { Writes lines.old lines.new (fraction_text micro) }
{
    match micro {
        Some(micro) => put_micro(lines, micro),
        None => lines.put(b""),
    }
}

/// Puts the time of day of a second, with the microseconds of its fraction, if there are some:
/// `06:38:45.133606`.
pub fn put_clock<W: Sink>(lines: &mut Lines<'_, W>, second: Seconds, micro: Option<u32>)
    ensures { Writes lines.old lines.new (clock_text second micro) }
{
    put_time(lines, second);
    put_fraction(lines, micro);
}

/// Puts a second with its date: `2026-11-22 06:38:45.133606`.
pub fn put_when<W: Sink>(lines: &mut Lines<'_, W>, second: Seconds, micro: Option<u32>)
    ensures { Writes lines.old lines.new (when_text second micro) }
{
    put_date(lines, second);
    lines.put(b" ");
    put_clock(lines, second, micro);
}

/// Puts a second without its date, if it lies on the same day as `first`.
pub fn put_short<W: Sink>(
    lines: &mut Lines<'_, W>,
    first: Seconds,
    second: Seconds,
    micro: Option<u32>,
)
    ensures { Writes lines.old lines.new (short_text first second micro) }
{
    if first / DAY == second / DAY {
        put_clock(lines, second, micro);
    } else {
        put_when(lines, second, micro);
    }
}
