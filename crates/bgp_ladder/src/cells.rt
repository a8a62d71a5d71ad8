//! The first cell of a row: its time.

ghost use Rattle.std.specs.Prelude.{◌≡◌, ◌+◌, ◌%◌, ◌++◌, codes};
ghost use Rattle.std.specs.Fmt.{decimal};
ghost use Rattle.bgp_text.specs.Lines.{Writes};
ghost use Rattle.bgp_html.specs.Escaped.{escaped};
ghost use Rattle.bgp_ladder.specs.Ladder.{elapsed_words, fraction_words, micros_words, moment};
ghost use Rattle.bgp_ladder.specs.Ladder.{seconds_words, time_after, time_behind, time_words};
ghost use Rattle.bgp_ladder.specs.Ladder.{with_sign};

use crate::rows::Ladder;
use bgp_html::put_escaped;
use bgp_prefix::Seconds;
use bgp_recording::Entry;
use bgp_text::Lines;
use mrt::Sink;

/// Puts a number.
pub(crate) fn put_number<W: Sink>(lines: &mut Lines<'_, W>, number: u64)
    ensures { Writes lines.old lines.new (escaped (decimal number)) }
{
    lines.put_decimal(number);
}

/// Returns a moment in microseconds.
fn moment(second: Seconds, micro: u32) -> u64
    ensures { result ≡ moment second micro }
{
    u64::from(second) * 1_000_000 + u64::from(micro)
}

/// Returns the octet of the last digit of a number.
fn last_digit(number: u64) -> u8
    ensures { result ≡ 48 + number % 10 }
{
    b'0' + (number % 10) as u8
}

/// Puts microseconds as a fraction of a second, and the unit behind it.
fn put_fraction<W: Sink>(lines: &mut Lines<'_, W>, micros: u64)
    ensures { Writes lines.old lines.new (fraction_words micros ++ codes " s") }
{
    let digits = [
        b'.',
        last_digit(micros / 100_000),
        last_digit(micros / 10_000),
        last_digit(micros / 1000),
        last_digit(micros / 100),
        last_digit(micros / 10),
        last_digit(micros),
        b' ',
        b's',
    ];
    lines.put(&digits);
}

/// Puts so many microseconds, as seconds.
fn put_micros<W: Sink>(lines: &mut Lines<'_, W>, micros: u64)
    ensures { Writes lines.old lines.new (micros_words micros) }
{
    lines.put_decimal(micros / 1_000_000);
    put_fraction(lines, micros);
}

/// Puts so many seconds.
fn put_seconds<W: Sink>(lines: &mut Lines<'_, W>, seconds: u32)
    ensures { Writes lines.old lines.new (seconds_words seconds) }
{
    lines.put_decimal(seconds);
    lines.put(b" s");
}

/// Puts how far a moment is from the first, both in microseconds.
fn put_precise<W: Sink>(lines: &mut Lines<'_, W>, from: u64, to: u64)
    ensures { Writes lines.old lines.new (escaped (with_sign micros_words from to)) }
{
    if to < from {
        lines.put(b"-");
        put_micros(lines, from - to);
    } else {
        lines.put(b"+");
        put_micros(lines, to - from);
    }
}

/// Puts how far a second is from the first, of which no fraction is known.
fn put_whole<W: Sink>(lines: &mut Lines<'_, W>, first: Seconds, second: Seconds)
    ensures { Writes lines.old lines.new (escaped (with_sign seconds_words first second)) }
{
    if second < first {
        lines.put(b"-");
        put_seconds(lines, first - second);
    } else {
        lines.put(b"+");
        put_seconds(lines, second - first);
    }
}

/// Puts how far an entry's packet is from the first of the connection, with `-` if its time is
/// before that one's.
fn put_elapsed<W: Sink>(lines: &mut Lines<'_, W>, ladder: &Ladder, entry: &Entry<'_>)
    ensures { Writes lines.old lines.new (escaped (elapsed_words ladder.now entry.now)) }
{
    match (ladder.micro, entry.micro) {
        (Some(from), Some(to)) => {
            put_precise(lines, moment(ladder.first, from), moment(entry.second, to));
        }
        (Some(_) | None, _) => put_whole(lines, ladder.first, entry.second),
    }
}

/// Puts the time of an entry behind another.
fn put_time_behind<W: Sink>(
    lines: &mut Lines<'_, W>,
    ladder: &Ladder,
    previous: &Entry<'_>,
    entry: &Entry<'_>,
)
    ensures { Writes lines.old lines.new
        (escaped (time_behind ladder.now previous.now entry.now)) }
{
    if entry.packet == previous.packet {
        lines.put(b"");
    } else {
        put_elapsed(lines, ladder, entry);
    }
}

/// Puts the time of an entry, behind another or as the first.
fn put_time_after<W: Sink>(
    lines: &mut Lines<'_, W>,
    ladder: &Ladder,
    previous: Option<Entry<'_>>,
    entry: &Entry<'_>,
)
    ensures { Writes lines.old lines.new
        (escaped (time_after ladder.now previous.entry entry.now)) }
{
    match previous {
        None => put_elapsed(lines, ladder, entry),
        Some(previous) => put_time_behind(lines, ladder, &previous, entry),
    }
}

/// Puts the time of an entry whose packet came before that of a row above it.
fn put_late<W: Sink>(lines: &mut Lines<'_, W>, ladder: &Ladder, entry: &Entry<'_>)
    ensures { Writes lines.old lines.new
        (escaped (elapsed_words ladder.now entry.now ++ codes ", came before")) }
{
    put_elapsed(lines, ladder, entry);
    put_escaped(lines, b", came before");
}

/// Puts the time of an entry behind these, behind the row of another or none.
pub(crate) fn put_time<W: Sink>(
    lines: &mut Lines<'_, W>,
    ladder: &Ladder,
    greatest: u64,
    previous: Option<Entry<'_>>,
    entry: &Entry<'_>,
)
    ensures { Writes lines.old lines.new
        (escaped (time_words ladder.now greatest previous.entry entry.now)) }
{
    if entry.packet < greatest {
        put_late(lines, ladder, entry);
    } else {
        put_time_after(lines, ladder, previous, entry);
    }
}
