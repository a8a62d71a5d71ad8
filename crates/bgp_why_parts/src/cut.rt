//! How much is shown of a text from the wire.

ghost use Rattle.std.specs.Prelude.{◌≡◌, ◌<◌, ◌≤◌, ℕ, List, length, take};
ghost use Rattle.bgp_names.specs.Lines.{Writes};
ghost use Rattle.bgp_why_parts.specs.Cut.{cut, goes_on, shown_count};

use bgp_names::Lines;
use mrt::Sink;

/// How many octets of a text are shown at the most.
const MOST: usize = 200;

/// Whether an octet goes on with a character that an earlier one begins.
fn goes_on(octet: u8) -> bool
    ensures { result ≡ goes_on octet }
{
    128 <= octet && octet <= 191
}

/// How many octets are shown of a text that is too long.
fn shown_count(front: &[u8]) -> usize
    requires { 200 < length front.now }
    ensures count { result ≡ shown_count front.now }
    ensures most { result ≤ 200 }
{
    if !goes_on(front[MOST]) {
        return MOST;
    }
    if !goes_on(front[MOST - 1]) {
        return MOST - 1;
    }
    if !goes_on(front[MOST - 2]) {
        return MOST - 2;
    }
    MOST - 3
}

/// Puts a text of which these are the first 256 octets: all of it, or its first 200 octets and
/// ` ..`, fewer if a character of UTF-8 would be cut.
pub fn put_cut<W: Sink>(lines: &mut Lines<'_, W>, front: &[u8])
    ensures { (text : List ℕ) → front.now ≡ take 256 text
        → Writes lines.old lines.new (cut text) }
{
    if MOST < front.len() {
        lines.put(front.split_at(shown_count(front)).0);
        lines.put(b" ..");
    } else {
        lines.put(front);
    }
}
