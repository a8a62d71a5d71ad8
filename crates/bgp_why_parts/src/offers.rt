//! What an OPEN offers about how routes are spelled, as words with commas between them.

ghost use Rattle.std.specs.Prelude.{◌≡◌, ◌||◌, ◌∷◌, [], codes};
ghost use Rattle.std.specs.Bool.{then_some};
ghost use Rattle.bgp_names.specs.Lines.{Writes};
ghost use Rattle.bgp_why_parts.specs.Pieces.{separated, next_separator};
ghost use Rattle.bgp_why_parts.specs.Offers.{offer_text, offers_something, words_text};

use bgp_names::Lines;
use bgp_open::RouteOffer;
use mrt::Sink;

/// Whether anything is offered.
fn offers_something(offer: RouteOffer) -> bool
    ensures { result ≡ offers_something offer }
{
    let RouteOffer {
        sends,
        receives,
        next_hops,
    } = offer;
    sends.v4 || sends.v6 || receives.v4 || receives.v6 || next_hops
}

/// A word after what stands before it, if it is offered. Answers what stands before the next.
fn put_word<W: Sink>(
    lines: &mut Lines<'_, W>,
    before: &'static [u8],
    is_offered: bool,
    word: &'static [u8],
) -> &'static [u8]
    ensures writes { Writes lines.old lines.new
        (separated (codes ",") before.now (then_some is_offered word.now ∷ [])) }
    ensures next { result.now
        ≡ next_separator (codes ",") before.now (then_some is_offered word.now) }
{
    if !is_offered {
        return before;
    }
    lines.put(before);
    lines.put(word);
    b","
}

/// The words of an offer.
fn put_words<W: Sink>(lines: &mut Lines<'_, W>, offer: RouteOffer)
    ensures { Writes lines.old lines.new (words_text offer) }
{
    let first = put_word(lines, b"", offer.sends.v4, b"send-v4");
    let second = put_word(lines, first, offer.sends.v6, b"send-v6");
    let third = put_word(lines, second, offer.receives.v4, b"receive-v4");
    let fourth = put_word(lines, third, offer.receives.v6, b"receive-v6");
    put_word(lines, fourth, offer.next_hops, b"next-hops");
}

/// Puts what an OPEN offers about how routes are spelled, as `--offers` names it:
/// `send-v4,receive-v4`, or `none`.
pub fn put_offer<W: Sink>(lines: &mut Lines<'_, W>, offer: RouteOffer)
    ensures { Writes lines.old lines.new (offer_text offer) }
{
    if offers_something(offer) {
        put_words(lines, offer);
    } else {
        lines.put(b"none");
    }
}
