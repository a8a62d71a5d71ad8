//! What a text names of an OPEN's offer about routes.

ghost use Rattle.std.specs.Prelude.{◌≡◌, ◌↔◌, Some};
ghost use Rattle.bgp_open.specs.declared.route_offer.RouteOffer.{RouteOffer as Offer};
ghost use Rattle.bgp_words.specs.Offers.{IsAdded, IsOffersText, IsWordText};
ghost use Rattle.bgp_words.specs.Offers as specs;
ghost use Rattle.bgp_words.specs.declared.offers.OfferWord.{OfferWord as Named};

use bgp_open::{Families, RouteOffer};

/// A word that names a part of an offer about routes.
#[derive(Clone, Copy)]
pub(crate) enum OfferWord {
    /// `send-v4`: to send several paths for an IPv4 prefix (RFC 7911, 4).
    SendV4,
    /// `send-v6`: the same for IPv6.
    SendV6,
    /// `receive-v4`: to receive several paths for an IPv4 prefix.
    ReceiveV4,
    /// `receive-v6`: the same for IPv6.
    ReceiveV6,
    /// `next-hops`: to receive IPv4 routes with IPv6 next hops (RFC 8950, 4).
    NextHops,
}

/// Reads a word.
fn read_word(text: &str) -> Option<OfferWord>
    ensures { (word : Named) → (result ≡ Some word) ↔ IsWordText text.now word }
{
    if text == "send-v4" {
        Some(OfferWord::SendV4)
    } else if text == "send-v6" {
        Some(OfferWord::SendV6)
    } else if text == "receive-v4" {
        Some(OfferWord::ReceiveV4)
    } else if text == "receive-v6" {
        Some(OfferWord::ReceiveV6)
    } else if text == "next-hops" {
        Some(OfferWord::NextHops)
    } else {
        None
    }
}

/// Whether an offer has what a word names.
fn has_word(word: OfferWord, offers: RouteOffer) -> bool
    ensures { result ≡ specs.has_word word offers }
{
    match word {
        OfferWord::SendV4 => offers.sends.v4,
        OfferWord::SendV6 => offers.sends.v6,
        OfferWord::ReceiveV4 => offers.receives.v4,
        OfferWord::ReceiveV6 => offers.receives.v6,
        OfferWord::NextHops => offers.next_hops,
    }
}

/// The offer, with what a word names.
fn with_word(word: OfferWord, offers: RouteOffer) -> RouteOffer
    ensures { result ≡ specs.with_word word offers }
{
    let RouteOffer {
        sends,
        receives,
        ..
    } = offers;
    match word {
        OfferWord::SendV4 => RouteOffer {
            sends: Families { v4: true, ..sends },
            ..offers
        },
        OfferWord::SendV6 => RouteOffer {
            sends: Families { v6: true, ..sends },
            ..offers
        },
        OfferWord::ReceiveV4 => RouteOffer {
            receives: Families {
                v4: true,
                ..receives
            },
            ..offers
        },
        OfferWord::ReceiveV6 => RouteOffer {
            receives: Families {
                v6: true,
                ..receives
            },
            ..offers
        },
        OfferWord::NextHops => RouteOffer {
            next_hops: true,
            ..offers
        },
    }
}

/// Adds what a word names to an offer that lacks it.
fn add_word(offers: RouteOffer, text: &str) -> Option<RouteOffer>
    ensures { (wider : Offer) → (result ≡ Some wider) ↔ IsAdded text.now offers wider }
{
    let word = read_word(text)?;
    if has_word(word, offers) {
        None
    } else {
        Some(with_word(word, offers))
    }
}

/// Reads an offer: words with a comma between each two, at least one, and none twice.
pub(crate) fn read_offers(text: &str) -> Option<RouteOffer>
    ensures { (offers : Offer) → (result ≡ Some offers) ↔ IsOffersText text.now offers }
{
    let mut offers = RouteOffer::NOTHING;
    let mut rest = text;
    while let Some((word, more)) = rest.split_once(',') {
        offers = add_word(offers, word)?;
        rest = more;
    }
    add_word(offers, rest)
}
