//! The words of what OPENs offer about routes.

use bgp_open::RouteOffer;
use std::fmt;

/// An offer, as `--offers` names it.
#[derive(Clone, Copy)]
pub(crate) struct OfferWords(pub(crate) RouteOffer);

impl fmt::Display for OfferWords {
    fn fmt<W: fmt::Write>(&self, f: &mut fmt::Formatter<W>) -> fmt::Result {
        let RouteOffer {
            sends,
            receives,
            next_hops,
        } = self.0;
        put_words(
            f,
            &[
                (sends.v4, "send-v4"),
                (sends.v6, "send-v6"),
                (receives.v4, "receive-v4"),
                (receives.v6, "receive-v6"),
                (next_hops, "next-hops"),
            ],
        )
    }
}

/// Writes the words that are so, with a comma between each two.
fn put_words<W: fmt::Write>(f: &mut fmt::Formatter<W>, words: &[(bool, &str)]) -> fmt::Result {
    let mut before = "";
    for (is_so, word) in words {
        if *is_so {
            write!(f, "{before}{word}")?;
            before = ",";
        }
    }
    Ok(())
}
