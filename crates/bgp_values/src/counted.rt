//! Texts behind an octet that counts theirs.

ghost use Rattle.std.specs.Prelude.{◌≡◌, option_map};
ghost use Rattle.bgp_values.specs.CapabilityValue.{counted_in};
ghost use Rattle.bgp_values.specs.CountedText.{counted_of};

use crate::readable::read_text;

/// A readable text, and what stands behind it.
#[derive(Clone, Copy)]
pub(crate) struct CountedText<'a> {
    pub(crate) text: &'a str,
    pub(crate) rest: &'a [u8],
}

/// Reads the text at the front, behind the octet that counts its octets, if it is readable.
pub(crate) fn counted_in(octets: &[u8]) -> Option<CountedText<'_>>
    ensures { option_map counted_of result ≡ counted_in octets.entry.now }
{
    let Some((count, behind)) = octets.split_first() else {
        return None;
    };
    let count = usize::from(*count);
    if behind.len() < count {
        return None;
    }
    let (text, rest) = behind.split_at(count);
    let Some(text) = read_text(text) else {
        return None;
    };
    Some(CountedText { text, rest })
}
