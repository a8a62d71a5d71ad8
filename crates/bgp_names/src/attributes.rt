//! The names of path attributes (RFC 4271, 5), the words by which lines call them, and the names of
//! what two of them say.

ghost use Rattle.std.specs.Prelude.{◌≡◌, ℕ, List, option_map};
ghost use Rattle.std.specs.Borrow.{Bor};
ghost use Rattle.bgp_text.specs.Lines.{Writes};
ghost use Rattle.bgp_names.specs.Naming.{name_in};
ghost use Rattle.bgp_names.specs.Attributes.{attribute_name, attribute_names, origin_names};
ghost use Rattle.bgp_names.specs.Attributes.{attribute_word, attribute_words, segment_names};

use crate::naming::put_named;
use bgp_text::{Lines, Sink};

/// Returns the name of an attribute, if it has one.
pub fn name_of_attribute(kind: u8) -> Option<&'static str>
    ensures { option_map (λ (name : Bor (List ℕ)). name.now) result
        ≡ name_in attribute_names kind }
{
    Some(match kind {
        1 => "ORIGIN",
        2 => "AS_PATH",
        3 => "NEXT_HOP",
        4 => "MULTI_EXIT_DISC",
        5 => "LOCAL_PREF",
        6 => "ATOMIC_AGGREGATE",
        7 => "AGGREGATOR",
        8 => "COMMUNITIES",
        9 => "ORIGINATOR_ID",
        10 => "CLUSTER_LIST",
        14 => "MP_REACH_NLRI",
        15 => "MP_UNREACH_NLRI",
        16 => "EXTENDED_COMMUNITIES",
        17 => "AS4_PATH",
        18 => "AS4_AGGREGATOR",
        26 => "AIGP",
        32 => "LARGE_COMMUNITY",
        35 => "ONLY_TO_CUSTOMER",
        _ => return None,
    })
}

/// Returns the word of an attribute, if it has one.
fn word_of_attribute(kind: u8) -> Option<&'static str>
    ensures { option_map (λ (name : Bor (List ℕ)). name.now) result
        ≡ name_in attribute_words kind }
{
    Some(match kind {
        1 => "origin",
        2 => "path",
        3 => "via",
        4 => "med",
        5 => "pref",
        6 => "atomic",
        7 => "aggregator",
        8 => "communities",
        9 => "originator",
        10 => "clusters",
        14 => "reach",
        15 => "unreach",
        16 => "extended",
        17 => "as4-path",
        18 => "as4-aggregator",
        26 => "aigp",
        32 => "large",
        35 => "only-to-customer",
        _ => return None,
    })
}

/// Puts the name of an attribute, or `attribute N`.
pub fn put_attribute_name<W: Sink>(lines: &mut Lines<'_, W>, kind: u8)
    ensures { Writes lines.old lines.new (attribute_name kind) }
{
    put_named(lines, b"attribute ", kind, name_of_attribute(kind));
}

/// Puts the word of an attribute, or `attribute N`.
pub fn put_attribute_word<W: Sink>(lines: &mut Lines<'_, W>, kind: u8)
    ensures { Writes lines.old lines.new (attribute_word kind) }
{
    put_named(lines, b"attribute ", kind, word_of_attribute(kind));
}

/// Returns the name of a value of ORIGIN (RFC 4271, 4.3), if it has one.
pub fn name_of_origin(origin: u8) -> Option<&'static str>
    ensures { option_map (λ (name : Bor (List ℕ)). name.now) result ≡ name_in origin_names origin }
{
    Some(match origin {
        0 => "IGP",
        1 => "EGP",
        2 => "INCOMPLETE",
        _ => return None,
    })
}

/// Returns the name of a type of path segments (RFC 4271, 4.3; RFC 5065, 3), if it has one.
pub fn name_of_segment(kind: u8) -> Option<&'static str>
    ensures { option_map (λ (name : Bor (List ℕ)). name.now) result ≡ name_in segment_names kind }
{
    Some(match kind {
        1 => "AS_SET",
        2 => "AS_SEQUENCE",
        3 => "AS_CONFED_SEQUENCE",
        4 => "AS_CONFED_SET",
        _ => return None,
    })
}
