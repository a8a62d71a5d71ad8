//! The values of options, read from the words that clap found.

ghost use Rattle.std.specs.Prelude.{◌≡◌, ◌↔◌, ℕ, IfOk, IsErr, IsOkAnd, Some, None};
ghost use Rattle.std.specs.Prelude.{Option as Maybe, IsNone, IsSomeAnd, IsTrue, is_some};
ghost use Rattle.clap.specs.Words.{found_of, rows_of, first_of};
ghost use Rattle.bgp_prefix.specs.Notation.{IsAddressText, IsPrefixText};
ghost use Rattle.bgp_prefix.specs.Prefix.{PrefixBits};
ghost use Rattle.bgp_prefix.specs.declared.address.Address.{Address as Ip};
ghost use Rattle.bgp_open.specs.declared.families.Families.{Families as FamilySet};
ghost use Rattle.bgp_open.specs.declared.route_offer.RouteOffer.{RouteOffer as Offer};
ghost use Rattle.bgp_words.specs.Offers.{IsOffered};
ghost use Rattle.bgp_words.specs.Values.{IsValue, is_given, IsPositiveText, IsHoldText};
ghost use Rattle.bgp_words.specs.Values.{IsIdentifierText, IsFamiliesText, IsOptional};
ghost use Rattle.bgp_words.specs.Values.{IsNextHop4Text, IsNextHop6Text, IsPortText, IsTurnsText};
ghost use Rattle.bgp_words.specs.Values.{IsSecondsText, HasBitsAfter};

use crate::misfit::{Misfit, Wanted};
use crate::offers::read_offers;
use crate::texts::{
    has_bits_after, read_families, read_hold, read_identifier, read_next_hop4, read_next_hop6,
    read_port, read_positive, read_seconds, read_turns,
};
use bgp_open::{Families, RouteOffer};
use bgp_prefix::{Address, Prefix, read_address, read_prefix};
use clap::ArgMatches;

/// A value by its name.
pub(crate) fn value_of<'a>(matches: &ArgMatches<'a>, name: &'a str) -> Result<&'a str, Misfit<'a>>
    ensures ok { IfOk result (λ word.
        first_of name.now (rows_of (found_of matches.now)) ≡ Some word.now) }
    ensures err { IsErr result → first_of name.now (rows_of (found_of matches.now)) ≡ None }
{
    match matches.get_str(name) {
        Some(word) => Ok(word),
        None => Err(Misfit::Missing { name }),
    }
}

/// Whether a flag is given.
pub(crate) fn has_flag(matches: &ArgMatches<'_>, name: &str) -> bool
    ensures { result ≡ is_given name.now (rows_of (found_of matches.now)) }
{
    match matches.get_str(name) {
        Some(word) => word == "true",
        None => false,
    }
}

/// Whether an option has a value.
pub(crate) fn has_value(matches: &ArgMatches<'_>, name: &str) -> bool
    ensures { result ≡ is_some (first_of name.now (rows_of (found_of matches.now))) }
{
    matches.get_str(name).is_some()
}

/// The address that an option names.
pub(crate) fn address_of<'a>(matches: &ArgMatches<'a>, name: &'a str) -> Result<Address, Misfit<'a>>
    ensures { (address : Ip) → IsOkAnd result (λ it. it ≡ address)
        ↔ IsValue IsAddressText name.now (rows_of (found_of matches.now)) address }
{
    let word = value_of(matches, name)?;
    let wanted = Wanted::Address;
    read_address(word).ok_or(Misfit::Value { name, word, wanted })
}

/// The BGP Identifier that an option names.
pub(crate) fn identifier_of<'a>(matches: &ArgMatches<'a>, name: &'a str) -> Result<u32, Misfit<'a>>
    ensures { (id : ℕ) → IsOkAnd result (λ it. it ≡ id)
        ↔ IsValue IsIdentifierText name.now (rows_of (found_of matches.now)) id }
{
    let word = value_of(matches, name)?;
    let wanted = Wanted::Identifier;
    read_identifier(word).ok_or(Misfit::Value { name, word, wanted })
}

/// The number that an option names, which isn't 0.
pub(crate) fn positive_of<'a>(matches: &ArgMatches<'a>, name: &'a str) -> Result<u32, Misfit<'a>>
    ensures { (number : ℕ) → IsOkAnd result (λ it. it ≡ number)
        ↔ IsValue IsPositiveText name.now (rows_of (found_of matches.now)) number }
{
    let word = value_of(matches, name)?;
    let wanted = Wanted::Positive;
    read_positive(word).ok_or(Misfit::Value { name, word, wanted })
}

/// The Hold Time that an option names.
pub(crate) fn hold_of<'a>(matches: &ArgMatches<'a>, name: &'a str) -> Result<u16, Misfit<'a>>
    ensures { (hold : ℕ) → IsOkAnd result (λ it. it ≡ hold)
        ↔ IsValue IsHoldText name.now (rows_of (found_of matches.now)) hold }
{
    let word = value_of(matches, name)?;
    let wanted = Wanted::HoldTime;
    read_hold(word).ok_or(Misfit::Value { name, word, wanted })
}

/// The families that an option names.
pub(crate) fn families_of<'a>(
    matches: &ArgMatches<'a>,
    name: &'a str,
) -> Result<Families, Misfit<'a>>
    ensures { (families : FamilySet) → IsOkAnd result (λ it. it ≡ families)
        ↔ IsValue IsFamiliesText name.now (rows_of (found_of matches.now)) families }
{
    let word = value_of(matches, name)?;
    let wanted = Wanted::Families;
    read_families(word).ok_or(Misfit::Value { name, word, wanted })
}

/// What an option names of an OPEN's offer about routes: nothing where it isn't given.
pub(crate) fn offers_of<'a>(
    matches: &ArgMatches<'a>,
    name: &'a str,
) -> Result<RouteOffer, Misfit<'a>>
    ensures { (offers : Offer) → IsOkAnd result (λ it. it ≡ offers)
        ↔ IsOffered name.now (rows_of (found_of matches.now)) offers }
{
    let Some(word) = matches.get_str(name) else {
        return Ok(RouteOffer::NOTHING);
    };
    let wanted = Wanted::Offers;
    read_offers(word).ok_or(Misfit::Value { name, word, wanted })
}

/// The TCP port that an option names.
pub(crate) fn port_of<'a>(matches: &ArgMatches<'a>, name: &'a str) -> Result<u16, Misfit<'a>>
    ensures { (port : ℕ) → IsOkAnd result (λ it. it ≡ port)
        ↔ IsValue IsPortText name.now (rows_of (found_of matches.now)) port }
{
    let word = value_of(matches, name)?;
    let wanted = Wanted::Port;
    read_port(word).ok_or(Misfit::Value { name, word, wanted })
}

/// The count of seconds that an option names.
pub(crate) fn seconds_of<'a>(matches: &ArgMatches<'a>, name: &'a str) -> Result<u16, Misfit<'a>>
    ensures { (seconds : ℕ) → IsOkAnd result (λ it. it ≡ seconds)
        ↔ IsValue IsSecondsText name.now (rows_of (found_of matches.now)) seconds }
{
    let word = value_of(matches, name)?;
    let wanted = Wanted::Seconds;
    read_seconds(word).ok_or(Misfit::Value { name, word, wanted })
}

/// The count of turns that an option names.
pub(crate) fn turns_of<'a>(matches: &ArgMatches<'a>, name: &'a str) -> Result<u64, Misfit<'a>>
    ensures { (turns : ℕ) → IsOkAnd result (λ it. it ≡ turns)
        ↔ IsValue IsTurnsText name.now (rows_of (found_of matches.now)) turns }
{
    let word = value_of(matches, name)?;
    let wanted = Wanted::Turns;
    read_turns(word).ok_or(Misfit::Value { name, word, wanted })
}

/// The IPv4 address that an option names.
pub(crate) fn next_hop4_of<'a>(matches: &ArgMatches<'a>, name: &'a str) -> Result<u32, Misfit<'a>>
    ensures { (number : ℕ) → IsOkAnd result (λ it. it ≡ number)
        ↔ IsValue IsNextHop4Text name.now (rows_of (found_of matches.now)) number }
{
    let word = value_of(matches, name)?;
    let wanted = Wanted::Ipv4;
    read_next_hop4(word).ok_or(Misfit::Value { name, word, wanted })
}

/// The IPv6 address that an option names.
pub(crate) fn next_hop6_of<'a>(matches: &ArgMatches<'a>, name: &'a str) -> Result<u128, Misfit<'a>>
    ensures { (number : ℕ) → IsOkAnd result (λ it. it ≡ number)
        ↔ IsValue IsNextHop6Text name.now (rows_of (found_of matches.now)) number }
{
    let word = value_of(matches, name)?;
    let wanted = Wanted::Ipv6;
    read_next_hop6(word).ok_or(Misfit::Value { name, word, wanted })
}

/// The prefix that an option names, if it is given.
pub(crate) fn prefix_of<'a>(
    matches: &ArgMatches<'a>,
    name: &'a str,
) -> Result<Option<Prefix>, Misfit<'a>>
    ensures { (prefix : Maybe PrefixBits) → IsOkAnd result (λ it. it ≡ prefix)
        ↔ IsOptional IsPrefixText name.now (rows_of (found_of matches.now)) prefix }
{
    let Some(word) = matches.get_str(name) else {
        return Ok(None);
    };
    let wanted = Wanted::Prefix;
    match read_prefix(word) {
        Some(prefix) => Ok(Some(prefix)),
        None => Err(Misfit::Value { name, word, wanted }),
    }
}

/// Whether the prefix that an option names is given with bits after its length.
pub(crate) fn is_cleared(matches: &ArgMatches<'_>, name: &str) -> bool
    ensures { IsTrue result
        ↔ IsSomeAnd (first_of name.now (rows_of (found_of matches.now))) HasBitsAfter }
{
    match matches.get_str(name) {
        Some(word) => has_bits_after(word),
        None => false,
    }
}

/// The TCP port that an option names, if it is given.
pub(crate) fn optional_port_of<'a>(
    matches: &ArgMatches<'a>,
    name: &'a str,
) -> Result<Option<u16>, Misfit<'a>>
    ensures { (port : Maybe ℕ) → IsOkAnd result (λ it. it ≡ port)
        ↔ IsOptional IsPortText name.now (rows_of (found_of matches.now)) port }
{
    let Some(word) = matches.get_str(name) else {
        return Ok(None);
    };
    let wanted = Wanted::Port;
    match read_port(word) {
        Some(port) => Ok(Some(port)),
        None => Err(Misfit::Value { name, word, wanted }),
    }
}

/// The number of a connection that an option names, if it is given.
pub(crate) fn connection_of<'a>(
    matches: &ArgMatches<'a>,
    name: &'a str,
) -> Result<Option<usize>, Misfit<'a>>
    ensures { (connection : Maybe ℕ) → IsOkAnd result (λ it. it ≡ connection)
        ↔ IsOptional IsPositiveText name.now (rows_of (found_of matches.now)) connection }
{
    let Some(word) = matches.get_str(name) else {
        return Ok(None);
    };
    let wanted = Wanted::Positive;
    match read_positive(word) {
        Some(number) => Ok(Some(number as usize)),
        None => Err(Misfit::Value { name, word, wanted }),
    }
}
