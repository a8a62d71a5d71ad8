//! Laws of prefixes, of the octets that spell them and of their texts.

ghost use Rattle.std.specs.Prelude.{◌≡◌, ◌≤◌, ◌<◌, ℕ, List, All, true, length};
ghost use Rattle.bgp_prefix.specs.Address.{IsAddress};
ghost use Rattle.bgp_prefix.specs.Prefix.{
  PrefixBits,
  IsPrefix,
  IsPrefixSpelling,
  HasZerosAfter,
  BeginsWithPrefix,
  prefix_octets,
  prefix_length,
  prefix_of,
  address_of,
};
ghost use Rattle.bgp_prefix.specs.PrefixOrder.{prefix_eq};
ghost use Rattle.bgp_prefix.specs.Text.{address_text, prefix_text, longest_zeros};
ghost use Rattle.bgp_prefix.specs.Notation.{IsAddressText, IsPrefixText};
ghost use Rattle.bgp_prefix.specs.ZeroRun.{IsShortenedRun};
ghost use Rattle.bgp_prefix.specs.declared.family.Family.{Family};
ghost use Rattle.bgp_prefix.specs.declared.address.Address.{Address};

/// Octets begin with at most one prefix of a family, and as many of them spell it (RFC 4271, 4.3).
pub fn octets_begin_with_one_prefix()
    ensures { (family : Family) (octets : List ℕ) (p q : PrefixBits) (m n : ℕ)
        → BeginsWithPrefix family octets p m → BeginsWithPrefix family octets q n
        → (p ≡ q) × (m ≡ n) }
{}

/// What [`Prefix::write`](crate::Prefix::write) appends spells the prefix, and the bits after it
/// are zeros: no other octets are so. [`Prefix::read`](crate::Prefix::read) gives the prefix of
/// octets that spell one, by its clause `exact`.
pub fn written_octets_spell_the_prefix()
    ensures spelling { (prefix : PrefixBits) → IsPrefix prefix
        → IsPrefixSpelling prefix (prefix_octets prefix) }
    ensures zeros { (prefix : PrefixBits) → HasZerosAfter prefix (prefix_octets prefix) }
    ensures unique { (prefix : PrefixBits) (octets : List ℕ) → All (λ octet. octet < 256) octets
        → IsPrefixSpelling prefix octets → HasZerosAfter prefix octets
        → octets ≡ prefix_octets prefix }
{}

/// The address of a prefix is one of its own: its first bits are the prefix.
pub fn each_prefix_is_that_of_its_address()
    ensures address { (prefix : PrefixBits) → IsPrefix prefix → IsAddress (address_of prefix) }
    ensures prefix { (prefix : PrefixBits) → IsPrefix prefix
        → prefix_of (address_of prefix) (prefix_length prefix) ≡ prefix }
{}

/// Equality is real: prefixes that `==` doesn't tell apart are one.
pub fn equal_prefixes_are_one()
    ensures { (p q : PrefixBits) → prefix_eq p q ≡ true → p ≡ q }
{}

/// What is printed of an address or a prefix is read as it.
pub fn printed_texts_are_read()
    ensures address { (address : Address) → IsAddress address
        → IsAddressText (address_text address) address }
    ensures prefix { (prefix : PrefixBits) → IsPrefix prefix
        → IsPrefixText (prefix_text prefix) prefix }
{}

/// The run of zeros that a printed IPv6 address has `::` for is the first of the longest ones, of
/// two groups at least (RFC 5952, 4.2).
pub fn the_shortened_run_is_the_first_longest()
    ensures { (groups : List ℕ) → length groups ≤ 8
        → IsShortenedRun groups (longest_zeros 8 groups) }
{}
