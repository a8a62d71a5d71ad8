//! AS numbers that need four octets, and what stands for them where there are two (RFC 6793).

ghost use Rattle.std.specs.Prelude.{◌≡◌};
ghost use Rattle.bgp_wire.specs.AsNumber.{needs_four_octets, two_octet_as};

/// AS_TRANS, which stands in two octets for an AS number that needs four (RFC 6793, 3 and 9).
pub const AS_TRANS: u16 = 23456;

/// Whether an AS number needs four octets: it is above 65535 (RFC 6793, 1).
pub fn needs_four_octets(number: u32) -> bool
    ensures { result ≡ needs_four_octets number }
{
    number > 65535
}

/// An AS number where there are two octets for it: itself, or AS_TRANS for one that needs four.
pub fn two_octet_as(number: u32) -> u16
    ensures { result ≡ two_octet_as number }
{
    u16::try_from(number).unwrap_or(AS_TRANS)
}
