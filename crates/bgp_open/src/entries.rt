//! Capabilities whose values are entries of one size, one after another.

ghost use Rattle.std.specs.Prelude.{◌≡◌, ◌<◌};
ghost use Rattle.bgp_open.specs.RouteOffer.{are_entries};

/// Whether the octets are entries of `size` octets, and at least one.
pub(crate) fn are_entries(value: &[u8], size: usize) -> bool
    requires { 0 < size }
    ensures { result ≡ are_entries size value.now }
{
    !value.is_empty() && value.len() % size == 0
}
