//! Octets in pieces of one size, one after another: how capabilities and attributes have lists.

ghost use Rattle.std.specs.Prelude.{◌≡◌, ◌<◌, ◌∷◌, [], IfNone, IfSome, length};
ghost use Rattle.bgp_values.specs.Pieces.{are_pieces, are_some_pieces, pieces_of};

/// Returns the first piece of this size, and what stands behind it.
#[tactic(auto, using(crate::proofs::PieceLists::one_piece, crate::proofs::PieceLists::no_piece))]
pub fn first_piece(size: usize, octets: &[u8]) -> Option<(&[u8], &[u8])>
    requires { 0 < size }
    ensures some { IfSome result (λ r.
        pieces_of size octets.entry.now ≡ r.0.now ∷ pieces_of size r.1.now) }
    ensures size { IfSome result (λ r. length r.0.now ≡ size) }
    ensures shorter { IfSome result (λ r. length r.1.now < length octets.entry.now) }
    ensures none { IfNone result (pieces_of size octets.entry.now ≡ []) }
{
    if octets.len() < size {
        return None;
    }
    Some(octets.split_at(size))
}

/// Checks whether pieces of this size fill the octets.
pub(crate) fn are_pieces(size: usize, octets: &[u8]) -> bool
    requires { 0 < size }
    ensures { result ≡ are_pieces size octets.now }
{
    octets.len() % size == 0
}

/// Checks whether pieces of this size fill the octets, and there is one at least.
pub(crate) fn are_some_pieces(size: usize, octets: &[u8]) -> bool
    requires { 0 < size }
    ensures { result ≡ are_some_pieces size octets.now }
{
    !octets.is_empty() && are_pieces(size, octets)
}
