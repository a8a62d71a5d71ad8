//! The segments of AS_PATH and AS4_PATH (RFC 4271, 4.3 b; RFC 5065, 3; RFC 6793, 3).
//!
//! ```text
//!  0      1       2
//! +------+-------+------------------+
//! | type | count | AS numbers       |  of two octets each, or of four
//! +------+-------+------------------+
//! ```

ghost use Rattle.std.specs.Prelude.{◌≡◌, ◌==◌, ◌<◌, ◌≤◌, ◌∷◌, [], true, false};
ghost use Rattle.std.specs.Prelude.{IfNone, IfSome, drop, length, slice_index};
ghost use Rattle.bgp_update.specs.PathIn.{segment_at};
ghost use Rattle.bgp_update.specs.Segments.{are_segments, has_segment, number_width, segment_len};
ghost use Rattle.bgp_values.specs.PathSegments.{segment_of, segments_of};

/// AS_CONFED_SET, the last of the segment types (RFC 5065, 3).
const AS_CONFED_SET: u8 = 4;

/// A segment of a path.
#[derive(Clone, Copy)]
pub struct Segment<'a> {
    /// The type, 1 to 4.
    pub kind: u8,
    /// How many AS numbers there are.
    pub count: u8,
    /// The octets of the AS numbers.
    pub numbers: &'a [u8],
}

/// Returns how many octets an AS number has.
fn number_width(as4: bool) -> usize
    ensures width { result ≡ number_width as4 }
    ensures bound { result ≤ 4 }
{
    if as4 { 4 } else { 2 }
}

/// Returns what follows the segment at the front. Returns none if no whole segment stands there,
/// with at least one AS number of `width` octets.
#[tactic(auto, unfolding(bgp_attr::specs::Segments::has_segment))]
fn after_segment(width: usize, octets: &[u8]) -> Option<&[u8]>
    requires { width ≤ 4 }
    ensures some { IfSome result (λ _. has_segment 4 width octets.entry.now ≡ true) }
    ensures rest { IfSome result
        (λ rest. rest.now ≡ drop (segment_len width octets.entry.now) octets.entry.now) }
    ensures none { IfNone result (has_segment 4 width octets.entry.now ≡ false) }
{
    if octets.len() < 2 {
        return None;
    }
    let (kind, count) = (octets[0], octets[1]);
    let len = 2 + width * usize::from(count);
    if kind < 1 || kind > AS_CONFED_SET || count < 1 || octets.len() < len {
        return None;
    }
    Some(octets.split_at(len).1)
}

/// Returns the segment that stands at the front.
fn segment_at(as4: bool, octets: &[u8]) -> Segment<'_>
    requires { has_segment 4 (number_width as4) octets.now ≡ true }
    ensures kind { result.kind ≡ slice_index octets.entry.now 0 }
    ensures count { result.count ≡ slice_index octets.entry.now 1 }
    ensures numbers { result.numbers.now
        ≡ (segment_at (number_width as4) octets.entry.now).numbers }
{
    let kind = octets[0];
    let count = octets[1];
    let len = number_width(as4) * usize::from(count);
    Segment {
        kind,
        count,
        numbers: octets.split_at(2).1.split_at(len).0,
    }
}

/// Returns the segment at the front, and what stands behind it.
pub fn first_segment(as4: bool, octets: &[u8]) -> Option<(Segment<'_>, &[u8])>
    ensures some { IfSome result (λ r. segments_of (number_width as4) octets.entry.now
        ≡ segment_of r.0 ∷ segments_of (number_width as4) r.1.now) }
    ensures whole { IfSome result (λ r. are_segments 4 (number_width as4) octets.entry.now
        ≡ are_segments 4 (number_width as4) r.1.now) }
    ensures shorter { IfSome result (λ r. length r.1.now < length octets.entry.now) }
    ensures none { IfNone result (segments_of (number_width as4) octets.entry.now ≡ []) }
    ensures end { IfNone result (are_segments 4 (number_width as4) octets.entry.now
        ≡ (length octets.entry.now == 0)) }
{
    let Some(others) = after_segment(number_width(as4), octets) else {
        return None;
    };
    Some((segment_at(as4, octets), others))
}

/// Checks whether octets are segments and nothing else.
pub(crate) fn are_segments(as4: bool, octets: &[u8]) -> bool
    ensures { result ≡ are_segments 4 (number_width as4) octets.now }
{
    let mut rest = octets;
    while let Some((_, others)) = first_segment(as4, rest) {
        rest = others;
    }
    rest.is_empty()
}
