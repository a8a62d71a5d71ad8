//! Octets without those that they begin with. It takes no memory.

ghost use Rattle.bgp_json_values.specs.Fronts.{IsAfter};

/// Returns what is left of octets after this front, if they begin with it.
#[inline(always)]
pub(crate) fn after<'a>(front: &[u8], octets: &'a [u8]) -> Option<&'a [u8]>
    ensures { IsAfter front.now octets.entry.now result }
{
    if octets.len() < front.len() {
        return None;
    }
    let (begin, rest) = octets.split_at(front.len());
    if begin == front { Some(rest) } else { None }
}
