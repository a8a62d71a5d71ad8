//! A fault as a NOTIFICATION names it (RFC 4271, 4.5).

ghost use Rattle.std.specs.Prelude.{◌≡◌, ◌≤◌, length};

use arrayvec::ArrayVec;

/// A fault of a message, as a NOTIFICATION names it. It takes no memory.
#[derive(Debug, Drop, PartialEq, Eq)]
pub struct NamedFault {
    /// The Error code.
    pub code: u8,
    /// The Error subcode.
    pub subcode: u8,
    /// The Data, at most two octets, as the faults have whose data RFC 4271, 6.1 and 6.2, fix: the
    /// Length field, the Type field, and the version that is spoken.
    pub detail: ArrayVec<u8, 2>,
}

impl NamedFault {
    /// The fault with this code, this subcode and these data.
    pub fn new(code: u8, subcode: u8, detail: &[u8]) -> NamedFault
        requires { length detail.now ≤ 2 }
        ensures code { result.code ≡ code }
        ensures subcode { result.subcode ≡ subcode }
        ensures detail { result.detail.items ≡ detail.now }
    {
        let mut octets = ArrayVec::new();
        // It can't fail where there is room.
        let _ = octets.try_extend_from_slice(detail);
        NamedFault {
            code,
            subcode,
            detail: octets,
        }
    }
}
