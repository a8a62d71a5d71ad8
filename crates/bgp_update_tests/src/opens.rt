//! OPEN and NOTIFICATION messages whose meaning was worked out by hand.

/// A message of fewer than 256 octets: an all-255 marker, the first octet of the Length, and these:
/// its second octet, the Type and the body.
macro_rules! message {
    ($($octet:expr),*) => {
        &[
            255, 255, 255, 255, 255, 255, 255, 255, 255, 255, 255, 255, 255, 255, 255, 255, 0,
            $($octet),*
        ]
    };
}

mod faults;
mod negotiation;
mod reading;
mod writing;

use bgp_open::{Config, ConfigParts, Families, OpenSubcodes, negotiate, open_faults, read_open};
use bgp_vectors::ROUTER_A;
use std::process::Abort;

const BOTH: Families = Families { v4: true, v6: true };

/// The row holds. A call of this is proved more quickly than an assertion with a message.
fn assert_row(rt: &impl Abort, holds: bool, lesson: &str) {
    assert!(rt; holds, "{lesson}");
}

/// Whether the set has these subcodes and no others, and 1 only with its data. Subcode N is the bit
/// of 2 to the power of N.
fn has_just(errors: &OpenSubcodes, wanted: u16) -> bool {
    let mut has_just = errors.is_empty() == (wanted == 0);
    for subcode in 0..12u8 {
        let is_wanted = wanted >> subcode & 1 == 1;
        let is_free = is_wanted && subcode != 1;
        let version_4 = [0x00, 0x04];
        has_just = has_just
            && errors.contains(subcode, &version_4) == is_wanted
            && errors.contains(subcode, &[]) == is_free;
    }
    has_just
}
