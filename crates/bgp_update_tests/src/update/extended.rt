//! How long an UPDATE may be that is sent: 4096 octets (RFC 4271, 4.1), or 65535 where the peer
//! offers extended messages (RFC 8654, 4).

use super::*;

/// The octets of an UPDATE besides the value of its unknown attribute: 19 of the header, 2 and 2 of
/// lengths, 24 of attributes, and a prefix of 2.
const BESIDES: u16 = 49;

/// An UPDATE of so many octets: ORIGIN IGP, AS_PATH 65002, NEXT_HOP 192.0.2.2, an optional
/// transitive attribute that isn't known, with zeros, and 10.0.0.0/8.
fn update_of(alloc: Global, length: u16) -> Result<Vec<u8>, AllocError> {
    let value = length.saturating_sub(BESIDES);
    let mut octets = Vec::new(alloc);
    octets.extend_from_slice(&[255; 16])?;
    octets.extend_from_slice(&length.to_be_bytes())?;
    octets.extend_from_slice(&[2, 0, 0])?;
    octets.extend_from_slice(&value.saturating_add(24).to_be_bytes())?;
    octets.extend_from_slice(&[
        0x40, 0x01, 0x01, 0x00, // ORIGIN
        0x40, 0x02, 0x06, 0x02, 0x01, 0x00, 0x00, 0xfd, 0xea, // AS_PATH
        0x40, 0x03, 0x04, 0xc0, 0x00, 0x02, 0x02, // NEXT_HOP
        0xd0, 0x63, // flags with Extended Length, type 99
    ])?;
    octets.extend_from_slice(&value.to_be_bytes())?;
    octets.resize(usize::from(length).saturating_sub(2), 0)?;
    octets.extend_from_slice(&[8, 10])?;
    Ok(octets)
}

/// Whether the peer offers extended messages, the octets of an UPDATE, and whether it is clean.
static LENGTHS: [(bool, u16, bool); 6] = [
    (false, 4096, true),
    (false, 4097, false),
    (false, 65535, false),
    (true, 4096, true),
    (true, 4097, true),
    (true, 65535, true),
];

/// Whether an UPDATE is clean where it is to be, and none with an octet more; and how it is read:
/// whether it is longer than one may be that is sent makes no difference.
fn is_as_wanted(alloc: Global, extended: bool, length: u16, is_wanted: bool) -> Option<bool> {
    let link = link(extended)?;
    let mut octets = update_of(alloc, length).ok()?;
    let is_told = is_clean(&link, &octets) == is_wanted;
    let outcomes = read_update(alloc, &link, &octets).ok()?;
    let is_put = are_put(&outcomes.changes, 1);
    octets.push(0).ok()?;
    Some(is_told && is_put && !is_clean(&link, &octets))
}

#[test]
fn a_clean_update_is_no_longer_than_the_peer_takes(rt: HostRuntime) {
    for (extended, length, is_wanted) in &LENGTHS {
        assert!(rt; is_as_wanted(rt.alloc(), *extended, *length, *is_wanted) == Some(true));
    }
}

/// The most octets that the peer takes.
fn most(extended: bool) -> Option<u16> {
    Some(most_octets(&link(extended)?))
}

#[test]
fn the_peer_takes_4096_octets_or_65535(rt: HostRuntime) {
    assert!(rt; most(false) == Some(4096) && most(true) == Some(65535));
}
