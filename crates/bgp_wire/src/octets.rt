//! Octets and numbers, the highest octet first, appended to a vector that has room for them: a
//! writer makes room for a whole message, and what it appends then can't be refused.

ghost use Rattle.std.specs.Prelude.{◌≡◌, ◌+◌, ◌≤◌, ◌++◌, ◌∷◌, [], length, vec_len, vec_capacity};
ghost use Rattle.byteorder.specs.Endian.{big_bytes};

use byteorder::{BigEndian, ByteOrder};
use std::alloc::Allocator;

/// Appends octets for which there is room.
pub fn put<A: Allocator>(out: &mut Vec<u8, A>, octets: &[u8])
    requires { vec_len out.old + length octets.now ≤ vec_capacity out.old }
    ensures items { out.new.items ≡ out.old.items ++ octets.now }
    ensures len { vec_len out.new ≡ vec_len out.old + length octets.now }
    ensures capacity { vec_capacity out.old ≤ vec_capacity out.new }
{
    // It can't fail where there is room.
    let _ = out.extend_from_slice(octets);
}

/// Appends one octet.
pub fn put_u8<A: Allocator>(out: &mut Vec<u8, A>, octet: u8)
    requires { vec_len out.old + 1 ≤ vec_capacity out.old }
    ensures items { out.new.items ≡ out.old.items ++ octet ∷ [] }
    ensures len { vec_len out.new ≡ vec_len out.old + 1 }
    ensures capacity { vec_capacity out.old ≤ vec_capacity out.new }
{
    put(out, &[octet]);
}

/// Appends a number in two octets.
pub fn put_u16<A: Allocator>(out: &mut Vec<u8, A>, number: u16)
    requires { vec_len out.old + 2 ≤ vec_capacity out.old }
    ensures items { out.new.items ≡ out.old.items ++ big_bytes 2 number }
    ensures len { vec_len out.new ≡ vec_len out.old + 2 }
    ensures capacity { vec_capacity out.old ≤ vec_capacity out.new }
{
    let mut octets = [0; 2];
    BigEndian::write_u16(&mut octets, number);
    put(out, &octets);
}

/// Appends a number in four octets.
pub fn put_u32<A: Allocator>(out: &mut Vec<u8, A>, number: u32)
    requires { vec_len out.old + 4 ≤ vec_capacity out.old }
    ensures items { out.new.items ≡ out.old.items ++ big_bytes 4 number }
    ensures len { vec_len out.new ≡ vec_len out.old + 4 }
    ensures capacity { vec_capacity out.old ≤ vec_capacity out.new }
{
    let mut octets = [0; 4];
    BigEndian::write_u32(&mut octets, number);
    put(out, &octets);
}

/// Appends a number in eight octets.
pub fn put_u64<A: Allocator>(out: &mut Vec<u8, A>, number: u64)
    requires { vec_len out.old + 8 ≤ vec_capacity out.old }
    ensures items { out.new.items ≡ out.old.items ++ big_bytes 8 number }
    ensures len { vec_len out.new ≡ vec_len out.old + 8 }
    ensures capacity { vec_capacity out.old ≤ vec_capacity out.new }
{
    let mut octets = [0; 8];
    BigEndian::write_u64(&mut octets, number);
    put(out, &octets);
}
