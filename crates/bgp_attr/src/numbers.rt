//! Lists of numbers as the octets of an attribute hold them (RFC 1997; 4360; 4456, 8).

ghost use Rattle.std.specs.Prelude.{◌≡◌, ◌*◌, ◌≤◌, ◌<◌, IfSome, IfNone, IfOk, length, drop};
ghost use Rattle.byteorder.specs.Endian.{big_number};
ghost use Rattle.bgp_attr.specs.Numbers.{items_in};

use arrayvec::ArrayVec;
use bgp_path::Numbers;
use byteorder::{BigEndian, ByteOrder};
use std::alloc::{AllocError, Allocator};

/// The number in the first two octets, and what follows them.
fn split_u16(octets: &[u8]) -> Option<(u16, &[u8])>
    ensures enough { IfSome result (λ _. 2 ≤ length octets.now) }
    ensures number { IfSome result (λ r. r.0 ≡ big_number 2 octets.now) }
    ensures rest { IfSome result (λ r. r.1.now ≡ drop 2 octets.now) }
    ensures none { IfNone result (length octets.now < 2) }
{
    if octets.len() < 2 {
        return None;
    }
    let (front, rest) = octets.split_at(2);
    Some((BigEndian::read_u16(front), rest))
}

/// The number in the first four octets, and what follows them.
fn split_u32(octets: &[u8]) -> Option<(u32, &[u8])>
    ensures enough { IfSome result (λ _. 4 ≤ length octets.now) }
    ensures number { IfSome result (λ r. r.0 ≡ big_number 4 octets.now) }
    ensures rest { IfSome result (λ r. r.1.now ≡ drop 4 octets.now) }
    ensures none { IfNone result (length octets.now < 4) }
{
    if octets.len() < 4 {
        return None;
    }
    let (front, rest) = octets.split_at(4);
    Some((BigEndian::read_u32(front), rest))
}

/// The number in the first eight octets, and what follows them.
fn split_u64(octets: &[u8]) -> Option<(u64, &[u8])>
    ensures enough { IfSome result (λ _. 8 ≤ length octets.now) }
    ensures number { IfSome result (λ r. r.0 ≡ big_number 8 octets.now) }
    ensures rest { IfSome result (λ r. r.1.now ≡ drop 8 octets.now) }
    ensures none { IfNone result (length octets.now < 8) }
{
    if octets.len() < 8 {
        return None;
    }
    let (front, rest) = octets.split_at(8);
    Some((BigEndian::read_u64(front), rest))
}

/// So many of them take no memory.
const FEW: usize = 8;

/// A list of numbers of two octets each.
pub(crate) fn u16_numbers<A: Allocator>(alloc: A, octets: &[u8]) -> Result<Numbers<A>, AllocError>
    ensures { IfOk result (λ numbers. numbers ≡ items_in 2 octets.now) }
{
    if octets.len() <= 2 * FEW {
        return Ok(Numbers::from(few_u16s(octets)));
    }
    Ok(Numbers::from(read_u16s(alloc, octets)?))
}

/// A list of numbers of four octets each.
pub(crate) fn u32_numbers<A: Allocator>(alloc: A, octets: &[u8]) -> Result<Numbers<A>, AllocError>
    ensures { IfOk result (λ numbers. numbers ≡ items_in 4 octets.now) }
{
    if octets.len() <= 4 * FEW {
        return Ok(Numbers::from(few_u32s(octets)));
    }
    Ok(Numbers::from(read_u32s(alloc, octets)?))
}

/// So few numbers of two octets each.
fn few_u16s(octets: &[u8]) -> ArrayVec<u32, 8>
    requires { length octets.now ≤ 2 * 8 }
    ensures { result.items ≡ items_in 2 octets.now }
{
    let mut numbers = ArrayVec::new();
    let mut rest = octets;
    while let Some((number, after)) = split_u16(rest) {
        numbers.push(u32::from(number));
        rest = after;
    }
    numbers
}

/// So few numbers of four octets each.
fn few_u32s(octets: &[u8]) -> ArrayVec<u32, 8>
    requires { length octets.now ≤ 4 * 8 }
    ensures { result.items ≡ items_in 4 octets.now }
{
    let mut numbers = ArrayVec::new();
    let mut rest = octets;
    while let Some((number, after)) = split_u32(rest) {
        numbers.push(number);
        rest = after;
    }
    numbers
}

/// The numbers of two octets each.
fn read_u16s<A: Allocator>(alloc: A, octets: &[u8]) -> Result<Vec<u32, A>, AllocError>
    ensures { IfOk result (λ numbers. numbers.items ≡ items_in 2 octets.now) }
{
    let mut numbers = Vec::with_capacity(alloc, octets.len() / 2)?;
    let mut rest = octets;
    while let Some((number, after)) = split_u16(rest) {
        numbers.push(u32::from(number))?;
        rest = after;
    }
    Ok(numbers)
}

/// The numbers of four octets each.
pub(crate) fn read_u32s<A: Allocator>(alloc: A, octets: &[u8]) -> Result<Vec<u32, A>, AllocError>
    ensures { IfOk result (λ numbers. numbers.items ≡ items_in 4 octets.now) }
{
    let mut numbers = Vec::with_capacity(alloc, octets.len() / 4)?;
    let mut rest = octets;
    while let Some((number, after)) = split_u32(rest) {
        numbers.push(number)?;
        rest = after;
    }
    Ok(numbers)
}

/// The numbers of eight octets each.
pub(crate) fn read_u64s<A: Allocator>(alloc: A, octets: &[u8]) -> Result<Vec<u64, A>, AllocError>
    ensures { IfOk result (λ numbers. numbers.items ≡ items_in 8 octets.now) }
{
    let mut numbers = Vec::with_capacity(alloc, octets.len() / 8)?;
    let mut rest = octets;
    while let Some((number, after)) = split_u64(rest) {
        numbers.push(number)?;
        rest = after;
    }
    Ok(numbers)
}
