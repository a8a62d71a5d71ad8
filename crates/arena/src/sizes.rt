// The sizes that blocks have.
ghost use Rattle.std.specs.Prelude.{◌≡◌, ◌^◌, ◌<◌, ◌≤◌, ◌%◌};
ghost use Rattle.arena.specs.Sizes.{last_unit, low_bits, block_size};

use crate::memory::UNIT;

/// How many lists of blocks there are. Larger blocks than the last one's, of 128 GiB, have none.
pub(crate) const LISTS: usize = 128;

/// Returns how many units hold so many octets, less one.
fn last_unit(size: usize) -> usize
    ensures { result ≡ last_unit size }
{
    size.saturating_sub(1) / UNIT
}

/// Returns how many bits a number has but for its three highest.
fn low_bits(number: usize) -> u32
    ensures { (result ≡ low_bits number) × (result < 62) }
{
    (usize::BITS - number.leading_zeros()).saturating_sub(3)
}

/// Returns the octets of the block for so many octets.
pub(crate) fn block_size(size: usize) -> usize
    requires { size < 2 ^ 63 }
    ensures { result ≡ block_size size }
{
    let last = last_unit(size);
    let bits = low_bits(last);
    (((last >> bits) + 1) << bits) * UNIT
}

/// Returns the number of the list for blocks of this size.
pub(crate) fn list_of(size: usize) -> usize
    requires { size < 2 ^ 63 }
{
    let last = last_unit(size);
    let bits = low_bits(last);
    (last >> bits) + 4 * bits as usize
}
