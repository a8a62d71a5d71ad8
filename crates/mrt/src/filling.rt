//! Reads of as many octets as are wanted, and of no more.

ghost use Rattle.std.specs.Prelude.{◌≡◌, ◌<◌, ◌≤◌, ℕ, List, IfOk, OnErr, IsTrue, length, take};
ghost use Rattle.mrt.specs.Failures.{failures_after};
ghost use Rattle.mrt.specs.Passing.{IsPassed};

use crate::failure::Failed;
use crate::source::Source;

/// Fills the buffer from its front, unless the source ends or fails before. Answers how many octets
/// it gave: fewer than there is room for only where it has ended. It asks for no more than that.
pub fn fill<S: Source>(source: &mut S, buffer: &mut [u8]) -> Result<usize, Failed>
    requires { S.failures source.old < u64.MAX }
    ensures room { length buffer.new ≡ length buffer.old }
    ensures bound { IfOk result (λ count. count ≤ length buffer.new) }
    ensures ok { IfOk result (λ count. S.gives source.old source.new (take count buffer.new)) }
    ensures ended { IfOk result (λ count. count < length buffer.new
        → IsTrue (S.has_ended source.new)) }
    ensures err { OnErr result ((taken : List ℕ) × S.gives source.old source.new taken
        × (length taken < length buffer.new)) }
    ensures failures { S.failures source.new ≡ failures_after (S.failures source.old) result }
{
    let mut filled = 0;
    while filled < buffer.len() {
        let count = source.read(&mut buffer[filled..])?;
        if count == 0 {
            return Ok(filled);
        }
        filled += count;
    }
    Ok(filled)
}

/// The most octets that are passed over at once.
pub const BLOCK: u32 = 4096;

/// Passes over so many octets, in pieces of at most [`BLOCK`], unless the source ends or fails
/// before. Answers whether it passed over all.
pub fn pass_over<S: Source>(source: &mut S, buffer: &mut [u8], count: u32) -> Result<bool, Failed>
    requires room { BLOCK ≤ length buffer.old }
    requires failures { S.failures source.old < u64.MAX }
    ensures room { length buffer.new ≡ length buffer.old }
    ensures passed { IfOk result (λ all. (taken : List ℕ)
        × S.gives source.old source.new taken
        × IsPassed taken count (S.has_ended source.new) all) }
    ensures err { OnErr result ((taken : List ℕ) × S.gives source.old source.new taken
        × (length taken < count)) }
    ensures failures { S.failures source.new ≡ failures_after (S.failures source.old) result }
{
    let mut left = count;
    while left > 0 {
        let room = left.min(BLOCK);
        let passed = fill(source, &mut buffer[..room as usize])?;
        if passed < room as usize {
            return Ok(false);
        }
        left -= room;
    }
    Ok(true)
}
