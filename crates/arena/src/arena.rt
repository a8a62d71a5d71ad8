// The allocator.
ghost use Rattle.std.specs.Prelude.{◌≡◌, ◌^◌, ◌<◌, ◌≤◌, ◌%◌, IfSome};
ghost use Rattle.arena.specs.Sizes.{block_size};
ghost use Rattle.arena.specs.Blocks.{block_token};

use crate::freed::Freed;
use crate::memory::{Memory, UNIT};
use crate::sizes::{LISTS, block_size, list_of};
use std::alloc::{AllocError, Allocator};
use std::array::from_fn;
use std::cell::Cell;

/// An allocator over memory that was handed over, for one thread: `&Arena` serves std's collections.
/// Its blocks are aligned to 16.
#[derive(Drop)]
pub struct Arena {
    // What no block has had.
    rest: Cell<Option<Memory>>,
    // The blocks that came back, those of a size in one list.
    freed: [Cell<Freed>; LISTS],
    // Whether there was no block for a request.
    refused: Cell<bool>,
}

impl Arena {
    /// Makes an allocator over this memory.
    pub fn new(memory: Memory) -> Arena {
        Arena {
            rest: Cell::new(Some(memory)),
            freed: from_fn(|_| Cell::new(Freed::new())),
            refused: Cell::new(false),
        }
    }

    /// Returns whether a request was refused.
    pub fn has_refused(&self) -> bool {
        self.refused.get()
    }

    /// Takes a block for so many octets, if there is one, and keeps in mind if there was none.
    fn take(&self, size: usize, align: usize) -> Option<Memory>
        ensures { IfSome result (λ m. (m.size ≡ block_size size) × (size < 2 ^ 63) × (align ≤ 16)) }
    {
        let block = self.find(size, align);
        if block.is_none() {
            self.refused.set(true);
        }
        block
    }

    /// Takes a block for so many octets, if there is one.
    fn find(&self, size: usize, align: usize) -> Option<Memory>
        ensures { IfSome result (λ m. (m.size ≡ block_size size) × (size < 2 ^ 63) × (align ≤ 16)) }
    {
        if align > UNIT || size > isize::MAX as usize {
            return None;
        }
        let list = list_of(size);
        let size = block_size(size);
        match self.reuse(list, size) {
            Some(block) => Some(block),
            None => self.cut(size),
        }
    }

    /// Takes a block of this size out of a list.
    fn reuse(&self, list: usize, size: usize) -> Option<Memory>
        ensures { IfSome result (λ m. m.size ≡ size) }
    {
        let slot = self.freed.get(list)?;
        let (left, block) = slot.replace(Freed::new()).pop();
        slot.set(left);
        let (found, block) = block?.with_size();
        if found == size { Some(block) } else { None }
    }

    /// Cuts a block of this size from the front of what no block has had.
    fn cut(&self, size: usize) -> Option<Memory>
        requires { size % 16 ≡ 0 }
        ensures { IfSome result (λ m. m.size ≡ size) }
    {
        let (left, memory) = self.rest.replace(None)?.with_size();
        if left < size {
            self.rest.set(Some(memory));
            return None;
        }
        let (block, rest) = memory.split(size);
        self.rest.set(Some(rest));
        Some(block)
    }

    /// Puts the block for so many octets into its list.
    fn give(&self, block: Memory, size: usize)
        requires { (block.size ≡ block_size size) × (size < 2 ^ 63) }
    {
        if let Some(slot) = self.freed.get(list_of(size)) {
            slot.set(slot.replace(Freed::new()).push(block));
        }
    }
}

unsafe impl Allocator for Arena {
    ghost dealloc_token = { λ _. block_token };

    fn allocate(&self, size: usize, align: usize) -> Result<*mut u8, AllocError> {
        match self.take(size, align) {
            Some(Memory { ptr, size: _ }) => Ok(ptr),
            None => Err(AllocError),
        }
    }

    unsafe fn deallocate(&self, ptr: *mut u8, size: usize, _align: usize) {
        let block = Memory {
            ptr,
            size: block_size(size),
        };
        self.give(block, size);
    }
}
