// Blocks that came back, each of which holds where the next one is.
ghost use Rattle.std.specs.Prelude.{◌≡◌, ◌%◌, ◌≤◌, List, [], ◌∷◌};
ghost use Rattle.arena.specs.Chain.{Span, span_of, links};

use crate::memory::Memory;
use std::marker::Model;
use std::ptr::null_mut;

/// What a block that came back holds in its first 16 octets: its size, and where the next one is.
#[repr(C)]
pub(crate) struct Node {
    size: usize,
    next: *mut u8,
}

/// A list of such blocks. Nothing marks its end: whoever takes from it knows how many there are.
#[derive(Drop)]
pub(crate) struct Chain {
    first: *mut u8,
    ghost blocks: { List Span },
}

impl Model for Chain {
    ghost also_owns = { λ c. links c.blocks c.first };
}

impl Chain {
    /// Makes a chain without blocks.
    pub(crate) fn new() -> Chain
        ensures { result.blocks ≡ [] }
    {
        Chain { first: null_mut() }
    }

    /// Puts a block before the others.
    pub(crate) fn put(self, memory: Memory) -> Chain
        requires { (16 ≤ memory.size) × (memory.size % 16 ≡ 0) }
        ensures { result.blocks ≡ span_of memory.ptr memory.size ∷ self.blocks }
    {
        let Chain { first } = self;
        let Memory { ptr, size } = memory;
        let node = ptr as *mut Node;
        unsafe { node.write(Node { size, next: first }) };
        Chain { first: ptr }
    }

    /// Takes the first block.
    pub(crate) fn taken(self) -> (Memory, Chain)
        requires { ¬ (self.blocks ≡ []) }
        ensures { self.blocks ≡ span_of result.0.ptr result.0.size ∷ result.1.blocks }
    {
        let Chain { first } = self;
        unsafe {
            let node = first as *mut Node;
            let size = (*node).size;
            let next = (*node).next;
            (Memory { ptr: first, size }, Chain { first: next })
        }
    }
}
