// Octets in which nothing lies.
ghost use Rattle.std.specs.Prelude.{◌≡◌, ◌-◌, ◌%◌, ◌^◌, ◌<◌, ◌≤◌, IfSome};
ghost use types.Logic.{sem};
ghost use Rattle.arena.specs.Octets.{octets_at};

use std::alloc::Allocator;
use std::marker::Model;

/// What sizes of blocks are multiples of, in octets. A block lies at a multiple of it, too.
pub(crate) const UNIT: usize = 16;

/// Memory that a caller hands over: `size` octets at `ptr`, which is a multiple of 16. Nothing lies
/// there, and from then on nobody else reads or writes them.
#[repr(C)]
#[derive(Drop)]
pub struct Memory {
    pub(crate) ptr: *mut u8,
    pub(crate) size: usize,
}

impl Model for Memory {
    ghost also_owns = { λ m. octets_at m.ptr m.size };
}

impl Memory {
    /// Takes over the octets at a place.
    pub unsafe fn from_raw_parts(ptr: *mut u8, size: usize) -> Memory
        requires* memory { sem 𝓛 (octets_at ptr size) }
        ensures { (result.ptr ≡ ptr) × (result.size ≡ size) }
    {
        Memory { ptr, size }
    }

    /// Takes so many octets of another allocator, which never gets them back; or `None` if it refuses.
    pub fn from_allocator<A: Allocator>(alloc: &A, size: usize) -> Option<Memory>
        requires { (size % 16 ≡ 0) × (size < 2 ^ 63) }
        ensures { IfSome result (λ m. m.size ≡ size) }
    {
        match alloc.allocate(size, UNIT) {
            Ok(ptr) => Some(Memory { ptr, size }),
            Err(_) => None,
        }
    }

    /// Returns how many octets there are, and the memory again.
    pub(crate) fn with_size(self) -> (usize, Memory)
        ensures { (result.0 ≡ self.size) × (result.1 ≡ self) }
    {
        let Memory { ptr, size } = self;
        (size, Memory { ptr, size })
    }

    /// Cuts the first `size` octets off.
    pub(crate) fn split(self, size: usize) -> (Memory, Memory)
        requires { (size % 16 ≡ 0) × (size ≤ self.size) }
        ensures { (result.0.size ≡ size) × (result.1.size ≡ self.size - size) }
    {
        let Memory { ptr, size: whole } = self;
        let rest = unsafe { ptr.add(size) };
        let left = whole - size;
        (
            Memory { ptr, size },
            Memory {
                ptr: rest,
                size: left,
            },
        )
    }
}
