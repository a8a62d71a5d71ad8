// Blocks of one size that came back.
ghost use Rattle.std.specs.Prelude.{◌≡◌, ◌%◌, ◌^◌, ◌-◌, ◌<◌, ◌≤◌, [], ◌∷◌, length, MatchOption};
ghost use Rattle.arena.specs.Chain.{span_of};

use crate::chain::Chain;
use crate::memory::Memory;

/// A chain of blocks, and how many it has.
#[derive(Drop)]
pub(crate) struct Freed {
    count: usize,
    chain: Chain,
    ghost counted: { count ≡ length chain.blocks },
}

impl Freed {
    /// Makes a list without blocks.
    pub(crate) fn new() -> Freed
        ensures { result.chain.blocks ≡ [] }
    {
        Freed {
            count: 0,
            chain: Chain::new(),
        }
    }

    /// Puts a block before the others. It is lost if a `usize` can't count them.
    pub(crate) fn push(self, block: Memory) -> Freed
        requires { (16 ≤ block.size) × (block.size % 16 ≡ 0) }
        ensures { self.count < 2 ^ 64 - 1 → result.chain.blocks ≡ span_of block.ptr block.size ∷ self.chain.blocks }
    {
        if self.count == usize::MAX {
            return self;
        }
        let Freed { count, chain } = self;
        Freed {
            count: count + 1,
            chain: chain.put(block),
        }
    }

    /// Takes the first block, if there is one.
    pub(crate) fn pop(self) -> (Freed, Option<Memory>)
        ensures { MatchOption result.1 (self.chain.blocks ≡ []) (λ m. self.chain.blocks ≡ span_of m.ptr m.size ∷ result.0.chain.blocks) }
    {
        if self.count == 0 {
            return (self, None);
        }
        let Freed { count, chain } = self;
        let (block, chain) = chain.taken();
        let left = Freed {
            count: count - 1,
            chain,
        };
        (left, Some(block))
    }
}
