//! Numbers of which most lists have few, as the AS numbers of a segment.

ghost use Rattle.std.specs.Prelude.{◌≡◌, ◌≤◌, [], length, IfOk};

use arrayvec::ArrayVec;
use std::alloc::{AllocError, Allocator, Global};
use std::marker::Model;

/// So many of them take no memory.
const FEW: usize = 8;

/// Where they stand.
#[derive(Drop)]
#[derive_where(Debug)]
pub(crate) enum Held<A: Allocator> {
    Few(ArrayVec<u32, 8>),
    Many(Vec<u32, A>),
}

/// Numbers in wire order, repeats kept. Two lists are equal where they hold the same numbers.
#[derive(Drop)]
#[derive_where(Debug)]
pub struct Numbers<A: Allocator = Global> {
    held: Held<A>,
}

impl<A: Allocator> Model for Numbers<A> {
    ghost use Rattle.std.specs.Prelude.{ℕ, List};
    ghost use Rattle.bgp_path.specs.Held.{held_numbers};

    ghost Value = { List ℕ };

    ghost view = { λ n. held_numbers n.held };
}

impl<A: Allocator> Numbers<A> {
    /// No numbers.
    pub fn new() -> Numbers<A>
        ensures empty { result ≡ [] }
    {
        Numbers::from(ArrayVec::new())
    }

    /// The numbers.
    pub fn as_slice(&self) -> &[u32]
        ensures numbers { result.now ≡ self.now }
    {
        match &self.held {
            Held::Few(few) => few.as_slice(),
            Held::Many(many) => many.as_slice(),
        }
    }

    /// A copy of these numbers.
    pub fn from_slice(alloc: A, numbers: &[u32]) -> Result<Numbers<A>, AllocError>
        ensures copy { IfOk result (λ copy. copy ≡ numbers.now) }
    {
        if numbers.len() <= FEW {
            return Ok(Numbers::from(few_of(numbers)));
        }
        Ok(Numbers::from(Vec::from_slice(alloc, numbers)?))
    }
}

/// A copy of so few numbers.
fn few_of(numbers: &[u32]) -> ArrayVec<u32, 8>
    requires { length numbers.now ≤ 8 }
    ensures { result.items ≡ numbers.now }
{
    let mut few = ArrayVec::new();
    let _fits = few.try_extend_from_slice(numbers);
    few
}

impl<A: Allocator> From<ArrayVec<u32, 8>> for Numbers<A> {
    ghost from_gives = { λ few numbers. numbers ≡ few.items };

    fn from(few: ArrayVec<u32, 8>) -> Numbers<A> {
        Numbers {
            held: Held::Few(few),
        }
    }
}

impl<A: Allocator> From<Vec<u32, A>> for Numbers<A> {
    ghost from_gives = { λ many numbers. numbers ≡ many.items };

    fn from(many: Vec<u32, A>) -> Numbers<A> {
        Numbers {
            held: Held::Many(many),
        }
    }
}

impl<A: Allocator + Copy> Clone for Numbers<A> {
    ghost is_clone = { λ n copy. copy ≡ n };

    fn clone(&self) -> Result<Numbers<A>, AllocError> {
        match &self.held {
            Held::Few(few) => Ok(Numbers::from(few_of(few.as_slice()))),
            Held::Many(many) => Numbers::from_slice(*many.allocator(), many.as_slice()),
        }
    }
}

impl<A: Allocator> PartialEq for Numbers<A> {
    ghost use Rattle.std.specs.Prelude.{nat_eq};
    ghost use Rattle.std.specs.Cmp.{nat_eq_equiv, partial_equiv_from_equiv};
    ghost use Rattle.std.specs.Cmp.Lexicographic.{pointwise, lists_per};

    ghost eq = { pointwise nat_eq };

    ghost laws = { lists_per (partial_equiv_from_equiv nat_eq_equiv) };

    fn eq(&self, other: &Numbers<A>) -> bool {
        self.as_slice() == other.as_slice()
    }
}

impl<A: Allocator> Eq for Numbers<A> {
    ghost use Rattle.std.specs.Cmp.{nat_eq_equiv};
    ghost use Rattle.std.specs.Cmp.Lexicographic.{lists_equiv};

    ghost laws = { lists_equiv nat_eq_equiv };
}
