//! Lists of attribute values that are compared by what they hold, as COMMUNITIES (RFC 1997).

ghost use Rattle.std.specs.Prelude.{◌≡◌, []};

use std::alloc::{AllocError, Allocator, Global};
use std::marker::Model;

/// Values in wire order, repeats kept. Two lists are equal where they hold the same values.
#[derive(Drop)]
#[derive_where(Debug; T)]
pub struct Items<T, A: Allocator = Global> {
    values: Vec<T, A>,
}

impl<T, A: Allocator> Model for Items<T, A> {
    ghost use Rattle.std.specs.Prelude.{List};

    ghost Value = { List T };

    ghost view = { λ s. s.values.items };
}

impl<T, A: Allocator> Items<T, A> {
    /// No values.
    pub fn new(alloc: A) -> Items<T, A>
        ensures empty { result ≡ [] }
    {
        Items {
            values: Vec::new(alloc),
        }
    }

    /// Its values.
    pub fn as_slice(&self) -> &[T]
        ensures values { result.now ≡ self.now }
    {
        self.values.as_slice()
    }
}

impl<T, A: Allocator> From<Vec<T, A>> for Items<T, A> {
    ghost from_gives = { λ values items. items ≡ values.items };

    fn from(values: Vec<T, A>) -> Items<T, A> {
        Items { values }
    }
}

impl<T: Copy, A: Allocator + Copy> Clone for Items<T, A> {
    ghost is_clone = { λ s copy. copy ≡ s };

    fn clone(&self) -> Result<Items<T, A>, AllocError> {
        let values = Vec::from_slice(*self.values.allocator(), &self.values)?;
        Ok(Items { values })
    }
}

impl<T: PartialEq, A: Allocator> PartialEq for Items<T, A> {
    ghost use Rattle.std.specs.Cmp.Lexicographic.{pointwise, lists_per};

    ghost eq = { pointwise T.eq };

    ghost laws = { lists_per T.laws };

    fn eq(&self, other: &Items<T, A>) -> bool {
        self.values == other.values
    }
}

impl<T: Eq, A: Allocator> Eq for Items<T, A> {
    ghost use Rattle.std.specs.Cmp.Lexicographic.{lists_equiv};

    ghost laws = { lists_equiv T.Eq.laws };
}
