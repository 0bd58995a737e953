//! A list of numbers of clauses.

ghost use Rattle.std.specs.Prelude.{◌≡◌, ◌<◌, ◌+◌, ◌⊎◌, ℕ, [], ◌∷◌, ◌++◌, take, length, slice_index_or, OnOk, OnErr, Contains};

use std::alloc::{AllocError, Global};
use std::marker::Model;

/// A list of numbers. Contracts see the list.
#[derive(Debug, Drop)]
pub(crate) struct Numbers {
    all: Vec<usize>,
}

impl Model for Numbers {
    ghost use Rattle.std.specs.Prelude.{ℕ, List};

    ghost Value = { List ℕ };

    ghost view = { λ numbers. numbers.all.items };
}

impl Numbers {
    /// The empty list.
    pub(crate) fn new(alloc: Global) -> Numbers
        ensures { result ≡ [] }
    {
        Numbers {
            all: Vec::new(alloc),
        }
    }

    /// How many numbers there are.
    pub(crate) fn len(&self) -> usize
        ensures { result ≡ length self.now }
    {
        self.all.len()
    }

    /// The number at this index.
    pub(crate) fn get(&self, index: usize) -> usize
        requires { index < length self.now }
        ensures { result ≡ slice_index_or self.now index 0 }
    {
        self.all[index]
    }

    /// Puts the number behind all others. Want of memory changes nothing.
    pub(crate) fn push(&mut self, number: usize) -> Result<(), AllocError>
        ensures list { OnOk result (self.new ≡ self.old ++ number ∷ []) }
        ensures kept { OnErr result (self.new ≡ self.old) }
    {
        self.all.push(number)?;
        Ok(())
    }

    /// Takes out the number at this index. The last number takes its place.
    pub(crate) fn drop_at(&mut self, index: usize)
        requires { index < length self.old }
        ensures size { length self.new + 1 ≡ length self.old }
        ensures others { (n : ℕ) → Contains self.old n → (n ≡ slice_index_or self.old index 0) ⊎ Contains self.new n }
        ensures rest { take index self.new ≡ take index self.old }
        ensures none { (n : ℕ) → Contains self.new n → Contains self.old n }
    {
        self.all.swap_remove(index);
    }
}
