//! The lines of a proof.

ghost use Rattle.std.specs.Prelude.{◌≡◌, IfOk};

use clause_base::Clause;
use std::alloc::{AllocError, Global};
use std::marker::Model;

/// The hints of a derived clause: numbers of earlier clauses, which count from 1. Contracts see their list.
#[derive(Debug, Drop)]
pub struct Hints {
    numbers: Vec<u64>,
}

impl Model for Hints {
    ghost use Rattle.std.specs.Prelude.{ℕ, List};

    ghost Value = { List ℕ };

    ghost view = { λ hints. hints.numbers.items };
}

impl Hints {
    /// The hints of these numbers, in their order. It fails only where no memory is found.
    pub fn new(alloc: Global, hints: &[u64]) -> Result<Hints, AllocError>
        ensures { IfOk result (λ made. made ≡ hints.now) }
    {
        Ok(Hints {
            numbers: Vec::from_slice(alloc, hints)?,
        })
    }

    /// The numbers.
    pub fn as_slice(&self) -> &[u64]
        ensures { result.now ≡ self.now }
    {
        self.numbers.as_slice()
    }
}

/// A line of a proof.
#[derive(Debug, Drop)]
pub enum Said {
    /// A clause that is given.
    Axiom(Clause),
    /// A clause that follows from the lines before it, and the hints that show it.
    Derived(Clause, Hints),
}
