//! Clauses that each list their literals once, in rising order, and none beside its negation.

ghost use Rattle.std.specs.Prelude.{◌≡◌, ◌<◌, [], ◌∷◌, ◌++◌, length, slice_index_or, OnErr, IfOk};
ghost use Rattle.clause_arena.specs.Arenas.{IsNormal};

use crate::store::Store;
use clause_base::Lit;
use std::alloc::{AllocError, Global};
use std::marker::Model;

/// A clause of an arena. Contracts see its number in the list, from 0. It never goes stale.
#[derive(Clone, Copy, Debug, PartialEq, Eq)]
pub struct ClauseRef {
    number: usize,
}

impl Model for ClauseRef {
    ghost use Rattle.std.specs.Prelude.{ℕ};

    ghost Value = { ℕ };

    ghost view = { λ r. r.number };

    ghost inverse = { λ n. record { number = n } };
}

/// A list of clauses that only grows. Contracts see the list. By the definition `IsNormal` each clause lists each
/// literal once, in rising order, and none beside its negation.
#[derive(Debug, Drop)]
pub struct Arena {
    store: Store,
}

impl Model for Arena {
    ghost use Rattle.std.specs.Prelude.{ℤ, List, All};
    ghost use Rattle.clause_arena.specs.Arenas.{IsNormal};

    ghost Value = { List (List ℤ) };

    ghost view = { λ arena. arena.store };

    ghost invariant = { λ arena. All IsNormal arena.store };
}

impl Arena {
    /// The arena with no clause.
    pub fn new(alloc: Global) -> Arena
        ensures { result ≡ [] }
    {
        Arena {
            store: Store::new(alloc),
        }
    }

    /// Adds the clause of these literals, which rise and of which none stands beside its negation. Want of memory
    /// changes nothing.
    pub fn add(&mut self, lits: &[Lit]) -> Result<ClauseRef, AllocError>
        requires { IsNormal lits.now }
        ensures clauses { IfOk result (λ _. self.new ≡ self.old ++ lits.now ∷ []) }
        ensures number { IfOk result (λ number. number ≡ length self.old) }
        ensures kept { OnErr result (self.new ≡ self.old) }
    {
        let number = self.store.len();
        self.store.add(lits)?;
        Ok(ClauseRef { number })
    }

    /// The literals of the clause.
    pub fn lits(&self, at: ClauseRef) -> &[Lit]
        requires { at < length self.now }
        ensures same { result.now ≡ slice_index_or self.now at [] }
        ensures normal { IsNormal result.now }
    {
        self.store.clause(at.number)
    }

    /// How many clauses there are.
    pub fn len(&self) -> usize
        ensures { result ≡ length self.now }
    {
        self.store.len()
    }
}
