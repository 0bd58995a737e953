//! The checker of one derivation.

ghost use Rattle.std.specs.Prelude.{◌≡◌, ◌⊎◌, ◌∷◌, ◌++◌, ◌||◌, [], true, nat_eq, length, OnOk, OnErr, IfOk, IfErr};
ghost use Rattle.clause_base.specs.Literals.{is_in};
ghost use Rattle.clause_base.specs.Formulas.{IsClauseWithin};
ghost use Rattle.refutation_check.specs.Following.{Follows};
ghost use Rattle.refutation_check.specs.Refusing.{IsRefused};
ghost use Rattle.refutation_check.specs.Marking.{is_marked};
ghost use Rattle.refutation_check.specs.Keeping.{nothing_kept, with_axiom, with_derived, given_clauses, AreUnsolvable};

use crate::hints::{StepRefusal, follow};
use crate::marks::Marks;
use clause_arena::Store;
use clause_base::Lit;
use std::alloc::{AllocError, Global};
use std::marker::Model;

/// A checker of one derivation. Contracts see the clauses that it keeps, in their order, for each whether it was given,
/// and whether an empty one was derived. Clauses count from 1.
#[derive(Debug, Drop)]
pub struct Checker {
    store: Store,
    given: Vec<bool>,
    marks: Marks,
    is_closed: bool,
}

impl Model for Checker {
    ghost use Rattle.refutation_check.specs.Keeping.{Kept, IsCheckerState};

    ghost Value = { Kept };

    ghost view = { λ c. record { vars = c.marks.vars; clauses = c.store; given = c.given.items; closed = c.is_closed } };

    ghost invariant = { λ c. IsCheckerState c.marks.vars c.store c.given.items c.is_closed };
}

impl Checker {
    /// A checker of clauses of the variables from 1 to `vars`. It takes two stamps a variable, so that later calls take
    /// memory for the clause that is kept alone.
    pub fn new(alloc: Global, vars: u32) -> Result<Checker, AllocError>
        ensures { IfOk result (λ checker. checker ≡ nothing_kept vars) }
    {
        Ok(Checker {
            store: Store::new(alloc),
            given: Vec::new(alloc),
            marks: Marks::new(alloc, vars)?,
            is_closed: false,
        })
    }

    /// The greatest variable.
    pub fn vars(&self) -> u32
        ensures { result ≡ self.now.vars }
    {
        self.marks.vars()
    }

    /// Takes a clause as given. Want of memory changes nothing.
    pub fn axiom(&mut self, clause: &[Lit]) -> Result<(), AllocError>
        requires { IsClauseWithin self.old.vars clause.now }
        ensures taken { OnOk result (self.new ≡ with_axiom self.old clause.now) }
        ensures kept { OnErr result (self.new ≡ self.old) }
    {
        keep(&mut self.store, &mut self.given, clause, true)
    }

    /// Takes a clause that follows by these hints from the clauses so far, and refuses any other. A refused step
    /// changes nothing.
    pub fn step(&mut self, clause: &[Lit], hints: &[u64]) -> Result<(), StepRefusal>
        requires { IsClauseWithin self.old.vars clause.now }
        ensures follows { OnOk result (Follows self.old.clauses clause.now hints.now) }
        ensures taken { OnOk result (self.new ≡ with_derived self.old clause.now) }
        ensures refused { IfErr result (λ refusal. IsRefused self.old.clauses (is_in clause.now) hints.now refusal) }
        ensures only { IfErr result (λ refusal. (refusal ≡ StepRefusal.NoMemory) ⊎ (Follows self.old.clauses clause.now hints.now → ⊥)) }
        ensures kept { OnErr result (self.new ≡ self.old) }
    {
        mark_clause(&mut self.marks, clause);
        follow(&self.store, &mut self.marks, hints)?;
        if keep(&mut self.store, &mut self.given, clause, false).is_err() {
            return Err(StepRefusal::NoMemory);
        }
        self.is_closed = is_closing(self.is_closed, clause);
        Ok(())
    }

    /// The clauses that are kept, in their order.
    pub fn clauses(&self) -> &Store
        ensures { result.now ≡ self.now.clauses }
    {
        &self.store
    }

    /// Whether an empty clause was derived. Then no values solve the given clauses.
    pub fn closed(&self) -> bool
        ensures closed { result ≡ self.now.closed }
        ensures refuted { result ≡ true → AreUnsolvable (given_clauses self.now) }
    {
        self.is_closed
    }
}

/// Makes the set that of the clause's literals.
fn mark_clause(marks: &mut Marks, clause: &[Lit])
    requires { IsClauseWithin marks.old.vars clause.now }
    ensures vars { marks.new.vars ≡ marks.old.vars }
    ensures same { is_marked marks.new ≡ is_in clause.now }
{
    marks.clear();
    for lit in clause {
        marks.insert(*lit);
    }
}

/// Whether a checker is closed after this derived clause.
fn is_closing(was_closed: bool, clause: &[Lit]) -> bool
    ensures { result ≡ (was_closed || nat_eq (length clause.now) 0) }
{
    was_closed || clause.is_empty()
}

/// Keeps a clause, and whether it was given. Want of memory changes nothing.
fn keep(
    store: &mut Store,
    given: &mut Vec<bool>,
    clause: &[Lit],
    is_given: bool,
) -> Result<(), AllocError>
    ensures clauses { OnOk result (store.new ≡ store.old ++ clause.now ∷ []) }
    ensures given { OnOk result (given.new.items ≡ given.old.items ++ is_given ∷ []) }
    ensures same_clauses { OnErr result (store.new ≡ store.old) }
    ensures same_given { OnErr result (given.new.items ≡ given.old.items) }
{
    given.reserve(1)?;
    store.add(clause)?;
    let Ok(()) = given.push(is_given) else {
        unreachable!();
    };
    Ok(())
}
