//! Clauses: lists of literals, and their forms in rising order.

ghost use Rattle.std.specs.Prelude.{◌≡◌, ◌↔◌, IsTrue, IfOk, IfSome, IfNone};
ghost use Rattle.clause_base.specs.Literals.{IsRising};
ghost use Rattle.clause_base.specs.Formulas.{IsClauseWithin};
ghost use Rattle.clause_base.specs.Novelty.{IsApart, HaveSame};

use crate::literals::Lit;
use std::alloc::{AllocError, Global};
use std::marker::Model;

/// A clause. Contracts see the list of its literals.
#[derive(Debug, Drop)]
pub struct Clause {
    lits: Vec<Lit>,
}

impl Model for Clause {
    ghost use Rattle.std.specs.Prelude.{ℤ, List};

    ghost Value = { List ℤ };

    ghost view = { λ clause. clause.lits.items };
}

impl Clause {
    ghost use Rattle.std.specs.Prelude.{◌≡◌, ◌↔◌, IsTrue, IfOk};
    ghost use Rattle.clause_base.specs.Formulas.{IsClauseWithin};

    /// The clause of these literals, in their order. It fails only where no memory is found.
    pub fn new(alloc: Global, lits: &[Lit]) -> Result<Clause, AllocError>
        ensures { IfOk result (λ clause. clause ≡ lits.now) }
    {
        Ok(Clause {
            lits: Vec::from_slice(alloc, lits)?,
        })
    }

    /// Whether each variable of the clause is within `vars`: from 1 to `vars`.
    pub fn is_within(&self, vars: u32) -> bool
        ensures { IsTrue result ↔ IsClauseWithin vars self.now }
    {
        are_within(self.lits.as_slice(), vars)
    }

    /// The literals.
    pub fn as_slice(&self) -> &[Lit]
        ensures { result.now ≡ self.now }
    {
        self.lits.as_slice()
    }
}

/// Whether each variable of the literals is within `vars`.
fn are_within(lits: &[Lit], vars: u32) -> bool
    ensures { IsTrue result ↔ IsClauseWithin vars lits.now }
{
    lits.iter().all(|lit| lit.variable() <= vars)
}

/// The literals of the clause in rising order, each once. It fails only where no memory is found.
pub fn distinct(alloc: Global, clause: &[Lit]) -> Result<Clause, AllocError>
    ensures same { IfOk result (λ sorted. HaveSame clause.now sorted) }
    ensures rising { IfOk result IsRising }
{
    let mut lits = Vec::from_slice(alloc, clause)?;
    lits.sort_unstable();
    lits.dedup();
    Ok(Clause { lits })
}

/// The literals of the clause in rising order, each once, or `None` exactly where a literal stands beside its negation.
pub fn normal(alloc: Global, clause: &[Lit]) -> Result<Option<Clause>, AllocError>
    ensures same { IfOk result (λ found. IfSome found (λ sorted. HaveSame clause.now sorted)) }
    ensures rising { IfOk result (λ found. IfSome found IsRising) }
    ensures apart { IfOk result (λ found. IfSome found (λ sorted. IsApart clause.now)) }
    ensures sorted_apart { IfOk result (λ found. IfSome found (λ sorted. IsApart sorted)) }
    ensures none { IfOk result (λ found. IfNone found (IsApart clause.now → ⊥)) }
{
    let sorted = distinct(alloc, clause)?;
    if is_apart(sorted.as_slice()) {
        Ok(Some(sorted))
    } else {
        Ok(None)
    }
}

/// Whether no literal of a rising list stands beside its negation.
fn is_apart(lits: &[Lit]) -> bool
    requires { IsRising lits.now }
    ensures { IsTrue result ↔ IsApart lits.now }
{
    for lit in lits {
        if lits.binary_search(&lit.negated()).is_ok() {
            return false;
        }
    }
    true
}
