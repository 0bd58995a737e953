//! Formulas, and whether values solve them.

ghost use Rattle.std.specs.Prelude.{◌≡◌, ◌≤◌, ◌↔◌, IsTrue, All, length};
ghost use Rattle.clause_base.specs.Solving.{is_true_under, IsTrueUnder, Solves};
ghost use Rattle.clause_base.specs.Formulas.{IsFormula, IsClauseWithin};

use crate::clauses::Clause;
use crate::literals::Lit;
use std::marker::Model;

/// A formula: a number of variables, and clauses over them. Contracts see both, the clauses as lists of numbers.
#[derive(Debug, Drop)]
pub struct Formula {
    vars: u32,
    clauses: Vec<Clause>,
}

impl Model for Formula {
    ghost use Rattle.clause_base.specs.Formulas.{Clauses, IsFormula};

    ghost Value = { Clauses };

    ghost view = { λ f. record { vars = f.vars; clauses = f.clauses.items } };

    ghost invariant = { λ f. IsFormula f.vars f.clauses.items };
}

impl Formula {
    /// The formula of these clauses.
    pub fn new(vars: u32, clauses: Vec<Clause>) -> Formula
        requires { IsFormula vars clauses.items }
        ensures vars { result.vars ≡ vars }
        ensures clauses { result.clauses ≡ clauses.items }
    {
        Formula { vars, clauses }
    }

    /// The number of variables.
    pub fn vars(&self) -> u32
        ensures { result ≡ self.now.vars }
    {
        self.vars
    }

    /// The clauses, each over the variables from 1 to their number.
    pub fn clauses(&self) -> &[Clause]
        ensures same { result.now ≡ self.now.clauses }
        ensures kept { IsFormula self.now.vars self.now.clauses }
    {
        self.clauses.as_slice()
    }
}

/// Whether the values make a literal of each clause true. The variable n has the value at the place n - 1.
pub fn solves(formula: &Formula, values: &[bool]) -> bool
    requires { length values.now ≡ formula.now.vars }
    ensures { IsTrue result ↔ Solves (is_true_under values.now) formula.now.clauses }
{
    for clause in formula.clauses() {
        if !is_true(clause.as_slice(), values) {
            return false;
        }
    }
    true
}

/// Whether the values make a literal of the clause true.
fn is_true(clause: &[Lit], values: &[bool]) -> bool
    requires { IsClauseWithin (length values.now) clause.now }
    ensures { IsTrue result ↔ IsTrueUnder (is_true_under values.now) clause.now }
{
    clause.iter().any(|lit| is_lit_true(*lit, values))
}

/// Whether the values make the literal true.
fn is_lit_true(lit: Lit, values: &[bool]) -> bool
    ensures { result ≡ is_true_under values.now lit }
{
    let place = lit.variable() as usize - 1;
    let value = values.get(place).copied().unwrap_or(lit.value() < 0);
    value == (lit.value() > 0)
}
