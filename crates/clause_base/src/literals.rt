//! Literals: variables and their negations.

ghost use Rattle.std.specs.Prelude.{◌≡◌, neg_ℤ, nat_abs, Some, None, if◌then◌else◌};
ghost use Rattle.clause_base.specs.Literals.{is_literal, IsLiteral, code_of};

use std::marker::Model;

/// A literal: a variable, a number from 1 to 2,147,483,647, or its negation. Contracts see the number, which is below
/// 0 for a negation.
#[derive(Clone, Copy, Debug, PartialEq, Eq, PartialOrd, Ord)]
pub struct Lit {
    value: i32,
}

impl Model for Lit {
    ghost use Rattle.std.specs.Prelude.{ℤ};
    ghost use Rattle.clause_base.specs.Literals.{IsLiteral};

    ghost Value = { ℤ };

    ghost view = { λ lit. lit.value };

    ghost invariant = { λ lit. IsLiteral lit.value };

    ghost inverse = { λ z. record { value = z } };
}

impl Lit {
    /// The literal of this number: `None` exactly for 0 and the least `i32`.
    pub fn new(value: i32) -> Option<Lit>
        ensures { result ≡ (if is_literal value then Some value else None) }
    {
        if value == 0 || value == i32::MIN {
            return None;
        }
        Some(Lit { value })
    }

    /// The number: the variable, or the variable negated.
    pub fn value(self) -> i32
        ensures same { result ≡ self }
        ensures literal { IsLiteral result }
    {
        self.value
    }

    /// The negation.
    pub fn negated(self) -> Lit
        ensures { result ≡ neg_ℤ self }
    {
        Lit { value: -self.value }
    }

    /// The variable, from 1.
    pub fn variable(self) -> u32
        ensures same { result ≡ nat_abs self }
        ensures literal { IsLiteral self }
    {
        self.value.unsigned_abs()
    }

    /// The place of the literal in a table of all literals: twice the variable, and one more for its negation.
    pub fn code(self) -> usize
        ensures same { result ≡ code_of self }
        ensures literal { IsLiteral self }
    {
        let place = self.variable() as usize * 2;
        if self.value < 0 { place + 1 } else { place }
    }
}
