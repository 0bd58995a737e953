//! Literals that are not set, and the values of a trail.

ghost use Rattle.std.specs.Prelude.{◌≡◌, ◌<◌, ◌≤◌, ◌^◌, ◌⊎◌, pos, true, false, neg_ℤ, nat_abs, IfOk, IfSome, IfNone, All, Any};
ghost use Rattle.clause_base.specs.Literals.{is_in};
ghost use Rattle.clause_base.specs.Formulas.{IsClauseWithin};
ghost use Rattle.conflict_solver.specs.Setting.{IsUnset, AreSet, IsSet, AreValues};

use crate::order::Order;
use clause_base::Lit;
use search_trail::Trail;
use std::alloc::{AllocError, Global};

/// A literal of which neither it nor its negation is true, the one that comes first in the order; `None` where each
/// variable is set.
pub(crate) fn pick(order: &mut Order, trail: &Trail) -> Option<Lit>
    requires { trail.now.vars < 2 ^ 31 }
    ensures some { IfSome result (IsUnset trail.now) }
    ensures none { IfNone result (AreSet trail.now trail.now.vars) }
{
    while let Some(variable) = order.take() {
        if variable > 0 && variable <= trail.vars() {
            let found = unset_literal(trail, variable, order.prefers_true(variable));
            if found.is_some() {
                return found;
            }
        }
    }
    first_unset(trail)
}

/// The variable or its negation, where neither is true.
fn unset_literal(trail: &Trail, variable: u32, is_true: bool) -> Option<Lit>
    requires some { 0 < variable }
    requires most { variable ≤ trail.now.vars }
    requires small { trail.now.vars < 2 ^ 31 }
    ensures some { IfSome result (IsUnset trail.now) }
    ensures none { IfNone result (IsSet trail.now variable) }
{
    let lit = literal_of(variable);
    if trail.is_true(lit) {
        return None;
    }
    if trail.is_true(lit.negated()) {
        return None;
    }
    Some(if is_true { lit } else { lit.negated() })
}

/// The literal of this variable.
fn literal_of(variable: u32) -> Lit
    requires some { 0 < variable }
    requires small { variable < 2 ^ 31 }
    ensures { result ≡ pos variable }
{
    let Some(lit) = Lit::new(variable as i32) else {
        unreachable!();
    };
    lit
}

/// The least variable that isn't set.
fn first_unset(trail: &Trail) -> Option<Lit>
    requires { trail.now.vars < 2 ^ 31 }
    ensures some { IfSome result (IsUnset trail.now) }
    ensures none { IfNone result (AreSet trail.now trail.now.vars) }
{
    for place in 0..trail.vars() {
        let found = unset_literal(trail, place + 1, false);
        if found.is_some() {
            return found;
        }
    }
    None
}

/// Whether a literal of the clause is true. Each variable is set.
pub(crate) fn is_true_in(trail: &Trail, clause: &[Lit]) -> bool
    requires set { AreSet trail.now trail.now.vars }
    requires within { IsClauseWithin trail.now.vars clause.now }
    ensures yes { result ≡ true → Any (λ l. is_in trail.now.lits l ≡ true) clause.now }
    ensures no { result ≡ false → All (λ l. is_in trail.now.lits (neg_ℤ l) ≡ true) clause.now }
{
    for lit in clause {
        if !is_false(trail, *lit) {
            return true;
        }
    }
    false
}

/// Whether the literal is false. Its variable is set.
fn is_false(trail: &Trail, lit: Lit) -> bool
    requires set { AreSet trail.now trail.now.vars }
    requires within { nat_abs lit ≤ trail.now.vars }
    ensures yes { result ≡ true → is_in trail.now.lits (neg_ℤ lit) ≡ true }
    ensures no { result ≡ false → is_in trail.now.lits lit ≡ true }
{
    let _variable = lit.variable();
    trail.is_true(lit.negated())
}

/// For each variable whether it is true.
pub(crate) fn values_of(alloc: Global, trail: &Trail) -> Result<Vec<bool>, AllocError>
    requires { trail.now.vars < 2 ^ 31 }
    ensures { IfOk result (λ values. AreValues trail.now trail.now.vars values.items) }
{
    let mut values = Vec::new(alloc);
    for place in 0..trail.vars() {
        values.push(trail.is_true(literal_of(place + 1)))?;
    }
    Ok(values)
}
