//! The hints of a step, one after the other.

ghost use Rattle.std.specs.Prelude.{◌≡◌, ◌≢◌, true, false, ◌-◌, OnOk, IfErr, IfSome, IfNone, All, ◌⊎◌};
ghost use Rattle.clause_base.specs.Formulas.{IsClauseWithin};
ghost use Rattle.refutation_check.specs.Following.{IsNumber, numbered, Runs};
ghost use Rattle.refutation_check.specs.Refusing.{IsRefused};
ghost use Rattle.refutation_check.specs.Left.{IsLeft};
ghost use Rattle.refutation_check.specs.Marking.{is_marked};

use crate::marks::Marks;
use clause_arena::Store;
use clause_base::Lit;

/// Why a step is refused. Hints count from 0.
#[derive(Clone, Copy, Debug, PartialEq, Eq)]
pub enum StepRefusal {
    /// This hint names no earlier clause.
    NoSuchClause(u64),
    /// This hint isn't the last, and its clause hasn't exactly one literal outside the set.
    NotUnit(u64),
    /// There is no hint, or the last one's clause has a literal outside the set.
    NoClash,
    /// No memory is found for the clause.
    NoMemory,
}

/// How much of a clause is outside a set of literals.
#[derive(Clone, Copy, Debug, PartialEq, Eq)]
pub(crate) enum Left {
    /// No literal.
    Nothing,
    /// This literal alone, however often it is listed.
    Sole(Lit),
    /// Two literals or more that differ.
    Several,
}

/// Whether the hints lead from this set of false literals to a clause that has failed. The set grows on the way.
pub(crate) fn follow(store: &Store, marks: &mut Marks, hints: &[u64]) -> Result<(), StepRefusal>
    requires { All (IsClauseWithin marks.old.vars) store.now }
    ensures vars { marks.new.vars ≡ marks.old.vars }
    ensures runs { OnOk result (Runs store.now (is_marked marks.old) hints.now) }
    ensures refused { IfErr result (λ refusal. IsRefused store.now (is_marked marks.old) hints.now refusal) }
    ensures only { IfErr result (λ refusal. Runs store.now (is_marked marks.old) hints.now → ⊥) }
{
    if hints.is_empty() {
        return Err(StepRefusal::NoClash);
    }
    let last = hints.len() - 1;
    for index in 0..last {
        let Some(clause) = clause_of(store, hints[index]) else {
            return Err(StepRefusal::NoSuchClause(index as u64));
        };
        let Left::Sole(lit) = left_of(clause, marks) else {
            return Err(StepRefusal::NotUnit(index as u64));
        };
        marks.insert(lit.negated());
    }
    let Some(clause) = clause_of(store, hints[last]) else {
        return Err(StepRefusal::NoSuchClause(last as u64));
    };
    match left_of(clause, marks) {
        Left::Nothing => Ok(()),
        _ => Err(StepRefusal::NoClash),
    }
}

/// The clause that the hint names.
fn clause_of(store: &Store, hint: u64) -> Option<&[Lit]>
    ensures some { IfSome result (λ clause. IsNumber store.now hint × (clause.now ≡ numbered store.now hint)) }
    ensures none { IfNone result (IsNumber store.now hint → ⊥) }
{
    if hint == 0 || hint as usize > store.len() {
        return None;
    }
    Some(store.clause(hint as usize - 1))
}

/// How much of the clause is outside the set.
fn left_of(clause: &[Lit], marks: &Marks) -> Left
    ensures { IsLeft (is_marked marks.now) clause.now result }
{
    let mut left = Left::Nothing;
    for lit in clause {
        if !marks.contains(*lit) {
            if !is_first(left, *lit) {
                return Left::Several;
            }
            left = Left::Sole(*lit);
        }
    }
    left
}

/// Whether no other literal was outside so far.
fn is_first(left: Left, lit: Lit) -> bool
    ensures yes { result ≡ true → (left ≡ Left.Nothing) ⊎ (left ≡ Left.Sole lit) }
    ensures no { result ≡ false → (left ≢ Left.Nothing) × (left ≢ Left.Sole lit) }
{
    left == Left::Nothing || left == Left::Sole(lit)
}
