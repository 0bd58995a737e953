//! Laws of derivations.

ghost use Rattle.std.specs.Prelude.{◌≡◌, ◌≢◌, ℕ, ℤ, Bool, List, [], ◌∷◌, ◌++◌, Contains};
ghost use Rattle.clause_base.specs.Solving.{IsTrueUnder, Solves};
ghost use Rattle.clause_base.specs.Teaching.{IsConsistent};
ghost use Rattle.refutation_check.specs.Following.{Follows, IsDerivation};
ghost use Rattle.refutation_check.specs.Keeping.{Kept};
ghost use Rattle.refutation_check.specs.Deriving.{line_clauses, AreAccepted};
ghost use Rattle.refutation_check.specs.Refusing.{IsRefused};

use crate::hints::StepRefusal;

/// A clause that follows is true wherever the earlier clauses are.
pub fn following_is_true()
    ensures { (earlier : List (List ℤ)) (clause : List ℤ) (hints : List ℕ) (holds : ℤ → Bool) → Follows earlier clause hints → IsConsistent holds
        → Solves holds earlier → IsTrueUnder holds clause }
{}

/// A derivation with an empty line leaves no solution of the clauses.
pub fn derivation_refutes()
    ensures { (clauses : List (List ℤ)) (lines : List (List ℤ × List ℕ)) (hints : List ℕ) (holds : ℤ → Bool) → IsDerivation clauses lines
        → Contains lines ([], hints) → IsConsistent holds → Solves holds clauses → ⊥ }
{}

/// A derivation and one line more, which follows from the clauses and the lines before it, are a derivation.
pub fn derivation_grows()
    ensures { (clauses : List (List ℤ)) (lines : List (List ℤ × List ℕ)) (clause : List ℤ) (hints : List ℕ) → IsDerivation clauses lines
        → Follows (clauses ++ line_clauses lines) clause hints → IsDerivation clauses (lines ++ (clause, hints) ∷ []) }
{}

/// Lines that a checker accepted one after the other are a derivation from the clauses that it kept before, and it keeps
/// their clauses after those.
pub fn accepted_lines_are_a_derivation()
    ensures derivation { (old new : Kept) (lines : List (List ℤ × List ℕ)) → AreAccepted old lines new → IsDerivation old.clauses lines }
    ensures kept { (old new : Kept) (lines : List (List ℤ × List ℕ)) → AreAccepted old lines new → new.clauses ≡ old.clauses ++ line_clauses lines }
{}

/// Hints have one first fault: a refusal other than for want of memory is determined by them.
pub fn one_fault()
    ensures { (earlier : List (List ℤ)) (fails : ℤ → Bool) (hints : List ℕ) (a b : StepRefusal) → a ≢ StepRefusal.NoMemory → b ≢ StepRefusal.NoMemory
        → IsRefused earlier fails hints a → IsRefused earlier fails hints b → a ≡ b }
{}
