//! Laws of values, of rising clauses, of tautologies, of clauses that teach, and of texts that spell formulas.

ghost use Rattle.std.specs.Prelude.{◌≡◌, ◌≢◌, ◌⊎◌, ℕ, ℤ, pos, neg_ℤ, Bool, true, not, List, length, All, Contains};
ghost use Rattle.clause_base.specs.Literals.{IsRising};
ghost use Rattle.clause_base.specs.Solving.{is_true_under};
ghost use Rattle.clause_base.specs.Novelty.{IsApart, IsTautology, HaveSame, IsNew};
ghost use Rattle.clause_base.specs.Teaching.{IsConsistent, Teaches};
ghost use Rattle.clause_base.specs.Formulas.{Clauses};
ghost use Rattle.clause_base.specs.FormulaText.{is_literal_of, SpellsFormula};
ghost use Rattle.clause_base.specs.FormulaFaults.{IsFormulaFault};
ghost use Rattle.clause_base.specs.declared.faults.FormulaFault.{FormulaFault};

/// Values make no literal true together with its negation, and of each literal over their variables exactly one of the two.
pub fn values_are_consistent()
    ensures consistent { (values : List Bool) → IsConsistent (is_true_under values) }
    ensures one { (values : List Bool) (lit : ℤ) → is_literal_of (length values) lit ≡ true → is_true_under values (neg_ℤ lit) ≡ not (is_true_under values lit) }
{}

/// Two clauses in rising order that list the same literals are equal.
pub fn one_rising_clause()
    ensures { (a b : List ℤ) → IsRising a → IsRising b → HaveSame a b → a ≡ b }
{}

/// A clause of literals is a tautology exactly where it isn't apart: no literal stands beside its negation in a clause that
/// is no tautology, and in one that is, some literal does.
pub fn tautology_or_apart()
    ensures not_both { (clause : List ℤ) → IsTautology clause → IsApart clause → ⊥ }
    ensures one { (clause : List ℤ) → All (λ l. l ≢ pos 0) clause → (IsTautology clause ⊎ IsApart clause) }
{}

/// A clause that teaches has no earlier clause as a subset.
pub fn teaching_is_no_superset()
    ensures { (earlier : List (List ℤ)) (clause : List ℤ) → Teaches earlier clause → All (λ other. All (Contains clause) other → ⊥) earlier }
{}

/// A clause of literals that teaches is new.
pub fn teaching_is_new()
    ensures { (earlier : List (List ℤ)) (clause : List ℤ) → All (λ l. l ≢ pos 0) clause → Teaches earlier clause → IsNew earlier clause }
{}

/// A text of a formula is read or refused, and not both: it spells one formula at most, and has one first fault at most.
/// So a refusal comes exactly where it is the first at fault.
pub fn one_answer()
    ensures formula { (text : List ℕ) (f g : Clauses) → SpellsFormula text f → SpellsFormula text g → f ≡ g }
    ensures fault { (text : List ℕ) (f g : FormulaFault) → IsFormulaFault text f → IsFormulaFault text g → f ≡ g }
    ensures not_both { (text : List ℕ) (f : Clauses) (fault : FormulaFault) → SpellsFormula text f → IsFormulaFault text fault → ⊥ }
{}
