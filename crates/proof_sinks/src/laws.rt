//! A law of lines that a checker accepted.

ghost use Rattle.std.specs.Prelude.{ℕ, ℤ, List, []};
ghost use Rattle.clause_base.specs.Formulas.{Clauses};
ghost use Rattle.refutation_check.specs.Following.{IsDerivation};
ghost use Rattle.proof_sinks.specs.Lines.{proof_of};
ghost use Rattle.proof_sinks.specs.Checking.{AllFollow};

/// The lines of a proof of a formula, where a checker accepted them, are a derivation from its clauses.
pub fn checked_lines_are_a_derivation()
    ensures { (formula : Clauses) (lines : List (List ℤ × List ℕ)) → AllFollow [] (proof_of formula lines) → IsDerivation formula.clauses lines }
{}
