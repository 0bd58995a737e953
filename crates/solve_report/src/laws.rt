//! A law of sorted forms.

ghost use Rattle.std.specs.Prelude.{◌≡◌};
ghost use Rattle.clause_base.specs.Formulas.{Clauses};
ghost use Rattle.solve_report.specs.Report.{IsSortedForm};

/// A formula has one sorted form at most. So it determines the clauses of its report.
pub fn one_sorted_form()
    ensures { (file formula other : Clauses) → IsSortedForm file formula → IsSortedForm file other → formula ≡ other }
{}
