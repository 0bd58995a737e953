//! The sorted form of a formula.

ghost use Rattle.std.specs.Prelude.{IfOk};
ghost use Rattle.solve_report.specs.Report.{IsSortedForm};

use clause_base::{Formula, distinct};
use std::alloc::{AllocError, Global};

/// The formula with each clause's literals in rising order, each once. It fails only where no memory is found.
pub(crate) fn sorted_form(alloc: Global, formula: &Formula) -> Result<Formula, AllocError>
    ensures { IfOk result (IsSortedForm formula.now) }
{
    let mut clauses = Vec::new(alloc);
    for clause in formula.clauses() {
        clauses.push(distinct(alloc, clause.as_slice())?)?;
    }
    Ok(Formula::new(formula.vars(), clauses))
}
