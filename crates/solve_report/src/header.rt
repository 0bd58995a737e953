//! The lines of a report before its clauses.

ghost use Rattle.std.specs.Prelude.{◌≡◌, IfOk};
ghost use Rattle.solve_report.specs.Report.{numbers_text, header};

use clause_base::Formula;
use std::alloc::{AllocError, Global};

/// The lines before the clauses. It fails only where no memory is found.
pub(crate) fn header_text(
    alloc: Global,
    budget: u32,
    formula: &Formula,
) -> Result<String, AllocError>
    ensures { IfOk result (λ text. text.bytes.items ≡ header budget formula.now) }
{
    numbers(alloc, budget, formula.vars(), formula.clauses().len())
}

/// The command and the numbers.
#[tactic(auto, unfolding(crate::specs::Report::numbers_text))]
fn numbers(alloc: Global, budget: u32, vars: u32, clauses: usize) -> Result<String, AllocError>
    ensures { IfOk result (λ text. text.bytes.items ≡ numbers_text budget vars clauses) }
{
    format!(in alloc; "carafe solve 1\nbudget {budget}\nformula {vars} {clauses}\n")
}
