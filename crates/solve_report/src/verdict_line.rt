//! The last line of a report.

ghost use Rattle.std.specs.Prelude.{◌≡◌, ◌++◌, ◌<◌, ◌^◌, IfOk, OnOk};
ghost use Rattle.clause_base.specs.ClauseText.{literal_text};
ghost use Rattle.solve_report.specs.Report.{literal_of, values_line, verdict_line};

use conflict_solver::Verdict;
use std::alloc::{AllocError, Global};

/// The last line. It fails only where no memory is found.
pub(crate) fn verdict_text(alloc: Global, verdict: &Verdict) -> Result<String, AllocError>
    ensures { IfOk result (λ line. line.bytes.items ≡ verdict_line verdict.now) }
{
    match verdict {
        Verdict::Values(values) => values_text(alloc, values.as_slice()),
        Verdict::Refuted => String::from_str(alloc, "refuted\n"),
        Verdict::Undecided => String::from_str(alloc, "undecided\n"),
    }
}

/// The line of values: the true literal of each variable, from 1.
fn values_text(alloc: Global, values: &[bool]) -> Result<String, AllocError>
    ensures { IfOk result (λ line. line.bytes.items ≡ values_line values.now) }
{
    let mut line = String::from_str(alloc, "values ")?;
    for (i, value) in values.iter().enumerate() {
        push_literal(&mut line, i + 1, *value)?;
    }
    line.push_str("0\n")?;
    Ok(line)
}

/// Adds the true literal of a variable, and a space.
#[tactic(auto, unfolding(clause_base::specs::ClauseText::literal_text))]
fn push_literal(text: &mut String, variable: usize, value: bool) -> Result<(), AllocError>
    requires { variable < 2 ^ 63 }
    ensures { OnOk result (text.new.bytes.items ≡ text.old.bytes.items ++ literal_text (literal_of variable value)) }
{
    let positive = variable as i64;
    let literal = if value { positive } else { -positive };
    write!(text, "{literal} ")
}
