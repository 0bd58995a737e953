//! A report, from its first line to the last.

ghost use Rattle.std.specs.Prelude.{◌≡◌, ◌≢◌, ◌<◌, ◌≤◌, ◌^◌, true, Ok, Err, OnOk, OnErr, IfOk};
ghost use Rattle.probe_io.specs.Causes.{Rose};
ghost use Rattle.solve_report.specs.Report.{WritesReport, AppendsReportFront, WritesReportSoFar};
ghost use Rattle.solve_report.specs.Printing.{WritesProof, WritesProofFront, WritesProofSoFar};

use crate::ending::{Ending, ReportFault, ending_with};
use crate::header::header_text;
use crate::sorting::sorted_form;
use crate::verdict_line::verdict_text;
use clause_base::Formula;
use conflict_solver::{Verdict, solve};
use probe_io::{Sink, put_all};
use proof_sinks::StepText;
use std::alloc::Global;

/// Searches for values that solve the formula, and writes the report of that search to `out`: the formula's clauses, each
/// derived line as it is found, and the verdict. At most `budget` lines other than the empty one are derived; a search
/// that wants more ends with `Undecided`. Each line is one text for `out`, and the lines before the clauses together are
/// one. After `Write` a prefix of a report, or of one so far, was written. After `NoMemory` nothing was written, or a
/// report so far: all lines before the clauses and each line that was said. A strict sink failed only where `Write` is
/// answered.
pub fn write<K: Sink>(
    alloc: Global,
    formula: &Formula,
    budget: u32,
    out: &mut K,
) -> Result<Ending, ReportFault>
    requires { 0 < budget }
    ensures report { IfOk result (λ ending. WritesReport formula.now budget ending (K.written out.old) (K.written out.new)) }
    ensures front { result ≡ Err ReportFault.Write → AppendsReportFront formula.now budget (K.written out.old) (K.written out.new) }
    ensures so_far { result ≡ Err ReportFault.NoMemory → WritesReportSoFar formula.now budget (K.written out.old) (K.written out.new) }
    ensures decided { 3 ^ formula.now.vars ≤ budget → result ≡ Ok Ending.Undecided → ⊥ }
    ensures cause { result ≡ Err ReportFault.Write → Rose (K.faults out.old) (K.faults out.new) }
    ensures quiet { K.strict ≡ true → result ≢ Err ReportFault.Write → K.faults out.new ≡ K.faults out.old }
    ensures later { K.faults out.old ≤ K.faults out.new }
{
    let sorted = sorted_form(alloc, formula)?;
    let header = header_text(alloc, budget, &sorted)?;
    put_all(out, header.as_bytes())?;
    let verdict = put_proof(alloc, &sorted, budget, out)?;
    let last = verdict_text(alloc, &verdict)?;
    put_all(out, last.as_bytes())?;
    Ok(ending_with(&verdict))
}

/// Writes the lines of a search on the formula, as they are said.
fn put_proof<K: Sink>(
    alloc: Global,
    formula: &Formula,
    budget: u32,
    out: &mut K,
) -> Result<Verdict, ReportFault>
    requires { 0 < budget }
    ensures proof { IfOk result (λ verdict. WritesProof formula.now budget verdict (K.written out.old) (K.written out.new)) }
    ensures front { OnErr result (WritesProofFront formula.now budget (K.written out.old) (K.written out.new)) }
    ensures so_far { result ≡ Err ReportFault.NoMemory → WritesProofSoFar formula.now budget (K.written out.old) (K.written out.new) }
    ensures decided { 3 ^ formula.now.vars ≤ budget → result ≡ Ok Verdict.Undecided → ⊥ }
    ensures cause { result ≡ Err ReportFault.Write → Rose (K.faults out.old) (K.faults out.new) }
    ensures quiet { K.strict ≡ true → result ≢ Err ReportFault.Write → K.faults out.new ≡ K.faults out.old }
    ensures later { K.faults out.old ≤ K.faults out.new }
{
    let mut text = StepText::new(alloc, &mut *out);
    let answer = solve(alloc, formula, budget, &mut text);
    let _out = text.into_sink();
    Ok(answer?)
}
