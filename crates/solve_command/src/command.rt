//! The command, from its words to its report.

ghost use Rattle.std.specs.Prelude.{◌≤◌, IfOk};
ghost use Rattle.probe_io.specs.Devices.{shelf_at, sink_at};
ghost use Rattle.command_base.specs.Desks.{desk};
ghost use Rattle.command_base.specs.Stages.{JudgesAs};
ghost use Rattle.command_base.specs.Jobs.{Ends, Writes};
ghost use Rattle.solve_command.specs.Search.{search_stage, solve_stage, solve_texts, solve_job};
ghost use Rattle.solve_command.specs.Views.{searched};

use clause_base::Formula;
use command_base::{Ending, Stop};
use command_inputs::{read_budget, read_formula};
use command_refusals::{Refusal, WordRefusal};
use probe_io::{Name, Shelf, Sink};
use solve_report::{Ending as SearchEnding, ReportFault};
use std::alloc::Global;

/// What a search is made on: the formula, and the most lines that are derived.
#[derive(Debug, Drop)]
pub struct Search {
    pub formula: Formula,
    pub budget: u32,
}

/// Judges the words after `solve`, reads the formula, and writes the report of a search on it.
pub fn solve<H: Shelf, K: Sink>(
    alloc: Global,
    words: &[Name],
    shelf: &mut H,
    out: &mut K,
) -> Result<Ending, Stop<Refusal>>
    ensures { Ends (solve_job words.now) (desk H.Shelf K.Sink shelf.old out.old) (desk H.Shelf K.Sink shelf.new out.new) result }
{
    let search = read_search(alloc, words, shelf)?;
    write_report(alloc, &search, out)
}

/// What the words ask for.
fn read_search<H: Shelf>(
    alloc: Global,
    words: &[Name],
    shelf: &mut H,
) -> Result<Search, Stop<Refusal>>
    ensures judges { JudgesAs searched (solve_stage words.now) (shelf_at H.Shelf shelf.old) (shelf_at H.Shelf shelf.new) result }
    ensures some { IfOk result (λ search. 1 ≤ search.budget) }
{
    match words {
        [formula, word] => read_parts(alloc, formula, word, shelf),
        _ => Err(Stop::Refused(Refusal::Words(WordRefusal::Usage))),
    }
}

/// The formula and the budget that the two words name.
fn read_parts<H: Shelf>(
    alloc: Global,
    formula: &Name,
    word: &Name,
    shelf: &mut H,
) -> Result<Search, Stop<Refusal>>
    ensures judges { JudgesAs searched (search_stage formula.now word.now) (shelf_at H.Shelf shelf.old) (shelf_at H.Shelf shelf.new) result }
    ensures some { IfOk result (λ search. 1 ≤ search.budget) }
{
    let budget = read_budget(word)?;
    let formula = read_formula(alloc, shelf, formula)?;
    Ok(Search { formula, budget })
}

/// Writes the report of the search.
fn write_report<K: Sink>(
    alloc: Global,
    search: &Search,
    out: &mut K,
) -> Result<Ending, Stop<Refusal>>
    requires { 1 ≤ search.now.budget }
    ensures { Writes solve_texts (searched search.now) (sink_at K.Sink out.old) (sink_at K.Sink out.new) result }
{
    match solve_report::write(alloc, &search.formula, search.budget, out) {
        Ok(SearchEnding::Decided) => Ok(Ending::Whole),
        Ok(SearchEnding::Undecided) => Ok(Ending::Undecided),
        Err(ReportFault::Write) => Err(Stop::WriteFault),
        Err(ReportFault::NoMemory) => Err(Stop::NoMemory),
    }
}
