//! The top call.

ghost use Rattle.probe_io.specs.Devices.{sink_at};
ghost use Rattle.command_base.specs.Desks.{desk};
ghost use Rattle.command_base.specs.Jobs.{Ends};
ghost use Rattle.command_base.specs.Answers.{IsAnswer, RefusesWhere, ReportsWhere, TellsFaults};
ghost use Rattle.command_refusals.specs.Lines.{refusal_line};
ghost use Rattle.carafe_core.specs.Commands.{job_named, job_of};

use bridges_command::bridges;
use command_base::{Ending, Stop, tell};
use command_refusals::{Refusal, Status, WordRefusal};
use probe_io::{Name, Shelf, Sink};
use solve_command::solve;
use std::alloc::Global;

/// The most words of a call.
const MOST_WORDS: usize = 4096;

/// The stop of a call whose words are no command.
const USAGE: Stop<Refusal> = Stop::Refused(Refusal::Words(WordRefusal::Usage));

/// Does what the words ask for and says how that ended.
pub fn carafe<H: Shelf, K: Sink, E: Sink>(
    alloc: Global,
    words: &[Name],
    shelf: &mut H,
    out: &mut K,
    diag: &mut E,
) -> Status
    ensures answer { IsAnswer refusal_line (job_of words.now) (desk H.Shelf K.Sink shelf.old out.old) (desk H.Shelf K.Sink shelf.new out.new)
        (sink_at E.Sink diag.old) (sink_at E.Sink diag.new) result }
    ensures refused { RefusesWhere (job_of words.now) (H.files shelf.old) result }
    ensures complete { ReportsWhere (job_of words.now) (desk H.Shelf K.Sink shelf.old out.old) (desk H.Shelf K.Sink shelf.new out.new)
        (sink_at E.Sink diag.old) (sink_at E.Sink diag.new) result }
    ensures faults { TellsFaults (desk H.Shelf K.Sink shelf.old out.old) (desk H.Shelf K.Sink shelf.new out.new)
        (sink_at E.Sink diag.old) (sink_at E.Sink diag.new) result }
{
    answered(alloc, words, shelf, out, diag)
}

/// Does what the words ask for, and tells how that ended.
fn answered<H: Shelf, K: Sink, E: Sink>(
    alloc: Global,
    words: &[Name],
    shelf: &mut H,
    out: &mut K,
    diag: &mut E,
) -> Status
    ensures { IsAnswer refusal_line (job_of words.now) (desk H.Shelf K.Sink shelf.old out.old) (desk H.Shelf K.Sink shelf.new out.new)
        (sink_at E.Sink diag.old) (sink_at E.Sink diag.new) result }
{
    tell(run(alloc, words, shelf, out), diag)
}

/// Runs the command that the first word names.
fn run<H: Shelf, K: Sink>(
    alloc: Global,
    words: &[Name],
    shelf: &mut H,
    out: &mut K,
) -> Result<Ending, Stop<Refusal>>
    ensures { Ends (job_of words.now) (desk H.Shelf K.Sink shelf.old out.old) (desk H.Shelf K.Sink shelf.new out.new) result }
{
    if words.len() > MOST_WORDS {
        return Err(USAGE);
    }
    match words.split_first() {
        Some((name, rest)) => run_named(alloc, name, rest, shelf, out),
        None => Err(USAGE),
    }
}

/// Runs the command of this name on the words after it.
fn run_named<H: Shelf, K: Sink>(
    alloc: Global,
    name: &Name,
    words: &[Name],
    shelf: &mut H,
    out: &mut K,
) -> Result<Ending, Stop<Refusal>>
    ensures { Ends (job_named name.now words.now) (desk H.Shelf K.Sink shelf.old out.old) (desk H.Shelf K.Sink shelf.new out.new) result }
{
    match name.as_str() {
        "bridges" => bridges(alloc, words, shelf, out),
        "solve" => solve(alloc, words, shelf, out),
        _ => Err(USAGE),
    }
}
