//! The command, from its words to its report.

ghost use Rattle.std.specs.Prelude.{◌≡◌, Err, IfOk};
ghost use Rattle.probe_io.specs.Devices.{ShelfState, shelf_at, sink_at};
ghost use Rattle.defect_sweep.specs.Sides.{AreSides};
ghost use Rattle.defect_sweep.specs.Bridges.{HasManyBridges};
ghost use Rattle.bridge_rank.specs.Ranking.{IsRanking};
ghost use Rattle.command_base.specs.Desks.{desk};
ghost use Rattle.command_base.specs.Stages.{JudgesAs};
ghost use Rattle.command_base.specs.Jobs.{Ends, Writes};
ghost use Rattle.command_inputs.specs.Views.{mapped as seen};
ghost use Rattle.bridges_command.specs.Command.{ranked_stage, subject_stage, bridges_stage, bridges_texts, bridges_job};
ghost use Rattle.bridges_command.specs.Views.{subject_of};

use crate::report::put_report;
use bridge_rank::order;
use command_base::{Ending, Stop, stopped};
use command_inputs::{MappedNets, read_layout, read_sides};
use command_refusals::{Refusal, WordRefusal};
use defect_sweep::{PairCount, SideWeight, SweepRefusal, counts};
use net_trace::Traced;
use probe_io::{LineRoom, Name, Shelf, Sink};
use std::alloc::Global;

/// Room for a line of the report. The longest has two names of nets and sixteen counts, far below this.
const ROOM: usize = 4096;

/// What a report is made on: the sides of the defects, the map with the named nets, and their ranked bridges.
#[derive(Debug, Drop)]
pub struct Subject {
    pub sides: Vec<SideWeight>,
    pub mapped: MappedNets,
    pub ranked: Vec<PairCount>,
}

/// Judges the words after `bridges`, reads the map and the layout, and writes the report on them.
pub fn bridges<H: Shelf, K: Sink>(
    alloc: Global,
    words: &[Name],
    shelf: &mut H,
    out: &mut K,
) -> Result<Ending, Stop<Refusal>>
    ensures { Ends (bridges_job words.now) (desk H.Shelf K.Sink shelf.old out.old) (desk H.Shelf K.Sink shelf.new out.new) result }
{
    let subject = read_subject(alloc, words, shelf)?;
    write_report(alloc, &subject, out)
}

/// What the words ask for.
fn read_subject<H: Shelf>(
    alloc: Global,
    words: &[Name],
    shelf: &mut H,
) -> Result<Subject, Stop<Refusal>>
    ensures { JudgesAs subject_of (bridges_stage words.now) (shelf_at H.Shelf shelf.old) (shelf_at H.Shelf shelf.new) result }
{
    match words {
        [map, cif, word] => read_parts(alloc, map, cif, word, shelf),
        _ => Err(Stop::Refused(Refusal::Words(WordRefusal::Usage))),
    }
}

/// What the three words name.
fn read_parts<H: Shelf>(
    alloc: Global,
    map: &Name,
    cif: &Name,
    word: &Name,
    shelf: &mut H,
) -> Result<Subject, Stop<Refusal>>
    ensures { JudgesAs subject_of (subject_stage map.now cif.now word.now) (shelf_at H.Shelf shelf.old) (shelf_at H.Shelf shelf.new) result }
{
    let sides = read_sides(alloc, word)?;
    let mapped = read_layout(alloc, shelf, map, cif)?;
    let ranked = rank(alloc, &mapped, sides.as_slice())?;
    Ok(Subject {
        sides,
        mapped,
        ranked,
    })
}

/// The bridges of the nets, in the order of their ranks.
fn rank(
    alloc: Global,
    mapped: &MappedNets,
    sides: &[SideWeight],
) -> Result<Vec<PairCount>, Stop<Refusal>>
    requires { AreSides sides.now }
    ensures { (shelf : ShelfState) → JudgesAs (λ v. v.items) (ranked_stage (seen mapped.now) sides.now) shelf shelf result }
{
    match ranked_bridges(alloc, mapped.named.traced(), sides) {
        Ok(ranked) => Ok(ranked),
        Err(refusal) => Err(stopped(refusal)),
    }
}

/// The bridges of traced nets, in the order of their ranks.
fn ranked_bridges(
    alloc: Global,
    traced: &Traced,
    sides: &[SideWeight],
) -> Result<Vec<PairCount>, SweepRefusal>
    requires sides { AreSides sides.now }
    ensures ranking { IfOk result (λ ranked. IsRanking traced.now sides.now ranked.items) }
    ensures many { result ≡ Err SweepRefusal.TooManyBridges → HasManyBridges traced.now sides.now }
{
    Ok(order(counts(alloc, traced, sides)?))
}

/// Writes the report on the subject. Its memory is taken before the first write.
fn write_report<K: Sink>(
    alloc: Global,
    subject: &Subject,
    out: &mut K,
) -> Result<Ending, Stop<Refusal>>
    ensures { Writes bridges_texts (subject_of subject.now) (sink_at K.Sink out.old) (sink_at K.Sink out.new) result }
{
    let Ok(mut room) = LineRoom::new(alloc, ROOM) else {
        return Err(Stop::NoMemory);
    };
    match put_report(&mut room, subject, out) {
        Ok(()) => Ok(Ending::Whole),
        Err(_) => Err(Stop::WriteFault),
    }
}
