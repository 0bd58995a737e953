//! The text of a `bridges` report. Each line goes out in one write.

ghost use Rattle.std.specs.Prelude.{◌≡◌, ◌++◌};
ghost use Rattle.probe_io.specs.Devices.{Puts, sink_at};
ghost use Rattle.bridge_rank.specs.Lines.{line_names};
ghost use Rattle.bridges_command.specs.Report.{opening, numbers_text, header, bridge_lines, tally};
ghost use Rattle.bridges_command.specs.Command.{text_on};
ghost use Rattle.bridges_command.specs.Views.{tallied, subject_of};

use crate::command::Subject;
use bridge_rank::{BridgeLine, put_sides};
use defect_sweep::{PairCount, SideWeight};
use layer_map::WireLine;
use plane_geom::Label;
use probe_io::{Failed, Line, LineRoom, Piece, Sink, put_all, put_pieces};

/// The lines before the bridges, as `header` defines them.
#[derive(Debug, Clone, Copy)]
struct Header<'a> {
    sides: &'a [SideWeight],
    nets: usize,
    /// How many labels are bound, not bound and too deep.
    tallies: (u32, u32, u32),
    bridges: usize,
}

impl<'a> Line for Header<'a> {
    ghost use Rattle.bridges_command.specs.Report.{header};
    ghost use Rattle.bridges_command.specs.Views.{tallied};

    ghost text = { λ h. header h.sides.now h.nets (tallied h.tallies) h.bridges };

    fn put<K: Sink>(&self, sink: &mut K) -> Result<(), Failed> {
        put_opening(sink)?;
        put_sides(sink, self.sides)?;
        put_numbers(sink, self.nets, self.tallies, self.bridges)
    }
}

/// The last line, as `tally` defines it.
#[derive(Debug, Clone, Copy)]
struct Tally {
    bridges: usize,
}

impl Line for Tally {
    ghost use Rattle.bridges_command.specs.Report.{tally};

    ghost text = { λ t. tally t.bridges };

    #[tactic(auto, unfolding(crate::specs::Report::tally))]
    fn put<K: Sink>(&self, sink: &mut K) -> Result<(), Failed> {
        let bridges = Piece::Number(self.bridges as u64);
        put_pieces(
            sink,
            &[Piece::Text(b"tally bridges "), bridges, Piece::Text(b"\n")],
        )
    }
}

/// Writes what stands before the sides.
#[tactic(auto, unfolding(crate::specs::Report::opening))]
fn put_opening<K: Sink>(sink: &mut K) -> Result<(), Failed>
    ensures { Puts opening (sink_at K.Sink sink.old) (sink_at K.Sink sink.new) result }
{
    put_all(sink, b"carafe bridges 1\nside ")
}

/// Writes the numbers of nets, of labels that are bound, not bound and too deep, and of bridges.
#[tactic(auto, unfolding(crate::specs::Report::numbers_text))]
fn put_numbers<K: Sink>(
    sink: &mut K,
    nets: usize,
    tallies: (u32, u32, u32),
    bridges: usize,
) -> Result<(), Failed>
    ensures { Puts (numbers_text nets (tallied tallies) bridges) (sink_at K.Sink sink.old) (sink_at K.Sink sink.new) result }
{
    let (bound, unbound, deep) = tallies;
    put_pieces(
        sink,
        &[
            Piece::Text(b"\nnets "),
            Piece::Number(nets as u64),
            Piece::Text(b"\nlabels "),
            Piece::Number(bound as u64),
            Piece::Text(b" "),
            Piece::Number(unbound as u64),
            Piece::Text(b" "),
            Piece::Number(deep as u64),
            Piece::Text(b"\nbridges "),
            Piece::Number(bridges as u64),
            Piece::Text(b"\n"),
        ],
    )
}

/// The ranked bridges, with what names their wires and their nets.
#[derive(Debug, Clone, Copy)]
struct Listed<'a> {
    wires: &'a [WireLine],
    names: &'a [Label],
    ranked: &'a [PairCount],
}

/// Writes the whole report on the subject. After `Failed` a prefix of it was written.
pub(crate) fn put_report<K: Sink>(
    room: &mut LineRoom,
    subject: &Subject,
    out: &mut K,
) -> Result<(), Failed>
    ensures { Puts (text_on (subject_of subject.now)) (sink_at K.Sink out.old) (sink_at K.Sink out.new) result }
{
    let named = &subject.mapped.named;
    let header = Header {
        sides: subject.sides.as_slice(),
        nets: named.names().len(),
        tallies: named.tallies(),
        bridges: subject.ranked.len(),
    };
    let listed = Listed {
        wires: subject.mapped.map.wires(),
        names: named.names(),
        ranked: subject.ranked.as_slice(),
    };
    put_text(room, &header, &listed, out)
}

/// Writes the header, the lines of the bridges and the tally.
fn put_text<K: Sink>(
    room: &mut LineRoom,
    first: &Header,
    listed: &Listed,
    out: &mut K,
) -> Result<(), Failed>
    ensures { Puts (header first.now.sides.now first.now.nets (tallied first.now.tallies) first.now.bridges
        ++ (bridge_lines (line_names listed.now.wires.now) listed.now.names.now 1 listed.now.ranked.now ++ tally first.now.bridges))
        (sink_at K.Sink out.old) (sink_at K.Sink out.new) result }
{
    room.put(first, out)?;
    put_bridges(room, listed, out)?;
    let last = Tally {
        bridges: first.bridges,
    };
    room.put(&last, out)
}

/// Writes the lines of the bridges.
fn put_bridges<K: Sink>(room: &mut LineRoom, listed: &Listed, out: &mut K) -> Result<(), Failed>
    ensures { Puts (bridge_lines (line_names listed.now.wires.now) listed.now.names.now 1 listed.now.ranked.now)
        (sink_at K.Sink out.old) (sink_at K.Sink out.new) result }
{
    for (index, bridge) in listed.ranked.iter().enumerate() {
        let line = BridgeLine {
            wires: listed.wires,
            names: listed.names,
            place: index + 1,
            bridge,
            end: b"\n",
        };
        room.put(&line, out)?;
    }
    Ok(())
}
