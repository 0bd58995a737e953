//! The lines of a ranked list.

ghost use Rattle.std.specs.Prelude.{◌≡◌, ◌++◌, flat_map};
ghost use Rattle.probe_io.specs.Devices.{Puts, sink_at};
ghost use Rattle.bridge_rank.specs.Lines.{name_at, line_names, wire_count, bridge_start, bridge_line};

use defect_sweep::PairCount;
use layer_map::{WireId, WireLine};
use plane_geom::Label;
use probe_io::{Failed, Line, Piece, Sink, put_all, put_pieces};

/// The line of a bridge, as `bridge_line` defines it.
#[derive(Debug, Clone, Copy)]
pub struct BridgeLine<'a> {
    /// The map's lines of wires, which name them.
    pub wires: &'a [WireLine],
    /// The nets' names, by their numbers.
    pub names: &'a [Label],
    /// The place in the list, from 1.
    pub place: usize,
    /// The pair with its counts.
    pub bridge: &'a PairCount,
    /// What follows the counts, with the line's end.
    pub end: &'a [u8],
}

impl<'a> Line for BridgeLine<'a> {
    ghost use Rattle.bridge_rank.specs.Lines.{line_names, bridge_line};

    ghost text = { λ l. bridge_line (line_names l.wires.now) l.names.now l.place l.bridge.now l.end.now };

    fn put<K: Sink>(&self, sink: &mut K) -> Result<(), Failed> {
        put_start(sink, self.names, self.place, self.bridge)?;
        put_counts(sink, self.wires, self.bridge.on())?;
        put_all(sink, self.end)
    }
}

/// The name of the net, and nothing where no net has that number.
fn net_name(names: &[Label], number: u32) -> &[u8]
    ensures { result.now ≡ name_at names.now number }
{
    match names.get(number as usize) {
        Some(name) => name.as_bytes(),
        None => b"",
    }
}

/// The name of the wire, and nothing where no wire has that number.
fn wire_name(wires: &[WireLine], wire: WireId) -> &[u8]
    ensures { result.now ≡ name_at (line_names wires.now) wire.0 }
{
    match wires.get(wire.0 as usize) {
        Some(line) => line.name.as_bytes(),
        None => b"",
    }
}

/// Writes the place in the list, the two nets and the count in all.
#[tactic(auto, unfolding(crate::specs::Lines::bridge_start))]
fn put_start<K: Sink>(
    sink: &mut K,
    names: &[Label],
    place: usize,
    bridge: &PairCount,
) -> Result<(), Failed>
    ensures { Puts (bridge_start names.now place bridge.now) (sink_at K.Sink sink.old) (sink_at K.Sink sink.new) result }
{
    let pair = bridge.pair();
    put_pieces(
        sink,
        &[
            Piece::Text(b"bridge "),
            Piece::Number(place as u64),
            Piece::Text(b" "),
            Piece::Text(net_name(names, pair.a().0)),
            Piece::Text(b" "),
            Piece::Text(net_name(names, pair.b().0)),
            Piece::Text(b" "),
            Piece::Number(bridge.total()),
        ],
    )
}

/// Writes the counts on the wires.
fn put_counts<K: Sink>(
    sink: &mut K,
    wires: &[WireLine],
    counts: &[(WireId, u64)],
) -> Result<(), Failed>
    ensures { Puts (flat_map (wire_count (line_names wires.now)) counts.now) (sink_at K.Sink sink.old) (sink_at K.Sink sink.new) result }
{
    for count in counts {
        put_count(sink, wires, count)?;
    }
    Ok(())
}

/// Writes the count on a wire.
#[tactic(auto, unfolding(crate::specs::Lines::wire_count))]
fn put_count<K: Sink>(sink: &mut K, wires: &[WireLine], count: &(WireId, u64)) -> Result<(), Failed>
    ensures { Puts (wire_count (line_names wires.now) count.now) (sink_at K.Sink sink.old) (sink_at K.Sink sink.new) result }
{
    put_pieces(
        sink,
        &[
            Piece::Text(b" "),
            Piece::Text(wire_name(wires, count.0)),
            Piece::Text(b"="),
            Piece::Number(count.1),
        ],
    )
}
