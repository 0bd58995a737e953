//! Lists of sides, as they are printed.

ghost use Rattle.std.specs.Prelude.{◌++◌, flat_map};
ghost use Rattle.probe_io.specs.Devices.{Puts, sink_at};
ghost use Rattle.defect_sweep.specs.SideTexts.{entry_text, next_text, sides_text};

use defect_sweep::SideWeight;
use probe_io::{Failed, Piece, Sink, put_pieces};

/// Writes the sides as a word. After `Failed` a prefix of it was written. It takes no memory.
pub fn put_sides<K: Sink>(sink: &mut K, sides: &[SideWeight]) -> Result<(), Failed>
    ensures { Puts (sides_text sides.now) (sink_at K.Sink sink.old) (sink_at K.Sink sink.new) result }
{
    let Some((first, rest)) = sides.split_first() else {
        return Ok(());
    };
    put_side(sink, b"", first)?;
    put_next_sides(sink, rest)
}

/// Writes sides, each with a `,` before it.
fn put_next_sides<K: Sink>(sink: &mut K, sides: &[SideWeight]) -> Result<(), Failed>
    ensures { Puts (flat_map next_text sides.now) (sink_at K.Sink sink.old) (sink_at K.Sink sink.new) result }
{
    for side in sides {
        put_side(sink, b",", side)?;
    }
    Ok(())
}

/// Writes the entry of a side, with this text before it.
fn put_side<K: Sink>(sink: &mut K, before: &[u8], side: &SideWeight) -> Result<(), Failed>
    ensures { Puts (before.now ++ entry_text side.now) (sink_at K.Sink sink.old) (sink_at K.Sink sink.new) result }
{
    let size = Piece::Number(side.cells as u64 / 2);
    if side.weight == 1 {
        return put_pieces(sink, &[Piece::Text(before), size]);
    }
    let weight = Piece::Number(side.weight as u64);
    put_pieces(
        sink,
        &[Piece::Text(before), size, Piece::Text(b":"), weight],
    )
}
