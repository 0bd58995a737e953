//! The line of diagnostics of each refusal.

ghost use Rattle.probe_io.specs.Devices.{Puts, sink_at};
ghost use Rattle.command_refusals.specs.Lines.{word_line, formula_line, map_line, cif_line, flat_line, layout_line, sweep_line, place_line, unsupported_line, undefined_line};

use crate::refusal::WordRefusal;
use cif_flatten::FlattenRefusal;
use cif_reader::{CifRefusal, Feature};
use clause_base::FormulaFault;
use defect_sweep::SweepRefusal;
use layer_map::{MapRefusal, Side};
use layout_extract::LayoutRefusal;
use probe_io::{Failed, Piece, Sink, put_all, put_pieces};

/// Writes the line of refused words.
pub(crate) fn put_word_line<K: Sink>(diag: &mut K, refusal: &WordRefusal) -> Result<(), Failed>
    ensures { Puts (word_line refusal.now) (sink_at K.Sink diag.old) (sink_at K.Sink diag.new) result }
{
    match refusal {
        WordRefusal::Usage => put_all(diag, b"carafe: Usage\n"),
        WordRefusal::BadSide => put_all(diag, b"carafe: BadSide\n"),
        WordRefusal::BadBudget => put_all(diag, b"carafe: BadBudget\n"),
    }
}

/// Writes the line of a refused formula.
pub(crate) fn put_formula_line<K: Sink>(diag: &mut K, fault: &FormulaFault) -> Result<(), Failed>
    ensures { Puts (formula_line fault.now) (sink_at K.Sink diag.old) (sink_at K.Sink diag.new) result }
{
    match fault {
        FormulaFault::TooLong => put_all(diag, b"carafe: FormulaTooLong\n"),
        FormulaFault::Syntax(place) => put_place(diag, b"FormulaSyntax", *place),
        FormulaFault::TooLarge(place) => put_place(diag, b"FormulaTooLarge", *place),
        FormulaFault::NoMemory => put_all(diag, b"carafe: NoMemory\n"),
    }
}

/// Writes the line of a refused map.
pub(crate) fn put_map_line<K: Sink>(diag: &mut K, refusal: &MapRefusal) -> Result<(), Failed>
    ensures { Puts (map_line refusal.now) (sink_at K.Sink diag.old) (sink_at K.Sink diag.new) result }
{
    match refusal {
        MapRefusal::MapTooLong => put_all(diag, b"carafe: MapTooLong\n"),
        MapRefusal::BadLine(line) => put_place(diag, b"BadLine", *line),
        MapRefusal::UnknownWire(line) => put_place(diag, b"UnknownWire", *line),
        MapRefusal::Unbounded(line) => put_place(diag, b"Unbounded", *line),
        MapRefusal::TwiceNamed(line) => put_place(diag, b"TwiceNamed", *line),
        MapRefusal::NoSupplyLine(Side::High) => put_all(diag, b"carafe: NoSupplyLine high\n"),
        MapRefusal::NoSupplyLine(Side::Low) => put_all(diag, b"carafe: NoSupplyLine low\n"),
        MapRefusal::TooMany(line) => put_place(diag, b"TooMany", *line),
        MapRefusal::NoMemory => put_all(diag, b"carafe: NoMemory\n"),
    }
}

/// Writes the line of a refused layout.
pub(crate) fn put_cif_line<K: Sink>(diag: &mut K, refusal: &CifRefusal) -> Result<(), Failed>
    ensures { Puts (cif_line refusal.now) (sink_at K.Sink diag.old) (sink_at K.Sink diag.new) result }
{
    match refusal {
        CifRefusal::CifTooLong => put_all(diag, b"carafe: CifTooLong\n"),
        CifRefusal::Syntax(place) => put_place(diag, b"Syntax", *place),
        CifRefusal::NumberTooLarge(place) => put_place(diag, b"NumberTooLarge", *place),
        CifRefusal::Unsupported(place, Feature::Round) => put_unsupported(diag, *place, b"Round"),
        CifRefusal::Unsupported(place, Feature::DefDelete) => put_unsupported(
            diag,
            *place,
            b"DefDelete",
        ),
        CifRefusal::NotManhattan(place) => put_place(diag, b"NotManhattan", *place),
        CifRefusal::NoLayer(place) => put_place(diag, b"NoLayer", *place),
        CifRefusal::TwiceDefined(place) => put_place(diag, b"TwiceDefined", *place),
        CifRefusal::ZeroScale(place) => put_place(diag, b"ZeroScale", *place),
        CifRefusal::OffGrid(place) => put_place(diag, b"OffGrid", *place),
        CifRefusal::BadLabel(place) => put_place(diag, b"BadLabel", *place),
        CifRefusal::TooManyPoints(place) => put_place(diag, b"TooManyPoints", *place),
        CifRefusal::NoMemory => put_all(diag, b"carafe: NoMemory\n"),
    }
}

/// Writes the line of a layout whose nets are not named.
pub(crate) fn put_layout_line<K: Sink>(diag: &mut K, refusal: &LayoutRefusal) -> Result<(), Failed>
    ensures { Puts (layout_line refusal.now) (sink_at K.Sink diag.old) (sink_at K.Sink diag.new) result }
{
    match refusal {
        LayoutRefusal::Flat(refusal) => put_flat_line(diag, refusal),
        LayoutRefusal::TooManyNets => put_all(diag, b"carafe: TooManyNets\n"),
        LayoutRefusal::LabelAmbiguous(place) => put_place(diag, b"LabelAmbiguous", *place),
        LayoutRefusal::NoMemory => put_all(diag, b"carafe: NoMemory\n"),
    }
}

/// Writes the line of a layout that is not unfolded.
fn put_flat_line<K: Sink>(diag: &mut K, refusal: &FlattenRefusal) -> Result<(), Failed>
    ensures { Puts (flat_line refusal.now) (sink_at K.Sink diag.old) (sink_at K.Sink diag.new) result }
{
    match refusal {
        FlattenRefusal::Undefined(place, symbol) => put_undefined(diag, *place, *symbol),
        FlattenRefusal::Recursive(symbol) => put_place(diag, b"Recursive", *symbol as u64),
        FlattenRefusal::TooManyCalls => put_all(diag, b"carafe: TooManyCalls\n"),
        FlattenRefusal::TooManyEdges => put_all(diag, b"carafe: TooManyEdges\n"),
        FlattenRefusal::OutOfRange(place) => put_place(diag, b"OutOfRange", *place),
        FlattenRefusal::TooFine => put_all(diag, b"carafe: TooFine\n"),
        FlattenRefusal::NoMemory => put_all(diag, b"carafe: NoMemory\n"),
    }
}

/// Writes the line of a call at a place of the text that names no symbol.
fn put_undefined<K: Sink>(diag: &mut K, place: u64, symbol: u32) -> Result<(), Failed>
    ensures { Puts (undefined_line place symbol) (sink_at K.Sink diag.old) (sink_at K.Sink diag.new) result }
{
    put_pieces(
        diag,
        &[
            Piece::Text(b"carafe: Undefined "),
            Piece::Number(place),
            Piece::Text(b" "),
            Piece::Number(symbol as u64),
            Piece::Text(b"\n"),
        ],
    )
}

/// Writes the line of a layout with too many bridges.
pub(crate) fn put_sweep_line<K: Sink>(diag: &mut K, refusal: &SweepRefusal) -> Result<(), Failed>
    ensures { Puts (sweep_line refusal.now) (sink_at K.Sink diag.old) (sink_at K.Sink diag.new) result }
{
    match refusal {
        SweepRefusal::TooManyBridges => put_all(diag, b"carafe: TooManyBridges\n"),
        SweepRefusal::NoMemory => put_all(diag, b"carafe: NoMemory\n"),
    }
}

/// Writes the line of a refusal of this name at a place of the text.
fn put_place<K: Sink>(diag: &mut K, name: &[u8], place: u64) -> Result<(), Failed>
    ensures { Puts (place_line name.now place) (sink_at K.Sink diag.old) (sink_at K.Sink diag.new) result }
{
    put_pieces(
        diag,
        &[
            Piece::Text(b"carafe: "),
            Piece::Text(name),
            Piece::Text(b" "),
            Piece::Number(place),
            Piece::Text(b"\n"),
        ],
    )
}

/// Writes the line of a feature of this name that is not read, at a place of the text.
fn put_unsupported<K: Sink>(diag: &mut K, place: u64, name: &[u8]) -> Result<(), Failed>
    ensures { Puts (unsupported_line place name.now) (sink_at K.Sink diag.old) (sink_at K.Sink diag.new) result }
{
    put_pieces(
        diag,
        &[
            Piece::Text(b"carafe: Unsupported "),
            Piece::Number(place),
            Piece::Text(b" "),
            Piece::Text(name),
            Piece::Text(b"\n"),
        ],
    )
}
