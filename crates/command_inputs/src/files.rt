//! From the names of files to the layer map, the layout's nets and the formula that they spell.

ghost use Rattle.std.specs.Prelude.{◌≡◌};
ghost use Rattle.probe_io.specs.Devices.{shelf_at};
ghost use Rattle.command_base.specs.Stages.{Judges, JudgesAs};
ghost use Rattle.command_inputs.specs.Stages.{longest_map, longest_cif, longest_formula, map_stage, cif_stage, layout_stage, formula_stage};
ghost use Rattle.command_inputs.specs.Views.{mapped};

use cif_reader::{CifFile, CifRefusal};
use clause_base::{Formula, FormulaFault};
use command_base::{Stop, Which, read_file, stopped};
use command_refusals::Refusal;
use layer_map::{LayerMap, MapRefusal};
use layout_extract::{Named, name_nets};
use probe_io::{Name, Shelf};
use std::alloc::Global;

/// A layer map, and the named nets of a layout under it.
#[derive(Debug, Drop)]
pub struct MappedNets {
    pub map: LayerMap,
    pub named: Named,
}

/// The layer map of this name, and the named nets of the layout of that name under it.
pub fn read_layout<H: Shelf>(
    alloc: Global,
    shelf: &mut H,
    map: &Name,
    cif: &Name,
) -> Result<MappedNets, Stop<Refusal>>
    ensures { JudgesAs mapped (layout_stage map.now cif.now) (shelf_at H.Shelf shelf.old) (shelf_at H.Shelf shelf.new) result }
{
    let map = read_map(alloc, shelf, map)?;
    let file = read_cif(alloc, shelf, cif)?;
    match name_nets(alloc, &file, &map) {
        Ok(named) => Ok(MappedNets { map, named }),
        Err(refusal) => Err(stopped(refusal)),
    }
}

/// The layer map of this name, of at most 65,536 bytes.
#[tactic(auto, unfolding(crate::specs::Stages::longest_map))]
fn read_map<H: Shelf>(alloc: Global, shelf: &mut H, name: &Name) -> Result<LayerMap, Stop<Refusal>>
    ensures { Judges (map_stage name.now) (shelf_at H.Shelf shelf.old) (shelf_at H.Shelf shelf.new) result }
{
    let too_long = Refusal::Map(MapRefusal::MapTooLong);
    let bytes = read_file(alloc, shelf, Which::Map, name, 65_536, too_long)?;
    match layer_map::read(alloc, bytes.as_slice()) {
        Ok(map) => Ok(map),
        Err(refusal) => Err(stopped(refusal)),
    }
}

/// What the layout of this name spells, of at most 16,777,216 bytes.
#[tactic(auto, unfolding(crate::specs::Stages::longest_cif))]
fn read_cif<H: Shelf>(alloc: Global, shelf: &mut H, name: &Name) -> Result<CifFile, Stop<Refusal>>
    ensures { Judges (cif_stage name.now) (shelf_at H.Shelf shelf.old) (shelf_at H.Shelf shelf.new) result }
{
    let too_long = Refusal::Cif(CifRefusal::CifTooLong);
    let bytes = read_file(alloc, shelf, Which::Cif, name, 16_777_216, too_long)?;
    match cif_reader::read(alloc, bytes.as_slice()) {
        Ok(file) => Ok(file),
        Err(refusal) => Err(stopped(refusal)),
    }
}

/// The formula of this name, of at most 16,777,216 bytes.
#[tactic(auto, unfolding(crate::specs::Stages::longest_formula))]
pub fn read_formula<H: Shelf>(
    alloc: Global,
    shelf: &mut H,
    name: &Name,
) -> Result<Formula, Stop<Refusal>>
    ensures { Judges (formula_stage name.now) (shelf_at H.Shelf shelf.old) (shelf_at H.Shelf shelf.new) result }
{
    let too_long = Refusal::Formula(FormulaFault::TooLong);
    let bytes = read_file(alloc, shelf, Which::Formula, name, 16_777_216, too_long)?;
    match clause_base::read_formula(alloc, bytes.as_slice()) {
        Ok(formula) => Ok(formula),
        Err(fault) => Err(stopped(fault)),
    }
}
