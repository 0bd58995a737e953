//! From each layer's refusal to the call's.

use crate::refusal::Refusal;
use cif_reader::CifRefusal;
use clause_base::FormulaFault;
use command_base::Carry;
use defect_sweep::SweepRefusal;
use layer_map::MapRefusal;
use layout_extract::LayoutRefusal;

impl Carry<Refusal> for MapRefusal {
    ghost use Rattle.command_refusals.specs.Carried.{map_carried};

    ghost carried = { map_carried };

    fn carry(self) -> Option<Refusal> {
        match self {
            MapRefusal::NoMemory => None,
            _ => Some(Refusal::Map(self)),
        }
    }
}

impl Carry<Refusal> for CifRefusal {
    ghost use Rattle.command_refusals.specs.Carried.{cif_carried};

    ghost carried = { cif_carried };

    fn carry(self) -> Option<Refusal> {
        match self {
            CifRefusal::NoMemory => None,
            _ => Some(Refusal::Cif(self)),
        }
    }
}

impl Carry<Refusal> for LayoutRefusal {
    ghost use Rattle.command_refusals.specs.Carried.{layout_carried};

    ghost carried = { layout_carried };

    fn carry(self) -> Option<Refusal> {
        match self {
            LayoutRefusal::NoMemory => None,
            _ => Some(Refusal::Layout(self)),
        }
    }
}

impl Carry<Refusal> for SweepRefusal {
    ghost use Rattle.command_refusals.specs.Carried.{sweep_carried};

    ghost carried = { sweep_carried };

    fn carry(self) -> Option<Refusal> {
        match self {
            SweepRefusal::NoMemory => None,
            _ => Some(Refusal::Sweep(self)),
        }
    }
}

impl Carry<Refusal> for FormulaFault {
    ghost use Rattle.command_refusals.specs.Carried.{formula_carried};

    ghost carried = { formula_carried };

    fn carry(self) -> Option<Refusal> {
        match self {
            FormulaFault::NoMemory => None,
            _ => Some(Refusal::Formula(self)),
        }
    }
}
