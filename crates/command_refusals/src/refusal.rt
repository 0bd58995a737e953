//! Why a call is refused.

ghost use Rattle.std.specs.Prelude.{◌≡◌};

use crate::lines::{
    put_cif_line, put_formula_line, put_layout_line, put_map_line, put_sweep_line, put_word_line,
};
use cif_reader::CifRefusal;
use clause_base::FormulaFault;
use command_base::{AnyStatus, Told};
use defect_sweep::SweepRefusal;
use layer_map::MapRefusal;
use layout_extract::LayoutRefusal;
use probe_io::{Failed, Line, Sink};

/// Why words are refused.
#[derive(Debug, Clone, Copy, PartialEq, Eq)]
pub enum WordRefusal {
    /// The first word is no command, the command has another number of words, or there are over 4,096.
    Usage,
    /// SIDES spells no sides, as `SpellsSides` defines it.
    BadSide,
    /// BUDGET is no plain decimal from 1 to 1,000,000, as `SpellsBudget` defines it.
    BadBudget,
}

/// Why an input is refused. The crate that declares a variant's own refusal defines when it comes.
#[derive(Debug, Clone, Copy, PartialEq, Eq)]
pub enum Refusal {
    /// The words are refused.
    Words(WordRefusal),
    /// The map's text is refused.
    Map(MapRefusal),
    /// The layout's text is refused.
    Cif(CifRefusal),
    /// The layout is not unfolded, or its nets are not named.
    Layout(LayoutRefusal),
    /// Too many pairs of the layout's nets are met.
    Sweep(SweepRefusal),
    /// The formula's text is refused.
    Formula(FormulaFault),
}

/// How a call ends, as `IsAnswer` defines each status.
pub type Status = AnyStatus<Refusal>;

impl Line for Refusal {
    ghost use Rattle.command_refusals.specs.Lines.{refusal_line};

    ghost text = { refusal_line };

    fn put<K: Sink>(&self, sink: &mut K) -> Result<(), Failed> {
        match self {
            Refusal::Words(refusal) => put_word_line(sink, refusal),
            Refusal::Map(refusal) => put_map_line(sink, refusal),
            Refusal::Cif(refusal) => put_cif_line(sink, refusal),
            Refusal::Layout(refusal) => put_layout_line(sink, refusal),
            Refusal::Sweep(refusal) => put_sweep_line(sink, refusal),
            Refusal::Formula(fault) => put_formula_line(sink, fault),
        }
    }
}

impl Told for Refusal {
    ghost use Rattle.command_refusals.specs.Lines.{refusal_exit};

    ghost exit = { refusal_exit };

    fn exit(&self) -> u8 {
        match self {
            Refusal::Words(_) => 3,
            _ => 2,
        }
    }
}
