//! What each line adds to the map, unless it is at fault.

ghost use Rattle.std.specs.Prelude.{◌≡◌, [], ◌∷◌, ◌++◌, OnOk, is_ok, if◌then◌else◌};

use crate::building::build;
use crate::judge::{
    are_distinct, count_words, is_any_supply, is_layer, is_unbounded, is_wire, names_of, wire_of,
    wires_of,
};
use crate::map::{CutLine, FetLine, LabelLine, LayerMap, WireLine};
use crate::refusal::{MapRefusal, Side};
use crate::rows::Row;
use plane_geom::{Label, Short};
use std::alloc::{AllocError, Global};
use switch_net::Kind;

/// The most wires.
const MOST_WIRES: usize = 16;

/// The most cut lines.
const MOST_CUTS: usize = 32;

/// The most lines of transistors.
const MOST_FETS: usize = 8;

/// The most label lines.
const MOST_LABELS: usize = 64;

/// The most names of one supply.
const MOST_NAMES: usize = 32;

/// The most wires in one list.
const LONGEST_LIST: usize = 16;

impl LayerMap {
    ghost use Rattle.std.specs.Prelude.{◌≡◌, ◌≢◌, true, false, OnOk, IfErr, Some, length};
    ghost use Rattle.plane_geom.specs.Names.{is_short};
    ghost use Rattle.layer_map.specs.Words.{words_of};
    ghost use Rattle.layer_map.specs.Grammar.{wire, cut, fet, label, supply};
    ghost use Rattle.layer_map.specs.Readers.{tree_of};
    ghost use Rattle.layer_map.specs.Faults.{fault_in, supplies};
    ghost use Rattle.layer_map.specs.RowViews.{row_seen, HasTree, HasList, IsFormed};
    ghost use Rattle.layer_map.specs.Steps.{Adds};

    fn add_wire(
        &mut self,
        alloc: Global,
        number: u64,
        name: &[u8],
        expr: &[u8],
    ) -> Result<(), MapRefusal>
        requires { HasTree expr.now }
        ensures added { OnOk result (Adds number self.old (wire name.now (tree_of (words_of true expr.now))) self.new) }
        ensures fault { IfErr result (λ fault. fault ≢ MapRefusal.NoMemory → fault_in number self.old (wire name.now (tree_of (words_of true expr.now))) ≡ Some fault) }
    {
        if self.wires.len() >= MOST_WIRES {
            return Err(MapRefusal::TooMany(number));
        }
        let Some(expr) = build(alloc, expr)? else {
            return Err(MapRefusal::TooMany(number));
        };
        if is_wire(&self.wires, name) {
            return Err(MapRefusal::TwiceNamed(number));
        }
        if is_unbounded(&expr) {
            return Err(MapRefusal::Unbounded(number));
        }
        let name = Label::new(alloc, name)?;
        push(&mut self.wires, WireLine { name, expr })?;
        Ok(())
    }

    fn add_cut(
        &mut self,
        alloc: Global,
        number: u64,
        expr: &[u8],
        wires: &[u8],
    ) -> Result<(), MapRefusal>
        requires tree { HasTree expr.now }
        requires list { HasList wires.now }
        ensures added { OnOk result (Adds number self.old (cut (tree_of (words_of true expr.now)) (words_of true wires.now)) self.new) }
        ensures fault { IfErr result (λ fault. fault ≢ MapRefusal.NoMemory → fault_in number self.old (cut (tree_of (words_of true expr.now)) (words_of true wires.now)) ≡ Some fault) }
    {
        if self.cuts.len() >= MOST_CUTS || count_words(true, wires) > LONGEST_LIST {
            return Err(MapRefusal::TooMany(number));
        }
        let Some(expr) = build(alloc, expr)? else {
            return Err(MapRefusal::TooMany(number));
        };
        let Some(wires) = wires_of(alloc, &self.wires, wires)? else {
            return Err(MapRefusal::UnknownWire(number));
        };
        if is_unbounded(&expr) {
            return Err(MapRefusal::Unbounded(number));
        }
        push(&mut self.cuts, CutLine { expr, wires })?;
        Ok(())
    }

    fn add_fet(
        &mut self,
        alloc: Global,
        number: u64,
        kind: Kind,
        expr: &[u8],
        gate: &[u8],
        diff: &[u8],
    ) -> Result<(), MapRefusal>
        requires { HasTree expr.now }
        ensures added { OnOk result (Adds number self.old (fet kind (tree_of (words_of true expr.now)) gate.now diff.now) self.new) }
        ensures fault { IfErr result (λ fault. fault ≢ MapRefusal.NoMemory → fault_in number self.old (fet kind (tree_of (words_of true expr.now)) gate.now diff.now) ≡ Some fault) }
    {
        if self.fets.len() >= MOST_FETS {
            return Err(MapRefusal::TooMany(number));
        }
        let Some(channel) = build(alloc, expr)? else {
            return Err(MapRefusal::TooMany(number));
        };
        let Some(gate) = wire_of(&self.wires, gate) else {
            return Err(MapRefusal::UnknownWire(number));
        };
        let Some(diff) = wire_of(&self.wires, diff) else {
            return Err(MapRefusal::UnknownWire(number));
        };
        if is_unbounded(&channel) {
            return Err(MapRefusal::Unbounded(number));
        }
        push(
            &mut self.fets,
            FetLine {
                kind,
                channel,
                gate,
                diff,
            },
        )?;
        Ok(())
    }

    fn add_label(
        &mut self,
        alloc: Global,
        number: u64,
        layer: &[u8],
        wires: &[u8],
    ) -> Result<(), MapRefusal>
        requires list { HasList wires.now }
        requires short { is_short layer.now ≡ true }
        ensures added { OnOk result (Adds number self.old (label layer.now (words_of true wires.now)) self.new) }
        ensures fault { IfErr result (λ fault. fault ≢ MapRefusal.NoMemory → fault_in number self.old (label layer.now (words_of true wires.now)) ≡ Some fault) }
    {
        if self.labels.len() >= MOST_LABELS || count_words(true, wires) > LONGEST_LIST {
            return Err(MapRefusal::TooMany(number));
        }
        let Some(wires) = wires_of(alloc, &self.wires, wires)? else {
            return Err(MapRefusal::UnknownWire(number));
        };
        let layer = Short::new(layer).unwrap();
        if is_layer(&self.labels, layer) {
            return Err(MapRefusal::TwiceNamed(number));
        }
        push(&mut self.labels, LabelLine { layer, wires })?;
        Ok(())
    }

    /// How many names the supply has so far.
    fn supply_size(&self, side: Side) -> usize
        ensures { result ≡ length (supplies side self.now) }
    {
        match side {
            Side::High => self.high.len(),
            Side::Low => self.low.len(),
        }
    }

    fn add_supply(
        &mut self,
        alloc: Global,
        number: u64,
        side: Side,
        names: &[u8],
    ) -> Result<(), MapRefusal>
        ensures added { OnOk result (Adds number self.old (supply side (words_of false names.now)) self.new) }
        ensures fault { IfErr result (λ fault. fault ≢ MapRefusal.NoMemory → fault_in number self.old (supply side (words_of false names.now)) ≡ Some fault) }
    {
        if self
            .supply_size(side)
            .saturating_add(count_words(false, names))
            > MOST_NAMES
        {
            return Err(MapRefusal::TooMany(number));
        }
        let names = names_of(alloc, names)?;
        if is_any_supply(&self.high, &self.low, &names) || !are_distinct(&names) {
            return Err(MapRefusal::TwiceNamed(number));
        }
        match side {
            Side::High => append(&mut self.high, names)?,
            Side::Low => append(&mut self.low, names)?,
        }
        Ok(())
    }

    /// Adds what the line with this number says, or answers its first fault.
    pub(crate) fn add(&mut self, alloc: Global, number: u64, row: Row<'_>) -> Result<(), MapRefusal>
        requires { IsFormed row }
        ensures added { OnOk result (Adds number self.old (row_seen row.entry) self.new) }
        ensures fault { IfErr result (λ fault. fault ≢ MapRefusal.NoMemory → fault_in number self.old (row_seen row.entry) ≡ Some fault) }
    {
        match row {
            Row::Nothing => Ok(()),
            Row::Wire { name, expr } => self.add_wire(alloc, number, name, expr),
            Row::Cut { expr, wires } => self.add_cut(alloc, number, expr, wires),
            Row::Fet {
                kind,
                expr,
                gate,
                diff,
            } => self.add_fet(alloc, number, kind, expr, gate, diff),
            Row::Label { layer, wires } => self.add_label(alloc, number, layer, wires),
            Row::Supply { side, names } => self.add_supply(alloc, number, side, names),
        }
    }
}

/// Puts a value at the end.
fn push<T: Drop>(items: &mut Vec<T>, item: T) -> Result<(), AllocError>
    ensures { items.new.items ≡ (if is_ok result then items.old.items ++ item ∷ [] else items.old.items) }
{
    items.push(item)?;
    Ok(())
}

/// Puts the names behind the others.
fn append(names: &mut Vec<Label>, others: Vec<Label>) -> Result<(), AllocError>
    ensures { OnOk result (names.new.items ≡ names.old.items ++ others.items) }
{
    for name in others {
        names.push(name)?;
    }
    Ok(())
}
