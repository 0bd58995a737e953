//! What a CIF file holds, in mask units.

use indexmap::IndexMap;
use plane_geom::{Label, Place, Point, Shape, Short};
use std::alloc::{AllocError, Global};
use std::marker::Model;

/// A shape, a call or a label, and where its command stands in the text.
#[derive(Debug, Drop)]
pub struct Item {
    /// The number of bytes before the command's first byte.
    pub pos: u64,
    pub what: What,
}

/// What a command says, in mask units.
#[derive(Debug, Drop)]
pub enum What {
    /// A shape on a layer.
    Draw {
        layer: Short,
        shape: Shape,
    },
    /// A call of the symbol of that number, placed.
    Call {
        symbol: u32,
        place: Place,
    },
    /// A label at a point, and the layer that it names, if it names one.
    Mark {
        name: Label,
        at: Point,
        layer: Option<Short>,
    },
}

/// A symbol: its number, where its definition begins in the text, and its items in the order of their commands.
#[derive(Debug, Drop)]
pub struct Symbol {
    pub number: u32,
    /// The number of bytes before the first byte of the definition.
    pub pos: u64,
    pub items: Vec<Item>,
}

/// A CIF file, as it is read. Contracts see its symbols in the order of their definitions, and the items of its top in
/// the order of their commands. By the definition `IsFile` its shapes are well formed, its coordinates are within
/// ±2147483647, and no two symbols have one number.
#[derive(Debug, Drop)]
pub struct CifFile {
    symbols: IndexMap<u32, Symbol>,
    top: Vec<Item>,
}

impl Model for CifFile {
    ghost use Rattle.std.specs.Prelude.{nat_eq};
    ghost use Rattle.indexmap.specs.IndexMap.{IsUnique, values};
    ghost use Rattle.cif_reader.specs.File.{Contents, IsFile, AreUnderNumbers};

    ghost Value = { Contents };

    ghost view = { λ f. record { symbols = values f.symbols; top = f.top.items } };

    ghost invariant = { λ f. AreUnderNumbers f.symbols.entries × IsUnique nat_eq f.symbols × IsFile (record { symbols = values f.symbols; top = f.top.items }) };
}

impl CifFile {
    ghost use Rattle.std.specs.Prelude.{◌≡◌, List, [], ◌∷◌, ◌++◌, OnOk, IfOk, false, true, length, find, slice_get, option_copied};
    ghost use Rattle.std.specs.List.{list_any};
    ghost use Rattle.cif_reader.specs.File.{AreKeptItems, IsKeptWhat, IsFile, has_number};

    /// A file of no symbols and no items.
    pub(crate) fn empty(alloc: Global) -> CifFile
        ensures { result ≡ record { symbols = []; top = [] } }
    {
        CifFile {
            symbols: IndexMap::new(alloc),
            top: Vec::new(alloc),
        }
    }

    /// Whether a symbol of that number is defined.
    pub(crate) fn is_defined(&self, number: u32) -> bool
        ensures { result ≡ list_any (has_number number) self.now.symbols }
    {
        self.symbols.contains_key(&number)
    }

    /// Adds a symbol that is not defined yet.
    pub(crate) fn define(&mut self, symbol: Symbol) -> Result<(), AllocError>
        requires another { list_any (has_number symbol.number) self.old.symbols ≡ false }
        requires kept { AreKeptItems symbol.items.items }
        ensures symbols { OnOk result (self.new.symbols ≡ self.old.symbols ++ symbol ∷ []) }
        ensures top { OnOk result (self.new.top ≡ self.old.top) }
    {
        self.symbols.insert(symbol.number, symbol)?;
        Ok(())
    }

    /// Adds an item outside of symbols.
    pub(crate) fn add_top(&mut self, item: Item) -> Result<(), AllocError>
        requires { IsKeptWhat item.what }
        ensures top { OnOk result (self.new.top ≡ self.old.top ++ item ∷ []) }
        ensures symbols { OnOk result (self.new.symbols ≡ self.old.symbols) }
    {
        self.top.push(item)?;
        Ok(())
    }

    /// The symbol of that number, or `None` where none has it.
    pub fn symbol(&self, number: u32) -> Option<&Symbol>
        ensures { option_copied result ≡ find (has_number number) self.now.symbols }
    {
        self.symbols.get(&number)
    }

    /// The symbol at that place, from 0, in the order of definition: `None` exactly past the last.
    pub fn symbol_at(&self, place: usize) -> Option<&Symbol>
        ensures { option_copied result ≡ slice_get self.now.symbols place }
    {
        let (_, symbol) = self.symbols.get_index(place)?;
        Some(symbol)
    }

    /// How many symbols there are.
    pub fn symbol_count(&self) -> usize
        ensures { result ≡ length self.now.symbols }
    {
        self.symbols.len()
    }

    /// The items outside of symbols, in the order of their commands.
    pub fn top(&self) -> &[Item]
        ensures same { result.now ≡ self.now.top }
        // Shapes are well formed, all coordinates are within ±2147483647, and no two symbols have one number.
        ensures kept { IsFile self.now }
    {
        self.top.as_slice()
    }
}
