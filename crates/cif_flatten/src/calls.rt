//! Calls of symbols that are not defined.

ghost use Rattle.std.specs.Prelude.{◌≡◌, List, ◌++◌};
ghost use Rattle.std.specs.List.{list_any};
ghost use Rattle.cif_reader.specs.File.{has_number};
ghost use Rattle.cif_flatten.specs.declared.calls.UndefinedCall.{UndefinedCall};
ghost use Rattle.cif_flatten.specs.Faults.{undefined_by, undefined_among, undefined_in_symbols, undefined_calls, IsFirstIfAny, list_of};

use cif_reader::{CifFile, Item, What};

/// A call of a symbol that is not defined.
#[derive(Clone, Copy, Debug, PartialEq, Eq)]
pub struct UndefinedCall {
    /// The number of bytes before the command's first byte.
    pub pos: u64,
    /// The number that it calls.
    pub symbol: u32,
}

/// The first call of the file that names no defined symbol, in a symbol or at the top. It is `None` exactly where each call
/// names a defined symbol.
pub fn undefined_call(file: &CifFile) -> Option<UndefinedCall>
    ensures { IsFirstIfAny (undefined_calls file.now) result }
{
    earlier(in_symbols(file), among(file, file.top()))
}

/// The first such call in the symbols.
fn in_symbols(file: &CifFile) -> Option<UndefinedCall>
    ensures { IsFirstIfAny (undefined_in_symbols file.now.symbols file.now.symbols) result }
{
    let mut first = None;
    for place in 0..file.symbol_count() {
        if let Some(symbol) = file.symbol_at(place) {
            first = earlier(first, among(file, &symbol.items));
        }
    }
    first
}

/// The first such call among the items.
fn among(file: &CifFile, items: &[Item]) -> Option<UndefinedCall>
    ensures { IsFirstIfAny (undefined_among file.now.symbols items.now) result }
{
    let mut first = None;
    for item in items {
        first = earlier(first, undefined_at(file, item));
    }
    first
}

/// The item, if it is such a call.
fn undefined_at(file: &CifFile, item: &Item) -> Option<UndefinedCall>
    ensures { list_of result ≡ undefined_by file.now.symbols item.now.pos item.now.what }
{
    match item.what {
        What::Call { symbol, .. } if !is_defined(file, symbol) => Some(UndefinedCall {
            pos: item.pos,
            symbol,
        }),
        _ => None,
    }
}

/// Whether a symbol of that number is defined.
pub(crate) fn is_defined(file: &CifFile, number: u32) -> bool
    ensures { result ≡ list_any (has_number number) file.now.symbols }
{
    file.symbol(number).is_some()
}

/// The one that stands first.
fn earlier(one: Option<UndefinedCall>, other: Option<UndefinedCall>) -> Option<UndefinedCall>
    ensures { (xs ys : List UndefinedCall) → IsFirstIfAny xs one → IsFirstIfAny ys other → IsFirstIfAny (xs ++ ys) result }
{
    match (one, other) {
        (Some(a), Some(b)) if b.pos < a.pos => Some(b),
        (None, b) => b,
        (a, _) => a,
    }
}
