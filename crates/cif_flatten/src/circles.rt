//! Symbols that call themselves.

ghost use Rattle.std.specs.Prelude.{◌≡◌, ℕ, ◌+◌, ◌<◌, length, take, true, false, List, [], ◌∷◌, ◌++◌, Some, None, IfOk, OnOk, IfSome, IfNone};
ghost use Rattle.cif_reader.specs.declared.file.Symbol.{Symbol};
ghost use Rattle.cif_flatten.specs.Unfolding.{items_of};
ghost use Rattle.cif_flatten.specs.Faults.{CallsThrough, IsRecursive, IsNested};
ghost use Rattle.cif_flatten.specs.Sizes.{called_by};
ghost use Rattle.cif_flatten.specs.Reaching.{Grown, IsLeastAmong, IsLesser, is_defined as is_defined_lem};
ghost use Rattle.cif_flatten.specs.Ranking.{rank_of, IsHeight, FallsBefore, NeverRises};

use crate::calls::is_defined;
use crate::components::{Ranks, component_ranks};
use crate::sizes::{called, unfolded_size};
use cif_reader::{CifFile, Item};
use indexmap::IndexSet;
use std::alloc::{AllocError, Global};

/// The least number of a symbol that calls itself, perhaps through others, called or not. It is `None` exactly where no
/// symbol does. The only error is want of memory.
pub fn recursive_symbol(alloc: Global, file: &CifFile) -> Result<Option<u32>, AllocError>
    ensures found { IfOk result (λ found. IfSome found (λ number. IsRecursive file.now number)) }
    ensures none { IfOk result (λ found. IfNone found (IsNested file.now.symbols)) }
{
    if unfolded_size(alloc, file)?.is_some() {
        return Ok(None);
    }
    if let Some(number) = ranked_circle(alloc, file)? {
        return Ok(Some(number));
    }
    least_circle(alloc, file)
}

/// The least number of a symbol that calls itself, in time linear in the file, or `None` where the ranks do not show which
/// one it is.
fn ranked_circle(alloc: Global, file: &CifFile) -> Result<Option<u32>, AllocError>
    ensures { IfOk result (λ found. IfSome found (λ number. IsRecursive file.now number)) }
{
    let ranks = component_ranks(alloc, file)?;
    let Some(number) = least_level(file, &ranks) else {
        return Ok(None);
    };
    if !never_rises(file, &ranks) || !calls_itself(alloc, file, number)? {
        return Ok(None);
    }
    Ok(Some(number))
}

/// The least number of a symbol that calls one of no lesser rank.
fn least_level(file: &CifFile, ranks: &Ranks) -> Option<u32>
    ensures { FallsBefore file.now.symbols (rank_of ranks.now) file.now.symbols result }
{
    let mut least = None;
    for place in 0..file.symbol_count() {
        if let Some(symbol) = file.symbol_at(place) {
            let falls = height(file, ranks, symbol.number) < rank(ranks, symbol.number);
            least = lesser(least, symbol.number, !falls);
        }
    }
    least
}

/// Whether no symbol calls one of greater rank.
fn never_rises(file: &CifFile, ranks: &Ranks) -> bool
    ensures { result ≡ true → NeverRises file.now.symbols (rank_of ranks.now) file.now.symbols }
{
    for place in 0..file.symbol_count() {
        if let Some(symbol) = file.symbol_at(place) {
            if height(file, ranks, symbol.number) > rank(ranks, symbol.number) {
                return false;
            }
        }
    }
    true
}

/// The greatest rank of what the symbol calls, and 0 where it calls nothing.
fn height(file: &CifFile, ranks: &Ranks, number: u32) -> usize
    ensures { IsHeight (rank_of ranks.now) (items_of file.now.symbols number) result }
{
    let Some(symbol) = file.symbol(number) else {
        return 0;
    };
    items_height(ranks, &symbol.items)
}

/// The greatest rank of what the items call, and 0 where they call nothing.
fn items_height(ranks: &Ranks, items: &[Item]) -> usize
    ensures { IsHeight (rank_of ranks.now) items.now result }
{
    let mut height = 0;
    for item in items {
        if let Some(number) = called(item) {
            height = height.max(rank(ranks, number));
        }
    }
    height
}

/// The rank of the symbol, and 0 where it has none.
fn rank(ranks: &Ranks, number: u32) -> usize
    ensures { result ≡ rank_of ranks.now number }
{
    ranks.get(&number).copied().unwrap_or(0)
}

/// The least number of a symbol that calls itself, found by a search from each.
fn least_circle(alloc: Global, file: &CifFile) -> Result<Option<u32>, AllocError>
    ensures { IfOk result (λ found. IsLeastAmong file.now.symbols file.now.symbols found) }
{
    let mut least = None;
    for place in 0..file.symbol_count() {
        if let Some(symbol) = file.symbol_at(place) {
            least = lesser(
                least,
                symbol.number,
                calls_itself(alloc, file, symbol.number)?,
            );
        }
    }
    Ok(least)
}

/// The lesser number, where the second one counts.
fn lesser(least: Option<u32>, number: u32, counts: bool) -> Option<u32>
    ensures none { counts ≡ false → result ≡ least }
    ensures less { counts ≡ true → IsLesser least number result }
{
    match least {
        Some(other) if !counts || other <= number => Some(other),
        None if !counts => None,
        _ => Some(number),
    }
}

/// Whether the symbol calls itself, perhaps through others.
fn calls_itself(alloc: Global, file: &CifFile, number: u32) -> Result<bool, AllocError>
    ensures yes { IfOk result (λ found. found ≡ true → CallsThrough file.now.symbols number number) }
    ensures no { IfOk result (λ found. found ≡ false → CallsThrough file.now.symbols number number → ⊥) }
{
    let mut found = IndexSet::new(alloc);
    add_calls_of(file, &mut found, number)?;
    for place in 0..file.symbol_count() {
        if let Some(next) = found.get_index(place).copied() {
            add_calls_of(file, &mut found, next)?;
        }
    }
    Ok(found.contains(&number))
}

/// Adds the defined symbols that the symbol calls.
fn add_calls_of(file: &CifFile, found: &mut IndexSet<u32>, number: u32) -> Result<(), AllocError>
    ensures { OnOk result (Grown file.now.symbols (items_of file.now.symbols number) found.old.keys found.new.keys) }
{
    let Some(symbol) = file.symbol(number) else {
        return Ok(());
    };
    add_calls(file, found, &symbol.items)
}

/// Adds the defined symbols that the items call.
fn add_calls(file: &CifFile, found: &mut IndexSet<u32>, items: &[Item]) -> Result<(), AllocError>
    ensures { OnOk result (Grown file.now.symbols items.now found.old.keys found.new.keys) }
{
    for item in items {
        add_call(file, found, item)?;
    }
    Ok(())
}

/// Adds the defined symbol that the item calls.
fn add_call(file: &CifFile, found: &mut IndexSet<u32>, item: &Item) -> Result<(), AllocError>
    ensures { OnOk result (Grown file.now.symbols (item.now ∷ []) found.old.keys found.new.keys) }
{
    let Some(number) = defined_call(file, item) else {
        return Ok(());
    };
    found.insert(number)?;
    Ok(())
}

/// The number that the item calls, if a symbol has it.
pub(crate) fn defined_call(file: &CifFile, item: &Item) -> Option<u32>
    ensures found { IfSome result (λ n. (called_by item.now.what ≡ Some n) × (is_defined_lem file.now.symbols n ≡ true)) }
    ensures none { IfNone result ((n : ℕ) → called_by item.now.what ≡ Some n → is_defined_lem file.now.symbols n ≡ true → ⊥) }
{
    let number = called(item)?;
    is_defined(file, number).then_some(number)
}
