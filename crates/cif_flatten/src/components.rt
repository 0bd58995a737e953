//! The strongly connected components of symbols that call one another.
//!
//! They are found by Tarjan's search, with a stack of its own in place of recursion. No contract says what is found: the
//! callers check what they use of it.

use crate::circles::defined_call;
use cif_reader::CifFile;
use indexmap::IndexMap;
use std::alloc::{AllocError, Global};

/// The ranks of symbols by their numbers, from 1. Symbols of one component have one rank, and each calls only those of its
/// own rank and of lesser ones.
pub(crate) type Ranks = IndexMap<u32, usize>;

/// A symbol whose calls are followed: how many of its items are, how many symbols were met before it, and the least such
/// number of a symbol that it was found to reach and whose component is not closed.
#[derive(Clone, Copy, Debug)]
struct Visit {
    number: u32,
    next: usize,
    index: usize,
    low_link: usize,
}

/// What is found so far.
#[derive(Drop)]
struct Search {
    /// The symbols met, in that order, and the low link that each was left with. It is the index until then.
    low_links: IndexMap<u32, usize>,
    /// The symbols met whose component is not closed, in that order.
    open: Vec<u32>,
    /// The symbols whose component is closed.
    ranks: Ranks,
}

/// The ranks of all symbols, in time linear in the file.
pub(crate) fn component_ranks(alloc: Global, file: &CifFile) -> Result<Ranks, AllocError> {
    let mut search = Search {
        low_links: IndexMap::new(alloc),
        open: Vec::new(alloc),
        ranks: IndexMap::new(alloc),
    };
    for place in 0..file.symbol_count() {
        if let Some(symbol) = file.symbol_at(place) {
            if !search.low_links.contains_key(&symbol.number) {
                follow(alloc, file, &mut search, symbol.number)?;
            }
        }
    }
    Ok(search.ranks)
}

/// Follows the calls of a symbol that was not met, through others. Each step meets a symbol or leaves one, so two for each
/// symbol are enough.
fn follow(
    alloc: Global,
    file: &CifFile,
    search: &mut Search,
    number: u32,
) -> Result<(), AllocError> {
    let mut below = Vec::new(alloc);
    let mut top = search.meet(number)?;
    for _ in 0..file.symbol_count().saturating_mul(2) {
        let (visit, new) = search.advance(file, top);
        if let Some(called) = new {
            below.push(visit)?;
            top = search.meet(called)?;
        } else {
            search.leave(visit)?;
            let Some(caller) = below.pop() else {
                return Ok(());
            };
            top = caller;
        }
    }
    Ok(())
}

impl Search {
    /// Begins with a symbol that was not met.
    fn meet(&mut self, number: u32) -> Result<Visit, AllocError> {
        let index = self.low_links.len();
        self.low_links.insert(number, index)?;
        self.open.push(number)?;
        Ok(Visit {
            number,
            next: 0,
            index,
            low_link: index,
        })
    }

    /// Follows further calls of a symbol: the number of the next one called that was not met, or `None` where all were.
    fn advance(&self, file: &CifFile, mut visit: Visit) -> (Visit, Option<u32>) {
        let Some(symbol) = file.symbol(visit.number) else {
            return (visit, None);
        };
        while visit.next < symbol.items.len() {
            if let Some(called) = defined_call(file, &symbol.items[visit.next]) {
                let Some(low_link) = self.low_links.get(&called) else {
                    return (visit, Some(called));
                };
                if !self.ranks.contains_key(&called) {
                    visit.low_link = visit.low_link.min(*low_link);
                }
            }
            visit.next += 1;
        }
        (visit, None)
    }

    /// Ends with a symbol whose calls are all followed. It closes its component, if the symbol is the first met of it.
    fn leave(&mut self, visit: Visit) -> Result<(), AllocError> {
        if visit.low_link == visit.index {
            return self.close(visit.number);
        }
        self.low_links.insert(visit.number, visit.low_link)?;
        Ok(())
    }

    /// Gives one rank to the symbol and to those met after it whose component is not closed.
    fn close(&mut self, number: u32) -> Result<(), AllocError> {
        let rank = self.ranks.len() + 1;
        while let Some(member) = self.open.pop() {
            self.ranks.insert(member, rank)?;
            if member == number {
                break;
            }
        }
        Ok(())
    }
}
