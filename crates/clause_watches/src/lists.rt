//! For each literal the clauses that are watched there.

ghost use Rattle.std.specs.Prelude.{◌≡◌, ◌≢◌, ◌<◌, ◌≤◌, ◌+◌, ◌-◌, ◌*◌, ◌⊎◌, ℕ, ℤ, Some, None, [], ◌∷◌, ◌++◌, set, take, length, nat_abs, slice_index_or, OnOk, OnErr, IfOk, IfSome, OnSome, Contains};
ghost use Rattle.clause_base.specs.Literals.{code_of};
ghost use Rattle.clause_watches.specs.Listing.{AreListed, pair_of, list_of, IsOther};

use crate::numbers::Numbers;
use clause_base::Lit;
use std::alloc::{AllocError, Global};
use std::marker::Model;

/// Where each clause is watched, and the list of each literal.
#[derive(Debug, Drop)]
pub(crate) struct Lists {
    vars: u32,
    pairs: Vec<Option<(Lit, Lit)>>,
    lists: Vec<Numbers>,
}

impl Model for Lists {
    ghost use Rattle.std.specs.Prelude.{◌≡◌, ◌+◌, ◌*◌, length};
    ghost use Rattle.clause_watches.specs.Listing.{Listed, AreListed};

    ghost Value = { Listed };

    ghost view = { λ l. record { vars = l.vars; pairs = l.pairs.items; lists = l.lists.items } };

    ghost invariant = { λ l. (length l.lists.items ≡ l.vars * 2 + 2) × AreListed l.pairs.items l.lists.items };
}

impl Lists {
    /// No clause, for the variables from 1 to `vars`.
    pub(crate) fn new(alloc: Global, vars: u32) -> Result<Lists, AllocError>
        ensures vars { IfOk result (λ lists. lists.vars ≡ vars) }
        ensures none { IfOk result (λ lists. lists.pairs ≡ []) }
    {
        Ok(Lists {
            vars,
            pairs: Vec::new(alloc),
            lists: empty_lists(alloc, vars as usize * 2 + 2)?,
        })
    }

    /// Where the clause of this number is watched.
    pub(crate) fn pair(&self, number: usize) -> Option<(Lit, Lit)>
        ensures same { result ≡ pair_of self.now.pairs number }
        ensures known { OnSome result (number - 1 < length self.now.pairs) }
    {
        pair_in(self.pairs.as_slice(), number)
    }

    /// How many clauses are in the list of the literal.
    pub(crate) fn count(&self, lit: Lit) -> usize
        ensures same { result ≡ length (list_of self.now.lists lit) }
        ensures listed { AreListed self.now.pairs self.now.lists }
    {
        count_in(self.lists.as_slice(), lit)
    }

    /// The clause at this index of the literal's list.
    pub(crate) fn number(&self, lit: Lit, index: usize) -> usize
        requires { index < length (list_of self.now.lists lit) }
        ensures same { result ≡ slice_index_or (list_of self.now.lists lit) index 0 }
        ensures some { 0 < result }
    {
        number_in(self.lists.as_slice(), lit, index)
    }

    /// Watches one more clause. After want of memory its number may stand in a list.
    pub(crate) fn add(&mut self, pair: Option<(Lit, Lit)>) -> Result<(), AllocError>
        requires { IfSome pair (λ lits. (nat_abs lits.0 ≤ self.old.vars) × (nat_abs lits.1 ≤ self.old.vars)) }
        ensures vars { self.new.vars ≡ self.old.vars }
        ensures pairs { OnOk result (self.new.pairs ≡ self.old.pairs ++ pair ∷ []) }
        ensures kept { OnErr result (self.new.pairs ≡ self.old.pairs) }
    {
        let number = self.pairs.len() + 1;
        self.pairs.reserve(1)?;
        join_both(&mut self.lists, &pair, number)?;
        let Ok(()) = self.pairs.push(pair) else {
            unreachable!();
        };
        Ok(())
    }

    /// Watches the clause at this index of a literal's list at another literal in its place. Want of memory changes no
    /// watch.
    pub(crate) fn shift(
        &mut self,
        gone: Lit,
        index: usize,
        to: Lit,
        other: Lit,
    ) -> Result<(), AllocError>
        requires inside { index < length (list_of self.old.lists gone) }
        requires watched { IsOther (pair_of self.old.pairs (slice_index_or (list_of self.old.lists gone) index 0)) gone other }
        requires within { nat_abs to ≤ self.old.vars }
        requires apart { to ≢ gone }
        requires differ { other ≢ gone }
        ensures vars { self.new.vars ≡ self.old.vars }
        ensures pairs { OnOk result (self.new.pairs ≡ set self.old.pairs (slice_index_or (list_of self.old.lists gone) index 0 - 1) (Some (to, other))) }
        ensures count { OnOk result (length (list_of self.new.lists gone) + 1 ≡ length (list_of self.old.lists gone)) }
        ensures rest { OnOk result (take index (list_of self.new.lists gone) ≡ take index (list_of self.old.lists gone)) }
        ensures kept { OnErr result (self.new.pairs ≡ self.old.pairs) }
    {
        let number = number_in(self.lists.as_slice(), gone, index);
        join(&mut self.lists, to, number)?;
        leave(&mut self.lists, gone, index);
        self.pairs[number - 1] = Some((to, other));
        Ok(())
    }
}

/// So many empty lists.
fn empty_lists(alloc: Global, count: usize) -> Result<Vec<Numbers>, AllocError>
    ensures size { IfOk result (λ lists. length lists.items ≡ count) }
    ensures empty { IfOk result (λ lists. (l : ℤ) → list_of lists.items l ≡ []) }
{
    let mut lists = Vec::new(alloc);
    for _ in 0..count {
        lists.push(Numbers::new(alloc))?;
    }
    Ok(lists)
}

/// Where the clause of this number is watched.
fn pair_in(pairs: &[Option<(Lit, Lit)>], number: usize) -> Option<(Lit, Lit)>
    ensures same { result ≡ pair_of pairs.now number }
    ensures known { OnSome result (number - 1 < length pairs.now) }
{
    pairs.get(number.saturating_sub(1)).copied().unwrap_or(None)
}

/// How many clauses are in the list of the literal.
fn count_in(lists: &[Numbers], lit: Lit) -> usize
    ensures { result ≡ length (list_of lists.now lit) }
{
    match lists.get(lit.code()) {
        Some(list) => list.len(),
        None => 0,
    }
}

/// The clause at this index of the literal's list.
fn number_in(lists: &[Numbers], lit: Lit, index: usize) -> usize
    requires { index < length (list_of lists.now lit) }
    ensures { result ≡ slice_index_or (list_of lists.now lit) index 0 }
{
    lists[lit.code()].get(index)
}

/// Puts the clause into the literal's list. Want of memory changes nothing.
fn join(lists: &mut Vec<Numbers>, lit: Lit, number: usize) -> Result<(), AllocError>
    requires { code_of lit < length lists.old.items }
    ensures size { length lists.new.items ≡ length lists.old.items }
    ensures joined { OnOk result (Contains (list_of lists.new.items lit) number) }
    ensures kept { (l : ℤ) (n : ℕ) → Contains (list_of lists.old.items l) n → Contains (list_of lists.new.items l) n }
    ensures only { (l : ℤ) (n : ℕ) → Contains (list_of lists.new.items l) n → Contains (list_of lists.old.items l) n ⊎ (n ≡ number) }
    ensures others { (l : ℤ) → l ≢ lit → list_of lists.new.items l ≡ list_of lists.old.items l }
{
    lists[lit.code()].push(number)
}

/// Puts the clause into the lists of both literals. After want of memory it may stand in one of them.
fn join_both(
    lists: &mut Vec<Numbers>,
    pair: &Option<(Lit, Lit)>,
    number: usize,
) -> Result<(), AllocError>
    requires { IfSome pair.now (λ lits. (code_of lits.0 < length lists.old.items) × (code_of lits.1 < length lists.old.items)) }
    ensures size { length lists.new.items ≡ length lists.old.items }
    ensures kept { (l : ℤ) (n : ℕ) → Contains (list_of lists.old.items l) n → Contains (list_of lists.new.items l) n }
    ensures only { (l : ℤ) (n : ℕ) → Contains (list_of lists.new.items l) n → Contains (list_of lists.old.items l) n ⊎ (n ≡ number) }
    ensures first { OnOk result (IfSome pair.now (λ lits. Contains (list_of lists.new.items lits.0) number)) }
    ensures second { OnOk result (IfSome pair.now (λ lits. Contains (list_of lists.new.items lits.1) number)) }
{
    let Some((first, second)) = pair else {
        return Ok(());
    };
    join(lists, *first, number)?;
    join(lists, *second, number)
}

/// Takes the clause at this index out of the literal's list.
fn leave(lists: &mut Vec<Numbers>, lit: Lit, index: usize)
    requires { index < length (list_of lists.old.items lit) }
    ensures size { length lists.new.items ≡ length lists.old.items }
    ensures count { length (list_of lists.new.items lit) + 1 ≡ length (list_of lists.old.items lit) }
    ensures stay { (n : ℕ) → Contains (list_of lists.old.items lit) n → (n ≡ slice_index_or (list_of lists.old.items lit) index 0) ⊎ Contains (list_of lists.new.items lit) n }
    ensures rest { take index (list_of lists.new.items lit) ≡ take index (list_of lists.old.items lit) }
    ensures none { (n : ℕ) → Contains (list_of lists.new.items lit) n → Contains (list_of lists.old.items lit) n }
    ensures others { (l : ℤ) → l ≢ lit → list_of lists.new.items l ≡ list_of lists.old.items l }
{
    lists[lit.code()].drop_at(index);
}
