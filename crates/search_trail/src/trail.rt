//! The trail of a search.

ghost use Rattle.std.specs.Prelude.{◌≡◌, ◌<◌, ◌≤◌, ◌+◌, ◌*◌, ℕ, ℤ, Some, None, [], ◌∷◌, ◌++◌, take, length, slice_index_or, false, true, neg_ℤ, nat_abs, OnOk, OnErr, IfOk, IfSome, IfNone, Contains};
ghost use Rattle.clause_base.specs.Literals.{is_in, IsLiteral, lit_at};
ghost use Rattle.clause_base.specs.Formulas.{IsClauseWithin};
ghost use Rattle.clause_base.specs.Plain.{IsOnce};
ghost use Rattle.refutation_check.specs.Following.{IsNumber, numbered};
ghost use Rattle.search_trail.specs.Trails.{AreStarts, IsReason, IsSearch, reason_at, start_at, nothing_known, with_clause, with_decision, with_implied, back_at};

use crate::places::Places;
use clause_arena::Store;
use clause_base::Lit;
use std::alloc::{AllocError, Global};
use std::marker::Model;

/// The clauses of a search and its trail: the literals that are taken to be true, in their order, each a decision or
/// made true by a clause. Contracts see the lists. By the definition `IsTrail` no literal is there twice or beside its
/// negation, the first literal of each level above 0 is a decision, and every other has a clause whose other literals
/// are false before it. Clauses count from 1, places and levels from 0.
#[derive(Debug, Drop)]
pub struct Trail {
    clauses: Store,
    places: Places,
    /// For each place the number of the clause that made the literal true.
    reasons: Vec<Option<usize>>,
    /// The place where each level above 0 begins.
    starts: Vec<usize>,
}

impl Model for Trail {
    ghost use Rattle.search_trail.specs.Trails.{Search, IsTrail};

    ghost Value = { Search };

    ghost view = { λ t. record { vars = t.places.vars; clauses = t.clauses; lits = t.places.lits; reasons = t.reasons.items; starts = t.starts.items } };

    ghost invariant = { λ t. IsTrail t.places.vars t.clauses t.places.lits t.reasons.items t.starts.items };
}

impl Trail {
    /// The empty trail, with no clause, of variables from 1 to `vars`. It takes two numbers a variable here, and fails
    /// only where no memory is found for them.
    pub fn new(alloc: Global, vars: u32) -> Result<Trail, AllocError>
        ensures { IfOk result (λ trail. trail ≡ nothing_known vars) }
    {
        Ok(Trail {
            clauses: Store::new(alloc),
            places: Places::new(alloc, vars)?,
            reasons: Vec::new(alloc),
            starts: Vec::new(alloc),
        })
    }

    /// The greatest variable.
    pub fn vars(&self) -> u32
        ensures { result ≡ self.now.vars }
    {
        self.places.vars()
    }

    /// How many clauses there are.
    pub fn clauses(&self) -> usize
        ensures { result ≡ length self.now.clauses }
    {
        self.clauses.len()
    }

    /// The literals of the clause with this number.
    pub fn clause(&self, number: usize) -> &[Lit]
        requires { IsNumber self.now.clauses number }
        ensures same { result.now ≡ numbered self.now.clauses number }
        ensures within { IsClauseWithin self.now.vars result.now }
        ensures search { IsSearch self.now }
    {
        self.clauses.clause(number - 1)
    }

    /// The literals that are taken to be true, in their order.
    pub fn lits(&self) -> &[Lit]
        ensures same { result.now ≡ self.now.lits }
        ensures search { IsSearch self.now }
        ensures few { length self.now.lits ≤ self.now.vars * 2 + 2 }
    {
        self.places.lits()
    }

    /// The current level: how many decisions there are.
    pub fn level(&self) -> usize
        ensures { result ≡ length self.now.starts }
    {
        self.starts.len()
    }

    /// Whether the literal is taken to be true.
    pub fn is_true(&self, lit: Lit) -> bool
        ensures { result ≡ is_in self.now.lits lit }
    {
        self.places.place(lit).is_some()
    }

    /// The place of the literal, the only one where it stands.
    pub fn place(&self, lit: Lit) -> Option<usize>
        ensures once { IsOnce self.now.lits }
        ensures inside { IfSome result (λ place. place < length self.now.lits) }
        ensures found { IfSome result (λ place. lit_at self.now.lits place ≡ lit) }
        ensures none { IfNone result (is_in self.now.lits lit ≡ false) }
    {
        self.places.place(lit)
    }

    /// The number of the clause that made the literal at this place true, or `None` for a decision.
    pub fn reason(&self, place: usize) -> Option<usize>
        requires { place < length self.now.lits }
        ensures same { result ≡ reason_at self.now.reasons place }
        ensures implied { IfSome result (λ number. IsReason self.now.clauses (take place self.now.lits) (lit_at self.now.lits place) number) }
        ensures decided { IfNone result (Contains self.now.starts place) }
        ensures search { IsSearch self.now }
    {
        reason_in(self.reasons.as_slice(), place)
    }

    /// The places where the levels above 0 begin, in their order.
    pub fn starts(&self) -> &[usize]
        ensures same { result.now ≡ self.now.starts }
        ensures levels { AreStarts self.now.starts (length self.now.lits) }
    {
        self.starts.as_slice()
    }

    /// Adds a clause. Want of memory changes nothing.
    pub fn add(&mut self, lits: &[Lit]) -> Result<(), AllocError>
        requires { IsClauseWithin self.old.vars lits.now }
        ensures added { OnOk result (self.new ≡ with_clause self.old lits.now) }
        ensures kept { OnErr result (self.new ≡ self.old) }
    {
        self.clauses.add(lits)
    }

    /// Begins a level with this literal. Want of memory changes nothing.
    pub fn decide(&mut self, lit: Lit) -> Result<(), AllocError>
        requires within { nat_abs lit ≤ self.old.vars }
        requires unset { is_in self.old.lits lit ≡ false }
        requires unset_negated { is_in self.old.lits (neg_ℤ lit) ≡ false }
        ensures decided { OnOk result (self.new ≡ with_decision self.old lit) }
        ensures kept { OnErr result (self.new ≡ self.old) }
    {
        self.starts.reserve(1)?;
        let start = self.places.len();
        put(&mut self.places, &mut self.reasons, lit, None)?;
        let Ok(()) = self.starts.push(start) else {
            unreachable!();
        };
        Ok(())
    }

    /// Takes a literal to be true by the clause of this number, whose other literals are false. Want of memory changes
    /// nothing.
    pub fn imply(&mut self, lit: Lit, number: usize) -> Result<(), AllocError>
        requires reason { IsReason self.old.clauses self.old.lits lit number }
        requires unset { is_in self.old.lits lit ≡ false }
        requires unset_negated { is_in self.old.lits (neg_ℤ lit) ≡ false }
        ensures implied { OnOk result (self.new ≡ with_implied self.old lit number) }
        ensures kept { OnErr result (self.new ≡ self.old) }
    {
        put(&mut self.places, &mut self.reasons, lit, Some(number))
    }

    /// Takes back all literals above this level.
    pub fn back(&mut self, level: usize)
        ensures { self.new ≡ back_at self.old level }
    {
        let size = front_size(self.starts.as_slice(), level, self.places.len());
        self.places.truncate(size);
        self.reasons.truncate(size);
        self.starts.truncate(level);
    }
}

/// What made the literal at this place true.
fn reason_in(reasons: &[Option<usize>], place: usize) -> Option<usize>
    ensures { result ≡ reason_at reasons.now place }
{
    reasons.get(place).copied().unwrap_or(None)
}

/// How many of the literals stand on this level or below.
fn front_size(starts: &[usize], level: usize, size: usize) -> usize
    ensures { result ≡ slice_index_or starts.now level size }
{
    starts.get(level).copied().unwrap_or(size)
}

/// Puts a literal and its reason behind all others. Want of memory changes nothing.
fn put(
    places: &mut Places,
    reasons: &mut Vec<Option<usize>>,
    lit: Lit,
    reason: Option<usize>,
) -> Result<(), AllocError>
    requires within { nat_abs lit ≤ places.old.vars }
    requires unset { is_in places.old.lits lit ≡ false }
    ensures vars { places.new.vars ≡ places.old.vars }
    ensures lits { OnOk result (places.new.lits ≡ places.old.lits ++ lit ∷ []) }
    ensures reasons { OnOk result (reasons.new.items ≡ reasons.old.items ++ reason ∷ []) }
    ensures literal { OnOk result (IsLiteral lit) }
    ensures same_lits { OnErr result (places.new.lits ≡ places.old.lits) }
    ensures same_reasons { OnErr result (reasons.new.items ≡ reasons.old.items) }
{
    reasons.reserve(1)?;
    places.push(lit)?;
    let Ok(()) = reasons.push(reason) else {
        unreachable!();
    };
    Ok(())
}
