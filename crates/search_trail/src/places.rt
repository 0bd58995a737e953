//! The literals on a trail, with a table that tells where each one stands.

ghost use Rattle.std.specs.Prelude.{◌≡◌, ◌<◌, ◌≤◌, ◌+◌, ◌*◌, ℕ, ℤ, [], ◌∷◌, ◌++◌, take, set, length, false, true, neg_ℤ, nat_abs, slice_index_or, if◌then◌else◌, OnOk, OnErr, IfOk, IfSome, IfNone, Contains};
ghost use Rattle.std.specs.Ordering.{int_eq};
ghost use Rattle.clause_base.specs.Literals.{is_in, IsLiteral, code_of, lit_at};
ghost use Rattle.search_trail.specs.Placing.{rank, IsPlaced};

use clause_base::Lit;
use std::alloc::{AllocError, Global};
use std::marker::Model;

/// A list of literals, each once. Contracts see the list and the greatest variable.
#[derive(Debug, Drop)]
pub(crate) struct Places {
    vars: u32,
    /// For each literal one more than its place, or 0.
    ranks: Vec<usize>,
    lits: Vec<Lit>,
}

impl Model for Places {
    ghost use Rattle.search_trail.specs.Placing.{Placed, IsPlaced};

    ghost Value = { Placed };

    ghost view = { λ p. record { vars = p.vars; lits = p.lits.items } };

    ghost invariant = { λ p. IsPlaced p.vars p.ranks.items p.lits.items };
}

impl Places {
    /// The empty list, of variables from 1 to `vars`. It takes two numbers a variable here.
    pub(crate) fn new(alloc: Global, vars: u32) -> Result<Places, AllocError>
        ensures vars { IfOk result (λ places. places.vars ≡ vars) }
        ensures none { IfOk result (λ places. places.lits ≡ []) }
    {
        let ranks = vec![in alloc; 0usize; vars as usize * 2 + 2]?;
        Ok(Places {
            vars,
            ranks,
            lits: Vec::new(alloc),
        })
    }

    /// The greatest variable.
    pub(crate) fn vars(&self) -> u32
        ensures { result ≡ self.now.vars }
    {
        self.vars
    }

    /// The literals. There are no more of them than there are literals of the variables, and two.
    pub(crate) fn lits(&self) -> &[Lit]
        ensures same { result.now ≡ self.now.lits }
        ensures few { length self.now.lits ≤ self.now.vars * 2 + 2 }
    {
        self.lits.as_slice()
    }

    /// How many literals there are.
    pub(crate) fn len(&self) -> usize
        ensures { result ≡ length self.now.lits }
    {
        self.lits.len()
    }

    /// The place of the literal.
    pub(crate) fn place(&self, lit: Lit) -> Option<usize>
        ensures inside { IfSome result (λ place. place < length self.now.lits) }
        ensures found { IfSome result (λ place. lit_at self.now.lits place ≡ lit) }
        ensures none { IfNone result (is_in self.now.lits lit ≡ false) }
    {
        let rank = rank_of(self.ranks.as_slice(), lit);
        if rank == 0 {
            return None;
        }
        Some(rank - 1)
    }

    /// Puts the literal behind all others. Want of memory changes nothing.
    pub(crate) fn push(&mut self, lit: Lit) -> Result<(), AllocError>
        requires within { nat_abs lit ≤ self.old.vars }
        requires fresh { is_in self.old.lits lit ≡ false }
        ensures vars { self.new.vars ≡ self.old.vars }
        ensures lits { OnOk result (self.new.lits ≡ self.old.lits ++ lit ∷ []) }
        ensures literal { OnOk result (IsLiteral lit) }
        ensures kept { OnErr result (self.new.lits ≡ self.old.lits) }
    {
        self.lits.push(lit)?;
        set_rank(&mut self.ranks, lit, self.lits.len());
        Ok(())
    }

    /// Keeps the first `size` literals alone.
    pub(crate) fn truncate(&mut self, size: usize)
        ensures vars { self.new.vars ≡ self.old.vars }
        ensures lits { self.new.lits ≡ take size self.old.lits }
    {
        while self.lits.len() > size {
            if let Some(lit) = self.lits.pop() {
                set_rank(&mut self.ranks, lit, 0);
            }
        }
    }
}

/// The rank of the literal, 0 where it has no place.
fn rank_of(ranks: &[usize], lit: Lit) -> usize
    ensures { result ≡ rank ranks.now lit }
{
    ranks.get(lit.code()).copied().unwrap_or(0)
}

/// Gives the literal this rank.
fn set_rank(ranks: &mut Vec<usize>, lit: Lit, to: usize)
    requires { code_of lit < length ranks.old.items }
    ensures list { ranks.new.items ≡ set ranks.old.items (code_of lit) to }
    ensures size { length ranks.new.items ≡ length ranks.old.items }
    ensures literal { IsLiteral lit }
    ensures ranks { (m : ℤ) → rank ranks.new.items m ≡ (if int_eq m lit then to else rank ranks.old.items m) }
{
    ranks[lit.code()] = to;
}
