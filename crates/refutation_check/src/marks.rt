//! A set of literals that is emptied at once: each literal that was put in has the current stamp.

ghost use Rattle.std.specs.Prelude.{◌≡◌, ◌≤◌, ◌||◌, ℤ, false, nat_abs, slice_index_or, IfOk};
ghost use Rattle.std.specs.Ordering.{int_eq};
ghost use Rattle.refutation_check.specs.Marking.{is_marked};

use clause_base::Lit;
use std::alloc::{AllocError, Global};
use std::marker::Model;

/// A set of literals. Contracts see the table; its set is `is_marked`.
#[derive(Debug, Drop)]
pub(crate) struct Marks {
    vars: u32,
    /// For each literal the stamp under which it was put in last.
    stamps: Vec<u64>,
    /// The current stamp, above 0.
    stamp: u64,
}

impl Model for Marks {
    ghost use Rattle.refutation_check.specs.Marking.{Stamps, IsTable};

    ghost Value = { Stamps };

    ghost view = { λ m. record { vars = m.vars; stamps = m.stamps.items; stamp = m.stamp } };

    ghost invariant = { λ m. IsTable m.vars m.stamps.items m.stamp };
}

impl Marks {
    /// The empty set. It takes all its memory here: a stamp for each variable and each negation.
    pub(crate) fn new(alloc: Global, vars: u32) -> Result<Marks, AllocError>
        ensures { IfOk result (λ marks. marks.vars ≡ vars) }
    {
        let stamps = vec![in alloc; 0u64; vars as usize * 2 + 2]?;
        Ok(Marks {
            vars,
            stamps,
            stamp: 1,
        })
    }

    /// The greatest variable.
    pub(crate) fn vars(&self) -> u32
        ensures { result ≡ self.now.vars }
    {
        self.vars
    }

    /// Empties the set.
    pub(crate) fn clear(&mut self)
        ensures vars { self.new.vars ≡ self.old.vars }
        ensures none { (l : ℤ) → is_marked self.new l ≡ false }
    {
        if self.stamp == u64::MAX {
            self.stamps.fill(0);
            self.stamp = 0;
        }
        self.stamp += 1;
    }

    /// Puts the literal in.
    pub(crate) fn insert(&mut self, lit: Lit)
        requires { nat_abs lit ≤ self.old.vars }
        ensures vars { self.new.vars ≡ self.old.vars }
        ensures joined { (m : ℤ) → is_marked self.new m ≡ (int_eq m lit || is_marked self.old m) }
    {
        self.stamps[lit.code()] = self.stamp;
    }

    /// Whether the literal is in the set.
    pub(crate) fn contains(&self, lit: Lit) -> bool
        ensures { result ≡ is_marked self.now lit }
    {
        stamp_at(self.stamps.as_slice(), lit.code()) == self.stamp
    }
}

/// The stamp at this place, 0 where there is none.
fn stamp_at(stamps: &[u64], place: usize) -> u64
    ensures { result ≡ slice_index_or stamps.now place 0 }
{
    stamps.get(place).copied().unwrap_or(0)
}
