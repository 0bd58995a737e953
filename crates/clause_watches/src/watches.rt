//! The watches of a search, and unit propagation by them.

ghost use Rattle.std.specs.Prelude.{◌≡◌, ◌≤◌, ◌+◌, length, nat_abs, OnOk, OnErr, IfOk, IfSome, IfNone};
ghost use Rattle.clause_watches.specs.Watching.{AreWatched, HasGrown, IsConflict, nothing_watched, with_pair, gone_back};

use crate::lists::Lists;
use crate::visit::visit;
use clause_base::Lit;
use search_trail::Trail;
use std::alloc::{AllocError, Global};
use std::marker::Model;

/// Where each clause of a search is watched. Contracts see for each clause the two literals, and how many literals of
/// the trail were gone through. By the definition `AreWatched` a watched literal whose negation was gone through is backed:
/// the other one is true on the same level or below.
#[derive(Debug, Drop)]
pub struct Watches {
    head: usize,
    lists: Lists,
}

impl Model for Watches {
    ghost use Rattle.clause_watches.specs.Watching.{Watched};

    ghost Value = { Watched };

    ghost view = { λ w. record { vars = w.lists.vars; head = w.head; pairs = w.lists.pairs } };
}

impl Watches {
    /// The watches of no clause. They take a list a variable and a list a negation here; the call fails only where no
    /// memory is found for these.
    pub fn new(alloc: Global, vars: u32) -> Result<Watches, AllocError>
        ensures { IfOk result (λ watches. watches ≡ nothing_watched vars) }
    {
        Ok(Watches {
            head: 0,
            lists: Lists::new(alloc, vars)?,
        })
    }

    /// How many literals of the trail were gone through.
    pub fn head(&self) -> usize
        ensures { result ≡ self.now.head }
    {
        self.head
    }

    /// Watches one more clause at these two literals, or nowhere. Want of memory changes nothing.
    pub fn add(&mut self, pair: Option<(Lit, Lit)>) -> Result<(), AllocError>
        requires { IfSome pair (λ lits. (nat_abs lits.0 ≤ self.old.vars) × (nat_abs lits.1 ≤ self.old.vars)) }
        ensures added { OnOk result (self.new ≡ with_pair self.old pair) }
        ensures kept { OnErr result (self.new ≡ self.old) }
    {
        self.lists.add(pair)
    }

    /// Goes no further than the first `size` literals of the trail, where the others leave it.
    pub fn back(&mut self, size: usize)
        ensures { self.new ≡ gone_back self.old size }
    {
        self.head = self.head.min(size);
    }

    /// Propagates: makes each literal true that a clause leaves alone, until a clause is false, whose number is the
    /// answer, or all was gone through. Then unit propagation adds nothing. It fails only where no memory is found; after
    /// that nothing is promised of the watches, and of the trail only what its type keeps.
    pub fn propagate(&mut self, trail: &mut Trail) -> Result<Option<usize>, AllocError>
        requires { AreWatched trail.old self.old }
        ensures grown { OnOk result (HasGrown trail.old trail.new) }
        ensures kept { OnOk result (AreWatched trail.new self.new) }
        ensures done { IfOk result (λ found. IfNone found (self.new.head ≡ length trail.new.lits)) }
        ensures conflict { IfOk result (λ found. IfSome found (IsConflict trail.new)) }
    {
        while self.head < trail.lits().len() {
            if let Some(number) = visit(&mut self.lists, trail, self.head)? {
                return Ok(Some(number));
            }
            self.head += 1;
        }
        Ok(None)
    }
}
