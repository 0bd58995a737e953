//! A sink that keeps the lines.

ghost use Rattle.std.specs.Prelude.{◌≡◌, ◌<◌, ◌^◌, true, false, [], ◌∷◌, ◌++◌, length, None, Err, OnOk, OnErr};
ghost use Rattle.proof_sinks.specs.declared.lines.Said.{Said};

use crate::lines::{Hints, Said};
use crate::sink::{ProofSink, StepFault};
use clause_base::{Clause, Lit};
use std::alloc::{AllocError, Global};
use std::marker::Model;

/// A list of lines. Contracts see them, and whether it takes another.
#[derive(Debug, Drop)]
pub struct StepList {
    lines: Vec<Said>,
    is_live: bool,
}

impl Model for StepList {
    ghost use Rattle.proof_sinks.specs.Views.{ListView};

    ghost Value = { ListView };

    ghost view = { λ list. record { said = list.lines.items; live = list.is_live } };
}

impl StepList {
    /// A list of no lines.
    pub fn new(alloc: Global) -> StepList
        ensures said { result.said ≡ [] }
        ensures live { result.live ≡ true }
    {
        StepList {
            lines: Vec::new(alloc),
            is_live: true,
        }
    }

    /// The lines.
    pub fn lines(&self) -> &[Said]
        ensures { result.now ≡ self.now.said }
    {
        self.lines.as_slice()
    }
}

impl ProofSink for StepList {
    ghost strict = { true };

    ghost lender = { λ _. [] };

    ghost said = { λ s. s.said };

    ghost live = { λ s. s.live };

    ghost before = { λ _. None };

    ghost whole = { λ _. true };

    ghost faults = { λ _. 0 };

    /// Keeps the line, as `ProofSink` says. It fails only for want of memory.
    fn axiom(&mut self, clause: &[Lit]) -> Result<(), StepFault>
        requires live { self.old.live ≡ true }
        requires few { length self.old.said < 2 ^ 61 }
        ensures said { OnOk result (self.new.said ≡ self.old.said ++ Said.Axiom clause.now ∷ []) }
        ensures live { OnOk result (self.new.live ≡ true) }
        ensures dead { OnErr result (self.new.live ≡ false) }
        ensures stays { OnErr result (self.new.said ≡ self.old.said) }
        ensures sure { OnErr result (result ≡ Err StepFault.NoMemory) }
    {
        let kept = keep_axiom(&mut self.lines, clause);
        self.is_live = kept.is_ok();
        kept.map_err(|_| StepFault::NoMemory)
    }

    /// Keeps the line, as `ProofSink` says. It fails only for want of memory.
    fn derived(&mut self, clause: &[Lit], hints: &[u64]) -> Result<(), StepFault>
        requires live { self.old.live ≡ true }
        requires few { length self.old.said < 2 ^ 61 }
        ensures said { OnOk result (self.new.said ≡ self.old.said ++ Said.Derived clause.now hints.now ∷ []) }
        ensures live { OnOk result (self.new.live ≡ true) }
        ensures dead { OnErr result (self.new.live ≡ false) }
        ensures stays { OnErr result (self.new.said ≡ self.old.said) }
        ensures sure { OnErr result (result ≡ Err StepFault.NoMemory) }
    {
        let kept = keep_derived(&mut self.lines, clause, hints);
        self.is_live = kept.is_ok();
        kept.map_err(|_| StepFault::NoMemory)
    }
}

/// Keeps a clause that is given. Want of memory changes nothing.
pub(crate) fn keep_axiom(lines: &mut Vec<Said>, clause: &[Lit]) -> Result<(), AllocError>
    ensures kept { OnOk result (lines.new.items ≡ lines.old.items ++ Said.Axiom clause.now ∷ []) }
    ensures stays { OnErr result (lines.new.items ≡ lines.old.items) }
{
    let alloc = *lines.allocator();
    lines.push(Said::Axiom(Clause::new(alloc, clause)?))?;
    Ok(())
}

/// Keeps a clause that is derived, with its hints. Want of memory changes nothing.
pub(crate) fn keep_derived(
    lines: &mut Vec<Said>,
    clause: &[Lit],
    hints: &[u64],
) -> Result<(), AllocError>
    ensures kept { OnOk result (lines.new.items ≡ lines.old.items ++ Said.Derived clause.now hints.now ∷ []) }
    ensures stays { OnErr result (lines.new.items ≡ lines.old.items) }
{
    let alloc = *lines.allocator();
    let clause = Clause::new(alloc, clause)?;
    lines.push(Said::Derived(clause, Hints::new(alloc, hints)?))?;
    Ok(())
}
