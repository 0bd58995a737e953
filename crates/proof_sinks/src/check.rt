//! A sink that puts the lines through a checker.

ghost use Rattle.std.specs.Prelude.{◌≡◌, ◌≢◌, ◌<◌, ◌≤◌, ◌+◌, ◌-◌, ◌^◌, true, false, min, [], ◌∷◌, ◌++◌, length, None, Err, OnOk, OnErr};
ghost use Rattle.clause_base.specs.Formulas.{IsClauseWithin};
ghost use Rattle.refutation_check.specs.Following.{Follows};
ghost use Rattle.refutation_check.specs.Keeping.{nothing_kept, with_axiom, with_derived};
ghost use Rattle.proof_sinks.specs.declared.lines.Said.{Said};
ghost use Rattle.proof_sinks.specs.Lines.{clauses_of};
ghost use Rattle.proof_sinks.specs.Checking.{HasChecked};

use crate::lines::{Hints, Said};
use crate::sink::{ProofSink, StepFault};
use clause_base::{Clause, Lit};
use refutation_check::{Checker, StepRefusal};
use std::alloc::Global;
use std::marker::Model;

/// A checker of the lines that are said. Contracts see the checker, the lines, whether it takes another, and how many it
/// refused other than for want of memory.
#[derive(Debug, Drop)]
pub struct StepCheck {
    checker: Checker,
    lines: Vec<Said>,
    is_live: bool,
    faults: u64,
}

impl Model for StepCheck {
    ghost use Rattle.proof_sinks.specs.Views.{CheckView};
    ghost use Rattle.proof_sinks.specs.Checking.{HasChecked};

    ghost Value = { CheckView };

    ghost view = { λ s. record { checker = s.checker; said = s.lines.items; live = s.is_live; faults = s.faults } };

    ghost invariant = { λ s. HasChecked s.checker s.lines.items };
}

impl StepCheck {
    /// A sink that puts lines through this checker, which was told nothing so far.
    pub fn new(alloc: Global, checker: Checker) -> StepCheck
        requires { checker ≡ nothing_kept checker.vars }
        ensures checker { result.checker ≡ checker }
        ensures said { result.said ≡ [] }
        ensures live { result.live ≡ true }
        ensures quiet { result.faults ≡ 0 }
    {
        StepCheck {
            checker,
            lines: Vec::new(alloc),
            is_live: true,
            faults: 0,
        }
    }

    /// The checker: it was told exactly the lines that were said, and each derived one follows.
    pub fn checker(&self) -> &Checker
        ensures same { result.now ≡ self.now.checker }
        ensures told { HasChecked result.now self.now.said }
    {
        &self.checker
    }

    /// Counts a refusal other than for want of memory.
    fn count(&mut self, taken: Result<(), StepFault>)
        ensures live { OnOk taken (self.new ≡ self.old) }
        ensures dead { OnErr taken (self.new.live ≡ false) }
        ensures checker { self.new.checker ≡ self.old.checker }
        ensures said { self.new.said ≡ self.old.said }
        ensures counted { taken ≡ Err StepFault.Failed → self.new.faults ≡ min (self.old.faults + 1) (2 ^ 64 - 1) }
        ensures quiet { taken ≢ Err StepFault.Failed → self.new.faults ≡ self.old.faults }
        ensures later { self.old.faults ≤ self.new.faults }
    {
        if taken.is_err() {
            self.is_live = false;
        }
        if taken == Err(StepFault::Failed) {
            self.faults = self.faults.saturating_add(1);
        }
    }
}

impl ProofSink for StepCheck {
    ghost strict = { true };

    ghost lender = { λ _. [] };

    ghost said = { λ s. s.said };

    ghost live = { λ s. s.live };

    ghost before = { λ _. None };

    ghost whole = { λ _. true };

    ghost faults = { λ s. s.faults };

    /// Gives the clause to the checker. It answers `Failed` exactly where the clause has too great a variable, unless no
    /// memory is found.
    fn axiom(&mut self, clause: &[Lit]) -> Result<(), StepFault>
        requires live { self.old.live ≡ true }
        requires few { length self.old.said < 2 ^ 61 }
        ensures within { OnOk result (IsClauseWithin self.old.checker.vars clause.now) }
        ensures refused { result ≡ Err StepFault.Failed → IsClauseWithin self.old.checker.vars clause.now → ⊥ }
        ensures checker { OnOk result (self.new.checker ≡ with_axiom self.old.checker clause.now) }
        ensures said { OnOk result (self.new.said ≡ self.old.said ++ Said.Axiom clause.now ∷ []) }
        ensures live { OnOk result (self.new.live ≡ true) }
        ensures dead { OnErr result (self.new.live ≡ false) }
        ensures stays { OnErr result (self.new.said ≡ self.old.said) }
        ensures checker_stays { OnErr result (self.new.checker ≡ self.old.checker) }
        ensures counted { result ≡ Err StepFault.Failed → self.new.faults ≡ min (self.old.faults + 1) (2 ^ 64 - 1) }
        ensures quiet { result ≢ Err StepFault.Failed → self.new.faults ≡ self.old.faults }
        ensures later { self.old.faults ≤ self.new.faults }
    {
        let taken = take_axiom(&mut self.checker, &mut self.lines, clause);
        self.count(taken);
        taken
    }

    /// Gives the step to the checker. It answers `Failed` exactly where the clause has too great a variable or doesn't
    /// follow by the hints from the clauses that were said, unless no memory is found.
    fn derived(&mut self, clause: &[Lit], hints: &[u64]) -> Result<(), StepFault>
        requires live { self.old.live ≡ true }
        requires few { length self.old.said < 2 ^ 61 }
        ensures within { OnOk result (IsClauseWithin self.old.checker.vars clause.now) }
        ensures follows { OnOk result (Follows (clauses_of self.old.said) clause.now hints.now) }
        ensures refused { result ≡ Err StepFault.Failed → IsClauseWithin self.old.checker.vars clause.now
            → Follows (clauses_of self.old.said) clause.now hints.now → ⊥ }
        ensures checker { OnOk result (self.new.checker ≡ with_derived self.old.checker clause.now) }
        ensures said { OnOk result (self.new.said ≡ self.old.said ++ Said.Derived clause.now hints.now ∷ []) }
        ensures live { OnOk result (self.new.live ≡ true) }
        ensures dead { OnErr result (self.new.live ≡ false) }
        ensures stays { OnErr result (self.new.said ≡ self.old.said) }
        ensures checker_stays { OnErr result (self.new.checker ≡ self.old.checker) }
        ensures counted { result ≡ Err StepFault.Failed → self.new.faults ≡ min (self.old.faults + 1) (2 ^ 64 - 1) }
        ensures quiet { result ≢ Err StepFault.Failed → self.new.faults ≡ self.old.faults }
        ensures later { self.old.faults ≤ self.new.faults }
    {
        let taken = take_derived(&mut self.checker, &mut self.lines, clause, hints);
        self.count(taken);
        taken
    }
}

/// Gives a clause to the checker and keeps the line. An error changes nothing.
fn take_axiom(checker: &mut Checker, lines: &mut Vec<Said>, clause: &[Lit]) -> Result<(), StepFault>
    ensures within { OnOk result (IsClauseWithin checker.old.vars clause.now) }
    ensures refused { result ≡ Err StepFault.Failed → IsClauseWithin checker.old.vars clause.now → ⊥ }
    ensures checker { OnOk result (checker.new ≡ with_axiom checker.old clause.now) }
    ensures lines { OnOk result (lines.new.items ≡ lines.old.items ++ Said.Axiom clause.now ∷ []) }
    ensures checker_stays { OnErr result (checker.new ≡ checker.old) }
    ensures lines_stay { OnErr result (lines.new.items ≡ lines.old.items) }
{
    let alloc = *lines.allocator();
    let Ok(line) = Clause::new(alloc, clause) else {
        return Err(StepFault::NoMemory);
    };
    if !line.is_within(checker.vars()) {
        return Err(StepFault::Failed);
    }
    if lines.reserve(1).is_err() || checker.axiom(line.as_slice()).is_err() {
        return Err(StepFault::NoMemory);
    }
    let Ok(()) = lines.push(Said::Axiom(line)) else {
        unreachable!();
    };
    Ok(())
}

/// Gives a step to the checker and keeps the line. An error changes nothing.
fn take_derived(
    checker: &mut Checker,
    lines: &mut Vec<Said>,
    clause: &[Lit],
    hints: &[u64],
) -> Result<(), StepFault>
    ensures within { OnOk result (IsClauseWithin checker.old.vars clause.now) }
    ensures follows { OnOk result (Follows checker.old.clauses clause.now hints.now) }
    ensures refused { result ≡ Err StepFault.Failed → IsClauseWithin checker.old.vars clause.now
        → Follows checker.old.clauses clause.now hints.now → ⊥ }
    ensures checker { OnOk result (checker.new ≡ with_derived checker.old clause.now) }
    ensures lines { OnOk result (lines.new.items ≡ lines.old.items ++ Said.Derived clause.now hints.now ∷ []) }
    ensures checker_stays { OnErr result (checker.new ≡ checker.old) }
    ensures lines_stay { OnErr result (lines.new.items ≡ lines.old.items) }
{
    let alloc = *lines.allocator();
    let Ok(line) = Clause::new(alloc, clause) else {
        return Err(StepFault::NoMemory);
    };
    if !line.is_within(checker.vars()) {
        return Err(StepFault::Failed);
    }
    let Ok(kept) = Hints::new(alloc, hints) else {
        return Err(StepFault::NoMemory);
    };
    if lines.reserve(1).is_err() {
        return Err(StepFault::NoMemory);
    }
    match checker.step(line.as_slice(), hints) {
        Ok(()) => {}
        Err(StepRefusal::NoMemory) => return Err(StepFault::NoMemory),
        Err(_) => return Err(StepFault::Failed),
    }
    let Ok(()) = lines.push(Said::Derived(line, kept)) else {
        unreachable!();
    };
    Ok(())
}
