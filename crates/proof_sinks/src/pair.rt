//! A sink that gives each line to two sinks.

ghost use Rattle.std.specs.Prelude.{◌≡◌, ◌≢◌, ◌⊎◌, ◌<◌, ◌≤◌, ◌&&◌, ◌+◌, ◌-◌, ◌^◌, true, false, [], ◌∷◌, ◌++◌, length, min, None, Err, OnOk, OnErr};
ghost use Rattle.probe_io.specs.Causes.{Rose};
ghost use Rattle.proof_sinks.specs.Views.{AreSame};
ghost use Rattle.proof_sinks.specs.declared.lines.Said.{Said};

use crate::lines::Said;
use crate::sink::{ProofSink, StepFault};
use clause_base::Lit;
use std::marker::Model;

/// Two sinks that are told the same lines. Contracts see both.
#[derive(Debug, Drop)]
pub struct StepPair<A: ProofSink + Drop, B: ProofSink + Drop> {
    first: A,
    second: B,
}

impl<A: ProofSink + Drop, B: ProofSink + Drop> Model for StepPair<A, B> {
    ghost use Rattle.std.specs.Prelude.{◌&&◌};
    ghost use Rattle.proof_sinks.specs.Views.{PairView, AreSame};

    ghost Value = { PairView A B };

    ghost view = { λ pair. record { first = pair.first; second = pair.second } };

    ghost invariant = { λ pair. AreSame (A.live pair.first && B.live pair.second) (A.said pair.first) (B.said pair.second) };
}

impl<A: ProofSink + Drop, B: ProofSink + Drop> StepPair<A, B> {
    /// A sink that tells `first` each line, and then `second`. Both take lines, and nothing was said to them so far.
    pub fn new(first: A, second: B) -> StepPair<A, B>
        requires first_live { A.live first ≡ true }
        requires second_live { B.live second ≡ true }
        requires first_empty { A.said first ≡ [] }
        requires second_empty { B.said second ≡ [] }
        ensures first { result.first ≡ first }
        ensures second { result.second ≡ second }
    {
        StepPair { first, second }
    }

    /// The first sink. It was told the same lines as the second, but for one more that it may have after an error.
    pub fn first(&self) -> &A
        ensures first { result.now ≡ self.now.first }
        ensures same { AreSame (A.live result.now && B.live self.now.second) (A.said result.now) (B.said self.now.second) }
    {
        &self.first
    }

    /// The second sink.
    pub fn second(&self) -> &B
        ensures { result.now ≡ self.now.second }
    {
        &self.second
    }
}

impl<A: ProofSink + Drop, B: ProofSink + Drop> ProofSink for StepPair<A, B> {
    ghost strict = { A.strict && B.strict };

    ghost lender = { λ s. A.lender s.first ++ B.lender s.second };

    ghost said = { λ s. B.said s.second };

    ghost live = { λ s. A.live s.first && B.live s.second };

    ghost before = { λ _. None };

    ghost whole = { λ s. A.whole s.first && B.whole s.second };

    ghost faults = { λ s. min (A.faults s.first + B.faults s.second) (2 ^ 64 - 1) };

    /// Gives the line to the first, and where that takes it to the second.
    fn axiom(&mut self, clause: &[Lit]) -> Result<(), StepFault>
        requires live { (A.live self.old.first && B.live self.old.second) ≡ true }
        requires few { length (B.said self.old.second) < 2 ^ 61 }
        ensures first { OnOk result (A.said self.new.first ≡ A.said self.old.first ++ Said.Axiom clause.now ∷ []) }
        ensures second { OnOk result (B.said self.new.second ≡ B.said self.old.second ++ Said.Axiom clause.now ∷ []) }
        ensures same { AreSame (A.live self.new.first && B.live self.new.second) (A.said self.new.first) (B.said self.new.second) }
        ensures live { OnOk result ((A.live self.new.first && B.live self.new.second) ≡ true) }
        ensures dead { OnErr result ((A.live self.new.first && B.live self.new.second) ≡ false) }
        ensures stays { result ≡ Err StepFault.NoMemory → B.said self.new.second ≡ B.said self.old.second }
        ensures one { result ≡ Err StepFault.Failed → (B.said self.new.second ≡ B.said self.old.second)
            ⊎ (B.said self.new.second ≡ B.said self.old.second ++ Said.Axiom clause.now ∷ []) }
        ensures cause { result ≡ Err StepFault.Failed → Rose (A.faults self.old.first) (A.faults self.new.first)
            ⊎ Rose (B.faults self.old.second) (B.faults self.new.second) }
        ensures first_later { A.faults self.old.first ≤ A.faults self.new.first }
        ensures second_later { B.faults self.old.second ≤ B.faults self.new.second }
        ensures first_quiet { A.strict ≡ true → result ≢ Err StepFault.Failed → A.faults self.new.first ≡ A.faults self.old.first }
        ensures second_quiet { B.strict ≡ true → result ≢ Err StepFault.Failed → B.faults self.new.second ≡ B.faults self.old.second }
        ensures first_whole { result ≢ Err StepFault.Failed → A.whole self.new.first ≡ A.whole self.old.first }
        ensures second_whole { result ≢ Err StepFault.Failed → B.whole self.new.second ≡ B.whole self.old.second }
        ensures first_lender { A.lender self.new.first ≡ A.lender self.old.first }
        ensures second_lender { B.lender self.new.second ≡ B.lender self.old.second }
    {
        self.first.axiom(clause)?;
        self.second.axiom(clause)
    }

    /// Gives the line to the first, and where that takes it to the second.
    fn derived(&mut self, clause: &[Lit], hints: &[u64]) -> Result<(), StepFault>
        requires live { (A.live self.old.first && B.live self.old.second) ≡ true }
        requires few { length (B.said self.old.second) < 2 ^ 61 }
        ensures first { OnOk result (A.said self.new.first ≡ A.said self.old.first ++ Said.Derived clause.now hints.now ∷ []) }
        ensures second { OnOk result (B.said self.new.second ≡ B.said self.old.second ++ Said.Derived clause.now hints.now ∷ []) }
        ensures same { AreSame (A.live self.new.first && B.live self.new.second) (A.said self.new.first) (B.said self.new.second) }
        ensures live { OnOk result ((A.live self.new.first && B.live self.new.second) ≡ true) }
        ensures dead { OnErr result ((A.live self.new.first && B.live self.new.second) ≡ false) }
        ensures stays { result ≡ Err StepFault.NoMemory → B.said self.new.second ≡ B.said self.old.second }
        ensures one { result ≡ Err StepFault.Failed → (B.said self.new.second ≡ B.said self.old.second)
            ⊎ (B.said self.new.second ≡ B.said self.old.second ++ Said.Derived clause.now hints.now ∷ []) }
        ensures cause { result ≡ Err StepFault.Failed → Rose (A.faults self.old.first) (A.faults self.new.first)
            ⊎ Rose (B.faults self.old.second) (B.faults self.new.second) }
        ensures first_later { A.faults self.old.first ≤ A.faults self.new.first }
        ensures second_later { B.faults self.old.second ≤ B.faults self.new.second }
        ensures first_quiet { A.strict ≡ true → result ≢ Err StepFault.Failed → A.faults self.new.first ≡ A.faults self.old.first }
        ensures second_quiet { B.strict ≡ true → result ≢ Err StepFault.Failed → B.faults self.new.second ≡ B.faults self.old.second }
        ensures first_whole { result ≢ Err StepFault.Failed → A.whole self.new.first ≡ A.whole self.old.first }
        ensures second_whole { result ≢ Err StepFault.Failed → B.whole self.new.second ≡ B.whole self.old.second }
        ensures first_lender { A.lender self.new.first ≡ A.lender self.old.first }
        ensures second_lender { B.lender self.new.second ≡ B.lender self.old.second }
    {
        self.first.derived(clause, hints)?;
        self.second.derived(clause, hints)
    }
}
