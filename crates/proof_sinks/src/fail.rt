//! A sink that fails at a chosen call.

ghost use Rattle.std.specs.Prelude.{◌≡◌, ◌≢◌, ◌⊎◌, ◌<◌, ◌≤◌, ◌-◌, ◌^◌, true, false, [], ◌∷◌, ◌++◌, length, Err, OnOk, OnErr};
ghost use Rattle.probe_io.specs.Causes.{Rose};
ghost use Rattle.proof_sinks.specs.Calls.{KeepsTold};
ghost use Rattle.proof_sinks.specs.Views.{is_open, all_faults};
ghost use Rattle.proof_sinks.specs.declared.lines.Said.{Said};

use crate::lines::Said;
use crate::sink::{ProofSink, StepFault};
use clause_base::Lit;

/// A sink that passes on the calls to another one, but for one call, which fails.
#[derive(Debug, Drop)]
pub struct StepFail<P: ProofSink + Drop> {
    inner: P,
    /// How many calls are passed on before the one that fails.
    left: u64,
    has_failed: bool,
}

impl<P: ProofSink + Drop> StepFail<P> {
    /// A sink whose calls count from 0: the one numbered `at` fails, all others are passed on to `inner`. That one takes
    /// lines, counted no faults, and nothing was said to it so far.
    pub fn new(inner: P, at: u64) -> StepFail<P>
        requires live { P.live inner ≡ true }
        requires quiet { P.faults inner ≡ 0 }
        requires empty { P.said inner ≡ [] }
        ensures inner { result.inner ≡ inner }
        ensures left { result.left ≡ at }
        ensures fresh { result.has_failed ≡ false }
    {
        StepFail {
            inner,
            left: at,
            has_failed: false,
        }
    }

    /// The sink that calls are passed on to.
    pub fn inner(&self) -> &P
        ensures { result.now ≡ self.now.inner }
    {
        &self.inner
    }

    /// Counts a call, and tells whether it is the one that fails.
    fn is_failing_call(&mut self) -> bool
        ensures failing { result ≡ true → (self.old.left ≡ 0) × (self.new ≡ record self.old { has_failed = true }) }
        ensures passed { result ≡ false → (0 < self.old.left) × (self.new ≡ record self.old { left = self.old.left - 1 }) }
    {
        if self.left == 0 {
            self.has_failed = true;
            return true;
        }
        self.left -= 1;
        false
    }
}

impl<P: ProofSink + Drop> ProofSink for StepFail<P> {
    ghost strict = { P.strict };

    ghost lender = { λ s. P.lender s.inner };

    ghost said = { λ s. P.said s.inner };

    ghost live = { λ s. is_open s.has_failed (P.live s.inner) };

    ghost before = { λ s. P.before s.inner };

    ghost whole = { λ s. P.whole s.inner };

    ghost faults = { λ s. all_faults s.has_failed (P.faults s.inner) };

    /// Passes the line on, or fails where this is the chosen call.
    fn axiom(&mut self, clause: &[Lit]) -> Result<(), StepFault>
        requires live { is_open self.old.has_failed (P.live self.old.inner) ≡ true }
        requires few { length (P.said self.old.inner) < 2 ^ 61 }
        ensures chosen { self.old.left ≡ 0 → (result ≡ Err StepFault.Failed) × (self.new ≡ record self.old { has_failed = true }) }
        ensures passed { 0 < self.old.left → (self.new.left ≡ self.old.left - 1) × (self.new.has_failed ≡ self.old.has_failed) }
        ensures said { OnOk result (P.said self.new.inner ≡ P.said self.old.inner ++ Said.Axiom clause.now ∷ []) }
        ensures live { OnOk result (P.live self.new.inner ≡ true) }
        ensures dead { OnErr result (is_open self.new.has_failed (P.live self.new.inner) ≡ false) }
        ensures stays { result ≡ Err StepFault.NoMemory → P.said self.new.inner ≡ P.said self.old.inner }
        ensures one { result ≡ Err StepFault.Failed → (P.said self.new.inner ≡ P.said self.old.inner)
            ⊎ (P.said self.new.inner ≡ P.said self.old.inner ++ Said.Axiom clause.now ∷ []) }
        ensures cause { result ≡ Err StepFault.Failed → (self.old.left ≡ 0) ⊎ Rose (P.faults self.old.inner) (P.faults self.new.inner) }
        ensures later { P.faults self.old.inner ≤ P.faults self.new.inner }
        ensures quiet { P.strict ≡ true → result ≢ Err StepFault.Failed → P.faults self.new.inner ≡ P.faults self.old.inner }
        ensures whole { result ≢ Err StepFault.Failed → P.whole self.new.inner ≡ P.whole self.old.inner }
        ensures lender { P.lender self.new.inner ≡ P.lender self.old.inner }
        ensures before { KeepsTold (P.before self.old.inner) (P.before self.new.inner) }
    {
        if self.is_failing_call() {
            return Err(StepFault::Failed);
        }
        self.inner.axiom(clause)
    }

    /// Passes the line on, or fails where this is the chosen call.
    fn derived(&mut self, clause: &[Lit], hints: &[u64]) -> Result<(), StepFault>
        requires live { is_open self.old.has_failed (P.live self.old.inner) ≡ true }
        requires few { length (P.said self.old.inner) < 2 ^ 61 }
        ensures chosen { self.old.left ≡ 0 → (result ≡ Err StepFault.Failed) × (self.new ≡ record self.old { has_failed = true }) }
        ensures passed { 0 < self.old.left → (self.new.left ≡ self.old.left - 1) × (self.new.has_failed ≡ self.old.has_failed) }
        ensures said { OnOk result (P.said self.new.inner ≡ P.said self.old.inner ++ Said.Derived clause.now hints.now ∷ []) }
        ensures live { OnOk result (P.live self.new.inner ≡ true) }
        ensures dead { OnErr result (is_open self.new.has_failed (P.live self.new.inner) ≡ false) }
        ensures stays { result ≡ Err StepFault.NoMemory → P.said self.new.inner ≡ P.said self.old.inner }
        ensures one { result ≡ Err StepFault.Failed → (P.said self.new.inner ≡ P.said self.old.inner)
            ⊎ (P.said self.new.inner ≡ P.said self.old.inner ++ Said.Derived clause.now hints.now ∷ []) }
        ensures cause { result ≡ Err StepFault.Failed → (self.old.left ≡ 0) ⊎ Rose (P.faults self.old.inner) (P.faults self.new.inner) }
        ensures later { P.faults self.old.inner ≤ P.faults self.new.inner }
        ensures quiet { P.strict ≡ true → result ≢ Err StepFault.Failed → P.faults self.new.inner ≡ P.faults self.old.inner }
        ensures whole { result ≢ Err StepFault.Failed → P.whole self.new.inner ≡ P.whole self.old.inner }
        ensures lender { P.lender self.new.inner ≡ P.lender self.old.inner }
        ensures before { KeepsTold (P.before self.old.inner) (P.before self.new.inner) }
    {
        if self.is_failing_call() {
            return Err(StepFault::Failed);
        }
        self.inner.derived(clause, hints)
    }
}
