//! The trait of what takes the lines of a proof, and its errors.

ghost use Rattle.std.specs.Prelude.{◌≡◌, ◌≢◌, ◌⊎◌, ℕ, ◌<◌, ◌≤◌, ◌^◌, Bool, true, false, List, [], ◌∷◌, ◌++◌, length, Option, Ok, Err, OnOk, OnErr};
ghost use Rattle.probe_io.specs.Causes.{Rose};
ghost use Rattle.proof_sinks.specs.Calls.{KeepsTold};
ghost use Rattle.proof_sinks.specs.declared.lines.Said.{Said};

use crate::lines::Said;
use clause_base::Lit;
use thiserror::Error;

/// Why a line was not taken.
#[derive(Clone, Copy, Debug, PartialEq, Eq, Error)]
pub enum StepFault {
    /// The line could not be said: the sink's count of faults rose.
    #[error("a line of the proof could not be said")]
    Failed,
    /// No memory was found. The line was not said.
    #[error("out of memory")]
    NoMemory,
}

/// What takes the lines of a proof.
///
/// `said` are the lines so far. `live` tells whether another one may be said: until the first error. `before` is the
/// text that stood before the first line, where the sink tells it. `whole` tells whether all of the text of the lines
/// is written; only `Failed` changes it. `faults` counts failed calls and never falls. `strict` tells whether every
/// failure is passed on: a call of a strict sink that doesn't answer `Failed` leaves the count as it was. `lender` names
/// the references that the text is written through, so that what was said to a printer over a borrowed sink of text is
/// known of the sink that was lent; no call changes it.
pub trait ProofSink {
    ghost strict: { Bool };

    ghost lender: { Self → List ℕ };

    ghost said: { Self → List Said };

    ghost live: { Self → Bool };

    ghost before: { Self → Option (List ℕ) };

    ghost whole: { Self → Bool };

    ghost faults: { Self → ℕ };

    /// Says that this clause is given. After `NoMemory` nothing more is said, after `Failed` nothing or this line.
    fn axiom(&mut self, clause: &[Lit]) -> Result<(), StepFault>
        requires live { live self.old ≡ true }
        requires few { length (said self.old) < 2 ^ 61 }
        ensures said { OnOk result (said self.new ≡ said self.old ++ Said.Axiom clause.now ∷ []) }
        ensures live { OnOk result (live self.new ≡ true) }
        ensures dead { OnErr result (live self.new ≡ false) }
        ensures stays { result ≡ Err StepFault.NoMemory → said self.new ≡ said self.old }
        ensures one { result ≡ Err StepFault.Failed → (said self.new ≡ said self.old)
            ⊎ (said self.new ≡ said self.old ++ Said.Axiom clause.now ∷ []) }

        ensures cause { result ≡ Err StepFault.Failed → Rose (faults self.old) (faults self.new) }
        ensures later { faults self.old ≤ faults self.new }
        ensures quiet { strict ≡ true → result ≢ Err StepFault.Failed → faults self.new ≡ faults self.old }
        ensures whole { result ≢ Err StepFault.Failed → whole self.new ≡ whole self.old }
        ensures lender { lender self.new ≡ lender self.old }
        ensures before { KeepsTold (before self.old) (before self.new) };

    /// Says that this clause follows by these hints. After `NoMemory` nothing more is said, after `Failed` nothing or
    /// this line.
    fn derived(&mut self, clause: &[Lit], hints: &[u64]) -> Result<(), StepFault>
        requires live { live self.old ≡ true }
        requires few { length (said self.old) < 2 ^ 61 }
        ensures said { OnOk result (said self.new ≡ said self.old ++ Said.Derived clause.now hints.now ∷ []) }
        ensures live { OnOk result (live self.new ≡ true) }
        ensures dead { OnErr result (live self.new ≡ false) }
        ensures stays { result ≡ Err StepFault.NoMemory → said self.new ≡ said self.old }
        ensures one { result ≡ Err StepFault.Failed → (said self.new ≡ said self.old)
            ⊎ (said self.new ≡ said self.old ++ Said.Derived clause.now hints.now ∷ []) }

        ensures cause { result ≡ Err StepFault.Failed → Rose (faults self.old) (faults self.new) }
        ensures later { faults self.old ≤ faults self.new }
        ensures quiet { strict ≡ true → result ≢ Err StepFault.Failed → faults self.new ≡ faults self.old }
        ensures whole { result ≢ Err StepFault.Failed → whole self.new ≡ whole self.old }
        ensures lender { lender self.new ≡ lender self.old }
        ensures before { KeepsTold (before self.old) (before self.new) };
}

/// A borrowed sink is that sink.
impl<P: ProofSink> ProofSink for &mut P {
    ghost strict = { P.strict };

    ghost lender = { λ s. s.ghost_name ∷ P.lender s.now };

    ghost said = { λ s. P.said s.now };

    ghost live = { λ s. P.live s.now };

    ghost before = { λ s. P.before s.now };

    ghost whole = { λ s. P.whole s.now };

    ghost faults = { λ s. P.faults s.now };

    fn axiom(&mut self, clause: &[Lit]) -> Result<(), StepFault> {
        ProofSink::axiom(&mut **self, clause)
    }

    fn derived(&mut self, clause: &[Lit], hints: &[u64]) -> Result<(), StepFault> {
        ProofSink::derived(&mut **self, clause, hints)
    }
}
