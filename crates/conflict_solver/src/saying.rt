//! Lines that are said to a sink, with the faults of a search.

ghost use Rattle.std.specs.Prelude.{◌≡◌, ◌≢◌, ◌⊎◌, ◌<◌, ◌≤◌, ◌^◌, true, [], ◌∷◌, ◌++◌, length, Ok, Err, OnOk, OnErr};
ghost use Rattle.probe_io.specs.Causes.{Rose};
ghost use Rattle.proof_sinks.specs.Calls.{KeepsTold};
ghost use Rattle.proof_sinks.specs.declared.lines.Said.{Said};

use crate::verdict::SolveFault;
use clause_base::Lit;
use proof_sinks::{ProofSink, StepFault};

/// Says that the clause is given.
pub(crate) fn say_given<P: ProofSink>(sink: &mut P, clause: &[Lit]) -> Result<(), SolveFault>
    requires live { P.live sink.old ≡ true }
    requires few { length (P.said sink.old) < 2 ^ 61 }
    ensures said { OnOk result (P.said sink.new ≡ P.said sink.old ++ Said.Axiom clause.now ∷ []) }
    ensures one { OnErr result ((P.said sink.new ≡ P.said sink.old) ⊎ (P.said sink.new ≡ P.said sink.old ++ Said.Axiom clause.now ∷ [])) }
    ensures live { OnOk result (P.live sink.new ≡ true) }
    ensures cause { result ≡ Err SolveFault.Sink → Rose (P.faults sink.old) (P.faults sink.new) }
    ensures later { P.faults sink.old ≤ P.faults sink.new }
    ensures quiet { P.strict ≡ true → result ≢ Err SolveFault.Sink → P.faults sink.new ≡ P.faults sink.old }
    ensures whole { result ≢ Err SolveFault.Sink → P.whole sink.new ≡ P.whole sink.old }
    ensures lender { P.lender sink.new ≡ P.lender sink.old }
    ensures before { KeepsTold (P.before sink.old) (P.before sink.new) }
{
    match sink.axiom(clause) {
        Ok(()) => Ok(()),
        Err(StepFault::Failed) => Err(SolveFault::Sink),
        Err(StepFault::NoMemory) => Err(SolveFault::NoMemory),
    }
}

/// Says that the clause follows by these hints.
pub(crate) fn say_derived<P: ProofSink>(
    sink: &mut P,
    clause: &[Lit],
    hints: &[u64],
) -> Result<(), SolveFault>
    requires live { P.live sink.old ≡ true }
    requires few { length (P.said sink.old) < 2 ^ 61 }
    ensures said { OnOk result (P.said sink.new ≡ P.said sink.old ++ Said.Derived clause.now hints.now ∷ []) }
    ensures one { OnErr result ((P.said sink.new ≡ P.said sink.old) ⊎ (P.said sink.new ≡ P.said sink.old ++ Said.Derived clause.now hints.now ∷ [])) }
    ensures live { OnOk result (P.live sink.new ≡ true) }
    ensures cause { result ≡ Err SolveFault.Sink → Rose (P.faults sink.old) (P.faults sink.new) }
    ensures later { P.faults sink.old ≤ P.faults sink.new }
    ensures quiet { P.strict ≡ true → result ≢ Err SolveFault.Sink → P.faults sink.new ≡ P.faults sink.old }
    ensures whole { result ≢ Err SolveFault.Sink → P.whole sink.new ≡ P.whole sink.old }
    ensures lender { P.lender sink.new ≡ P.lender sink.old }
    ensures before { KeepsTold (P.before sink.old) (P.before sink.new) }
{
    match sink.derived(clause, hints) {
        Ok(()) => Ok(()),
        Err(StepFault::Failed) => Err(SolveFault::Sink),
        Err(StepFault::NoMemory) => Err(SolveFault::NoMemory),
    }
}
