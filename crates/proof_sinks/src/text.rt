//! A sink that prints the lines to a sink of text.

ghost use Rattle.std.specs.Prelude.{◌≡◌, ◌≢◌, ◌<◌, ◌≤◌, ◌+◌, ◌^◌, true, false, [], ◌∷◌, ◌++◌, length, Ok, Err, OnOk, OnErr, IfOk};
ghost use Rattle.probe_io.specs.Causes.{Rose, HasCause};
ghost use Rattle.probe_io.specs.Written.{Appends, AppendsFront};
ghost use Rattle.clause_base.specs.ClauseText.{given_text};
ghost use Rattle.refutation_check.specs.LineText.{derived_text};
ghost use Rattle.proof_sinks.specs.Calls.{KeepsTold};
ghost use Rattle.proof_sinks.specs.Sending.{SendsFront};
ghost use Rattle.proof_sinks.specs.Text.{text_of, without_last};
ghost use Rattle.proof_sinks.specs.declared.lines.Said.{Said};

use crate::lines::Said;
use crate::list::{keep_axiom, keep_derived};
use crate::printing::{derived_line, given_line};
use crate::sink::{ProofSink, StepFault};
use clause_base::Lit;
use probe_io::{Failed, MemSink, Sink};
use std::alloc::Global;
use std::marker::Model;

/// A printer of lines: `f` for a clause that is given, `d` for a derived one, each with a line feed at its end.
/// Contracts see the sink of text, how many bytes it was sent, the lines, whether another is taken, and whether all of
/// their text was sent.
#[derive(Debug, Drop)]
pub struct StepText<K: Sink + Drop> {
    sink: K,
    sent: u128,
    lines: Vec<Said>,
    is_live: bool,
    is_whole: bool,
}

impl<K: Sink + Drop> Model for StepText<K> {
    ghost use Rattle.std.specs.Prelude.{◌≡◌, true};
    ghost use Rattle.proof_sinks.specs.Views.{TextView};
    ghost use Rattle.proof_sinks.specs.Text.{IsPrinted};

    ghost Value = { TextView K };

    ghost view = { λ s. record { sink = s.sink; sent = s.sent; said = s.lines.items; live = s.is_live; whole = s.is_whole } };

    ghost invariant = { λ s. IsPrinted (K.written s.sink) s.sent s.lines.items s.is_whole × (s.is_live ≡ true → s.is_whole ≡ true) };
}

impl<K: Sink + Drop> StepText<K> {
    /// A printer of no lines so far, behind what stands in the sink of text.
    pub fn new(alloc: Global, sink: K) -> StepText<K>
        ensures sink { result.sink ≡ sink }
        ensures sent { result.sent ≡ 0 }
        ensures said { result.said ≡ [] }
        ensures live { result.live ≡ true }
        ensures whole { result.whole ≡ true }
        ensures before { without_last result.sent (K.written result.sink) ≡ K.written sink }
    {
        StepText {
            sink,
            sent: 0,
            lines: Vec::new(alloc),
            is_live: true,
            is_whole: true,
        }
    }

    /// The sink of text. What was written there is what stood there before and then the text of the lines, or a front
    /// of that text, but only after `Failed`.
    pub fn into_sink(self) -> K
        ensures same { result ≡ self.sink }
        ensures whole { self.whole ≡ true → Appends (without_last self.sent (K.written result)) (K.written result) (text_of self.said) }
        ensures front { AppendsFront (without_last self.sent (K.written result)) (K.written result) (text_of self.said) }
        ensures live { self.live ≡ true → self.whole ≡ true }
    {
        self.sink
    }
}

impl<K: Sink + Drop> ProofSink for StepText<K> {
    ghost strict = { K.strict };

    ghost lender = { λ s. K.lender s.sink };

    ghost said = { λ s. s.said };

    ghost live = { λ s. s.live };

    ghost before = { λ s. without_last s.sent (K.written s.sink) };

    ghost whole = { λ s. s.whole };

    ghost faults = { λ s. K.faults s.sink };

    /// Prints the line. After `NoMemory` none of it was written, after `Failed` a front, and the line counts as said.
    fn axiom(&mut self, clause: &[Lit]) -> Result<(), StepFault>
        requires live { self.old.live ≡ true }
        requires few { length self.old.said < 2 ^ 61 }
        ensures ok { OnOk result (Appends (K.written self.old.sink) (K.written self.new.sink) (given_text clause.now)) }
        ensures front { result ≡ Err StepFault.Failed
            → AppendsFront (K.written self.old.sink) (K.written self.new.sink) (given_text clause.now) }
        ensures unwritten { result ≡ Err StepFault.NoMemory → self.new.sink ≡ self.old.sink }
        ensures said { OnOk result (self.new.said ≡ self.old.said ++ Said.Axiom clause.now ∷ []) }
        ensures torn { result ≡ Err StepFault.Failed → self.new.said ≡ self.old.said ++ Said.Axiom clause.now ∷ [] }
        ensures stays { result ≡ Err StepFault.NoMemory → self.new.said ≡ self.old.said }
        ensures live { OnOk result (self.new.live ≡ true) }
        ensures dead { OnErr result (self.new.live ≡ false) }
        ensures whole { result ≢ Err StepFault.Failed → self.new.whole ≡ self.old.whole }
        ensures untorn { result ≢ Err StepFault.Failed → self.new.whole ≡ true }
        ensures cause { result ≡ Err StepFault.Failed → Rose (K.faults self.old.sink) (K.faults self.new.sink) }
        ensures later { K.faults self.old.sink ≤ K.faults self.new.sink }
        ensures quiet { K.strict ≡ true → result ≢ Err StepFault.Failed → K.faults self.new.sink ≡ K.faults self.old.sink }
        ensures lender { K.lender self.new.sink ≡ K.lender self.old.sink }
        ensures before { KeepsTold (without_last self.old.sent (K.written self.old.sink))
            (without_last self.new.sent (K.written self.new.sink)) }
    {
        let Ok(line) = make_axiom(&mut self.lines, clause) else {
            self.is_live = false;
            return Err(StepFault::NoMemory);
        };
        let Ok(()) = send(&mut self.sink, &mut self.sent, line.bytes()) else {
            self.is_live = false;
            self.is_whole = false;
            return Err(StepFault::Failed);
        };
        Ok(())
    }

    /// Prints the line. After `NoMemory` none of it was written, after `Failed` a front, and the line counts as said.
    fn derived(&mut self, clause: &[Lit], hints: &[u64]) -> Result<(), StepFault>
        requires live { self.old.live ≡ true }
        requires few { length self.old.said < 2 ^ 61 }
        ensures ok { OnOk result (Appends (K.written self.old.sink) (K.written self.new.sink)
            (derived_text (length self.old.said + 1) clause.now hints.now)) }
        ensures front { result ≡ Err StepFault.Failed → AppendsFront (K.written self.old.sink) (K.written self.new.sink)
            (derived_text (length self.old.said + 1) clause.now hints.now) }
        ensures unwritten { result ≡ Err StepFault.NoMemory → self.new.sink ≡ self.old.sink }
        ensures said { OnOk result (self.new.said ≡ self.old.said ++ Said.Derived clause.now hints.now ∷ []) }
        ensures torn { result ≡ Err StepFault.Failed → self.new.said ≡ self.old.said ++ Said.Derived clause.now hints.now ∷ [] }
        ensures stays { result ≡ Err StepFault.NoMemory → self.new.said ≡ self.old.said }
        ensures live { OnOk result (self.new.live ≡ true) }
        ensures dead { OnErr result (self.new.live ≡ false) }
        ensures whole { result ≢ Err StepFault.Failed → self.new.whole ≡ self.old.whole }
        ensures untorn { result ≢ Err StepFault.Failed → self.new.whole ≡ true }
        ensures cause { result ≡ Err StepFault.Failed → Rose (K.faults self.old.sink) (K.faults self.new.sink) }
        ensures later { K.faults self.old.sink ≤ K.faults self.new.sink }
        ensures quiet { K.strict ≡ true → result ≢ Err StepFault.Failed → K.faults self.new.sink ≡ K.faults self.old.sink }
        ensures lender { K.lender self.new.sink ≡ K.lender self.old.sink }
        ensures before { KeepsTold (without_last self.old.sent (K.written self.old.sink))
            (without_last self.new.sent (K.written self.new.sink)) }
    {
        let Ok(line) = make_derived(&mut self.lines, clause, hints) else {
            self.is_live = false;
            return Err(StepFault::NoMemory);
        };
        let Ok(()) = send(&mut self.sink, &mut self.sent, line.bytes()) else {
            self.is_live = false;
            self.is_whole = false;
            return Err(StepFault::Failed);
        };
        Ok(())
    }
}

/// Keeps a clause that is given, and gives its line. An error changes nothing.
fn make_axiom(lines: &mut Vec<Said>, clause: &[Lit]) -> Result<MemSink, StepFault>
    ensures text { IfOk result (λ line. line.written ≡ given_text clause.now) }
    ensures kept { OnOk result (lines.new.items ≡ lines.old.items ++ Said.Axiom clause.now ∷ []) }
    ensures stays { OnErr result (lines.new.items ≡ lines.old.items) }
{
    let line = given_line(*lines.allocator(), clause).map_err(|_| StepFault::NoMemory)?;
    keep_axiom(lines, clause).map_err(|_| StepFault::NoMemory)?;
    Ok(line)
}

/// Keeps a derived clause with its hints, and gives its line. An error changes nothing.
fn make_derived(lines: &mut Vec<Said>, clause: &[Lit], hints: &[u64]) -> Result<MemSink, StepFault>
    requires { length lines.old.items < 2 ^ 61 }
    ensures text { IfOk result (λ line. line.written ≡ derived_text (length lines.old.items + 1) clause.now hints.now) }
    ensures kept { OnOk result (lines.new.items ≡ lines.old.items ++ Said.Derived clause.now hints.now ∷ []) }
    ensures stays { OnErr result (lines.new.items ≡ lines.old.items) }
{
    let number = lines.len() as u64 + 1;
    let line = derived_line(*lines.allocator(), number, clause, hints).map_err(
        |_| StepFault::NoMemory,
    )?;
    keep_derived(lines, clause, hints).map_err(|_| StepFault::NoMemory)?;
    Ok(line)
}

/// Writes the bytes, and counts those that were written. After `Failed` those are a front.
fn send<K: Sink>(sink: &mut K, sent: &mut u128, bytes: &[u8]) -> Result<(), Failed>
    requires { sent.old + length bytes.now < 2 ^ 128 }
    ensures ok { OnOk result (Appends (K.written sink.old) (K.written sink.new) bytes.now) }
    ensures all { OnOk result (sent.new ≡ sent.old + length bytes.now) }
    ensures front { OnErr result (SendsFront (K.written sink.old) (K.written sink.new) bytes.now sent.old sent.new) }
    ensures cause { HasCause K.strict (K.faults sink.old) (K.faults sink.new) result }
    ensures lender { K.lender sink.new ≡ K.lender sink.old }
{
    let mut done = 0;
    while done < bytes.len() {
        let count = sink.write(&bytes[done..])?;
        done += count;
        *sent += count as u128;
    }
    Ok(())
}
