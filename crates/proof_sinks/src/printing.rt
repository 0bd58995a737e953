//! The text of lines.

ghost use Rattle.std.specs.Prelude.{◌≡◌, OnOk, OnErr, IfOk};
ghost use Rattle.probe_io.specs.Causes.{HasCause};
ghost use Rattle.probe_io.specs.Written.{Appends, AppendsFront};
ghost use Rattle.clause_base.specs.ClauseText.{literal_text, clause_text, given_text};
ghost use Rattle.refutation_check.specs.LineText.{hint_text, hints_text, derived_text};

use clause_base::Lit;
use probe_io::{Failed, MemSink, Piece, Sink, put_all, put_pieces};
use std::alloc::Global;

/// Writes a clause: its literals, each followed by a space, and `0`. After `Failed`, a front of that text was written.
/// It takes no memory.
pub fn put_clause<K: Sink>(sink: &mut K, clause: &[Lit]) -> Result<(), Failed>
    ensures ok { OnOk result (Appends (K.written sink.old) (K.written sink.new) (clause_text clause.now)) }
    ensures front { OnErr result (AppendsFront (K.written sink.old) (K.written sink.new) (clause_text clause.now)) }
    ensures cause { HasCause K.strict (K.faults sink.old) (K.faults sink.new) result }
{
    for lit in clause {
        put_literal(sink, *lit)?;
    }
    put_all(sink, b"0")
}

/// Writes a literal and a space.
#[tactic(auto, unfolding(clause_base::specs::ClauseText::literal_text))]
fn put_literal<K: Sink>(sink: &mut K, lit: Lit) -> Result<(), Failed>
    ensures ok { OnOk result (Appends (K.written sink.old) (K.written sink.new) (literal_text lit)) }
    ensures front { OnErr result (AppendsFront (K.written sink.old) (K.written sink.new) (literal_text lit)) }
    ensures cause { HasCause K.strict (K.faults sink.old) (K.faults sink.new) result }
{
    put_pieces(
        sink,
        &[Piece::Signed(lit.value() as i64), Piece::Text(b" ")],
    )
}

/// Writes the line of a clause that is given. After `Failed`, a front of it was written. It takes no memory.
pub fn put_given<K: Sink>(sink: &mut K, clause: &[Lit]) -> Result<(), Failed>
    ensures ok { OnOk result (Appends (K.written sink.old) (K.written sink.new) (given_text clause.now)) }
    ensures front { OnErr result (AppendsFront (K.written sink.old) (K.written sink.new) (given_text clause.now)) }
    ensures cause { HasCause K.strict (K.faults sink.old) (K.faults sink.new) result }
{
    put_all(sink, b"f ")?;
    put_clause(sink, clause)?;
    put_all(sink, b"\n")
}

/// Writes the line of a derived clause of this number, with its hints. After `Failed`, a front of it was written. It
/// takes no memory.
pub fn put_derived<K: Sink>(
    sink: &mut K,
    number: u64,
    clause: &[Lit],
    hints: &[u64],
) -> Result<(), Failed>
    ensures ok { OnOk result (Appends (K.written sink.old) (K.written sink.new) (derived_text number clause.now hints.now)) }
    ensures front { OnErr result (AppendsFront (K.written sink.old) (K.written sink.new) (derived_text number clause.now hints.now)) }
    ensures cause { HasCause K.strict (K.faults sink.old) (K.faults sink.new) result }
{
    put_pieces(
        sink,
        &[Piece::Text(b"d "), Piece::Number(number), Piece::Text(b" ")],
    )?;
    put_clause(sink, clause)?;
    put_all(sink, b" ")?;
    put_hints(sink, hints)?;
    put_all(sink, b"\n")
}

/// Writes the hints, each followed by a space, and `0`.
fn put_hints<K: Sink>(sink: &mut K, hints: &[u64]) -> Result<(), Failed>
    ensures ok { OnOk result (Appends (K.written sink.old) (K.written sink.new) (hints_text hints.now)) }
    ensures front { OnErr result (AppendsFront (K.written sink.old) (K.written sink.new) (hints_text hints.now)) }
    ensures cause { HasCause K.strict (K.faults sink.old) (K.faults sink.new) result }
{
    for hint in hints {
        put_hint(sink, *hint)?;
    }
    put_all(sink, b"0")
}

/// Writes a hint and a space.
#[tactic(auto, unfolding(refutation_check::specs::LineText::hint_text))]
fn put_hint<K: Sink>(sink: &mut K, hint: u64) -> Result<(), Failed>
    ensures ok { OnOk result (Appends (K.written sink.old) (K.written sink.new) (hint_text hint)) }
    ensures front { OnErr result (AppendsFront (K.written sink.old) (K.written sink.new) (hint_text hint)) }
    ensures cause { HasCause K.strict (K.faults sink.old) (K.faults sink.new) result }
{
    put_pieces(sink, &[Piece::Number(hint), Piece::Text(b" ")])
}

/// The line of a clause that is given. It fails only where no memory is found.
pub(crate) fn given_line(alloc: Global, clause: &[Lit]) -> Result<MemSink, Failed>
    ensures { IfOk result (λ line. line.written ≡ given_text clause.now) }
{
    let mut line = MemSink::new(alloc, Vec::new(alloc), usize::MAX);
    put_given(&mut line, clause)?;
    Ok(line)
}

/// The line of a derived clause of this number. It fails only where no memory is found.
pub(crate) fn derived_line(
    alloc: Global,
    number: u64,
    clause: &[Lit],
    hints: &[u64],
) -> Result<MemSink, Failed>
    ensures { IfOk result (λ line. line.written ≡ derived_text number clause.now hints.now) }
{
    let mut line = MemSink::new(alloc, Vec::new(alloc), usize::MAX);
    put_derived(&mut line, number, clause, hints)?;
    Ok(line)
}
