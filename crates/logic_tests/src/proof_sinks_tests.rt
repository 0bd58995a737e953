//! The formula of two variables that has no solution, told to each sink.

ghost use Rattle.std.specs.Prelude.{◌≡◌, true, []};

use crate::fixtures::lits;
use clause_base::Clause;
use probe_io::{Failed, MemSink};
use proof_sinks::{
    ProofSink, Said, StepCheck, StepFail, StepFault, StepList, StepPair, StepText, put_clause,
};
use refutation_check::Checker;
use std::alloc::{AllocError, Global};
use std::test::Fail;

const TEXT: &[u8] = b"f 1 2 0\nf 1 -2 0\nf -1 2 0\nf -1 -2 0\nd 5 1 0 1 2 0\nd 6 0 5 3 4 0\n";

/// The clause of these numbers.
fn clause(alloc: Global, numbers: &[i32]) -> Result<Clause, AllocError> {
    Clause::new(alloc, lits(alloc, numbers)?.as_slice())
}

/// The clauses of the formula, and the two that refute it.
#[derive(Drop)]
struct Refutation {
    either: Clause,
    first: Clause,
    second: Clause,
    neither: Clause,
    unit: Clause,
    empty: Clause,
}

fn two_variables(alloc: Global) -> Result<Refutation, AllocError> {
    Ok(Refutation {
        either: clause(alloc, &[1, 2])?,
        first: clause(alloc, &[1, -2])?,
        second: clause(alloc, &[-1, 2])?,
        neither: clause(alloc, &[-1, -2])?,
        unit: clause(alloc, &[1])?,
        empty: clause(alloc, &[])?,
    })
}

/// Says the lines of the refutation.
fn say<P: ProofSink>(sink: &mut P, lines: &Refutation) -> Result<(), StepFault>
    requires live { P.live sink.old ≡ true }
    requires empty { P.said sink.old ≡ [] }
{
    sink.axiom(lines.either.as_slice())?;
    sink.axiom(lines.first.as_slice())?;
    sink.axiom(lines.second.as_slice())?;
    sink.axiom(lines.neither.as_slice())?;
    sink.derived(lines.unit.as_slice(), &[1, 2])?;
    sink.derived(lines.empty.as_slice(), &[5, 3, 4])
}

#[test]
fn a_list_keeps_the_lines(rt: HostRuntime) -> Result<(), Fail> {
    let alloc = rt.alloc();
    let mut list = StepList::new(alloc);
    assert_eq!(rt; say(&mut list, &two_variables(alloc)?), Ok(()));
    assert_eq!(rt; list.lines().len(), 6);
    let Some(Said::Derived(clause, hints)) = list.lines().last() else {
        return Err("the last line is derived".into());
    };
    assert!(rt; clause.as_slice().is_empty());
    assert_eq!(rt; hints.as_slice(), [5u64, 3, 4].as_slice());
    Ok(())
}

#[test]
fn lines_are_printed(rt: HostRuntime) -> Result<(), Fail> {
    let alloc = rt.alloc();
    let mut sink = MemSink::new(alloc, Vec::new(alloc), 3);
    assert_eq!(rt;
        put_clause(&mut sink, clause(alloc, &[-3, 20])?.as_slice()),
        Ok(())
    );
    assert_eq!(rt; sink.bytes(), b"-3 20 0".as_slice());
    assert_eq!(rt; put_clause(&mut sink, &[]), Ok(()));
    assert_eq!(rt; sink.bytes(), b"-3 20 00".as_slice());
    let mut text = StepText::new(alloc, MemSink::new(alloc, Vec::new(alloc), 7));
    assert_eq!(rt; say(&mut text, &two_variables(alloc)?), Ok(()));
    assert_eq!(rt; text.into_sink().bytes(), TEXT);
    Ok(())
}

#[test]
fn a_front_is_printed_where_the_sink_fails(rt: HostRuntime) -> Result<(), Fail> {
    let alloc = rt.alloc();
    let lines = two_variables(alloc)?;
    for call in 0..4 {
        let sink = MemSink::new(alloc, vec![in alloc; call]?, 5);
        let mut text = StepText::new(alloc, sink);
        assert_eq!(rt;
            say(&mut text, &lines),
            Err(StepFault::Failed),
            "call {call}"
        );
        let sink = text.into_sink();
        assert!(rt; TEXT.starts_with(sink.bytes()), "call {call}");
    }
    let mut sink = MemSink::new(alloc, vec![in alloc; 1]?, 2);
    assert_eq!(rt; put_clause(&mut sink, lines.unit.as_slice()), Err(Failed));
    Ok(())
}

/// What the failed write of a line leaves: the lines before it.
#[test]
fn a_line_is_one_write(rt: HostRuntime) -> Result<(), Fail> {
    let alloc = rt.alloc();
    let lines = two_variables(alloc)?;
    let ends = [0, 8, 17, 26, 36, 50, 64];
    for (call, end) in ends.iter().enumerate() {
        let sink = MemSink::new(alloc, vec![in alloc; call as u64]?, usize::MAX);
        let mut text = StepText::new(alloc, sink);
        let want = if call < 6 {
            Err(StepFault::Failed)
        } else {
            Ok(())
        };
        assert_eq!(rt; say(&mut text, &lines), want, "call {call}");
        assert_eq!(rt; text.into_sink().bytes(), &TEXT[..*end], "call {call}");
    }
    Ok(())
}

#[test]
fn a_checker_takes_what_follows(rt: HostRuntime) -> Result<(), Fail> {
    let alloc = rt.alloc();
    let lines = two_variables(alloc)?;
    let mut check = StepCheck::new(alloc, Checker::new(alloc, 2)?);
    assert_eq!(rt; say(&mut check, &lines), Ok(()));
    assert!(rt; check.checker().closed());
    let mut check = StepCheck::new(alloc, Checker::new(alloc, 1)?);
    assert_eq!(rt;
        say(&mut check, &lines),
        Err(StepFault::Failed),
        "a variable is too great"
    );
    let mut check = StepCheck::new(alloc, Checker::new(alloc, 2)?);
    assert_eq!(rt;
        check.derived(lines.unit.as_slice(), &[1]),
        Err(StepFault::Failed)
    );
    Ok(())
}

#[test]
fn a_pair_tells_both(rt: HostRuntime) -> Result<(), Fail> {
    let alloc = rt.alloc();
    let lines = two_variables(alloc)?;
    let check = StepCheck::new(alloc, Checker::new(alloc, 2)?);
    let mut pair = StepPair::new(StepList::new(alloc), check);
    assert_eq!(rt; say(&mut &mut pair, &lines), Ok(()));
    assert_eq!(rt; pair.first().lines().len(), 6);
    assert!(rt; pair.second().checker().closed());
    let check = StepCheck::new(alloc, Checker::new(alloc, 1)?);
    let mut pair = StepPair::new(StepList::new(alloc), check);
    assert_eq!(rt; say(&mut pair, &lines), Err(StepFault::Failed));
    assert_eq!(rt;
        pair.first().lines().len(),
        1,
        "the first took the line that the second refused"
    );
    Ok(())
}

#[test]
fn the_chosen_call_fails(rt: HostRuntime) -> Result<(), Fail> {
    let alloc = rt.alloc();
    let lines = two_variables(alloc)?;
    for at in 0..8 {
        let mut sink = StepFail::new(StepList::new(alloc), at);
        let want = if at < 6 {
            Err(StepFault::Failed)
        } else {
            Ok(())
        };
        assert_eq!(rt; say(&mut sink, &lines), want, "call {at}");
        assert_eq!(rt; sink.inner().lines().len() as u64, at.min(6), "call {at}");
    }
    Ok(())
}
