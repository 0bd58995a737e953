//! Tests of the checker.

use crate::fixtures::formula;
use refutation_check::{Checker, StepRefusal};
use std::alloc::Global;
use std::test::Fail;

/// Takes the clauses of the formula as given.
fn give(alloc: Global, checker: &mut Checker, text: &[u8]) -> Result<(), Fail> {
    let formula = formula(alloc, text)?;
    for clause in formula.clauses() {
        if clause.is_within(checker.vars()) {
            checker.axiom(clause.as_slice())?;
        }
    }
    Ok(())
}

/// What the checker says to a step, `None` where a variable is too great. The step is the formula's first clause.
fn tried(
    alloc: Global,
    checker: &mut Checker,
    text: &[u8],
    hints: &[u64],
) -> Result<Option<Result<(), StepRefusal>>, Fail> {
    let formula = formula(alloc, text)?;
    match formula.clauses().first() {
        Some(clause) if clause.is_within(checker.vars()) => {
            Ok(Some(checker.step(clause.as_slice(), hints)))
        }
        _ => Ok(None),
    }
}

#[test]
fn steps_are_taken_and_refused(rt: HostRuntime) -> Result<(), Fail> {
    let alloc = rt.alloc();
    let rows: [(&[u8], &[u64], Result<(), StepRefusal>); 11] = [
        (b"p cnf 2 1\n2 0", &[1], Err(StepRefusal::NoClash)),
        (b"p cnf 2 1\n0", &[9], Err(StepRefusal::NoSuchClause(0))),
        (b"p cnf 2 1\n1 0", &[], Err(StepRefusal::NoClash)),
        (b"p cnf 2 1\n1 0", &[0], Err(StepRefusal::NoSuchClause(0))),
        (
            b"p cnf 2 1\n1 0",
            &[1, 3],
            Err(StepRefusal::NoSuchClause(1)),
        ),
        (b"p cnf 2 1\n0", &[1, 2], Err(StepRefusal::NotUnit(0))),
        (b"p cnf 2 1\n1 2 0", &[1, 2], Err(StepRefusal::NotUnit(0))),
        (b"p cnf 2 1\n1 0", &[1, 2], Ok(())),
        (b"p cnf 2 1\n1 0", &[3], Ok(())),
        (b"p cnf 2 1\n1 -2 0", &[1, 2], Ok(())),
        (b"p cnf 2 1\n1 1 0", &[2, 1], Ok(())),
    ];
    let mut checker = Checker::new(alloc, 2)?;
    give(alloc, &mut checker, b"p cnf 2 2\n1 2 0 1 -2 0")?;
    for (step, hints, expected) in rows {
        assert_eq!(rt; tried(alloc, &mut checker, step, hints)?, Some(expected));
        assert!(rt; !checker.closed());
    }
    Ok(())
}

#[test]
fn an_empty_step_closes(rt: HostRuntime) -> Result<(), Fail> {
    let alloc = rt.alloc();
    let mut checker = Checker::new(alloc, 2)?;
    assert_eq!(rt; checker.vars(), 2);
    let square = b"p cnf 2 4\n1 2 0 1 -2 0 -1 2 0 -1 -2 0";
    give(alloc, &mut checker, square)?;
    let unit = b"p cnf 2 1\n1 0";
    assert_eq!(rt; tried(alloc, &mut checker, unit, &[1, 2])?, Some(Ok(())));
    assert!(rt; !checker.closed());
    let empty = b"p cnf 2 1\n0";
    assert_eq!(rt;
        tried(alloc, &mut checker, empty, &[5, 3, 4])?,
        Some(Ok(()))
    );
    assert!(rt; checker.closed());
    assert_eq!(rt; checker.clauses().len(), 6);
    Ok(())
}
