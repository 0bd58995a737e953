//! Searches on small formulas, each line of which a checker takes.

ghost use Rattle.std.specs.Prelude.{◌≡◌, ◌<◌, true, []};

use crate::fixtures::formula;
use conflict_solver::{SolveFault, Verdict, solve};
use proof_sinks::{ProofSink, Said, StepCheck, StepFail, StepList, StepPair};
use refutation_check::Checker;
use std::test::Fail;

/// Four pigeons fit three holes: the variable 3 (i - 1) + j says that the pigeon i sits in the hole j.
const PIGEONS: &[u8] = b"p cnf 12 22
1 2 3 0 4 5 6 0 7 8 9 0 10 11 12 0
-1 -4 0 -1 -7 0 -1 -10 0 -4 -7 0 -4 -10 0 -7 -10 0
-2 -5 0 -2 -8 0 -2 -11 0 -5 -8 0 -5 -11 0 -8 -11 0
-3 -6 0 -3 -9 0 -3 -12 0 -6 -9 0 -6 -12 0 -9 -12 0
";

/// All four clauses of two variables.
const SQUARE: &[u8] = b"p cnf 2 4\n1 2 0 1 -2 0 -1 2 0 -1 -2 0\n";

/// Either value of the first variable is refuted by another variable.
const BRANCHES: &[u8] = b"p cnf 3 4\n1 2 0 1 -2 0 -1 3 0 -1 -3 0\n";

/// How a search ends.
#[derive(Clone, Copy, Debug, PartialEq, Eq)]
enum End {
    Values,
    Refuted,
    Undecided,
}

fn end_of(verdict: &Verdict) -> End {
    match verdict {
        Verdict::Values(_) => End::Values,
        Verdict::Refuted => End::Refuted,
        Verdict::Undecided => End::Undecided,
    }
}

#[test]
fn derivations_are_checked(rt: HostRuntime) -> Result<(), Fail> {
    let alloc = rt.alloc();
    let rows: [(&[u8], u32, End); 8] = [
        (PIGEONS, 1, End::Undecided),
        (PIGEONS, 1_000_000, End::Refuted),
        (SQUARE, 4, End::Refuted),
        (BRANCHES, 1, End::Refuted),
        (b"p cnf 1 1\n0\n", 1, End::Refuted),
        (b"p cnf 1 2\n1 0 -1 0\n", 1, End::Refuted),
        (b"p cnf 1 1\n1 0\n", 1, End::Values),
        (b"p cnf 2 2\n2 -1 2 0 1 -1 0\n", 1, End::Values),
    ];
    for (text, budget, end) in rows {
        if budget == 0 {
            continue;
        }
        let formula = formula(alloc, text)?;
        let check = StepCheck::new(alloc, Checker::new(alloc, formula.vars())?);
        let mut pair = StepPair::new(StepList::new(alloc), check);
        let Ok(verdict) = solve(alloc, &formula, budget, &mut pair) else {
            return Err("the checker refused a line".into());
        };
        assert_eq!(rt; end_of(&verdict), end);
        assert_eq!(rt; pair.second().checker().closed(), end == End::Refuted);
        if end != End::Refuted {
            let lines = pair.first().lines().len();
            let derived = if end == End::Undecided { 1 } else { 0 };
            assert_eq!(rt; lines, formula.clauses().len() + derived);
        }
    }
    Ok(())
}

#[test]
fn each_line_may_fail(rt: HostRuntime) -> Result<(), Fail> {
    let alloc = rt.alloc();
    let rows: [&[u8]; 2] = [PIGEONS, SQUARE];
    for text in rows {
        let formula = formula(alloc, text)?;
        let mut is_done = false;
        for call in 0..1000 {
            let mut sink = StepFail::new(StepList::new(alloc), call);
            match solve(alloc, &formula, 1_000_000, &mut sink) {
                Ok(verdict) => {
                    assert_eq!(rt; end_of(&verdict), End::Refuted);
                    is_done = true;
                    break;
                }
                Err(fault) => assert_eq!(rt; fault, SolveFault::Sink),
            }
        }
        assert!(rt; is_done, "no run met all its calls");
    }
    Ok(())
}

/// How many literals the first derived clause has.
fn first_derived(lines: &[Said]) -> Option<usize> {
    for line in lines {
        if let Said::Derived(clause, _) = line {
            return Some(clause.as_slice().len());
        }
    }
    None
}

#[test]
fn a_unit_clause_comes_first(rt: HostRuntime) -> Result<(), Fail> {
    let alloc = rt.alloc();
    let formula = formula(alloc, BRANCHES)?;
    let mut list = StepList::new(alloc);
    let verdict = solve(alloc, &formula, 1, &mut list)?;
    assert_eq!(rt; end_of(&verdict), End::Refuted);
    assert_eq!(rt; first_derived(list.lines()), Some(1));
    Ok(())
}
