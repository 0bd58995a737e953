//! The command `solve`.

use crate::fixtures::{Answer, Files, NONE, at_out, at_shelf, call, expect};
use carafe_core::{Status, Stream, Which};
use std::test::Fail;

/// A formula of 14 bytes with one solution.
const UNIT: Files = &[("formula", "p cnf 1 1 1 0\n")];

/// Four pigeons in three holes: the variable 3 (i - 1) + j says that the pigeon i sits in the hole j.
const PIGEONS: Files = &[(
    "formula",
    "p cnf 12 22\n1 2 3 0\n4 5 6 0\n7 8 9 0\n10 11 12 0\n-1 -4 0\n-1 -7 0\n-1 -10 0\n-4 -7 0\n-4 -10 0\n-7 -10 0\n-2 -5 0\n-2 -8 0\n-2 -11 0\n-5 -8 0\n-5 -11 0\n-8 -11 0\n-3 -6 0\n-3 -9 0\n-3 -12 0\n-6 -9 0\n-6 -12 0\n-9 -12 0\n",
)];

const OPEN_FAULT: Answer = Answer {
    status: Status::OpenFault(Which::Formula),
    exit: 4,
    diag: "carafe: OpenFault formula\n",
};

const READ_FAULT: Answer = Answer {
    status: Status::ReadFault(Which::Formula),
    exit: 4,
    diag: "carafe: ReadFault formula\n",
};

const WRITE_FAULT: Answer = Answer {
    status: Status::WriteFault(Stream::Out),
    exit: 5,
    diag: "carafe: WriteFault out\n",
};

// The formula is started at call 0, and its 14 bytes are read by the next.
#[test]
fn faults_name_their_device(rt: HostRuntime) -> Result<(), Fail> {
    for (words, faults, answer) in [
        ("solve absent 1", NONE, OPEN_FAULT),
        ("solve formula 1", at_shelf(&[0]), OPEN_FAULT),
        ("solve formula 1", at_shelf(&[1]), READ_FAULT),
        ("solve formula 1", at_shelf(&[2]), READ_FAULT),
        ("solve formula 1", at_out(&[0]), WRITE_FAULT),
    ] {
        expect(&rt, rt.alloc(), words, UNIT, &faults, answer)?;
    }
    Ok(())
}

// No clause of one literal follows by propagation, so the empty one can't come next.
#[test]
fn one_line_does_not_refute_the_pigeons(rt: HostRuntime) -> Result<(), Fail> {
    let ending = call(rt.alloc(), "solve formula 1", PIGEONS, &NONE)?;
    assert_eq!(rt; ending.status, Status::DoneUndecided);
    assert_eq!(rt; ending.status.exit_number(), 1);
    assert_eq!(rt; ending.diag.bytes().len(), 0);
    let report = std::str::from_utf8(ending.out.bytes())?;
    assert!(rt; report.starts_with("carafe solve 1\nbudget 1\nformula 12 22\nf 1 2 3 0\n"));
    assert!(rt; report.ends_with("\nundecided\n"));
    assert_eq!(rt;
        report.lines().filter(|line| line.starts_with("d ")).count(),
        1
    );
    Ok(())
}

// There are no more than 3 to the power of 12 new clauses, which are 531,441.
#[test]
fn the_pigeons_are_refuted(rt: HostRuntime) -> Result<(), Fail> {
    let ending = call(rt.alloc(), "solve formula 1000000", PIGEONS, &NONE)?;
    assert_eq!(rt; ending.status, Status::Done);
    assert!(rt; ending.out.bytes().ends_with(b" 0\nrefuted\n"));
    assert_eq!(rt; ending.diag.bytes().len(), 0);
    Ok(())
}
