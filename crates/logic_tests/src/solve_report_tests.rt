//! Reports of small formulas over sinks in memory.

ghost use Rattle.std.specs.Prelude.{false};

use crate::fixtures::formula;
use probe_io::{Failed, MemSink, Sink};
use solve_report::{Ending, ReportFault, write};
use std::test::Fail;

/// Two clauses, one with a literal twice and the other a tautology.
const TWO_CLAUSES: &[u8] = b"p cnf 2 2\n2 -1 2 0\n1 -1 0\n";

const UNIT: &[u8] = b"carafe solve 1\nbudget 1\nformula 1 1\nf 1 0\nvalues 1 0\n";

#[test]
fn reports_are_whole(rt: HostRuntime) -> Result<(), Fail> {
    let alloc = rt.alloc();
    let rows: [(&[u8], &[&[u8]]); 4] = [
        (
            TWO_CLAUSES,
            &[
                b"carafe solve 1\nbudget 1\nformula 2 2\nf -1 2 0\nf -1 1 0\nvalues -1 -2 0\n",
                b"carafe solve 1\nbudget 1\nformula 2 2\nf -1 2 0\nf -1 1 0\nvalues -1 2 0\n",
                b"carafe solve 1\nbudget 1\nformula 2 2\nf -1 2 0\nf -1 1 0\nvalues 1 2 0\n",
            ],
        ),
        (
            b"p cnf 1 1\n0\n",
            &[b"carafe solve 1\nbudget 1\nformula 1 1\nf 0\nd 2 0 1 0\nrefuted\n"],
        ),
        (b"p cnf 1 1\n1 0\n", &[UNIT]),
        // What follows a line `%` is not reported.
        (b"p cnf 1 1\n1 0\n%\n0\n", &[UNIT]),
    ];
    for (text, reports) in rows {
        for step in [1, 7, 100] {
            let mut sink = MemSink::new(alloc, Vec::new(alloc), step);
            let ended = write(alloc, &formula(alloc, text)?, 1, &mut sink);
            assert_eq!(rt; ended, Ok(Ending::Decided));
            let is_listed = reports.iter().any(|report| sink.bytes() == *report);
            assert!(rt; is_listed, "step {step}");
        }
    }
    Ok(())
}

#[test]
fn each_write_may_fail(rt: HostRuntime) -> Result<(), Fail> {
    let alloc = rt.alloc();
    let formula = formula(alloc, b"p cnf 1 1\n1 0\n")?;
    for call in 0..3 {
        let mut sink = MemSink::new(alloc, vec![in alloc; call]?, usize::MAX);
        let ended = write(alloc, &formula, 1, &mut sink);
        assert_eq!(rt; ended, Err(ReportFault::Write), "call {call}");
        assert!(rt; UNIT.starts_with(sink.bytes()), "call {call}");
    }
    let mut sink = MemSink::new(alloc, vec![in alloc; 3]?, usize::MAX);
    let ended = write(alloc, &formula, 1, &mut sink);
    assert_eq!(rt; ended, Ok(Ending::Decided), "the verdict is one write");
    Ok(())
}

/// A sink that tries a failed write once more. The fault stays counted.
#[derive(Drop)]
struct MendingSink<K: Sink + Drop> {
    inner: K,
}

impl<K: Sink + Drop> Sink for MendingSink<K> {
    ghost strict = { false };

    ghost lender = { λ s. K.lender s.inner };

    ghost written = { λ s. K.written s.inner };

    ghost faults = { λ s. K.faults s.inner };

    fn write(&mut self, piece: &[u8]) -> Result<usize, Failed> {
        match Sink::write(&mut self.inner, piece) {
            Ok(count) => Ok(count),
            Err(_) => Sink::write(&mut self.inner, piece),
        }
    }
}

#[test]
fn a_mended_write_is_no_fault_of_the_report(rt: HostRuntime) -> Result<(), Fail> {
    let alloc = rt.alloc();
    let formula = formula(alloc, b"p cnf 1 1\n1 0\n")?;
    for call in 0..4 {
        let inner = MemSink::new(alloc, vec![in alloc; call]?, usize::MAX);
        let mut sink = MendingSink { inner };
        let ended = write(alloc, &formula, 1, &mut sink);
        assert_eq!(rt; ended, Ok(Ending::Decided), "call {call}");
        assert_eq!(rt; sink.inner.bytes(), UNIT, "call {call}");
    }
    Ok(())
}
