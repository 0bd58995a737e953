//! A failed write of the line that says why there is no report.

use crate::fixtures::{Answer, Faults, NONE, expect};
use carafe_core::{Status, Stream};
use std::test::Fail;

#[test]
fn a_failed_line_leaves_a_prefix(rt: HostRuntime) -> Result<(), Fail> {
    for (call, step, diag) in [(0, 16, ""), (1, 8, "carafe: ")] {
        let calls = [call];
        let faults = Faults {
            diag: &calls,
            step,
            ..NONE
        };
        let answer = Answer {
            status: Status::WriteFault(Stream::Diag),
            exit: 5,
            diag,
        };
        expect(&rt, rt.alloc(), "", &[], &faults, answer)?;
    }
    Ok(())
}
