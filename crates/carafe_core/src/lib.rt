//! The top of carafe: from the words of a call and the files that they name to a written report and a status.
//!
//! The promise stands on the one call `carafe`. Over every list of words and every content of the files it answers
//! `Done` or `DoneUndecided` only with a whole report written, `Refused` only where the cause of that refusal is the
//! first that stands in words and files, and a fault only where that device failed in the call, or tells that it has no
//! such file; and it refuses, or reports, wherever it should, unless a device fails or no memory is found. Where a call on
//! a strict device failed, the status tells so, unless it was a write of the line of a fault or of `NoMemory`. Which
//! command words ask for stands in `specs/Commands.antt`; what each status says of a command is said once, for all of
//! them, in `command_base`. Words and files have one refusal at most, and none where they have a report: the law
//! `one_answer`.
//!
//! There are two commands. `bridges MAP CIF SIDES` lists, for any layer map and any layout, the pairs of nets that a
//! square defect can short, with exact counts, the largest first. `solve FORMULA BUDGET` searches for values that
//! solve a formula, and writes values, a refutation line by line, or that it came to its budget undecided. The program
//! `carafe_cli` stands on this crate.
#![tactic(auto)]

mod answer;
mod laws;

pub use answer::carafe;
pub use command_base::{Stream, Which};
pub use command_refusals::{Refusal, Status, WordRefusal};
pub use laws::one_answer;
