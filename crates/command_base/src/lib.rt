//! What every command has in common: how its input is judged, how it ends, and what its status tells.
//!
//! A command is one value, a `Job`: the stages in which its input is judged, in their order, and the texts that it may
//! write. From the stages follow its refusals, their order and the files that it reads. The crate says once, for every
//! job, what each end means (`Ends`), what each status says of words, files, report and devices (`IsAnswer`), that a
//! refusal comes exactly where its cause is the first that stands (`RefusesWhere`), that a report comes wherever it
//! should (`ReportsWhere`), and that no failed call on a strict device is passed over (`TellsFaults`). `read_file` is the
//! one place where files are read, and `tell` the one where an end becomes a status with its line of diagnostics.
#![tactic(auto)]

mod carrying;
mod endings;
mod files;
mod telling;

pub use carrying::{Carry, stopped};
pub use endings::{AnyStatus, Ending, Stop, Stream, Which};
pub use files::read_file;
pub use telling::{Told, tell};
