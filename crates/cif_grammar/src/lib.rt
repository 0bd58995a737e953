//! The grammar of a CIF text: which bytes spell which commands, and where each command begins.
//!
//! The definitions, `Words` and `Grammar` in `specs/`, are the grammar's table, row by row: a relation between whole
//! texts and lists of commands, with numbers as they are written. No layer, no scale and no limit plays a part here.
//!
//! The crate promises that `next_command` reads a command exactly where one is spelled, with the place and the value of
//! each of its numbers, that one command at most stands at a place (`one_command`), and that a text spells one list of
//! commands at most (`one_spelling`). It reads in time linear
//! in the text, and comments of any depth without recursion.
//!
//! The reader of whole texts stands on it: it judges commands and turns them into mask units.
#![tactic(auto)]

mod calls;
mod command;
mod comment;
mod laws;
mod path;
mod spelled;
mod words;

pub use command::next_command;
pub use laws::{one_command, one_spelling};
pub use spelled::{Command, Number, Path, Signed, Spot, Transformation};
pub use words::{LIMIT, after_blanks, after_gaps, value_of_digits};
