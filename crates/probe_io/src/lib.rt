//! The outside of a program as two traits: a `Shelf` of named files to read and a `Sink` to write to.
//!
//! Each device may tell what it holds, and counts its faults. So a clause above can say what was read
//! and written, and that a failure came only where a device failed. The crate promises that
//! `read_all` gives the whole file or the cause why not, that `put_all`, `put_number` and
//! `put_pieces` write their whole text or a front of it, and that the devices in memory fail and
//! give exactly as they were told, but that a write of `MemSink` fails as well where no memory is
//! found. `FileShelf` and `StreamSink` reach the real world and tell nothing of it. Each device that
//! can fail counts a failed call once.
#![tactic(auto)]

mod folder;
mod lines;
mod memory;
mod names;
mod outside;
mod pieces;
mod plan;
mod reading;
mod real;
mod sure;
mod writing;

pub use lines::{Line, LineRoom};
pub use memory::{MemShelf, MemSink};
pub use names::Name;
pub use outside::{Failed, Shelf, Sink};
pub use pieces::{Piece, put_pieces};
pub use reading::{ReadAllFault, read_all};
pub use real::{FileShelf, StreamSink};
pub use sure::{SureShelf, SureSink};
pub use writing::{put_all, put_number};
