//! Bridges counted: how many placements of a square defect meet two nets on one wire.
//!
//! A defect is a square of so many cells a side, and a placement is named by its lower left cell. It meets a net on a wire
//! where it has a cell of that net on that wire. The count of a pair of nets on a wire is the number of placements that meet
//! both on it; several sides are counted together, each placement as often as the weight of its side says. The words stand
//! in `specs/Counting` and `specs/Bridges`.
//!
//! The crate promises that every pair of nets with a placement that meets both is listed, with exact counts, and no other
//! pair, and that a layout is refused exactly where more than 65,536 pairs are met. The ranking of bridges and the reports
//! stand on it.
//!
//! Each net is grown once for each wire and side: a placement meets a net where its lower left cell lies in the grown
//! region, so what two nets share is a meet and its area. Nets that lie too far apart are passed over by their bounds.
#![tactic(auto)]

mod bounds;
mod counting;
mod laws;
mod net_reach;
mod pairs;
mod reach;
mod refusal;
mod sides;
mod sweep;

pub use counting::counts;
pub use laws::{counts_by_regions, counts_fit, one_counting};
pub use pairs::{CountList, PairCount};
pub use refusal::SweepRefusal;
pub use sides::{SideWeight, are_sides};
pub use sweep::count_regions;
