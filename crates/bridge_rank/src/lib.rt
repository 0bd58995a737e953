//! The ranking of bridges: the pairs of nets that some placement of a defect meets, largest counts first.
//!
//! Pairs with equal counts come by the number of the first net, and then by that of the second. The words stand in
//! `specs/Ranking`.
//!
//! The crate promises that a ranked list has exactly the counted pairs, in this order, and that there is one such list. It
//! also has the lines of such a list, and the word of the sides that it was counted for. The reports stand on it.
#![tactic(auto)]

mod laws;
mod lines;
mod ranking;
mod side_lists;

pub use laws::one_ranking;
pub use lines::BridgeLine;
pub use ranking::order;
pub use side_lists::put_sides;
