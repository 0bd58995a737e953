//! Points, rectangles, shapes and places of a mask layout, and the names that a layout writes.
//!
//! A mask unit is half a hundredth of a micron. All coordinates are whole mask units. A cell (x, y) is the unit
//! square whose lower left corner is the point (x, y), and a set of cells is a test on cells.
//!
//! The crate promises that a composed place moves every point as its parts do one after the other, that a place
//! refuses exactly the points that it would move out of the layout's range, and that the reach of a shape is the least
//! rectangle round it.
//!
//! All of the geometry stands on it: the reader of layouts, the cutting of shapes, regions, nets and defects cite
//! its definitions, which are in `specs/`: `Bounds`, `Cells`, `Ends`, `Placement`, `Covering` and `Names`, and in `Texts`
//! what readers of bytes share.
#![tactic(auto)]

mod names;
mod places;
mod shapes;

pub use names::{Label, Short, is_name};
pub use places::{Place, Turn, one_place};
pub use shapes::{Point, RANGE, Rect, Shape};
