//! Reads a layer map: which mask layers make which wires, cuts and transistors, and what the supplies are called.
//!
//! The crate promises that a map is read exactly where no refusal stands in its text, that what is read is the map that
//! its lines say, and that each refusal comes exactly where it is the first at fault, by the definitions in `specs/`:
//! `Lines` and `Words` (how a text is cut), `Grammar` (what each line spells), `Truth` (where an expression holds),
//! `Plan` (the map that lines say) and `Faults`.
//!
//! The making of masks, the tracing of nets and the extraction of transistors stand on it.
#![tactic(auto)]

mod adding;
mod building;
mod expr;
mod expressions;
mod judge;
mod laws;
mod map;
mod names;
mod reading;
mod refusal;
mod rows;
mod words;

pub use expr::Expr;
pub use laws::one_answer;
pub use map::{CutLine, FetLine, LabelLine, LayerMap, WireId, WireLine};
pub use reading::read;
pub use refusal::{MapRefusal, Side};
