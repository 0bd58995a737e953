//! Every refusal of a call, with its line of diagnostics and its exit status.
//!
//! A refusal names the layer that finds it and holds that layer's own word. Each layer's refusal is carried to the call's by
//! `Carry`, which tells running out of memory apart from all of them. What each refusal says of the input stands in the
//! layer that finds it.
#![tactic(auto)]

mod carrying;
mod lines;
mod refusal;

pub use refusal::{Refusal, Status, WordRefusal};
