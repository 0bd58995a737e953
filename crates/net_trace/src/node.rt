//! Nodes.

/// A cell of a wire: the wire's place among those of its map, from 0, and the cell, in mask units.
#[derive(Clone, Copy, Debug, PartialEq, Eq)]
pub struct Node {
    pub wire: u32,
    pub x: i32,
    pub y: i32,
}
