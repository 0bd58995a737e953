//! Expressions over layers.

use plane_geom::Short;

/// An expression over the layers of a layout. It is true or false at a cell, where a layer's name means that some shape
/// on that layer covers the cell.
#[derive(Debug, Drop)]
pub enum Expr {
    Layer(Short),
    Not(Box<Expr>),
    And(Box<Expr>, Box<Expr>),
    Or(Box<Expr>, Box<Expr>),
}
