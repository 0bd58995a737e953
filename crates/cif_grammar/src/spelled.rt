//! Commands as they are spelled.

use plane_geom::Short;

/// A number in the text: how many bytes stand before its first digit, and its value. The greatest number of a CIF text
/// is 2147483647; the value 2147483648 stands for every greater number.
#[derive(Clone, Copy, Debug, PartialEq, Eq)]
pub struct Number {
    pub at: usize,
    pub value: u64,
}

/// A number with an optional `-` before its digits.
#[derive(Clone, Copy, Debug, PartialEq, Eq)]
pub struct Signed {
    pub minus: bool,
    pub size: Number,
}

/// A point, as it is written.
#[derive(Clone, Copy, Debug, PartialEq, Eq)]
pub struct Spot {
    pub x: Signed,
    pub y: Signed,
}

/// The points of a polygon or a wire: one, and any number of others.
#[derive(Debug, Drop)]
pub struct Path {
    pub first: Spot,
    pub others: Vec<Spot>,
}

/// One transformation of a call.
#[derive(Clone, Copy, Debug, PartialEq, Eq)]
pub enum Transformation {
    /// `T`: adds a point.
    Translate(Spot),
    /// `M X`: negates x.
    MirrorX,
    /// `M Y`: negates y.
    MirrorY,
    /// `R`: turns the x axis to a direction.
    Rotate(Spot),
}

/// A command, as it is spelled.
#[derive(Debug, Drop)]
pub enum Command<'a> {
    /// `B`: length, width, centre, and the direction of the length.
    Box {
        length: Number,
        width: Number,
        centre: Spot,
        direction: Option<Spot>,
    },
    /// `P`
    Polygon(Path),
    /// `W`: the width, and the centre line.
    Wire {
        width: Number,
        path: Path,
    },
    /// `L`
    Layer(Short),
    /// `C`: the number of a symbol, and its transformations from left to right.
    Call {
        symbol: Number,
        transformations: Vec<Transformation>,
    },
    /// A digit, and what stands up to the `;`.
    User(&'a [u8]),
    /// `( .. )`
    Comment,
    /// `DS`: the number of a symbol, and its scale a/b.
    Start {
        symbol: Number,
        scale: Option<(Number, Number)>,
    },
    /// `DF`
    Finish,
}
