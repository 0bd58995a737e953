//! Why a text is not read.

use std::alloc::AllocError;

/// Why a text is not read. A position is the number of bytes before a byte of the text.
#[derive(Clone, Copy, Debug, PartialEq, Eq)]
pub enum CifRefusal {
    /// The text is too long. `read` never gives it: it is for callers, who know how much they read.
    CifTooLong,
    /// The first command that can't stand begins here, or the text ends here.
    Syntax(u64),
    /// A number over 2147483647 begins here, or a command here says a scaled value beyond that on either side.
    NumberTooLarge(u64),
    /// A command here that is not read.
    Unsupported(u64, Feature),
    /// A direction, an edge or a segment of the command here lies on no axis.
    NotManhattan(u64),
    /// A shape here has no layer.
    NoLayer(u64),
    /// The definition here is of a symbol that was defined before.
    TwiceDefined(u64),
    /// A scale here has a 0.
    ZeroScale(u64),
    /// A scaled value of the command here is no whole number of mask units.
    OffGrid(u64),
    /// The label here has not the form of one.
    BadLabel(u64),
    /// The polygon or wire here has over 1,024 points.
    TooManyPoints(u64),
    /// Memory ran out before the answer was known. It can come in place of any other answer.
    NoMemory,
}

/// A command that is not read.
#[derive(Clone, Copy, Debug, PartialEq, Eq)]
pub enum Feature {
    /// `R`: a round flash.
    Round,
    /// `DD`: the deletion of definitions.
    DefDelete,
}

impl From<AllocError> for CifRefusal {
    ghost use Rattle.std.specs.Prelude.{◌≡◌};
    ghost use Rattle.cif_reader.specs.declared.refusal.CifRefusal.TheVariants.{NoMemory};

    ghost from_gives = { λ _ fault. fault ≡ NoMemory };

    fn from(_: AllocError) -> CifRefusal {
        CifRefusal::NoMemory
    }
}
