//! Why a file is not unfolded.

use std::alloc::AllocError;

/// Why a file is not unfolded. A position is the number of bytes before a command's first byte. Where several hold, the
/// one that stands first here is given.
#[derive(Clone, Copy, Debug, PartialEq, Eq)]
pub enum FlattenRefusal {
    /// The first call of the file that names no defined symbol stands here, and names this number.
    Undefined(u64, u32),
    /// The symbol calls itself, perhaps through others, and none with a lesser number does. It need not be called.
    Recursive(u32),
    /// The top unfolds to over 65,536 calls.
    TooManyCalls,
    /// The placed shapes and labels weigh over 32,768: a box or a label weighs 1, a polygon or a wire 1 a point.
    TooManyEdges,
    /// A placed shape or label of the command here reaches over `plane_geom::RANGE` mask units from 0, and none of an earlier
    /// command does.
    OutOfRange(u64),
    /// The corners of the placed shapes have so many different x and different y that the numbers of both, multiplied,
    /// are over 4,194,304.
    TooFine,
    /// Memory ran out before the answer was known. It can come in place of any other answer.
    NoMemory,
}

impl From<AllocError> for FlattenRefusal {
    ghost use Rattle.std.specs.Prelude.{◌≡◌};
    ghost use Rattle.cif_flatten.specs.declared.refusal.FlattenRefusal.TheVariants.{NoMemory};

    ghost from_gives = { λ _ fault. fault ≡ NoMemory };

    fn from(_: AllocError) -> FlattenRefusal {
        FlattenRefusal::NoMemory
    }
}
