//! The four directions along the axes.

ghost use Rattle.std.specs.Prelude.{◌≡◌};
ghost use Rattle.cif_reader.specs.Measure.{facing, lies_along_y as lies_along_y_lem};

/// A direction along an axis: east is that of x, north that of y.
#[derive(Clone, Copy, Debug, PartialEq, Eq)]
pub(crate) enum Facing {
    East,
    North,
    West,
    South,
}

/// The direction of the point (x, y) from (0, 0), or `None` where it lies on no axis or is (0, 0).
pub(crate) fn facing_along(x: i128, y: i128) -> Option<Facing>
    ensures { result ≡ facing (record { x = x; y = y }) }
{
    if y == 0 {
        if x > 0 {
            Some(Facing::East)
        } else if x < 0 {
            Some(Facing::West)
        } else {
            None
        }
    } else if x == 0 {
        if y > 0 {
            Some(Facing::North)
        } else {
            Some(Facing::South)
        }
    } else {
        None
    }
}

/// Whether a length in this direction lies along y.
pub(crate) fn lies_along_y(direction: Option<Facing>) -> bool
    ensures { result ≡ lies_along_y_lem direction }
{
    matches!(direction, Some(Facing::North | Facing::South))
}
