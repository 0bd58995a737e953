//! The sides of defects.

ghost use Rattle.std.specs.Prelude.{◌<◌, ◌≤◌, ◌↔◌, IsTrue, All};
ghost use Rattle.defect_sweep.specs.Sides.{IsSide, DoRise, AreSides};

/// A square defect, and how often each of its placements counts.
#[derive(Clone, Copy, Debug, PartialEq, Eq)]
pub struct SideWeight {
    /// How many cells the square has on a side, from 1 to 65,536.
    pub cells: u32,
    /// From 1 to 30.
    pub weight: u32,
}

/// The most sides that are counted together.
const MOST: usize = 8;

/// Whether these are sides that can be counted together: from 1 to 8 of them, each greater than the one before it.
pub fn are_sides(sides: &[SideWeight]) -> bool
    ensures { IsTrue result ↔ AreSides sides.now }
{
    if sides.is_empty() || sides.len() > MOST {
        return false;
    }
    are_all_sides(sides) && do_rise(sides)
}

fn are_all_sides(sides: &[SideWeight]) -> bool
    ensures { IsTrue result ↔ All IsSide sides.now }
{
    sides.iter().all(is_side)
}

/// Whether the side and its weight are in range.
fn is_side(side: &SideWeight) -> bool
    ensures { IsTrue result ↔ IsSide side.now }
{
    is_in_range(side.cells, 65_536) && is_in_range(side.weight, 30)
}

/// Whether the number is from 1 to `most`.
fn is_in_range(number: u32, most: u32) -> bool
    ensures { IsTrue result ↔ ((0 < number) × (number ≤ most)) }
{
    0 < number && number <= most
}

/// Whether each side is greater than the one before it.
fn do_rise(sides: &[SideWeight]) -> bool
    ensures { IsTrue result ↔ DoRise sides.now }
{
    for k in 1..sides.len() {
        if sides[k].cells <= sides[k - 1].cells {
            return false;
        }
    }
    true
}
