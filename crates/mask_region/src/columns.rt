//! The strips of the meet, from the strips in common columns.

ghost use Rattle.std.specs.Prelude.{◌≡◌, ℤ, ◌≤ℤ◌, ◌&&◌, filter, IfOk};
ghost use Rattle.std.specs.List.{All};
ghost use Rattle.mask_region.specs.Columns.{reaches, IsInColumns};
ghost use Rattle.mask_region.specs.Strips.{is_in, Banded};

use crate::bands::join;
use crate::ends::Joining;
use crate::strips::Strip;
use std::alloc::{AllocError, Global};

/// The strips of the meet, where `a` and `b` are those of two sets. What lies beside the other set is left out first,
/// so that a wide set costs no more than the other one asks.
pub(crate) fn meet_strips(alloc: Global, a: &[Strip], b: &[Strip]) -> Result<Vec<Strip>, AllocError>
    requires a_banded { Banded a.now }
    requires b_banded { Banded b.now }
    ensures banded { IfOk result (λ v. Banded v.items) }
    ensures cells { IfOk result (λ v. (x y : ℤ) → is_in v.items x y ≡ (is_in a.now x y && is_in b.now x y)) }
{
    let first = near(alloc, a, b)?;
    let second = near(alloc, b, first.as_slice())?;
    join(alloc, Joining::Meet, first.as_slice(), second.as_slice())
}

/// The strips that reach into the columns of the others: of these alone can a cell be in both.
fn near(alloc: Global, strips: &[Strip], others: &[Strip]) -> Result<Vec<Strip>, AllocError>
    requires { Banded strips.now }
    ensures banded { IfOk result (λ v. Banded v.items) }
    ensures cells { IfOk result (λ v. (x y : ℤ) → (is_in v.items x y && is_in others.now x y) ≡ (is_in strips.now x y && is_in others.now x y)) }
{
    let (left, right) = columns_of(others);
    reaching(alloc, strips, left, right)
}

/// The strips with a cell in the columns from `left` up to `right`.
fn reaching(
    alloc: Global,
    strips: &[Strip],
    left: i32,
    right: i32,
) -> Result<Vec<Strip>, AllocError>
    ensures { IfOk result (λ v. v.items ≡ filter (reaches left right) strips.now) }
{
    strips
        .iter()
        .filter(|strip| strip.reaches(left, right))
        .copied()
        .collect(alloc)
}

/// The columns that hold all of the strips: the first of them, and the one behind the last.
fn columns_of(strips: &[Strip]) -> (i32, i32)
    ensures { All (IsInColumns result.0 result.1) strips.now }
{
    let mut left = i32::MAX;
    let mut right = i32::MIN;
    for strip in strips {
        left = lesser(left, strip.x0);
        right = greater(right, strip.x1);
    }
    (left, right)
}

/// The lesser of the two.
fn lesser(a: i32, b: i32) -> i32
    ensures first { result ≤ℤ a }
    ensures second { result ≤ℤ b }
{
    if a < b { a } else { b }
}

/// The greater of the two.
fn greater(a: i32, b: i32) -> i32
    ensures first { a ≤ℤ result }
    ensures second { b ≤ℤ result }
{
    if a < b { b } else { a }
}
