//! The transformations of calls.

ghost use Rattle.std.specs.Prelude.{◌≡◌, map, option_map, IfOk};
ghost use Rattle.cif_grammar.specs.Readers.{mirror_in, transform_at, transforms_at};
ghost use Rattle.cif_grammar.specs.Seen.{transform_of as transform_of_lem};

use crate::spelled::Transformation;
use crate::words::{after_blanks, point_of};
use std::alloc::{AllocError, Global};

/// The axis of an `M`.
fn mirror_of(bytes: &[u8]) -> Option<(Transformation, &[u8])>
    ensures { option_map (λ x. (transform_of_lem x.0, x.1.now)) result ≡ mirror_in bytes.now }
{
    let (axis, rest) = bytes.split_first()?;
    match *axis {
        b'X' => Some((Transformation::MirrorX, rest)),
        b'Y' => Some((Transformation::MirrorY, rest)),
        _ => None,
    }
}

/// One transformation, behind any blanks.
#[tactic(auto, unfolding(crate::specs::Readers::transform_at))]
fn transformation_of(total: usize, bytes: &[u8]) -> Option<(Transformation, &[u8])>
    ensures { option_map (λ x. (transform_of_lem x.0, x.1.now)) result ≡ transform_at total bytes.now }
{
    let (letter, rest) = after_blanks(bytes).split_first()?;
    match *letter {
        b'T' => {
            let (shift, rest) = point_of(total, rest)?;
            Some((Transformation::Translate(shift), rest))
        }
        b'M' => mirror_of(after_blanks(rest)),
        b'R' => {
            let (direction, rest) = point_of(total, rest)?;
            Some((Transformation::Rotate(direction), rest))
        }
        _ => None,
    }
}

/// As many transformations as there are.
pub(crate) fn transformations_of(
    alloc: Global,
    total: usize,
    bytes: &[u8],
) -> Result<(Vec<Transformation>, &[u8]), AllocError>
    ensures { IfOk result (λ x. (map transform_of_lem x.0.items, x.1.now) ≡ transforms_at total bytes.now) }
{
    let mut transformations = Vec::new(alloc);
    let mut rest = bytes;
    while let Some((transformation, behind)) = transformation_of(total, rest) {
        transformations.push(transformation)?;
        rest = behind;
    }
    Ok((transformations, rest))
}
