//! The transformations of a call.

ghost use Rattle.std.specs.Prelude.{◌≡◌, ◌<◌, ◌+◌, ◌^◌, ℕ, false, true, pos, map, flat_map, []};
ghost use Rattle.std.specs.List.{list_any, list_all};
ghost use Rattle.plane_geom.specs.Bounds.{IsWithin};
ghost use Rattle.plane_geom.specs.Placement.{moved, IsPlaceOf, IsShiftWithin};
ghost use Rattle.plane_geom.specs.declared.shapes.Point.{Point};
ghost use Rattle.cif_grammar.specs.Words.{limit};
ghost use Rattle.cif_grammar.specs.Seen.{transform_of};
ghost use Rattle.cif_reader.specs.Measure.{is_turn as is_turn_lem, has_turns as has_turns_lem, steps_once, steps_of, shift_of as shift_of_lem, shifts_once, is_far as is_far_lem, is_whole as is_whole_lem, scaled as scaled_lem};
ghost use Rattle.cif_reader.specs.Faults.{is_large, of_transform};
ghost use Rattle.cif_reader.specs.Near.{turns_once};

use crate::facing::Facing;
use crate::measure::{Scale, facing_of, small_value};
use cif_grammar::Transformation;
use plane_geom::{Place, Turn};

/// The turn that keeps all points.
const STILL: Turn = Turn {
    swap: false,
    neg_x: false,
    neg_y: false,
};

/// Whether its direction, if it has one, lies on an axis.
fn is_turn(transformation: &Transformation) -> bool
    ensures { result ≡ is_turn_lem (transform_of transformation.now) }
{
    match transformation {
        Transformation::Rotate(direction) => facing_of(*direction).is_some(),
        _ => true,
    }
}

/// Whether all directions lie on the axes.
fn are_turns(transformations: &[Transformation]) -> bool
    ensures { result ≡ list_all (λ t. is_turn_lem (transform_of t)) transformations.now }
{
    transformations.iter().all(|t| is_turn(t))
}

/// Whether all directions lie on the axes.
#[tactic(auto, using(crate::proofs::Transforming::turns_map))]
pub(crate) fn has_turns(transformations: &[Transformation]) -> bool
    ensures { result ≡ has_turns_lem (map transform_of transformations.now) }
{
    are_turns(transformations)
}

/// Whether a transformation's shift, if it is one, is whole.
fn is_whole_shift(scale: Scale, transformation: &Transformation) -> bool
    requires { 0 < scale.b }
    ensures { result ≡ list_all (is_whole_lem scale) (shifts_once (transform_of transformation.now)) }
{
    match transformation {
        Transformation::Translate(by) => scale.is_whole_point(*by),
        _ => true,
    }
}

/// Whether each single shift is whole.
fn are_shifts_whole(scale: Scale, transformations: &[Transformation]) -> bool
    requires { 0 < scale.b }
    ensures { result ≡ list_all (λ t. list_all (is_whole_lem scale) (shifts_once (transform_of t))) transformations.now }
{
    transformations.iter().all(|t| is_whole_shift(scale, t))
}

/// Whether each single shift is whole.
#[tactic(auto, using(crate::proofs::Transforming::shifts_map))]
pub(crate) fn are_whole_shifts(scale: Scale, transformations: &[Transformation]) -> bool
    requires { 0 < scale.b }
    ensures { result ≡ list_all (is_whole_lem scale) (flat_map shifts_once (map transform_of transformations.now)) }
{
    are_shifts_whole(scale, transformations)
}

/// Where a transformation takes the point (x, y), in mask units before the scale.
fn moved_once(transformation: Transformation, x: i128, y: i128) -> (i128, i128)
    requires small { list_any is_large (of_transform (transform_of transformation)) ≡ false }
    requires x_near { IsWithin (2 ^ 100) x }
    requires y_near { IsWithin (2 ^ 100) y }
    ensures x { result.0 ≡ (moved (steps_once (λ z. z) (transform_of transformation)) (record { x = x; y = y })).x }
    ensures y { result.1 ≡ (moved (steps_once (λ z. z) (transform_of transformation)) (record { x = x; y = y })).y }
    ensures x_within { (m : ℕ) → IsWithin m x → IsWithin m y → IsWithin (m + 2 ^ 33) result.0 }
    ensures y_within { (m : ℕ) → IsWithin m x → IsWithin m y → IsWithin (m + 2 ^ 33) result.1 }
{
    match transformation {
        Transformation::Translate(by) => {
            let dx = i128::from(small_value(by.x));
            let dy = i128::from(small_value(by.y));
            (x + dx, y + dy)
        }
        Transformation::MirrorX => (-x, y),
        Transformation::MirrorY => (x, -y),
        Transformation::Rotate(direction) => match facing_of(direction) {
            None | Some(Facing::East) => (x, y),
            Some(Facing::North) => (-y, x),
            Some(Facing::West) => (-x, -y),
            Some(Facing::South) => (y, -x),
        },
    }
}

/// Where the transformations take the point (0, 0), in mask units before the scale.
pub(crate) fn shift_of(transformations: &[Transformation]) -> (i128, i128)
    requires { list_any is_large (flat_map of_transform (map transform_of transformations.now)) ≡ false }
    ensures x { result.0 ≡ (shift_of_lem (map transform_of transformations.now)).x }
    ensures y { result.1 ≡ (shift_of_lem (map transform_of transformations.now)).y }
    ensures x_near { IsWithin (2 ^ 96) result.0 }
    ensures y_near { IsWithin (2 ^ 96) result.1 }
{
    let mut x = 0;
    let mut y = 0;
    for transformation in transformations {
        (x, y) = moved_once(*transformation, x, y);
    }
    (x, y)
}

/// How a transformation turns.
fn turn_once(transformation: Transformation) -> Turn
    ensures { IsPlaceOf (turns_once (transform_of transformation)) (record { turn = result; dx = pos 0; dy = pos 0 }) }
{
    match transformation {
        Transformation::Translate(_) => STILL,
        Transformation::MirrorX => Turn {
            neg_x: true,
            ..STILL
        },
        Transformation::MirrorY => Turn {
            neg_y: true,
            ..STILL
        },
        Transformation::Rotate(direction) => match facing_of(direction) {
            None | Some(Facing::East) => STILL,
            Some(Facing::North) => Turn {
                swap: true,
                neg_x: true,
                neg_y: false,
            },
            Some(Facing::West) => Turn {
                swap: false,
                neg_x: true,
                neg_y: true,
            },
            Some(Facing::South) => Turn {
                swap: true,
                neg_x: false,
                neg_y: true,
            },
        },
    }
}

/// How the transformations turn, without their shifts.
fn turned(transformations: &[Transformation]) -> Place
    ensures place { IsPlaceOf (flat_map turns_once (map transform_of transformations.now)) result }
    ensures still { IsShiftWithin 0 result }
{
    let mut place = Place {
        turn: STILL,
        dx: 0,
        dy: 0,
    };
    for transformation in transformations {
        let turn = turn_once(*transformation);
        place = place.then(Place { turn, dx: 0, dy: 0 });
    }
    place
}

/// The place that the transformations make in a scale, from left to right.
pub(crate) fn place_of(scale: Scale, transformations: &[Transformation]) -> Place
    requires some { 0 < scale.b }
    requires small { list_any is_large (flat_map of_transform (map transform_of transformations.now)) ≡ false }
    requires x_near { is_far_lem scale (shift_of_lem (map transform_of transformations.now)).x ≡ false }
    requires y_near { is_far_lem scale (shift_of_lem (map transform_of transformations.now)).y ≡ false }
    requires whole { list_all (is_whole_lem scale) (flat_map shifts_once (map transform_of transformations.now)) ≡ true }
    ensures place { IsPlaceOf (steps_of (scaled_lem scale) (map transform_of transformations.now)) result }
    ensures within { IsShiftWithin limit result }
{
    let (x, y) = shift_of(transformations);
    let shift = Place {
        turn: STILL,
        dx: scale.scaled(x),
        dy: scale.scaled(y),
    };
    turned(transformations).then(shift)
}
