//! What is wrong with a command.

ghost use Rattle.std.specs.Prelude.{◌≡◌, ◌<◌, None, false, true, find, map, flat_map, [], ◌∷◌, option_map};
ghost use Rattle.std.specs.List.{list_any, list_all};
ghost use Rattle.cif_grammar.specs.Seen.{seen, points_of, transform_of};
ghost use Rattle.cif_reader.specs.Measure.{is_far as is_far_lem, is_whole as is_whole_lem, shift_of as shift_of_lem, gridded, reached, doubled};
ghost use Rattle.cif_reader.specs.Faults.{is_large, large_number as large_number_lem, of_spot, of_points, of_transform, goes_far as goes_far_lem, has_many_points as has_many_points_lem, is_manhattan as is_manhattan_lem, is_drawn as is_drawn_lem, has_zero_scale as has_zero_scale_lem, is_off_grid as is_off_grid_lem, is_bad_label as is_bad_label_lem, fault_in};
ghost use Rattle.cif_reader.specs.Near.{shift_parts};

use crate::calls::{are_whole_shifts, has_turns, shift_of};
use crate::label::{is_label, label_in};
use crate::measure::{Scale, box_corners, facing_of, twice};
use crate::path::{are_many, is_far_path, is_line_along, is_outline_along, is_whole_path};
use crate::refusal::CifRefusal;
use cif_grammar::{Command, LIMIT, Number, Path, Spot, Transformation};
use plane_geom::{Point, Short};

/// The number, if it is over the limit.
#[tactic(auto, unfolding(cif_grammar::specs::Words::limit))]
fn large(number: Number) -> Option<Number>
    ensures { result ≡ find is_large (number ∷ []) }
{
    if number.value > LIMIT {
        Some(number)
    } else {
        None
    }
}

/// The first number over the limit of a point.
fn large_in_spot(spot: Spot) -> Option<Number>
    ensures { result ≡ find is_large (of_spot spot) }
{
    if let Some(number) = large(spot.x.size) {
        return Some(number);
    }
    large(spot.y.size)
}

/// The first number over the limit of points.
fn large_in_spots(spots: &[Spot]) -> Option<Number>
    ensures { result ≡ find is_large (flat_map of_spot spots.now) }
{
    for spot in spots {
        if let Some(number) = large_in_spot(*spot) {
            return Some(number);
        }
    }
    None
}

/// The first number over the limit of a path.
#[tactic(auto, using(crate::proofs::Finding::find_flat))]
fn large_in_path(path: &Path) -> Option<Number>
    ensures { result ≡ find is_large (of_points (points_of path.now)) }
{
    if let Some(number) = large_in_spot(path.first) {
        return Some(number);
    }
    large_in_spots(&path.others)
}

/// The first number over the limit of a transformation.
fn large_in_transformation(transformation: Transformation) -> Option<Number>
    ensures { result ≡ find is_large (of_transform (transform_of transformation)) }
{
    match transformation {
        Transformation::Translate(spot) | Transformation::Rotate(spot) => large_in_spot(spot),
        _ => None,
    }
}

/// The first number over the limit of transformations.
fn large_in_transformations(transformations: &[Transformation]) -> Option<Number>
    ensures { result ≡ find is_large (flat_map of_transform (map transform_of transformations.now)) }
{
    for transformation in transformations {
        if let Some(number) = large_in_transformation(*transformation) {
            return Some(number);
        }
    }
    None
}

/// The first number over the limit of a box.
fn large_in_box(
    length: Number,
    width: Number,
    centre: Spot,
    direction: Option<Spot>,
) -> Option<Number>
    ensures { result ≡ large_number_lem (seen (Command.Box length width centre direction)) }
{
    if let Some(number) = large(length) {
        return Some(number);
    }
    if let Some(number) = large(width) {
        return Some(number);
    }
    if let Some(number) = large_in_spot(centre) {
        return Some(number);
    }
    large_in_spot(direction?)
}

/// The first number over the limit of a start.
fn large_in_start(symbol: Number, scale: Option<(Number, Number)>) -> Option<Number>
    ensures { result ≡ large_number_lem (seen (Command.Start symbol scale)) }
{
    if let Some(number) = large(symbol) {
        return Some(number);
    }
    let (a, b) = scale?;
    if let Some(number) = large(a) {
        return Some(number);
    }
    large(b)
}

/// The first number over the limit of a number and a path.
fn large_in_wire(width: Number, path: &Path) -> Option<Number>
    ensures { result ≡ find is_large (width ∷ of_points (points_of path.now)) }
{
    if let Some(number) = large(width) {
        return Some(number);
    }
    large_in_path(path)
}

/// The first number over the limit of a call.
fn large_in_call(symbol: Number, transformations: &[Transformation]) -> Option<Number>
    ensures { result ≡ find is_large (symbol ∷ flat_map of_transform (map transform_of transformations.now)) }
{
    if let Some(number) = large(symbol) {
        return Some(number);
    }
    large_in_transformations(transformations)
}

/// The first number over the limit.
fn large_number(command: &Command<'_>) -> Option<Number>
    ensures { result ≡ large_number_lem (seen command.now) }
{
    match command {
        Command::Box {
            length,
            width,
            centre,
            direction,
        } => large_in_box(*length, *width, *centre, *direction),
        Command::Polygon(path) => large_in_path(path),
        Command::Wire { width, path } => large_in_wire(*width, path),
        Command::Call {
            symbol,
            transformations,
        } => large_in_call(*symbol, transformations),
        Command::Start { symbol, scale } => large_in_start(*symbol, *scale),
        _ => None,
    }
}

/// Whether the composed shift of a call that has one is too far.
fn is_far_call(scale: Scale, transformations: &[Transformation]) -> bool
    requires { list_any is_large (flat_map of_transform (map transform_of transformations.now)) ≡ false }
    ensures { result ≡ list_any (is_far_lem scale) (shift_parts (map transform_of transformations.now)) }
{
    if !has_turns(transformations) {
        return false;
    }
    let (x, y) = shift_of(transformations);
    scale.is_either_far(x, y)
}

/// Whether the point of a label is too far.
fn is_far_mark(scale: Scale, at: Point) -> bool
    ensures { result ≡ list_any (is_far_lem scale) (doubled at) }
{
    scale.is_far(twice(at.x)) || scale.is_far(twice(at.y))
}

/// Whether the point of a label is whole.
fn is_whole_mark(scale: Scale, at: Point) -> bool
    requires { 0 < scale.b }
    ensures { result ≡ list_all (is_whole_lem scale) (doubled at) }
{
    scale.is_whole(twice(at.x)) && scale.is_whole(twice(at.y))
}

/// Whether the point of a user command's label, if it says one, is too far.
fn is_far_label(scale: Scale, text: &[u8]) -> bool
    ensures { result ≡ goes_far_lem scale (seen (Command.User text.entry)) }
{
    match label_in(text) {
        Some(label) => is_far_mark(scale, label.at),
        None => false,
    }
}

/// Whether a scaled value of the command is too far.
fn goes_far(scale: Scale, command: &Command<'_>) -> bool
    requires { large_number_lem (seen command.now) ≡ None }
    ensures { result ≡ goes_far_lem scale (seen command.now) }
{
    match command {
        Command::Box {
            length,
            width,
            centre,
            direction,
        } => scale.is_far_box(box_corners(length.value, width.value, *centre, *direction)),
        Command::Polygon(path) => is_far_path(scale, path),
        Command::Wire { width, path } => {
            scale.is_far(i128::from(width.value)) || is_far_path(scale, path)
        }
        Command::Call {
            transformations,
            ..
        } => is_far_call(scale, transformations),
        Command::User(text) => is_far_label(scale, text),
        _ => false,
    }
}

/// Whether the command has too many points.
fn has_many_points(command: &Command<'_>) -> bool
    ensures { result ≡ has_many_points_lem (seen command.now) }
{
    match command {
        Command::Polygon(path) | Command::Wire { path, .. } => are_many(path),
        _ => false,
    }
}

/// Whether all directions, edges and segments of the command lie on the axes.
fn is_manhattan(command: &Command<'_>) -> bool
    ensures { result ≡ is_manhattan_lem (seen command.now) }
{
    match command {
        Command::Box {
            direction: Some(direction),
            ..
        } => facing_of(*direction).is_some(),
        Command::Polygon(path) => is_outline_along(path),
        Command::Wire { path, .. } => is_line_along(path),
        Command::Call {
            transformations,
            ..
        } => has_turns(transformations),
        _ => true,
    }
}

/// Whether the command is a box, a polygon or a wire.
fn is_drawn(command: &Command<'_>) -> bool
    ensures { result ≡ is_drawn_lem (seen command.now) }
{
    matches!(
        command,
        Command::Box { .. } | Command::Polygon(_) | Command::Wire { .. }
    )
}

/// Whether the command gives a scale with a 0.
fn has_zero_scale(command: &Command<'_>) -> bool
    ensures { result ≡ has_zero_scale_lem (seen command.now) }
{
    match command {
        Command::Start {
            scale: Some((a, b)),
            ..
        } => a.value == 0 || b.value == 0,
        _ => false,
    }
}

/// Whether what a user command's label says, if it says one, is whole.
fn is_whole_label(scale: Scale, text: &[u8]) -> bool
    requires { 0 < scale.b }
    ensures { result ≡ list_all (is_whole_lem scale) (gridded (seen (Command.User text.entry))) }
{
    match label_in(text) {
        Some(label) => is_whole_mark(scale, label.at),
        None => true,
    }
}

/// Whether all that a command measures is whole.
fn is_on_grid(scale: Scale, command: &Command<'_>) -> bool
    requires { 0 < scale.b }
    ensures { result ≡ list_all (is_whole_lem scale) (gridded (seen command.now)) }
{
    match command {
        Command::Box {
            length,
            width,
            centre,
            direction,
        } => scale.is_whole_box(box_corners(length.value, width.value, *centre, *direction)),
        Command::Polygon(path) => is_whole_path(scale, path),
        Command::Wire { width, path } => {
            scale.is_whole(i128::from(width.value)) && is_whole_path(scale, path)
        }
        Command::Call {
            transformations,
            ..
        } => are_whole_shifts(scale, transformations),
        Command::User(text) => is_whole_label(scale, text),
        _ => true,
    }
}

/// Whether a user command is a label, but not in the form of one.
fn is_bad_text(text: &[u8]) -> bool
    ensures { result ≡ is_bad_label_lem (seen (Command.User text.entry)) }
{
    is_label(text) && label_in(text).is_none()
}

/// Whether the command is a label, but not in the form of one.
fn is_bad_label(command: &Command<'_>) -> bool
    ensures { result ≡ is_bad_label_lem (seen command.now) }
{
    match command {
        Command::User(text) => is_bad_text(text),
        _ => false,
    }
}

/// The first fault of a command at a position: on the current layer, in the scale, and where it may define a symbol
/// again.
pub(crate) fn judge(
    layer: &Option<Short>,
    scale: Scale,
    is_twice: bool,
    pos: u64,
    command: &Command<'_>,
) -> Option<CifRefusal>
    requires { 0 < scale.b }
    ensures { result ≡ fault_in layer.now scale is_twice (record { at = pos; what = seen command.now }) }
{
    if let Some(number) = large_number(command) {
        return Some(CifRefusal::NumberTooLarge(number.at as u64));
    }
    if goes_far(scale, command) {
        Some(CifRefusal::NumberTooLarge(pos))
    } else if has_many_points(command) {
        Some(CifRefusal::TooManyPoints(pos))
    } else if !is_manhattan(command) {
        Some(CifRefusal::NotManhattan(pos))
    } else if is_drawn(command) && layer.is_none() {
        Some(CifRefusal::NoLayer(pos))
    } else if is_twice {
        Some(CifRefusal::TwiceDefined(pos))
    } else if has_zero_scale(command) {
        Some(CifRefusal::ZeroScale(pos))
    } else if !is_on_grid(scale, command) {
        Some(CifRefusal::OffGrid(pos))
    } else if is_bad_label(command) {
        Some(CifRefusal::BadLabel(pos))
    } else {
        None
    }
}
