//! Labels: the user commands that begin with 94.

ghost use Rattle.std.specs.Prelude.{◌≡◌, ◌+◌, ◌≤◌, length, min, option_map, if◌then◌else◌};
ghost use Rattle.std.specs.List.{list_all, prefix_len};
ghost use Rattle.std.specs.Char.{is_ascii_digit};
ghost use Rattle.std.specs.Str.Parse.{AllDigits, digits_value};
ghost use Rattle.cif_grammar.specs.Words.{limit};
ghost use Rattle.cif_reader.specs.Label.{is_white as is_white_lem, is_label as is_label_lem, size_of as size_of_lem, coordinate_of as coordinate_of_lem, label_in as label_in_lem};
ghost use Rattle.cif_reader.specs.Near.{is_dark, field_at, label_seen, label_tail, label_by_fields};

use cif_grammar::{LIMIT, value_of_digits};
use plane_geom::{Point, Short, is_name};

/// A label, in hundredths of a micron, and the layer that it names, if it names one.
#[derive(Debug, Drop)]
pub(crate) struct LabelText<'a> {
    pub name: &'a [u8],
    pub at: Point,
    pub layer: Option<Short>,
}

fn is_white(byte: u8) -> bool
    ensures { result ≡ is_white_lem byte }
{
    matches!(byte, b' ' | b'\t' | b'\r' | b'\n')
}

/// How many white bytes stand first.
fn whites(bytes: &[u8]) -> usize
    ensures value { result ≡ prefix_len is_white_lem bytes.now }
    ensures within { result ≤ length bytes.now }
{
    bytes.iter().take_while(|b| is_white(**b)).count()
}

/// How many bytes that aren't white stand first.
fn darks(bytes: &[u8]) -> usize
    ensures value { result ≡ prefix_len is_dark bytes.now }
    ensures within { result ≤ length bytes.now }
{
    bytes.iter().take_while(|b| !is_white(**b)).count()
}

/// The first field, and what stands behind it.
#[tactic(auto, unfolding(crate::specs::Near::field_at))]
fn next_field(bytes: &[u8]) -> Option<(&[u8], &[u8])>
    ensures { option_map (λ x. (x.0.now, x.1.now)) result ≡ field_at bytes.now }
{
    let rest = &bytes[whites(bytes)..];
    let len = darks(rest);
    if len == 0 {
        None
    } else {
        Some((&rest[..len], &rest[len..]))
    }
}

fn are_digits(bytes: &[u8]) -> bool
    ensures { result ≡ list_all is_ascii_digit bytes.now }
{
    bytes.iter().all(|b| b.is_ascii_digit())
}

/// The value of digits up to the limit.
#[tactic(auto, unfolding(cif_grammar::specs::Words::limit))]
fn size_of(digits: &[u8]) -> Option<u32>
    ensures { result ≡ size_of_lem digits.now }
{
    if digits.is_empty() || !are_digits(digits) {
        return None;
    }
    let value = value_of_digits(digits);
    if value > LIMIT {
        None
    } else {
        Some(value as u32)
    }
}

/// The value of an optional `-` and such digits.
#[tactic(auto, unfolding(cif_grammar::specs::Words::limit))]
fn coordinate_of(field: &[u8]) -> Option<i64>
    ensures { result ≡ coordinate_of_lem field.now }
{
    let (first, rest) = field.split_first()?;
    if *first == b'-' {
        let size = size_of(rest)?;
        Some(-i64::from(size))
    } else {
        let size = size_of(field)?;
        Some(i64::from(size))
    }
}

/// Whether a user command is a label.
pub(crate) fn is_label(text: &[u8]) -> bool
    ensures { result ≡ is_label_lem text.now }
{
    match text {
        [b'9', b'4'] => true,
        [b'9', b'4', third, ..] => is_white(*third),
        _ => false,
    }
}

/// The label of a name, coordinates and the text behind them.
fn label_of_tail<'a>(name: &'a [u8], x: &[u8], y: &[u8], rest: &[u8]) -> Option<LabelText<'a>>
    ensures { option_map label_seen result ≡ label_tail name.now x.now y.now (field_at rest.now) }
{
    let layer = match next_field(rest) {
        None => None,
        Some((layer, rest)) => {
            if next_field(rest).is_some() {
                return None;
            }
            Some(Short::new(layer)?)
        }
    };
    let at = Point {
        x: coordinate_of(x)?,
        y: coordinate_of(y)?,
    };
    if is_name(name) {
        Some(LabelText { name, at, layer })
    } else {
        None
    }
}

/// The label of the fields.
fn label_of_fields(text: &[u8]) -> Option<LabelText<'_>>
    ensures { option_map label_seen result ≡ label_by_fields text.now }
{
    let (_, rest) = next_field(text)?;
    let (name, rest) = next_field(rest)?;
    let (x, rest) = next_field(rest)?;
    let (y, rest) = next_field(rest)?;
    label_of_tail(name, x, y, rest)
}

/// The label that a user command says, if it says one.
pub(crate) fn label_in(text: &[u8]) -> Option<LabelText<'_>>
    ensures { option_map label_seen result ≡ label_in_lem text.now }
{
    if is_label(text) {
        label_of_fields(text)
    } else {
        None
    }
}
