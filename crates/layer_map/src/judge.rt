//! What a line adds to the map, unless it is at fault.

ghost use Rattle.std.specs.Prelude.{◌≡◌, ◌≤◌, ◌||◌, true, false, Some, None, length, map, option_map, MatchOption, IfOk, if◌then◌else◌};
ghost use Rattle.std.specs.Prelude.{position};
ghost use Rattle.std.specs.List.{list_all, list_any, position_or_len};
ghost use Rattle.std.specs.Str.{bytes_eq};
ghost use Rattle.layer_map.specs.Words.{words_of};
ghost use Rattle.layer_map.specs.Names.{is_among as is_among_lem, are_distinct as are_distinct_lem};
ghost use Rattle.layer_map.specs.Truth.{formula_of, is_unbounded as is_unbounded_lem};
ghost use Rattle.layer_map.specs.Plan.{number_of as number_of_lem};
ghost use Rattle.layer_map.specs.Adding.{numbers_at};
ghost use Rattle.layer_map.specs.Views.{wire_seen, label_seen, numbers_seen};

use crate::expr::Expr;
use crate::map::{LabelLine, WireId, WireLine};
use crate::words::{cut, next_name, next_word};
use plane_geom::{Label, Short};
use std::alloc::{AllocError, Global};

/// Whether the expression is true where no layer is present.
pub(crate) fn is_unbounded(expr: &Expr) -> bool
    ensures { result ≡ is_unbounded_lem (formula_of expr.now) }
{
    match expr {
        Expr::Layer(_) => false,
        Expr::Not(inner) => !is_unbounded(inner),
        Expr::And(left, right) => is_unbounded(left) && is_unbounded(right),
        Expr::Or(left, right) => is_unbounded(left) || is_unbounded(right),
    }
}

/// The place of the wire with this name.
fn place_of(wires: &[WireLine], name: &[u8]) -> Option<usize>
    ensures { result ≡ position (λ w. bytes_eq w.name name.now) wires.now }
{
    wires.iter().position(|wire| wire.name.as_bytes() == name)
}

/// Whether a wire of the map has this name.
pub(crate) fn is_wire(wires: &[WireLine], name: &[u8]) -> bool
    ensures { result ≡ is_among_lem name.now (map (λ w. w.name) (map wire_seen wires.now)) }
{
    place_of(wires, name).is_some()
}

/// The wire with this name, where there is one.
pub(crate) fn wire_of(wires: &[WireLine], name: &[u8]) -> Option<WireId>
    requires { length wires.now ≤ 16 }
    ensures { MatchOption result (is_among_lem name.now (map (λ w. w.name) (map wire_seen wires.now)) ≡ false) (λ w. (is_among_lem name.now (map (λ w. w.name) (map wire_seen wires.now)) ≡ true) × (w.0 ≡ number_of_lem (map wire_seen wires.now) name.now)) }
{
    let place = place_of(wires, name)?;
    Some(WireId(place as u32))
}

/// The numbers of the wires with these names, or none where one of them has no wire.
fn numbers_of(
    alloc: Global,
    wires: &[WireLine],
    names: &[u8],
) -> Result<Option<Vec<WireId>>, AllocError>
    requires { length wires.now ≤ 16 }
    ensures { IfOk result (λ o. option_map (λ v. numbers_seen v.items) o ≡ numbers_at wires.now (words_of true names.now)) }
{
    let mut numbers = Vec::new(alloc);
    let mut rest = names;
    while let Some((name, behind)) = next_word(rest) {
        let Some(number) = wire_of(wires, name) else {
            return Ok(None);
        };
        numbers.push(number)?;
        rest = behind;
    }
    Ok(Some(numbers))
}

/// The wires with these names, or none where one of them has no wire.
pub(crate) fn wires_of(
    alloc: Global,
    wires: &[WireLine],
    names: &[u8],
) -> Result<Option<Vec<WireId>>, AllocError>
    requires { length wires.now ≤ 16 }
    ensures { IfOk result (λ o. MatchOption o (list_all (λ n. is_among_lem n (map (λ w. w.name) (map wire_seen wires.now))) (words_of true names.now) ≡ false) (λ v. (list_all (λ n. is_among_lem n (map (λ w. w.name) (map wire_seen wires.now))) (words_of true names.now) ≡ true) × (numbers_seen v.items ≡ map (number_of_lem (map wire_seen wires.now)) (words_of true names.now)))) }
{
    numbers_of(alloc, wires, names)
}

/// How many words there are, where a line is cut with signs or at its blanks alone.
pub(crate) fn count_words(signs: bool, bytes: &[u8]) -> usize
    ensures { result ≡ length (words_of signs bytes.now) }
{
    let mut count = 0;
    let mut rest = bytes;
    while let Some((_, behind)) = cut(signs, rest) {
        count += 1;
        rest = behind;
    }
    count
}

/// Whether a label line is of this layer.
fn any_label(labels: &[LabelLine], layer: Short) -> bool
    ensures { result ≡ list_any (λ l. bytes_eq l.layer layer) labels.now }
{
    labels
        .iter()
        .any(|label| label.layer.as_bytes() == layer.as_bytes())
}

/// Whether a label line of the map is of this layer.
pub(crate) fn is_layer(labels: &[LabelLine], layer: Short) -> bool
    ensures { result ≡ is_among_lem layer (map (λ l. l.layer) (map label_seen labels.now)) }
{
    any_label(labels, layer)
}

/// Whether the name is one of these.
fn is_among(names: &[Label], name: &[u8]) -> bool
    ensures { result ≡ is_among_lem name.now names.now }
{
    names.iter().any(|label| label.as_bytes() == name)
}

/// Whether the name is among those of either supply.
fn is_in_either(high: &[Label], low: &[Label], name: &Label) -> bool
    ensures { result ≡ (is_among_lem name.now high.now || is_among_lem name.now low.now) }
{
    is_among(high, name.as_bytes()) || is_among(low, name.as_bytes())
}

/// Whether one of the names is among those of either supply.
pub(crate) fn is_any_supply(high: &[Label], low: &[Label], names: &[Label]) -> bool
    ensures { result ≡ list_any (λ n. is_among_lem n high.now || is_among_lem n low.now) names.now }
{
    names.iter().any(|name| is_in_either(high, low, name))
}

/// Whether no name stands twice.
pub(crate) fn are_distinct(names: &[Label]) -> bool
    ensures { result ≡ are_distinct_lem names.now }
{
    let Some((first, others)) = names.split_first() else {
        return true;
    };
    !is_among(others, first.as_bytes()) && are_distinct(others)
}

/// The names of supplies.
pub(crate) fn names_of(alloc: Global, bytes: &[u8]) -> Result<Vec<Label>, AllocError>
    ensures { IfOk result (λ v. v.items ≡ words_of false bytes.now) }
{
    let mut names = Vec::new(alloc);
    let mut rest = bytes;
    while let Some((name, behind)) = next_name(rest) {
        names.push(Label::new(alloc, name)?)?;
        rest = behind;
    }
    Ok(names)
}
