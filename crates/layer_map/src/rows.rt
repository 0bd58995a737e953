//! The rows of the grammar: what a line says, before its expression is made a tree.

ghost use Rattle.std.specs.Prelude.{◌≡◌, true, false, option_map, IfSome, if◌then◌else◌};
ghost use Rattle.layer_map.specs.Words.{words_of, is_comment as is_comment_lem, is_skipped as is_skipped_lem, begins_supply};
ghost use Rattle.layer_map.specs.Readers.{wire_at, cut_at, kind_at, terminals_at, fet_at, label_at, supply_at, row_at, said_at};
ghost use Rattle.layer_map.specs.RowViews.{row_seen, IsFormed};

use crate::expressions::expression_of;
use crate::names::{are_names, are_wires, is_blank_line, is_short, is_wire_name};
use crate::refusal::Side;
use crate::words::{behind, next_name, next_word};
use switch_net::Kind;

/// What a line says. An expression is kept as the bytes that begin with it, a list as the bytes that hold it.
#[derive(Clone, Copy, Debug)]
pub(crate) enum Row<'a> {
    /// A blank line or a comment.
    Nothing,
    Wire {
        name: &'a [u8],
        expr: &'a [u8],
    },
    Cut {
        expr: &'a [u8],
        wires: &'a [u8],
    },
    Fet {
        kind: Kind,
        expr: &'a [u8],
        gate: &'a [u8],
        diff: &'a [u8],
    },
    Label {
        layer: &'a [u8],
        wires: &'a [u8],
    },
    Supply {
        side: Side,
        names: &'a [u8],
    },
}

#[tactic(auto, unfolding(crate::specs::Readers::wire_at))]
fn wire_of(bytes: &[u8]) -> Option<Row<'_>>
    ensures said { option_map row_seen result ≡ wire_at (words_of true bytes.now) }
    ensures formed { IfSome result IsFormed }
{
    let (name, expr) = next_word(bytes)?;
    if !is_wire_name(name) {
        return None;
    }
    let (_, rest) = expression_of(expr)?;
    if is_blank_line(rest) {
        Some(Row::Wire { name, expr })
    } else {
        None
    }
}

#[tactic(auto, unfolding(crate::specs::Readers::cut_at))]
fn cut_of(bytes: &[u8]) -> Option<Row<'_>>
    ensures said { option_map row_seen result ≡ cut_at (words_of true bytes.now) }
    ensures formed { IfSome result IsFormed }
{
    let (_, rest) = expression_of(bytes)?;
    let wires = behind(b":", rest)?;
    if are_wires(wires) {
        Some(Row::Cut { expr: bytes, wires })
    } else {
        None
    }
}

fn kind_of(word: &[u8]) -> Option<Kind>
    ensures { result ≡ kind_at word.now }
{
    match word {
        b"n" => Some(Kind::N),
        b"p" => Some(Kind::P),
        _ => None,
    }
}

/// The wire of the gate and that of the other terminals.
#[tactic(auto, unfolding(crate::specs::Readers::terminals_at))]
fn terminals_of(bytes: &[u8]) -> Option<(&[u8], &[u8])>
    ensures { option_map (λ x. (x.0.now, x.1.now)) result ≡ terminals_at (words_of true bytes.now) }
{
    let (gate, rest) = next_word(behind(b"gate", bytes)?)?;
    let (diff, rest) = next_word(behind(b"diff", rest)?)?;
    if is_wire_name(gate) && is_wire_name(diff) && is_blank_line(rest) {
        Some((gate, diff))
    } else {
        None
    }
}

#[tactic(auto, unfolding(crate::specs::Readers::fet_at))]
fn fet_of(bytes: &[u8]) -> Option<Row<'_>>
    ensures said { option_map row_seen result ≡ fet_at (words_of true bytes.now) }
    ensures formed { IfSome result IsFormed }
{
    let (kind, expr) = next_word(bytes)?;
    let kind = kind_of(kind)?;
    let (_, rest) = expression_of(expr)?;
    let (gate, diff) = terminals_of(rest)?;
    Some(Row::Fet {
        kind,
        expr,
        gate,
        diff,
    })
}

#[tactic(auto, unfolding(crate::specs::Readers::label_at))]
fn label_of(bytes: &[u8]) -> Option<Row<'_>>
    ensures said { option_map row_seen result ≡ label_at (words_of true bytes.now) }
    ensures formed { IfSome result IsFormed }
{
    let (layer, wires) = next_word(bytes)?;
    if is_short(layer) && are_wires(wires) {
        Some(Row::Label { layer, wires })
    } else {
        None
    }
}

#[tactic(auto, unfolding(crate::specs::Readers::supply_at))]
fn supply_of(bytes: &[u8]) -> Option<Row<'_>>
    ensures said { option_map row_seen result ≡ supply_at (words_of false bytes.now) }
    ensures formed { IfSome result IsFormed }
{
    let (word, names) = next_name(bytes)?;
    let side = if word == b"high".as_slice() {
        Side::High
    } else {
        Side::Low
    };
    if are_names(names) {
        Some(Row::Supply { side, names })
    } else {
        None
    }
}

#[tactic(auto, unfolding(crate::specs::Readers::row_at))]
fn other_row_of(line: &[u8]) -> Option<Row<'_>>
    ensures said { option_map row_seen result ≡ row_at (words_of true line.now) }
    ensures formed { IfSome result IsFormed }
{
    let (word, rest) = next_word(line)?;
    if word == b"wire".as_slice() {
        wire_of(rest)
    } else if word == b"cut".as_slice() {
        cut_of(rest)
    } else if word == b"fet".as_slice() {
        fet_of(rest)
    } else if word == b"label".as_slice() {
        label_of(rest)
    } else {
        None
    }
}

/// Whether the line has only blanks, or its first other byte is `#`.
fn is_skipped(line: &[u8]) -> bool
    ensures { result ≡ is_skipped_lem line.now }
{
    match next_name(line) {
        None => true,
        Some((word, _)) => word.first() == Some(&b'#'),
    }
}

/// Whether the line's first word is `high` or `low`.
fn is_supply_line(line: &[u8]) -> bool
    ensures { result ≡ begins_supply (words_of false line.now) }
{
    match next_name(line) {
        None => false,
        Some((word, _)) => word == b"high".as_slice() || word == b"low".as_slice(),
    }
}

/// What the line says, or none where it is not of the grammar.
#[tactic(auto, unfolding(crate::specs::Readers::said_at))]
pub(crate) fn row_of(line: &[u8]) -> Option<Row<'_>>
    ensures said { option_map row_seen result ≡ said_at line.now }
    ensures formed { IfSome result IsFormed }
{
    if is_skipped(line) {
        Some(Row::Nothing)
    } else if is_supply_line(line) {
        supply_of(line)
    } else {
        other_row_of(line)
    }
}
