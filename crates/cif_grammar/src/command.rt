//! The next command of a text.

ghost use Rattle.std.specs.Prelude.{◌≡◌, None, ◌≤◌, ◌-◌, ℕ, List, length, option_map, IfOk, IfSome};
ghost use Rattle.std.specs.List.{prefix_len};
ghost use Rattle.plane_geom.specs.Names.{is_short_byte};
ghost use Rattle.cif_grammar.specs.Words.{◌⋅◌, Takes, skip};
ghost use Rattle.cif_grammar.specs.Grammar.{Command as Spelling, command, end, is_gap};
ghost use Rattle.cif_grammar.specs.Seen.{seen};
ghost use Rattle.cif_grammar.specs.Readers.{or_none, next_point_at, box_at, polygon_at, width_at, wire_at, layer_at, layer_in, call_at, is_text, user_at, comment_at, two_at, start_at, definition_at, definition_in, body_at, semicolon_at, end_at};

use crate::calls::transformations_of;
use crate::comment::after_comment;
use crate::path::more_points_of;
use crate::spelled::{Command, Number, Path, Spot};
use crate::words::{after_blanks, after_gaps, integer_of, next_of, next_point_of, point_of};
use memchr::memchr;
use plane_geom::Short;
use std::alloc::{AllocError, Global};

/// A command, and the bytes behind it.
type Read<'a> = (Command<'a>, &'a [u8]);

/// A further point, if there is one.
fn direction_of(total: usize, bytes: &[u8]) -> (Option<Spot>, &[u8])
    ensures { (result.0, result.1.now) ≡ or_none bytes.now (next_point_at total bytes.now) }
{
    match next_point_of(total, bytes) {
        Some((direction, rest)) => (Some(direction), rest),
        None => (None, bytes),
    }
}

/// A box, behind its `B`.
#[tactic(auto, unfolding(crate::specs::Readers::box_at))]
fn box_of(total: usize, bytes: &[u8]) -> Option<Read<'_>>
    ensures { option_map (λ x. (seen x.0, x.1.now)) result ≡ box_at total bytes.now }
{
    let (length, rest) = integer_of(total, bytes)?;
    let (width, rest) = next_of(total, rest)?;
    let (centre, rest) = next_point_of(total, rest)?;
    let (direction, rest) = direction_of(total, rest);
    let command = Command::Box {
        length,
        width,
        centre,
        direction,
    };
    Some((command, rest))
}

/// A polygon, behind its `P`.
#[tactic(auto, unfolding(crate::specs::Readers::polygon_at))]
fn polygon_of(alloc: Global, total: usize, bytes: &[u8]) -> Result<Option<Read<'_>>, AllocError>
    ensures { IfOk result (λ found. option_map (λ x. (seen x.0, x.1.now)) found ≡ polygon_at total bytes.now) }
{
    let Some((first, rest)) = point_of(total, bytes) else {
        return Ok(None);
    };
    let (others, rest) = more_points_of(alloc, total, rest)?;
    let path = Path { first, others };
    Ok(Some((Command::Polygon(path), rest)))
}

/// The width of a wire and its first point.
#[tactic(auto, unfolding(crate::specs::Readers::width_at))]
fn width_of(total: usize, bytes: &[u8]) -> Option<(Number, Spot, &[u8])>
    ensures { option_map (λ x. (x.0, x.1, x.2.now)) result ≡ width_at total bytes.now }
{
    let (width, rest) = integer_of(total, bytes)?;
    let (first, rest) = next_point_of(total, rest)?;
    Some((width, first, rest))
}

/// A wire, behind its `W`.
#[tactic(auto, unfolding(crate::specs::Readers::wire_at))]
fn wire_of(alloc: Global, total: usize, bytes: &[u8]) -> Result<Option<Read<'_>>, AllocError>
    ensures { IfOk result (λ found. option_map (λ x. (seen x.0, x.1.now)) found ≡ wire_at total bytes.now) }
{
    let Some((width, first, rest)) = width_of(total, bytes) else {
        return Ok(None);
    };
    let (others, rest) = more_points_of(alloc, total, rest)?;
    let path = Path { first, others };
    Ok(Some((Command::Wire { width, path }, rest)))
}

/// How many bytes stand first that a layer's name may have.
fn name_bytes(bytes: &[u8]) -> usize
    ensures value { result ≡ prefix_len is_short_byte bytes.now }
    ensures within { result ≤ length bytes.now }
{
    bytes
        .iter()
        .take_while(|byte| byte.is_ascii_digit() || byte.is_ascii_uppercase())
        .count()
}

/// The name of a layer.
fn name_of(bytes: &[u8]) -> Option<Read<'_>>
    ensures { option_map (λ x. (seen x.0, x.1.now)) result ≡ layer_in bytes.now }
{
    let count = name_bytes(bytes);
    let name = Short::new(&bytes[..count])?;
    Some((Command::Layer(name), &bytes[count..]))
}

/// A layer, behind its `L`.
#[tactic(auto, unfolding(crate::specs::Readers::layer_at))]
fn layer_of(bytes: &[u8]) -> Option<Read<'_>>
    ensures { option_map (λ x. (seen x.0, x.1.now)) result ≡ layer_at bytes.now }
{
    name_of(after_blanks(bytes))
}

/// A call, behind its `C`.
#[tactic(auto, unfolding(crate::specs::Readers::call_at))]
fn call_of(alloc: Global, total: usize, bytes: &[u8]) -> Result<Option<Read<'_>>, AllocError>
    ensures { IfOk result (λ found. option_map (λ x. (seen x.0, x.1.now)) found ≡ call_at total bytes.now) }
{
    let Some((symbol, rest)) = integer_of(total, bytes) else {
        return Ok(None);
    };
    let (transformations, rest) = transformations_of(alloc, total, rest)?;
    let command = Command::Call {
        symbol,
        transformations,
    };
    Ok(Some((command, rest)))
}

/// A user command: its text goes up to its `;`.
#[tactic(auto, unfolding(crate::specs::Readers::user_at))]
fn user_of(bytes: &[u8]) -> Option<Read<'_>>
    ensures { option_map (λ x. (seen x.0, x.1.now)) result ≡ user_at bytes.now }
{
    let place = memchr(b';', bytes)?;
    Some((Command::User(&bytes[..place]), &bytes[place..]))
}

/// A comment, behind its `(`.
#[tactic(auto, unfolding(crate::specs::Readers::comment_at))]
fn comment_of(bytes: &[u8]) -> Option<Read<'_>>
    ensures { option_map (λ x. (seen x.0, x.1.now)) result ≡ comment_at bytes.now }
{
    let rest = after_comment(bytes)?;
    Some((Command::Comment, rest))
}

/// The two numbers of a scale.
#[tactic(auto, unfolding(crate::specs::Readers::two_at))]
fn two_of(total: usize, bytes: &[u8]) -> Option<((Number, Number), &[u8])>
    ensures { option_map (λ x. (x.0, x.1.now)) result ≡ two_at total bytes.now }
{
    let (a, rest) = next_of(total, bytes)?;
    let (b, rest) = next_of(total, rest)?;
    Some(((a, b), rest))
}

/// A scale, if there is one.
fn scale_of(total: usize, bytes: &[u8]) -> (Option<(Number, Number)>, &[u8])
    ensures { (result.0, result.1.now) ≡ or_none bytes.now (two_at total bytes.now) }
{
    match two_of(total, bytes) {
        Some((scale, rest)) => (Some(scale), rest),
        None => (None, bytes),
    }
}

/// The start of a definition, behind its `S`.
#[tactic(auto, unfolding(crate::specs::Readers::start_at))]
fn start_of(total: usize, bytes: &[u8]) -> Option<Read<'_>>
    ensures { option_map (λ x. (seen x.0, x.1.now)) result ≡ start_at total bytes.now }
{
    let (symbol, rest) = integer_of(total, bytes)?;
    let (scale, rest) = scale_of(total, rest);
    Some((Command::Start { symbol, scale }, rest))
}

/// The start or the finish of a definition, behind its `D`.
#[tactic(auto, unfolding(crate::specs::Readers::definition_at))]
fn definition_of(total: usize, bytes: &[u8]) -> Option<Read<'_>>
    ensures { option_map (λ x. (seen x.0, x.1.now)) result ≡ definition_at total bytes.now }
{
    let (letter, rest) = after_blanks(bytes).split_first()?;
    match *letter {
        b'S' => start_of(total, rest),
        b'F' => Some((Command::Finish, rest)),
        _ => None,
    }
}

/// A command without its end.
#[tactic(auto, unfolding(crate::specs::Readers::body_at))]
fn body_of(alloc: Global, total: usize, bytes: &[u8]) -> Result<Option<Read<'_>>, AllocError>
    ensures { IfOk result (λ found. option_map (λ x. (seen x.0, x.1.now)) found ≡ body_at total bytes.now) }
{
    let Some((first, rest)) = bytes.split_first() else {
        return Ok(None);
    };
    match *first {
        b'0'..=b'9' => Ok(user_of(bytes)),
        b'B' => Ok(box_of(total, rest)),
        b'P' => polygon_of(alloc, total, rest),
        b'W' => wire_of(alloc, total, rest),
        b'L' => Ok(layer_of(rest)),
        b'C' => call_of(alloc, total, rest),
        b'(' => Ok(comment_of(rest)),
        b'D' => Ok(definition_of(total, rest)),
        _ => Ok(None),
    }
}

/// What stands behind a `;`, and behind the blanks and semicolons that follow it.
fn after_semicolon(bytes: &[u8]) -> Option<&[u8]>
    ensures { option_map (λ x. x.now) result ≡ semicolon_at bytes.now }
{
    let (first, rest) = bytes.split_first()?;
    if *first == b';' {
        Some(after_gaps(rest))
    } else {
        None
    }
}

/// What stands behind the end of a command.
#[tactic(auto, unfolding(crate::specs::Readers::end_at))]
fn after_end<'a>(command: &Command<'_>, bytes: &'a [u8]) -> Option<&'a [u8]>
    ensures { option_map (λ x. x.now) result ≡ end_at (seen command.now) bytes.now }
{
    match command {
        Command::User(_) => after_semicolon(bytes),
        _ => after_semicolon(after_blanks(bytes)),
    }
}

/// The command that `bytes` begin with, and the bytes behind its end: behind its `;` and all blanks and semicolons that
/// follow. `None` exactly where no command with its end stands there.
///
/// `bytes` are the last ones of a text of `total` bytes, and places are counted from where that text begins; where
/// `total` is less than the length of `bytes`, from where `bytes` begin. The call `one_command` says that one command at
/// most stands there. The only error is want of memory for lists of points and transformations.
pub fn next_command<'a>(
    alloc: Global,
    total: usize,
    bytes: &'a [u8],
) -> Result<Option<(Command<'a>, &'a [u8])>, AllocError>
    // What is read is spelled there, and no blank or semicolon is left before the rest.
    ensures found { IfOk result (λ found. IfSome found (λ x. Takes (command (seen x.0) ⋅ end (seen x.0)) (total - length bytes.now) bytes.now x.1.now)) }
    ensures gaps { IfOk result (λ found. IfSome found (λ x. skip is_gap x.1.now ≡ x.1.now)) }
    // Where none is read, none is spelled, whatever would follow it.
    ensures none { IfOk result (λ found. found ≡ None → (c : Spelling) (rest : List ℕ) → Takes (command c ⋅ end c) (total - length bytes.now) bytes.now rest → ⊥) }
{
    let total = total.max(bytes.len());
    let Some((command, rest)) = body_of(alloc, total, bytes)? else {
        return Ok(None);
    };
    match after_end(&command, rest) {
        Some(rest) => Ok(Some((command, rest))),
        None => Ok(None),
    }
}
