//! Names of wires and supplies.

ghost use Rattle.std.specs.Prelude.{◌≡◌, true, false, not, ◌&&◌};
ghost use Rattle.std.specs.List.{list_all};
ghost use Rattle.layer_map.specs.Names.{is_wire_byte as is_wire_byte_lem, is_wire_name as is_wire_name_lem};
ghost use Rattle.plane_geom.specs.Names.{is_short as is_short_lem, is_name as is_name_lem};
ghost use Rattle.layer_map.specs.Words.{words_of};
ghost use Rattle.layer_map.specs.Readers.{is_nothing, are_wires as are_wires_lem};

use crate::words::{next_name, next_word};
use plane_geom::{Short, is_name};

/// The longest name of a wire, in bytes.
const LONGEST_WIRE_NAME: usize = 16;

/// Whether the word is the name of a layer.
pub(crate) fn is_short(word: &[u8]) -> bool
    ensures { result ≡ is_short_lem word.now }
{
    Short::new(word).is_some()
}

fn are_wire_bytes(word: &[u8]) -> bool
    ensures { result ≡ list_all is_wire_byte_lem word.now }
{
    word.iter().all(|byte| byte.is_ascii_lowercase() || byte.is_ascii_digit() || *byte == b'_')
}

/// Whether a wire may be called so.
pub(crate) fn is_wire_name(word: &[u8]) -> bool
    ensures { result ≡ is_wire_name_lem word.now }
{
    let Some(first) = word.first() else {
        return false;
    };
    first.is_ascii_lowercase() && word.len() <= LONGEST_WIRE_NAME && are_wire_bytes(word)
}

fn are_all_wires(bytes: &[u8]) -> bool
    ensures { result ≡ list_all is_wire_name_lem (words_of true bytes.now) }
{
    let mut rest = bytes;
    while let Some((word, behind)) = next_word(rest) {
        if !is_wire_name(word) {
            return false;
        }
        rest = behind;
    }
    true
}

/// Whether there is nothing but blanks.
pub(crate) fn is_blank_line(bytes: &[u8]) -> bool
    ensures { result ≡ is_nothing (words_of true bytes.now) }
{
    next_word(bytes).is_none()
}

/// Whether the words are one or more names of wires.
pub(crate) fn are_wires(bytes: &[u8]) -> bool
    ensures { result ≡ are_wires_lem (words_of true bytes.now) }
{
    !is_blank_line(bytes) && are_all_wires(bytes)
}

fn are_all_names(bytes: &[u8]) -> bool
    ensures { result ≡ list_all is_name_lem (words_of false bytes.now) }
{
    let mut rest = bytes;
    while let Some((word, behind)) = next_name(rest) {
        if !is_name(word) {
            return false;
        }
        rest = behind;
    }
    true
}

/// Whether the words, cut at blanks alone, are one or more names of supplies.
pub(crate) fn are_names(bytes: &[u8]) -> bool
    ensures { result ≡ (not (is_nothing (words_of false bytes.now)) && list_all is_name_lem (words_of false bytes.now)) }
{
    next_name(bytes).is_some() && are_all_names(bytes)
}
