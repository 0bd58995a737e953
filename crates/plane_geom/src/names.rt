//! The names of layers, labels and supplies.

ghost use Rattle.std.specs.Prelude.{◌≡◌, true, IfOk, if◌then◌else◌};
ghost use Rattle.std.specs.List.{list_all};
ghost use Rattle.plane_geom.specs.Names.{is_short_byte, is_short, is_name_byte, is_name as is_name_lem};

use std::alloc::{AllocError, Global};
use std::marker::Model;

/// The name of a layer: one to four digits or upper-case letters. Contracts see its bytes.
#[derive(Clone, Copy, Debug, PartialEq, Eq)]
pub struct Short {
    /// The name, and zeros behind it.
    bytes: [u8; 4],
    len: u8,
}

impl Model for Short {
    ghost use Rattle.std.specs.Prelude.{ℕ, ◌-◌, List, ◌++◌, length, take, replicate};
    ghost use Rattle.plane_geom.specs.Names.{IsPadded, padded_back};

    ghost Value = { List ℕ };

    ghost view = { λ s. take s.len s.bytes };

    ghost invariant = { λ s. IsPadded s.len s.bytes };

    ghost inverse = { λ name. record { bytes = name ++ replicate (4 - length name) 0; len = length name } };

    ghost inverse_ok = { λ a h i. record { bytes = padded_back a.len a.bytes h i; len = h.named i } };
}

impl Short {
    /// The name, or `None` where the text is not one to four digits or upper-case letters.
    pub fn new(text: &[u8]) -> Option<Short>
        ensures { result ≡ (if is_short text.now then Some text.now else None) }
    {
        if !is_short_name(text) {
            return None;
        }
        let mut bytes = [0; 4];
        bytes[..text.len()].copy_from_slice(text);
        Some(Short {
            bytes,
            len: text.len() as u8,
        })
    }

    /// The bytes of the name.
    pub fn as_bytes(&self) -> &[u8]
        ensures same { result.now ≡ self.now }
        ensures short { is_short self.now ≡ true }
    {
        &self.bytes[..self.len as usize]
    }
}

/// Whether the text is one to four digits or upper-case letters.
fn is_short_name(text: &[u8]) -> bool
    ensures { result ≡ is_short text.now }
{
    (1..=4).contains(&text.len()) && is_plain(text)
}

/// Whether all bytes are digits or upper-case letters.
fn is_plain(text: &[u8]) -> bool
    ensures { result ≡ list_all is_short_byte text.now }
{
    text.iter()
        .all(|b| b.is_ascii_digit() || b.is_ascii_uppercase())
}

/// The longest name of a label or a supply, in bytes.
const LONGEST_NAME: usize = 64;

/// Whether a label or a supply may be called so: 1 to 64 bytes from `!` to `~` without `;`, and no `#` first.
pub fn is_name(text: &[u8]) -> bool
    ensures { result ≡ is_name_lem text.now }
{
    let Some(first) = text.first() else {
        return false;
    };
    if *first == b'#' || text.len() > LONGEST_NAME {
        return false;
    }
    are_name_bytes(text)
}

/// Whether all bytes are from `!` to `~` and none is a `;`.
fn are_name_bytes(text: &[u8]) -> bool
    ensures { result ≡ list_all is_name_byte text.now }
{
    text.iter().all(|b| b.is_ascii_graphic() && *b != b';')
}

/// A text, as a label or a supply is named. Contracts see its bytes.
#[derive(Debug, Drop)]
pub struct Label {
    text: Vec<u8>,
}

impl Model for Label {
    ghost use Rattle.std.specs.Prelude.{ℕ, List};

    ghost Value = { List ℕ };

    ghost view = { λ label. label.text.items };
}

impl Label {
    /// The label with these bytes. The only error is want of memory.
    pub fn new(alloc: Global, text: &[u8]) -> Result<Label, AllocError>
        ensures { IfOk result (λ label. label ≡ text.now) }
    {
        Ok(Label {
            text: Vec::from_slice(alloc, text)?,
        })
    }

    /// The bytes of the label.
    pub fn as_bytes(&self) -> &[u8]
        ensures { result.now ≡ self.now }
    {
        self.text.as_slice()
    }
}
