//! The words of a command: blanks, numbers and points.
//!
//! Each reader takes the last bytes of a text of `total` bytes, and gives the word that they begin with and the bytes
//! behind it.

ghost use Rattle.std.specs.Prelude.{◌≡◌, ◌≤◌, ◌+◌, length, min, option_map};
ghost use Rattle.std.specs.List.{prefix_len};
ghost use Rattle.std.specs.Char.{is_ascii_digit};
ghost use Rattle.std.specs.Str.Parse.{AllDigits, digits_value};
ghost use Rattle.cif_grammar.specs.Words.{is_blank as is_blank_lem, is_sep as is_sep_lem, limit, skip};
ghost use Rattle.cif_grammar.specs.Grammar.{is_gap as is_gap_lem};
ghost use Rattle.cif_grammar.specs.Readers.{behind, digits_at, integer_at, sized_at, signed_at, point_at, next_at, next_point_at};

use crate::spelled::{Number, Signed, Spot};

/// The greatest number of a CIF text.
pub const LIMIT: u64 = 2_147_483_647;

/// Whether it is neither a digit, an upper-case letter, `-`, `(`, `)` nor `;`.
fn is_blank(byte: u8) -> bool
    ensures { result ≡ is_blank_lem byte }
{
    !(byte.is_ascii_digit()
        || byte.is_ascii_uppercase()
        || byte == b'-'
        || byte == b'('
        || byte == b')'
        || byte == b';')
}

/// Whether it may stand before a number: an upper-case letter or a blank.
fn is_sep(byte: u8) -> bool
    ensures { result ≡ is_sep_lem byte }
{
    byte.is_ascii_uppercase() || is_blank(byte)
}

/// Whether it is a blank or a `;`.
fn is_gap(byte: u8) -> bool
    ensures { result ≡ is_gap_lem byte }
{
    is_blank(byte) || byte == b';'
}

/// How many blanks stand first.
fn blanks(bytes: &[u8]) -> usize
    ensures value { result ≡ prefix_len is_blank_lem bytes.now }
    ensures within { result ≤ length bytes.now }
{
    bytes.iter().take_while(|byte| is_blank(**byte)).count()
}

/// How many bytes stand first that may stand before a number.
fn seps(bytes: &[u8]) -> usize
    ensures value { result ≡ prefix_len is_sep_lem bytes.now }
    ensures within { result ≤ length bytes.now }
{
    bytes.iter().take_while(|byte| is_sep(**byte)).count()
}

/// How many blanks and semicolons stand first.
fn gaps(bytes: &[u8]) -> usize
    ensures value { result ≡ prefix_len is_gap_lem bytes.now }
    ensures within { result ≤ length bytes.now }
{
    bytes.iter().take_while(|byte| is_gap(**byte)).count()
}

/// How many digits stand first.
fn digits(bytes: &[u8]) -> usize
    ensures value { result ≡ prefix_len is_ascii_digit bytes.now }
    ensures within { result ≤ length bytes.now }
{
    bytes
        .iter()
        .take_while(|byte| byte.is_ascii_digit())
        .count()
}

/// What stands behind the first blanks: bytes other than digits, upper-case letters, `-`, `(`, `)` and `;`.
pub fn after_blanks(bytes: &[u8]) -> &[u8]
    ensures { result.now ≡ skip is_blank_lem bytes.now }
{
    &bytes[blanks(bytes)..]
}

/// What stands behind the first bytes that may stand before a number.
fn after_seps(bytes: &[u8]) -> &[u8]
    ensures { result.now ≡ skip is_sep_lem bytes.now }
{
    &bytes[seps(bytes)..]
}

/// What stands behind the first blanks and semicolons.
pub fn after_gaps(bytes: &[u8]) -> &[u8]
    ensures { result.now ≡ skip is_gap_lem bytes.now }
{
    &bytes[gaps(bytes)..]
}

/// What stands behind one byte that may stand before a number.
fn after_sep(bytes: &[u8]) -> Option<&[u8]>
    ensures { option_map (λ x. x.now) result ≡ behind is_sep_lem bytes.now }
{
    let (first, rest) = bytes.split_first()?;
    if is_sep(*first) { Some(rest) } else { None }
}

/// The value of decimal digits. The first number over the greatest one of a CIF text stands for all that are greater.
#[tactic(auto, unfolding(crate::specs::Words::limit))]
pub fn value_of_digits(digits: &[u8]) -> u64
    requires { AllDigits 10 digits.now }
    ensures { result ≡ min (digits_value 10 digits.now) (limit + 1) }
{
    let mut value = 0u64;
    for digit in digits {
        value = (value * 10 + u64::from(*digit - b'0')).min(LIMIT + 1);
    }
    value
}

/// All digits that stand first, at least one.
#[tactic(auto, unfolding(crate::specs::Readers::digits_at))]
fn digits_of(total: usize, bytes: &[u8]) -> Option<(Number, &[u8])>
    ensures { option_map (λ x. (x.0, x.1.now)) result ≡ digits_at total bytes.now }
{
    let count = digits(bytes);
    if count == 0 {
        return None;
    }
    let number = Number {
        at: total.saturating_sub(bytes.len()),
        value: value_of_digits(&bytes[..count]),
    };
    Some((number, &bytes[count..]))
}

/// A number without sign.
#[tactic(auto, unfolding(crate::specs::Readers::integer_at))]
pub(crate) fn integer_of(total: usize, bytes: &[u8]) -> Option<(Number, &[u8])>
    ensures { option_map (λ x. (x.0, x.1.now)) result ≡ integer_at total bytes.now }
{
    digits_of(total, after_seps(bytes))
}

/// Digits, with this sign before them.
fn sized_of(total: usize, minus: bool, bytes: &[u8]) -> Option<(Signed, &[u8])>
    ensures { option_map (λ x. (x.0, x.1.now)) result ≡ sized_at total minus bytes.now }
{
    let (size, rest) = digits_of(total, bytes)?;
    Some((Signed { minus, size }, rest))
}

/// A number with an optional `-`.
#[tactic(auto, unfolding(crate::specs::Readers::signed_at))]
fn signed_of(total: usize, bytes: &[u8]) -> Option<(Signed, &[u8])>
    ensures { option_map (λ x. (x.0, x.1.now)) result ≡ signed_at total bytes.now }
{
    let bytes = after_seps(bytes);
    let (first, rest) = bytes.split_first()?;
    if *first == b'-' {
        sized_of(total, true, rest)
    } else {
        sized_of(total, false, bytes)
    }
}

/// Two numbers with an optional `-` each.
#[tactic(auto, unfolding(crate::specs::Readers::point_at))]
pub(crate) fn point_of(total: usize, bytes: &[u8]) -> Option<(Spot, &[u8])>
    ensures { option_map (λ x. (x.0, x.1.now)) result ≡ point_at total bytes.now }
{
    let (x, rest) = signed_of(total, bytes)?;
    let rest = after_sep(rest)?;
    let (y, rest) = signed_of(total, rest)?;
    Some((Spot { x, y }, rest))
}

/// A number behind another one.
#[tactic(auto, unfolding(crate::specs::Readers::next_at))]
pub(crate) fn next_of(total: usize, bytes: &[u8]) -> Option<(Number, &[u8])>
    ensures { option_map (λ x. (x.0, x.1.now)) result ≡ next_at total bytes.now }
{
    integer_of(total, after_sep(bytes)?)
}

/// A point behind a number.
#[tactic(auto, unfolding(crate::specs::Readers::next_point_at))]
pub(crate) fn next_point_of(total: usize, bytes: &[u8]) -> Option<(Spot, &[u8])>
    ensures { option_map (λ x. (x.0, x.1.now)) result ≡ next_point_at total bytes.now }
{
    point_of(total, after_sep(bytes)?)
}
