//! Numbers and literals that bytes spell.

ghost use Rattle.std.specs.Prelude.{◌≡◌, ℕ, ℤ, ◌<◌, ◌≤◌, ◌^◌, true, List, ◌∷◌, IfSome, IfNone, SomeIff};
ghost use Rattle.std.specs.List.{list_all};
ghost use Rattle.std.specs.Char.{is_ascii_digit};
ghost use Rattle.std.specs.Fmt.{decimal, signed_decimal};
ghost use Rattle.std.specs.Str.Parse.{digits_value};
ghost use Rattle.clause_base.specs.FormulaText.{most_vars, is_literal_of};
ghost use Rattle.clause_base.specs.FormulaFaults.{is_number as is_number_lem};

use crate::literals::Lit;
use std::str;

/// The number up to `most` that the bytes spell in plain decimal, with no sign and no leading zero, or `None` where they
/// spell none.
pub fn read_decimal(bytes: &[u8], most: u64) -> Option<u64>
    ensures most { IfSome result (λ n. n ≤ most) }
    ensures spelled { IfSome result (λ n. bytes.now ≡ decimal n) }
    ensures none { IfNone result ((n : ℕ) → n ≤ most → bytes.now ≡ decimal n → ⊥) }
{
    if !is_number(bytes) {
        return None;
    }
    let number = value_of(bytes)?;
    if number > most {
        return None;
    }
    Some(number)
}

/// Whether the word is of digits, with no leading zero.
pub(crate) fn is_number(word: &[u8]) -> bool
    ensures { result ≡ is_number_lem word.now }
{
    let Some((first, rest)) = word.split_first() else {
        return false;
    };
    are_digits(word) && (*first != b'0' || rest.is_empty())
}

/// Whether each byte is a decimal digit.
fn are_digits(word: &[u8]) -> bool
    ensures { result ≡ list_all is_ascii_digit word.now }
{
    word.iter().all(|byte| byte.is_ascii_digit())
}

/// The number that digits spell, or `None` where it takes more than 64 bits.
fn value_of(digits: &[u8]) -> Option<u64>
    requires { is_number_lem digits.now ≡ true }
    ensures { SomeIff result (digits_value 10 digits.now < 2 ^ 64) (digits_value 10 digits.now) }
{
    str::from_utf8(digits).ok()?.parse().ok()
}

/// The literal that the word spells, if it is one of these variables or its negation.
pub(crate) fn literal(word: &[u8], vars: u32) -> Option<Lit>
    requires { vars ≤ most_vars }
    ensures found { IfSome result (λ lit. is_literal_of vars lit ≡ true) }
    ensures spelled { IfSome result (λ lit. word.now ≡ signed_decimal lit) }
    ensures none { IfNone result ((l : ℤ) → is_literal_of vars l ≡ true → word.now ≡ signed_decimal l → ⊥) }
{
    match negated(word) {
        Some(rest) => Lit::new(-(variable(rest, vars)? as i32)),
        None => Lit::new(variable(word, vars)? as i32),
    }
}

/// The variable that the word spells.
fn variable(word: &[u8], vars: u32) -> Option<u32>
    requires { vars ≤ most_vars }
    ensures some { IfSome result (λ n. 0 < n) }
    ensures most { IfSome result (λ n. n ≤ vars) }
    ensures spelled { IfSome result (λ n. word.now ≡ decimal n) }
    ensures none { IfNone result ((n : ℕ) → 0 < n → n ≤ vars → word.now ≡ decimal n → ⊥) }
{
    let size = read_decimal(word, u64::from(vars))?;
    if size == 0 {
        return None;
    }
    Some(size as u32)
}

/// What stands behind a `-`.
fn negated(word: &[u8]) -> Option<&[u8]>
    ensures found { IfSome result (λ rest. word.now ≡ 45 ∷ rest.now) }
    ensures none { IfNone result ((rest : List ℕ) → word.now ≡ 45 ∷ rest → ⊥) }
{
    let (first, rest) = word.split_first()?;
    if *first == b'-' { Some(rest) } else { None }
}
