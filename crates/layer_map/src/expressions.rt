//! Expressions as they are spelled, without a tree.
//!
//! Whether words are an expression is told by one pass with a count of the open parentheses, and no recursion. So a
//! line that is not of the grammar is known as such however deep it is nested, and a tree is only made of an expression
//! that is within the limits.

ghost use Rattle.std.specs.Prelude.{◌≡◌, ◌+◌, ◌<◌, ◌^◌, true, Some, None, MatchOption, IfSome, not, ◌&&◌, ◌==◌};
ghost use Rattle.layer_map.specs.Words.{words_of};
ghost use Rattle.layer_map.specs.Grammar.{layers_in};
ghost use Rattle.layer_map.specs.Readers.{is_done as is_done_lem, factor_step as factor_step_lem, other_step as other_step_lem, step as step_lem, parse, tree_of};

use crate::words::next_word;
use plane_geom::Short;

/// What is known in the middle of an expression.
#[derive(Clone, Copy, Debug)]
pub(crate) struct Scan {
    /// Whether a factor must stand next.
    wants_factor: bool,
    /// How many parentheses are open.
    parens: usize,
    /// How many names of layers stood so far.
    layers: usize,
}

/// Whether the expression may end here.
fn is_whole(scan: Scan) -> bool
    ensures { result ≡ (not scan.wants_factor && scan.parens == 0) }
{
    !scan.wants_factor && scan.parens == 0
}

/// Whether the word is no part of the expression that goes up to it.
fn is_done(scan: Scan, word: &[u8]) -> bool
    ensures { result ≡ is_done_lem scan word.now }
{
    !scan.wants_factor && scan.parens == 0 && !(word == b"*".as_slice() || word == b"+".as_slice())
}

fn factor_step(scan: Scan, word: &[u8]) -> Option<Scan>
    requires parens { scan.parens + 1 < 2 ^ 64 }
    requires layers { scan.layers + 1 < 2 ^ 64 }
    ensures { result ≡ factor_step_lem scan word.now }
{
    if word == b"!".as_slice() {
        Some(scan)
    } else if word == b"(".as_slice() {
        Some(Scan {
            parens: scan.parens + 1,
            ..scan
        })
    } else if Short::new(word).is_some() {
        Some(Scan {
            wants_factor: false,
            parens: scan.parens,
            layers: scan.layers + 1,
        })
    } else {
        None
    }
}

fn other_step(scan: Scan, word: &[u8]) -> Option<Scan>
    ensures { result ≡ other_step_lem scan word.now }
{
    if word == b"*".as_slice() || word == b"+".as_slice() {
        Some(Scan {
            wants_factor: true,
            ..scan
        })
    } else if scan.parens == 0 {
        None
    } else if word == b")".as_slice() {
        Some(Scan {
            parens: scan.parens - 1,
            ..scan
        })
    } else {
        None
    }
}

/// What is known behind one word more, or none where it may not stand.
fn step(scan: Scan, word: &[u8]) -> Option<Scan>
    requires parens { scan.parens + 1 < 2 ^ 64 }
    requires layers { scan.layers + 1 < 2 ^ 64 }
    ensures { result ≡ step_lem scan word.now }
{
    if scan.wants_factor {
        factor_step(scan, word)
    } else {
        other_step(scan, word)
    }
}

/// How many names of layers stand in the expression with which the bytes begin, and the bytes behind it.
pub(crate) fn expression_of(bytes: &[u8]) -> Option<(usize, &[u8])>
    ensures read { MatchOption result (parse (words_of true bytes.now) ≡ None) (λ x. parse (words_of true bytes.now) ≡ Some (tree_of (words_of true bytes.now), words_of true x.1.now)) }
    ensures layers { IfSome result (λ x. x.0 ≡ layers_in (tree_of (words_of true bytes.now))) }
{
    let mut scan = Scan {
        wants_factor: true,
        parens: 0,
        layers: 0,
    };
    let mut rest = bytes;
    while let Some((word, behind)) = next_word(rest) {
        if is_done(scan, word) {
            return Some((scan.layers, rest));
        }
        let Some(next) = step(scan, word) else {
            return None;
        };
        scan = next;
        rest = behind;
    }
    if is_whole(scan) {
        Some((scan.layers, rest))
    } else {
        None
    }
}
