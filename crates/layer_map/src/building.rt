//! Trees of expressions.
//!
//! The readers call each other only as deep as `(` and `!` are open, which the limit bounds, and once for each factor or
//! product of a chain, which the limit on names of layers bounds.

ghost use Rattle.std.specs.Prelude.{◌≡◌, ℕ, true, false, List, [], ◌∷◌, ◌++◌, option_map, MatchOption, IfOk, IfSome, nat_le, length, ◌≤◌};
ghost use Rattle.layer_map.specs.Words.{words_of};
ghost use Rattle.layer_map.specs.Grammar.{Factor, factor_words, names_factor, depth_factor, Product, product_words, names_product, depth_product, Factors, factors_words, names_factors, depth_factors, Sum, sum_words, names_sum, depth_of, layers_in, Products, products_words, names_products, depth_products};
ghost use Rattle.layer_map.specs.Truth.{factor_means, product_means, factors_mean, means, products_mean, formula_of};
ghost use Rattle.layer_map.specs.Faults.{is_large};
ghost use Rattle.layer_map.specs.Readers.{parse, tree_of};
ghost use Rattle.layer_map.specs.Building.{built, EndsProduct, EndsSum};
ghost use Rattle.layer_map.specs.RowViews.{HasTree};

use crate::expr::Expr;
use crate::expressions::expression_of;
use crate::words::{behind, next_word};
use plane_geom::Short;
use std::alloc::{AllocError, Global};

/// The most names of layers in one expression.
const MOST_LAYERS: usize = 64;

/// The most `(` and `!` that are open round one place.
const MOST_OPEN: u32 = 32;

/// An expression and the bytes behind it, where it is within the limit.
type Built<'a> = Option<(Expr, &'a [u8])>;

/// A factor, with so much room for `(` and `!`.
#[cycle(expressions)]
fn factor(alloc: Global, room: u32, bytes: &[u8]) -> Result<Built<'_>, AllocError>
    ensures within { IfOk result (λ o. IfSome o (λ x. length x.1.now ≤ length bytes.now)) }
    ensures tree { (f : Factor) (tail : List (List ℕ)) → words_of true bytes.now ≡ factor_words f ++ tail → names_factor f ≡ true → IfOk result (λ o. option_map (λ x. (formula_of x.0, words_of true x.1.now)) o ≡ built (depth_factor f) room (factor_means f) tail) }
{
    if let Some(rest) = behind(b"!", bytes) {
        if room == 0 {
            return Ok(None);
        }
        let Some((expr, rest)) = factor(alloc, room - 1, rest)? else {
            return Ok(None);
        };
        return Ok(Some((Expr::Not(Box::new(alloc, expr)?), rest)));
    }
    if let Some(rest) = behind(b"(", bytes) {
        if room == 0 {
            return Ok(None);
        }
        return group(alloc, room - 1, rest);
    }
    let Some((word, rest)) = next_word(bytes) else {
        return Ok(None);
    };
    match Short::new(word) {
        None => Ok(None),
        Some(layer) => Ok(Some((Expr::Layer(layer), rest))),
    }
}

/// An expression and the `)` behind it.
#[cycle(expressions)]
fn group(alloc: Global, room: u32, bytes: &[u8]) -> Result<Built<'_>, AllocError>
    ensures within { IfOk result (λ o. IfSome o (λ x. length x.1.now ≤ length bytes.now)) }
    ensures tree { (s : Sum) (tail : List (List ℕ)) → words_of true bytes.now ≡ sum_words s ++ ((41 ∷ []) ∷ tail) → names_sum s ≡ true → IfOk result (λ o. option_map (λ x. (formula_of x.0, words_of true x.1.now)) o ≡ built (depth_of s) room (means s) tail) }
{
    let Some((expr, rest)) = sum(alloc, room, bytes)? else {
        return Ok(None);
    };
    match behind(b")", rest) {
        None => Ok(None),
        Some(rest) => Ok(Some((expr, rest))),
    }
}

/// A product, with so much room for `(` and `!`.
#[cycle(expressions)]
fn product(alloc: Global, room: u32, bytes: &[u8]) -> Result<Built<'_>, AllocError>
    ensures within { IfOk result (λ o. IfSome o (λ x. length x.1.now ≤ length bytes.now)) }
    ensures tree { (p : Product) (tail : List (List ℕ)) → words_of true bytes.now ≡ product_words p ++ tail → EndsProduct tail → names_product p ≡ true → IfOk result (λ o. option_map (λ x. (formula_of x.0, words_of true x.1.now)) o ≡ built (depth_product p) room (product_means p) tail) }
{
    match factor(alloc, room, bytes)? {
        None => Ok(None),
        Some((left, rest)) => more_factors(alloc, room, left, rest),
    }
}

/// What stands to the left, times any number of factors.
#[cycle(expressions)]
fn more_factors(alloc: Global, room: u32, left: Expr, bytes: &[u8]) -> Result<Built<'_>, AllocError>
    ensures within { IfOk result (λ o. IfSome o (λ x. length x.1.now ≤ length bytes.now)) }
    ensures tree { (fs : Factors) (tail : List (List ℕ)) → words_of true bytes.now ≡ factors_words fs ++ tail → EndsProduct tail → names_factors fs ≡ true → IfOk result (λ o. option_map (λ x. (formula_of x.0, words_of true x.1.now)) o ≡ built (depth_factors fs) room (factors_mean fs (formula_of left)) tail) }
{
    let Some(rest) = behind(b"*", bytes) else {
        return Ok(Some((left, bytes)));
    };
    let Some((right, rest)) = factor(alloc, room, rest)? else {
        return Ok(None);
    };
    let both = Expr::And(Box::new(alloc, left)?, Box::new(alloc, right)?);
    more_factors(alloc, room, both, rest)
}

/// A sum, with so much room for `(` and `!`.
#[cycle(expressions)]
fn sum(alloc: Global, room: u32, bytes: &[u8]) -> Result<Built<'_>, AllocError>
    ensures within { IfOk result (λ o. IfSome o (λ x. length x.1.now ≤ length bytes.now)) }
    ensures tree { (s : Sum) (tail : List (List ℕ)) → words_of true bytes.now ≡ sum_words s ++ tail → EndsSum tail → names_sum s ≡ true → IfOk result (λ o. option_map (λ x. (formula_of x.0, words_of true x.1.now)) o ≡ built (depth_of s) room (means s) tail) }
{
    match product(alloc, room, bytes)? {
        None => Ok(None),
        Some((left, rest)) => more_products(alloc, room, left, rest),
    }
}

/// What stands to the left, plus any number of products.
#[cycle(expressions)]
fn more_products(
    alloc: Global,
    room: u32,
    left: Expr,
    bytes: &[u8],
) -> Result<Built<'_>, AllocError>
    ensures within { IfOk result (λ o. IfSome o (λ x. length x.1.now ≤ length bytes.now)) }
    ensures tree { (ps : Products) (tail : List (List ℕ)) → words_of true bytes.now ≡ products_words ps ++ tail → EndsSum tail → names_products ps ≡ true → IfOk result (λ o. option_map (λ x. (formula_of x.0, words_of true x.1.now)) o ≡ built (depth_products ps) room (products_mean ps (formula_of left)) tail) }
{
    let Some(rest) = behind(b"+", bytes) else {
        return Ok(Some((left, bytes)));
    };
    let Some((right, rest)) = product(alloc, room, rest)? else {
        return Ok(None);
    };
    let either = Expr::Or(Box::new(alloc, left)?, Box::new(alloc, right)?);
    more_products(alloc, room, either, rest)
}

/// Whether the expression has few enough names of layers.
fn has_few_layers(bytes: &[u8]) -> bool
    requires { HasTree bytes.now }
    ensures { result ≡ nat_le (layers_in (tree_of (words_of true bytes.now))) 64 }
{
    match expression_of(bytes) {
        None => false,
        Some((layers, _)) => layers <= MOST_LAYERS,
    }
}

/// The expression with which the bytes begin, or none where it passes a limit.
pub(crate) fn build(alloc: Global, bytes: &[u8]) -> Result<Option<Expr>, AllocError>
    requires { HasTree bytes.now }
    ensures { IfOk result (λ o. MatchOption o (is_large (tree_of (words_of true bytes.now)) ≡ true) (λ e. (is_large (tree_of (words_of true bytes.now)) ≡ false) × (formula_of e ≡ means (tree_of (words_of true bytes.now))))) }
{
    if !has_few_layers(bytes) {
        return Ok(None);
    }
    match sum(alloc, MOST_OPEN, bytes)? {
        None => Ok(None),
        Some((expr, _)) => Ok(Some(expr)),
    }
}
