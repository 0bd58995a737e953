//! The strips of two joined sets, made row by row.

ghost use Rattle.std.specs.Prelude.{◌≡◌, ◌^◌, ◌<◌, ◌≤◌, ℤ, [], true, pos, neg_ℤ, ◌≤ℤ◌, ◌<ℤ◌, ◌||◌, ◌&&◌, length, take, drop, OnOk, IfOk, IfSome};
ghost use Rattle.plane_geom.specs.Cells.{is_between};
ghost use Rattle.plane_geom.specs.Ends.{flips};
ghost use Rattle.mask_region.specs.Joins.{joined};
ghost use Rattle.mask_region.specs.Rows.{IsRow};
ghost use Rattle.mask_region.specs.Strips.{is_in, Banded};
ghost use Rattle.mask_region.specs.Sweeping.{AreAhead, ArePassed, IsEdge, IsRowOf, IsSteady, row_below, IsRowBelow, IsSplitAt, IsShown, is_shown};

use crate::ends::{Joining, are_alike_but, join_rows};
use crate::strips::Strip;
use std::alloc::{AllocError, Global};
use std::mem;

/// A row below all that a region may have, in mask units.
const BELOW: i32 = -33_554_433;

/// The strips of the joined set, where `a` and `b` are those of two sets. Rows that are alike are put into one band.
/// At each edge of a band a row is read where its set changes there, and the two rows are joined anew only where the
/// joined row may change.
pub(crate) fn join(
    alloc: Global,
    op: Joining,
    a: &[Strip],
    b: &[Strip],
) -> Result<Vec<Strip>, AllocError>
    requires a_banded { Banded a.now }
    requires b_banded { Banded b.now }
    ensures banded { IfOk result (λ v. Banded v.items) }
    ensures cells { IfOk result (λ v. (x y : ℤ) → is_in v.items x y ≡ joined op (is_in a.now x y) (is_in b.now x y)) }
{
    let mut first = Sweep::new(alloc);
    let mut second = Sweep::new(alloc);
    let mut row = Vec::new(alloc);
    let mut held = Vec::new(alloc);
    let mut out = Vec::new(alloc);
    let mut from = BELOW;
    let mut y = BELOW;
    while let Some(next) = next_edges(a, first.index, b, second.index, y) {
        first.advance(a, next)?;
        second.advance(b, next)?;
        y = next;
        if stays(op, &first, &second) {
            continue;
        }
        join_rows(op, first.row.as_slice(), second.row.as_slice(), &mut row)?;
        from = hold(&mut out, &mut held, from, y, &mut row)?;
    }
    put_row(&mut out, held.as_slice(), from, y)?;
    Ok(out)
}

/// The row behind `y` up to which the rows are like the row `y`, for the strips from index `i` on; `None` where there
/// are none.
fn next_edge(strips: &[Strip], i: usize, y: i32) -> Option<i32>
    requires banded { Banded strips.now }
    requires ahead { AreAhead (drop i strips.now) y }
    ensures none { result ≡ None → length strips.now ≤ i }
    ensures some { IfSome result (λ next. IsEdge (drop i strips.now) y next) }
{
    if i >= strips.len() {
        return None;
    }
    let strip = strips[i];
    Some(if y < strip.y0 { strip.y0 } else { strip.y1 })
}

/// The lesser of the two next edges.
fn next_edges(a: &[Strip], i: usize, b: &[Strip], j: usize, y: i32) -> Option<i32>
    requires a_banded { Banded a.now }
    requires b_banded { Banded b.now }
    requires a_ahead { AreAhead (drop i a.now) y }
    requires b_ahead { AreAhead (drop j b.now) y }
    ensures none { result ≡ None → (length a.now ≤ i) × (length b.now ≤ j) }
    ensures in_a { IfSome result (λ next. IsEdge (drop i a.now) y next) }
    ensures in_b { IfSome result (λ next. IsEdge (drop j b.now) y next) }
{
    let Some(p) = next_edge(a, i, y) else {
        return next_edge(b, j, y);
    };
    let Some(q) = next_edge(b, j, y) else {
        return Some(p);
    };
    Some(if p < q { p } else { q })
}

/// The index of the first strip that reaches above the row `y`.
fn pass(strips: &[Strip], i: usize, y: i32) -> usize
    requires in_range { i ≤ length strips.now }
    requires banded { Banded strips.now }
    requires passed { ArePassed (take i strips.now) y }
    ensures { IsSplitAt strips.now y result }
{
    for k in i..strips.len() {
        if strips[k].y1 > y {
            return k;
        }
    }
    strips.len()
}

/// A sweep over the strips of a set, from row to row.
#[derive(Debug, Drop)]
struct Sweep {
    /// The index of the first strip that reaches above the row.
    index: usize,
    /// The ends of the row.
    row: Vec<i32>,
    /// Whether the row was read anew, since a strip begins or ends there.
    is_new: bool,
    /// The ends of the row below, where the row was read anew.
    below: Vec<i32>,
}

impl Sweep {
    /// A sweep that is at a row below all strips.
    fn new(alloc: Global) -> Sweep
        ensures index { result.index ≡ 0 }
        ensures row { result.row.items ≡ [] }
    {
        Sweep {
            index: 0,
            row: Vec::new(alloc),
            is_new: false,
            below: Vec::new(alloc),
        }
    }

    /// Goes on to the row `y`, which is read anew where a strip begins or ends there.
    fn advance(&mut self, strips: &[Strip], y: i32) -> Result<(), AllocError>
        requires in_range { self.old.index ≤ length strips.now }
        requires banded { Banded strips.now }
        requires passed { ArePassed (take self.old.index strips.now) y }
        requires row { IsRow self.old.row.items }
        requires steady { IsSteady (drop self.old.index strips.now) y → IsRowOf (drop self.old.index strips.now) y self.old.row.items }
        ensures split { OnOk result (IsSplitAt strips.now y self.new.index) }
        ensures row { OnOk result (IsRowOf (drop self.new.index strips.now) y self.new.row.items) }
        ensures below { OnOk result (IsRowBelow self.new self.old.row.items) }
    {
        let index = pass(strips, self.index, y);
        let is_steady = is_steady(strips, self.index, index, y);
        self.index = index;
        self.is_new = !is_steady;
        if is_steady {
            return Ok(());
        }
        read_row(strips, index, y, &mut self.below)?;
        mem::swap(&mut self.row, &mut self.below);
        Ok(())
    }
}

/// Whether the joined row is known to be that of the row below: neither row is new, or one is new and the other settles
/// what is joined wherever the new row differs from the one below.
fn stays(op: Joining, a: &Sweep, b: &Sweep) -> bool
    requires row_a { IsRow a.now.row.items }
    requires row_b { IsRow b.now.row.items }
    requires below_a { a.now.is_new ≡ true → IsRow a.now.below.items }
    requires below_b { b.now.is_new ≡ true → IsRow b.now.below.items }
    ensures { result ≡ true → (x : ℤ) → joined op (flips (row_below a.now) x) (flips (row_below b.now) x) ≡ joined op (flips a.now.row.items x) (flips b.now.row.items x) }
{
    if a.is_new {
        if b.is_new {
            return false;
        }
        let settling = op.settling_second();
        return are_alike_but(
            a.below.as_slice(),
            a.row.as_slice(),
            b.row.as_slice(),
            settling,
        );
    }
    if b.is_new {
        let settling = op.settling_first();
        return are_alike_but(
            b.below.as_slice(),
            b.row.as_slice(),
            a.row.as_slice(),
            settling,
        );
    }
    true
}

/// Whether the strips from index `k` on are those from index `i` on, and none of them begins at the row `y`.
fn is_steady(strips: &[Strip], i: usize, k: usize, y: i32) -> bool
    requires banded { Banded strips.now }
    requires ahead { AreAhead (drop k strips.now) y }
    ensures { result ≡ true → (k ≡ i) × IsSteady (drop k strips.now) y }
{
    if k != i {
        return false;
    }
    match strips.get(k) {
        Some(strip) => strip.y0 != y,
        None => true,
    }
}

/// Writes the ends of the row `y`, where the strips from index `i` on reach above it.
fn read_row(strips: &[Strip], i: usize, y: i32, ends: &mut Vec<i32>) -> Result<(), AllocError>
    requires in_range { i ≤ length strips.now }
    requires banded { Banded strips.now }
    requires ahead { AreAhead (drop i strips.now) y }
    ensures { OnOk result (IsRowOf (drop i strips.now) y ends.new.items) }
{
    ends.clear();
    for k in i..strips.len() {
        let strip = strips[k];
        if strip.y0 > y {
            return Ok(());
        }
        ends.push(strip.x0)?;
        ends.push(strip.x1)?;
    }
    Ok(())
}

/// Adds the band from `y0` up to `y1` whose rows have these ends.
fn put_row(out: &mut Vec<Strip>, row: &[i32], y0: i32, y1: i32) -> Result<(), AllocError>
    requires low { 0 < length row.now → neg_ℤ (pos (2 ^ 25)) ≤ℤ y0 }
    requires high { y1 ≤ℤ pos (2 ^ 25) }
    requires row { IsRow row.now }
    requires banded { Banded out.old.items }
    requires passed { ArePassed out.old.items y0 }
    ensures banded { OnOk result (Banded out.new.items) }
    ensures passed { OnOk result (y0 ≤ℤ y1 → ArePassed out.new.items y1) }
    ensures cells { OnOk result ((x z : ℤ) → is_in out.new.items x z ≡ (is_in out.old.items x z || (flips row.now x && is_between y0 y1 z))) }
{
    if y0 >= y1 {
        return Ok(());
    }
    let mut k = 0;
    while k + 1 < row.len() {
        out.push(Strip {
            y0,
            y1,
            x0: row[k],
            x1: row[k + 1],
        })?;
        k += 2;
    }
    Ok(())
}

/// Where the ends of the row `y` are others than those of the band that is held back, puts that band and holds the
/// row back in its place. The answer is the row where the held band begins.
fn hold(
    out: &mut Vec<Strip>,
    held: &mut Vec<i32>,
    from: i32,
    y: i32,
    row: &mut Vec<i32>,
) -> Result<i32, AllocError>
    requires shown { IsShown out.old.items held.old.items from y }
    requires low { neg_ℤ (pos (2 ^ 25)) ≤ℤ y }
    requires high { y ≤ℤ pos (2 ^ 25) }
    requires row { IsRow row.old.items }
    ensures shown { IfOk result (λ r. IsShown out.new.items held.new.items r y) }
    ensures cells { IfOk result (λ r. (x z : ℤ) → is_shown out.new.items held.new.items r y x z ≡ is_shown out.old.items held.old.items from y x z) }
    ensures now { IfOk result (λ r. (x : ℤ) → flips held.new.items x ≡ flips row.old.items x) }
{
    if held.as_slice() == row.as_slice() {
        return Ok(from);
    }
    put_row(out, held.as_slice(), from, y)?;
    mem::swap(held, row);
    Ok(y)
}
