//! Rows: the ends of their spans, and the joined row of two.

ghost use Rattle.std.specs.Prelude.{◌≡◌, ◌^◌, ◌-◌, ◌<◌, ◌≤◌, ◌⊎◌, ℤ, ◌≤ℤ◌, ◌<ℤ◌, Bool, true, length, take, OnOk, IfSome};
ghost use Rattle.std.specs.List.{All};
ghost use Rattle.plane_geom.specs.Bounds.{IsWithin};
ghost use Rattle.plane_geom.specs.Ends.{is_odd, flips};
ghost use Rattle.mask_region.specs.Joins.{joined};
ghost use Rattle.mask_region.specs.Rows.{end_at, IsRising, IsRow, IsNextEnd, IsPast, IsTurned, IsBelowFrom, IsSkipped, IsCommon, IsSameEnd};

use std::alloc::AllocError;

/// How two sets are joined: what is in one of them, what is in both, or what is in the first alone.
#[derive(Clone, Copy, Debug, PartialEq, Eq)]
pub(crate) enum Joining {
    Union,
    Meet,
    Minus,
}

impl Joining {
    /// Whether something is in the joined set, where it is or isn't in the first and in the second.
    fn of(self, first: bool, second: bool) -> bool
        ensures { result ≡ joined self first second }
    {
        match self {
            Joining::Union => first || second,
            Joining::Meet => first && second,
            Joining::Minus => first && !second,
        }
    }

    /// Whether the first set settles the joined one where something is in it, or where it is not.
    pub(crate) fn settling_first(self) -> bool
        ensures { (p q : Bool) → joined self result p ≡ joined self result q }
    {
        match self {
            Joining::Union => true,
            Joining::Meet | Joining::Minus => false,
        }
    }

    /// Whether the second set settles the joined one where something is in it, or where it is not.
    pub(crate) fn settling_second(self) -> bool
        ensures { (p q : Bool) → joined self p result ≡ joined self q result }
    {
        match self {
            Joining::Union | Joining::Minus => true,
            Joining::Meet => false,
        }
    }

    /// The index in `b` behind the ends that change nothing, since `a` settles what is joined up to its end with
    /// index `i`.
    fn skip_second(self, a: &[i32], i: usize, b: &[i32], j: usize) -> usize
        requires rising { IsRising b.now }
        requires in_range { j ≤ length b.now }
        ensures skipped { IsSkipped b.now j a.now i result }
        ensures settled { j < result → (p q : Bool) → joined self (is_odd i) p ≡ joined self (is_odd i) q }
    {
        if (i % 2 == 1) == self.settling_first() {
            skip(b, j, a, i)
        } else {
            j
        }
    }

    /// The index in `a` behind the ends that change nothing, since `b` settles what is joined up to its end with
    /// index `j`.
    fn skip_first(self, a: &[i32], i: usize, b: &[i32], j: usize) -> usize
        requires rising { IsRising a.now }
        requires in_range { i ≤ length a.now }
        ensures skipped { IsSkipped a.now i b.now j result }
        ensures settled { i < result → (p q : Bool) → joined self p (is_odd j) ≡ joined self q (is_odd j) }
    {
        if (j % 2 == 1) == self.settling_second() {
            skip(a, i, b, j)
        } else {
            i
        }
    }
}

/// Writes the ends of the joined row, where `a` and `b` are the ends of two rows. Behind an end that changes nothing, the
/// ends of a row are skipped as far as the other row settles what is joined.
pub(crate) fn join_rows(
    op: Joining,
    a: &[i32],
    b: &[i32],
    out: &mut Vec<i32>,
) -> Result<(), AllocError>
    requires first { IsRow a.now }
    requires second { IsRow b.now }
    ensures row { OnOk result (IsRow out.new.items) }
    ensures cells { OnOk result ((x : ℤ) → flips out.new.items x ≡ joined op (flips a.now x) (flips b.now x)) }
{
    out.clear();
    let mut i = 0;
    let mut j = 0;
    while let Some(x) = next_end(a, i, b, j) {
        i = past(a, i, x);
        j = past(b, j, x);
        let count = out.len();
        turn(out, x, op.of(i % 2 == 1, j % 2 == 1))?;
        if out.len() > count {
            continue;
        }
        j = op.skip_second(a, i, b, j);
        i = op.skip_first(a, i, b, j);
    }
    Ok(())
}

/// Whether the rows `old` and `new` are alike wherever `other` is not as `settling` says. Where the two differ, up to the
/// next end of them, one binary search shows whether `other` is as it says all the way.
pub(crate) fn are_alike_but(old: &[i32], new: &[i32], other: &[i32], settling: bool) -> bool
    requires old { IsRow old.now }
    requires new { IsRow new.now }
    requires other { IsRow other.now }
    ensures { result ≡ true → (x : ℤ) → (flips old.now x ≡ flips new.now x) ⊎ (flips other.now x ≡ settling) }
{
    let same = common_ends(old, new);
    let mut i = same;
    let mut j = same;
    while let Some(x) = next_end(old, i, new, j) {
        i = past(old, i, x);
        j = past(new, j, x);
        if i % 2 == j % 2 {
            continue;
        }
        if !is_all(other, x, next_end(old, i, new, j), settling) {
            return false;
        }
    }
    true
}

/// With how many ends that are the same two rows begin.
fn common_ends(a: &[i32], b: &[i32]) -> usize
    ensures { IsCommon a.now b.now result }
{
    let mut k = 0;
    while is_same_end(a, b, k) {
        k += 1;
    }
    k
}

/// Whether two rows have an end with index `k`, and it is the same.
fn is_same_end(a: &[i32], b: &[i32], k: usize) -> bool
    ensures { result ≡ true → IsSameEnd a.now b.now k }
{
    if k >= a.len() {
        return false;
    }
    if k >= b.len() {
        return false;
    }
    a[k] == b[k]
}

/// Whether the row is on, or off, as `on` says, all the way from `left` up to `right`; `None` is the end of the line.
fn is_all(ends: &[i32], left: i32, right: Option<i32>, on: bool) -> bool
    requires { IsRow ends.now }
    ensures { result ≡ true → (z : ℤ) → left ≤ℤ z → IfSome right (λ r. z <ℤ r) → flips ends.now z ≡ on }
{
    let k = first_from(ends, 0, left.saturating_add(1));
    if (k % 2 == 1) != on {
        return false;
    }
    if !is_up_to(ends, k, left) {
        return false;
    }
    match right {
        Some(limit) => is_from(ends, k, limit),
        None => k >= ends.len(),
    }
}

/// Whether the ends up to index `k` lie at `x` or before.
fn is_up_to(ends: &[i32], k: usize, x: i32) -> bool
    requires rising { IsRising ends.now }
    requires in_range { k ≤ length ends.now }
    ensures { result ≡ true → 0 < k → end_at ends.now (k - 1) ≤ℤ x }
{
    k == 0 || ends[k - 1] <= x
}

/// Whether the ends from index `k` on lie at `x` or behind.
fn is_from(ends: &[i32], k: usize, x: i32) -> bool
    requires rising { IsRising ends.now }
    ensures { result ≡ true → k < length ends.now → x ≤ℤ end_at ends.now k }
{
    k >= ends.len() || x <= ends[k]
}

/// The least end of `a` from index `i` on and of `b` from index `j` on.
fn next_end(a: &[i32], i: usize, b: &[i32], j: usize) -> Option<i32>
    ensures none { result ≡ None → (length a.now ≤ i) × (length b.now ≤ j) }
    ensures some { IfSome result (λ x. IsNextEnd a.now i b.now j x) }
{
    if i >= a.len() {
        return b.get(j).copied();
    }
    if j >= b.len() {
        return a.get(i).copied();
    }
    Some(if a[i] < b[j] { a[i] } else { b[j] })
}

/// The index behind the end with index `k`, where that end is at `x`, else `k`.
fn past(ends: &[i32], k: usize, x: i32) -> usize
    requires in_range { k ≤ length ends.now }
    requires rising { IsRising ends.now }
    requires ahead { k < length ends.now → x ≤ℤ end_at ends.now k }
    requires before { All (λ t. t <ℤ x) (take k ends.now) }
    ensures { IsPast ends.now k x result }
{
    if k < ends.len() && ends[k] == x {
        k + 1
    } else {
        k
    }
}

/// Puts an end at `x` where what is behind the ends so far isn't `on` already.
fn turn(ends: &mut Vec<i32>, x: i32, on: bool) -> Result<(), AllocError>
    requires near { IsWithin (2 ^ 25) x }
    requires rising { IsRising ends.old.items }
    requires before { All (λ t. t <ℤ x) ends.old.items }
    ensures { OnOk result (IsTurned ends.old.items ends.new.items x on) }
{
    if (ends.len() % 2 == 1) != on {
        ends.push(x)?;
    }
    Ok(())
}

/// The index of the first end from index `k` on that does not lie below the end of `other` with index `l`; behind all
/// ends, where `other` has no such end.
fn skip(ends: &[i32], k: usize, other: &[i32], l: usize) -> usize
    requires rising { IsRising ends.now }
    requires in_range { k ≤ length ends.now }
    ensures { IsSkipped ends.now k other.now l result }
{
    match other.get(l) {
        Some(limit) => first_from(ends, k, *limit),
        None => ends.len(),
    }
}

/// The index of the first end from index `k` on that does not lie below `limit`. The search goes on by steps twice as
/// long each time, and then halves the last one: it is the faster the nearer that end is.
fn first_from(ends: &[i32], k: usize, limit: i32) -> usize
    requires in_range { k ≤ length ends.now }
    ensures { IsBelowFrom ends.now k limit result }
{
    let mut low = k;
    while is_below(ends, 2 * low - k, limit) {
        low = 2 * low - k + 1;
    }
    let mut high = if 2 * low - k < ends.len() {
        2 * low - k
    } else {
        ends.len()
    };
    while low < high {
        let middle = low + (high - low) / 2;
        if ends[middle] < limit {
            low = middle + 1;
        } else {
            high = middle;
        }
    }
    low
}

/// Whether there is an end with index `k`, below `limit`.
fn is_below(ends: &[i32], k: usize, limit: i32) -> bool
    ensures { result ≡ true → (k < length ends.now) × (end_at ends.now k <ℤ limit) }
{
    k < ends.len() && ends[k] < limit
}
