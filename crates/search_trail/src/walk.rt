//! The walk down a trail from a conflict: at each literal that the conflict rests on, it is kept or its reason takes
//! its place.

ghost use Rattle.std.specs.Prelude.{◌≡◌, ◌<◌, ◌≤◌, ◌+◌, ◌-◌, ℕ, ℤ, take, length, true, false, neg_ℤ, OnOk, IfOk, IfSome, IfNone, All};
ghost use Rattle.clause_base.specs.Literals.{is_in, lit_at};
ghost use Rattle.refutation_check.specs.Following.{IsNumber, numbered};
ghost use Rattle.search_trail.specs.Trails.{IsReason, IsSearch, start_at};
ghost use Rattle.search_trail.specs.Walking.{is_seen, MayStay, IsWalk};

use crate::trail::Trail;
use clause_base::Lit;
use std::alloc::{AllocError, Global};

/// How far a walk has come: the marked places, the places whose literals are kept, from the last to the first, and the
/// numbers of the clauses that were looked at.
#[derive(Debug, Drop)]
pub(crate) struct Walk {
    pub(crate) seen: Vec<bool>,
    pub(crate) kept: Vec<usize>,
    pub(crate) hints: Vec<u64>,
}

/// Marks the places that a clause rests on, all of whose literals are false.
fn begin(alloc: Global, trail: &Trail, conflict: usize) -> Result<Walk, AllocError>
    requires known { IsNumber trail.now.clauses conflict }
    requires failed { All (λ l. is_in trail.now.lits (neg_ℤ l) ≡ true) (numbered trail.now.clauses conflict) }
    ensures { IfOk result (λ walk. IsWalk trail.now walk.seen.items (length trail.now.lits) walk.kept.items walk.hints.items) }
{
    let size = trail.lits().len();
    let mut seen = vec![in alloc; false; size]?;
    mark(&mut seen, trail, trail.clause(conflict), size);
    let mut hints = Vec::new(alloc);
    hints.push(conflict as u64)?;
    Ok(Walk {
        seen,
        kept: Vec::new(alloc),
        hints,
    })
}

/// Walks from a conflict down to the begin of the trail.
pub(crate) fn walk_down(alloc: Global, trail: &Trail, conflict: usize) -> Result<Walk, AllocError>
    requires known { IsNumber trail.now.clauses conflict }
    requires failed { All (λ l. is_in trail.now.lits (neg_ℤ l) ≡ true) (numbered trail.now.clauses conflict) }
    ensures { IfOk result (λ walk. IsWalk trail.now walk.seen.items 0 walk.kept.items walk.hints.items) }
{
    let mut walk = begin(alloc, trail, conflict)?;
    let mut place = trail.lits().len();
    while place > 0 {
        place -= 1;
        step(&mut walk, trail, place)?;
    }
    Ok(walk)
}

/// Passes one place: where it is marked, its literal is kept, or the literals that made it true are marked.
fn step(walk: &mut Walk, trail: &Trail, place: usize) -> Result<(), AllocError>
    requires inside { place < length trail.now.lits }
    requires walk { IsWalk trail.now walk.old.seen.items (place + 1) walk.old.kept.items walk.old.hints.items }
    ensures { OnOk result (IsWalk trail.now walk.new.seen.items place walk.new.kept.items walk.new.hints.items) }
{
    if !walk.seen[place] {
        return Ok(());
    }
    if let Some(number) = resolvent(trail, walk.seen.as_slice(), place) {
        mark(&mut walk.seen, trail, trail.clause(number), place);
        walk.hints.push(number as u64)?;
    } else {
        walk.kept.push(place)?;
    }
    Ok(())
}

/// The reason that takes the place of the literal here, or `None` where it is kept. On level 0 none is kept. Of the
/// current level the one is kept on which alone the conflict rests. Of a level between, a literal is kept whose reason
/// would mark a further place.
fn resolvent(trail: &Trail, seen: &[bool], place: usize) -> Option<usize>
    requires inside { place < length trail.now.lits }
    requires size { length seen.now ≡ length trail.now.lits }
    ensures some { IfSome result (λ number. IsReason trail.now.clauses (take place trail.now.lits) (lit_at trail.now.lits place) number) }
    ensures none { IfNone result (MayStay trail.now.starts seen.now place) }
    ensures search { IsSearch trail.now }
{
    let starts = trail.starts();
    let Some(number) = trail.reason(place) else {
        return None;
    };
    if starts.is_empty() || place < starts[0] {
        return Some(number);
    }
    let is_kept = if place >= current_start(starts) {
        none_seen(seen, current_start(starts), place)
    } else {
        !all_seen(seen, trail, trail.clause(number))
    };
    if is_kept { None } else { Some(number) }
}

/// Where the current level begins.
fn current_start(starts: &[usize]) -> usize
    ensures { result ≡ start_at starts.now (length starts.now - 1) }
{
    starts.last().copied().unwrap_or(0)
}

/// Whether no place from one up to another is marked.
fn none_seen(seen: &[bool], start: usize, end: usize) -> bool
    requires { end ≤ length seen.now }
    ensures { result ≡ true → (q : ℕ) → start ≤ q → q < end → is_seen seen.now q ≡ false }
{
    let mut place = end;
    while place > start {
        place -= 1;
        if seen[place] {
            return false;
        }
    }
    true
}

/// Whether all places are marked on which the clause rests.
fn all_seen(seen: &[bool], trail: &Trail, clause: &[Lit]) -> bool {
    for lit in clause {
        if let Some(place) = trail.place(lit.negated()) {
            if seen.get(place) == Some(&false) {
                return false;
            }
        }
    }
    true
}

/// Marks the places before this one where negations of the clause's literals stand.
fn mark(seen: &mut Vec<bool>, trail: &Trail, clause: &[Lit], end: usize)
    requires size { length seen.old.items ≡ length trail.now.lits }
    ensures size { length seen.new.items ≡ length seen.old.items }
    ensures grown { (q : ℕ) → is_seen seen.old.items q ≡ true → is_seen seen.new.items q ≡ true }
    ensures others { (q : ℕ) → end ≤ q → is_seen seen.new.items q ≡ is_seen seen.old.items q }
    ensures marked { All (λ l. (q : ℕ) → q < end → q < length trail.now.lits → lit_at trail.now.lits q ≡ neg_ℤ l → is_seen seen.new.items q ≡ true) clause.now }
{
    for lit in clause {
        mark_lit(seen, trail, *lit, end);
    }
}

/// Marks the place of the literal's negation, if it is before this one.
fn mark_lit(seen: &mut Vec<bool>, trail: &Trail, lit: Lit, end: usize)
    requires size { length seen.old.items ≡ length trail.now.lits }
    ensures size { length seen.new.items ≡ length seen.old.items }
    ensures grown { (q : ℕ) → is_seen seen.old.items q ≡ true → is_seen seen.new.items q ≡ true }
    ensures others { (q : ℕ) → end ≤ q → is_seen seen.new.items q ≡ is_seen seen.old.items q }
    ensures marked { (q : ℕ) → q < end → q < length trail.now.lits → lit_at trail.now.lits q ≡ neg_ℤ lit → is_seen seen.new.items q ≡ true }
{
    if let Some(place) = trail.place(lit.negated()) {
        if place < end {
            seen[place] = true;
        }
    }
}
