//! What becomes of a clause whose watched literal is false.

ghost use Rattle.std.specs.Prelude.{◌≡◌, ◌≢◌, ◌<◌, ◌≤◌, ◌+◌, ◌⊎◌, ℕ, ℤ, Some, None, length, true, false, neg_ℤ, nat_abs, OnOk, IfOk, IfSome, IfNone, Contains, All};
ghost use Rattle.clause_base.specs.Literals.{is_in};
ghost use Rattle.clause_base.specs.Formulas.{IsClauseWithin};
ghost use Rattle.clause_base.specs.Teaching.{AllButNegated};
ghost use Rattle.clause_watches.specs.Listing.{pair_of, list_of};
ghost use Rattle.clause_watches.specs.Watching.{AreWatched, HasGrown, IsConflict};
ghost use Rattle.clause_watches.specs.Visiting.{IsReplacement, IsAction, watched_at};

use crate::lists::Lists;
use clause_base::Lit;
use search_trail::Trail;
use std::alloc::AllocError;

/// What to do with a clause, one of whose watched literals has become false.
#[derive(Clone, Copy, Debug, PartialEq, Eq)]
pub(crate) enum Action {
    /// Its watches stay.
    Stays,
    /// It is watched at the first literal in place of the one that is false, and at the second as before.
    Moves(Lit, Lit),
    /// The literal is the only one that isn't false.
    Implies(Lit),
    /// All its literals are false.
    Conflicts,
}

/// Goes through the clauses that are watched at the negation of the literal at the head: the number of one that is
/// false, or `None` where each is kept with the head passed.
pub(crate) fn visit(
    lists: &mut Lists,
    trail: &mut Trail,
    head: usize,
) -> Result<Option<usize>, AllocError>
    requires inside { head < length trail.old.lits }
    requires kept { AreWatched trail.old (watched_at lists.old head) }
    ensures grown { OnOk result (HasGrown trail.old trail.new) }
    ensures kept { OnOk result (AreWatched trail.new (watched_at lists.new head)) }
    ensures passed { IfOk result (λ found. IfNone found (AreWatched trail.new (watched_at lists.new (head + 1)))) }
    ensures conflict { IfOk result (λ found. IfSome found (IsConflict trail.new)) }
{
    let gone = trail.lits()[head].negated();
    let mut index = lists.count(gone);
    while index > 0 {
        index -= 1;
        let number = lists.number(gone, index);
        let Some(pair) = lists.pair(number) else {
            continue;
        };
        match action_of(trail, trail.clause(number), pair, gone) {
            Action::Stays => {}
            Action::Moves(to, other) => lists.shift(gone, index, to, other)?,
            Action::Implies(other) => trail.imply(other, number)?,
            Action::Conflicts => return Ok(Some(number)),
        }
    }
    Ok(None)
}

/// Another literal of the clause that isn't false.
fn find(trail: &Trail, clause: &[Lit], other: Lit) -> Option<Lit>
    ensures some { IfSome result (λ to. IsReplacement trail.now clause.now other to) }
    ensures none { IfNone result (AllButNegated (is_in trail.now.lits) clause.now other) }
{
    for lit in clause {
        if is_replacement(trail, *lit, other) {
            return Some(*lit);
        }
    }
    None
}

/// Whether the literal isn't false, and not this one.
fn is_replacement(trail: &Trail, lit: Lit, other: Lit) -> bool
    ensures differ { result ≡ true → lit ≢ other }
    ensures standing { result ≡ true → is_in trail.now.lits (neg_ℤ lit) ≡ false }
    ensures no { result ≡ false → (lit ≡ other) ⊎ (is_in trail.now.lits (neg_ℤ lit) ≡ true) }
{
    lit != other && !trail.is_true(lit.negated())
}

/// The other watched literal of a clause.
fn other_of(pair: (Lit, Lit), gone: Lit) -> Option<Lit>
    ensures some { IfSome result (λ other. (pair ≡ (gone, other)) ⊎ (pair ≡ (other, gone))) }
    ensures none { IfNone result ((pair.0 ≢ gone) × (pair.1 ≢ gone)) }
{
    if pair.0 == gone {
        Some(pair.1)
    } else if pair.1 == gone {
        Some(pair.0)
    } else {
        None
    }
}

/// What to do with a clause that is watched at these literals, where this one has become false.
fn action_of(trail: &Trail, clause: &[Lit], pair: (Lit, Lit), gone: Lit) -> Action
    ensures { IsAction trail.now clause.now pair gone result }
{
    let Some(other) = other_of(pair, gone) else {
        return Action::Stays;
    };
    if trail.is_true(other) {
        return Action::Stays;
    }
    if let Some(to) = find(trail, clause, other) {
        return Action::Moves(to, other);
    }
    if trail.is_true(other.negated()) {
        Action::Conflicts
    } else {
        Action::Implies(other)
    }
}
