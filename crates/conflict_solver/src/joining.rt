//! Clauses that join a search: those that are given, and those that a conflict teaches.

ghost use Rattle.std.specs.Prelude.{◌≡◌, ◌≢◌, ◌<◌, ◌+◌, [], ◌∷◌, ◌++◌, length, true, false, neg_ℤ, OnOk, IfOk, IfSome, IfNone, Contains};
ghost use Rattle.clause_base.specs.Formulas.{IsClauseWithin};
ghost use Rattle.clause_base.specs.Literals.{is_in, lit_at};
ghost use Rattle.search_trail.specs.Trails.{IsReason, with_clause, with_implied};
ghost use Rattle.search_trail.specs.Learning.{IsLearnt, IsAsserting, IsJump};
ghost use Rattle.clause_watches.specs.Watching.{AreWatched, IsConflict, with_pair};
ghost use Rattle.conflict_solver.specs.Joining.{ListsOnly, AreFirsts, HasJoined, HasGiven, pair_at};

use crate::levels::back_to;
use clause_base::Lit;
use clause_watches::Watches;
use search_trail::Trail;
use std::alloc::AllocError;

/// The first literal of a clause, and the first that differs from it.
#[derive(Clone, Copy, Debug, PartialEq, Eq)]
pub(crate) enum Firsts {
    /// The clause is empty.
    Nothing,
    /// The clause lists this literal alone, perhaps more than once.
    Sole(Lit),
    /// The clause has these two literals.
    Pair(Lit, Lit),
}

/// The first two literals of the clause that differ.
fn firsts_of(clause: &[Lit]) -> Firsts
    ensures { AreFirsts clause.now result }
{
    let Some(first) = clause.first().copied() else {
        return Firsts::Nothing;
    };
    match other_than(clause, first) {
        Some(second) => Firsts::Pair(first, second),
        None => Firsts::Sole(first),
    }
}

/// A literal of the clause other than this one.
fn other_than(clause: &[Lit], first: Lit) -> Option<Lit>
    ensures there { IfSome result (λ second. Contains clause.now second) }
    ensures differ { IfSome result (λ second. first ≢ second) }
    ensures none { IfNone result (ListsOnly clause.now first) }
{
    for lit in clause {
        if is_other(*lit, first) {
            return Some(*lit);
        }
    }
    None
}

/// Whether two literals differ.
fn is_other(lit: Lit, first: Lit) -> bool
    ensures yes { result ≡ true → first ≢ lit }
    ensures no { result ≡ false → lit ≡ first }
{
    lit != first
}

/// Adds a clause that is given, before a level begins and before a literal is gone through. The answer is the number of
/// a clause that is false: the one that was found before, or this one.
pub(crate) fn give(
    trail: &mut Trail,
    watches: &mut Watches,
    clause: &[Lit],
    conflict: Option<usize>,
) -> Result<Option<usize>, AllocError>
    requires within { IsClauseWithin trail.old.vars clause.now }
    requires ground { trail.old.starts ≡ [] }
    requires head { watches.old.head ≡ 0 }
    requires kept { IfNone conflict (AreWatched trail.old watches.old) }
    requires failed { IfSome conflict (IsConflict trail.old) }
    ensures { IfOk result (HasGiven trail.old trail.new watches.new clause.now) }
{
    match conflict {
        None => give_first(trail, watches, clause),
        Some(number) => {
            trail.add(clause)?;
            Ok(Some(number))
        }
    }
}

/// Adds a clause that is given, where none was found that is false.
fn give_first(
    trail: &mut Trail,
    watches: &mut Watches,
    clause: &[Lit],
) -> Result<Option<usize>, AllocError>
    requires within { IsClauseWithin trail.old.vars clause.now }
    requires ground { trail.old.starts ≡ [] }
    requires head { watches.old.head ≡ 0 }
    requires kept { AreWatched trail.old watches.old }
    ensures { IfOk result (HasGiven trail.old trail.new watches.new clause.now) }
{
    match firsts_of(clause) {
        Firsts::Nothing => give_empty(trail, watches, clause),
        Firsts::Sole(lit) => give_sole(trail, watches, clause, lit),
        Firsts::Pair(first, second) => give_pair(trail, watches, clause, first, second),
    }
}

/// Adds the empty clause, which is false.
fn give_empty(
    trail: &mut Trail,
    watches: &Watches,
    clause: &[Lit],
) -> Result<Option<usize>, AllocError>
    requires empty { clause.now ≡ [] }
    requires within { IsClauseWithin trail.old.vars clause.now }
    requires ground { trail.old.starts ≡ [] }
    requires head { watches.now.head ≡ 0 }
    ensures { IfOk result (HasGiven trail.old trail.new watches.now clause.now) }
{
    trail.add(clause)?;
    Ok(Some(trail.clauses()))
}

/// Adds a clause of one literal, and makes it true, unless it is false.
fn give_sole(
    trail: &mut Trail,
    watches: &mut Watches,
    clause: &[Lit],
    lit: Lit,
) -> Result<Option<usize>, AllocError>
    requires there { Contains clause.now lit }
    requires sole { ListsOnly clause.now lit }
    requires within { IsClauseWithin trail.old.vars clause.now }
    requires ground { trail.old.starts ≡ [] }
    requires head { watches.old.head ≡ 0 }
    requires kept { AreWatched trail.old watches.old }
    ensures { IfOk result (HasGiven trail.old trail.new watches.new clause.now) }
{
    trail.add(clause)?;
    if trail.is_true(lit.negated()) {
        return Ok(Some(trail.clauses()));
    }
    if trail.is_true(lit) {
        watches.add(None)?;
        return Ok(None);
    }
    trail.imply(lit, trail.clauses())?;
    watches.add(None)?;
    Ok(None)
}

/// Adds a clause, watched at these two of its literals.
fn give_pair(
    trail: &mut Trail,
    watches: &mut Watches,
    clause: &[Lit],
    first: Lit,
    second: Lit,
) -> Result<Option<usize>, AllocError>
    requires first { Contains clause.now first }
    requires second { Contains clause.now second }
    requires differ { first ≢ second }
    requires within { IsClauseWithin trail.old.vars clause.now }
    requires ground { trail.old.starts ≡ [] }
    requires head { watches.old.head ≡ 0 }
    requires kept { AreWatched trail.old watches.old }
    ensures { IfOk result (HasGiven trail.old trail.new watches.new clause.now) }
{
    trail.add(clause)?;
    watches.add(Some((first, second)))?;
    Ok(None)
}

/// Takes back the levels above that of the jump, and adds the clause that was learnt: its first literal is true then.
pub(crate) fn learn(
    trail: &mut Trail,
    watches: &mut Watches,
    lits: &[Lit],
    level: usize,
) -> Result<(), AllocError>
    requires above { 0 < length trail.old.starts }
    requires kept { AreWatched trail.old watches.old }
    requires learnt { IsLearnt trail.old lits.now }
    requires asserting { IsAsserting trail.old lits.now }
    requires jump { IsJump trail.old lits.now level }
    ensures joined { OnOk result (HasJoined trail.old trail.new lits.now) }
    ensures kept { OnOk result (AreWatched trail.new watches.new) }
{
    back_to(trail, watches, level);
    join_learnt(trail, watches, lits)
}

/// Adds a clause that was learnt, by which its first literal is true.
fn join_learnt(trail: &mut Trail, watches: &mut Watches, lits: &[Lit]) -> Result<(), AllocError>
    requires some { 0 < length lits.now }
    requires within { IsClauseWithin trail.old.vars lits.now }
    requires vars { watches.old.vars ≡ trail.old.vars }
    requires reason { IsReason (trail.old.clauses ++ lits.now ∷ []) trail.old.lits (lit_at lits.now 0) (length trail.old.clauses + 1) }
    requires unset { is_in trail.old.lits (lit_at lits.now 0) ≡ false }
    requires unset_negated { is_in trail.old.lits (neg_ℤ (lit_at lits.now 0)) ≡ false }
    ensures trail { OnOk result (trail.new ≡ with_implied (with_clause trail.old lits.now) (lit_at lits.now 0) (length trail.old.clauses + 1)) }
    ensures watches { OnOk result (watches.new ≡ with_pair watches.old (pair_at lits.now)) }
{
    trail.add(lits)?;
    trail.imply(lits[0], trail.clauses())?;
    watches.add(first_two(lits))
}

/// The first two literals.
fn first_two(lits: &[Lit]) -> Option<(Lit, Lit)>
    ensures same { result ≡ pair_at lits.now }
    ensures first { IfSome result (λ pair. Contains lits.now pair.0) }
    ensures second { IfSome result (λ pair. Contains lits.now pair.1) }
{
    match lits {
        [first, second, ..] => Some((*first, *second)),
        _ => None,
    }
}
