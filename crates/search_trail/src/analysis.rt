//! The clause that is learnt from a conflict, with its hints and the level to go back to.

ghost use Rattle.std.specs.Prelude.{◌≡◌, ◌<◌, ◌≤◌, ℕ, [], length, true, neg_ℤ, IfOk, All};
ghost use Rattle.clause_base.specs.Literals.{is_in};
ghost use Rattle.clause_base.specs.Teaching.{Teaches};
ghost use Rattle.refutation_check.specs.Following.{IsNumber, numbered, Follows};
ghost use Rattle.search_trail.specs.Trails.{start_at};
ghost use Rattle.search_trail.specs.Walking.{falses};
ghost use Rattle.search_trail.specs.Learning.{IsLearnt, IsAsserting, IsJump, IsDoneBelow};

use crate::trail::Trail;
use crate::walk::walk_down;
use clause_base::Lit;
use std::alloc::{AllocError, Global};

/// What a conflict teaches.
#[derive(Debug, Drop)]
pub struct Learnt {
    /// The clause. Its first literal is the one of the current level, its second one of the level to jump to.
    pub lits: Vec<Lit>,
    /// The numbers of the clauses by which it follows, in their order.
    pub hints: Vec<u64>,
    /// The level to jump back to.
    pub level: usize,
}

/// What follows from a clause whose literals are all false. On level 0 it is the empty clause. It fails only where no
/// memory is found.
pub fn analyse(alloc: Global, trail: &Trail, conflict: usize) -> Result<Learnt, AllocError>
    requires known { IsNumber trail.now.clauses conflict }
    requires failed { All (λ l. is_in trail.now.lits (neg_ℤ l) ≡ true) (numbered trail.now.clauses conflict) }
    ensures follows { IfOk result (λ learnt. Follows trail.now.clauses learnt.lits.items learnt.hints.items) }
    ensures lits { IfOk result (λ learnt. IsLearnt trail.now learnt.lits.items) }
    ensures level { IfOk result (λ learnt. IsJump trail.now learnt.lits.items learnt.level) }
    ensures empty { length trail.now.starts ≡ 0 → IfOk result (λ learnt. learnt.lits.items ≡ []) }
    ensures asserting { 0 < length trail.now.starts → IsDoneBelow trail.now → IfOk result (λ learnt. IsAsserting trail.now learnt.lits.items) }
    ensures teaches { 0 < length trail.now.starts → IsDoneBelow trail.now → IfOk result (λ learnt. Teaches trail.now.clauses learnt.lits.items) }
{
    let mut walk = walk_down(alloc, trail, conflict)?;
    walk.hints.reverse();
    let lits = negations(alloc, trail.lits(), walk.kept.as_slice())?;
    let level = jump_level(trail.starts(), walk.kept.as_slice());
    Ok(Learnt {
        lits,
        hints: walk.hints,
        level,
    })
}

/// The negations of the literals at these places.
fn negations(alloc: Global, lits: &[Lit], places: &[usize]) -> Result<Vec<Lit>, AllocError>
    requires { All (λ p. p < length lits.now) places.now }
    ensures { IfOk result (λ negated. negated.items ≡ falses lits.now places.now) }
{
    let mut negated = Vec::new(alloc);
    for place in places {
        negated.push(lits[*place].negated())?;
    }
    Ok(negated)
}

/// The level of the second place, or 0 where there is none.
fn jump_level(starts: &[usize], kept: &[usize]) -> usize
    ensures none { length kept.now < 2 → result ≡ 0 }
    ensures most { result ≤ length starts.now }
    ensures low { 2 ≤ length kept.now → (j : ℕ) → j < result → start_at starts.now j ≤ start_at kept.now 1 }
    ensures high { 2 ≤ length kept.now → result < length starts.now → start_at kept.now 1 < start_at starts.now result }
{
    if kept.len() < 2 {
        return 0;
    }
    level_of(starts, kept[1])
}

/// How many levels begin at this place or before it.
fn level_of(starts: &[usize], place: usize) -> usize
    ensures most { result ≤ length starts.now }
    ensures low { (j : ℕ) → j < result → start_at starts.now j ≤ place }
    ensures high { result < length starts.now → place < start_at starts.now result }
{
    let mut level = 0;
    while level < starts.len() && starts[level] <= place {
        level += 1;
    }
    level
}
