//! Trees of numbers that are joined: each number has a parent, and a root is its own.

ghost use Rattle.std.specs.Prelude.{◌≡◌, ℕ, ◌<◌, ◌≤◌, Bool, IfOk, length, slice_index};
ghost use Rattle.link_classes.specs.Forest.{IsForest, IsLinkedForest, HasClimbed, AreJoinedTrees};

use std::alloc::{AllocError, Global};

/// Each number below the size as a tree of its own.
pub(crate) fn singletons(alloc: Global, size: usize) -> Result<Vec<usize>, AllocError>
    ensures forest { IfOk result (λ parents. IsForest size parents.items) }
    ensures linked { IfOk result (λ parents. (touch : ℕ → ℕ → Bool) → IsLinkedForest touch parents.items) }
{
    (0..size).collect(alloc)
}

/// The root of the tree of `x`. On the way there each second number is hung up higher.
pub(crate) fn root_of(parents: &mut Vec<usize>, x: usize) -> usize
    requires forest { IsForest (length parents.old.items) parents.old.items }
    requires inside { x < length parents.old.items }
    ensures climbed { HasClimbed parents.old.items parents.new.items x result }
    ensures root { slice_index parents.new.items result ≡ result }
{
    let mut at = x;
    while parents[at] != at {
        let above = parents[parents[at]];
        parents[at] = above;
        at = above;
    }
    at
}

/// Joins the trees of two numbers.
pub(crate) fn join(parents: &mut Vec<usize>, a: usize, b: usize)
    requires forest { IsForest (length parents.old.items) parents.old.items }
    requires a_inside { a < length parents.old.items }
    requires b_inside { b < length parents.old.items }
    ensures { AreJoinedTrees parents.old.items parents.new.items a b }
{
    let first = root_of(parents, a);
    let second = root_of(parents, b);
    parents[first.max(second)] = first.min(second);
}
