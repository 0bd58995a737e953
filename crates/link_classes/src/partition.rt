//! The classes of numbers that pairs link.

ghost use Rattle.std.specs.Prelude.{◌≡◌, ℕ, ◌<◌, All, IfOk, length};
ghost use Rattle.link_classes.specs.Classes.{has_pair, AreClasses};
ghost use Rattle.link_classes.specs.Forest.{IsForest, AreNumberedTrees};

use crate::forest::{join, singletons};
use std::alloc::{AllocError, Global};

/// The classes of the numbers below a size, as the definition `AreClasses` says.
#[derive(Debug, Drop)]
pub struct Classes {
    /// The number of the class of each number. Classes are numbered from 0 in the order of their least members.
    pub label: Vec<usize>,
    /// The least member of each class.
    pub least: Vec<usize>,
}

/// The classes of the numbers below `size`, where the two numbers of each pair touch.
///
/// It takes nearly linear time and two words of memory for each number, and fails only where no memory is found.
pub fn classes_of(
    alloc: Global,
    size: usize,
    pairs: &[(usize, usize)],
) -> Result<Classes, AllocError>
    requires { All (λ p. (p.0 < size) × (p.1 < size)) pairs.now }
    ensures { IfOk result (λ found. AreClasses size (has_pair pairs.now) found.label.items found.least.items) }
{
    let mut parents = singletons(alloc, size)?;
    for (a, b) in pairs {
        join(&mut parents, *a, *b);
    }
    numbered(alloc, parents.as_slice())
}

/// Numbers the trees in the order of their roots.
fn numbered(alloc: Global, parents: &[usize]) -> Result<Classes, AllocError>
    requires { IsForest (length parents.now) parents.now }
    ensures each { IfOk result (λ found. length found.label.items ≡ length parents.now) }
    ensures numbered { IfOk result (λ found. AreNumberedTrees parents.now found.label.items found.least.items) }
{
    let mut label = Vec::new(alloc);
    let mut least = Vec::new(alloc);
    for (x, parent) in parents.iter().enumerate() {
        if *parent == x {
            label.push(least.len())?;
            least.push(x)?;
        } else {
            label.push(label[*parent])?;
        }
    }
    Ok(Classes { label, least })
}
