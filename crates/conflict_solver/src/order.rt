//! In which order variables are decided: the one that recent conflicts rested on most comes first. No contract speaks
//! of it, since each order gives a right verdict.

ghost use Rattle.std.specs.Prelude.{◌≡◌, ◌<◌, ◌+◌, length, IfSome};

use clause_base::Lit;
use std::alloc::{AllocError, Global};

/// Above this step all scores are made smaller.
const HIGHEST_STEP: u64 = 1 << 40;

/// By how many bits they are made smaller then.
const STEP_BITS: u32 = 24;

/// The variables that may be unset, in a heap by their scores, and the last value of each.
#[derive(Debug, Drop)]
pub(crate) struct Order {
    /// Variables; none has a greater score than the one at half its index.
    heap: Vec<u32>,
    /// For each variable its index in the heap, if it is there.
    indices: Vec<Option<usize>>,
    scores: Vec<u64>,
    /// What is added to a score for each place where the variable stands in a clause of the conflict.
    step: u64,
    /// Whether the variable was true when it was set last.
    was_true: Vec<bool>,
}

impl Order {
    /// The order of the variables from 1 to `vars`, all with the same score.
    pub(crate) fn new(alloc: Global, vars: u32) -> Result<Order, AllocError> {
        let count = vars as usize + 1;
        let mut order = Order {
            heap: Vec::new(alloc),
            indices: vec![in alloc; None; count]?,
            scores: vec![in alloc; 0; count]?,
            step: 1 << 16,
            was_true: vec![in alloc; false; count]?,
        };
        for variable in 1..=vars {
            order.put(variable)?;
        }
        Ok(order)
    }

    /// Takes out the variable that comes first.
    pub(crate) fn take(&mut self) -> Option<u32>
        ensures { IfSome result (λ _. length self.new.heap.items < length self.old.heap.items) }
    {
        let first = self.heap.first().copied()?;
        let last = self.heap.pop()?;
        self.place(0, last);
        self.sink(0);
        set_index(&mut self.indices, first, None);
        Some(first)
    }

    /// Whether the variable is to be tried as true first.
    pub(crate) fn prefers_true(&self, variable: u32) -> bool {
        self.was_true.get(variable as usize) == Some(&true)
    }

    /// Puts back the variables of literals that leave the trail.
    pub(crate) fn release(&mut self, lits: &[Lit]) -> Result<(), AllocError> {
        for lit in lits {
            let variable = lit.variable();
            if let Some(was_true) = self.was_true.get_mut(variable as usize) {
                *was_true = lit.value() > 0;
            }
            self.put(variable)?;
        }
        Ok(())
    }

    /// Begins the scores of one more conflict: those of earlier ones count less.
    pub(crate) fn begin_conflict(&mut self) {
        self.step = self.step.saturating_add(self.step / 49);
        if self.step > HIGHEST_STEP {
            self.step >>= STEP_BITS;
            for score in &mut self.scores {
                *score >>= STEP_BITS;
            }
        }
    }

    /// Raises the scores of the clause's variables.
    pub(crate) fn raise(&mut self, clause: &[Lit]) {
        for lit in clause {
            self.raise_variable(lit.variable());
        }
    }

    /// Raises the score of the variable, and moves it up in the heap where it is there.
    fn raise_variable(&mut self, variable: u32) {
        let place = variable as usize;
        let Some(score) = self.scores.get_mut(place) else {
            return;
        };
        *score = score.saturating_add(self.step);
        if let Some(Some(index)) = self.indices.get(place).copied() {
            self.rise(index);
        }
    }

    /// Puts the variable into the heap, where it isn't there.
    fn put(&mut self, variable: u32) -> Result<(), AllocError> {
        if self.indices.get(variable as usize) != Some(&None) {
            return Ok(());
        }
        let index = self.heap.len();
        self.heap.push(variable)?;
        self.place(index, variable);
        self.rise(index);
        Ok(())
    }

    /// Moves the variable at this index up, past those with a lesser score.
    fn rise(&mut self, from: usize) {
        let mut index = from;
        while index > 0 {
            let above = (index - 1) / 2;
            if self.score_at(above) >= self.score_at(index) {
                return;
            }
            self.exchange(above, index);
            index = above;
        }
    }

    /// Moves the variable at this index down, past those with a greater score.
    fn sink(&mut self, from: usize)
        ensures { length self.new.heap.items ≡ length self.old.heap.items }
    {
        let mut index = from;
        while let Some(below) = self.greater_below(index) {
            if self.score_at(index) >= self.score_at(below) {
                return;
            }
            self.exchange(index, below);
            index = below;
        }
    }

    /// The index below this one with the greater score.
    fn greater_below(&self, index: usize) -> Option<usize>
        ensures { IfSome result (λ below. (index < below) × (below < length self.now.heap.items)) }
    {
        let left = index.checked_mul(2)?.checked_add(1)?;
        if left >= self.heap.len() {
            return None;
        }
        let right = left + 1;
        if right < self.heap.len() && self.score_at(right) > self.score_at(left) {
            return Some(right);
        }
        Some(left)
    }

    /// The score of the variable at this index of the heap, 0 where there is none.
    fn score_at(&self, index: usize) -> u64 {
        let Some(variable) = self.heap.get(index).copied() else {
            return 0;
        };
        self.scores.get(variable as usize).copied().unwrap_or(0)
    }

    /// Lets the variables at these two indices change places.
    fn exchange(&mut self, one: usize, other: usize)
        ensures { length self.new.heap.items ≡ length self.old.heap.items }
    {
        let Some(first) = self.heap.get(one).copied() else {
            return;
        };
        let Some(second) = self.heap.get(other).copied() else {
            return;
        };
        self.place(one, second);
        self.place(other, first);
    }

    /// Writes the variable at this index.
    fn place(&mut self, index: usize, variable: u32)
        ensures { length self.new.heap.items ≡ length self.old.heap.items }
    {
        if let Some(place) = self.heap.get_mut(index) {
            *place = variable;
        }
        set_index(&mut self.indices, variable, Some(index));
    }
}

/// Notes where the variable stands in the heap.
fn set_index(indices: &mut Vec<Option<usize>>, variable: u32, index: Option<usize>) {
    if let Some(place) = indices.get_mut(variable as usize) {
        *place = index;
    }
}
