// When a device in memory fails, and how much a call of it moves.
ghost use Rattle.std.specs.Prelude.{◌≡◌, ◌<◌, IsTrue, ◌↔◌};
ghost use Rattle.probe_io.specs.Plan.{FaultPlanView, is_failing, after_call};

use std::marker::Model;

/// The calls that fail, by number from 0, the most bytes that a call moves, and the number of the next
/// call.
#[derive(Debug, Drop)]
pub struct FaultPlan {
    fail_at: Vec<u64>,
    step: usize,
    next: u64,
}

impl Model for FaultPlan {
    ghost use Rattle.std.specs.Prelude.{◌<◌};
    ghost use Rattle.probe_io.specs.Plan.{FaultPlanView};

    ghost Value = { FaultPlanView };

    ghost view = { λ s. record { fail_at = s.fail_at.items; step = s.step; next = s.next } };

    ghost invariant = { λ s. 0 < s.step };
}

impl FaultPlan {
    /// A plan whose first call has the number 0.
    pub fn new(fail_at: Vec<u64>, step: usize) -> FaultPlan
        requires { 0 < step }
        ensures { result ≡ record { fail_at = fail_at.items; step = step; next = 0 } }
    {
        FaultPlan {
            fail_at,
            step,
            next: 0,
        }
    }

    /// The most bytes that a call moves.
    pub fn step(&self) -> usize
        ensures step { result ≡ self.now.step }
        ensures some { 0 < result }
    {
        self.step
    }

    /// Counts a call, and tells whether it is one that fails.
    pub fn is_failing_call(&mut self) -> bool
        ensures failing { result ≡ is_failing self.old }
        ensures counted { self.new ≡ after_call self.old }
    {
        let number = self.next;
        self.next = number.saturating_add(1);
        self.fail_at.contains(&number)
    }
}
