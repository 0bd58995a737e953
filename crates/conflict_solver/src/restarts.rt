//! When a search begins anew from its first level. No contract speaks of it.

/// The least number of conflicts between two restarts.
const SHORTEST: u64 = 512;

/// Counts conflicts. Between restarts there are 1, 1, 2, 1, 1, 2, 4, .. times the least number: each power of two comes
/// once both halves of the list before it were gone through.
#[derive(Clone, Copy, Debug)]
pub(crate) struct Restarts {
    /// How many restarts there were, and one more.
    number: u64,
    /// How many conflicts are left until the next one.
    left: u64,
}

impl Restarts {
    /// The count before the first conflict.
    pub(crate) fn new() -> Restarts {
        Restarts {
            number: 1,
            left: SHORTEST,
        }
    }

    /// Counts a conflict, and says whether the search begins anew.
    pub(crate) fn is_due(&mut self) -> bool {
        self.left = self.left.saturating_sub(1);
        if self.left > 0 {
            return false;
        }
        self.number = self.number.saturating_add(1);
        self.left = SHORTEST.saturating_mul(length_of(self.number));
        true
    }
}

/// The member with this number, from 1, of the list 1, 1, 2, 1, 1, 2, 4, ..
fn length_of(number: u64) -> u64 {
    let mut rest = number;
    let mut whole = u64::MAX >> 1;
    while whole > 0 {
        if rest == whole {
            return whole / 2 + 1;
        }
        if rest > whole {
            rest -= whole;
        }
        whole /= 2;
    }
    1
}
