//! Why a text spells no formula.

use std::alloc::AllocError;

/// Why a text spells no formula. A position is that of a word's first byte, counted from 0.
#[derive(Clone, Copy, Debug, PartialEq, Eq)]
pub enum FormulaFault {
    /// The text is too long. `read_formula` never gives it: it is for callers, who know how much they read.
    TooLong,
    /// The word at this position can't stand there, or the text ends too early: then it is the text's length.
    Syntax(u64),
    /// The word at this position is a number of variables over 1,000,000, or one of clauses over 4,000,000.
    TooLarge(u64),
    /// No memory is found for the clauses.
    NoMemory,
}

impl From<AllocError> for FormulaFault {
    ghost use Rattle.std.specs.Prelude.{◌≡◌};
    ghost use Rattle.clause_base.specs.declared.faults.FormulaFault.TheVariants.{NoMemory};

    ghost from_gives = { λ _ fault. fault ≡ NoMemory };

    fn from(_: AllocError) -> FormulaFault {
        FormulaFault::NoMemory
    }
}
