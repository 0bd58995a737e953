//! Laws of derived lines.

ghost use Rattle.std.specs.Prelude.{◌≢◌, ◌<◌, ◌^◌, ℕ, ℤ, List, [], length, All};
ghost use Rattle.clause_base.specs.Plain.{IsPlain};
ghost use Rattle.refutation_check.specs.Deriving.{AllTeach, AllNew};

/// Lines that teach, none of them empty, are new: each has another set of literals than the clauses and the lines
/// before it.
pub fn lines_are_new()
    ensures { (vars : ℕ) (earlier : List (List ℤ)) (lines : List (List ℤ × List ℕ)) → AllTeach earlier lines → All (λ line. line.0 ≢ []) lines → All (λ line. IsPlain vars line.0) lines → AllNew earlier lines }
{}

/// Fewer than 3 to the power of `vars` lines, none of them empty, can be new one after the other.
pub fn few_new_lines()
    ensures { (vars : ℕ) (earlier : List (List ℤ)) (lines : List (List ℤ × List ℕ)) → AllNew earlier lines → All (λ line. line.0 ≢ []) lines → All (λ line. IsPlain vars line.0) lines → length lines < 3 ^ vars }
{}
