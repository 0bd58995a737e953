//! Laws of learnt clauses.

ghost use Rattle.std.specs.Prelude.{◌≡◌, ◌<◌, ◌+◌, ℕ, ℤ, neg_ℤ, false, List, [], ◌∷◌, ◌++◌, length};
ghost use Rattle.clause_base.specs.Literals.{is_in, lit_at};
ghost use Rattle.search_trail.specs.Trails.{Search, IsSearch, IsReason, front};
ghost use Rattle.search_trail.specs.Learning.{IsLearnt, IsAsserting, IsJump};

/// A learnt clause, added as the last one, makes its first literal true once the levels above that of the jump were
/// taken back.
pub fn learnt_is_a_reason()
    ensures reason { (s : Search) (clause : List ℤ) (level : ℕ) → IsAsserting s clause → IsJump s clause level
        → IsReason (s.clauses ++ clause ∷ []) (front s level) (lit_at clause 0) (length s.clauses + 1) }
    ensures unset { (s : Search) (clause : List ℤ) (level : ℕ) → IsSearch s → IsLearnt s clause → IsAsserting s clause → is_in (front s level) (lit_at clause 0) ≡ false }
    ensures unset_negated { (s : Search) (clause : List ℤ) (level : ℕ) → IsSearch s → IsAsserting s clause → level < length s.starts → is_in (front s level) (neg_ℤ (lit_at clause 0)) ≡ false }
{}
