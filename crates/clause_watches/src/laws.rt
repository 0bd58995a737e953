//! Laws of watched clauses.

ghost use Rattle.std.specs.Prelude.{◌≡◌, ◌≤◌, ℕ, ℤ, Option, List, length};
ghost use Rattle.clause_base.specs.Literals.{is_in};
ghost use Rattle.clause_base.specs.Teaching.{IsConsistent, IsClosed};
ghost use Rattle.search_trail.specs.Trails.{Search, IsSearch, front, front_size, with_clause, with_decision, with_implied, back_at};
ghost use Rattle.clause_watches.specs.Watching.{Watched, IsWatched, AreWatched, with_pair, gone_back};

/// A level that was gone through is closed: unit propagation over the clauses adds nothing to its literals and those
/// below, and meets no conflict.
pub fn passed_level_is_closed()
    ensures closed { (s : Search) (w : Watched) (level : ℕ) → IsSearch s → AreWatched s w → front_size s level ≤ w.head → IsClosed (is_in (front s level)) s.clauses }
    ensures consistent { (s : Search) (level : ℕ) → IsSearch s → IsConsistent (is_in (front s level)) }
{}

/// Watches stay where levels are taken back.
pub fn back_keeps()
    ensures { (s : Search) (w : Watched) (level : ℕ) → IsSearch s → AreWatched s w → AreWatched (back_at s level) (gone_back w (front_size s level)) }
{}

/// Watches stay where a level begins once all was gone through.
pub fn decision_keeps()
    ensures { (s : Search) (w : Watched) (lit : ℤ) → IsSearch s → AreWatched s w → w.head ≡ length s.lits → AreWatched (with_decision s lit) w }
{}

/// Watches stay where a literal joins the current level.
pub fn implied_keeps()
    ensures { (s : Search) (w : Watched) (lit : ℤ) (number : ℕ) → IsSearch s → AreWatched s w → AreWatched (with_implied s lit number) w }
{}

/// Watches stay where a guarded clause joins.
pub fn clause_keeps()
    ensures { (s : Search) (w : Watched) (clause : List ℤ) (pair : Option (ℤ × ℤ)) → AreWatched s w → IsWatched s w.head clause pair → AreWatched (with_clause s clause) (with_pair w pair) }
{}
