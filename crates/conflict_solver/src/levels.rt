//! Levels of a trail, with its watches.

ghost use Rattle.std.specs.Prelude.{◌≡◌, ◌<◌, ◌≤◌, [], length, true, false, slice_index_or};
ghost use Rattle.search_trail.specs.Trails.{IsSearch, front_size, back_at};
ghost use Rattle.clause_watches.specs.Watching.{AreWatched};
ghost use Rattle.conflict_solver.specs.Running.{room};

use clause_watches::Watches;
use search_trail::Trail;

/// Whether all literals stand on level 0.
pub(crate) fn is_ground(trail: &Trail) -> bool
    ensures yes { result ≡ true → trail.now.starts ≡ [] }
    ensures no { result ≡ false → 0 < length trail.now.starts }
    ensures search { IsSearch trail.now }
    ensures few { length trail.now.lits ≤ room trail.now }
{
    size_up_to(trail, 0) == trail.lits().len()
}

/// Takes back the levels above this one.
pub(crate) fn back_to(trail: &mut Trail, watches: &mut Watches, level: usize)
    requires { AreWatched trail.old watches.old }
    ensures search { IsSearch trail.old }
    ensures trail { trail.new ≡ back_at trail.old level }
    ensures kept { AreWatched (back_at trail.old level) watches.new }
{
    let size = size_up_to(trail, level);
    trail.back(level);
    watches.back(size);
}

/// How many literals stand on this level or below.
fn size_up_to(trail: &Trail, level: usize) -> usize
    ensures same { result ≡ front_size trail.now level }
    ensures search { IsSearch trail.now }
{
    let size = trail.lits().len();
    start_or(trail.starts(), level, size)
}

/// Where the level above this one begins, or the size where there is none.
fn start_or(starts: &[usize], level: usize, size: usize) -> usize
    ensures { result ≡ slice_index_or starts.now level size }
{
    starts.get(level).copied().unwrap_or(size)
}
