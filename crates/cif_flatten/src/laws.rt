//! Laws of the unfolding.

ghost use Rattle.std.specs.Prelude.{◌≡◌, ℕ, ◌^◌, List, map};
ghost use Rattle.cif_reader.specs.File.{Contents, IsFile};
ghost use Rattle.cif_reader.specs.Reading.{Accepts};
ghost use Rattle.cif_reader.specs.Same.{IsSameFile};
ghost use Rattle.cif_flatten.specs.declared.refusal.FlattenRefusal.{FlattenRefusal};
ghost use Rattle.cif_flatten.specs.Flat.{Lists, IsFlatWithin};
ghost use Rattle.cif_flatten.specs.Unfolding.{Placed, IsUnfolding, HasUnfolding};
ghost use Rattle.cif_flatten.specs.Faults.{IsNested};
ghost use Rattle.cif_flatten.specs.Flattening.{IsFirstFault, IsFlattened, IsSound, HasFlattening, AreCallsApart, drawn_of, marked_of};

/// A file unfolds in one way, to one list of placed shapes and one of placed labels. It is flattened or refused and never
/// both, and it is refused for one reason, where calls of undefined symbols have positions of their own. Files that hold
/// the same are flattened to the same lists, or refused for the same reason.
pub fn one_flattening()
    ensures one_unfolding { (file : Contents) (p q : List Placed) → IsUnfolding file p → IsUnfolding file q → p ≡ q }
    ensures one_layout { (file : Contents) (f g : Lists) → IsFlattened file f → IsFlattened file g → (map drawn_of f.draws ≡ map drawn_of g.draws) × (map marked_of f.marks ≡ map marked_of g.marks) }
    ensures never_both { (file : Contents) (lists : Lists) (refusal : FlattenRefusal) → IsFlattened file lists → IsFirstFault file refusal → ⊥ }
    ensures one_fault { (file : Contents) (r s : FlattenRefusal) → AreCallsApart file → IsFirstFault file r → IsFirstFault file s → r ≡ s }
    ensures same_file { (f g : Contents) (lists : Lists) → IsSameFile f g → IsFlattened f lists → IsFlattened g lists }
    ensures same_fault { (f g : Contents) (refusal : FlattenRefusal) → IsSameFile f g → IsFirstFault f refusal → IsFirstFault g refusal }
{}

/// A file in which no symbol calls itself unfolds to some list of commands. A file without fault is flattened to some lists.
pub fn some_unfolding()
    ensures unfolding { (file : Contents) → IsNested file.symbols → HasUnfolding file }
    ensures flattening { (file : Contents) → IsSound file → HasFlattening file }
{}

/// What a file is flattened to lies within `plane_geom::RANGE` of 0, and its shapes are well formed.
pub fn flattened_within_range()
    ensures { (file : Contents) (lists : Lists) → IsFile file → IsFlattened file lists → IsFlatWithin (2 ^ 24) lists }
{}

/// In a layout that is read, calls of undefined symbols have positions of their own.
pub fn read_calls_are_apart()
    ensures { (text : List ℕ) (file : Contents) → Accepts text file → AreCallsApart file }
{}
