//! Laws of named nets.

ghost use Rattle.std.specs.Prelude.{◌≡◌};
ghost use Rattle.cif_reader.specs.File.{Contents, IsFile};
ghost use Rattle.cif_reader.specs.Same.{IsSameFile};
ghost use Rattle.cif_flatten.specs.Flat.{Lists};
ghost use Rattle.cif_flatten.specs.Flattening.{AreCallsApart, IsFlattened};
ghost use Rattle.layer_map.specs.Plan.{Plan, IsKeptMap};
ghost use Rattle.layout_extract.specs.declared.refusal.LayoutRefusal.{LayoutRefusal};
ghost use Rattle.layout_extract.specs.declared.refusal.LayoutRefusal.TheVariants.{NoMemory};
ghost use Rattle.layout_extract.specs.Layouts.{HasLayoutMasks, NamedNets, IsNamedFrom, RefusesLayout};
ghost use Rattle.layout_extract.specs.Same.{AreSameNamed};

/// Files that hold the same have the same named nets under one map, or are refused for one reason, and never both.
pub fn one_naming()
    ensures naming { (f g : Contents) (plan : Plan) (n m : NamedNets) → IsSameFile f g → IsNamedFrom f plan n → IsNamedFrom g plan m → AreSameNamed n m }
    ensures reason { (f g : Contents) (plan : Plan) (r q : LayoutRefusal) → AreCallsApart g → (r ≡ NoMemory → ⊥) → (q ≡ NoMemory → ⊥) → IsSameFile f g
        → RefusesLayout f plan r → RefusesLayout g plan q → r ≡ q }
    ensures never_both { (f g : Contents) (plan : Plan) (n : NamedNets) (r : LayoutRefusal) → (r ≡ NoMemory → ⊥) → IsSameFile f g → RefusesLayout f plan r
        → IsNamedFrom g plan n → ⊥ }
{}

/// A flattened file has masks under each map.
pub fn some_layout_masks()
    ensures { (file : Contents) (plan : Plan) (lists : Lists) → IsFile file → IsKeptMap plan → IsFlattened file lists → HasLayoutMasks plan lists.draws }
{}
