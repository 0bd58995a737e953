//! Laws of maps.

ghost use Rattle.std.specs.Prelude.{◌≡◌, ℕ, List};
ghost use Rattle.layer_map.specs.declared.refusal.MapRefusal.{MapRefusal};
ghost use Rattle.layer_map.specs.Plan.{Plan};
ghost use Rattle.layer_map.specs.Faults.{Accepts, Refuses};

/// A text is accepted or refused, and not both: it spells at most one map, and has at most one first fault. So a refusal
/// comes exactly where it is the first at fault.
pub fn one_answer()
    ensures map { (text : List ℕ) (p q : Plan) → Accepts text p → Accepts text q → p ≡ q }
    ensures fault { (text : List ℕ) (f g : MapRefusal) → Refuses text f → Refuses text g → f ≡ g }
    ensures not_both { (text : List ℕ) (p : Plan) (f : MapRefusal) → Accepts text p → Refuses text f → ⊥ }
{}
