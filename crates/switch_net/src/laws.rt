//! Laws of paths and refusals.

ghost use Rattle.std.specs.Prelude.{◌≡◌, ℕ, Bool, true, false, List, Option, None};
ghost use Rattle.switch_net.specs.declared.fets.Fet.{Fet};
ghost use Rattle.switch_net.specs.declared.refusal.CircuitRefusal.{CircuitRefusal};
ghost use Rattle.switch_net.specs.declared.refusal.CircuitRefusal.TheVariants.{NoMemory};
ghost use Rattle.switch_net.specs.Switches.{Switches, is_supply};
ghost use Rattle.switch_net.specs.Conduction.{HasPath, HasPathOrNone, IsReached};
ghost use Rattle.switch_net.specs.Refusals.{IsCircuit, IsRefusedAs};

/// A net that is no supply has a path to a supply exactly where a chain of joined nets leads from it to a net that is one
/// step from the supply.
pub fn paths_are_chains()
    ensures chain { (c : Switches) (fets : List Fet) (v : ℕ → Bool) (a b : ℕ) → is_supply c a ≡ false → HasPath c fets None v a b → IsReached c fets v a b }
    ensures path { (c : Switches) (fets : List Fet) (v : ℕ → Bool) (a b : ℕ) → IsReached c fets v a b → HasPath c fets None v a b }
{}

/// The path of no move leads to no supply, so it changes no drive.
pub fn empty_paths_drive_nothing()
    ensures { (c : Switches) (fets : List Fet) (edge : Option (ℕ × ℕ)) (v : ℕ → Bool) (a b : ℕ) → is_supply c b ≡ true → HasPathOrNone c fets edge v a b
        → HasPath c fets edge v a b }
{}

/// A circuit that is accepted has no cause to be refused, and one that is refused has one cause, but for a want of memory.
pub fn one_refusal()
    ensures none { (c : Switches) (refusal : CircuitRefusal) → IsCircuit c → IsRefusedAs c refusal → refusal ≡ NoMemory }
    ensures one { (c : Switches) (first second : CircuitRefusal) → IsRefusedAs c first → IsRefusedAs c second → (first ≡ NoMemory → ⊥) → (second ≡ NoMemory → ⊥)
        → first ≡ second }
{}
