//! Laws of transistors.

ghost use Rattle.std.specs.Prelude.{◌≡◌, ℕ, ◌≤◌, List, length};
ghost use Rattle.switch_net.specs.declared.fets.Fet.{Fet};
ghost use Rattle.layer_map.specs.Plan.{Plan};
ghost use Rattle.mask_region.specs.Strips.{MaskLists};
ghost use Rattle.net_trace.specs.Touching.{Nets};
ghost use Rattle.device_extract.specs.declared.refusal.DeviceRefusal.{DeviceRefusal};
ghost use Rattle.device_extract.specs.declared.refusal.DeviceRefusal.TheVariants.{NoMemory};
ghost use Rattle.device_extract.specs.Channels.{AreGated};
ghost use Rattle.device_extract.specs.Transistors.{IsGateOf, AreTransistors};
ghost use Rattle.device_extract.specs.Refusals.{RefusesDevices};

/// A layout has one list of transistors, or is refused for one reason, and never both. Where each channel cell has a node
/// of its gate wire, a transistor has one gate, since channel cells that share an edge have gate nodes that touch.
pub fn one_extraction()
    ensures list { (plan : Plan) (masks : MaskLists) (nets : Nets) (p q : List Fet) → length masks.channels ≡ length plan.fets → nets.wires ≡ masks.wires
        → AreTransistors plan masks nets p → AreTransistors plan masks nets q → p ≡ q }
    ensures gate { (plan : Plan) (masks : MaskLists) (nets : Nets) (t m n : ℕ) → length masks.channels ≡ length plan.fets → nets.wires ≡ masks.wires → AreGated plan masks
        → IsGateOf plan masks nets t m → IsGateOf plan masks nets t n → m ≡ n }
    ensures reason { (plan : Plan) (masks : MaskLists) (nets : Nets) (r q : DeviceRefusal) → (r ≡ NoMemory → ⊥) → (q ≡ NoMemory → ⊥) → RefusesDevices plan masks nets r
        → RefusesDevices plan masks nets q → r ≡ q }
    ensures never_both { (plan : Plan) (masks : MaskLists) (nets : Nets) (fets : List Fet) (r : DeviceRefusal) → length masks.channels ≡ length plan.fets → nets.wires ≡ masks.wires
        → (r ≡ NoMemory → ⊥) → length fets ≤ 4096 → AreTransistors plan masks nets fets → RefusesDevices plan masks nets r → ⊥ }
{}
