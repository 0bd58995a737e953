//! Laws of nets.

ghost use Rattle.std.specs.Prelude.{◌≡◌, ℕ, ℤ, List};
ghost use Rattle.link_classes.specs.Linked.{Linked};
ghost use Rattle.mask_region.specs.declared.strips.Strip.{Strip};
ghost use Rattle.mask_region.specs.Strips.{is_in};
ghost use Rattle.net_trace.specs.declared.node.Node.{Node};
ghost use Rattle.net_trace.specs.Touching.{Nets};
ghost use Rattle.net_trace.specs.Nets.{is_link, AreNetRoots, IsNetNumber, IsNetCount, IsRegionOf};

/// Nets have one numbering: linked nodes have one number, nodes of one number are linked, and there is one list of least
/// nodes, one count, and one set of cells of a net on a wire.
pub fn one_numbering_of_nets()
    ensures number { (nets : Nets) (a b : Node) (m n : ℕ) → IsNetNumber nets a m → IsNetNumber nets b n → Linked (is_link nets) a b → m ≡ n }
    ensures linked { (nets : Nets) (a b : Node) (n : ℕ) → IsNetNumber nets a n → IsNetNumber nets b n → Linked (is_link nets) a b }
    ensures roots { (nets : Nets) (p q : List Node) → AreNetRoots nets p → AreNetRoots nets q → p ≡ q }
    ensures count { (nets : Nets) (m n : ℕ) → IsNetCount nets m → IsNetCount nets n → m ≡ n }
    ensures region { (nets : Nets) (net wire : ℕ) (p q : List Strip) → IsRegionOf nets net wire p → IsRegionOf nets net wire q → (x y : ℤ) → is_in p x y ≡ is_in q x y }
{}
