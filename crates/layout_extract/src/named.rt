//! Layouts whose nets have names.

use mask_region::Masks;
use net_trace::Traced;
use plane_geom::Label;
use std::marker::Model;
use switch_net::NetId;

/// A net and a name that is bound to it.
#[derive(Debug, Drop)]
pub struct BoundName {
    pub net: NetId,
    pub name: Label,
}

/// The name of each net, in the order of their numbers, and all names that are bound to nets, a name as often as labels bind
/// it, in the order of the labels.
#[derive(Drop)]
pub(crate) struct NetNames {
    pub(crate) names: Vec<Label>,
    pub(crate) bound: Vec<BoundName>,
}

/// How many labels are bound, are not bound, and stand too deep to be bound.
#[derive(Clone, Copy, Debug)]
pub(crate) struct Tallies {
    pub(crate) bound: u32,
    pub(crate) unbound: u32,
    pub(crate) deep: u32,
}

/// The nets of a layout, joined by names, the masks of the layout, the name of each net and all its bound names. Contracts
/// see plain lists, by `NamedNets`. There is one name for each net.
#[derive(Debug, Drop)]
pub struct Named {
    traced: Traced,
    masks: Masks,
    names: Vec<Label>,
    bound_names: Vec<BoundName>,
    tallies: Tallies,
}

impl Model for Named {
    ghost use Rattle.std.specs.Prelude.{length};
    ghost use Rattle.net_trace.specs.Nets.{IsNetCount};
    ghost use Rattle.layout_extract.specs.Layouts.{NamedNets};

    ghost Value = { NamedNets };

    ghost view = { λ n. record { nets = n.traced; masks = n.masks; names = n.names.items; bound_names = n.bound_names.items; bound = n.tallies.bound; unbound = n.tallies.unbound; deep = n.tallies.deep } };

    ghost invariant = { λ n. IsNetCount n.traced (length n.names.items) };
}

impl Named {
    ghost use Rattle.std.specs.Prelude.{◌≡◌, ◌<◌, length, Some, slice_get};
    ghost use Rattle.net_trace.specs.Nets.{IsNetCount};

    /// The nets with these names and numbers of labels.
    pub(crate) fn new(traced: Traced, masks: Masks, names: NetNames, tallies: Tallies) -> Named
        requires { IsNetCount traced (length names.names.items) }
        ensures { result ≡ record { nets = traced; masks = masks; names = names.names.items; bound_names = names.bound.items; bound = tallies.bound; unbound = tallies.unbound; deep = tallies.deep } }
    {
        Named {
            traced,
            masks,
            names: names.names,
            bound_names: names.bound,
            tallies,
        }
    }

    /// The nets, joined by names.
    pub fn traced(&self) -> &Traced
        ensures same { result.now ≡ self.now.nets }
        ensures count { IsNetCount self.now.nets (length self.now.names) }
    {
        let _ = &self.names;
        &self.traced
    }

    /// The masks of the layout.
    pub fn masks(&self) -> &Masks
        ensures { result.now ≡ self.now.masks }
    {
        &self.masks
    }

    /// The name of the net: the first by bytes of its bound names, else `#` and its number.
    pub fn name(&self, net: NetId) -> &Label
        requires { net.0 < length self.now.names }
        ensures { slice_get self.now.names net.0 ≡ Some result.now }
    {
        &self.names[net.0 as usize]
    }

    /// The names of the nets, in the order of their numbers.
    pub fn names(&self) -> &[Label]
        ensures same { result.now ≡ self.now.names }
        ensures count { IsNetCount self.now.nets (length self.now.names) }
    {
        self.names.as_slice()
    }

    /// The names that are bound to nets, each with its net.
    pub fn bound_names(&self) -> &[BoundName]
        ensures { result.now ≡ self.now.bound_names }
    {
        self.bound_names.as_slice()
    }

    /// How many labels are bound, are not bound, and stand too deep to be bound.
    pub fn tallies(&self) -> (u32, u32, u32)
        ensures { result ≡ (self.now.bound, self.now.unbound, self.now.deep) }
    {
        let Tallies {
            bound,
            unbound,
            deep,
        } = self.tallies;
        (bound, unbound, deep)
    }
}
