//! The regions of a layout, line by line of its map.

ghost use Rattle.std.specs.Prelude.{◌≡◌, ◌^◌};
ghost use Rattle.mask_region.specs.Strips.{AreRegionsWithin};

use crate::region::Region;
use std::marker::Model;

/// The regions of a layout: one for each wire, cut and channel line of a layer map, in the map's order. No coordinate
/// of them is over 16,777,216 from 0.
#[derive(Debug, Drop)]
pub struct Masks {
    wires: Vec<Region>,
    cuts: Vec<Region>,
    channels: Vec<Region>,
}

impl Model for Masks {
    ghost use Rattle.std.specs.Prelude.{◌^◌};
    ghost use Rattle.mask_region.specs.Strips.{MaskLists, AreMasksWithin};

    ghost Value = { MaskLists };

    ghost view = { λ m. record { wires = m.wires.items; cuts = m.cuts.items; channels = m.channels.items } };

    ghost invariant = { λ m. AreMasksWithin (2 ^ 24) (record { wires = m.wires.items; cuts = m.cuts.items; channels = m.channels.items }) };
}

impl Masks {
    /// The masks with these regions, of which no coordinate is over 16,777,216 from 0.
    pub fn new(wires: Vec<Region>, cuts: Vec<Region>, channels: Vec<Region>) -> Masks
        requires wires_within { AreRegionsWithin (2 ^ 24) wires.items }
        requires cuts_within { AreRegionsWithin (2 ^ 24) cuts.items }
        requires channels_within { AreRegionsWithin (2 ^ 24) channels.items }
        ensures has_wires { result.wires ≡ wires.items }
        ensures has_cuts { result.cuts ≡ cuts.items }
        ensures has_channels { result.channels ≡ channels.items }
    {
        Masks {
            wires,
            cuts,
            channels,
        }
    }

    /// The regions of the wires.
    pub fn wires(&self) -> &[Region]
        ensures same { result.now ≡ self.now.wires }
        ensures within { AreRegionsWithin (2 ^ 24) self.now.wires }
    {
        self.wires.as_slice()
    }

    /// The regions of the cuts.
    pub fn cuts(&self) -> &[Region]
        ensures same { result.now ≡ self.now.cuts }
        ensures within { AreRegionsWithin (2 ^ 24) self.now.cuts }
    {
        self.cuts.as_slice()
    }

    /// The regions of the channels.
    pub fn channels(&self) -> &[Region]
        ensures same { result.now ≡ self.now.channels }
        ensures within { AreRegionsWithin (2 ^ 24) self.now.channels }
    {
        self.channels.as_slice()
    }
}
