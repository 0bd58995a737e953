//! Cuts.

ghost use Rattle.std.specs.Prelude.{◌≡◌, map, length, IfOk};
ghost use Rattle.layer_map.specs.Views.{numbers_seen};
ghost use Rattle.net_trace.specs.Touching.{cuts_with};

use layer_map::CutLine;
use mask_region::Region;
use std::alloc::{AllocError, Global};
use std::marker::Model;

/// The cells of a cut, and the wires that it lists.
#[derive(Debug, Drop)]
pub(crate) struct CutArea {
    region: Region,
    wires: Vec<u32>,
}

impl Model for CutArea {
    ghost use Rattle.net_trace.specs.Touching.{Cut};

    ghost Value = { Cut };

    ghost view = { λ c. record { region = c.region; wires = c.wires.items } };
}

impl CutArea {
    /// The cells.
    pub(crate) fn region(&self) -> &Region
        ensures { result.now ≡ self.now.region }
    {
        &self.region
    }

    /// The wires.
    pub(crate) fn wires(&self) -> &[u32]
        ensures { result.now ≡ self.now.wires }
    {
        self.wires.as_slice()
    }
}

/// The cuts of a map, with their masks.
pub(crate) fn cut_areas(
    alloc: Global,
    regions: &[Region],
    lines: &[CutLine],
) -> Result<Vec<CutArea>, AllocError>
    requires { length regions.now ≡ length lines.now }
    ensures { IfOk result (λ v. v.items ≡ cuts_with regions.now (map (λ c. numbers_seen c.wires.items) lines.now)) }
{
    let mut cuts = Vec::new(alloc);
    for (k, line) in lines.iter().enumerate() {
        cuts.push(CutArea {
            region: regions[k].copy(alloc)?,
            wires: wires_of(alloc, line)?,
        })?;
    }
    Ok(cuts)
}

/// The wires that the cut lists.
fn wires_of(alloc: Global, line: &CutLine) -> Result<Vec<u32>, AllocError>
    ensures { IfOk result (λ v. v.items ≡ numbers_seen line.now.wires.items) }
{
    line.wires.iter().map(|wire| wire.0).collect(alloc)
}
