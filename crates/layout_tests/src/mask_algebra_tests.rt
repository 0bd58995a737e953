//! Masks of small layouts.

use cif_flatten::{Flat, flatten};
use layer_map::read;
use mask_algebra::evaluate;
use mask_region::{Masks, Strip};
use std::alloc::Global;
use std::test::Fail;

/// The shapes of a layout.
fn layout(alloc: Global, text: &str) -> Result<Flat, Fail> {
    let file = cif_reader::read(alloc, text.as_bytes())?;
    Ok(flatten(alloc, &file)?)
}

/// The masks of the map with these lines.
fn masks(alloc: Global, lines: &str, flat: &Flat) -> Result<Masks, Fail> {
    let mut text = Vec::from_slice(alloc, lines.as_bytes())?;
    text.extend_from_slice(b"\nhigh Vdd\nlow GND\n")?;
    let map = read(alloc, text.as_slice())?;
    Ok(evaluate(alloc, &map, flat)?)
}

/// The edges of a strip: below, above, on the left and on the right.
type Edges = (i32, i32, i32, i32);

fn edges(strip: &Strip) -> Edges {
    (strip.y0, strip.y1, strip.x0, strip.x1)
}

/// A gate over an active area, and two cuts that overlap. A unit of the text is two mask units.
const GATE: &str =
    "L CAA; B 10 4 5 2; L CSN; B 10 8 3 2; L CPG; B 2 6 5 2; L CCA; B 4 4 2 2; B 4 4 4 4; E";

#[test]
fn evaluates_expressions(rt: HostRuntime) -> Result<(), Fail> {
    let flat = layout(rt.alloc(), GATE)?;
    let rows: [(&str, &[Edges]); 6] = [
        ("wire w CAA*CSN*!CPG", &[(0, 8, 0, 8), (0, 8, 12, 16)]),
        ("wire w CMF", &[]),
        ("wire w CPG+!CMF*CPG", &[(-2, 10, 8, 12)]),
        (
            "wire w CPG+!CPG*CAA",
            &[(-2, 0, 8, 12), (0, 8, 0, 20), (8, 10, 8, 12)],
        ),
        ("wire w !(CAA+!CPG)", &[(-2, 0, 8, 12), (8, 10, 8, 12)]),
        ("wire w CCA", &[(0, 4, 0, 8), (4, 8, 0, 12), (8, 12, 4, 12)]),
    ];
    for (line, strips) in rows {
        let masks = masks(rt.alloc(), line, &flat)?;
        assert_eq!(rt; masks.wires().len(), 1);
        for wire in masks.wires() {
            let found: Vec<Edges> = wire.strips().iter().map(edges).collect(rt.alloc())?;
            assert!(rt; found.as_slice() == strips, "{}", line);
        }
    }
    Ok(())
}

/// A box of another height on each layer.
const STEPS: &str =
    "L CPG; B 2 2 1 1; L CAA; B 2 4 1 2; L CMF; B 2 6 1 3; L CCA; B 2 8 1 4; L CCP; B 2 10 1 5; E";

#[test]
fn keeps_the_order_of_the_map(rt: HostRuntime) -> Result<(), Fail> {
    let flat = layout(rt.alloc(), STEPS)?;
    let lines = "wire poly CPG
wire diff CAA
wire metal CMF
cut CCA : metal diff
cut CCP : metal poly
fet n CAA+CCP gate poly diff diff";
    let masks = masks(rt.alloc(), lines, &flat)?;
    assert_eq!(rt; masks.wires().len(), 3);
    for (wire, area) in masks.wires().iter().zip([16, 32, 48]) {
        assert_eq!(rt; wire.area(), area);
    }
    assert_eq!(rt; masks.cuts().len(), 2);
    for (cut, area) in masks.cuts().iter().zip([64, 80]) {
        assert_eq!(rt; cut.area(), area);
    }
    assert_eq!(rt; masks.channels().len(), 1);
    for channel in masks.channels() {
        assert_eq!(rt; channel.area(), 80);
    }
    Ok(())
}
