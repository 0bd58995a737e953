//! Maps, and texts that are none.

use crate::fixtures::repeated;
use layer_map::{LayerMap, MapRefusal, Side, read};
use std::alloc::Global;
use std::test::Fail;

/// The map of a CMOS cell.
const CELL: &[u8] = b"wire poly CPG
wire ndiff CAA*CSN*!CPG
wire pdiff CAA*CSP*!CPG
wire metal CMF
cut CCA : metal ndiff pdiff
cut CCP : metal poly
fet n CAA*CSN*CPG gate poly diff ndiff
fet p CAA*CSP*CPG gate poly diff pdiff
label CMF metal
label CPG poly
high Vdd
low GND
";

/// The refusal of a text, if it is refused.
fn refusal(alloc: Global, text: &[u8]) -> Option<MapRefusal> {
    read(alloc, text).err()
}

#[test]
fn reads_the_map_of_a_cell(rt: HostRuntime) -> Result<(), Fail> {
    let alloc = rt.alloc();
    let map: LayerMap = read(alloc, CELL)?;
    assert_eq!(rt; map.wires().len(), 4);
    assert_eq!(rt; map.cuts().len(), 2);
    assert_eq!(rt; map.fets().len(), 2);
    assert_eq!(rt; map.labels().len(), 2);
    assert_eq!(rt; map.high().len(), 1);
    assert_eq!(rt; map.low().len(), 1);
    assert!(rt; map.wires()[3].name.as_bytes() == b"metal".as_slice());
    assert_eq!(rt; map.fets()[1].diff.0, 2);
    assert!(rt; map.high()[0].as_bytes() == b"Vdd".as_slice());
    Ok(())
}

/// Texts, and why each is refused.
const FAULTY: [(&str, MapRefusal); 14] = [
    ("wire metal !CMF", MapRefusal::Unbounded(1)),
    ("wire metal CMF+!(CPG*!CAA)", MapRefusal::Unbounded(1)),
    ("cut CVA : metal", MapRefusal::UnknownWire(1)),
    ("cut !CVA : metal", MapRefusal::UnknownWire(1)),
    (
        "wire metal CMF\nlabel CMF metal\nhigh Vdd\n",
        MapRefusal::NoSupplyLine(Side::Low),
    ),
    ("", MapRefusal::NoSupplyLine(Side::High)),
    ("# map\r", MapRefusal::NoSupplyLine(Side::High)),
    ("# map\n\nwire metal CMF+\n", MapRefusal::BadLine(3)),
    ("wire m CMF\nwire m CPG", MapRefusal::TwiceNamed(2)),
    ("wire m CMF\nwire m !CPG", MapRefusal::TwiceNamed(2)),
    ("high Vdd\r\nlow Vdd\r\n", MapRefusal::TwiceNamed(2)),
    ("high A+B A+B", MapRefusal::TwiceNamed(1)),
    ("high Vdd\r", MapRefusal::BadLine(1)),
    ("high+Vdd", MapRefusal::BadLine(1)),
];

#[test]
fn refuses_the_first_fault(rt: HostRuntime) {
    let alloc = rt.alloc();
    for (text, fault) in FAULTY {
        assert!(rt; refusal(alloc, text.as_bytes()) == Some(fault), "{text}");
    }
}

/// The lines of sixteen wires.
const WIRES: &[u8] = b"wire a A
wire b A
wire c A
wire d A
wire e A
wire f A
wire g A
wire h A
wire i A
wire j A
wire k A
wire l A
wire m A
wire n A
wire o A
wire p A
";

#[test]
fn keeps_to_the_limits(rt: HostRuntime) -> Result<(), Fail> {
    let alloc = rt.alloc();
    let too_many = Some(MapRefusal::TooMany(1));
    let bad = Some(MapRefusal::BadLine(1));
    let metal = b"CMF\nhigh Vdd\nlow GND\n";
    let plus_metal = b"+CMF\nhigh Vdd\nlow GND\n";
    let supplies = b"\nhigh Vdd\nlow GND\n";
    let comment = b"# no more\nhigh Vdd\nlow GND\n";
    let wire = b"wire p A\nhigh Vdd\nlow GND\n";
    let rows: [(&[u8], &[u8], usize, &[u8], Option<MapRefusal>); 8] = [
        (b"wire metal ", b"!", 32, metal, None),
        (b"wire metal ", b"!", 33, metal, too_many),
        (b"wire metal ", b"!", 33, plus_metal, bad),
        (b"wire metal ", b"CMF+", 63, metal, None),
        (b"wire metal ", b"CMF+", 64, metal, too_many),
        (b"high", b" Vdd", 33, supplies, too_many),
        (WIRES, b"", 0, comment, None),
        (WIRES, b"", 0, wire, Some(MapRefusal::TooMany(17))),
    ];
    for (start, part, count, end, fault) in rows {
        let text = repeated(alloc, start, part, count, end)?;
        assert!(rt; refusal(alloc, text.as_slice()) == fault);
    }
    Ok(())
}
