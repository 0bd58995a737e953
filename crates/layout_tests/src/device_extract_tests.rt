//! Transistors of small layouts.

use crate::fixtures::file;
use device_extract::{DeviceRefusal, extract};
use layer_map::LayerMap;
use layout_extract::{Named, name_nets};
use plane_geom::Point;
use std::alloc::Global;
use std::test::Fail;
use switch_net::{Fet, Kind, NetId};

/// Wires and transistors of an inverter.
const CMOS: &str = "wire poly CPG
wire ndiff CAA*CSN*!CPG
wire pdiff CAA*CSP*!CPG
wire metal CMF
cut CCA : metal ndiff pdiff
cut CCP : metal poly
fet n CAA*CSN*CPG gate poly diff ndiff
fet p CAA*CSP*CPG gate poly diff pdiff
label CMF metal
label CPG poly
high Vdd
low GND
";

/// Two lines of transistors whose channels, gates and terminals are drawn apart.
const APART: &str = "wire poly CPG
wire ndiff CSN
fet n CAA gate poly diff ndiff
fet p CAB*CAC gate poly diff ndiff
high Vdd
low GND
";

const INVERTER: &str = "DS 1 25 2;9 inv;
L CAA;B 12 4 10 10;B 12 4 10 30;
L CSN;B 16 8 10 10;
L CSP;B 16 8 10 30;
L CPG;B 2 28 10 20;B 6 4 7 20;
L CCP;B 2 2 6 20;
L CCA;B 2 2 6 10;B 2 2 14 10;B 2 2 6 30;B 2 2 14 30;
L CMF;B 20 4 10 2;B 4 12 6 6;B 20 4 10 38;B 4 12 6 34;
B 4 24 14 20;B 4 4 6 20;
94 GND 10 2 CMF;94 Vdd 10 38 CMF;
94 A 6 20 CMF;94 Y 14 20 CMF;DF;C 1;End
";

/// A chip of 4,096 channels, apart from each other, by doubling.
const CHANNELS: &str = "DS 1;L CAA;B 1 1 1 1;DF;
DS 2;C 1;C 1 T 4 0;DF;DS 3;C 2;C 2 T 8 0;DF;DS 4;C 3;C 3 T 16 0;DF;
DS 5;C 4;C 4 T 32 0;DF;DS 6;C 5;C 5 T 64 0;DF;DS 7;C 6;C 6 T 128 0;DF;
DS 8;C 7;C 7 T 0 4;DF;DS 9;C 8;C 8 T 0 8;DF;DS 10;C 9;C 9 T 0 16;DF;
DS 11;C 10;C 10 T 0 32;DF;DS 12;C 11;C 11 T 0 64;DF;DS 13;C 12;C 12 T 0 128;DF;
L CPG;B 600 600 150 150;L CSN;B 600 600 150 150;C 13;
";

/// The named nets of the text, and its transistors.
fn transistors(
    alloc: Global,
    map: &str,
    text: &str,
) -> Result<Result<Vec<Fet>, DeviceRefusal>, Fail> {
    let file = file(alloc, text)?;
    let map: LayerMap = layer_map::read(alloc, map.as_bytes())?;
    let named: Named = name_nets(alloc, &file, &map)?;
    Ok(extract(alloc, named.masks(), &map, named.traced()))
}

fn fet(kind: Kind, gate: u32, a: u32, b: u32) -> Fet {
    Fet {
        kind,
        gate: NetId(gate),
        a: NetId(a),
        b: NetId(b),
    }
}

#[test]
fn an_inverter_has_two_transistors(rt: HostRuntime) -> Result<(), Fail> {
    let fets = transistors(rt.alloc(), CMOS, INVERTER)??;
    let expected = [fet(Kind::N, 0, 1, 2), fet(Kind::P, 0, 2, 3)];
    assert!(rt; fets.as_slice() == expected.as_slice(), "an inverter");
    Ok(())
}

/// Layouts of one n transistor, or of none, and the gate and the terminals of each.
const LISTS: [(&str, &str, &[(u32, u32, u32)]); 7] = [
    ("nothing", "L CPG;B 2 2 1 1;E", &[]),
    (
        "a terminal on each side",
        "L CAA;B 2 2 1 1;L CPG;B 2 2 1 1;L CSN;B 2 2 -1 1;B 2 2 3 1;E",
        &[(0, 1, 2)],
    ),
    (
        "one net below and above",
        "L CAA;B 2 2 1 1;L CPG;B 2 2 1 1;L CSN;B 2 2 1 -1;B 2 2 1 3;B 2 6 -1 1;E",
        &[(0, 1, 1)],
    ),
    (
        "a terminal on one side",
        "L CAA;B 2 2 1 1;L CPG;B 2 2 1 1;L CSN;B 2 2 3 1;E",
        &[(0, 1, 1)],
    ),
    (
        "a terminal on its own cells",
        "L CAA;B 2 2 1 1;L CPG;B 2 2 1 1;L CSN;B 1 1 1 1;E",
        &[(0, 1, 1)],
    ),
    (
        "channels that meet at a corner are two",
        "L CAA;B 2 2 1 1;B 2 2 3 3;L CPG;B 4 4 2 2;L CSN;B 2 2 3 1;B 2 2 1 3;E",
        &[(0, 1, 2), (0, 1, 2)],
    ),
    (
        "rows come before columns",
        "L CAA;B 2 2 1 21;B 2 2 21 1;L CPG;B 2 2 1 21;B 2 2 21 1;L CSN;B 2 2 3 21;B 2 2 23 1;E",
        &[(0, 2, 2), (1, 3, 3)],
    ),
];

#[test]
fn transistors_are_listed(rt: HostRuntime) -> Result<(), Fail> {
    for (shows, text, expected) in LISTS {
        let fets = transistors(rt.alloc(), APART, text)??;
        assert_eq!(rt; fets.len(), expected.len(), "{}", shows);
        for (k, found) in fets.iter().enumerate() {
            let (gate, a, b) = expected[k];
            assert_eq!(rt; *found, fet(Kind::N, gate, a, b), "{}", shows);
        }
    }
    Ok(())
}

/// Layouts, and why their transistors are refused.
const REFUSALS: [(&str, &str, DeviceRefusal); 9] = [
    (
        "no gate",
        "L CAA;B 2 2 1 1;E",
        DeviceRefusal::UngatedChannel(Point { x: 0, y: 0 }),
    ),
    (
        "a gate on all cells but the last row",
        "L CAA;B 2 2 1 1;L CPG;B 4 1 1 0;B 3 1 1 1;E",
        DeviceRefusal::UngatedChannel(Point { x: 0, y: 3 }),
    ),
    (
        "no terminal",
        "L CAA;B 2 2 1 1;L CPG;B 2 2 1 1;E",
        DeviceRefusal::NoTerminal(Point { x: 0, y: 0 }),
    ),
    (
        "a terminal at a corner alone",
        "L CAA;B 2 2 1 1;L CPG;B 2 2 1 1;L CSN;B 2 2 3 3;B 2 2 -1 -1;E",
        DeviceRefusal::NoTerminal(Point { x: 0, y: 0 }),
    ),
    (
        "one cell with a terminal on it alone",
        "DS 1 1 2;L CAB;B 2 2 1 1;L CAC;B 2 2 2 2;L CPG;B 6 6 1 1;L CSN;B 2 2 1 1;DF;
DS 2 1 2;L CAB;B 2 2 11 11;L CAC;B 2 2 12 12;L CPG;B 6 6 11 11;DF;C 2;C 1;E",
        DeviceRefusal::NoTerminal(Point { x: 11, y: 11 }),
    ),
    (
        "three terminals",
        "L CAA;B 2 2 1 1;L CPG;B 2 2 1 1;L CSN;B 2 2 -1 1;B 2 2 3 1;B 2 2 1 3;E",
        DeviceRefusal::ManyTerminals(Point { x: 0, y: 0 }),
    ),
    (
        "three terminals at the second",
        "L CAA;B 2 2 1 1;B 2 2 11 1;L CPG;B 2 2 1 1;B 2 2 11 1;L CSN;B 2 2 -1 1;B 2 2 9 1;B 2 2 13 1;B 2 2 11 3;E",
        DeviceRefusal::ManyTerminals(Point { x: 20, y: 0 }),
    ),
    (
        "no gate of a later line comes before no terminal",
        "L CAA;B 2 2 1 1;L CPG;B 2 2 1 1;L CAB;B 2 2 11 1;L CAC;B 2 2 11 1;E",
        DeviceRefusal::UngatedChannel(Point { x: 20, y: 0 }),
    ),
    (
        "no terminal of a later line comes before three",
        "L CAA;B 2 2 1 1;L CPG;B 2 2 1 1;B 2 2 11 1;L CAB;B 2 2 11 1;L CAC;B 2 2 11 1;L CSN;B 2 2 -1 1;B 2 2 3 1;B 2 2 1 3;E",
        DeviceRefusal::NoTerminal(Point { x: 20, y: 0 }),
    ),
];

#[test]
fn layouts_are_refused(rt: HostRuntime) -> Result<(), Fail> {
    for (shows, text, expected) in REFUSALS {
        let found = transistors(rt.alloc(), APART, text)?;
        assert!(rt; found.err() == Some(expected), "{}", shows);
    }
    Ok(())
}

#[test]
fn a_channel_alone_has_no_terminal(rt: HostRuntime) -> Result<(), Fail> {
    let text = "L CAA;B 2 2 1 1;L CSN;B 2 2 1 1;L CPG;B 2 2 1 1;E";
    let found = transistors(rt.alloc(), CMOS, text)?;
    let expected = DeviceRefusal::NoTerminal(Point { x: 0, y: 0 });
    assert!(rt; found.err() == Some(expected), "a channel alone");
    Ok(())
}

#[test]
fn so_many_transistors_and_no_more(rt: HostRuntime) -> Result<(), Fail> {
    for (more, expected) in [("E", Some(4096)), ("C 1 T 256 0;E", None)] {
        let mut text = String::from_str(rt.alloc(), CHANNELS)?;
        text.push_str(more)?;
        let found = transistors(rt.alloc(), APART, text.as_str())?;
        match found {
            Ok(fets) => assert_eq!(rt; Some(fets.len()), expected, "{}", more),
            Err(refusal) => {
                assert!(rt;
                    expected.is_none() && refusal == DeviceRefusal::TooManyFets,
                    "{}",
                    more
                )
            }
        }
    }
    Ok(())
}
