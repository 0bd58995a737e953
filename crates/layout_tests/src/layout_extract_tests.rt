//! Nets of small layouts, and their names.

use crate::fixtures::file;
use defect_sweep::{SideWeight, are_sides, counts};
use layer_map::LayerMap;
use layout_extract::{LayoutRefusal, Named, name_nets};
use std::alloc::{AllocError, Global};
use std::test::Fail;

const MAP: &str = "wire poly CPG
wire metal CMF
cut CCP : poly metal
label CMF metal
label CPG poly metal
high Vdd Vcc
low GND Vss
";

/// What naming the nets of this text under the map gives.
fn name_under(alloc: Global, map: &str, text: &str) -> Result<Result<Named, LayoutRefusal>, Fail> {
    let file = file(alloc, text)?;
    let map: LayerMap = layer_map::read(alloc, map.as_bytes())?;
    Ok(name_nets(alloc, &file, &map))
}

/// What naming the nets of this text gives.
fn name(alloc: Global, text: &str) -> Result<Result<Named, LayoutRefusal>, Fail> {
    name_under(alloc, MAP, text)
}

/// The names of the nets, each with a blank after it.
fn names(alloc: Global, named: &Named) -> Result<Vec<u8>, AllocError> {
    let mut text = Vec::new(alloc);
    for name in named.names() {
        text.extend_from_slice(name.as_bytes())?;
        text.push(b' ')?;
    }
    Ok(text)
}

/// Layouts of poly, metal and cuts, and the names of their nets, each with a blank after it.
const NETS: [(&str, &str, &str); 7] = [
    ("a cut alone", "L CCP;B 2 2 1 1;E", ""),
    ("corners meet", "L CPG;B 2 2 1 1;B 2 2 3 3;E", "#0 #1 "),
    ("edges meet", "L CPG;B 2 2 1 1;B 2 4 3 2;E", "#0 "),
    (
        "a cut in both",
        "L CPG;B 4 4 2 2;L CMF;B 8 2 5 2;L CCP;B 2 2 3 2;E",
        "#0 ",
    ),
    (
        "both, and no cut",
        "L CPG;B 4 4 2 2;L CMF;B 8 2 5 2;E",
        "#0 #1 ",
    ),
    (
        "a cut over one and then the other",
        "L CPG;B 4 4 2 2;L CMF;B 4 4 6 2;L CCP;B 4 2 4 2;E",
        "#0 #1 ",
    ),
    (
        "two legs, and a bar over both",
        "L CPG;B 2 10 1 5;B 2 10 9 5;L CMF;B 10 2 5 9;L CCP;B 10 2 5 9;E",
        "#0 ",
    ),
];

#[test]
fn nets_are_counted(rt: HostRuntime) -> Result<(), Fail> {
    for (shows, text, expected) in NETS {
        let named = name(rt.alloc(), text)??;
        let found = names(rt.alloc(), &named)?;
        assert!(rt; found.as_slice() == expected.as_bytes(), "{}", shows);
    }
    Ok(())
}

/// The labels of two blocks of metal, the names of the nets, each with a blank after it, and how many labels are bound,
/// are not bound and stand deep.
type Row = (&'static str, &'static str, (u32, u32, u32));

/// The names and the numbers that two blocks of metal with these labels get.
fn labelled(alloc: Global, labels: &str) -> Result<(Vec<u8>, (u32, u32, u32)), Fail> {
    let mut text = String::from_str(alloc, "L CMF;B 20 20 10 10;B 20 20 50 10;")?;
    text.push_str(labels)?;
    let named = name(alloc, text.as_str())??;
    Ok((names(alloc, &named)?, named.tallies()))
}

#[test]
fn nets_are_joined_and_named(rt: HostRuntime) -> Result<(), Fail> {
    let rows: [Row; 6] = [
        // one name, two names of a supply, and names of both supplies
        ("94 A 10 10 CMF;94 A 50 10 CMF;E", "A ", (2, 0, 0)),
        ("94 Vdd 10 10 CMF;94 Vcc 50 10 CMF;E", "Vcc ", (2, 0, 0)),
        ("94 Vss 10 10 CMF;94 GND 50 10 CMF;E", "GND ", (2, 0, 0)),
        ("94 Vdd 10 10 CMF;94 GND 50 10 CMF;E", "Vdd GND ", (2, 0, 0)),
        // the first of two names, and none
        ("94 B 10 10 CMF;94 A 10 5 CMF;E", "A #1 ", (2, 0, 0)),
        ("E", "#0 #1 ", (0, 0, 0)),
    ];
    for (labels, expected, tallies) in rows {
        let (names, found) = labelled(rt.alloc(), labels)?;
        assert!(rt; names.as_slice() == expected.as_bytes(), "{}", labels);
        assert_eq!(rt; found, tallies, "{}", labels);
    }
    Ok(())
}

#[test]
fn labels_try_wires_and_depths(rt: HostRuntime) -> Result<(), Fail> {
    let rows: [Row; 6] = [
        // the first wire of a list, of the map, and none
        (
            "L CPG;B 20 20 10 10;94 A 10 10 CPG;E",
            "A #1 #2 ",
            (1, 0, 0),
        ),
        ("L CPG;B 20 20 10 10;94 A 10 10;E", "A #1 #2 ", (1, 0, 0)),
        (
            "L CPG;B 20 20 10 10;94 A 10 10 CMF;E",
            "#0 A #2 ",
            (1, 0, 0),
        ),
        ("94 A 50 10 CPG;94 B 80 10;E", "#0 A ", (1, 1, 0)),
        // labels of depth 1 and 2
        ("DS 1;94 A 10 10 CMF;DF;C 1;E", "A #1 ", (1, 0, 0)),
        (
            "DS 1;94 A 10 10 CMF;DF;DS 2;C 1;DF;C 2;E",
            "#0 #1 ",
            (0, 0, 1),
        ),
    ];
    for (labels, expected, tallies) in rows {
        let (names, found) = labelled(rt.alloc(), labels)?;
        assert!(rt; names.as_slice() == expected.as_bytes(), "{}", labels);
        assert_eq!(rt; found, tallies, "{}", labels);
    }
    Ok(())
}

#[test]
fn labels_of_two_pieces_are_refused(rt: HostRuntime) -> Result<(), Fail> {
    let text = "L CMF;B 20 20 10 10;B 20 20 30 30;94 A 20 20 CMF;94 B 20 20;E";
    let answer = name(rt.alloc(), text)?;
    assert!(rt; matches!(answer, Err(LayoutRefusal::LabelAmbiguous(34))));
    Ok(())
}

/// Two metals, and cuts between them.
const METALS: &str = "wire m1 CMF
wire m2 CMS
cut CVA : m1 m2
high Vdd
low GND
";

/// How many pairs of nets a defect of one cell bridges.
fn bridge_count(alloc: Global, named: &Named) -> Result<usize, Fail> {
    let cell = SideWeight {
        cells: 1,
        weight: 1,
    };
    let sides = [cell];
    if !are_sides(&sides) {
        return Err("no sides".into());
    }
    Ok(counts(alloc, named.traced(), &sides)?.list().len())
}

#[test]
fn a_cut_makes_one_net_of_two_metals(rt: HostRuntime) -> Result<(), Fail> {
    let rows = [
        (
            "L CMF; B 10 10 5 5; L CMS; B 10 10 5 5; L CVA; B 2 2 5 5; 94 Vdd 5 5; E",
            "Vdd ",
        ),
        (
            "L CMF; B 10 10 5 5; L CMS; B 10 10 5 5; 94 Vdd 5 5; E",
            "Vdd #1 ",
        ),
    ];
    for (text, expected) in rows {
        let named = name_under(rt.alloc(), METALS, text)??;
        let found = names(rt.alloc(), &named)?;
        assert!(rt; found.as_slice() == expected.as_bytes(), "{}", text);
        assert_eq!(rt; named.tallies(), (1, 0, 0), "{}", text);
        assert_eq!(rt; bridge_count(rt.alloc(), &named)?, 0, "{}", text);
    }
    Ok(())
}
