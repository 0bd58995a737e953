//! Texts that are read, and texts that are refused.

use crate::fixtures::repeated;
use cif_reader::{CifFile, CifRefusal, Feature, What, read};
use plane_geom::{Place, Point, Rect, Shape, Turn};
use std::alloc::{AllocError, Global};
use std::test::Fail;

fn is_read(alloc: Global, text: &[u8]) -> bool {
    read(alloc, text).is_ok()
}

fn refusal_of(alloc: Global, text: &[u8]) -> Option<CifRefusal> {
    match read(alloc, text) {
        Ok(_) => None,
        Err(refusal) => Some(refusal),
    }
}

/// Texts, and why each is refused.
const FAULTY: [(&str, CifRefusal); 35] = [
    (
        "L CMF; R 10 0 0; E",
        CifRefusal::Unsupported(7, Feature::Round),
    ),
    ("DD 1; E", CifRefusal::Unsupported(0, Feature::DefDelete)),
    (
        "Delete Def 1; E",
        CifRefusal::Unsupported(0, Feature::DefDelete),
    ),
    ("L CMF; P 0 0 10 0 10 10; E", CifRefusal::NotManhattan(7)),
    ("L CMF; W 2 0 0 5 5; E", CifRefusal::NotManhattan(7)),
    ("L CMF; B 2 2 0 0 1 1; E", CifRefusal::NotManhattan(7)),
    ("C 1 R 1 1 T 2147483647 0; E", CifRefusal::NotManhattan(0)),
    ("L CMF; B 10 10 5", CifRefusal::Syntax(7)),
    ("L CMF; B 10 10 5 5;", CifRefusal::Syntax(19)),
    ("", CifRefusal::Syntax(0)),
    ("  ", CifRefusal::Syntax(2)),
    (
        "DS 1 2; L CMF; B 10 10 5 5; DF; C 1; E",
        CifRefusal::Syntax(0),
    ),
    ("DS 1; E", CifRefusal::Syntax(6)),
    ("DS 1; DS 2; DF; E", CifRefusal::Syntax(6)),
    ("DF; E", CifRefusal::Syntax(0)),
    ("LAYER CMF; E", CifRefusal::Syntax(0)),
    ("((); E", CifRefusal::Syntax(0)),
    ("B 10 10 5 5; E", CifRefusal::NoLayer(0)),
    ("DS 1; L CMF; DF; B 2 2 1 1; E", CifRefusal::NoLayer(17)),
    ("L CMF; DS 1; B 2 2 1 1; DF; E", CifRefusal::NoLayer(13)),
    (
        "L CMF; B 2147483648 2 0 0; E",
        CifRefusal::NumberTooLarge(9),
    ),
    (
        "L CMF; B 2 2 -00999999999999999999999999 0; E",
        CifRefusal::NumberTooLarge(14),
    ),
    (
        "L CMF; B 2 2 1073741823 0; E",
        CifRefusal::NumberTooLarge(7),
    ),
    ("C 1 T 1073741824 0; E", CifRefusal::NumberTooLarge(0)),
    ("DS 1; DF; DS 1; DF; E", CifRefusal::TwiceDefined(10)),
    ("DS 1 0 1; DF; E", CifRefusal::ZeroScale(0)),
    ("DS 1 1 0; DF; E", CifRefusal::ZeroScale(0)),
    (
        "DS 1 1 2; L CMF; B 3 4 0 0; DF; C 1; E",
        CifRefusal::OffGrid(17),
    ),
    ("DS 1 1 4; C 2 T 1 0 T 1 0; DF; E", CifRefusal::OffGrid(10)),
    ("94; E", CifRefusal::BadLabel(0)),
    ("94 #1 0 0; E", CifRefusal::BadLabel(0)),
    ("94 Vdd 2147483648 0; E", CifRefusal::BadLabel(0)),
    ("94 Vdd 0 0 metal; E", CifRefusal::BadLabel(0)),
    ("94 Vdd 1073741824 0; E", CifRefusal::NumberTooLarge(0)),
    ("94 Vdd 0 0", CifRefusal::Syntax(0)),
];

#[test]
fn refuses_the_first_fault_at_its_place(rt: HostRuntime) {
    let alloc = rt.alloc();
    for (text, refusal) in FAULTY {
        assert!(rt;
            refusal_of(alloc, text.as_bytes()) == Some(refusal),
            "{text}"
        );
    }
}

#[test]
fn reads_what_has_no_fault(rt: HostRuntime) {
    let alloc = rt.alloc();
    for text in [
        "E",
        " ;; End of all",
        "94A; E",
        "94\u{b}x; E",
        "9 name; (a ; (b) c); E",
        "DS 1 1 4; L CMF; B 2 2 1 1; DF; E",
        "C 7 T 2147483647 0 T -2147483647 0; E",
        "L CMF; BOX LENGTH 10 WIDTH 10 CENTER 5,5; E",
        "L CMF; W 0 3 4; P 0 0; E",
        "DS 1; L CMF; BOX LENGTH 10 WIDTH 10 CENTER 5,5; DF; C 1; C 1 T 12 0; 94 Vdd 5 5; 94 GND 17 5; End",
        "DS 0000000000000000000000000000000000000001; DF; E",
    ] {
        assert!(rt; is_read(alloc, text.as_bytes()), "{text}");
    }
}

#[test]
fn reads_long_commands(rt: HostRuntime) -> Result<(), Fail> {
    let alloc = rt.alloc();
    let rows: [(&[u8], &[u8], usize, &[u8], Option<CifRefusal>); 6] = [
        (b"L CMF; P 0 0", b" 0 0", 1023, b"; E", None),
        (
            b"L CMF; P 0 0",
            b" 0 0",
            1024,
            b"; E",
            Some(CifRefusal::TooManyPoints(7)),
        ),
        (b"L CMF; W 2 0 0", b" 0 0", 1023, b"; E", None),
        (
            b"L CMF; W 2 0 0",
            b" 0 0",
            1024,
            b"; E",
            Some(CifRefusal::TooManyPoints(7)),
        ),
        (
            b"L CMF; B ",
            b"9",
            40,
            b" 1 0 0; E",
            Some(CifRefusal::NumberTooLarge(9)),
        ),
        (b"", b"(", 100_000, b");E", Some(CifRefusal::Syntax(0))),
    ];
    for (start, part, count, end, refusal) in rows {
        let text = repeated(alloc, start, part, count, end)?;
        assert!(rt; refusal_of(alloc, text.as_slice()) == refusal);
    }
    let open = repeated(alloc, b"", b"(", 100_000, b"")?;
    let nested = repeated(alloc, open.as_slice(), b")", 100_000, b";E")?;
    assert!(rt; is_read(alloc, nested.as_slice()));
    Ok(())
}

fn blocks_of(alloc: Global, file: &CifFile) -> Result<Vec<(u64, Rect)>, AllocError> {
    let mut rows = Vec::new(alloc);
    for item in file.top() {
        if let What::Draw {
            shape: Shape::Block(rect),
            ..
        } = &item.what
        {
            rows.push((item.pos, *rect))?;
        }
    }
    Ok(rows)
}

#[test]
fn scales_boxes(rt: HostRuntime) -> Result<(), Fail> {
    let alloc = rt.alloc();
    let file = read(alloc, b"L CMF; B 10 4 5 2; B 10 4 5 2 0 1; E")?;
    let rows = blocks_of(alloc, &file)?;
    let flat = Rect {
        x0: 0,
        y0: 0,
        x1: 20,
        y1: 8,
    };
    let upright = Rect {
        x0: 6,
        y0: -6,
        x1: 14,
        y1: 14,
    };
    assert!(rt; rows.as_slice() == [(7, flat), (19, upright)].as_slice());
    Ok(())
}

#[test]
fn keeps_symbols_calls_and_labels(rt: HostRuntime) -> Result<(), Fail> {
    let alloc = rt.alloc();
    let file = read(
        alloc,
        b"DS 5 25 2; 94 A 2 -4 CMF; DF; C 5 T 10 0 R 0 1 T 0 -3; E",
    )?;
    assert_eq!(rt; file.symbol_count(), 1);
    assert!(rt; file.symbol(4).is_none());
    assert!(rt; file.symbol_at(1).is_none());
    let symbol = file.symbol(5).ok_or("no symbol")?;
    assert!(rt; symbol.pos == 0 && symbol.items.len() == 1);
    let marked = symbol.items.first().ok_or("no item")?;
    let What::Mark { name, at, layer } = &marked.what else {
        return Err("no label".into());
    };
    assert!(rt;
        name.as_bytes() == b"A".as_slice() && *at == Point { x: 50, y: -100 } && layer.is_some()
    );
    let called = file.top().first().ok_or("no item")?;
    let What::Call { symbol, place } = &called.what else {
        return Err("no call".into());
    };
    let left = Turn {
        swap: true,
        neg_x: true,
        neg_y: false,
    };
    let wanted = Place {
        turn: left,
        dx: 0,
        dy: 14,
    };
    assert!(rt; *symbol == 5 && *place == wanted);
    Ok(())
}
