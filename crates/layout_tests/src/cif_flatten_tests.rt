//! Files that are measured and flattened, and their faults.

use crate::fixtures::file;
use cif_flatten::{
    Draw, Flat, FlattenRefusal, Size, UndefinedCall, flatten, recursive_symbol, undefined_call,
    unfolded_size,
};
use plane_geom::Shape;
use std::test::Fail;

/// Texts, and the first call in each that names no symbol.
const CALLS: [(&str, Option<UndefinedCall>); 5] = [
    ("E", None),
    ("C 1; DS 1; DF; E", None),
    ("C 7; E", Some(UndefinedCall { pos: 0, symbol: 7 })),
    (
        "DS 1; C 3; DF; C 2; E",
        Some(UndefinedCall { pos: 6, symbol: 3 }),
    ),
    (
        "C 2; DS 1; C 3; DF; E",
        Some(UndefinedCall { pos: 0, symbol: 2 }),
    ),
];

/// Texts, and how much each unfolds to: nothing where a symbol calls itself.
const SIZES: [(&str, Option<Size>); 6] = [
    (
        "E",
        Some(Size {
            calls: 0,
            weight: 0,
        }),
    ),
    (
        "L CMF; B 2 2 1 1; 94 A 1 1; W 2 0 0 4 0; P 0 0 4 0 4 4 0 4; E",
        Some(Size {
            calls: 0,
            weight: 8,
        }),
    ),
    (
        "DS 2; C 1; C 1; DF; DS 1; L CMF; B 2 2 1 1; DF; C 2; C 2; E",
        Some(Size {
            calls: 6,
            weight: 4,
        }),
    ),
    ("DS 1; C 2; DF; DS 2; C 1; DF; C 1; E", None),
    ("DS 1; DF; DS 3; C 3; DF; C 1; E", None),
    (
        "DS 3; C 2; C 1; DF; DS 2; C 1; DF; DS 1; DF; E",
        Some(Size {
            calls: 0,
            weight: 0,
        }),
    ),
];

#[test]
fn the_first_undefined_call_is_found(rt: HostRuntime) -> Result<(), Fail> {
    let alloc = rt.alloc();
    for (text, call) in CALLS {
        let file = file(alloc, text)?;
        assert_eq!(rt; undefined_call(&file), call, "{text}");
    }
    Ok(())
}

#[test]
fn files_are_measured_and_recursion_is_found(rt: HostRuntime) -> Result<(), Fail> {
    let alloc = rt.alloc();
    for (text, size) in SIZES {
        let file = file(alloc, text)?;
        assert_eq!(rt; unfolded_size(alloc, &file)?, size, "{text}");
    }
    Ok(())
}

/// Texts, and the least symbol in each that calls itself.
const CIRCLES: [(&str, Option<u32>); 6] = [
    ("DS 1; DF; DS 2; C 1; DF; C 2; E", None),
    ("DS 1; C 2; DF; DS 2; C 1; DF; C 1; E", Some(1)),
    ("DS 1; DF; DS 3; C 3; DF; C 1; E", Some(3)),
    ("DS 1; C 2; DF; DS 2; C 5; DF; DS 5; C 2; DF; E", Some(2)),
    ("DS 1; C 7; DF; C 1; E", None),
    (
        "DS 1; C 4; DF; DS 4; C 3; DF; DS 5; C 4; C 2; DF; DS 3; C 5; DF; DS 2; DF; C 1; E",
        Some(3),
    ),
];

#[test]
fn the_least_symbol_that_calls_itself_is_found(rt: HostRuntime) -> Result<(), Fail> {
    let alloc = rt.alloc();
    for (text, symbol) in CIRCLES {
        let file = file(alloc, text)?;
        assert_eq!(rt; recursive_symbol(alloc, &file)?, symbol, "{text}");
    }
    Ok(())
}

/// Texts, and how many shapes and labels each has when it is flattened, or why it is not.
const OUTCOMES: [(&str, Result<(usize, usize), FlattenRefusal>); 17] = [
    ("E", Ok((0, 0))),
    ("C 7; E", Err(FlattenRefusal::Undefined(0, 7))),
    (
        "DS 1; C 1; DF; C 9; E",
        Err(FlattenRefusal::Undefined(15, 9)),
    ),
    (
        "DS 1; DF; DS 3; C 3; DF; C 1; E",
        Err(FlattenRefusal::Recursive(3)),
    ),
    ("L CMF; B 2 2 8388607 0; E", Ok((1, 0))),
    (
        "L CMF; B 2 2 8388608 0; E",
        Err(FlattenRefusal::OutOfRange(7)),
    ),
    (
        "L CMF; B 2147483647 2 0 0; E",
        Err(FlattenRefusal::OutOfRange(7)),
    ),
    (
        "94 A 0 8388609; L CMF; W 2 8388608 0; E",
        Err(FlattenRefusal::OutOfRange(0)),
    ),
    (
        "L CMF; W 2 8388607 0; W 4 8388607 0; E",
        Err(FlattenRefusal::OutOfRange(22)),
    ),
    (
        "DS 1; DF; DS 2; C 1; C 1; DF; DS 3; C 2; C 2; DF; DS 4; C 3; C 3; DF; DS 5; C 4; C 4; DF; DS 6; \
         C 5; C 5; DF; DS 7; C 6; C 6; DF; DS 8; C 7; C 7; DF; DS 9; C 8; C 8; DF; DS 10; C 9; C 9; DF; \
         DS 11; C 10; C 10; DF; DS 12; C 11; C 11; DF; DS 13; C 12; C 12; DF; DS 14; C 13; C 13; DF; \
         DS 15; C 14; C 14; DF; DS 16; C 15; C 15; DF; C 15; C 15; E",
        Ok((0, 0)),
    ),
    (
        "DS 1; DF; DS 2; C 1; C 1; DF; DS 3; C 2; C 2; DF; DS 4; C 3; C 3; DF; DS 5; C 4; C 4; DF; DS 6; \
         C 5; C 5; DF; DS 7; C 6; C 6; DF; DS 8; C 7; C 7; DF; DS 9; C 8; C 8; DF; DS 10; C 9; C 9; DF; \
         DS 11; C 10; C 10; DF; DS 12; C 11; C 11; DF; DS 13; C 12; C 12; DF; DS 14; C 13; C 13; DF; \
         DS 15; C 14; C 14; DF; DS 16; C 15; C 15; DF; C 16; C 1; E",
        Ok((0, 0)),
    ),
    (
        "DS 1; DF; DS 2; C 1; C 1; DF; DS 3; C 2; C 2; DF; DS 4; C 3; C 3; DF; DS 5; C 4; C 4; DF; DS 6; \
         C 5; C 5; DF; DS 7; C 6; C 6; DF; DS 8; C 7; C 7; DF; DS 9; C 8; C 8; DF; DS 10; C 9; C 9; DF; \
         DS 11; C 10; C 10; DF; DS 12; C 11; C 11; DF; DS 13; C 12; C 12; DF; DS 14; C 13; C 13; DF; \
         DS 15; C 14; C 14; DF; DS 16; C 15; C 15; DF; C 16; C 1; C 1; E",
        Err(FlattenRefusal::TooManyCalls),
    ),
    (
        "DS 1; DF; DS 2; C 1; C 1; DF; DS 3; C 2; C 2; DF; DS 4; C 3; C 3; DF; DS 5; C 4; C 4; DF; DS 6; \
         C 5; C 5; DF; DS 7; C 6; C 6; DF; DS 8; C 7; C 7; DF; DS 9; C 8; C 8; DF; DS 10; C 9; C 9; DF; \
         DS 11; C 10; C 10; DF; DS 12; C 11; C 11; DF; DS 13; C 12; C 12; DF; DS 14; C 13; C 13; DF; \
         DS 15; C 14; C 14; DF; DS 16; C 15; C 15; DF; C 16; C 16; E",
        Err(FlattenRefusal::TooManyCalls),
    ),
    (
        "DS 1; L CMF; B 2 2 1 1; B 2 2 1 1; B 2 2 1 1; B 2 2 1 1; B 2 2 1 1; B 2 2 1 1; B 2 2 1 1; \
         B 2 2 1 1; DF; DS 2; C 1; C 1; C 1; C 1; C 1; C 1; C 1; C 1; C 1; C 1; C 1; C 1; C 1; C 1; C 1; \
         C 1; DF; DS 3; C 2; C 2; C 2; C 2; C 2; C 2; C 2; C 2; C 2; C 2; C 2; C 2; C 2; C 2; C 2; C 2; \
         DF; C 3; C 3; C 3; C 3; C 3; C 3; C 3; C 3; C 3; C 3; C 3; C 3; C 3; C 3; C 3; C 3; E",
        Ok((32_768, 0)),
    ),
    (
        "DS 1; L CMF; B 2 2 1 1; B 2 2 1 1; B 2 2 1 1; B 2 2 1 1; B 2 2 1 1; B 2 2 1 1; B 2 2 1 1; \
         B 2 2 1 1; DF; DS 2; C 1; C 1; C 1; C 1; C 1; C 1; C 1; C 1; C 1; C 1; C 1; C 1; C 1; C 1; C 1; \
         C 1; DF; DS 3; C 2; C 2; C 2; C 2; C 2; C 2; C 2; C 2; C 2; C 2; C 2; C 2; C 2; C 2; C 2; C 2; \
         DF; C 3; C 3; C 3; C 3; C 3; C 3; C 3; C 3; C 3; C 3; C 3; C 3; C 3; C 3; C 3; C 3; 94 A 0 0; E",
        Err(FlattenRefusal::TooManyEdges),
    ),
    (
        "DS 1; L CMF; B 1 1 0 0; DF; DS 2; C 1; C 1 T 2 2; DF; DS 3; C 2; C 2 T 4 4; DF; DS 4; C 3; \
         C 3 T 8 8; DF; DS 5; C 4; C 4 T 16 16; DF; DS 6; C 5; C 5 T 32 32; DF; DS 7; C 6; C 6 T 64 64; \
         DF; DS 8; C 7; C 7 T 128 128; DF; DS 9; C 8; C 8 T 256 256; DF; DS 10; C 9; C 9 T 512 512; DF; \
         DS 11; C 10; C 10 T 1024 1024; DF; C 11; E",
        Ok((1_024, 0)),
    ),
    (
        "DS 1; L CMF; B 1 1 0 0; DF; DS 2; C 1; C 1 T 2 2; DF; DS 3; C 2; C 2 T 4 4; DF; DS 4; C 3; \
         C 3 T 8 8; DF; DS 5; C 4; C 4 T 16 16; DF; DS 6; C 5; C 5 T 32 32; DF; DS 7; C 6; C 6 T 64 64; \
         DF; DS 8; C 7; C 7 T 128 128; DF; DS 9; C 8; C 8 T 256 256; DF; DS 10; C 9; C 9 T 512 512; DF; \
         DS 11; C 10; C 10 T 1024 1024; DF; C 11; C 1 T 0 5000; E",
        Err(FlattenRefusal::TooFine),
    ),
];

/// How many shapes and labels there are, if the file is flattened.
fn counts(flat: Result<Flat, FlattenRefusal>) -> Result<(usize, usize), FlattenRefusal> {
    let flat = flat?;
    Ok((flat.draws().len(), flat.marks().len()))
}

#[test]
fn files_are_flattened_or_refused(rt: HostRuntime) -> Result<(), Fail> {
    let alloc = rt.alloc();
    for (text, outcome) in OUTCOMES {
        let file = file(alloc, text)?;
        assert_eq!(rt; counts(flatten(alloc, &file)), outcome, "{text}");
    }
    Ok(())
}

/// A symbol that is called with its transformations in one order, in the other, and inside of another symbol.
const TURNED: &str =
    "DS 1; L CMF; B 2 4 1 2; 94 A 1 3; DF; DS 2; C 1 MX; DF; C 1 MX T 10 0; C 1 T 10 0 MX; C 2 T 10 0; E";

/// The left end of each placed box.
const LEFTS: [i64; 3] = [16, -24, 16];

/// Where each label lies in x, and in how many calls it stands.
const LABELS: [(i64, u32); 3] = [(18, 1), (-22, 1), (18, 2)];

/// The left end of a box.
fn left(draw: &Draw) -> Option<i64> {
    match &draw.shape {
        Shape::Block(rect) => Some(rect.x0),
        _ => None,
    }
}

#[test]
fn transformations_apply_from_left_to_right(rt: HostRuntime) -> Result<(), Fail> {
    let alloc = rt.alloc();
    let flat = flatten(alloc, &file(alloc, TURNED)?)?;
    assert_eq!(rt; flat.draws().len(), LEFTS.len());
    for (draw, x) in flat.draws().iter().zip(LEFTS) {
        assert_eq!(rt; left(draw), Some(x));
    }
    assert_eq!(rt; flat.marks().len(), LABELS.len());
    for (mark, (x, depth)) in flat.marks().iter().zip(LABELS) {
        assert_eq!(rt; mark.at.x, x);
        assert_eq!(rt; mark.depth, depth);
    }
    Ok(())
}
