//! Regions of a few rectangles.

ghost use Rattle.std.specs.Prelude.{◌^◌, IfOk};
ghost use Rattle.std.specs.List.{All};
ghost use Rattle.plane_geom.specs.Bounds.{IsRectWithin};
ghost use Rattle.mask_region.specs.Strips.{AreStripsWithin};

use mask_region::{Masks, Region, Strip};
use plane_geom::{Point, Rect};
use std::alloc::{AllocError, Global};
use std::test::Fail;

/// The corners of a rectangle: x0, y0, x1, y1.
type Corners = (i16, i16, i16, i16);

fn rect(corners: Corners) -> Rect
    ensures { IsRectWithin (2 ^ 24) result }
{
    Rect {
        x0: corners.0 as i64,
        y0: corners.1 as i64,
        x1: corners.2 as i64,
        y1: corners.3 as i64,
    }
}

/// The rectangles with these corners.
fn rects(alloc: Global, corners: &[Corners]) -> Result<Vec<Rect>, AllocError>
    ensures { IfOk result (λ v. All (IsRectWithin (2 ^ 24)) v.items) }
{
    let mut rects = Vec::new(alloc);
    for four in corners {
        rects.push(rect(*four))?;
    }
    Ok(rects)
}

/// The region of the rectangles with these corners.
fn region(alloc: Global, corners: &[Corners]) -> Result<Region, AllocError>
    ensures { IfOk result (AreStripsWithin (2 ^ 24)) }
{
    let rects = rects(alloc, corners)?;
    let region = Region::of_rects(alloc, rects.as_slice())?;
    let _strips = region.strips();
    Ok(region)
}

/// Two regions, and how many cells there are in their union, in their meet, in the first alone and in the second alone.
#[derive(Clone, Copy)]
struct Row {
    shows: &'static str,
    a: &'static [Corners],
    b: &'static [Corners],
    areas: [u64; 4],
}

/// How many cells there are in the row's joined regions.
fn joined_areas(alloc: Global, row: &Row) -> Result<[u64; 4], AllocError> {
    let a = region(alloc, row.a)?;
    let b = region(alloc, row.b)?;
    Ok([
        a.union(alloc, &b)?.area(),
        a.meet(alloc, &b)?.area(),
        a.minus(alloc, &b)?.area(),
        b.minus(alloc, &a)?.area(),
    ])
}

#[test]
fn joins_regions_that_lie_apart(rt: HostRuntime) -> Result<(), Fail> {
    let rows = [
        Row {
            shows: "nothing and nothing",
            a: &[],
            b: &[],
            areas: [0, 0, 0, 0],
        },
        Row {
            shows: "nothing and a square",
            a: &[],
            b: &[(0, 0, 4, 4)],
            areas: [16, 0, 0, 16],
        },
        Row {
            shows: "squares with an edge in common",
            a: &[(0, 0, 2, 2)],
            b: &[(2, 0, 4, 2)],
            areas: [8, 0, 4, 4],
        },
        Row {
            shows: "squares with a corner in common",
            a: &[(-2, -2, 0, 0)],
            b: &[(0, 0, 2, 2)],
            areas: [8, 0, 4, 4],
        },
    ];
    for row in &rows {
        assert_eq!(rt; joined_areas(rt.alloc(), row)?, row.areas, "{}", row.shows);
    }
    Ok(())
}

#[test]
fn joins_regions_that_overlap(rt: HostRuntime) -> Result<(), Fail> {
    let rows = [
        Row {
            shows: "a square in a square",
            a: &[(0, 0, 4, 4)],
            b: &[(1, 1, 3, 3)],
            areas: [16, 4, 12, 0],
        },
        Row {
            shows: "squares that overlap",
            a: &[(0, 0, 4, 4)],
            b: &[(2, 2, 6, 6)],
            areas: [28, 4, 12, 12],
        },
        Row {
            shows: "crossing bars, one of them drawn twice and in two parts",
            a: &[(0, 4, 10, 6), (0, 4, 6, 6), (5, 4, 10, 6)],
            b: &[(4, 0, 6, 10)],
            areas: [36, 4, 16, 16],
        },
    ];
    for row in &rows {
        assert_eq!(rt; joined_areas(rt.alloc(), row)?, row.areas, "{}", row.shows);
    }
    Ok(())
}

#[test]
fn keeps_few_strips(rt: HostRuntime) -> Result<(), Fail> {
    let rows: [(&[Corners], &[Strip]); 3] = [
        (&[], &[]),
        (
            &[(0, 0, 2, 2), (2, 0, 4, 2), (0, 2, 4, 3), (7, 7, 7, 9)],
            &[strip(0, 3, 0, 4)],
        ),
        (
            &[(0, 0, 4, 4), (6, 0, 8, 4), (3, 3, 7, 5)],
            &[
                strip(0, 3, 0, 4),
                strip(0, 3, 6, 8),
                strip(3, 4, 0, 8),
                strip(4, 5, 3, 7),
            ],
        ),
    ];
    for (corners, strips) in rows {
        let made = region(rt.alloc(), corners)?;
        assert_eq!(rt; made.strips(), strips);
    }
    Ok(())
}

fn strip(y0: i32, y1: i32, x0: i32, x1: i32) -> Strip {
    Strip { y0, y1, x0, x1 }
}

#[test]
fn grows_to_the_left_and_down(rt: HostRuntime) -> Result<(), Fail> {
    let square = region(rt.alloc(), &[(0, 0, 20, 20)])?;
    let grown = square.grow(rt.alloc(), 6)?;
    assert_eq!(rt; grown.strips(), [strip(-5, 20, -5, 20)].as_slice());
    assert_eq!(rt; grown.area(), 625);
    assert_eq!(rt; square.grow(rt.alloc(), 1)?.area(), 400);

    let apart = region(rt.alloc(), &[(0, 0, 2, 2), (6, 0, 8, 2)])?;
    assert_eq!(rt; apart.grow(rt.alloc(), 4)?.area(), 5 * 10);
    assert_eq!(rt; apart.grow(rt.alloc(), 5)?.area(), 6 * 12);
    assert_eq!(rt; Region::empty(rt.alloc()).grow(rt.alloc(), 5)?.area(), 0);
    Ok(())
}

#[test]
fn finds_a_cell(rt: HostRuntime) -> Result<(), Fail> {
    let made = region(rt.alloc(), &[(0, 0, 4, 4), (6, 0, 8, 4), (3, 3, 7, 5)])?;
    for (x, y, is_in) in [
        (0, 0, true),
        (4, 0, false),
        (3, 2, true),
        (5, 2, false),
        (5, 3, true),
        (7, 2, true),
        (8, 2, false),
        (3, 4, true),
        (2, 4, false),
        (3, 5, false),
        (-1, 0, false),
        (4_294_967_296, 0, false),
    ] {
        assert_eq!(rt; made.has(Point { x, y }), is_in, "at {x} {y}");
    }
    Ok(())
}

#[test]
fn a_square_inside_leaves_a_frame(rt: HostRuntime) -> Result<(), Fail> {
    let outer = region(rt.alloc(), &[(0, 0, 4, 4)])?;
    let inner = region(rt.alloc(), &[(1, 1, 3, 3)])?;
    let frame = outer.minus(rt.alloc(), &inner)?;
    assert_eq!(rt; frame.area(), 12);
    assert!(rt; !frame.has(Point { x: 1, y: 1 }));
    assert!(rt; frame.has(Point { x: 0, y: 1 }));
    Ok(())
}

#[test]
fn lends_its_regions(rt: HostRuntime) -> Result<(), Fail> {
    let mut wires = Vec::new(rt.alloc());
    let mut cuts = Vec::new(rt.alloc());
    wires.push(region(rt.alloc(), &[(0, 0, 4, 4)])?)?;
    wires.push(Region::empty(rt.alloc()))?;
    cuts.push(region(rt.alloc(), &[(1, 1, 3, 3)])?)?;
    let masks = Masks::new(wires, cuts, Vec::new(rt.alloc()));
    assert_eq!(rt; masks.wires().len(), 2);
    assert_eq!(rt; masks.cuts().len(), 1);
    assert_eq!(rt; masks.channels().len(), 0);
    for cut in masks.cuts() {
        assert_eq!(rt; cut.area(), 4);
    }
    Ok(())
}

#[test]
fn is_built_strip_by_strip(rt: HostRuntime) -> Result<(), Fail> {
    let mut made = Region::empty(rt.alloc());
    made.push(Strip {
        y0: 0,
        y1: 3,
        x0: 0,
        x1: 4,
    })?;
    let first = made.copy(rt.alloc())?;
    assert_eq!(rt; first.strips(), [strip(0, 3, 0, 4)].as_slice());
    assert_eq!(rt; first.strip_at(Point { x: 3, y: 2 }), Some(0));
    assert_eq!(rt; first.strip_at(Point { x: 4, y: 2 }), None);
    assert_eq!(rt; first.strip_at(Point { x: 3, y: 3 }), None);
    Ok(())
}
