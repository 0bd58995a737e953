//! Names, places and reaches.

ghost use Rattle.std.specs.Prelude.{◌^◌, pos, IfOk};
ghost use Rattle.std.specs.List.{All};
ghost use Rattle.plane_geom.specs.Bounds.{IsPointWithin};
ghost use Rattle.plane_geom.specs.Covering.{polygon, wire, IsWellFormed};

use plane_geom::{Label, Place, Point, Rect, Shape, Short, Turn};
use std::alloc::{AllocError, Global};
use std::test::Fail;

const STILL: Turn = Turn {
    swap: false,
    neg_x: false,
    neg_y: false,
};

const LEFT: Turn = Turn {
    swap: true,
    neg_x: true,
    neg_y: false,
};

#[test]
fn takes_short_names_alone(rt: HostRuntime) -> Result<(), Fail> {
    for text in ["C", "CMF", "NW1Z", "0123"] {
        let short = Short::new(text.as_bytes()).ok_or("refused")?;
        assert_eq!(rt; short.as_bytes(), text.as_bytes(), "{text}");
    }
    for text in ["", "CMFAB", "cmf", "A-B", "A B"] {
        assert!(rt; Short::new(text.as_bytes()).is_none(), "{text}");
    }
    assert!(rt; Short::new(b"CM") == Short::new(b"CM"));
    assert!(rt; Short::new(b"CM") != Short::new(b"CMF"));
    Ok(())
}

#[test]
fn keeps_a_label(rt: HostRuntime) -> Result<(), Fail> {
    let label = Label::new(rt.alloc(), b"Vdd!")?;
    assert_eq!(rt; label.as_bytes(), b"Vdd!".as_slice());
    Ok(())
}

#[test]
fn refuses_points_out_of_range(rt: HostRuntime) {
    let here = Place {
        turn: STILL,
        dx: 0,
        dy: 0,
    };
    for (x, y, stays) in [
        (16_777_216, 0, true),
        (16_777_217, 0, false),
        (-16_777_216, -16_777_216, true),
        (0, -16_777_217, false),
    ] {
        let p = Point { x, y };
        let wanted = if stays { Some(p) } else { None };
        assert!(rt; here.apply(p) == wanted, "at {x} {y}");
    }
}

#[test]
fn places_one_after_the_other(rt: HostRuntime) {
    let place = |turn, dx, dy| Place { turn, dx, dy };
    let turn = place(LEFT, 0, 0);
    let shift = place(STILL, 10, 0);
    assert!(rt; turn.then(shift) == place(LEFT, 10, 0));
    assert!(rt; shift.then(turn) == place(LEFT, 0, 10));
    let halfway = Turn {
        swap: false,
        neg_x: true,
        neg_y: true,
    };
    assert!(rt; turn.then(turn) == place(halfway, 0, 0));

    let p = Point { x: 1, y: 2 };
    for (placed, x, y) in [(place(LEFT, 10, 0), 8, 1), (place(LEFT, 0, 10), -2, 11)] {
        let wanted = Point { x, y };
        assert!(rt; placed.apply(p) == Some(wanted), "at {x} {y}");
    }
}

/// The corners of a rectangle of 20 by 7.
fn corners(alloc: Global) -> Result<Vec<Point>, AllocError>
    ensures formed { IfOk result (λ v. IsWellFormed (polygon v.items)) }
    ensures path { IfOk result (λ v. IsWellFormed (wire (pos 4) v.items)) }
    ensures near { IfOk result (λ v. All (IsPointWithin (2 ^ 60)) v.items) }
{
    let mut points = Vec::new(alloc);
    points.push(Point { x: 0, y: 0 })?;
    points.push(Point { x: 20, y: 0 })?;
    points.push(Point { x: 20, y: -7 })?;
    points.push(Point { x: 0, y: -7 })?;
    Ok(points)
}

#[test]
fn reaches_round_all_points(rt: HostRuntime) -> Result<(), Fail> {
    let round = Rect {
        x0: 0,
        y0: -7,
        x1: 20,
        y1: 0,
    };
    let wide = Rect {
        x0: -4,
        y0: -11,
        x1: 24,
        y1: 4,
    };
    let outline = Shape::Polygon(corners(rt.alloc())?);
    let wire = Shape::Wire {
        half: 4,
        path: corners(rt.alloc())?,
    };
    assert!(rt; outline.reach() == round);
    assert!(rt; wire.reach() == wide);
    assert!(rt; Shape::Block(wide).reach() == wide);
    Ok(())
}
