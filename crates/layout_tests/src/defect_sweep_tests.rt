//! Sides of defects.

use defect_sweep::{SideWeight, are_sides};
use std::alloc::{AllocError, Global};
use std::test::Fail;

/// The sides with these numbers of cells and weights.
fn sides(alloc: Global, pairs: &[(u32, u32)]) -> Result<Vec<SideWeight>, AllocError> {
    let mut sides = Vec::new(alloc);
    for (cells, weight) in pairs {
        sides.push(SideWeight {
            cells: *cells,
            weight: *weight,
        })?;
    }
    Ok(sides)
}

#[test]
fn tells_sides(rt: HostRuntime) -> Result<(), Fail> {
    let rows: [(&[(u32, u32)], bool); 8] = [
        (&[(1, 1)], true),
        (&[(2, 30), (65_536, 1)], true),
        (&[], false),
        (&[(0, 1)], false),
        (&[(65_537, 1)], false),
        (&[(6, 31)], false),
        (&[(6, 0)], false),
        (&[(6, 1), (6, 1)], false),
    ];
    for (pairs, is) in rows {
        let sides = sides(rt.alloc(), pairs)?;
        assert_eq!(rt; are_sides(sides.as_slice()), is);
    }
    Ok(())
}
