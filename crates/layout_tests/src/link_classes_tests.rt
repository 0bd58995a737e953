//! The classes of a few pairs.

use link_classes::classes_of;
use std::test::Fail;

#[test]
fn classes_are_numbered_by_their_least_members(rt: HostRuntime) -> Result<(), Fail> {
    let alloc = rt.alloc();
    let rows: [(usize, &[(usize, usize)], &[usize], &[usize]); 5] = [
        (0, &[], &[], &[]),
        (3, &[], &[0, 1, 2], &[0, 1, 2]),
        (3, &[(2, 0)], &[0, 1, 0], &[0, 1]),
        (
            6,
            &[(5, 4), (4, 1), (3, 2), (1, 5)],
            &[0, 1, 2, 2, 1, 1],
            &[0, 1, 2],
        ),
        (
            5,
            &[(4, 3), (3, 2), (2, 1), (1, 0), (2, 2)],
            &[0, 0, 0, 0, 0],
            &[0],
        ),
    ];
    for (size, pairs, label, least) in rows {
        let found = classes_of(alloc, size, pairs)?;
        assert_eq!(rt; found.label.as_slice(), label, "{size}");
        assert_eq!(rt; found.least.as_slice(), least, "{size}");
    }
    Ok(())
}
