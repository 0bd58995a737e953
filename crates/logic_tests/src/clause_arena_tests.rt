//! Tests of stores and arenas.

use crate::fixtures::lits;
use clause_arena::{Arena, Store};
use clause_base::normal;
use std::test::Fail;

#[test]
fn references_give_their_clauses(rt: HostRuntime) -> Result<(), Fail> {
    let alloc = rt.alloc();
    let rows: [(&[i32], &[i32]); 4] = [
        (&[1, -2, 3], &[-2, 1, 3]),
        (&[], &[]),
        (&[-2], &[-2]),
        (&[2, 2, 1], &[1, 2]),
    ];
    let mut arena = Arena::new(alloc);
    for (numbers, sorted) in rows {
        let lits = lits(alloc, numbers)?;
        let clause = normal(alloc, lits.as_slice())?.ok_or("no tautology")?;
        let at = arena.add(clause.as_slice())?;
        let kept = arena.lits(at);
        assert_eq!(rt; kept.len(), sorted.len());
        assert!(rt;
            kept.iter()
                .zip(sorted)
                .all(|(lit, number)| lit.value() == *number)
        );
    }
    assert_eq!(rt; arena.len(), 4);
    Ok(())
}

#[test]
fn a_store_keeps_clauses_as_they_are(rt: HostRuntime) -> Result<(), Fail> {
    let alloc = rt.alloc();
    let rows: [&[i32]; 4] = [&[2, -1, 2], &[], &[1, -1], &[3]];
    let mut store = Store::new(alloc);
    for numbers in rows {
        let lits = lits(alloc, numbers)?;
        let place = store.len();
        store.add(lits.as_slice())?;
        assert_eq!(rt; store.clause(place), lits.as_slice());
    }
    assert_eq!(rt; store.len(), 4);
    Ok(())
}
