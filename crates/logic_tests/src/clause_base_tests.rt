//! Tests of literals, clauses, formulas and their texts.

use crate::fixtures::{formula, lits};
use clause_base::{
    Clause, Formula, FormulaFault, Lit, distinct, normal, read_decimal, read_formula, solves,
};
use std::test::Fail;

#[test]
fn literals_are_numbers_but_two(rt: HostRuntime) -> Result<(), Fail> {
    let rows = [
        (1, 2),
        (-1, 3),
        (3, 6),
        (i32::MAX, 4_294_967_294),
        (-i32::MAX, 4_294_967_295),
    ];
    for (number, code) in rows {
        let lit = Lit::new(number).ok_or("a literal")?;
        assert_eq!(rt; lit.value(), number);
        assert_eq!(rt; lit.negated().value(), -number);
        assert_eq!(rt; lit.variable(), number.unsigned_abs());
        assert_eq!(rt; lit.code(), code);
    }
    assert!(rt; Lit::new(0).is_none());
    assert!(rt; Lit::new(i32::MIN).is_none());
    Ok(())
}

#[test]
fn decimals_have_no_sign_and_no_leading_zero(rt: HostRuntime) -> Result<(), Fail> {
    let rows: [(&[u8], u64, Option<u64>); 10] = [
        (b"0", 0, Some(0)),
        (b"30", 30, Some(30)),
        (b"31", 30, None),
        (b"18446744073709551615", u64::MAX, Some(u64::MAX)),
        (b"18446744073709551616", u64::MAX, None),
        (b"", 9, None),
        (b"07", 9, None),
        (b"+7", 9, None),
        (b"-0", 9, None),
        (b"7 ", 9, None),
    ];
    for (bytes, most, number) in rows {
        assert_eq!(rt; read_decimal(bytes, most), number);
    }
    Ok(())
}

#[test]
fn clauses_keep_their_literals(rt: HostRuntime) -> Result<(), Fail> {
    let alloc = rt.alloc();
    let rows: [(&[i32], &[i32], bool); 5] = [
        (&[2, -1, 2], &[-1, 2], true),
        (&[1, -1], &[-1, 1], false),
        (&[], &[], true),
        (&[3, 3, 3], &[3], true),
        (&[-5, 3, -2, 5], &[-5, -2, 3, 5], false),
    ];
    for (numbers, sorted, is_normal) in rows {
        let clause = lits(alloc, numbers)?;
        let expected = lits(alloc, sorted)?;
        let found = distinct(alloc, clause.as_slice())?;
        assert_eq!(rt; found.as_slice(), expected.as_slice());
        match normal(alloc, clause.as_slice())? {
            Some(found) => {
                assert!(rt; is_normal);
                assert_eq!(rt; found.as_slice(), expected.as_slice());
            }
            None => assert!(rt; !is_normal),
        }
    }
    Ok(())
}

#[test]
fn values_solve_a_formula(rt: HostRuntime) -> Result<(), Fail> {
    let alloc = rt.alloc();
    let first = Clause::new(alloc, lits(alloc, &[1, 2])?.as_slice())?;
    let second = Clause::new(alloc, lits(alloc, &[1, -2])?.as_slice())?;
    if !first.is_within(2) || !second.is_within(2) || second.is_within(1) {
        return Err(Fail::from("two variables"));
    }
    let mut clauses = Vec::new(alloc);
    clauses.push(first)?;
    clauses.push(second)?;
    let formula = Formula::new(2, clauses);
    let rows = [
        ([true, true], true),
        ([true, false], true),
        ([false, true], false),
        ([false, false], false),
    ];
    for (values, is_solved) in rows {
        assert_eq!(rt; formula.vars(), 2);
        assert_eq!(rt; solves(&formula, values.as_slice()), is_solved);
    }
    Ok(())
}

#[test]
fn texts_spell_formulas(rt: HostRuntime) -> Result<(), Fail> {
    let alloc = rt.alloc();
    let rows: [(&[u8], u32, &[&[i32]]); 5] = [
        (b"p cnf 1 1\n1 0\n%\n0\n", 1, &[&[1]]),
        (
            b"c top\np\nc between\n cnf 2 2\n2 -1\nc inside\r\n2 0 1\t-1 0\r\n",
            2,
            &[&[2, -1, 2], &[1, -1]],
        ),
        (b"p cnf 0 0", 0, &[]),
        (b"\r\n p cnf 3 1 0 %p cnf", 3, &[&[]]),
        (b"p cnf 1000000 1 -1000000 0", 1_000_000, &[&[-1_000_000]]),
    ];
    for (text, vars, clauses) in rows {
        let formula = formula(alloc, text)?;
        assert_eq!(rt; formula.vars(), vars);
        assert_eq!(rt; formula.clauses().len(), clauses.len());
        for (clause, numbers) in formula.clauses().iter().zip(clauses) {
            let expected = lits(alloc, numbers)?;
            assert_eq!(rt; clause.as_slice(), expected.as_slice());
        }
    }
    Ok(())
}

#[test]
fn first_faults_are_told(rt: HostRuntime) -> Result<(), Fail> {
    let alloc = rt.alloc();
    let rows: [(&[u8], FormulaFault); 20] = [
        (b"", FormulaFault::Syntax(0)),
        (b"c only a comment\n", FormulaFault::Syntax(17)),
        (b" c 1 1", FormulaFault::Syntax(1)),
        (b"p\ncnf 1 1\n1 0", FormulaFault::Syntax(10)),
        (b"p cnf 01 1 1 0", FormulaFault::Syntax(6)),
        (b"p cnf 1 x", FormulaFault::Syntax(8)),
        (b"p cnf 1000001 x", FormulaFault::TooLarge(6)),
        (b"p cnf 1 4000001", FormulaFault::TooLarge(8)),
        (b"p cnf 99999999999999999999999", FormulaFault::TooLarge(6)),
        (b"p cnf 1 1 2 0", FormulaFault::Syntax(10)),
        (b"p cnf 1 1 -0 0", FormulaFault::Syntax(10)),
        (b"p cnf 1 1 1", FormulaFault::Syntax(11)),
        (b"p cnf 1 1 % 0", FormulaFault::Syntax(10)),
        (b"p cnf 1 1 1 0 1", FormulaFault::Syntax(14)),
        (b"p cnf 1 1 +1 0", FormulaFault::Syntax(10)),
        (b"p cnf 1 1 - 0", FormulaFault::Syntax(10)),
        (b"p cnf 1 1 00", FormulaFault::Syntax(10)),
        (b"p % 1 1", FormulaFault::Syntax(2)),
        (b"p cnf 1000001 4000001", FormulaFault::TooLarge(6)),
        (b"p cnf 1000000 4000000", FormulaFault::Syntax(21)),
    ];
    for (text, fault) in rows {
        match read_formula(alloc, text) {
            Ok(_) => return Err(Fail::from("a fault")),
            Err(found) => assert_eq!(rt; found, fault),
        }
    }
    Ok(())
}
