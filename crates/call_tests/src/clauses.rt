//! Given clauses, and the clauses of gates.
use crate::texts::clauses_of;
use clause_encoder::{Clause, Cnf};
use std::process::Abort;
use std::test::Fail;

const NAND: [&[i32]; 3] = [&[-1, 2, 3], &[-1, 2, 3], &[-1, -2, -3]];

// An AND of five inputs has three inner variables.
const WIDE: [&[i32]; 12] = [
    &[2, -8],
    &[3, -8],
    &[-2, -3, 8],
    &[8, -9],
    &[4, -9],
    &[-4, -8, 9],
    &[9, -10],
    &[5, -10],
    &[-5, -9, 10],
    &[-1, -7, 10],
    &[-1, 6, -7],
    &[-1, -6, 7, -10],
];

fn assert_clauses(rt: &impl Abort, cnf: &Cnf, vars: u32, expected: &[&[i32]]) {
    assert_eq!(rt; (cnf.vars(), cnf.len() as usize), (vars, expected.len()));
    for at in 0..cnf.len() {
        let clause = expected.get(at as usize).copied();
        assert_eq!(rt; Some(cnf.clause(at)), clause);
    }
}

/// A list keeps the clauses that it is made of. A gate has those of its table except those that are always true; a wide gate has a
/// chain of small ones.
#[test]
fn writes_clauses(rt: HostRuntime) -> Result<(), Fail> {
    let alloc = rt.alloc();
    let clauses = vec![in alloc;
        Clause::new(alloc, &[-1, 2, 3])?,
        Clause::new(alloc, &[-1, 2, 3])?,
        Clause::new(alloc, &[-1, -2, -3])?,
    ]?;
    assert_clauses(&rt, &Cnf::of(alloc, 3, clauses)?, 3, &NAND);
    let rows: [(&str, u32, &[&[i32]]); 3] = [
        ("INPUT(a)\ny = NAND(a, a)\n", 3, &NAND),
        (
            "INPUT(a)\ny = XOR(a, a)\n",
            3,
            &[&[-1, 2, -3], &[-1, -2, -3]],
        ),
        (
            "INPUT(a)\nINPUT(b)\nINPUT(c)\nINPUT(d)\nINPUT(e)\ny = AND(a, b, c, d, e)\n",
            10,
            &WIDE,
        ),
    ];
    for (text, vars, expected) in rows {
        assert_clauses(&rt, &clauses_of(alloc, text)?, vars, expected);
    }
    Ok(())
}
