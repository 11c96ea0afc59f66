//! Clauses compile within their sum, and not within less.
use crate::texts::clauses_of;
use branch_states::{BUDGET_LIMIT, MeasureError, measure};
use clause_encoder::Cnf;
use dnnf_compiler::{compile, compile_within};
use std::alloc::Global;
use std::test::Fail;

// Makes the clauses of `count` buffers in a row.
fn chain(alloc: Global, count: u32) -> Result<Cnf, Fail> {
    let mut text = String::from_str(alloc, "INPUT(n0000)\n")?;
    for part in 0..count.min(4096) {
        text.push_str(&format!(in alloc; "n{:04} = BUFF(n{part:04})\n", part + 1)?)?;
    }
    clauses_of(alloc, &text)
}

/// Buffers in a row compile within their sum, and not within less.
#[test]
fn compiles_within_a_sum(rt: HostRuntime) -> Result<(), Fail> {
    let alloc = rt.alloc();
    // The variables come in this order: part 1, wire 0, wire 1, then each next part and its output. Nodes are made from the last
    // variable to the first. The state at a wire after wire 0 is what it may be: 0, 1 or anything. An "Or" is an Or node over two
    // And nodes.
    // - 2 at the beginning: the constants true and false.
    // - 1 at the last wire, if it may be anything. If it must be 0 or must be 1, that is a literal.
    // - 5 at each wire between two parts: an And node for 0, an And node for 1, and an Or for anything.
    // - 6 at each part except the first: an Or for each value of its input, 0 or 1.
    // - 6 at wire 0: an Or if part 1 is faulty, and an Or if it is ok.
    // - 3 at part 1: an Or.
    // So there are 11 for each buffer, and 1. The graph has all of them except the two constants, and both literals of each of the
    // 2 * count + 1 variables. The sum is 5 for each buffer, and 2.
    for (count, sum, made, nodes) in [
        (1, 7, 12, 16),
        (40, 202, 441, 484),
        (1000, 5_002, 11_001, 12_004),
    ] {
        assert!(&rt; 1 <= sum && sum <= BUDGET_LIMIT);
        let cnf = chain(alloc, count)?;
        assert_eq!(&rt; measure(alloc, &cnf, BUDGET_LIMIT)?, sum);
        for less in [0, sum - 1] {
            assert!(&rt; less <= BUDGET_LIMIT);
            let refused = compile_within(alloc, &cnf, less).err();
            assert_eq!(&rt; refused, Some(MeasureError::Above));
        }
        for compiled in [compile_within(alloc, &cnf, sum)?, compile(alloc, &cnf)?] {
            assert_eq!(&rt; (compiled.made, compiled.graph.len()), (made, nodes));
        }
    }
    Ok(())
}
