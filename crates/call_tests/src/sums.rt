//! The levels of a clause list, and what is left at the first.
use crate::texts::clauses_of;
use branch_states::Branches;
use std::test::Fail;

/// An inverter has three variables. After the first, its health, all clauses are done or both are open.
#[test]
fn walks_the_levels(rt: HostRuntime) -> Result<(), Fail> {
    let alloc = rt.alloc();
    let cnf = clauses_of(alloc, "INPUT(a)\ny = NOT(a)\n")?;
    let mut branches = Branches::of(alloc, &cnf)?;
    assert!(rt; branches.level() < branches.len() && branches.len() == 3);
    assert!(rt; branches.words() == 1 && branches.after() == 1);
    for (bit, left) in [(false, 0), (true, 3)] {
        let mut next = [9];
        assert!(rt; branches.step(&cnf, &[0], bit, &mut next));
        assert_eq!(rt; next, [left], "{bit}");
    }
    assert_eq!(rt; branches.var(), 1);
    branches.down();
    assert_eq!(rt; branches.level(), 1);
    branches.up();
    assert_eq!(rt; branches.level(), 0);
    Ok(())
}
