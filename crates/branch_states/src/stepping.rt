ghost use Rattle.std.specs.Prelude.{◌≡◌, ◌<◌, ◌≤◌, ◌+◌, ◌^◌, ◌&&◌, not, List, Bool, length, slice_index};
ghost use Rattle.std.specs.Bool.{OnTrue};
ghost use Rattle.std.specs.List.{filter};
ghost use Rattle.clause_encoder.specs.declared.limits.TheConstants.{CLAUSE_LIMIT};
ghost use Rattle.elimination_forests.specs.Branches.{order, is_active, size, is_dead, has_true, branch, state_of, IsLiving};

use crate::bits::{clear, put_bit};
use crate::clauses::{has_true, is_active, is_covered, is_in};
use clause_encoder::Cnf;
use indexmap::IndexSet;

#[tactic(auto, using(crate::proofs::Rules::counted_clauses))]
pub(crate) fn count_active(cnf: &Cnf, variables: &IndexSet<u32>, level: u32) -> u32
    requires order { variables.now.keys ≡ order cnf.now.clauses }
    requires most { length cnf.now.clauses ≤ CLAUSE_LIMIT }
    ensures active { result ≡ length (filter (is_active (order cnf.now.clauses) level) cnf.now.clauses) }
    ensures few { result ≤ length cnf.now.clauses }
{
    let mut count = 0;
    for at in 0..cnf.len() {
        count += u32::from(is_active(variables, level, cnf.clause(at)));
    }
    count
}

// Writes to `next` the state of what is left when the variable of a level has the bit, or returns false if that is dead.
pub(crate) fn step_over(
    cnf: &Cnf,
    variables: &IndexSet<u32>,
    level: u32,
    variable: u32,
    bit: bool,
    state: &[u64],
    next: &mut [u64],
) -> bool
    requires order { variables.now.keys ≡ order cnf.now.clauses }
    requires most { length cnf.now.clauses ≤ CLAUSE_LIMIT }
    requires level { level < 2 ^ 29 }
    requires variable { variable ≡ slice_index (order cnf.now.clauses) level }
    requires state { length state.now ≡ size cnf.now.clauses level }
    requires next { length next.old ≡ size cnf.now.clauses (level + 1) }
    ensures living { (list : List Bool) → IsLiving cnf.now.clauses level list
        → state.now ≡ state_of cnf.now.clauses level list
        → result ≡ not (is_dead cnf.now.clauses (level + 1) (branch cnf.now.clauses level list bit)) }
    ensures next { (list : List Bool) → IsLiving cnf.now.clauses level list
        → state.now ≡ state_of cnf.now.clauses level list
        → OnTrue result (next.new ≡ state_of cnf.now.clauses (level + 1) (branch cnf.now.clauses level list bit)) }
{
    clear(next);
    let mut read = 0;
    let mut written = 0;
    for at in 0..cnf.len() {
        let clause = cnf.clause(at);
        let was_in = is_in(variables, level, clause, state, read);
        let left = is_left(was_in, clause, variable, bit);
        read += usize::from(is_active(variables, level, clause));
        if is_active(variables, level + 1, clause) {
            put_bit(next, written, left);
            written += 1;
        } else if left && is_covered(variables, level + 1, clause) {
            return false;
        }
    }
    true
}

fn is_left(was_in: bool, clause: &[i32], variable: u32, bit: bool) -> bool
    ensures { result ≡ (was_in && not (has_true variable bit clause.now)) }
{
    was_in && !has_true(clause, variable, bit)
}
