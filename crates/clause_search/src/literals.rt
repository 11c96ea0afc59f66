ghost use Rattle.std.specs.Prelude.{◌≡◌, true, false};
ghost use Rattle.state_rules.specs.Assignments.{assignment};
ghost use Rattle.clause_encoder.specs.Clauses.{is_true_clause, all_hold};
ghost use Rattle.clause_search.specs.Searching.{holds, all_true};

use crate::marks::variable_of;
use flat_lists::FlatLists;

/// Whether a literal is true. Variables past the bits are false.
pub(crate) fn is_true(bits: &[bool], literal: i32) -> bool
    ensures { result ≡ holds (assignment bits.now) literal }
{
    let place = (variable_of(literal) as usize).saturating_sub(1);
    let bit = place < bits.len() && bits[place];
    if literal < 0 { !bit } else { bit }
}

/// Whether all literals are true.
pub(crate) fn all_true(bits: &[bool], literals: &[i32]) -> bool
    ensures { result ≡ all_true (assignment bits.now) literals.now }
{
    for literal in literals {
        if !is_true(bits, *literal) {
            return false;
        }
    }
    true
}

fn is_true_clause(bits: &[bool], clause: &[i32]) -> bool
    ensures { result ≡ is_true_clause (assignment bits.now) clause.now }
{
    for literal in clause {
        if is_true(bits, *literal) {
            return true;
        }
    }
    false
}

/// Whether all clauses are true.
pub(crate) fn all_hold(bits: &[bool], clauses: &FlatLists<i32>) -> bool
    ensures { result ≡ all_hold (assignment bits.now) clauses.now }
{
    for at in 0..clauses.len() {
        if !is_true_clause(bits, clauses.list(at)) {
            return false;
        }
    }
    true
}
