ghost use Rattle.std.specs.Prelude.{◌≡◌, ◌≤◌, ◌+◌, ◌++◌, [], ◌∷◌, ◌&&◌, ◌||◌, ◌==◌, true, false, not, map, length, nat_lt, IfOk, OnOk, if◌then◌else◌};
ghost use Rattle.std.specs.List.{filter, prefix_len};
ghost use Rattle.clause_encoder.specs.Clauses.{var_of};
ghost use Rattle.state_rules.specs.Bits.{bit_in};
ghost use Rattle.elimination_forests.specs.Branches.{is_true_by};
ghost use Rattle.forest_states.specs.inner.Descents.{transition_of, transition_at, after, met, transitions_of, kept_of, goes_to};

use crate::marks::{clause_of, goes_to, is_marked};
use crate::picks::Picks;
use crate::transition_tables::{ClauseTransition, TransitionTable};
use clause_encoder::Cnf;
use std::alloc::{AllocError, Global};

/// Finds the transition table of a variable for the active clauses of a place and those that begin with it, and the numbers of those that
/// do not end.
///
/// `touched` are the clauses that have the variable. The others stay as they are, and are not read.
#[tactic(auto, using(crate::proofs::Rules::find_table_steps))]
pub(crate) fn find_table(
    alloc: Global,
    cnf: &Cnf,
    seen: &[bool],
    var: u32,
    touched: &[u32],
    active: &[u32],
) -> Result<(TransitionTable, Vec<u32>), AllocError>
    ensures table { IfOk result (λ r. r.0 ≡ transitions_of (met (transition_at cnf.now.clauses seen.now var) touched.now active.now)) }
    ensures short { IfOk result (λ r. length r.0 ≤ length active.now + length touched.now) }
    ensures kept { IfOk result (λ r. r.1.items ≡ kept_of (met (transition_at cnf.now.clauses seen.now var) touched.now active.now)) }
{
    let mut table = TransitionTable::new(alloc, touched.len())?;
    let mut kept = Vec::with_capacity(alloc, active.len())?;
    let mut rest = active;
    for number in touched {
        let below = count_below(rest, *number);
        kept.extend_from_slice(&rest[..below])?;
        table.skip(below);
        let transition = transition_of(seen, var, clause_of(cnf, *number));
        add(&mut kept, *number, !transition.ends)?;
        table.push(transition)?;
        rest = after(transition, &rest[below..]);
    }
    kept.extend_from_slice(rest)?;
    table.skip(rest.len());
    Ok((table, kept))
}

// Counts the numbers at the front that are below another.
fn count_below(numbers: &[u32], number: u32) -> usize
    ensures { result ≡ prefix_len (λ n. nat_lt n number) numbers.now }
{
    let mut count = 0;
    'below: while count < numbers.len() && numbers[count] < number {
        count += 1;
    }
    count
}

fn add(numbers: &mut Vec<u32>, number: u32, is_kept: bool) -> Result<(), AllocError>
    ensures { OnOk result (numbers.new.items ≡ numbers.old.items ++ (if is_kept then number ∷ [] else [])) }
{
    if is_kept {
        numbers.push(number)?;
    }
    Ok(())
}

// The active clauses after that of a transition. It is not among them if none of its variables was assigned.
fn after(transition: ClauseTransition, active: &[u32]) -> &[u32]
    ensures { result.now ≡ after transition active.now }
{
    if transition.fresh || active.is_empty() {
        active
    } else {
        &active[1..]
    }
}

// What the bit of a variable does to a clause.
fn transition_of(seen: &[bool], var: u32, clause: &[i32]) -> ClauseTransition
    ensures { result ≡ transition_of seen.now var clause.now }
{
    let mut transition = ClauseTransition {
        fresh: true,
        true_at_0: false,
        true_at_1: false,
        ends: true,
    };
    for literal in clause {
        transition = with_literal(transition, seen, var, *literal);
    }
    transition
}

fn with_literal(
    transition: ClauseTransition,
    seen: &[bool],
    var: u32,
    literal: i32,
) -> ClauseTransition
    ensures { result ≡ record {
      fresh = transition.fresh && not (bit_in seen.now (var_of literal));
      true_at_0 = transition.true_at_0 || is_true_by var false literal;
      true_at_1 = transition.true_at_1 || is_true_by var true literal;
      ends = transition.ends && ((var == var_of literal) || bit_in seen.now (var_of literal));
    } }
{
    ClauseTransition {
        fresh: transition.fresh && !is_marked(seen, literal),
        true_at_0: transition.true_at_0 || is_true_by(literal, var, false),
        true_at_1: transition.true_at_1 || is_true_by(literal, var, true),
        ends: transition.ends && (var == literal.unsigned_abs() || is_marked(seen, literal)),
    }
}

fn is_true_by(literal: i32, var: u32, bit: bool) -> bool
    ensures { result ≡ is_true_by var bit literal }
{
    literal.unsigned_abs() == var && (literal >= 0) == bit
}

/// Finds the picks of the clauses that go to a tree, and their numbers.
pub(crate) fn find_picks(
    alloc: Global,
    cnf: &Cnf,
    trees: u32,
    seen: &[bool],
    places: &[u32],
    tree: u32,
    numbers: &[u32],
) -> Result<(Picks, Vec<u32>), AllocError>
    ensures picks { IfOk result (λ r. r.0 ≡ map (goes_to cnf.now.clauses trees seen.now places.now tree) numbers.now) }
    ensures kept { IfOk result (λ r. r.1.items ≡ filter (goes_to cnf.now.clauses trees seen.now places.now tree) numbers.now) }
{
    let mut picks = Picks::new(alloc);
    let mut kept = Vec::with_capacity(alloc, numbers.len())?;
    for number in numbers {
        let is_picked = goes_to(cnf, trees, seen, places, tree, *number);
        if is_picked {
            kept.push(*number)?;
        }
        picks.push(is_picked, 1)?;
    }
    Ok((picks, kept))
}
