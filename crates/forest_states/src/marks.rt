ghost use Rattle.std.specs.Prelude.{◌≡◌, ℕ, ◌<◌, ◌≤◌, ◌+◌, ◌-◌, ◌^◌, ◌++◌, [], ◌∷◌, true, map, length, slice_index_or, slice_set, IfOk, OnOk, if◌then◌else◌};
ghost use Rattle.std.specs.List.{filter, list_any, range_with_len};
ghost use Rattle.clause_encoder.specs.Clauses.{vars_rise, is_clause_list, var_of};
ghost use Rattle.state_rules.specs.Bits.{bit_in};
ghost use Rattle.forest_states.specs.inner.Descents.{numbered, numbers_at, begun_at, goes_to, is_in_tree, has_var, clause_at};

use clause_encoder::Cnf;
use elimination_forests::Step;
use std::alloc::{AllocError, Global};

pub(crate) fn mark(marks: &mut Vec<bool>, var: u32)
    ensures { marks.new.items ≡ slice_set marks.old.items var true }
{
    if (var as usize) < marks.len() {
        marks[var as usize] = true;
    }
}

/// Writes at each variable the number of its tree, for `trees` trees, whose steps come first. One tree alone needs no numbers.
pub(crate) fn number_trees(numbers: &mut Vec<u32>, trees: u32, steps: &[Step])
    ensures numbers { numbers.new.items ≡ numbers_at trees steps.now numbers.old.items }
    ensures long { length numbers.new.items ≡ length numbers.old.items }
{
    if trees != 1 {
        write_trees(numbers, trees, steps);
    }
}

#[tactic(auto, using(crate::proofs::Rules::write_trees_steps))]
fn write_trees(numbers: &mut Vec<u32>, trees: u32, steps: &[Step])
    ensures numbers { numbers.new.items ≡ numbered trees 0 trees steps.now numbers.old.items }
    ensures long { length numbers.new.items ≡ length numbers.old.items }
{
    let mut begun: u32 = 0;
    let mut left = u128::from(trees);
    for step in steps {
        if left == 0 {
            return;
        }
        begun = begun_at(trees, begun, left);
        write(numbers, step.var, begun.saturating_sub(1));
        left = next_left(left, step.trees);
    }
}

// How many trees have begun at a step, if `left` are left.
fn begun_at(trees: u32, begun: u32, left: u128) -> u32
    requires some { 0 < left }
    requires few { left < 2 ^ 127 }
    ensures { result ≡ begun_at trees begun left }
{
    if left + u128::from(begun) == u128::from(trees) {
        begun + 1
    } else {
        begun
    }
}

// How many trees are left after a step, with those below it.
fn next_left(left: u128, trees: u32) -> u128
    requires some { 0 < left }
    requires few { left < 2 ^ 127 }
    ensures left { result ≡ left - 1 + trees }
    ensures few { result < left + 2 ^ 32 }
{
    left - 1 + u128::from(trees)
}

fn write(numbers: &mut Vec<u32>, var: u32, number: u32)
    ensures { numbers.new.items ≡ slice_set numbers.old.items var number }
{
    if (var as usize) < numbers.len() {
        numbers[var as usize] = number;
    }
}

/// Returns the clause of a number, or an empty one past the last.
pub(crate) fn clause_of(cnf: &Cnf, number: u32) -> &[i32]
    ensures { result.now ≡ clause_at cnf.now.clauses number }
{
    if number < cnf.len() {
        cnf.clause(number)
    } else {
        &[]
    }
}

/// Whether an active clause goes to `tree`: it is the only one of `trees`, or has an unmarked variable of the clause.
pub(crate) fn goes_to(
    cnf: &Cnf,
    trees: u32,
    marks: &[bool],
    numbers: &[u32],
    tree: u32,
    number: u32,
) -> bool
    ensures { result ≡ goes_to cnf.now.clauses trees marks.now numbers.now tree number }
{
    trees == 1 || meets_tree(clause_of(cnf, number), marks, numbers, tree)
}

fn meets_tree(clause: &[i32], marks: &[bool], numbers: &[u32], tree: u32) -> bool
    ensures { result ≡ list_any (λ l. is_in_tree marks.now numbers.now tree (var_of l)) clause.now }
{
    clause
        .iter()
        .any(|literal| is_in_tree(marks, numbers, tree, *literal))
}

fn is_in_tree(marks: &[bool], numbers: &[u32], tree: u32, literal: i32) -> bool
    ensures { result ≡ is_in_tree marks.now numbers.now tree (var_of literal) }
{
    !is_marked(marks, literal) && number_of(numbers, literal) == tree
}

fn number_of(numbers: &[u32], literal: i32) -> u32
    ensures { result ≡ slice_index_or numbers.now (var_of literal) 0 }
{
    let var = literal.unsigned_abs() as usize;
    if var < numbers.len() { numbers[var] } else { 0 }
}

/// Whether the variable of a literal is marked.
pub(crate) fn is_marked(marks: &[bool], literal: i32) -> bool
    ensures { result ≡ bit_in marks.now (var_of literal) }
{
    let var = literal.unsigned_abs() as usize;
    var < marks.len() && marks[var]
}

pub(crate) fn clauses_with(of: &[Vec<u32>], var: u32) -> &[u32]
    ensures { result.now ≡ slice_index_or (map (λ v. v.items) of.now) var [] }
{
    if (var as usize) < of.len() {
        of[var as usize].as_slice()
    } else {
        &[]
    }
}

/// Finds for each variable the numbers of the clauses that have it.
#[tactic(auto, using(crate::proofs::Rules::find_clauses_steps))]
pub(crate) fn find_clauses(alloc: Global, cnf: &Cnf) -> Result<Vec<Vec<u32>>, AllocError>
    ensures valid { is_clause_list cnf.now ≡ true }
    ensures long { IfOk result (λ of. length of.items ≡ cnf.now.vars + 1) }
    ensures of { IfOk result (λ of. (v : ℕ) → v ≤ cnf.now.vars → slice_index_or (map (λ u. u.items) of.items) v []
        ≡ filter (λ n. has_var v (clause_at cnf.now.clauses n)) (range_with_len 0 (length cnf.now.clauses))) }
{
    let size = cnf.vars() as usize + 1;
    let mut of = Vec::with_capacity(alloc, size)?;
    for _var in 0..size {
        of.push(Vec::new(alloc))?;
    }
    for number in 0..cnf.len() {
        add_clause(&mut of, cnf.clause(number), number)?;
    }
    Ok(of)
}

// Adds a number for each variable of a clause.
fn add_clause(of: &mut Vec<Vec<u32>>, clause: &[i32], number: u32) -> Result<(), AllocError>
    requires { vars_rise 0 clause.now ≡ true }
    ensures long { OnOk result (length of.new.items ≡ length of.old.items) }
    ensures of { OnOk result ((v : ℕ) → v < length of.old.items → slice_index_or (map (λ u. u.items) of.new.items) v []
        ≡ slice_index_or (map (λ u. u.items) of.old.items) v [] ++ (if has_var v clause.now then number ∷ [] else [])) }
{
    for literal in clause {
        let var = literal.unsigned_abs() as usize;
        if var < of.len() {
            of[var].push(number)?;
        }
    }
    Ok(())
}
