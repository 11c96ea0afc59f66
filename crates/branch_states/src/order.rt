ghost use Rattle.std.specs.Prelude.{true, ◌≡◌, ◌≤◌, [], ◌∷◌, ◌++◌, ℕ, List, map, length, IfOk, OnOk};
ghost use Rattle.clause_encoder.specs.Clauses.{var_of, is_clause_list};
ghost use Rattle.elimination_forests.specs.Branches.{first_met, same_variable, order};
ghost use Rattle.elimination_forests.specs.Forests.{steps_of, chain};

use clause_encoder::Cnf;
use elimination_forests::Step;
use indexmap::IndexSet;
use std::alloc::{AllocError, Global};

// Finds the variables of a clause list in the order in which they first occur.
#[tactic(auto, using(crate::proofs::Rules::few_variables))]
pub(crate) fn find_order(alloc: Global, cnf: &Cnf) -> Result<IndexSet<u32>, AllocError>
    ensures order { IfOk result (λ found. found.keys ≡ order cnf.now.clauses) }
    ensures valid { is_clause_list cnf.now ≡ true }
    ensures few { IfOk result (λ found. length found.keys ≤ cnf.now.vars) }
{
    let mut variables = IndexSet::with_capacity(alloc, cnf.vars() as usize)?;
    for at in 0..cnf.len() {
        meet_all(&mut variables, cnf.clause(at))?;
    }
    Ok(variables)
}

fn meet_all(variables: &mut IndexSet<u32>, clause: &[i32]) -> Result<(), AllocError>
    ensures { OnOk result ((vs : List ℕ) → variables.old.keys ≡ first_met same_variable vs
        → variables.new.keys ≡ first_met same_variable (vs ++ map var_of clause.now)) }
{
    for literal in clause {
        meet(variables, literal.unsigned_abs())?;
    }
    Ok(())
}

#[tactic(auto, using(crate::proofs::FoundOrder::met))]
fn meet(variables: &mut IndexSet<u32>, variable: u32) -> Result<(), AllocError>
    ensures { OnOk result ((vs : List ℕ) → variables.old.keys ≡ first_met same_variable vs
        → variables.new.keys ≡ first_met same_variable (vs ++ variable ∷ [])) }
{
    variables.insert_full(variable)?;
    Ok(())
}

/// Finds the steps of the chain of the order.
pub(crate) fn find_steps(alloc: Global, cnf: &Cnf) -> Result<Vec<Step>, AllocError>
    ensures steps { IfOk result (λ steps. steps.items ≡ steps_of (chain (order cnf.now.clauses))) }
    ensures valid { is_clause_list cnf.now ≡ true }
{
    let variables = find_order(alloc, cnf)?;
    steps_down(alloc, variables.as_slice())
}

#[tactic(auto, using(crate::proofs::Rules::chain_steps_found))]
fn steps_down(alloc: Global, variables: &[u32]) -> Result<Vec<Step>, AllocError>
    ensures { IfOk result (λ steps. steps.items ≡ steps_of (chain variables.now)) }
{
    let count = variables.len();
    let mut steps = Vec::with_capacity(alloc, count)?;
    for at in 0..count {
        steps.push(Step {
            var: variables[at],
            trees: u32::from(at + 1 < count),
        })?;
    }
    Ok(steps)
}
