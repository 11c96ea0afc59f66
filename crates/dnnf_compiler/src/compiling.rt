ghost use Rattle.std.specs.Prelude.{◌≡◌, ◌<◌, ◌≤◌, IfOk};
ghost use Rattle.branch_states.specs.declared.measuring.TheConstants.{BUDGET_LIMIT};
ghost use Rattle.branch_states.specs.declared.measuring.MeasureError.TheVariants.{Above};
ghost use Rattle.elimination_forests.specs.Branches.{sum_of};
ghost use Rattle.dnnf_compiler.specs.Compiled.{IsCompiled, most_nodes};

use crate::Memory;
use crate::along::compile_along;
use branch_states::{BUDGET_LIMIT, MeasureError, descend_levels};
use clause_encoder::Cnf;
use node_store::Graph;
use std::alloc::Global;

/// The graph of clauses, and how often a node was made for it, also if an equal one was there.
#[derive(Debug, Drop)]
pub struct Compiled {
    pub graph: Graph,
    pub made: u64,
}

/// Returns a bound on the nodes of the graph of clauses, by their sum and their number of variables.
pub fn most_nodes(sum: u32, vars: u32) -> u64
    ensures { result ≡ most_nodes sum vars }
{
    3 * u64::from(sum) + 2 * u64::from(vars) + 2
}

/// Compiles clauses to a decomposable graph that is true exactly if all of them are.
///
/// The sum of the clause list is at most `BUDGET_LIMIT`. It bounds how often a node is made, and so the size of the graph.
pub fn compile(alloc: Global, cnf: &Cnf) -> Result<Compiled, Memory>
    requires { sum_of cnf.now.clauses ≤ BUDGET_LIMIT }
    ensures { IfOk result (IsCompiled cnf.now) }
{
    // `Above` cannot occur.
    compile_within(alloc, cnf, BUDGET_LIMIT).map_err(|_| Memory)
}

/// Compiles clauses as `compile` does, if the sum of the clause list is within a limit.
///
/// It finds the states of each level once and counts them meanwhile. It stops as soon as the sum is above the limit.
pub fn compile_within(alloc: Global, cnf: &Cnf, top: u32) -> Result<Compiled, MeasureError>
    requires { top ≤ BUDGET_LIMIT }
    // If the sum is above the limit, the result is an error, and only then the error is `Above`.
    ensures within { IfOk result (λ _. sum_of cnf.now.clauses ≤ top) }
    ensures above { result ≡ Err Above → top < sum_of cnf.now.clauses }
    ensures compiled { IfOk result (IsCompiled cnf.now) }
{
    let levels = descend_levels(alloc, cnf, top)?;
    Ok(compile_along(alloc, cnf, &levels.steps, &levels.forks)?)
}
