ghost use Rattle.std.specs.Prelude.{◌≡◌, ◌<◌, ◌≤◌, true, IfOk};
ghost use Rattle.clause_encoder.specs.Clauses.{is_clause_list};
ghost use Rattle.elimination_forests.specs.Branches.{order, sum_of};
ghost use Rattle.elimination_forests.specs.Forests.{steps_of, chain, root, forks_on};
ghost use Rattle.branch_states.specs.declared.measuring.TheConstants.{BUDGET_LIMIT};
ghost use Rattle.branch_states.specs.declared.measuring.MeasureError.TheVariants.{Above};

use crate::measuring::{MeasureError, sum_within};
use crate::order::find_steps;
use clause_encoder::Cnf;
use elimination_forests::{Forks, Step, Weight};
use forest_states::descend;
use std::alloc::Global;

/// The steps and forks of a clause list's levels, along the chain of its order.
#[derive(Debug, Drop)]
pub struct Levels {
    pub steps: Vec<Step>,
    /// Where the lists of each level lead, except those of the last one.
    pub forks: Vec<Forks>,
}

/// Goes down all levels of a clause list, if its sum is within a limit.
///
/// It finds the states of each level once and counts them meanwhile. It stops as soon as the sum is above the limit.
pub fn descend_levels(alloc: Global, cnf: &Cnf, top: u32) -> Result<Levels, MeasureError>
    requires { top ≤ BUDGET_LIMIT }
    ensures steps { IfOk result (λ levels. levels.steps.items ≡ steps_of (chain (order cnf.now.clauses))) }
    ensures forks { IfOk result (λ levels. levels.forks.items ≡ forks_on (chain (order cnf.now.clauses)) (root cnf.now.clauses)) }
    ensures within { IfOk result (λ _. sum_of cnf.now.clauses ≤ top) }
    ensures above { result ≡ Err Above → top < sum_of cnf.now.clauses }
    ensures valid { is_clause_list cnf.now ≡ true }
{
    let steps = find_steps(alloc, cnf)?;
    let Some(found) = descend(alloc, cnf, &steps, Weight::Words, top + 1)? else {
        return Err(MeasureError::Above);
    };
    match sum_within(found.measured, top) {
        Some(_sum) => Ok(Levels {
            steps,
            forks: found.forks,
        }),
        None => Err(MeasureError::Above),
    }
}
