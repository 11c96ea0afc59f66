ghost use Rattle.std.specs.Prelude.{◌≡◌, ◌<◌, ◌≤◌, ◌*◌, true, IfOk};
ghost use Rattle.branch_states.specs.declared.measuring.TheConstants.{BUDGET_LIMIT};
ghost use Rattle.branch_states.specs.declared.measuring.MeasureError.TheVariants.{Above};
ghost use Rattle.elimination_forests.specs.declared.steps.Weight.TheVariants.{Lists};
ghost use Rattle.elimination_forests.specs.Forests.{Forest, steps_of, is_forest_of, forest_sum};
ghost use Rattle.dnnf_compiler.specs.Along.{IsCompiledAlong};

use crate::along::compile_along;
use crate::compiling::Compiled;
use branch_states::{BUDGET_LIMIT, MeasureError};
use clause_encoder::Cnf;
use elimination_forests::{Step, Weight};
use forest_states::descend;
use std::alloc::Global;

/// Compiles clauses along a forest of them with these steps, if its sum is within the budget.
///
/// The sum counts one for each list of clauses at a place, and one more. A sum above the budget is an error: `Above`, unless memory
/// runs out first.
pub fn compile_forest(
    alloc: Global,
    cnf: &Cnf,
    steps: &[Step],
    budget: u32,
) -> Result<Compiled, MeasureError>
    requires budget { budget ≤ BUDGET_LIMIT }
    requires forest { (forest : Forest) × (steps.now ≡ steps_of forest) × (is_forest_of forest cnf.now ≡ true) }
    ensures compiled { IfOk result (λ compiled. (forest : Forest) → steps.now ≡ steps_of forest → is_forest_of forest cnf.now ≡ true
        → IsCompiledAlong forest cnf.now compiled) }
    ensures within { IfOk result (λ _. (forest : Forest) → steps.now ≡ steps_of forest → is_forest_of forest cnf.now ≡ true
        → forest_sum Lists forest cnf.now.clauses ≤ budget) }
    ensures above { result ≡ Err Above → (forest : Forest) → steps.now ≡ steps_of forest → is_forest_of forest cnf.now ≡ true
        → budget < forest_sum Lists forest cnf.now.clauses }
{
    let Some(found) = descend(alloc, cnf, steps, Weight::Lists, budget)? else {
        return Err(MeasureError::Above);
    };
    Ok(compile_along(alloc, cnf, steps, found.forks.as_slice())?)
}
