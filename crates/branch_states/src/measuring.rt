ghost use Rattle.std.specs.Prelude.{◌≡◌, ◌<◌, ◌≤◌, ◌+◌, ◌^◌, None, IfOk, IfSome, if◌then◌else◌};
ghost use Rattle.elimination_forests.specs.Branches.{sum_of};
ghost use Rattle.branch_states.specs.declared.measuring.MeasureError.TheVariants.{Above, Memory};

use crate::order::find_steps;
use clause_encoder::Cnf;
use elimination_forests::Weight;
use forest_states::{Measured, measure_along};
use std::alloc::{AllocError, Global};

/// The largest budget: no greater sum is ever printed.
pub const BUDGET_LIMIT: u32 = 8_388_608;

/// Why the sum of a clause list is not returned.
#[derive(Clone, Copy, Debug, PartialEq, Eq)]
pub enum MeasureError {
    /// It is above the limit.
    Above,
    /// Memory ran out.
    Memory,
}

impl From<AllocError> for MeasureError {
    ghost from_gives = { λ _ e. e ≡ Memory };

    fn from(_: AllocError) -> Self {
        MeasureError::Memory
    }
}

/// Computes the sum of a clause list: the words of the states of its living lists, over all levels.
///
/// It goes from level to level, keeps the states of at most two levels, and stops as soon as the sum is above the limit.
pub fn measure(alloc: Global, cnf: &Cnf, top: u32) -> Result<u32, MeasureError>
    requires { top ≤ BUDGET_LIMIT }
    ensures sum { IfOk result (λ sum. sum ≡ sum_of cnf.now.clauses) }

    // If the sum is above the limit, the result is an error, and only then the error is `Above`.
    ensures within { IfOk result (λ sum. sum ≤ top) }
    ensures above { result ≡ Err Above → top < sum_of cnf.now.clauses }
{
    let steps = find_steps(alloc, cnf)?;
    let Some(found) = measure_along(alloc, cnf, &steps, Weight::Words, top + 1)? else {
        return Err(MeasureError::Above);
    };
    match sum_within(found, top) {
        Some(sum) => Ok(sum),
        None => Err(MeasureError::Above),
    }
}

// Computes the sum of the levels from that along their forest, which counts a list for the last level even if there is none. Returns none
// above the limit.
pub(crate) fn sum_within(found: Measured, top: u32) -> Option<u32>
    requires some { 1 ≤ found.sum }
    requires few { found.sum < 2 ^ 31 }
    ensures sum { IfSome result (λ sum. found.sum + (if found.leads_on then 1 else 0) ≡ 1 + sum) }
    ensures within { IfSome result (λ sum. sum ≤ top) }
    ensures above { result ≡ None → 1 + top < found.sum + (if found.leads_on then 1 else 0) }
{
    let sum = found.sum - 1 + u32::from(found.leads_on);
    if top < sum {
        return None;
    }
    Some(sum)
}
