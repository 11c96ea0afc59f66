ghost use Rattle.std.specs.Prelude.{◌≡◌, ◌<◌, ◌≤◌, ℕ, Bool, Option, Ok, IfOk, IfErr};
ghost use Rattle.text_rules.specs.Expected.{IsExpectedFault, Fulfils};
ghost use Rattle.clause_encoder.specs.Clauses.{ClauseList};
ghost use Rattle.clause_encoder.specs.Encoding.{encoded};
ghost use Rattle.branch_states.specs.Branches.{sum_of};
ghost use Rattle.elimination_forests.specs.Forests.{Forest};
ghost use Rattle.device_files.specs.Choices.{clauses_by, ByClauses, IsChosen, HasSum, IsListOf};
ghost use Rattle.device_files.specs.Weighing.{if_not_too_many, within};
ghost use Rattle.device_files.specs.Refusals.{refusal_output};

use crate::Memory;
use crate::refusal::{Refusal, above};
use branch_states::{BUDGET_LIMIT, MeasureError, measure};
use clause_encoder::{CLAUSE_LIMIT, Cnf, EncodeError, encode};
use device_model::Device;
use std::alloc::Global;
use tree_finder::{Narrowed, narrow};

/// Returns the clauses of a device. An error says that there are too many, whatever the budget, or that memory ran out.
pub fn clauses_of(alloc: Global, device: &Device) -> Result<Cnf, Refusal>
    ensures list { IfOk result (IsListOf device.now) }
    ensures many { IfErr result (λ refusal. IsExpectedFault (refusal_output refusal) (if_not_too_many (encoded device.now))) }
    ensures fault { IfErr result (λ refusal. (is_narrow : Bool) (choose : ClauseList → Option Forest) (budget : ℕ)
        → IsExpectedFault (refusal_output refusal) (within budget (clauses_by is_narrow choose device.now))) }
{
    match encode(alloc, device) {
        Ok(cnf) => Ok(cnf),
        Err(EncodeError::TooManyClauses { count }) => {
            Err(above("clauses", count, CLAUSE_LIMIT as usize))
        }
        Err(EncodeError::Memory) => Err(Refusal::Memory),
    }
}

/// Returns the forest along which clauses are compiled, if one is asked for and found; otherwise the order of their names is used.
pub fn forest_of(alloc: Global, cnf: &Cnf, is_narrow: bool) -> Result<Option<Narrowed>, Memory>
    ensures { IfOk result (IsChosen is_narrow cnf.now) }
{
    if !is_narrow {
        return Ok(None);
    }
    narrow(alloc, cnf)
}

/// Returns the clauses of a device, and the forest along which they are compiled, if one is asked for and found. An error says that there
/// are too many clauses, whatever the budget, or that memory ran out.
pub fn clauses_along(
    alloc: Global,
    device: &Device,
    is_narrow: bool,
) -> Result<(Cnf, Option<Narrowed>), Refusal>
    ensures list { IfOk result (λ found. IsListOf device.now found.0) }
    ensures forest { IfOk result (λ found. IsChosen is_narrow found.0 found.1) }
    ensures fault { IfErr result (λ refusal. (choose : ClauseList → Option Forest) (budget : ℕ)
        → IsExpectedFault (refusal_output refusal) (within budget (clauses_by is_narrow choose device.now))) }
{
    let cnf = clauses_of(alloc, device)?;
    let forest = forest_of(alloc, &cnf, is_narrow)?;
    Ok((cnf, forest))
}

/// Returns the clauses of a device and their sum, if it is within a budget.
pub(crate) fn clauses_within(
    alloc: Global,
    device: &Device,
    budget: u32,
    is_narrow: bool,
) -> Result<(Cnf, u32), Refusal>
    requires { budget ≤ BUDGET_LIMIT }
    ensures { ByClauses is_narrow (λ clauses.
        Fulfils (λ found. record { list = found.0; sum = found.1 }) refusal_output (within budget (clauses device.now)) result) }
{
    let (cnf, forest) = clauses_along(alloc, device, is_narrow)?;
    let sum = sum_within(alloc, &cnf, &forest, budget)?;
    Ok((cnf, sum))
}

/// Returns the sum of clauses by the order of their names, or along a forest that was found for them, if it is within a budget.
pub fn sum_within(
    alloc: Global,
    cnf: &Cnf,
    forest: &Option<Narrowed>,
    budget: u32,
) -> Result<u32, Refusal>
    requires { budget ≤ BUDGET_LIMIT }
    ensures list { (sum : ℕ) → HasSum cnf.now forest.now sum
        → Fulfils (λ _. record { list = cnf.now; sum = sum }) refusal_output (within budget (Ok (record { list = cnf.now; sum = sum }))) result }
    ensures sum { (sum : ℕ) → HasSum cnf.now forest.now sum → IfOk result (λ found. found ≡ sum) }
    ensures few { IfOk result (λ sum. sum ≤ budget) }
{
    match forest {
        Some(found) => found_within(found, budget),
        None => named_within(alloc, cnf, budget),
    }
}

/// Returns the sum along a forest that was found, if it is within a budget.
pub fn found_within(found: &Narrowed, budget: u32) -> Result<u32, Refusal>
    ensures sum { IfOk result (λ sum. sum ≡ found.now.sum) }
    ensures few { IfOk result (λ sum. sum ≤ budget) }
    ensures fault { IfErr result (λ refusal. refusal ≡ Refusal.Sum budget) }
    ensures above { IfErr result (λ refusal. budget < found.now.sum) }
{
    if budget < found.sum {
        return Err(Refusal::Sum { budget });
    }
    Ok(found.sum)
}

// The sum by the order of the names, in words of 64 bits, if it is within a budget.
fn named_within(alloc: Global, cnf: &Cnf, budget: u32) -> Result<u32, Refusal>
    requires { budget ≤ BUDGET_LIMIT }
    ensures sum { IfOk result (λ sum. sum ≡ sum_of cnf.now.clauses) }
    ensures few { IfOk result (λ sum. sum ≤ budget) }
    ensures fault { IfErr result (λ refusal. IsExpectedFault (refusal_output refusal)
        (within budget (Ok (record { list = cnf.now; sum = sum_of cnf.now.clauses })))) }
{
    match measure(alloc, cnf, budget) {
        Ok(sum) => Ok(sum),
        Err(MeasureError::Above) => Err(Refusal::Sum { budget }),
        Err(MeasureError::Memory) => Err(Refusal::Memory),
    }
}
